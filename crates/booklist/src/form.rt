// The listing of a book, in the form that is asked. A book tells its rows, elements, components and codes by
// number, so each loop goes over the numbers. The functions take these numbers as a form's methods do: a struct
// of them would be made and taken apart at each call.
ghost use Rattle.std.specs.Prelude.{◌≡◌, ℕ, ◌+◌, ◌^◌, ◌<◌, List, [], ◌∷◌, ◌++◌, Some, OnOk};
ghost use Rattle.booklist.specs.Form.{spaced, codes_text, components_text, layout_text, row_lines, rows_text};
ghost use Rattle.message.specs.declared.row.Row.{Row};
ghost use Rattle.message.specs.declared.layout.ElementRule.{ElementRule};
ghost use Rattle.message.specs.declared.layout.ComponentRule.{ComponentRule};

use listing::command::Detail;
use listing::page::Page;
use message::book::Book;
use message::layout::{ComponentRule, ElementRule};
use message::row::Row;
use std::alloc::AllocError;

// The most elements that a layout has: a book doesn't tell how many a row has.
pub const MOST_ELEMENTS: usize = 40;

// How many parts an identifier has.
pub const PARTS: usize = 5;

// A form in which books are listed: what it shows of the identifier, of each row, element and component.
// Rows count from 0, elements and components from 1.
pub trait BookForm {
    ghost shown_identifier: { List (List ℕ) → List ℕ };

    ghost shown_row: { ℕ → Row → List ℕ };

    ghost shown_element: { ℕ → ℕ → ElementRule → List ℕ };

    // what stands in front of a component's codes
    ghost shown_component: { ℕ → ℕ → ℕ → ComponentRule → List ℕ };

    fn push_identifier<B: Book>(page: &mut Page, book: &B) -> Result<(), AllocError>
        ensures { OnOk result (page.new ≡ page.old ++ shown_identifier (B.Book.identifier book.now)) };

    fn push_row(page: &mut Page, n: usize, row: Row) -> Result<(), AllocError>
        ensures { OnOk result (page.new ≡ page.old ++ shown_row n row) };

    fn push_element(
        page: &mut Page,
        n: usize,
        e: usize,
        rule: ElementRule,
    ) -> Result<(), AllocError>
        ensures { OnOk result (page.new ≡ page.old ++ shown_element n e rule) };

    fn push_component(
        page: &mut Page,
        n: usize,
        e: usize,
        c: usize,
        rule: ComponentRule,
    ) -> Result<(), AllocError>
        ensures { OnOk result (page.new ≡ page.old ++ shown_component n e c rule) };
}

// Code `k` of a component: each but the first stands behind a space.
fn push_code(page: &mut Page, k: usize, code: &[u8]) -> Result<(), AllocError>
    ensures { OnOk result (page.new ≡ page.old ++ spaced k (Some code.now)) }
{
    if k > 0 {
        page.push(b' ')?;
    }
    page.push_bytes(code)
}

// The first `count` codes of a component, with a space between them. Rows, elements and components count from 0 in a book.
pub fn push_codes<B: Book>(
    page: &mut Page,
    book: &B,
    n: usize,
    e: usize,
    c: usize,
    count: usize,
) -> Result<(), AllocError>
    ensures { OnOk result (page.new ≡ page.old ++ codes_text (B.Book.layouts book.now) n e c count) }
{
    for k in 0..count {
        let Some(code) = book.code(n, e, c, k) else {
            break;
        };
        push_code(page, k, code)?;
    }
    Ok(())
}

// A component with its codes. The bounds here and below are no field of a type: they hang on how far the loops have come.
fn push_component_line<F: BookForm, B: Book>(
    page: &mut Page,
    book: &B,
    n: usize,
    e: usize,
    c: usize,
    rule: ComponentRule,
) -> Result<(), AllocError>
    requires { (e + 1 < 2 ^ 64) × (c + 1 < 2 ^ 64) }
    ensures { OnOk result (page.new ≡ page.old ++ (F.shown_component n (e + 1) (c + 1) rule ++ (codes_text (B.Book.layouts book.now) n e c rule.codes ++ 10 ∷ []))) }
{
    F::push_component(page, n, e + 1, c + 1, rule)?;
    push_codes(page, book, n, e, c, rule.codes)?;
    page.push(b'\n')
}

// The first `count` components of an element.
fn push_components<F: BookForm, B: Book>(
    page: &mut Page,
    book: &B,
    n: usize,
    e: usize,
    count: usize,
) -> Result<(), AllocError>
    requires { e + 1 < 2 ^ 64 }
    ensures { OnOk result (page.new ≡ page.old ++ components_text F.shown_component (B.Book.layouts book.now) n e count) }
{
    for c in 0..count {
        if let Some(rule) = book.component(n, e, c) {
            push_component_line::<F, B>(page, book, n, e, c, rule)?;
        }
    }
    Ok(())
}

// An element with its components.
fn push_element_lines<F: BookForm, B: Book>(
    page: &mut Page,
    book: &B,
    n: usize,
    e: usize,
    rule: ElementRule,
) -> Result<(), AllocError>
    requires { e + 1 < 2 ^ 64 }
    ensures { OnOk result (page.new ≡ page.old ++ (F.shown_element n (e + 1) rule ++ components_text F.shown_component (B.Book.layouts book.now) n e rule.components)) }
{
    F::push_element(page, n, e + 1, rule)?;
    push_components::<F, B>(page, book, n, e, rule.components)
}

// The elements and components of row `n`. A book doesn't tell how many elements a row has, but never more than `MOST_ELEMENTS`.
pub fn push_layout<F: BookForm, B: Book>(
    page: &mut Page,
    book: &B,
    n: usize,
) -> Result<(), AllocError>
    ensures { OnOk result (page.new ≡ page.old ++ layout_text F.shown_element F.shown_component (B.Book.layouts book.now) n) }
{
    for e in 0..MOST_ELEMENTS {
        let Some(rule) = book.element(n, e) else {
            break;
        };
        push_element_lines::<F, B>(page, book, n, e, rule)?;
    }
    Ok(())
}

// A row, and its layout where that is asked for.
fn push_row<F: BookForm, B: Book>(
    page: &mut Page,
    book: &B,
    n: usize,
    row: Row,
    detail: Detail,
) -> Result<(), AllocError>
    ensures { OnOk result (page.new ≡ page.old ++ row_lines F.shown_row (layout_text F.shown_element F.shown_component (B.Book.layouts book.now)) detail n (Some row)) }
{
    F::push_row(page, n, row)?;
    match detail {
        Detail::Rows => Ok(()),
        Detail::Layouts => push_layout::<F, B>(page, book, n),
    }
}

// Lists a book.
pub fn push_book<F: BookForm, B: Book>(
    page: &mut Page,
    book: &B,
    detail: Detail,
) -> Result<(), AllocError>
    ensures { OnOk result (page.new ≡ page.old ++ (F.shown_identifier (B.Book.identifier book.now) ++ rows_text F.shown_row (layout_text F.shown_element F.shown_component (B.Book.layouts book.now)) detail (B.Diagram.rows book.now))) }
{
    F::push_identifier(page, book)?;
    for n in 0..book.row_count() {
        if let Some(row) = book.row(n) {
            push_row::<F, B>(page, book, n, row, detail)?;
        }
    }
    Ok(())
}
