// The form of a book for a person: a line for each row, element and component.
ghost use Rattle.std.specs.Prelude.{◌≡◌, ◌++◌, OnOk};
ghost use Rattle.booklist.specs.Person.{identifier_text, row_text, element_text, component_text, indented, kind_text, need_text};

use crate::form::{BookForm, PARTS};
use listing::page::Page;
use listing::person::Person;
use message::book::Book;
use message::layout::{ComponentRule, ElementRule};
use message::row::{Kind, Need, Row};
use std::alloc::AllocError;

// Words of this form alone: `Display` would give a row's kind and need one text for both forms.
fn kind_text(kind: Kind) -> &'static str
    ensures { result.now ≡ kind_text kind }
{
    match kind {
        Kind::Trigger => " group",
        Kind::Plain => "",
    }
}

fn need_text(need: Need) -> &'static str
    ensures { result.now ≡ need_text need }
{
    match need {
        Need::Optional => "optional",
        Need::Required => "required",
    }
}

// Two spaces for each level.
fn push_indent(page: &mut Page, level: u8) -> Result<(), AllocError>
    ensures { OnOk result (page.new ≡ page.old ++ indented level) }
{
    for _step in 0..level {
        page.push_bytes(b"  ")?;
    }
    Ok(())
}

impl BookForm for Person {
    ghost shown_identifier = { identifier_text };

    ghost shown_row = { row_text };

    ghost shown_element = { λ n e rule. element_text e rule };

    ghost shown_component = { λ n e c rule. component_text e c rule };

    // The parts of the identifier, with a colon between them.
    fn push_identifier<B: Book>(page: &mut Page, book: &B) -> Result<(), AllocError> {
        if let Some(part) = book.identifier_part(0) {
            page.push_bytes(part)?;
        }
        for number in 1..PARTS {
            page.push(b':')?;
            if let Some(part) = book.identifier_part(number) {
                page.push_bytes(part)?;
            }
        }
        page.push(b'\n')
    }

    // A row: its number, its tag indented by its level, and how often it stands.
    fn push_row(page: &mut Page, n: usize, row: Row) -> Result<(), AllocError> {
        let group = kind_text(row.kind);
        let need = need_text(row.need);
        let limit = row.limit;
        let times = if limit == 1 { "time" } else { "times" };
        write!(page, "{n:>6}  ")?;
        push_indent(page, row.level)?;
        page.push_bytes(&row.tag)?;
        writeln!(page, "{group}, {need}, up to {limit} {times}")
    }

    // An element: its number, its status letter, and whether it has several components.
    fn push_element(
        page: &mut Page,
        n: usize,
        e: usize,
        rule: ElementRule,
    ) -> Result<(), AllocError> {
        let status = rule.status;
        let composite = if rule.components > 1 {
            " composite"
        } else {
            ""
        };
        writeln!(page, "{e:>12} {status}{composite}")
    }

    // A component: its numbers, its class and length, its status letter, and whether codes follow.
    fn push_component(
        page: &mut Page,
        n: usize,
        e: usize,
        c: usize,
        rule: ComponentRule,
    ) -> Result<(), AllocError> {
        let class = rule.class;
        let extent = rule.extent;
        let status = rule.status;
        write!(page, "{e:>12}.{c} {class}{extent} {status}")?;
        if rule.codes > 0 {
            page.push_bytes(b" one of ")?;
        }
        Ok(())
    }
}
