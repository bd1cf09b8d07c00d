// The plain form of a book, for other programs: a line of tab-separated fields for each row, element and component.
ghost use Rattle.std.specs.Prelude.{◌≡◌, ◌++◌, OnOk};
ghost use Rattle.booklist.specs.Plain.{identifier_line, kind_letter, need_letter, extent_mark, extent_length, row_line, element_fields, component_texts};

use crate::form::{BookForm, PARTS};
use listing::page::Page;
use listing::plain::Plain;
use message::book::Book;
use message::layout::{ComponentRule, ElementRule, Extent};
use message::row::{Kind, Need, Row};
use std::alloc::AllocError;

// Letters of this form alone: `Display` would give a row's kind and need one text for both forms.
fn kind_letter(kind: Kind) -> char
    ensures { result ≡ kind_letter kind }
{
    match kind {
        Kind::Trigger => 't',
        Kind::Plain => 'p',
    }
}

fn need_letter(need: Need) -> char
    ensures { result ≡ need_letter need }
{
    match need {
        Need::Optional => 'O',
        Need::Required => 'R',
    }
}

// The plain form has mark and length in fields of their own, so that `Display` of `Extent` isn't it.
fn extent_mark(extent: Extent) -> &'static str
    ensures { result.now ≡ extent_mark extent }
{
    match extent {
        Extent::Exactly(_) => "=",
        Extent::AtMost(_) => "..",
    }
}

fn extent_length(extent: Extent) -> u16
    ensures { result ≡ extent_length extent }
{
    match extent {
        Extent::Exactly(length) | Extent::AtMost(length) => length,
    }
}

impl BookForm for Plain {
    ghost shown_identifier = { identifier_line };

    ghost shown_row = { row_line };

    ghost shown_element = { element_fields };

    ghost shown_component = { component_texts };

    fn push_identifier<B: Book>(page: &mut Page, book: &B) -> Result<(), AllocError> {
        page.push_bytes(b"identifier")?;
        for number in 0..PARTS {
            if let Some(part) = book.identifier_part(number) {
                page.push(b'\t')?;
                page.push_bytes(part)?;
            }
        }
        page.push(b'\n')
    }

    fn push_row(page: &mut Page, n: usize, row: Row) -> Result<(), AllocError> {
        let level = row.level;
        let kind = kind_letter(row.kind);
        let need = need_letter(row.need);
        let limit = row.limit;
        write!(page, "row\t{n}\t")?;
        page.push_bytes(&row.tag)?;
        writeln!(page, "\t{level}\t{kind}\t{need}\t{limit}")
    }

    fn push_element(
        page: &mut Page,
        n: usize,
        e: usize,
        rule: ElementRule,
    ) -> Result<(), AllocError> {
        let status = rule.status;
        writeln!(page, "element\t{n}\t{e}\t{status}")
    }

    fn push_component(
        page: &mut Page,
        n: usize,
        e: usize,
        c: usize,
        rule: ComponentRule,
    ) -> Result<(), AllocError> {
        let class = rule.class;
        let mark = extent_mark(rule.extent);
        let length = extent_length(rule.extent);
        let status = rule.status;
        write!(page, "component\t{n}\t{e}\t{c}\t{class}\t")?;
        write!(page, "{mark}\t{length}\t{status}\t")
    }
}
