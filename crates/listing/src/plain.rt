// The plain form, for other programs: a line of tab-separated fields for each segment and each component.
ghost use Rattle.std.specs.Prelude.{◌≡◌, ◌++◌, OnOk, refl};
ghost use Rattle.listing.specs.Plain.{component_line, element_lines, segment_line, last_line, file_line, listing};

use crate::page::Page;
use crate::text::TextForm;
use edifact::element::Element;
use edifact::segment::Segment;
use std::alloc::AllocError;
use syntax::fault::{CutFault, Refusal};

#[derive(Clone, Copy, Drop)]
pub struct Plain;

// The line of component `c` of element `e`.
pub fn push_component(page: &mut Page, e: usize, c: usize, bytes: &[u8]) -> Result<(), AllocError>
    ensures { OnOk result (page.new ≡ page.old ++ component_line e c bytes.now) }
{
    write!(page, "component\t{e}\t{c}\t")?;
    page.push_bytes(bytes)?;
    page.push(b'\n')
}

impl TextForm for Plain {
    ghost shown_name = { file_line };

    ghost shown_head = { segment_line };

    ghost shown_element = { element_lines };

    ghost shown_end = { last_line };

    ghost shown = { listing };

    ghost in_order = { λ name text. refl };

    // The line of a text's name.
    fn push_name(page: &mut Page, name: &str) -> Result<(), AllocError> {
        page.push_bytes(b"file\t")?;
        page.push_bytes(name.as_bytes())?;
        page.push(b'\n')
    }

    // The line of a segment.
    fn push_head(page: &mut Page, segment: &Segment<'_>) -> Result<(), AllocError> {
        let number = segment.number();
        let first = segment.position();
        let length = segment.len();
        write!(page, "segment\t{number}\t")?;
        page.push_bytes(&segment.tag())?;
        writeln!(page, "\t{first}\t{length}")
    }

    // The lines of the components of element `e`.
    fn push_element(page: &mut Page, e: usize, element: &Element<'_>) -> Result<(), AllocError> {
        for (c, component) in (1..).zip(element.components()) {
            push_component(page, e, c, component.bytes())?;
        }
        Ok(())
    }

    // The last line: how many segments there are, or why the text isn't cut throughout.
    fn push_end(page: &mut Page, count: usize, fault: Option<CutFault>) -> Result<(), AllocError> {
        match fault {
            None => writeln!(page, "cut\t{count}"),
            Some(fault) => {
                let refusal = Refusal::from(fault);
                let number = refusal.number;
                let segment = refusal.place.segment;
                let element = refusal.place.element;
                let component = refusal.place.component;
                writeln!(page, "stopped\t{number}\t{segment}\t{element}\t{component}")
            }
        }
    }
}
