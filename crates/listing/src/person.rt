// The form for a person: a line for each segment, and one for each element with its components' characters.
ghost use Rattle.std.specs.Prelude.{◌≡◌, false, ◌++◌, OnOk, refl};
ghost use Rattle.syntax.specs.Split.{characters as characters_in};
ghost use Rattle.edifact.specs.Cursors.{component_part, element_part};
ghost use Rattle.listing.specs.Person.{element_text, element_line, head_text, end_text, name_text, person_listing};

use crate::page::Page;
use crate::text::TextForm;
use edifact::component::Component;
use edifact::element::Element;
use edifact::segment::Segment;
use std::alloc::AllocError;
use syntax::fault::CutFault;

#[derive(Clone, Copy, Drop)]
pub struct Person;

// The characters of a component.
fn push_component(page: &mut Page, component: &Component<'_>) -> Result<(), AllocError>
    ensures { OnOk result (page.new ≡ page.old ++ characters_in (component_part component.now).marks.release false (component_part component.now).bytes) }
{
    for character in component.characters() {
        page.push(character)?;
    }
    Ok(())
}

// The components of an element, with a bar between them.
fn push_components(page: &mut Page, element: &Element<'_>) -> Result<(), AllocError>
    ensures { OnOk result (page.new ≡ page.old ++ element_text (element_part element.now).marks (element_part element.now).bytes) }
{
    let mut components = element.components();
    if let Some(first) = components.next() {
        push_component(page, &first)?;
    }
    for component in components {
        page.push_bytes(b" | ")?;
        push_component(page, &component)?;
    }
    Ok(())
}

impl TextForm for Person {
    ghost shown_name = { name_text };

    ghost shown_head = { head_text };

    ghost shown_element = { element_line };

    ghost shown_end = { end_text };

    ghost shown = { person_listing };

    ghost in_order = { λ name text. refl };

    fn push_name(page: &mut Page, name: &str) -> Result<(), AllocError> {
        page.push_bytes(name.as_bytes())?;
        page.push(b'\n')
    }

    // A segment's number and its tag.
    fn push_head(page: &mut Page, segment: &Segment<'_>) -> Result<(), AllocError> {
        let number = segment.number();
        write!(page, "{number:>6}  ")?;
        page.push_bytes(&segment.tag())?;
        page.push(b'\n')
    }

    // An element's number and its components.
    fn push_element(page: &mut Page, e: usize, element: &Element<'_>) -> Result<(), AllocError> {
        write!(page, "{e:>12}  ")?;
        push_components(page, element)?;
        page.push(b'\n')
    }

    fn push_end(page: &mut Page, count: usize, fault: Option<CutFault>) -> Result<(), AllocError> {
        match fault {
            None => writeln!(page, "cut throughout, segments: {count}"),
            Some(fault) => writeln!(page, "stopped at {fault}"),
        }
    }
}
