// The listing of a text, in the form that is asked.
ghost use Rattle.std.specs.Prelude.{◌≡◌, ℕ, List, ◌++◌, length, OnOk, IfOk, Option};
ghost use Rattle.syntax.specs.declared.fault.CutFault.{CutFault};
ghost use Rattle.syntax.specs.declared.marks.Marks.{Marks};
ghost use Rattle.edifact.specs.Cursors.{cut_of, element_part};
ghost use Rattle.edifact.specs.Cutting.{Cut, cut};
ghost use Rattle.edifact.specs.Segments.{elements as elements_in, others_of};
ghost use Rattle.listing.specs.Plain.{lines};

use crate::page::Page;
use edifact::cutter::Cutter;
use edifact::element::Element;
use edifact::segment::Segment;
use std::alloc::AllocError;
use syntax::fault::CutFault;

// A form in which texts are listed: what it shows of a text's name, of each segment and its elements, and at the end.
pub trait TextForm {
    ghost shown_name: { List ℕ → List ℕ };

    // of a segment, but for its elements
    ghost shown_head: { Cut → List ℕ };

    // of an element, by the marks of the text, its number and its bytes
    ghost shown_element: { Marks → ℕ → List ℕ → List ℕ };

    ghost shown_end: { ℕ → Option CutFault → List ℕ };

    // what it shows of a text under a name
    ghost shown: { List ℕ → List ℕ → List ℕ };

    fn push_name(page: &mut Page, name: &str) -> Result<(), AllocError>
        ensures { OnOk result (page.new ≡ page.old ++ shown_name name.now) };

    fn push_head(page: &mut Page, segment: &Segment<'_>) -> Result<(), AllocError>
        ensures { OnOk result (page.new ≡ page.old ++ shown_head (cut_of segment.now)) };

    // Element `e` of a segment; the tag is element 0.
    fn push_element(page: &mut Page, e: usize, element: &Element<'_>) -> Result<(), AllocError>
        ensures { OnOk result (page.new ≡ page.old ++ shown_element (element_part element.now).marks e (element_part element.now).bytes) };

    // How many segments were cut, and the fault at which the text is stopped.
    fn push_end(page: &mut Page, count: usize, fault: Option<CutFault>) -> Result<(), AllocError>
        ensures { OnOk result (page.new ≡ page.old ++ shown_end count fault) };

    ghost in_order: { (name text : List ℕ) → shown name text ≡ shown_name name ++ (lines (λ _ s. shown_head s ++ lines (shown_element s.marks) 1 (others_of (elements_in s.marks s.bytes))) 1 (cut text).segments ++ shown_end (length (cut text).segments) (cut text).fault) };
}

// The elements of a segment behind its tag.
pub fn push_elements<F: TextForm>(page: &mut Page, segment: &Segment<'_>) -> Result<(), AllocError>
    ensures { OnOk result (page.new ≡ page.old ++ lines (F.shown_element (cut_of segment.now).marks) 1 (others_of (elements_in (cut_of segment.now).marks (cut_of segment.now).bytes))) }
{
    let mut elements = segment.elements();
    let _ = elements.next();
    for (e, element) in (1..).zip(elements) {
        F::push_element(page, e, &element)?;
    }
    Ok(())
}

// A segment, with its elements behind the tag.
pub fn push_segment<F: TextForm>(page: &mut Page, segment: &Segment<'_>) -> Result<(), AllocError>
    ensures { OnOk result (page.new ≡ page.old ++ (F.shown_head (cut_of segment.now) ++ lines (F.shown_element (cut_of segment.now).marks) 1 (others_of (elements_in (cut_of segment.now).marks (cut_of segment.now).bytes)))) }
{
    F::push_head(page, segment)?;
    push_elements::<F>(page, segment)
}

// The segments of a text; answers how many there are, and the fault at which the text is stopped.
fn push_segments<F: TextForm>(
    page: &mut Page,
    text: &[u8],
) -> Result<(usize, Option<CutFault>), AllocError>
    ensures { IfOk result (λ r. (r.0 ≡ length (cut text.now).segments) × ((r.1 ≡ (cut text.now).fault) × (page.new ≡ page.old ++ lines (λ _ s. F.shown_head s ++ lines (F.shown_element s.marks) 1 (others_of (elements_in s.marks s.bytes))) 1 (cut text.now).segments))) }
{
    let mut cutter = Cutter::new(text);
    let mut count = 0;
    loop {
        match cutter.next() {
            Ok(Some(segment)) => {
                push_segment::<F>(page, &segment)?;
                count = segment.number();
            }
            Ok(None) => return Ok((count, None)),
            Err(fault) => return Ok((count, Some(fault))),
        }
    }
}

// Lists a text under a name; answers the fault at which it is stopped.
pub fn push_text<F: TextForm>(
    page: &mut Page,
    name: &str,
    text: &[u8],
) -> Result<Option<CutFault>, AllocError>
    ensures { IfOk result (λ f. (f ≡ (cut text.now).fault) × (page.new ≡ page.old ++ F.shown name.now text.now)) }
{
    F::push_name(page, name)?;
    let (count, fault) = push_segments::<F>(page, text)?;
    F::push_end(page, count, fault)?;
    Ok(fault)
}
