// Finding the segment with which a text begins.
ghost use Rattle.std.specs.Prelude.{◌≡◌, ◌+◌, ◌^◌, ◌<◌, ◌≤◌, false, length as size, slice_index, IfOk};
ghost use Rattle.syntax.specs.Bytes.{break_run};
ghost use Rattle.syntax.specs.Cursors.{characters_left};
ghost use Rattle.edifact.specs.Segments.{is_tag, tag_in, tag_of};
ghost use Rattle.edifact.specs.Scanning.{after, placed, end_in, segment_in};

use crate::element::Element;
use crate::part::Text;
use syntax::bytes::{is_allowed, is_line_break, is_release};
use syntax::characters::Characters;
use syntax::fault::{CutFault, Place};
use syntax::marks::Marks;

// Length and tag of a segment.
#[derive(Clone, Copy, Drop)]
pub struct Found {
    pub length: usize,
    // always three letters: a slice would be longer to say
    pub tag: [u8; 3],
}

// Where a scan stands in a segment: whether the next byte is protected, and the element and component it is in.
#[derive(Clone, Copy, Drop)]
pub struct Standing {
    // a flag on which no other value hangs
    protected: bool,
    element: usize,
    component: usize,
}

impl Standing {
    // The standing behind one byte more. The bound is no field of the type: it hangs on how many bytes the loop has passed.
    fn behind(self, b: u8, marks: Marks) -> Standing
        requires { (self.element + 1 < 2 ^ 64) × (self.component + 1 < 2 ^ 64) }
        ensures { result ≡ after marks self b }
    {
        let protected = is_release(b, marks.release, self.protected);
        if marks.elements().divides(b, self.protected) {
            Standing {
                protected,
                element: self.element + 1,
                component: 1,
            }
        } else if marks.components().divides(b, self.protected) {
            Standing {
                protected,
                component: self.component + 1,
                ..self
            }
        } else {
            Standing { protected, ..self }
        }
    }

    // The component it is in, as a place of segment `segment`.
    fn place(self, segment: usize) -> Place
        ensures { result ≡ placed segment self }
    {
        Place {
            segment,
            element: self.element,
            component: self.component,
        }
    }
}

// Whether three characters are a tag.
fn is_tag(tag: [u8; 3]) -> bool
    ensures { result ≡ is_tag (slice_index tag 0) (slice_index tag 1) (slice_index tag 2) }
{
    tag.iter().all(|b| b.is_ascii_uppercase()) && tag != *b"UNA"
}

// These characters, if they are a tag.
fn tag_in(mut characters: Characters<'_>) -> Option<[u8; 3]>
    ensures { result ≡ tag_in (characters_left characters.entry) }
{
    let tag = [characters.next()?, characters.next()?, characters.next()?];
    (characters.next().is_none() && is_tag(tag)).then_some(tag)
}

// How many CR and LF `bytes` begins with.
pub fn break_count(bytes: &[u8]) -> usize
    ensures value { result ≡ break_run bytes.now }
    ensures within { result ≤ size bytes.now }
{
    bytes.iter().take_while(|b| is_line_break(**b)).count()
}

impl<'t> Text<'t> {
    // The length of segment `number`, with which it begins.
    fn segment_end(&self, number: usize) -> Result<usize, CutFault>
        ensures value { result ≡ end_in self.now.marks number self.now.bytes.now }
        ensures within { IfOk result (λ n. n < size self.now.bytes.now) }
    {
        let marks = self.marks;
        let mut standing = Standing {
            protected: false,
            element: 0,
            component: 1,
        };
        for (i, b) in self.bytes.iter().enumerate() {
            if marks.segments().divides(*b, standing.protected) {
                return Ok(i);
            }
            if !is_allowed(*b) {
                return Err(CutFault::ForbiddenByte(standing.place(number)));
            }
            standing = standing.behind(*b, marks);
        }
        Err(CutFault::UnendedSegment(standing.place(number)))
    }

    // The tag of a segment: the characters of its first element, which has one component.
    fn tag(&self) -> Option<[u8; 3]>
        ensures { result ≡ tag_of self.now.marks self.now.bytes.now }
    {
        let element: Element<'t> = self.part(self.marks.elements(), 0)?;
        if !element.is_undivided(self.marks.components()) {
            return None;
        }
        tag_in(Characters::of(element.bytes, element.marks.release))
    }

    // Length and tag of segment `number`, with which it begins.
    pub(crate) fn first_segment(&self, number: usize) -> Result<Found, CutFault>
        ensures value { result ≡ segment_in self.now.marks number self.now.bytes.now }
        ensures within { IfOk result (λ x. x.length < size self.now.bytes.now) }
    {
        let length = self.segment_end(number)?;
        let (bytes, _) = self.bytes.split_at(length);
        let segment: Text<'t> = Text::of(self.marks, bytes);
        let tag = segment.tag().ok_or(CutFault::BadTag(number))?;
        Ok(Found { length, tag })
    }
}
