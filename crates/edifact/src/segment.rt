// A cut segment: a part of the text, with nothing copied.
ghost use Rattle.std.specs.Prelude.{◌≡◌, ◌+◌, ◌^◌, ◌<◌, map, length};
ghost use Rattle.std.specs.List.{slice_get};
ghost use Rattle.edifact.specs.Segments.{component_at};
ghost use Rattle.edifact.specs.Cursors.{part, elements_left, cut_of, elements_of, FindsPart};

use crate::component::Component;
use crate::element::{Element, Elements};
use crate::part::Text;
use syntax::marks::Marks;

// A segment of a text. Only the cutter makes one. Contracts see it by `cut_of`: a struct that is Copy and borrows can't have a model.
#[derive(Clone, Copy, Drop)]
pub struct Segment<'t> {
    pub(crate) number: usize,
    pub(crate) first: usize,
    pub(crate) part: Text<'t>,
    // always three letters: a slice would be longer to say
    pub(crate) tag: [u8; 3],
}

impl<'t> Segment<'t> {
    // Its number in the text, from 1.
    pub fn number(&self) -> usize
        ensures { result ≡ (cut_of self.now).number }
    {
        self.number
    }

    // Its first byte, from 0 of the whole text.
    pub fn position(&self) -> usize
        ensures { result ≡ (cut_of self.now).first }
    {
        self.first
    }

    // How many bytes it has, without the terminator.
    pub fn len(&self) -> usize
        ensures { result ≡ length (cut_of self.now).bytes }
    {
        self.bytes().len()
    }

    // Its bytes as the text has them, without the terminator.
    pub fn bytes(&self) -> &'t [u8]
        ensures { result.now ≡ (cut_of self.now).bytes }
    {
        self.part.bytes
    }

    // The three letters of its tag.
    pub fn tag(&self) -> [u8; 3]
        ensures { result ≡ (cut_of self.now).tag }
    {
        self.tag
    }

    // The marks of its text.
    pub fn marks(&self) -> Marks
        ensures { result ≡ (cut_of self.now).marks }
    {
        self.part.marks
    }

    // Its elements, the tag first. `few` is a clause, as of every cursor over parts.
    pub fn elements(&self) -> Elements<'t>
        ensures value { elements_left result ≡ map (part (cut_of self.now).marks) (elements_of self.now) }
        ensures few { length (elements_left result) + 1 < 2 ^ 64 }
    {
        self.part.parts(self.part.marks.elements())
    }

    // How many elements it has, the tag included.
    pub fn element_count(&self) -> usize
        ensures { result ≡ length (elements_of self.now) }
    {
        self.part.part_count(self.part.marks.elements())
    }

    // The element of that number, from 0, which is the tag.
    pub fn element(&self, number: usize) -> Option<Element<'t>>
        ensures { FindsPart result (cut_of self.now).marks (slice_get (elements_of self.now) number) }
    {
        self.part.part(self.part.marks.elements(), number)
    }

    // The component of that number, from 1, of an element, from 0.
    pub fn component(&self, element: usize, component: usize) -> Option<Component<'t>>
        ensures { FindsPart result (cut_of self.now).marks (component_at (cut_of self.now).marks (cut_of self.now).bytes element component) }
    {
        self.element(element)?.component(component)
    }
}
