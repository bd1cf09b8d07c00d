// An element of a segment, and the cursor over a segment's elements.
ghost use Rattle.std.specs.Prelude.{◌≡◌, ◌+◌, ◌^◌, ◌<◌, map, length, Some};
ghost use Rattle.edifact.specs.Segments.{component_in};
ghost use Rattle.edifact.specs.Cursors.{part, components_left, components_of, FindsPart};

use crate::component::{Component, Components};
use crate::part::{Part, Parts};
use crate::segment::Segment;

// An element of a segment.
pub type Element<'t> = Part<'t, Segment<'t>>;

// The elements of a segment that are still to come.
pub type Elements<'t> = Parts<'t, Segment<'t>>;

impl<'t> Element<'t> {
    // Its components. `few` is a clause, as of every cursor over parts.
    pub fn components(&self) -> Components<'t>
        ensures value { components_left result ≡ map (part self.now.marks) (components_of self.now) }
        ensures few { length (components_left result) + 1 < 2 ^ 64 }
    {
        self.parts(self.marks.components())
    }

    // How many components it has.
    pub fn component_count(&self) -> usize
        ensures { result ≡ length (components_of self.now) }
    {
        self.part_count(self.marks.components())
    }

    // The component of that number, from 1.
    pub fn component(&self, number: usize) -> Option<Component<'t>>
        ensures { FindsPart result self.now.marks (component_in self.now.marks number (Some self.now.bytes.now)) }
    {
        let before = number.checked_sub(1)?;
        self.part(self.marks.components(), before)
    }
}
