// A component of an element, and the cursor over an element's components.
ghost use Rattle.std.specs.Prelude.{◌≡◌, length, nat_lt};
ghost use Rattle.std.specs.Str.{bytes_eq};
ghost use Rattle.syntax.specs.Cursors.{characters_left};
ghost use Rattle.edifact.specs.Cursors.{characters_of};

use crate::element::Element;
use crate::part::{Part, Parts};
use syntax::characters::{Characters, character_count, same_characters};

// A component of an element.
pub type Component<'t> = Part<'t, Element<'t>>;

// The components of an element that are still to come.
pub type Components<'t> = Parts<'t, Element<'t>>;

impl<'t> Component<'t> {
    // Its characters: release marks out.
    pub fn characters(&self) -> Characters<'t>
        ensures { characters_left result ≡ characters_of self.now }
    {
        Characters::of(self.bytes, self.marks.release)
    }

    // How many characters it has.
    pub fn character_count(&self) -> usize
        ensures { result ≡ length (characters_of self.now) }
    {
        character_count(self.bytes, self.marks.release)
    }

    // Whether it has a character.
    pub fn is_filled(&self) -> bool
        ensures { result ≡ nat_lt 0 (length (characters_of self.now)) }
    {
        self.characters().next().is_some()
    }

    // Whether its characters are those of `plain`.
    pub fn spells(&self, plain: &[u8]) -> bool
        ensures { result ≡ bytes_eq (characters_of self.now) plain.now }
    {
        same_characters(self.bytes, self.marks.release, plain)
    }
}
