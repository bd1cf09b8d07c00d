// The characters of a component: release marks out.
ghost use Rattle.std.specs.Prelude.{◌≡◌, ◌≤◌, false, length as size, IfSome};
ghost use Rattle.std.specs.Str.{bytes_eq};
ghost use Rattle.syntax.specs.Split.{characters as characters_in};
ghost use Rattle.syntax.specs.Cursors.{character_in};
ghost use Rattle.syntax.specs.Cursors.{characters_left};
ghost use Rattle.std.specs.Iterator.{YieldsFirst, item_count};

use crate::bytes::is_release;

// A character, and how many bytes of the text it takes.
#[derive(Clone, Copy, Drop)]
pub struct FoundCharacter {
    pub character: u8,
    pub length: usize,
}

// The character with which `bytes` begins: a release mark and the byte behind it are one.
fn first_character(bytes: &[u8], release: u8) -> Option<FoundCharacter>
    ensures value { result ≡ character_in release bytes.now }
    ensures within { IfSome result (λ x. x.length ≤ size bytes.now) }
{
    match bytes {
        [character, ..] if *character != release => Some(FoundCharacter {
            character: *character,
            length: 1,
        }),
        [_, released, ..] => Some(FoundCharacter {
            character: *released,
            length: 2,
        }),
        _ => None,
    }
}

// The characters that are still to come.
#[derive(Clone, Copy, Drop)]
pub struct Characters<'t> {
    rest: &'t [u8],
    release: u8,
}

impl<'t> Characters<'t> {
    pub fn of(bytes: &'t [u8], release: u8) -> Characters<'t>
        ensures { characters_left result ≡ characters_in release false bytes.now }
    {
        Characters {
            rest: bytes,
            release,
        }
    }
}

impl<'t> Iterator for Characters<'t> {
    type Item = u8;

    ghost next_gives = { YieldsFirst characters_left };

    ghost remaining = { item_count characters_left };

    fn next(&mut self) -> Option<u8> {
        let found = first_character(self.rest, self.release)?;
        let (_, behind) = self.rest.split_at(found.length);
        self.rest = behind;
        Some(found.character)
    }
}

// How many characters `bytes` has. A loop over the bytes: counting the cursor's steps takes over half as long again.
// It and the next take what `Characters::of` takes.
pub fn character_count(bytes: &[u8], release: u8) -> usize
    ensures { result ≡ size (characters_in release false bytes.now) }
{
    let mut count = 0;
    let mut protected = false;
    for b in bytes {
        protected = is_release(*b, release, protected);
        if !protected {
            count += 1;
        }
    }
    count
}

// Whether the characters of `bytes` are those of `plain`.
pub fn same_characters(bytes: &[u8], release: u8, plain: &[u8]) -> bool
    ensures { result ≡ bytes_eq (characters_in release false bytes.now) plain.now }
{
    // a loop: with `Iterator::eq` the proof doesn't close
    let mut characters = Characters::of(bytes, release);
    for p in plain {
        if characters.next() != Some(*p) {
            return false;
        }
    }
    characters.next().is_none()
}
