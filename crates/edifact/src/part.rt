// A part of a text, and the cursor over the parts of such a part.
ghost use Rattle.std.specs.Prelude.{◌≡◌, ◌==◌, ◌+◌, ◌^◌, ◌<◌, map, length};
ghost use Rattle.std.specs.List.{slice_get};
ghost use Rattle.std.specs.Iterator.{YieldsFirstBy, item_count};
ghost use Rattle.edifact.specs.Cursors.{part, part_of, parts_left, pieces_of, FindsPart};

use std::marker::PhantomData;
use syntax::marks::Marks;
use syntax::pieces::{Divider, Pieces, first_piece, piece, piece_count};

// A part of a `W`: its bytes, and the marks of its text.
#[derive(Clone, Copy, Drop)]
pub struct Part<'t, W> {
    pub(crate) marks: Marks,
    pub(crate) bytes: &'t [u8],
    of: PhantomData<W>,
}

// The parts of a `W` that are still to come.
#[derive(Clone, Copy, Drop)]
pub struct Parts<'t, W> {
    marks: Marks,
    pieces: Pieces<'t>,
    of: PhantomData<W>,
}

// A part of a text.
pub type Text<'t> = Part<'t, &'t [u8]>;

impl<'t, W> Part<'t, W> {
    // A part that is these bytes.
    pub(crate) fn of(marks: Marks, bytes: &'t [u8]) -> Part<'t, W>
        ensures { part_of result ≡ part marks bytes.now }
    {
        Part {
            marks,
            bytes,
            of: PhantomData,
        }
    }

    // Its bytes as the text has them.
    pub fn bytes(&self) -> &'t [u8]
        ensures { result.now ≡ (part_of self.now).bytes }
    {
        self.bytes
    }

    // Its parts, divided by `divider`. `few` is a clause and no ghost field: each step would have to prove that.
    pub(crate) fn parts<V>(&self, divider: Divider) -> Parts<'t, V>
        ensures value { parts_left result ≡ map (part self.now.marks) (pieces_of self.now divider) }
        ensures few { length (parts_left result) + 1 < 2 ^ 64 }
    {
        Parts {
            marks: self.marks,
            pieces: Pieces::of(self.bytes, divider),
            of: PhantomData,
        }
    }

    // How many of them it has.
    pub(crate) fn part_count(&self, divider: Divider) -> usize
        ensures { result ≡ length (pieces_of self.now divider) }
    {
        piece_count(self.bytes, divider)
    }

    // Whether it has one alone. The bytes behind its first mark aren't read.
    pub(crate) fn is_undivided(&self, divider: Divider) -> bool
        ensures { result ≡ (length (pieces_of self.now divider) == 1) }
    {
        first_piece(self.bytes, divider) == self.bytes.len()
    }

    // The one of that number, from 0.
    pub(crate) fn part<V>(&self, divider: Divider, number: usize) -> Option<Part<'t, V>>
        ensures { FindsPart result self.now.marks (slice_get (pieces_of self.now divider) number) }
    {
        let bytes = piece(self.bytes, divider, number)?;
        Some(Part::of(self.marks, bytes))
    }
}

impl<'t, W> Iterator for Parts<'t, W> {
    type Item = Part<'t, W>;

    ghost next_gives = { YieldsFirstBy part_of parts_left };

    ghost remaining = { item_count parts_left };

    fn next(&mut self) -> Option<Part<'t, W>> {
        let bytes = self.pieces.next()?;
        Some(Part::of(self.marks, bytes))
    }
}
