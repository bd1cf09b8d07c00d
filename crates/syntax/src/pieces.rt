// The pieces of bytes between unprotected marks.
ghost use Rattle.std.specs.Prelude.{◌≡◌, ◌+◌, ◌^◌, ◌<◌, ◌≤◌, ◌∷◌, false, length};
ghost use Rattle.std.specs.Iterator.{YieldsFirstRef, item_count};
ghost use Rattle.std.specs.Option.{option_map};
ghost use Rattle.std.specs.List.{slice_get};
ghost use Rattle.syntax.specs.Split.{split, reach, divides as divides_in};
ghost use Rattle.syntax.specs.Cursors.{pieces_in, pieces_left};

use crate::bytes::is_release;

// A mark that divides bytes, with the mark that releases it.
#[derive(Clone, Copy, PartialEq, Eq, Debug, Drop)]
pub struct Divider {
    pub release: u8,
    pub mark: u8,
}

impl Divider {
    // Whether `b` is the mark, unprotected. A release mark is no other mark.
    pub fn divides(self, b: u8, protected: bool) -> bool
        ensures { result ≡ divides_in self.release self.mark protected b }
    {
        !protected && b != self.release && b == self.mark
    }
}

// The length of the first piece of `bytes`.
pub fn first_piece(bytes: &[u8], divider: Divider) -> usize
    ensures value { result ≡ reach divider.release divider.mark false bytes.now }
    ensures within { result ≤ length bytes.now }
{
    let mut protected = false;
    for (i, b) in bytes.iter().enumerate() {
        if protected {
            protected = false;
        } else if *b == divider.release {
            protected = true;
        } else if *b == divider.mark {
            return i;
        }
    }
    bytes.len()
}

// The first piece of `bytes`, and what follows its mark, if there is one.
fn split_first_piece<'t>(bytes: &'t [u8], divider: Divider) -> (&'t [u8], Option<&'t [u8]>)
    ensures { split divider.release divider.mark false bytes.now ≡ result.0.now ∷ pieces_in divider (option_map (λ x. x.now) result.1) }
{
    let (piece, behind) = bytes.split_at(first_piece(bytes, divider));
    match behind {
        [_, rest @ ..] => (piece, Some(rest)),
        [] => (piece, None),
    }
}

// The pieces that are still to come.
#[derive(Clone, Copy, Drop)]
pub struct Pieces<'t> {
    rest: Option<&'t [u8]>,
    divider: Divider,
}

impl<'t> Pieces<'t> {
    // All of them. `few` is a clause and no ghost field, since each step of the cursor would have to prove that again.
    pub fn of(bytes: &'t [u8], divider: Divider) -> Pieces<'t>
        ensures value { pieces_left result ≡ split divider.release divider.mark false bytes.now }
        ensures few { length (pieces_left result) + 1 < 2 ^ 64 }
    {
        Pieces {
            rest: Some(bytes),
            divider,
        }
    }
}

impl<'t> Iterator for Pieces<'t> {
    type Item = &'t [u8];

    ghost next_gives = { YieldsFirstRef pieces_left };

    ghost remaining = { item_count pieces_left };

    fn next(&mut self) -> Option<&'t [u8]> {
        let (piece, rest) = split_first_piece(self.rest?, self.divider);
        self.rest = rest;
        Some(piece)
    }
}

// The piece of that number, from 0, of those that are still to come.
fn nth_piece<'t>(mut pieces: Pieces<'t>, number: usize) -> Option<&'t [u8]>
    ensures { option_map (λ x. x.now) result ≡ slice_get (pieces_left pieces.entry) number }
{
    pieces.nth(number)
}

// The piece of that number, from 0. It is thin over `Pieces::of`, and takes what that takes.
pub fn piece<'t>(bytes: &'t [u8], divider: Divider, number: usize) -> Option<&'t [u8]>
    ensures { option_map (λ x. x.now) result ≡ slice_get (split divider.release divider.mark false bytes.now) number }
{
    nth_piece(Pieces::of(bytes, divider), number)
}

// How many pieces there are. A loop over the bytes: counting the cursor's steps takes up to twice as long.
pub fn piece_count(bytes: &[u8], divider: Divider) -> usize
    ensures { result ≡ length (split divider.release divider.mark false bytes.now) }
{
    let mut count = 1;
    let mut protected = false;
    for b in bytes {
        if divider.divides(*b, protected) {
            count += 1;
        }
        protected = is_release(*b, divider.release, protected);
    }
    count
}
