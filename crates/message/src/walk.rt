// A walk over the rows of a diagram.
ghost use Rattle.std.specs.Prelude.{◌≡◌, ◌≤◌, [], ◌∷◌, ◌++◌, take, OnSome, IfNone};
ghost use Rattle.message.specs.Walk.{next};
ghost use Rattle.message.specs.WalkLaws.{WalkLaws};
ghost use Rattle.std.specs.Option.{option_map};
ghost use Rattle.message.specs.Searching.{state_of, answer_of, Finds};
ghost use Rattle.message.specs.Walking.{StandsAfter, Asks, Offers, Completes};

use crate::book::Diagram;
use crate::open::{Next, Open};
use crate::search::{is_last, search};
use arrayvec::ArrayVec;

// What a question is answered: the row that an offer would get, and its occurrence, if there is one.
fn answer_to_question(found: Option<Next>) -> Option<(usize, u32)>
    ensures { result ≡ option_map answer_of found }
{
    found.map(Next::answer)
}

// Where a walk stands: the rows that are open, the innermost last. Levels go up to 7, so that eight have room.
// No Vec: a walk allocates nothing.
#[derive(Drop)]
pub struct Walk<'d, D> {
    diagram: &'d D,
    held: ArrayVec<Open, 8>,
}

impl<'d, D: Diagram> Walk<'d, D> {
    // A walk on which nothing is open.
    fn empty(diagram: &'d D) -> Walk<'d, D>
        ensures over { result.diagram.now ≡ diagram.now }
        ensures none { result.held.items ≡ [] }
    {
        Walk {
            diagram,
            held: ArrayVec::new(),
        }
    }

    // The walk before the first row.
    pub fn new(diagram: &'d D) -> Walk<'d, D>
        ensures over { result.diagram.now ≡ diagram.now }
        ensures stands { StandsAfter D.Diagram.rows result [] }
        ensures laws { WalkLaws (D.Diagram.rows diagram.now) }
    {
        Walk::empty(diagram)
    }

    // The row of this tag that comes next.
    fn find(&self, tag: [u8; 3]) -> Option<Next>
        ensures { Finds self.now.held.items result (next (D.Diagram.rows self.now.diagram.now) tag (state_of self.now.held.items)) }
    {
        search(self.diagram, &self.held, tag)
    }

    // Goes on to a row, which ends the open rows that it doesn't stand in, if there is room.
    fn place(&mut self, found: Next) -> Option<()>
        ensures held { OnSome result (self.new.held.items ≡ take found.under self.old.held.items ++ found.opened ∷ []) }
        ensures over { self.new.diagram ≡ self.old.diagram }
        ensures full { IfNone result (8 ≤ found.under) }
        ensures kept { IfNone result (self.new ≡ self.old) }
    {
        if found.under >= self.held.capacity() {
            return None;
        }
        self.held.truncate(found.under);
        self.held.push(found.opened);
        Some(())
    }

    // The number and the occurrence of the row that an offer of this tag would get: the lowest that can come next.
    // They are a pair, here and in `offer`: a rule of the project.
    pub fn ask(&self, tag: [u8; 3]) -> Option<(usize, u32)>
        ensures { Asks D.Diagram.rows self.now tag result }
    {
        answer_to_question(self.find(tag))
    }

    // Goes on by a tag. Answers the number and the occurrence of its row, the lowest that can come next, or none.
    pub fn offer(&mut self, tag: [u8; 3]) -> Option<(usize, u32)>
        ensures { Offers D.Diagram.rows self.old self.new tag result }
    {
        let found = self.find(tag)?;
        self.place(found)?;
        Some(found.answer())
    }

    // Whether the rows that have come are a message: the last row has come.
    pub fn is_complete(&self) -> bool
        ensures { Completes D.Diagram.rows self.now result }
    {
        is_last(&self.held, self.diagram.row_count())
    }
}
