// What the walk has begun, and what may come next.
ghost use Rattle.std.specs.Prelude.{◌≡◌};
ghost use Rattle.message.specs.Walk.{ends_at, may_repeat};
ghost use Rattle.message.specs.Searching.{again_if, first_if, answer_of};

use crate::row::Row;

// A row that has begun: its number, which occurrence of its run this is, and the row itself.
// The default fills the free places of a table of such rows.
#[derive(Clone, Copy, Default, Drop)]
pub struct Open {
    pub number: usize,
    pub occurrence: u32,
    pub row: Row,
}

// A row that may come next, and how many of the open rows it stands in.
#[derive(Clone, Copy, Drop)]
pub struct Next {
    pub opened: Open,
    pub under: usize,
}

impl Open {
    // Whether it has come to its end before a row of this depth.
    pub(crate) fn ends_at(self, depth: usize) -> bool
        ensures { result ≡ ends_at depth self }
    {
        self.row.depth() >= depth
    }

    // Whether it may come again.
    pub(crate) fn may_repeat(self) -> bool
        ensures { result ≡ may_repeat self }
    {
        self.occurrence < self.row.limit
    }
}

impl Next {
    // The first occurrence of a row that stands in `under` open ones, if it may come and has the tag.
    pub(crate) fn first(number: usize, row: Row, under: usize, tag: [u8; 3]) -> Option<Next>
        ensures { result ≡ first_if tag number row under }
    {
        (row.limit >= 1 && row.tag == tag).then(|| Next {
            opened: Open {
                number,
                occurrence: 1,
                row,
            },
            under,
        })
    }

    // The next occurrence of an open row that stands in `under` others, if it may come and has the tag.
    pub(crate) fn again(came: Open, under: usize, tag: [u8; 3]) -> Option<Next>
        ensures { result ≡ again_if tag came under }
    {
        (came.may_repeat() && came.row.tag == tag).then(|| Next {
            opened: Open {
                occurrence: came.occurrence + 1,
                ..came
            },
            under,
        })
    }

    // What is answered to its tag: its number and its occurrence. That they are a pair is a rule of the project.
    pub(crate) fn answer(self) -> (usize, u32)
        ensures { result ≡ answer_of self }
    {
        (self.opened.number, self.opened.occurrence)
    }
}
