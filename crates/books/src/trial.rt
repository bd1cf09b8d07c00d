// The trial book.
ghost use Rattle.std.specs.Prelude.{◌≡◌, true, refl};
ghost use Rattle.message.specs.Following.{followers_differ};
ghost use Rattle.message.specs.Rows.{ClearRows};
ghost use Rattle.message.specs.Messages.{Clear};
ghost use Rattle.books.specs.Trial.{trial_rows, trial_layouts, trial_identifier, trial_meaning};

use crate::tables::{BuiltIn, RowLine, Table, TableBook, an, element, row};
use message::book::{Book, Diagram};
use std::marker::PhantomData;

// The header section.
static HEADER: [RowLine; 6] = [
    // 0 UNH
    RowLine {
        row: row!(b"UNH", 0, Plain, Required, 1),
        layout: &[],
    },
    // 1 BGM
    RowLine {
        row: row!(b"BGM", 0, Plain, Required, 1),
        layout: &[element!('R': an!(35, 'R'))],
    },
    // 2 DTM
    RowLine {
        row: row!(b"DTM", 0, Plain, Required, 2),
        layout: &[element!('R': an!(35, 'R'))],
    },
    // 3 RFF
    RowLine {
        row: row!(b"RFF", 1, Trigger, Optional, 2),
        layout: &[element!('R': an!(35, 'R'))],
    },
    // 4 DTM
    RowLine {
        row: row!(b"DTM", 1, Plain, Optional, 1),
        layout: &[element!('R': an!(35, 'R'))],
    },
    // 5 NAD
    RowLine {
        row: row!(b"NAD", 1, Trigger, Required, 2),
        layout: &[element!('R': an!(35, 'R'))],
    },
];

// The detail section, and the trailer behind it.
static DETAIL: [RowLine; 5] = [
    // 6 LIN
    RowLine {
        row: row!(b"LIN", 1, Trigger, Optional, 3),
        layout: &[element!('R': an!(35, 'R'))],
    },
    // 7 QTY
    RowLine {
        row: row!(b"QTY", 1, Plain, Optional, 1),
        layout: &[element!('R': an!(35, 'R'))],
    },
    // 8 PCI
    RowLine {
        row: row!(b"PCI", 2, Trigger, Optional, 2),
        layout: &[element!('R': an!(35, 'R'))],
    },
    // 9 QTY
    RowLine {
        row: row!(b"QTY", 2, Plain, Optional, 1),
        layout: &[element!('R': an!(35, 'R'))],
    },
    // 10 UNT
    RowLine {
        row: row!(b"UNT", 0, Plain, Required, 1),
        layout: &[],
    },
];

// The table of the trial book.
#[derive(Clone, Copy, Drop)]
pub struct TrialTable;

impl BuiltIn for TrialTable {
    ghost rows = { trial_rows };

    ghost layouts = { trial_layouts };

    ghost identifier = { trial_identifier };

    // the laws are tests, computed over all rows and layouts
    ghost lawful = { refl };

    ghost regular = { refl };

    ghost paired = { refl };

    ghost bare = { (refl, refl) };

    ghost identified = { refl };

    fn table() -> Table {
        Table {
            header: &HEADER,
            detail: &DETAIL,
            identifier: &["TSTMSG", "D", "01B", "UN", "EAN005"],
        }
    }
}

// The trial book: a small message whose user segments have one required element each.
pub type TrialBook = TableBook<TrialTable>;

// The book as a value, which a constant can be too and a walk can borrow for good.
pub const TrialBook: TrialBook = TableBook { of: PhantomData };

// The book. Of all rows that may come directly after one row, no two different ones have the same tag.
// It is clear: no two different rows of one tag can follow the same row, in messages of rows and so in messages.
pub fn book() -> TrialBook
    ensures rows { ⟦<TrialBook as Diagram>⟧.rows result ≡ trial_rows }
    ensures layouts { ⟦<TrialBook as Book>⟧.layouts result ≡ trial_layouts }
    ensures identifier { ⟦<TrialBook as Book>⟧.identifier result ≡ trial_identifier }
    ensures followers { followers_differ trial_rows ≡ true }
    ensures diagram { ClearRows trial_rows }
    ensures clear { Clear trial_meaning }
{
    TrialBook
}
