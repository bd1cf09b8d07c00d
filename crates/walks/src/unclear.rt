// A diagram that isn't clear, told by a maker of his own.
ghost use Rattle.std.specs.Prelude.{◌≡◌, false, refl};
ghost use Rattle.message.specs.Successors.{successors_differ};
ghost use Rattle.walks.specs.Unclear.{unclear_rows};
ghost use Rattle.message.proofs.RowTests.{rows_keep_rules};

use message::book::Diagram;
use message::row::{Kind, Need, Row};

static ROWS: [Row; 7] = [
    Row {
        tag: *b"UNH",
        level: 0,
        kind: Kind::Plain,
        need: Need::Required,
        limit: 1,
    },
    Row {
        tag: *b"LIN",
        level: 1,
        kind: Kind::Trigger,
        need: Need::Optional,
        limit: 2,
    },
    Row {
        tag: *b"PCI",
        level: 2,
        kind: Kind::Trigger,
        need: Need::Optional,
        limit: 1,
    },
    Row {
        tag: *b"LIN",
        level: 2,
        kind: Kind::Plain,
        need: Need::Optional,
        limit: 1,
    },
    Row {
        tag: *b"DTM",
        level: 0,
        kind: Kind::Plain,
        need: Need::Optional,
        limit: 1,
    },
    Row {
        tag: *b"DTM",
        level: 0,
        kind: Kind::Plain,
        need: Need::Optional,
        limit: 2,
    },
    Row {
        tag: *b"UNT",
        level: 0,
        kind: Kind::Plain,
        need: Need::Required,
        limit: 1,
    },
];

#[derive(Clone, Copy, Drop)]
pub struct Unclear;

impl Unclear {
    // Some rows of one tag can follow the same row.
    pub fn new() -> Unclear
        ensures { successors_differ unclear_rows ≡ false }
    {
        Unclear
    }
}

impl Diagram for Unclear {
    ghost rows = { λ _. unclear_rows };

    // one test, computed over all rows
    ghost lawful = { λ s. rows_keep_rules unclear_rows refl };

    fn row_count(&self) -> usize {
        ROWS.len()
    }

    fn row(&self, number: usize) -> Option<Row> {
        ROWS.get(number).copied()
    }
}
