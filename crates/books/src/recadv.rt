// The receiving advice RECADV.
ghost use Rattle.std.specs.Prelude.{◌≡◌, true, refl};
ghost use Rattle.message.specs.Following.{followers_differ};
ghost use Rattle.message.specs.Rows.{ClearRows};
ghost use Rattle.message.specs.Messages.{Clear};
ghost use Rattle.books.specs.RecadvExamples.{recadv, examples_fit};
ghost use Rattle.books.specs.Recadv.{recadv_rows, recadv_layouts, recadv_identifier};

use crate::tables::{BuiltIn, RowLine, Table, TableBook, an, element, num, row};
use message::book::{Book, Diagram};
use std::marker::PhantomData;

// The header section.
static HEADER: [RowLine; 14] = [
    // 0 UNH
    RowLine {
        row: row!(b"UNH", 0, Plain, Required, 1),
        layout: &[],
    },
    // 1 BGM
    RowLine {
        row: row!(b"BGM", 0, Plain, Required, 1),
        layout: &[
            // C002
            element!('R': an!(3, 'R', ["632"]), an!(17, 'N'), an!(3, 'N'), an!(35, 'O')),
            // C106
            element!('R': an!(35, 'R'), an!(9, 'N'), an!(6, 'N')),
            element!('R': an!(3, 'R', ["5", "9", "31", "27", "29"])),
            element!('N': an!(3, 'N')),
        ],
    },
    // 2 DTM
    RowLine {
        row: row!(b"DTM", 0, Plain, Required, 10),
        layout: &[
            // C507
            element!('M':
                an!(3, 'M', ["35", "50", "137", "200", "369", "772", "773", "774", "98E"]),
                an!(35, 'R'), an!(3, 'R')
            ),
        ],
    },
    // 3 FTX
    RowLine {
        row: row!(b"FTX", 0, Plain, Optional, 99),
        layout: &[
            element!('M': an!(3, 'M')),
            element!('O': an!(3, 'O', ["1", "3"])),
            // C107
            element!('D': an!(17, 'M'), an!(17, 'O'), an!(3, 'D')),
            // C108
            element!('D': an!(512, 'M'), an!(512, 'O'), an!(512, 'O'), an!(512, 'O'), an!(512, 'O')),
            element!('D': an!(3, 'D')),
            element!('N': an!(3, 'N')),
        ],
    },
    // 4 RFF
    RowLine {
        row: row!(b"RFF", 1, Trigger, Optional, 10),
        layout: &[
            // C506
            element!('M': an!(3, 'M'), an!(70, 'R'), an!(6, 'N'), an!(35, 'N'), an!(6, 'N')),
        ],
    },
    // 5 DTM
    RowLine {
        row: row!(b"DTM", 1, Plain, Optional, 1),
        layout: &[
            // C507
            element!('M': an!(3, 'M', ["171"]), an!(35, 'R'), an!(3, 'R')),
        ],
    },
    // 6 NAD
    RowLine {
        row: row!(b"NAD", 1, Trigger, Required, 99),
        layout: &[
            element!('M': an!(3, 'M')),
            // C082
            element!('A': an!(35, 'M'), an!(17, 'N'), an!(3, 'R', ["9"])),
            // C058
            element!('N': an!(35, 'M'), an!(35, 'C'), an!(35, 'C'), an!(35, 'C'), an!(35, 'C')),
            // C080
            element!('D': an!(35, 'M'), an!(35, 'O'), an!(35, 'O'), an!(35, 'O'), an!(35, 'O'), an!(3, 'O')),
            // C059
            element!('D': an!(35, 'M'), an!(35, 'O'), an!(35, 'O'), an!(35, 'O')),
            element!('D': an!(35, 'D')),
            // C819
            element!('D': an!(9, 'O'), an!(17, 'O'), an!(3, 'O'), an!(70, 'O')),
            element!('D': an!(17, 'D')),
            element!('D': an!(3, 'D')),
        ],
    },
    // 7 RFF
    RowLine {
        row: row!(b"RFF", 2, Trigger, Optional, 10),
        layout: &[
            // C506
            element!('M': an!(3, 'M', ["YC1", "FC", "GN", "VA"]), an!(70, 'R'), an!(6, 'N'), an!(35, 'N'), an!(6, 'N')),
        ],
    },
    // 8 CTA
    RowLine {
        row: row!(b"CTA", 2, Trigger, Optional, 10),
        layout: &[
            element!('R': an!(3, 'R')),
            // C056
            element!('O': an!(17, 'O'), an!(35, 'O')),
        ],
    },
    // 9 COM
    RowLine {
        row: row!(b"COM", 2, Plain, Optional, 5),
        layout: &[
            // C076
            element!('M': an!(512, 'M'), an!(3, 'M')),
        ],
    },
    // 10 TDT
    RowLine {
        row: row!(b"TDT", 1, Trigger, Optional, 10),
        layout: &[
            element!('M': an!(3, 'M')),
            element!('O': an!(17, 'O')),
            // C220
            element!('A': an!(3, 'R'), an!(17, 'N')),
            // C228
            element!('O': an!(8, 'D'), an!(17, 'D')),
            // C040
            element!('O': an!(17, 'A'), an!(17, 'O'), an!(3, 'D'), an!(35, 'O')),
            element!('O': an!(3, 'O')),
            // C401
            element!('N': an!(3, 'M'), an!(3, 'M'), an!(17, 'C')),
            // C222
            element!('O': an!(9, 'O'), an!(17, 'O'), an!(3, 'D'), an!(35, 'R'), an!(3, 'O')),
            element!('N': an!(3, 'N')),
        ],
    },
    // 11 EQD
    RowLine {
        row: row!(b"EQD", 1, Trigger, Optional, 9999),
        layout: &[
            element!('M': an!(3, 'M')),
            // C237
            element!('O': an!(17, 'A'), an!(17, 'O'), an!(3, 'D'), an!(3, 'O')),
            // C224
            element!('O': an!(10, 'O'), an!(17, 'O'), an!(3, 'D'), an!(35, 'O')),
            element!('O': an!(3, 'O')),
            element!('O': an!(3, 'O')),
            element!('O': an!(3, 'O')),
        ],
    },
    // 12 SEL
    RowLine {
        row: row!(b"SEL", 2, Trigger, Optional, 25),
        layout: &[
            element!('R': an!(35, 'R')),
            // C215
            element!('R': an!(3, 'R'), an!(17, 'O'), an!(3, 'D'), an!(35, 'O')),
            element!('N': an!(3, 'N')),
            // C208
            element!('N': an!(35, 'M'), an!(35, 'C')),
        ],
    },
    // 13 CDI
    RowLine {
        row: row!(b"CDI", 2, Plain, Required, 10),
        layout: &[
            element!('M': an!(3, 'M', ["1"])),
            // C564
            element!('M': an!(3, 'R'), an!(17, 'O'), an!(3, 'D'), an!(70, 'O')),
        ],
    },
];

// The detail section, and the summary section behind it.
static DETAIL: [RowLine; 18] = [
    // 14 CPS
    RowLine {
        row: row!(b"CPS", 1, Trigger, Optional, 9999),
        layout: &[
            element!('M': an!(35, 'M')),
            element!('A': an!(35, 'A')),
            element!('N': an!(3, 'N')),
        ],
    },
    // 15 PAC
    RowLine {
        row: row!(b"PAC", 2, Trigger, Optional, 9999),
        layout: &[
            element!('D': num!(8, 'D')),
            // C531
            element!('C': an!(3, 'C'), an!(3, 'O'), an!(3, 'O')),
            // C202
            element!('O': an!(17, 'A'), an!(17, 'O'), an!(3, 'D'), an!(35, 'O')),
            // C402
            element!('N': an!(3, 'M'), an!(35, 'M'), an!(3, 'C'), an!(35, 'C'), an!(3, 'C')),
            // C532
            element!('D': an!(3, 'O'), an!(3, 'N')),
        ],
    },
    // 16 QVR
    RowLine {
        row: row!(b"QVR", 2, Plain, Optional, 1),
        layout: &[
            // C279
            element!('R': num!(15, 'M'), an!(3, 'R')),
            element!('O': an!(3, 'O')),
            // C960
            element!('O': an!(3, 'O'), an!(17, 'O'), an!(3, 'D'), an!(35, 'O')),
        ],
    },
    // 17 PCI
    RowLine {
        row: row!(b"PCI", 3, Trigger, Optional, 999),
        layout: &[
            element!('R': an!(3, 'R')),
            // C210
            element!('O':
                an!(35, 'M'), an!(35, 'O'), an!(35, 'O'), an!(35, 'O'), an!(35, 'O'), an!(35, 'O'),
                an!(35, 'O'), an!(35, 'O'), an!(35, 'O')
            ),
            element!('N': an!(3, 'N')),
            // C827
            element!('N': an!(3, 'M'), an!(17, 'C'), an!(3, 'C')),
        ],
    },
    // 18 GIN
    RowLine {
        row: row!(b"GIN", 4, Trigger, Optional, 999),
        layout: &[
            element!('M': an!(3, 'M')),
            // C208
            element!('M': an!(35, 'M'), an!(35, 'O')),
            // C208
            element!('O': an!(35, 'M'), an!(35, 'O')),
            // C208
            element!('O': an!(35, 'M'), an!(35, 'O')),
            // C208
            element!('O': an!(35, 'M'), an!(35, 'O')),
            // C208
            element!('O': an!(35, 'M'), an!(35, 'O')),
        ],
    },
    // 19 LIN
    RowLine {
        row: row!(b"LIN", 2, Trigger, Optional, 9999),
        layout: &[
            element!('R': an!(6, 'R')),
            element!('N': an!(3, 'N')),
            // C212
            element!('D': an!(35, 'R'), an!(3, 'R', ["SRV"]), an!(17, 'N'), an!(3, 'N')),
            // C829
            element!('D': an!(3, 'R', ["1"]), an!(6, 'R')),
            element!('N': num!(2, 'N')),
            element!('N': an!(3, 'N')),
        ],
    },
    // 20 PIA
    RowLine {
        row: row!(b"PIA", 2, Plain, Optional, 10),
        layout: &[
            element!('M': an!(3, 'M', ["1", "5"])),
            // C212
            element!('M': an!(35, 'R'), an!(3, 'R'), an!(17, 'O'), an!(3, 'D')),
            // C212
            element!('O': an!(35, 'R'), an!(3, 'R'), an!(17, 'O'), an!(3, 'D')),
            // C212
            element!('O': an!(35, 'R'), an!(3, 'R'), an!(17, 'O'), an!(3, 'D')),
            // C212
            element!('O': an!(35, 'R'), an!(3, 'R'), an!(17, 'O'), an!(3, 'D')),
            // C212
            element!('O': an!(35, 'R'), an!(3, 'R'), an!(17, 'O'), an!(3, 'D')),
        ],
    },
    // 21 QTY
    RowLine {
        row: row!(b"QTY", 2, Plain, Optional, 10),
        layout: &[
            // C186
            element!('M': an!(3, 'M', ["12", "21", "46", "48", "59", "66", "192", "194"]), an!(35, 'M'), an!(3, 'D')),
        ],
    },
    // 22 QVR
    RowLine {
        row: row!(b"QVR", 2, Plain, Optional, 10),
        layout: &[
            // C279
            element!('R': num!(15, 'M'), an!(3, 'R')),
            element!('O': an!(3, 'O')),
            // C960
            element!('O': an!(3, 'R'), an!(17, 'O'), an!(3, 'D'), an!(35, 'O')),
        ],
    },
    // 23 DTM
    RowLine {
        row: row!(b"DTM", 2, Plain, Optional, 5),
        layout: &[
            // C507
            element!('M': an!(3, 'M'), an!(35, 'R'), an!(3, 'R')),
        ],
    },
    // 24 RFF
    RowLine {
        row: row!(b"RFF", 3, Trigger, Optional, 10),
        layout: &[
            // C506
            element!('M': an!(3, 'M'), an!(70, 'R'), an!(6, 'O'), an!(35, 'N'), an!(6, 'N')),
        ],
    },
    // 25 DTM
    RowLine {
        row: row!(b"DTM", 3, Plain, Optional, 1),
        layout: &[
            // C507
            element!('M': an!(3, 'M', ["171"]), an!(35, 'R'), an!(3, 'R')),
        ],
    },
    // 26 PCI
    RowLine {
        row: row!(b"PCI", 3, Trigger, Optional, 9999),
        layout: &[
            element!('O': an!(3, 'O')),
            // C210
            element!('O':
                an!(35, 'M'), an!(35, 'O'), an!(35, 'O'), an!(35, 'O'), an!(35, 'O'), an!(35, 'O'),
                an!(35, 'O'), an!(35, 'O'), an!(35, 'O')
            ),
            element!('N': an!(3, 'N')),
            // C827
            element!('N': an!(3, 'M'), an!(17, 'C'), an!(3, 'C')),
        ],
    },
    // 27 QTY
    RowLine {
        row: row!(b"QTY", 3, Plain, Optional, 1),
        layout: &[
            // C186
            element!('M': an!(3, 'M', ["194"]), an!(35, 'M'), an!(3, 'D')),
        ],
    },
    // 28 QVR
    RowLine {
        row: row!(b"QVR", 3, Plain, Optional, 1),
        layout: &[
            // C279
            element!('R': num!(15, 'M'), an!(3, 'R')),
            element!('O': an!(3, 'O')),
            // C960
            element!('O': an!(3, 'R'), an!(17, 'O'), an!(3, 'D'), an!(35, 'O')),
        ],
    },
    // 29 GIN
    RowLine {
        row: row!(b"GIN", 4, Trigger, Optional, 10),
        layout: &[
            element!('M': an!(3, 'M')),
            // C208
            element!('M': an!(35, 'M'), an!(35, 'O')),
            // C208
            element!('O': an!(35, 'M'), an!(35, 'O')),
            // C208
            element!('O': an!(35, 'M'), an!(35, 'O')),
            // C208
            element!('O': an!(35, 'M'), an!(35, 'O')),
            // C208
            element!('O': an!(35, 'M'), an!(35, 'O')),
        ],
    },
    // 30 CNT
    RowLine {
        row: row!(b"CNT", 0, Plain, Optional, 1),
        layout: &[
            // C270
            element!('M': an!(3, 'M', ["2"]), num!(18, 'M'), an!(3, 'O')),
        ],
    },
    // 31 UNT
    RowLine {
        row: row!(b"UNT", 0, Plain, Required, 1),
        layout: &[],
    },
];

// The table of the receiving advice.
#[derive(Clone, Copy, Drop)]
pub struct RecadvTable;

impl BuiltIn for RecadvTable {
    ghost rows = { recadv_rows };

    ghost layouts = { recadv_layouts };

    ghost identifier = { recadv_identifier };

    // the laws are tests, computed over all rows and layouts
    ghost lawful = { refl };

    ghost regular = { refl };

    ghost paired = { refl };

    ghost bare = { (refl, refl) };

    ghost identified = { refl };

    fn table() -> Table {
        Table {
            header: &HEADER,
            detail: &DETAIL,
            identifier: &["RECADV", "D", "01B", "UN", "EAN005"],
        }
    }
}

// The receiving advice RECADV, EANCOM 2002, version 005, directory D.01B.
pub type Recadv = TableBook<RecadvTable>;

// The book as a value, which a constant can be too and a walk can borrow for good.
pub const Recadv: Recadv = TableBook { of: PhantomData };

// The book. Of all rows that may come directly after one row, no two different ones have the same tag.
// It is clear: no two different rows of one tag can follow the same row, in messages of rows and so in messages.
// The guideline's example of each row fits that row.
pub fn book() -> Recadv
    ensures rows { ⟦<Recadv as Diagram>⟧.rows result ≡ recadv_rows }
    ensures layouts { ⟦<Recadv as Book>⟧.layouts result ≡ recadv_layouts }
    ensures identifier { ⟦<Recadv as Book>⟧.identifier result ≡ recadv_identifier }
    ensures followers { followers_differ recadv_rows ≡ true }
    ensures diagram { ClearRows recadv_rows }
    ensures clear { Clear recadv }
    ensures examples { examples_fit ≡ true }
{
    Recadv
}
