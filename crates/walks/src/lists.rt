// Walks by tags over diagrams: which row each tag gets, and in which occurrence.
use edifact::cutter::Cutter;
use message::book::Diagram;
use message::walk::Walk;
use std::io::{self, Write};

// Tags that are offered one after the other.
pub struct TagList {
    pub what: &'static str,
    pub tags: &'static str,
}

pub const TRIAL_WALKS: [TagList; 13] = [
    TagList {
        what: "the shortest message",
        tags: "UNH BGM DTM NAD UNT",
    },
    TagList {
        what: "the second date is the reference's, though the header's row has room",
        tags: "UNH BGM DTM RFF DTM",
    },
    TagList {
        what: "a third date where two may come",
        tags: "UNH BGM DTM DTM DTM",
    },
    TagList {
        what: "lines, their quantities, packages and theirs",
        tags: "UNH BGM DTM NAD LIN QTY PCI QTY LIN QTY UNT",
    },
    TagList {
        what: "a second quantity in a package",
        tags: "UNH BGM DTM NAD LIN PCI QTY QTY",
    },
    TagList {
        what: "a second quantity of a line",
        tags: "UNH BGM DTM NAD LIN QTY QTY",
    },
    TagList {
        what: "no party",
        tags: "UNH BGM DTM LIN UNT",
    },
    TagList {
        what: "a message broken off",
        tags: "UNH BGM DTM NAD",
    },
    TagList {
        what: "a second header",
        tags: "UNH UNH BGM",
    },
    TagList {
        what: "a third reference, a third party, a fourth line, a third package",
        tags: "UNH BGM DTM RFF RFF RFF NAD NAD NAD LIN LIN LIN PCI PCI PCI LIN UNT",
    },
    TagList {
        what: "a reference behind a party",
        tags: "UNH BGM DTM NAD RFF UNT",
    },
    TagList {
        what: "nothing comes behind the trailer",
        tags: "UNH BGM DTM NAD UNT UNT LIN",
    },
    TagList {
        what: "unknown tags",
        tags: "UNA UNH XYZ BGM",
    },
];

pub const UNCLEAR_WALKS: [TagList; 2] = [
    TagList {
        what: "the outer line is lower than the one in the package",
        tags: "UNH LIN PCI LIN LIN UNT",
    },
    TagList {
        what: "the lower date first",
        tags: "UNH DTM DTM DTM DTM UNT",
    },
];

// Each offer is asked for first; a line tells the tag, and its row and occurrence or that none can come next.
fn write_offer<D: Diagram>(
    out: &mut Vec<u8>,
    walk: &mut Walk<'_, D>,
    tag: [u8; 3],
) -> io::Result<()> {
    let asked = walk.ask(tag);
    let answer = walk.offer(tag);
    out.write_all(&tag)?;
    match answer {
        Some((row, occurrence)) => write!(out, "\trow\t{row}\t{occurrence}")?,
        None => write!(out, "\tnone")?,
    }
    if asked != answer {
        write!(out, "\tasked otherwise")?;
    }
    writeln!(out)
}

fn write_end<D: Diagram>(out: &mut Vec<u8>, walk: &Walk<'_, D>) -> io::Result<()> {
    if walk.is_complete() {
        writeln!(out, "complete")
    } else {
        writeln!(out, "incomplete")
    }
}

pub fn write_walk<D: Diagram>(out: &mut Vec<u8>, diagram: &D, list: &TagList) -> io::Result<()> {
    writeln!(out, "walk\t{}", list.what)?;
    let mut walk = Walk::new(diagram);
    for word in list.tags.split(' ') {
        if let Ok(tag) = <[u8; 3]>::try_from(word.as_bytes()) {
            write_offer(out, &mut walk, tag)?;
        }
    }
    write_end(out, &walk)
}

// The tags of a text's segments, up to the first that can't be cut. Not one function with the last over an iterator
// of tags: the cutter is none, since it answers a `Result`, and `iter::from_fn` over it isn't known to end.
pub fn write_text_walk<D: Diagram>(
    out: &mut Vec<u8>,
    diagram: &D,
    name: &str,
    text: &[u8],
) -> io::Result<()> {
    writeln!(out, "walk\t{name}")?;
    let mut walk = Walk::new(diagram);
    let mut cutter = Cutter::new(text);
    while let Ok(Some(segment)) = cutter.next() {
        write_offer(out, &mut walk, segment.tag())?;
    }
    write_end(out, &walk)
}
