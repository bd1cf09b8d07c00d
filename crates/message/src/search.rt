// The search for the row that comes next.
ghost use Rattle.std.specs.Prelude.{◌≡◌, min, ◌==◌};
ghost use Rattle.message.specs.Walk.{next, position, within};
ghost use Rattle.message.specs.Searching.{state_of, lower_next, Finds, Closes};

use crate::book::Diagram;
use crate::open::{Next, Open};

// The one with the lower row number, and `a` if both have the same. By hand: with `min_by_key` a goal stays open.
// `b` is looked at first, since most often there is none; a match on the pair would build it at each row.
fn lower_of(a: Option<Next>, b: Option<Next>) -> Option<Next>
    ensures { result ≡ lower_next a b }
{
    let Some(n) = b else {
        return a;
    };
    match a {
        Some(m) if m.opened.number <= n.opened.number => a,
        _ => b,
    }
}

// The depth of the parts of the innermost open row, or of the message.
fn parts_depth(held: &[Open]) -> usize
    ensures { result ≡ within (state_of held.now) }
{
    held.last().map_or(1, |inner| inner.row.depth() + 1)
}

// The row behind the one that came last, or `count` if that is less.
fn position_of(held: &[Open], count: usize) -> usize
    ensures { result ≡ min (position (state_of held.now)) count }
{
    held.last()
        .map_or(0, |came| came.number.saturating_add(1).min(count))
}

// Whether the row that came last is the last of `count` rows.
pub fn is_last(held: &[Open], count: usize) -> bool
    ensures { result ≡ (position (state_of held.now) == count) }
{
    held.last().map_or(count == 0, |came| came.number.checked_add(1) == Some(count))
}

// How far a search has come: the rows that are still open, and the lowest row found.
#[derive(Clone, Copy, Drop)]
struct Scan<'h> {
    open: &'h [Open],
    best: Option<Next>,
}

// Ends the open rows that end before a row of this depth. Those of them that may come again are found too.
fn close<'h>(held: &'h [Open], found: Option<Next>, depth: usize, tag: [u8; 3]) -> Scan<'h>
    ensures { Closes held.now depth tag found result.open.now result.best }
{
    let mut open = held;
    let mut best = found;
    while let Some((innermost, outer)) = open.split_last()
        && innermost.ends_at(depth)
    {
        best = lower_of(best, Next::again(*innermost, outer.len(), tag));
        open = outer;
    }
    Scan { open, best }
}

// The row that comes next if a segment of this tag is offered, where the rows `held` are open, the innermost last.
pub fn search<D: Diagram>(diagram: &D, held: &[Open], tag: [u8; 3]) -> Option<Next>
    ensures { Finds held.now result (next (D.Diagram.rows diagram.now) tag (state_of held.now)) }
{
    let count = diagram.row_count();
    let mut open = held;
    let mut best: Option<Next> = None;
    for number in position_of(held, count)..count {
        let Some(row) = diagram.row(number) else {
            return best;
        };
        let depth = row.depth();
        // inside a group that isn't open: no open row ends before it
        if depth > parts_depth(open) {
            continue;
        }
        let closed = close(open, best, depth, tag);
        open = closed.open;
        best = closed.best;
        if depth > parts_depth(open) {
            continue;
        }
        best = lower_of(best, Next::first(number, row, open.len(), tag));
        if row.is_required() {
            return best;
        }
    }
    best
}
