// What the cutter does.
ghost use Rattle.std.specs.Prelude.{◌≡◌, ℕ, ◌+◌, ◌^◌, ◌<◌, ◌≤◌, List, drop, length as size, if◌then◌else◌};
ghost use Rattle.std.specs.Option.{unwrap_or};
ghost use Rattle.syntax.specs.Marks.{has_header, header_length, marks_of, usual};
ghost use Rattle.syntax.specs.Bytes.{break_run};
ghost use Rattle.edifact.specs.Cutting.{cut};
ghost use Rattle.edifact.specs.Laws.{JoinsBack, OnlyCut, CharactersSpelled};
ghost use Rattle.edifact.specs.Cursors.{remaining, Tells, HandsOut};

use crate::cutter::{Cutter, Rest};
use crate::part::Text;
use crate::scan::break_count;
use crate::segment::Segment;
use syntax::fault::CutFault;
use syntax::header::{has_header, read_header};
use syntax::marks::Marks;

// How many bytes the header has.
fn header_length(text: &[u8]) -> usize
    ensures { result ≡ header_length text.now }
{
    if has_header(text) { 9 } else { 0 }
}

// How many CR and LF are skipped in front of the first segment: only behind a header.
fn leading_breaks(text: &[u8], body: &[u8]) -> usize
    ensures value { result ≡ (if has_header text.now then break_run body.now else 0) }
    ensures within { result ≤ size body.now }
{
    if !has_header(text) {
        return 0;
    }
    break_count(body)
}

impl<'t> Rest<'t> {
    // What is left behind a segment of `length` bytes, its terminator, and the CR and LF behind that.
    fn behind(&self, length: usize) -> Rest<'t>
        requires { length < size self.now.bytes.now }
        ensures bytes { let left = drop (length + 1) self.now.bytes.now in result.bytes.now ≡ drop (break_run left) left }
        ensures position { result.position ≡ self.now.position + (length + 1 + break_run (drop (length + 1) self.now.bytes.now)) }
        ensures number { result.number ≡ self.now.number + 1 }
    {
        let bytes = &self.bytes[length + 1..];
        let skipped = break_count(bytes);
        Rest {
            bytes: &bytes[skipped..],
            position: self.position + (length + 1 + skipped),
            number: self.number + 1,
        }
    }
}

impl<'t> Cutter<'t> {
    // A cutter in front of the first segment.
    pub fn new(text: &'t [u8]) -> Cutter<'t>
        ensures cuts { remaining result ≡ cut text.now }
        ensures joins { JoinsBack text.now }
        ensures only { OnlyCut text.now }
        ensures spelled { (m : Marks) (bs : List ℕ) → CharactersSpelled m bs }
        ensures marks { result.marks ≡ unwrap_or (marks_of text.now) usual }
    {
        let (marks, body) = match read_header(text) {
            Ok(head) => head,
            Err(fault) => {
                return Cutter {
                    marks: Marks::usual(),
                    rest: Err(fault),
                };
            }
        };
        let skipped = leading_breaks(text, body);
        Cutter {
            marks,
            rest: Ok(Rest {
                bytes: &body[skipped..],
                position: header_length(text) + skipped,
                number: 1,
            }),
        }
    }

    // The marks of the text, and the usual ones where its header is bad.
    pub fn marks(&self) -> Marks
        ensures { result ≡ self.now.marks }
    {
        self.marks
    }

    // The next segment, or none at the end of the text, or the fault at which it stops.
    pub fn next(&mut self) -> Result<Option<Segment<'t>>, CutFault>
        ensures tells { Tells (remaining self.old) result (remaining self.new) }
        ensures whole { HandsOut result }
        ensures marks { self.new.marks ≡ self.old.marks }
    {
        let rest = self.rest?;
        if rest.bytes.is_empty() {
            return Ok(None);
        }
        let marks = self.marks;
        let text: Text<'t> = Text::of(marks, rest.bytes);
        let found = match text.first_segment(rest.number) {
            Ok(found) => found,
            Err(fault) => {
                self.rest = Err(fault);
                return Err(fault);
            }
        };
        self.rest = Ok(rest.behind(found.length));
        let (bytes, _) = rest.bytes.split_at(found.length);
        let part = Text::of(marks, bytes);
        let tag = found.tag;
        Ok(Some(Segment {
            number: rest.number,
            first: rest.position,
            part,
            tag,
        }))
    }
}
