// Why a text isn't cut.
ghost use Rattle.std.specs.Prelude.{◌≡◌, Some};
ghost use Rattle.syntax.specs.Faults.{refusal_of, place_words, fault_words, bad_header};

use crate::marks::BadMarks;
use std::error::Error;
use std::fmt;

// A component of a text: segments and components count from 1, elements from 0, which is the tag.
#[derive(Clone, Copy, PartialEq, Eq, Debug, Drop)]
pub struct Place {
    pub segment: usize,
    pub element: usize,
    pub component: usize,
}

// The fault at which a text stops being cut.
#[derive(Clone, Copy, PartialEq, Eq, Debug, Drop)]
pub enum CutFault {
    BadHeader,
    ForbiddenByte(Place),
    UnendedSegment(Place),
    BadTag(usize),
}

// A refusal by its number, with 0 for each place that it doesn't tell: no enum and no Option, since the formats fix these numbers.
#[derive(Clone, Copy, PartialEq, Eq, Debug, Drop)]
pub struct Refusal {
    pub number: u8,
    pub place: Place,
}

impl Place {
    // The place of a fault that tells at most a segment.
    fn of_segment(segment: usize) -> Place
        ensures { result ≡ record { segment = segment; element = 0; component = 0 } }
    {
        Place {
            segment,
            element: 0,
            component: 0,
        }
    }
}

// Its number among the refusals, and the places it tells.
impl From<CutFault> for Refusal {
    ghost from_gives = { λ f r. r ≡ refusal_of f };

    fn from(fault: CutFault) -> Refusal {
        match fault {
            CutFault::BadHeader => Refusal {
                number: 1,
                place: Place::of_segment(0),
            },
            CutFault::ForbiddenByte(place) => Refusal { number: 2, place },
            CutFault::UnendedSegment(place) => Refusal { number: 3, place },
            CutFault::BadTag(segment) => Refusal {
                number: 4,
                place: Place::of_segment(segment),
            },
        }
    }
}

impl From<BadMarks> for CutFault {
    ghost from_gives = { λ _ f. f ≡ bad_header };

    fn from(_marks: BadMarks) -> CutFault {
        Self::BadHeader
    }
}

impl fmt::Display for Place {
    ghost output = { λ p. Some (place_words p) };

    fn fmt<W: fmt::Write>(&self, f: &mut fmt::Formatter<W>) -> fmt::Result {
        write!(
            f,
            "segment {}, element {}, component {}",
            self.segment, self.element, self.component
        )
    }
}

// For a person.
impl fmt::Display for CutFault {
    ghost output = { λ f. Some (fault_words f) };

    fn fmt<W: fmt::Write>(&self, f: &mut fmt::Formatter<W>) -> fmt::Result {
        match self {
            CutFault::BadHeader => f.write_str(
                "the header UNA has under nine bytes, no space before the terminator, or unlawful marks (refusal 1)",
            ),
            CutFault::ForbiddenByte(place) => write!(
                f,
                "{place}: a byte that isn't allowed (refusal 2)"
            ),
            CutFault::UnendedSegment(place) => write!(
                f,
                "{place}: the text ends before the segment does (refusal 3)"
            ),
            CutFault::BadTag(segment) => write!(
                f,
                "segment {segment}: the tag isn't three letters A to Z, or is UNA (refusal 4)"
            ),
        }
    }
}

impl Error for CutFault {}
