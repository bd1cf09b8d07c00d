// What a row's layout asks of a segment's elements and components.
ghost use Rattle.std.specs.Prelude.{◌≡◌, Some};
ghost use Rattle.message.specs.Faults.{number_of, spot_of};
ghost use Rattle.message.specs.Layouts.{status_of};
ghost use Rattle.message.specs.Notation.{class_text, extent_text};

use std::fmt;

// What the characters of a component may be: letters and spaces, a number, or any.
#[derive(Clone, Copy, PartialEq, Eq, Debug, Drop)]
pub enum Class {
    Alphabetic,
    Numeric,
    Alphanumeric,
}

impl Class {
    // As EDIFACT writes it in front of the length.
    pub fn name(self) -> &'static str
        ensures { result.now ≡ class_text self }
    {
        match self {
            Class::Alphabetic => "a",
            Class::Numeric => "n",
            Class::Alphanumeric => "an",
        }
    }
}

impl fmt::Display for Class {
    ghost output = { λ class. Some (class_text class) };

    fn fmt<W: fmt::Write>(&self, f: &mut fmt::Formatter<W>) -> fmt::Result {
        f.write_str(self.name())
    }
}

// How many characters a component has; of a number, how many digits.
#[derive(Clone, Copy, PartialEq, Eq, Debug, Drop)]
pub enum Extent {
    Exactly(u16),
    AtMost(u16),
}

// As EDIFACT writes it behind the class: an3 is exactly three characters, an..35 at most 35.
impl fmt::Display for Extent {
    ghost output = { λ extent. Some (extent_text extent) };

    fn fmt<W: fmt::Write>(&self, f: &mut fmt::Formatter<W>) -> fmt::Result {
        match self {
            Extent::Exactly(length) => write!(f, "{length}"),
            Extent::AtMost(length) => write!(f, "..{length}"),
        }
    }
}

// What a status letter means.
#[derive(Clone, Copy, PartialEq, Eq, Debug, Drop)]
pub enum Status {
    Required,
    Unused,
    Optional,
}

// What a book tells of an element: its status letter, and how many components it has.
// A status is told as its letter: a rule of the project.
#[derive(Clone, Copy, PartialEq, Eq, Debug, Drop)]
pub struct ElementRule {
    pub status: char,
    pub components: usize,
}

// What a book tells of a component: its status letter as a letter, a rule of the project, and how many codes its list has.
// No Option for these: a list without codes binds nothing, as none does.
#[derive(Clone, Copy, PartialEq, Eq, Debug, Drop)]
pub struct ComponentRule {
    pub class: Class,
    pub extent: Extent,
    pub status: char,
    pub codes: usize,
}

// A component of a segment: elements and components count from 1.
#[derive(Clone, Copy, PartialEq, Eq, Debug, Drop)]
pub struct Spot {
    pub element: usize,
    pub component: usize,
}

// Why a segment doesn't fit its row. Each case has a number, a rule of the project, and its spot: as plain as a struct of both.
#[derive(Clone, Copy, PartialEq, Eq, Debug, Drop)]
pub enum SegmentFault {
    Beyond(Spot),
    Missing(Spot),
    Unused(Spot),
    WrongClass(Spot),
    WrongLength(Spot),
    NotListed(Spot),
    BadHeader(Spot),
    BadTrailer(Spot),
}

impl SegmentFault {
    // Its number among the refusals.
    pub fn number(self) -> u8
        ensures { result ≡ number_of self }
    {
        match self {
            SegmentFault::Beyond(_) => 8,
            SegmentFault::Missing(_) => 9,
            SegmentFault::Unused(_) => 10,
            SegmentFault::WrongClass(_) => 11,
            SegmentFault::WrongLength(_) => 12,
            SegmentFault::NotListed(_) => 13,
            SegmentFault::BadHeader(_) => 14,
            SegmentFault::BadTrailer(_) => 15,
        }
    }

    // The component that it is told at.
    pub fn spot(self) -> Spot
        ensures { result ≡ spot_of self }
    {
        match self {
            SegmentFault::Beyond(spot)
            | SegmentFault::Missing(spot)
            | SegmentFault::Unused(spot)
            | SegmentFault::WrongClass(spot)
            | SegmentFault::WrongLength(spot)
            | SegmentFault::NotListed(spot)
            | SegmentFault::BadHeader(spot)
            | SegmentFault::BadTrailer(spot) => spot,
        }
    }
}

// The status that a letter means, if it is one.
// A function and no TryFrom: a rule of the project.
pub fn status_of(letter: char) -> Option<Status>
    ensures { result ≡ status_of letter }
{
    match letter {
        'M' | 'R' => Some(Status::Required),
        'N' => Some(Status::Unused),
        'A' | 'O' | 'D' | 'C' => Some(Status::Optional),
        _ => None,
    }
}
