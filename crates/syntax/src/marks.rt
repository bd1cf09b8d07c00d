// The marks of a text.
ghost use Rattle.std.specs.Prelude.{◌≡◌, slice_index};
ghost use Rattle.std.specs.Result.{result_ok};
ghost use Rattle.syntax.specs.Marks.{decimal_of, decimal_byte, differs, lawful, marks_in, usual};

use crate::bytes::is_markable;
use crate::pieces::Divider;

// The mark between the whole and the decimal digits of a number.
#[derive(Clone, Copy, PartialEq, Eq, Debug, Drop)]
pub enum DecimalMark {
    Point,
    Comma,
}

// The five marks of a text.
#[derive(Clone, Copy, PartialEq, Eq, Debug, Drop)]
pub struct Marks {
    pub component: u8,
    pub element: u8,
    pub decimal: DecimalMark,
    pub release: u8,
    pub terminator: u8,
}

// Bytes that can't be the marks of a text.
#[derive(Clone, Copy, PartialEq, Eq, Debug, Drop)]
pub struct BadMarks;

impl TryFrom<u8> for DecimalMark {
    type Error = BadMarks;

    ghost try_from_gives = { λ b r. result_ok r ≡ decimal_of b };

    fn try_from(b: u8) -> Result<DecimalMark, BadMarks> {
        match b {
            b'.' => Ok(DecimalMark::Point),
            b',' => Ok(DecimalMark::Comma),
            _ => Err(BadMarks),
        }
    }
}

// The byte that a text has for it.
impl From<DecimalMark> for u8 {
    ghost from_gives = { λ d b. b ≡ decimal_byte d };

    fn from(mark: DecimalMark) -> u8 {
        match mark {
            DecimalMark::Point => b'.',
            DecimalMark::Comma => b',',
        }
    }
}

// Whether `b` is none of the others.
fn is_other(b: u8, others: [u8; 4]) -> bool
    ensures { result ≡ differs b (slice_index others 0) (slice_index others 1) (slice_index others 2) (slice_index others 3) }
{
    !others.contains(&b)
}

impl Marks {
    // The marks of a text without a header.
    pub fn usual() -> Marks
        ensures { result ≡ usual }
    {
        Marks {
            component: b':',
            element: b'+',
            decimal: DecimalMark::Point,
            release: b'?',
            terminator: b'\'',
        }
    }

    // Whether these may be the marks of a text.
    pub fn are_lawful(&self) -> bool
        ensures { result ≡ lawful self.now }
    {
        let (c, e, r, t) = (self.component, self.element, self.release, self.terminator);
        let d = u8::from(self.decimal);
        (is_markable(c) && is_markable(e) && is_markable(r) && is_markable(t))
            && (is_other(c, [e, d, r, t])
                && (is_other(e, [c, d, r, t])
                    && (is_other(r, [c, e, d, t]) && is_other(t, [c, e, d, r]))))
    }

    // What divides bytes at one of these marks.
    fn divider(&self, mark: u8) -> Divider
        ensures { result ≡ record { release = self.now.release; mark = mark } }
    {
        Divider {
            release: self.release,
            mark,
        }
    }

    // What divides a text into segments.
    pub fn segments(&self) -> Divider
        ensures { result ≡ record { release = self.now.release; mark = self.now.terminator } }
    {
        self.divider(self.terminator)
    }

    // What divides a segment into elements.
    pub fn elements(&self) -> Divider
        ensures { result ≡ record { release = self.now.release; mark = self.now.element } }
    {
        self.divider(self.element)
    }

    // What divides an element into components.
    pub fn components(&self) -> Divider
        ensures { result ≡ record { release = self.now.release; mark = self.now.component } }
    {
        self.divider(self.component)
    }
}

// The marks that the bytes of a header are, in its order, if they are lawful.
impl TryFrom<[u8; 5]> for Marks {
    type Error = BadMarks;

    ghost try_from_gives = { λ bs r. result_ok r ≡ marks_in (slice_index bs 0) (slice_index bs 1) (slice_index bs 2) (slice_index bs 3) (slice_index bs 4) };

    fn try_from(bytes: [u8; 5]) -> Result<Marks, BadMarks> {
        let [component, element, decimal, release, terminator] = bytes;
        let marks = Marks {
            component,
            element,
            decimal: DecimalMark::try_from(decimal)?,
            release,
            terminator,
        };
        if marks.are_lawful() {
            Ok(marks)
        } else {
            Err(BadMarks)
        }
    }
}
