// What one pass over a component's bytes finds of its characters.
ghost use Rattle.std.specs.Prelude.{◌≡◌, ◌+◌, ◌-◌, ◌*◌, ◌^◌, ◌<◌, ◌≤◌, false, length as size, take};
ghost use Rattle.syntax.specs.Split.{characters};
ghost use Rattle.message.specs.Layouts.{letter_or_space, within};
ghost use Rattle.message.specs.Judging.{value_of};
ghost use Rattle.examiner.specs.Measuring.{advanced, complete, kept, nothing, grown, measure_of, start, ends, passed, stretch, class_in, size_in, spelled_in, reference_in, count_in};

use crate::parts::Reading;
use message::layout::{Class, Extent};
use syntax::bytes::is_release;
use syntax::marks::{DecimalMark, Marks};

// How far characters have come as a number.
#[derive(Clone, Copy, PartialEq, Eq, Debug, Drop)]
pub enum Numeral {
    Nothing,
    Minus,
    Whole,
    Mark,
    Fraction,
    Wrong,
}

// What is known of the characters: how many they are, those past the 17th too, and how many of them are digits, whether all are letters or spaces, how far they are a number, and the first 17 of them, with zeros behind.
#[derive(Clone, Copy, Drop)]
pub struct Measure {
    pub count: usize,
    pub digits: usize,
    // a flag on which no other value hangs
    pub alphabetic: bool,
    pub numeral: Numeral,
    // an array and no ArrayVec, which isn't Copy
    pub letters: [u8; 17],
}

// What the first component of some bytes is: the measure of its characters, and how many bytes it has.
#[derive(Clone, Copy, Drop)]
pub struct Stretch {
    pub measure: Measure,
    pub length: usize,
}

// Whether `c` is a letter or a space.
fn is_letter_or_space(c: u8) -> bool
    ensures { result ≡ letter_or_space c }
{
    c.is_ascii_alphabetic() || c == b' '
}

// Keeps `c` among the first letters, as the one behind `count` others.
fn keep(letters: &mut [u8; 17], count: usize, c: u8)
    ensures { letters.new ≡ kept letters.old count c }
{
    if count < 17 {
        letters[count] = c;
    }
}

// The value `n` with the digit `c` behind.
fn with_digit(n: usize, c: u8) -> usize
    requires { n < 2 ^ 60 }
    ensures { result ≡ n * 10 + (c - 48) }
{
    n * 10 + usize::from(c.saturating_sub(b'0'))
}

// The value of at most 17 digits. By hand: they are bytes, of which only the digits' value counts, and `parse` takes a &str.
#[tactic(auto, using(crate::proofs::Values::value_steps))]
fn value(digits: &[u8]) -> usize
    requires { size digits.now ≤ 17 }
    ensures { result ≡ value_of 0 digits.now }
{
    let mut n = 0;
    // no fold: its closure would be asked to hold the sum small by itself
    for c in digits {
        n = with_digit(n, *c);
    }
    n
}

impl Numeral {
    // How far the number has come with one character more.
    fn advance(self, c: u8, decimal: DecimalMark) -> Numeral
        ensures { result ≡ advanced decimal self c }
    {
        match self {
            Numeral::Nothing if c == b'-' => Numeral::Minus,
            Numeral::Nothing | Numeral::Minus if c.is_ascii_digit() => Numeral::Whole,
            Numeral::Whole if c.is_ascii_digit() => Numeral::Whole,
            Numeral::Whole if c == u8::from(decimal) => Numeral::Mark,
            Numeral::Mark | Numeral::Fraction if c.is_ascii_digit() => Numeral::Fraction,
            _ => Numeral::Wrong,
        }
    }

    // Whether the characters are a number as they stand: a digit is the last.
    fn is_complete(self) -> bool
        ensures { result ≡ complete self }
    {
        matches!(self, Numeral::Whole | Numeral::Fraction)
    }
}

impl Measure {
    // The measure of no characters.
    pub fn of_nothing() -> Measure
        ensures { result ≡ nothing }
    {
        Measure {
            count: 0,
            digits: 0,
            alphabetic: true,
            numeral: Numeral::Nothing,
            letters: [0; 17],
        }
    }

    // Measures one character more.
    fn grow(&mut self, c: u8, decimal: DecimalMark)
        requires { (self.old.count + 1 < 2 ^ 64) × (self.old.digits + 1 < 2 ^ 64) }
        ensures { self.new ≡ grown decimal self.old c }
    {
        keep(&mut self.letters, self.count, c);
        self.count += 1;
        self.digits += usize::from(c.is_ascii_digit());
        self.alphabetic &= is_letter_or_space(c);
        self.numeral = self.numeral.advance(c, decimal);
    }

    // Whether the characters are of the class; any characters are alphanumeric.
    pub fn has_class(&self, class: Class) -> bool
        ensures { result ≡ class_in class self.now }
    {
        match class {
            Class::Alphabetic => self.alphabetic,
            Class::Numeric => self.numeral.is_complete(),
            Class::Alphanumeric => true,
        }
    }

    // How long the characters are: of a number only the digits count.
    fn length(&self, class: Class) -> usize
        ensures { result ≡ size_in class self.now }
    {
        match class {
            Class::Numeric => self.digits,
            Class::Alphabetic | Class::Alphanumeric => self.count,
        }
    }

    // Whether the characters are as long as the extent says.
    pub fn has_extent(&self, class: Class, extent: Extent) -> bool
        ensures { result ≡ within extent (size_in class self.now) }
    {
        let length = self.length(class);
        match extent {
            Extent::Exactly(n) => length == usize::from(n),
            Extent::AtMost(n) => length <= usize::from(n),
        }
    }

    // Whether the characters are the word, of at most 17 letters.
    pub fn spells(&self, word: &[u8]) -> bool
        ensures { result ≡ spelled_in word.now self.now }
    {
        word.len() <= 17 && word.len() == self.count && word == &self.letters[..word.len()]
    }

    // Whether the characters can be a reference: 1 to 14 of them.
    pub fn is_reference(&self) -> bool
        ensures { result ≡ reference_in self.now }
    {
        1 <= self.count && self.count <= 14
    }

    // Whether the characters are 1 to 6 digits of the value `n`.
    pub fn is_count(&self, n: usize) -> bool
        ensures { result ≡ count_in n self.now }
    {
        1 <= self.count
            && self.count <= 6
            && self.digits == self.count
            && value(&self.letters[..self.count]) == n
    }
}

// A component whose bytes are being read: the measure of the characters so far, and whether a release mark protects the next byte.
#[derive(Drop)]
struct Scan {
    measure: Measure,
    // a flag on which no other value hangs
    protected: bool,
}

impl Scan {
    // Before the first byte.
    fn at_start() -> Scan
        ensures { result ≡ start }
    {
        Scan {
            measure: Measure::of_nothing(),
            protected: false,
        }
    }

    // Whether the component ends before `b`: at an unprotected component or element mark.
    fn ends_at(&self, b: u8, marks: Marks) -> bool
        ensures { result ≡ ends marks.release marks.component marks.element self.now.protected b }
    {
        marks.components().divides(b, self.protected) || marks.elements().divides(b, self.protected)
    }

    // Reads `b`: a release mark is no character.
    fn pass(&mut self, b: u8, reading: Reading)
        requires { (self.old.measure.count + 1 < 2 ^ 64) × (self.old.measure.digits + 1 < 2 ^ 64) }
        ensures { self.new ≡ passed reading.decimal reading.marks.release self.old b }
    {
        self.protected = is_release(b, reading.marks.release, self.protected);
        if !self.protected {
            self.measure.grow(b, reading.decimal);
        }
    }
}

// The first component of `bytes`: up to the first unprotected component or element mark, or the end.
#[tactic(auto, using(crate::proofs::Stretches::stretch_steps))]
pub fn first_component(bytes: &[u8], reading: Reading) -> Stretch
    ensures length { result.length ≡ stretch reading.marks.release reading.marks.component reading.marks.element false bytes.now }
    ensures within { result.length ≤ size bytes.now }
    ensures measure { result.measure ≡ measure_of reading.decimal (characters reading.marks.release false (take result.length bytes.now)) }
{
    let mut scan = Scan::at_start();
    for (i, b) in bytes.iter().enumerate() {
        if scan.ends_at(*b, reading.marks) {
            return Stretch {
                measure: scan.measure,
                length: i,
            };
        }
        scan.pass(*b, reading);
    }
    Stretch {
        measure: scan.measure,
        length: bytes.len(),
    }
}
