// What a cursor over a segment's components does.
ghost use Rattle.std.specs.Prelude.{◌≡◌, ◌+◌, ◌^◌, ◌<◌, ◌≤◌, ◌≢◌, [], length};
ghost use Rattle.std.specs.Iterator.{at_most};
ghost use Rattle.message.specs.Judging.{first, others};
ghost use Rattle.examiner.specs.Measuring.{measure_of};
ghost use Rattle.examiner.specs.Texts.{has_more, MeasuresNext};
ghost use Rattle.examiner.specs.Parts.{current, later, texts_of, same_element, next_elements, bytes_ahead};

use crate::measure::{Measure, first_component};
use crate::parts::{Ahead, Parts, Reading};
use syntax::marks::Marks;

impl<'t> Ahead<'t> {
    // What is ahead behind a component: `bytes` are none, or begin with the mark that ended it.
    fn behind(bytes: &'t [u8], marks: Marks) -> Ahead<'t>
        ensures current { current marks result ≡ same_element marks bytes.now }
        ensures later { later marks result ≡ next_elements marks bytes.now }
        ensures short { length (bytes_ahead result) ≤ length bytes.now }
    {
        match bytes {
            [] => Ahead::Nothing,
            [mark, rest @ ..] if *mark == marks.element => Ahead::Element(rest),
            [_, rest @ ..] => Ahead::Component(rest),
        }
    }
}

impl<'t> Parts<'t> {
    // Before the first component of the first element.
    pub fn of(bytes: &'t [u8], reading: Reading) -> Parts<'t>
        ensures decimal { result.decimal ≡ reading.decimal }
        ensures current { result.current ≡ first (texts_of reading.marks bytes.now) }
        ensures later { result.later ≡ others (texts_of reading.marks bytes.now) }
    {
        Parts {
            reading,
            ahead: Ahead::Component(bytes),
        }
    }

    // Whether the element has a further component.
    #[tactic(auto, using(crate::proofs::PartSteps::cursor_steps))]
    pub fn has_component(&self) -> bool
        ensures more { result ≡ has_more self.now.current }
        ensures few { length self.now.current < 2 ^ 63 + 1 }
    {
        matches!(self.ahead, Ahead::Component(_))
    }

    // Measures the next component of the element, or an empty one if it has none.
    #[tactic(auto, using(crate::proofs::PartSteps::measure_steps))]
    pub fn measure(&mut self) -> Measure
        ensures measure { result ≡ measure_of self.old.decimal (first self.old.current) }
        ensures moved { self.new ≡ record self.old { current = others self.old.current } }
    {
        match self.ahead {
            Ahead::Component(bytes) => {
                let found = first_component(bytes, self.reading);
                let (_, rest) = bytes.split_at(found.length);
                self.ahead = Ahead::behind(rest, self.reading.marks);
                found.measure
            }
            Ahead::Element(_) | Ahead::Nothing => Measure::of_nothing(),
        }
    }

    // Passes over the components that the element still has.
    pub fn leave(&mut self)
        ensures { self.new ≡ record self.old { current = [] } }
    {
        // plainer than a `for` over itself that throws its items away
        while self.has_component() {
            self.measure();
        }
    }

    // Goes on to the next element, if the components of this one have all come, and else stays.
    #[tactic(auto, using(crate::proofs::PartSteps::first_some))]
    pub fn enter(&mut self)
        ensures stays { self.old.current ≢ [] → self.new ≡ self.old }
        // an element has a component, so nothing is behind the last one
        ensures ends { self.old.current ≡ [] → self.new.current ≡ [] → self.old.later ≡ [] }
        ensures entered { self.old.current ≡ [] → self.new ≡ record self.old { current = first self.old.later; later = others self.old.later } }
    {
        match self.ahead {
            Ahead::Element(bytes) => self.ahead = Ahead::Component(bytes),
            Ahead::Component(_) | Ahead::Nothing => {}
        }
    }
}

// The components of the element, by their measures.
impl<'t> Iterator for Parts<'t> {
    type Item = Measure;

    ghost next_gives = { MeasuresNext };

    ghost remaining = { λ s. at_most (length s.current) };

    fn next(&mut self) -> Option<Measure> {
        if self.has_component() {
            Some(self.measure())
        } else {
            None
        }
    }
}
