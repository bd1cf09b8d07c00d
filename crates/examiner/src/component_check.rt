// Checks a component by its measure.
ghost use Rattle.std.specs.Prelude.{◌≡◌, ℕ};
ghost use Rattle.message.specs.Layouts.{status_of};
ghost use Rattle.examiner.specs.Checking.{listed_in, spelled_at, value_in, component_in};
ghost use Rattle.std.specs.List.{slice_get};

use crate::measure::Measure;
use message::book::Book;
use message::layout::{ComponentRule, SegmentFault, Spot, Status, status_of};
use std::marker::Model;

// A component of a row's layout, its element and itself from 0 in the book: contracts see its rule with its codes, and where it stands.
#[derive(Drop)]
pub struct ComponentLayout<'b, B: Book> {
    pub book: &'b B,
    pub row: usize,
    pub element: usize,
    pub component: usize,
    pub rule: ComponentRule,
}

impl<'b, B: Book> Model for ComponentLayout<'b, B> {
    ghost use Rattle.std.specs.Prelude.{◌≡◌, ◌+◌, ◌<◌, Some};
    ghost use Rattle.std.specs.Option.{option_map};
    ghost use Rattle.message.specs.Layouts.{component_head, component_at};
    ghost use Rattle.message.specs.Judging.{spot};
    ghost use Rattle.examiner.specs.Checking.{ComponentAt, ruled, codes_at};

    ghost Value = { ComponentAt };

    ghost view = { λ l. record { spot = spot (l.element + 1) (l.component + 1); component = ruled l.rule (codes_at (B.Book.layouts l.book.now) l.row l.element l.component) } };

    ghost invariant = { λ l. (Some l.rule ≡ option_map component_head (component_at (B.Book.layouts l.book.now) l.row l.element l.component)) × (l.element < 40) × (l.component < 40) };
}

impl<'b, B: Book> ComponentLayout<'b, B> {
    // Where it stands.
    pub fn spot(&self) -> Spot
        ensures { result ≡ self.now.spot }
    {
        Spot {
            element: self.element + 1,
            component: self.component + 1,
        }
    }

    // Whether the characters are its code with that number.
    fn has_code(&self, number: usize, measure: &Measure) -> bool
        ensures { result ≡ spelled_at (slice_get self.now.component.codes number) measure.now }
    {
        self.book
            .code(self.row, self.element, self.component, number)
            .is_some_and(|code| measure.spells(code))
    }

    // Whether the characters are one of its codes, or it has none.
    fn is_listed(&self, measure: &Measure) -> bool
        ensures { result ≡ listed_in self.now.component.codes measure.now }
    {
        self.rule.codes == 0 || (0..self.rule.codes).any(|number| self.has_code(number, measure))
    }

    // Filled: class, length, code.
    fn value_fault(&self, measure: &Measure) -> Option<SegmentFault>
        ensures { result ≡ value_in self.now measure.now }
    {
        if !measure.has_class(self.rule.class) {
            return Some(SegmentFault::WrongClass(self.spot()));
        }
        if !measure.has_extent(self.rule.class, self.rule.extent) {
            return Some(SegmentFault::WrongLength(self.spot()));
        }
        if !self.is_listed(measure) {
            return Some(SegmentFault::NotListed(self.spot()));
        }
        None
    }

    // In an element that has something filled.
    pub fn fault(&self, measure: &Measure) -> Option<SegmentFault>
        ensures { result ≡ component_in self.now measure.now }
    {
        match (status_of(self.rule.status)?, measure.count == 0) {
            (Status::Required, true) => Some(SegmentFault::Missing(self.spot())),
            (Status::Unused, false) => Some(SegmentFault::Unused(self.spot())),
            (Status::Unused | Status::Optional, true) => None,
            (Status::Required | Status::Optional, false) => self.value_fault(measure),
        }
    }
}
