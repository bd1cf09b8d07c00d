// Checks a segment's elements by the layout of a row, in one pass over its bytes.
ghost use Rattle.std.specs.Prelude.{◌≡◌, ℕ, ◌+◌, ◌^◌, ◌<◌, ◌≤◌, [], length, true, IfSome};
ghost use Rattle.std.specs.List.{slice_get};
ghost use Rattle.std.specs.Option.{option_map};
ghost use Rattle.message.specs.Layouts.{status_of, component_rule};
ghost use Rattle.message.specs.Judging.{or_else, first_filled, whole_fault, element_fault, elements_fault, layout_fault};
ghost use Rattle.message.specs.Messages.{layout_of, segment_of};
ghost use Rattle.edifact.specs.Cursors.{cut_of};
ghost use Rattle.examiner.specs.Checking.{filled_by, beyond_at, part_fault, component_of, element_of};
ghost use Rattle.examiner.specs.Passing.{tallied, Passing};

use crate::component_check::ComponentLayout;
use crate::measure::Measure;
use crate::parts::{Parts, Reading};
use edifact::segment::Segment;
use message::book::Book;
use message::layout::{ElementRule, SegmentFault, Spot, Status, status_of};
use std::marker::Model;
use syntax::marks::DecimalMark;

// What the pass over an element's components found: the number of the first filled one, and the first fault if something is filled.
#[derive(Clone, Copy, Drop)]
struct Tally {
    filled: Option<usize>,
    fault: Option<SegmentFault>,
}

// The number of the first filled component, where the next is component `number`.
fn first_filled(filled: Option<usize>, number: usize, measure: &Measure) -> Option<usize>
    ensures { result ≡ filled_by filled number measure.now }
{
    filled.or((measure.count != 0).then_some(number))
}

// A component beyond the layout is a fault, even when it is empty.
fn beyond_fault(more: bool, at: Spot) -> Option<SegmentFault>
    ensures { result ≡ beyond_at more at }
{
    more.then_some(SegmentFault::Beyond(at))
}

// The first fault of an element: of it as a whole, else of its components. Those of the layout count only where something is filled.
fn element_fault_of(
    whole: Option<SegmentFault>,
    filled: Option<usize>,
    inner: Option<SegmentFault>,
    surplus: Option<SegmentFault>,
) -> Option<SegmentFault>
    ensures { result ≡ or_else whole (part_fault filled inner surplus) }
{
    whole.or(filled.and(inner)).or(surplus)
}

impl Tally {
    // Before the first component.
    fn at_start() -> Tally
        ensures { result ≡ record { filled = None; fault = None } }
    {
        Tally {
            filled: None,
            fault: None,
        }
    }

    // With one component more.
    fn with<B: Book>(self, component: &ComponentLayout<'_, B>, measure: &Measure) -> Tally
        ensures { result ≡ tallied self component.now measure.now }
    {
        Tally {
            filled: first_filled(self.filled, component.spot().component, measure),
            fault: self.fault.or(component.fault(measure)),
        }
    }
}

// The number of the first filled component that the element still has, the next of them `number`. Passes over them all.
fn filled_ahead(parts: &mut Parts<'_>, number: usize) -> Option<usize>
    requires number { number ≤ 41 }
    requires few { length parts.old.current < 2 ^ 63 + 1 }
    ensures filled { result ≡ first_filled number parts.old.current }
    ensures passed { parts.new ≡ record parts.old { current = [] } }
{
    let before = parts.position(|measure| measure.count != 0);
    parts.leave();
    before.map(|before| number + before)
}

// An element of a row's layout, from 0 in the book: contracts see its rules, and its number from 1.
#[derive(Drop)]
struct ElementLayout<'b, B: Book> {
    book: &'b B,
    row: usize,
    element: usize,
    rule: ElementRule,
}

impl<'b, B: Book> Model for ElementLayout<'b, B> {
    ghost use Rattle.std.specs.Prelude.{◌≡◌, ◌+◌, ◌<◌, ◌≤◌, Some};
    ghost use Rattle.std.specs.Option.{option_map};
    ghost use Rattle.message.specs.Layouts.{element_head, element_at};
    ghost use Rattle.examiner.specs.Checking.{ElementAt, rules_at};

    ghost Value = { ElementAt };

    ghost view = { λ l. record { number = l.element + 1; element = record { status = l.rule.status; components = rules_at (B.Book.layouts l.book.now) l.row l.element } } };

    ghost invariant = { λ l. (Some l.rule ≡ option_map element_head (element_at (B.Book.layouts l.book.now) l.row l.element)) × (l.element < 40) × (l.rule.components ≤ 40) };
}

impl<'b, B: Book> ElementLayout<'b, B> {
    // Its component with that number, from 0.
    fn component(&self, number: usize) -> Option<ComponentLayout<'b, B>>
        ensures component { result ≡ option_map (component_of self.now.number (number + 1)) (slice_get self.now.element.components number) }
        ensures lawful { IfSome result (λ c. component_rule c.component ≡ true) }
    {
        let rule = self.book.component(self.row, self.element, number)?;
        Some(ComponentLayout {
            book: self.book,
            row: self.row,
            element: self.element,
            component: number,
            rule,
        })
    }

    // Passes over its components, absent ones too.
    fn pass_components(&self, parts: &mut Parts<'_>) -> Tally
        ensures { Passing self.now parts.old (length self.now.element.components) result parts.new }
    {
        let mut tally = Tally::at_start();
        for number in 0..self.rule.components {
            // a book tells each component that it counts
            if let Some(component) = self.component(number) {
                tally = tally.with(&component, &parts.measure());
            }
        }
        tally
    }

    // Of the element as a whole: required with nothing filled, or unused with something filled.
    fn whole_fault(&self, filled: Option<usize>) -> Option<SegmentFault>
        ensures { result ≡ whole_fault (status_of self.now.element.status) self.now.number filled }
    {
        let element = self.element + 1;
        match (status_of(self.rule.status)?, filled) {
            (Status::Required, None) => Some(SegmentFault::Missing(Spot {
                element,
                component: 1,
            })),
            (Status::Unused, Some(component)) => {
                Some(SegmentFault::Unused(Spot { element, component }))
            }
            _ => None,
        }
    }

    // The first fault of the element, which `parts` has entered.
    fn fault(&self, parts: &mut Parts<'_>) -> Option<SegmentFault>
        ensures fault { result ≡ element_fault self.now.element parts.old.decimal self.now.number parts.old.current }
        ensures passed { parts.new ≡ record parts.old { current = [] } }
    {
        let tally = self.pass_components(parts);
        let behind = Spot {
            element: self.element + 1,
            component: self.rule.components + 1,
        };
        let surplus = beyond_fault(parts.has_component(), behind);
        let rest = filled_ahead(parts, behind.component);
        let filled = tally.filled.or(rest);
        element_fault_of(self.whole_fault(filled), filled, tally.fault, surplus)
    }
}

// The layout of a row: contracts see its elements.
#[derive(Drop)]
struct RowLayout<'b, B: Book> {
    book: &'b B,
    row: usize,
}

impl<'b, B: Book> Model for RowLayout<'b, B> {
    ghost use Rattle.std.specs.List.{slice_get};
    ghost use Rattle.message.specs.Layouts.{Layout};
    ghost use Rattle.message.specs.Messages.{layout_of};

    ghost Value = { Layout };

    ghost view = { λ l. layout_of (slice_get (B.Book.layouts l.book.now) l.row) };
}

impl<'b, B: Book> RowLayout<'b, B> {
    // Its element with that number, from 0.
    fn element(&self, number: usize) -> Option<ElementLayout<'b, B>>
        ensures element { result ≡ option_map (element_of (number + 1)) (slice_get self.now number) }
        ensures few { length self.now ≤ 40 }
    {
        let rule = self.book.element(self.row, number)?;
        Some(ElementLayout {
            book: self.book,
            row: self.row,
            element: number,
            rule,
        })
    }

    // The first fault of the elements behind the one that `parts` has passed, which is the tag.
    fn elements_fault(&self, parts: Parts<'_>) -> Option<SegmentFault>
        requires { parts.current ≡ [] }
        ensures { result ≡ elements_fault parts.entry.decimal 1 self.now parts.entry.later }
    {
        let mut parts = parts;
        let mut number = 0;
        // no `for`: a book doesn't tell how many elements a row has, and the number is asked for behind the last one
        while let Some(element) = self.element(number) {
            parts.enter();
            if let Some(fault) = element.fault(&mut parts) {
                return Some(fault);
            }
            number += 1;
        }
        parts.enter();
        let behind = Spot {
            element: number + 1,
            component: 1,
        };
        beyond_fault(parts.has_component(), behind)
    }
}

// The first fault of a segment against the layout of a row, or none.
pub fn layout_fault<B: Book>(
    book: &B,
    row: usize,
    segment: &Segment<'_>,
    decimal: DecimalMark,
) -> Option<SegmentFault>
    ensures { result ≡ layout_fault (layout_of (slice_get (B.Book.layouts book.now) row)) decimal (segment_of (cut_of segment.now)).elements }
{
    let reading = Reading {
        marks: segment.marks(),
        decimal,
    };
    let mut parts = Parts::of(segment.bytes(), reading);
    parts.leave();
    RowLayout { book, row }.elements_fault(parts)
}
