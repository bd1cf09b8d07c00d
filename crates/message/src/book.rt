// What tells a branching diagram, and what also tells the layouts of its rows.
ghost use Rattle.std.specs.Prelude.{◌≡◌, ℕ, ◌-◌, true, List, [], length, Some};
ghost use Rattle.std.specs.List.{slice_get};
ghost use Rattle.std.specs.Option.{option_map};
ghost use Rattle.message.specs.declared.row.Row.{Row};
ghost use Rattle.message.specs.Rows.{RowRules};
ghost use Rattle.message.specs.Layouts.{Layout, all, layout_rule, identifier_rule, element_head, component_head, element_at, component_at, code_at};

use crate::layout::{ComponentRule, ElementRule};
use crate::row::Row;

// A branching diagram: it tells how many rows it has, and each by its number or that there is none.
pub trait Diagram {
    ghost rows: { Self → List Row };

    fn row_count(&self) -> usize
        ensures { result ≡ length (rows self.now) };

    fn row(&self, number: usize) -> Option<Row>
        ensures { result ≡ slice_get (rows self.now) number };

    ghost lawful: { (s : Self) → RowRules (rows s) };
}

// A book: a diagram that also tells each row's layout, the codes in it, and the five parts of the message's identifier.
// Everything counts from 0 here, and is told by its number: a rule of the project.
pub trait Book: Diagram {
    ghost layouts: { Self → List Layout };

    ghost identifier: { Self → List (List ℕ) };

    fn element(&self, row: usize, element: usize) -> Option<ElementRule>
        ensures { result ≡ option_map element_head (element_at (layouts self.now) row element) };

    fn component(&self, row: usize, element: usize, component: usize) -> Option<ComponentRule>
        ensures { result ≡ option_map component_head (component_at (layouts self.now) row element component) };

    fn code(&self, row: usize, element: usize, component: usize, code: usize) -> Option<&[u8]>
        ensures { option_map (λ x. x.now) result ≡ code_at (layouts self.now) row element component code };

    fn identifier_part(&self, number: usize) -> Option<&[u8]>
        ensures { option_map (λ x. x.now) result ≡ slice_get (identifier self.now) number };

    ghost regular: { (s : Self) → all layout_rule (layouts s) ≡ true };

    ghost paired: { (s : Self) → length (layouts s) ≡ length (Self.Diagram.rows s) };

    ghost bare: { (s : Self) → (slice_get (layouts s) 0 ≡ Some []) × (slice_get (layouts s) (length (layouts s) - 1) ≡ Some []) };

    ghost identified: { (s : Self) → identifier_rule (identifier s) ≡ true };
}
