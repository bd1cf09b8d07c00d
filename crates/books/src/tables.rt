// A book as a table of its rows and layouts.
ghost use Rattle.std.specs.Prelude.{◌≡◌, ℕ, List, true, [], length, Some, ◌-◌};
ghost use Rattle.std.specs.List.{slice_get};
ghost use Rattle.std.specs.Option.{option_map, option_copied};
ghost use Rattle.message.specs.declared.row.Row.{Row};
ghost use Rattle.message.specs.Layouts.{Layout, all, layout_rule, identifier_rule, element_at, component_at};
ghost use Rattle.message.specs.RowTests.{rows_test};
ghost use Rattle.message.proofs.RowTests.{rows_keep_rules};
ghost use Rattle.books.specs.Tables.{lines_of, rows_of, element_of, component_of, layouts_of, identifier_of};

use message::book::{Book, Diagram};
use message::layout::{Class, ComponentRule, ElementRule, Extent};
use message::row::Row;
use std::marker::PhantomData;

// A row with its layout.
#[derive(Clone, Copy, Drop)]
pub struct RowLine {
    pub row: Row,
    pub layout: &'static [ElementLine],
}

// An element of a row, with its components; its status letter is told as a letter: a rule of the project.
#[derive(Clone, Copy, Drop)]
pub struct ElementLine {
    pub status: char,
    pub components: &'static [ComponentLine],
}

// A component of an element, with the codes that bind; its status letter is told as a letter: a rule of the project.
#[derive(Clone, Copy, Drop)]
pub struct ComponentLine {
    pub class: Class,
    pub extent: Extent,
    pub status: char,
    pub codes: &'static [&'static str],
}

// The lines of a message's rows, and the parts of its identifier.
#[derive(Clone, Copy, Drop)]
pub struct Table {
    // the header section, then the detail and the summary section: one static of all rows of RECADV is more than the check takes
    pub header: &'static [RowLine],
    pub detail: &'static [RowLine],
    pub identifier: &'static [&'static str],
}

impl Table {
    // The line of a row.
    fn row(&self, row: usize) -> Option<&'static RowLine>
        ensures { option_copied result ≡ slice_get (lines_of self.now) row }
    {
        match row.checked_sub(self.header.len()) {
            Some(behind) => self.detail.get(behind),
            None => self.header.get(row),
        }
    }

    // The line of an element.
    fn element(&self, row: usize, element: usize) -> Option<&'static ElementLine>
        ensures { option_map (λ x. element_of x.now) result ≡ element_at (layouts_of self.now) row element }
    {
        self.row(row)?.layout.get(element)
    }

    // The line of a component.
    fn component(
        &self,
        row: usize,
        element: usize,
        component: usize,
    ) -> Option<&'static ComponentLine>
        ensures { option_map (λ x. component_of x.now) result ≡ component_at (layouts_of self.now) row element component }
    {
        self.element(row, element)?.components.get(component)
    }
}

// What a built-in book stands on: a table, what it means, and that this keeps the laws of a book. The type says which.
pub trait BuiltIn {
    ghost rows: { List Row };

    ghost layouts: { List Layout };

    ghost identifier: { List (List ℕ) };

    fn table() -> Table
        ensures rows { rows_of result ≡ rows }
        ensures layouts { layouts_of result ≡ layouts }
        ensures identifier { identifier_of result ≡ identifier };

    ghost lawful: { rows_test rows ≡ true };

    ghost regular: { all layout_rule layouts ≡ true };

    ghost paired: { length layouts ≡ length rows };

    ghost bare: { (slice_get layouts 0 ≡ Some []) × (slice_get layouts (length layouts - 1) ≡ Some []) };

    ghost identified: { identifier_rule identifier ≡ true };
}

// A built-in book. It holds nothing: its type says which table it tells.
#[derive(Clone, Copy, Drop)]
pub struct TableBook<T> {
    pub(crate) of: PhantomData<T>,
}

impl<T: BuiltIn> Diagram for TableBook<T> {
    ghost rows = { λ _. T.rows };

    ghost lawful = { λ _. rows_keep_rules T.rows T.lawful };

    fn row_count(&self) -> usize {
        let table = T::table();
        table.header.len() + table.detail.len()
    }

    fn row(&self, number: usize) -> Option<Row> {
        Some(T::table().row(number)?.row)
    }
}

impl<T: BuiltIn> Book for TableBook<T> {
    ghost layouts = { λ _. T.layouts };

    ghost identifier = { λ _. T.identifier };

    ghost regular = { λ _. T.regular };

    ghost paired = { λ _. T.paired };

    ghost bare = { λ _. T.bare };

    ghost identified = { λ _. T.identified };

    fn element(&self, row: usize, element: usize) -> Option<ElementRule> {
        let found = T::table().element(row, element)?;
        Some(ElementRule {
            status: found.status,
            components: found.components.len(),
        })
    }

    fn component(&self, row: usize, element: usize, component: usize) -> Option<ComponentRule> {
        let found = T::table().component(row, element, component)?;
        Some(ComponentRule {
            class: found.class,
            extent: found.extent,
            status: found.status,
            codes: found.codes.len(),
        })
    }

    fn code(&self, row: usize, element: usize, component: usize, code: usize) -> Option<&[u8]> {
        let codes = T::table().component(row, element, component)?.codes;
        Some(codes.get(code)?.as_bytes())
    }

    fn identifier_part(&self, number: usize) -> Option<&[u8]> {
        Some(T::table().identifier.get(number)?.as_bytes())
    }
}

// The macros write a table's lines as a guideline prints them.

// A row by its tag, level, kind, need and limit.
macro_rules! row {
    ($tag:literal, $level:literal, $kind:ident, $need:ident, $limit:literal) => {
        message::row::Row {
            tag: *$tag,
            level: $level,
            kind: message::row::Kind::$kind,
            need: message::row::Need::$need,
            limit: $limit,
        }
    };
}

// An element by its status letter and its components.
macro_rules! element {
    ($status:literal: $($component:expr),*) => {
        $crate::tables::ElementLine {
            status: $status,
            components: &[$($component),*],
        }
    };
}

// A component an..length by its status letter, with its codes where a list binds.
macro_rules! an {
    ($length:literal, $status:literal) => {
        $crate::tables::an!($length, $status, [])
    };
    ($length:literal, $status:literal, [$($code:literal),*]) => {
        $crate::tables::ComponentLine {
            class: message::layout::Class::Alphanumeric,
            extent: message::layout::Extent::AtMost($length),
            status: $status,
            codes: &[$($code),*],
        }
    };
}

// A component n..length by its status letter.
macro_rules! num {
    ($length:literal, $status:literal) => {
        $crate::tables::ComponentLine {
            class: message::layout::Class::Numeric,
            extent: message::layout::Extent::AtMost($length),
            status: $status,
            codes: &[],
        }
    };
}

pub(crate) use an;
pub(crate) use element;
pub(crate) use num;
pub(crate) use row;
