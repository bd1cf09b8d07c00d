// A cursor over a segment's components, which goes over its bytes once.
use std::marker::Model;
use syntax::marks::{DecimalMark, Marks};

pub mod methods;

// How a segment's bytes are read: by the marks of its text, and with that decimal mark in its numbers.
#[derive(Clone, Copy, Drop)]
pub struct Reading {
    pub marks: Marks,
    pub decimal: DecimalMark,
}

// What is ahead of a cursor, with the bytes from there on.
#[derive(Clone, Copy, Drop)]
enum Ahead<'t> {
    // a further component of the same element
    Component(&'t [u8]),
    // a further element
    Element(&'t [u8]),
    Nothing,
}

// A cursor: contracts see the components of its element that are still to come, and the elements behind it.
#[derive(Drop)]
pub struct Parts<'t> {
    reading: Reading,
    ahead: Ahead<'t>,
}

impl<'t> Model for Parts<'t> {
    ghost use Rattle.examiner.specs.Texts.{Texts};

    ghost Value = { Texts };

    ghost use Rattle.std.specs.Prelude.{◌^◌, ◌<◌, length};
    ghost use Rattle.examiner.specs.Parts.{texts_ahead, bytes_ahead};

    ghost view = { λ p. texts_ahead p.reading p.ahead };

    // so that components can be counted
    ghost invariant = { λ p. length (bytes_ahead p.ahead) < 2 ^ 63 };
}
