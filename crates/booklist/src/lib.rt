// What the program prints of a book.
#![tactic(auto)]

pub mod form;
mod person;
mod plain;
