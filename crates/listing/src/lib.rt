// What the program is asked for, and what it prints of a text that is cut.
#![tactic(auto)]

pub mod command;
pub mod page;
pub mod person;
pub mod plain;
pub mod text;
