// Branching diagrams and their messages: rows, segment groups, layouts, and the traits of whatever tells them.
#![tactic(auto)]

pub mod book;
pub mod layout;
pub mod open;
pub mod row;
mod search;
pub mod walk;
