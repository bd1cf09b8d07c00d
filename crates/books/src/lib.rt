// Books: the built-in ones.
#![tactic(auto)]

pub mod recadv;
mod tables;
pub mod trial;

pub use tables::TableBook;
