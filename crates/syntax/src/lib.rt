// The syntax of EDIFACT text below its segments: bytes, marks, the header, pieces between marks, and characters.
#![tactic(auto)]

pub mod bytes;
pub mod characters;
pub mod fault;
pub mod header;
pub mod marks;
pub mod pieces;
