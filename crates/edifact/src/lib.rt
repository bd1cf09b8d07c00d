// The cutting of EDIFACT text into segments, elements and components.
#![tactic(auto)]

pub mod component;
pub mod cutter;
pub mod element;
pub mod part;
mod scan;
pub mod segment;
