// The layout check of segments: the first fault of a segment against the layout of a row.
#![tactic(auto)]

mod component_check;
mod layout_check;
pub mod measure;
pub mod parts;
