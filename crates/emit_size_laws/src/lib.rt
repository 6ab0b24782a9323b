//! What the length of an output says of its program.
#![tactic(auto)]

pub mod emit_subset_laws;
pub mod laws;
