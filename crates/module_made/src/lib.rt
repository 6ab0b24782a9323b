//! What a module compiles to: what it offers and its fragment, or the faults of the first of its phases that has any.
#![tactic(auto)]

pub mod laws;
