//! Type inference of patterns.
#![tactic(auto)]

pub mod bound;
pub mod laws;
mod parts;
pub mod pattern;
pub mod shape;
