//! The surface tree of a module: what is written, and where.
#![tactic(auto)]

pub mod laws;
pub mod operator;
pub mod tree;
pub mod turns;
