//! Type inference of expressions: what stands before, between and after their parts.
#![tactic(auto)]

pub mod parts;
pub mod reads;
