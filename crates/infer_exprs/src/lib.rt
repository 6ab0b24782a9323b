//! Type inference of expressions.
#![tactic(auto)]

pub mod build;
pub mod declare;
pub mod entering;
pub mod exprs;
pub mod finishing;
pub mod first;
pub mod infer_lets_laws;
pub mod laws;
pub mod members;
pub mod operations;
pub mod patterns;
pub mod refs;
