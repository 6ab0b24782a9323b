//! The JavaScript of an output: its tree, its text, its conditions, and where bytes stop to be such a text.
#![tactic(auto)]

pub mod laws;
pub mod runtime;
pub mod tree;
pub mod trees;
