//! From the canonical tree to JavaScript: what is emitted for a program.
#![tactic(auto)]

pub mod arrows;
pub mod bodiless;
pub mod codecs;
pub mod laws;
pub mod names;
pub mod objects;
pub mod parts;
pub mod push;
pub mod shape;
