//! Values and their types: which values have a type, what patterns find of them, and what single steps keep.
#![tactic(auto)]

pub mod laws;
