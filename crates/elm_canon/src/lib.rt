//! The canonical tree of a module: each name is a local one or one of a module, and each constructor has its union.
#![tactic(auto)]

pub mod elm_proper_laws;
pub mod laws;
pub mod reference;
pub mod tree;
pub mod unions;
