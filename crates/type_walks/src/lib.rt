//! Walks over items: a store of type variables stands for the items that were walked.
#![tactic(auto)]

pub mod laws;
pub mod told_types_laws;
pub mod type_copies_laws;
pub mod type_steps_laws;
