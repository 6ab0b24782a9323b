//! The grammar of Elm 0.19.1: a table of productions, and which tokens spell which tree.
#![tactic(auto)]

pub mod action;
pub mod classes;
pub mod laws;
pub mod parsed_types_laws;
pub mod table;
