//! Definitions in the order in which their types are inferred.
#![tactic(auto)]

mod bound;
pub mod order;
mod owners;
mod uses;
