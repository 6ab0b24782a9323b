//! What the names of a module mean, by its imports and by its own declarations.
#![tactic(auto)]

pub mod env;
pub mod exposing;
pub mod filter;
pub mod finding;
pub mod found;
pub mod import;
pub mod laws;
mod listing;
pub mod long;
pub mod order;
pub mod repeats;
pub mod shown;
pub mod space;
pub mod uses;
