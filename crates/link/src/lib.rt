//! The link of modules: their fragments to an output.
#![tactic(auto)]

mod clashes;
pub mod fragment;
mod fragments_places;
pub mod laws;
mod linking;
pub mod making;
mod names;
mod outcomes;
mod output;
pub mod part;
mod pieces;
mod places;
mod reaching;
pub mod split;
mod table;

pub use linking::{LinkError, link};
