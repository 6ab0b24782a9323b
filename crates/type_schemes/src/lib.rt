//! The types of a store's variables as values: what is read off the graph of a store, written out.
#![tactic(auto)]

mod annotation_schemes_order;
mod beside;
mod classes;
pub mod constants;
pub mod copying;
mod fields;
pub mod freezing;
pub mod frozen;
mod kinds;
pub mod laws;
mod names;
mod nodes;
pub mod order;
mod rows;
pub mod schemes;
pub mod sizes;
pub mod type_freezing_laws;
mod writing;
pub mod written;
