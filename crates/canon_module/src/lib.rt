//! What a module means, and all faults of its names.
#![tactic(auto)]

mod before;
mod exports;
pub mod faults;
pub mod groups;
pub mod item;
mod makers;
pub mod module;
mod names;
mod numbers;
mod outcomes;
pub mod port;
mod ports;
mod reaching;
mod shown;
pub mod uses;
mod values;
mod walk;
mod written;
