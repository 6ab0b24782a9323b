//! Modules, compiled: their phases, one after another.
#![tactic(auto)]

pub mod compiling;
pub mod faults;
mod heading;
mod imports;
mod lacking;
pub mod laws;
pub mod made;
mod offered;
mod outcomes;
pub mod phases;
mod pushing;
mod seen;
mod setting;
mod told;
mod types;
mod typing;

pub use imports::Imports;
pub use offered::Offered;
