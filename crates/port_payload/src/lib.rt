//! Which types cross a port.
#![tactic(auto)]

pub mod entry;
mod fields;
pub mod laws;
mod node_payload;
mod part;
pub mod payload;
mod words;
