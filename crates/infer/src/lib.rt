//! Inference of the types of a module.
#![tactic(auto)]

mod declared;
pub mod explain;
mod groups;
pub mod infer;
pub mod infer_known_laws;
pub mod infer_known_types;
pub mod laws;
mod makers;
mod named;
mod texts;
mod told;
pub mod types;
