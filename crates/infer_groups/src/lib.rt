//! Definitions: what is done before and after the walks of their members, in type groups.
#![tactic(auto)]

pub mod annotated;
pub mod groups;
pub mod infer_annotated_laws;
mod infer_annotated_states;
pub mod laws;
mod making;
pub mod names;
pub mod sizes;
mod states;
