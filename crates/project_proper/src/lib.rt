//! What the resolution of a project's modules says of the programs that are linked of them.
#![tactic(auto)]

pub mod build_laws;
pub mod build_once_laws;
pub mod laws;
pub mod link_proper_laws;
pub mod made_once_laws;
pub mod operator_laws;
