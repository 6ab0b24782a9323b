//! What the file `elm.json` says, and the paths of a project.
#![tactic(auto)]

pub mod laws;
pub mod paths;
pub mod project;
