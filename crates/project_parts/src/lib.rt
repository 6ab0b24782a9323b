//! The modules of a build: those of the core library and those of the project, in order, and which of them each
//! imports.
#![tactic(auto)]

mod graph;
pub mod laws;
mod loading;
mod parts;
pub mod project_build_laws;

pub use graph::graph_of;
pub use loading::{Library, core_library};
pub use parts::{Part, parts_of};
