//! The build: from the files of a project to the JavaScript text of its program.
#![tactic(auto)]

mod compiler;
mod compiling;
mod desk;
mod entry;
mod faults;
mod finishing;
pub mod laws;
mod lines;
mod linking;
mod project;
mod values;

pub use compiling::compile;
pub use finishing::Finished;
pub use project::{BuildEnd, Built, Outcome, build};
