//! One run of an emitted JavaScript output, over files and a sink.
#![tactic(auto)]

mod course;
mod cuts;
pub mod given;
mod lines;
mod session;
pub mod told;

pub use course::{Ended, RunEnd, run};
