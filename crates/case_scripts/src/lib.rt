//! Scripts of commands: files in memory, the commands over them, and what these print and leave. Tests of the whole
//! compiler are programs that run scripts, whose lines `program` describes.
#![tactic(auto)]

mod case;
mod line;
mod page;
mod program;

pub use program::run_all;
