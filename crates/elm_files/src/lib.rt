//! What is outside of the compiler: files and sinks, in terms that contracts can use.
#![tactic(auto)]

mod host;
mod memory;
mod outside;

pub use host::{HostFiles, HostSink};
pub use memory::{MemFiles, MemSink};
pub use outside::{FileError, Files, Got, Sink};
