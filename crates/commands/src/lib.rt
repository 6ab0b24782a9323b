//! The commands of the compiler: what they print, and with which status they end.
#![tactic(auto)]

mod make;
mod program;
mod report;
mod run;

pub use program::top;
