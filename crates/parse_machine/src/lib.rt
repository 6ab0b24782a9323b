//! One parser for every grammar with layout in which one token decides.
#![tactic(auto)]

mod choice;
pub mod fault;
mod machine;
pub mod reader;
pub mod table;
