//! The JavaScript of a program, as a tree: a line for each name, and the line of `_main`.
#![tactic(auto)]

pub mod declarations;
pub mod emit_text_ports;
pub mod lines;
pub mod main_line;
pub mod output;
mod ports;
pub mod program;
