//! Modules, heads of modules, types, patterns and expressions from their tokens: the one tree that the tokens spell, or
//! the first fault.
#![tactic(auto)]

mod chain;
pub mod elm_faults_laws;
mod fault;
pub mod faults;
pub mod finding;
pub mod laws;
pub mod level;
mod parser;
mod production;
mod reading;
pub mod scan;
mod text;

pub use chain::regroup;
pub use parser::{head, parse_expr, parse_module, parse_pattern, parse_type};
pub use text::{Parsed, parse_text};
