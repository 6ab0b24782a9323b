//! Types with others in the place of the parameters of an alias, and the forms of ports.
#![tactic(auto)]

pub mod aliases;
pub mod annotation;
pub mod constructors;
pub mod copying;
pub mod declaring;
pub mod expanding;
pub mod extending;
pub mod filling;
mod forming;
mod heights;
mod named;
mod outcomes;
pub mod parameters;
pub mod ports;
pub mod recursion;
mod sets;
mod shape;
pub mod unions;
pub mod uses;
mod variables;
