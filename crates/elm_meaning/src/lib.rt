//! The meaning of the source: what its expressions evaluate to, and what a program does under its host.
#![tactic(auto)]

pub mod laws;
