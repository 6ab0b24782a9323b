//! Runs of a program under its host, and when two of them are the same.
#![tactic(auto)]

pub mod laws;
pub mod meaning_base_laws;
