//! Small programs: what they ask of types, and what inference tells of them.
#![tactic(auto)]

pub mod laws;
