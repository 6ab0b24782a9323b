//! Typed programs: expressions are not stuck and keep their types.
#![tactic(auto)]

pub mod exhaustive_matches_laws;
pub mod laws;
pub mod pattern_safety_laws;
