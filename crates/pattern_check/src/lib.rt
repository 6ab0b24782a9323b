//! Which values patterns leave out, and which patterns are redundant.
#![tactic(auto)]

pub mod build;
pub mod check;
pub mod column;
pub mod laws;
pub mod listed;
pub mod pattern_faults_laws;
pub mod row;
pub mod search;
pub mod sites;
pub mod start;
pub mod text;
pub mod walk;
