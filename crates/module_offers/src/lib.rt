//! What a module offers to those that import it.
#![tactic(auto)]

mod functions;
pub mod interfaces;
mod listing;
mod naming;
mod operator_faults_functions;
pub mod operators;
pub mod showing;
pub mod told;
mod truths;
