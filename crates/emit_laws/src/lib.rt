//! What holds of what is emitted.
#![tactic(auto)]

pub mod emit_choice_laws;
pub mod laws;
pub mod meaning_laws;
