//! What names give to inference: the groups of a module where no fault was found are as it asks.
#![tactic(auto)]

pub mod annotation_proper_laws;
pub mod infer_ready_laws;
pub mod laws;
pub mod module_ready_laws;
pub mod module_sound_laws;
pub mod simple_lets_laws;
