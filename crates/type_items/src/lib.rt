//! What a module asks of the types of its parts, which types solve it, and what inference tells of it.
#![tactic(auto)]

pub mod laws;
pub mod more_known_laws;
pub mod principal_forms_laws;
pub mod principal_types_laws;
