//! The walk of each pattern and expression, from the walks of its parts.
#![tactic(auto)]

pub mod laws;
pub mod told_reading_laws;
pub mod type_annotations_laws;
pub mod type_answers_laws;
pub mod type_definitions_laws;
pub mod type_escapes_laws;
pub mod type_modules_laws;
pub mod type_refusals_laws;
pub mod type_stops_laws;
