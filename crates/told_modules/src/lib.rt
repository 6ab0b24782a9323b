//! What names and inference give the law of typed programs.
#![tactic(auto)]

pub mod canon_fields_laws;
pub mod closed_fields_laws;
pub mod core_laws;
pub mod declared_once_laws;
pub mod declared_schemes_laws;
pub mod laws;
pub mod told_offers_laws;
