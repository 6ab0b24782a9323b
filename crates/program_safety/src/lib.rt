//! Typed programs under their host: no run is stuck.
#![tactic(auto)]

pub mod kept_ports_laws;
pub mod kept_signs_laws;
pub mod laws;
