//! What names give where no fault was found in a module: its declarations are proper in order.
#![tactic(auto)]

pub mod canon_lets_laws;
pub mod canon_makers_laws;
pub mod laws;
pub mod port_proper_laws;
pub mod text_proper_laws;
