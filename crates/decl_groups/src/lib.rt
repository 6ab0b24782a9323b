//! The order of definitions that use each other.
#![tactic(auto)]

pub mod binding_groups_laws;
mod components;
pub mod group_order_laws;
mod grouping;
pub mod laws;
mod lists;
mod order;
mod ready;
mod walk;

pub use grouping::{Group, ordered_groups};
pub use order::groups;
pub use walk::reachable;
