//! The tree that a derivation stands for, from the steps of the derivation.
#![tactic(auto)]

mod act;
pub mod build;
mod definitions;
mod exprs;
mod items;
mod lists;
mod make;
mod modules;
mod nothing;
mod patterns;
mod stack;
mod store;
mod types;
pub mod value;
