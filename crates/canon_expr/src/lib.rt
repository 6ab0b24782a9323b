//! What expressions mean, and what is wrong in them, in one walk.
#![tactic(auto)]

pub mod binders;
mod binding;
pub mod bindings;
pub mod bound_words;
mod boxes;
pub mod callee;
pub mod canon_pattern_laws;
pub mod chain;
pub mod fields;
pub mod forms;
mod gathering;
pub mod groups;
mod items;
pub mod laws;
pub mod leaves;
mod links;
pub mod literal;
pub mod log;
pub mod long;
pub mod made;
pub mod operators;
pub mod order;
mod parts;
pub mod pattern;
pub mod reaching;
mod records;
pub mod scope;
pub mod titles;
pub mod uses;
pub mod values;
pub mod walk;
pub mod words;
