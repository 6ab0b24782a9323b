//! The single steps of inference: variables that are made, and what is asked of them.
#![tactic(auto)]

pub mod accessor;
pub mod ask;
pub mod bad;
pub mod calls;
pub mod fields;
pub mod known;
pub mod laws;
pub mod literal;
pub mod make;
pub mod operator;
pub mod parts;
pub mod record;
pub mod scope;
pub mod state;
