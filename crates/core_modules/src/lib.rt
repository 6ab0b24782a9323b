//! The core library: the modules that each project has, as texts, and the types that they have without a text.
//!
//! They are those of elm/core 1.0.5, as far as `elmc` has them.
#![tactic(auto)]

mod basics_text;
mod bitwise_text;
mod char_text;
mod debug_text;
mod dict_text;
pub mod facts;
pub mod faults;
mod functions;
pub mod given;
pub mod library;
mod list_text;
mod makers;
mod maybe_text;
mod outcomes;
mod patterns;
mod platform_cmd_text;
mod platform_sub_text;
mod platform_text;
pub mod port_faults_sign;
mod result_text;
mod rows;
mod same;
mod set_text;
mod sign;
mod spelling;
mod string_text;
mod tuple_text;
mod unions;
mod walk;
