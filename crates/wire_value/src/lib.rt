//! Wire values: what crosses between a program and its host.
#![tactic(auto)]

mod convert;
mod object;
mod parse;
mod print;
mod spelling;
mod task;
pub mod wire;

pub use convert::from_json;
pub use elm_base::quoted::write_text as put_text;
pub use parse::read;
pub use print::to_text;
pub use wire::{Member, Wire};
