//! What a module offers to those that import it.
#![tactic(auto)]

mod digits;
mod error;
mod forms;
mod input;
mod offer;
mod offered;
mod opened;
mod rebuilding;
mod received;
mod shapes;
mod step;
pub mod value;
pub mod worked;

pub use offer::{same, to_text};
pub use offered::Interface;
pub use received::{from_text, one_text};
