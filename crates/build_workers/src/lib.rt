//! The workers of a build. Today it has the gate alone that stands round each compile; the workers come with the board.
#![tactic(auto)]

mod gate;

pub use gate::{Gate, OpenGate};
