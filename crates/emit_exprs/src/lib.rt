//! The JavaScript of expressions.
#![tactic(auto)]

pub mod branches;
pub mod emit_frames_loops;
pub mod emit_frames_turns;
pub mod exprs;
pub mod functions;
pub mod laws;
pub mod loops;
pub mod made;
pub mod turns;
