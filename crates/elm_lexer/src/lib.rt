//! Cuts the text of an Elm module into its tokens.
#![tactic(auto)]

pub mod characters;
pub mod error;
pub mod first;
pub mod firsts;
pub mod gap;
pub mod kind;
pub mod laws;
pub mod lexer;
pub mod literal;
pub mod number;
pub mod part;
pub mod piece;
pub mod place;
pub mod reading;
pub mod token;
pub mod units;

pub use error::{TextError, TextFault};
pub use lexer::tokens;
pub use place::place_after;
pub use token::{Kind, Token};
pub use units::literal_units;
