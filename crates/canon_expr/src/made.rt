//! Definitions, as they go into groups.

use elm_canon::tree::{Expr, Pattern, Title};

/// What a definition means.
#[derive(Drop)]
pub enum Made {
    /// An annotation, which the definition after it keeps.
    Nothing,
    /// A function, with its parameters as they are written. If there are none, the body is a lambda.
    Function(Title, Vec<Pattern>, Box<Expr>),
    Constant(Title, Box<Expr>),
    /// A pattern, and what it takes apart.
    Parts(Pattern, Box<Expr>),
}
