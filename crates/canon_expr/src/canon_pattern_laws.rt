//! What holds of the tokens of each text.

ghost use Rattle.std.specs.Prelude.{ℕ, List};
ghost use Rattle.elm_lexer.specs.Tokens.{Token, Tokens};
ghost use Rattle.canon_expr.specs.Literals.{AreLiterals};

/// The tokens of a text are such as patterns are read from: each text and character has a value, and each number is at
/// most 2 ^ 53 - 1.
pub fn literals_law()
    ensures { (text : List ℕ) (ts : List Token) → Tokens text ts → AreLiterals ts }
{}
