//! The module of a text.

ghost use Rattle.std.specs.Prelude.{◌≤◌, length, map, IfOk, IfErr};
ghost use Rattle.elm_lexer.specs.View.{token_view, IfFault};
ghost use Rattle.elm_tree.specs.View.{module_view};
ghost use Rattle.elm_parser.specs.Parsed.{IsText, HasTextFault};

use crate::parser::parse_module;
use elm_base::position::Pos;
use elm_lexer::error::TextError;
use elm_lexer::token::Token;
use elm_lexer::{place_after, tokens};
use elm_tree::tree::Module;
use std::alloc::Global;

/// A module and the tokens that its words name.
#[derive(Drop)]
pub struct Parsed<'a> {
    pub tokens: Vec<Token<'a>>,
    pub module: Module,
}

/// The tokens of a text, and the module that they spell. (Elm syntax reference.)
///
/// `text` is the bytes of a module's file, at most 4 MiB of them. The error is the one fault of the text, which then
/// spells no module, or out of memory.
pub fn parse_text<'a>(alloc: Global, text: &'a [u8]) -> Result<Parsed<'a>, TextError<'a>>
    requires { length text.now ≤ 4194304 }
    ensures read { IfOk result (λ p. IsText text.entry.now (map token_view p.tokens.items)
        (module_view (map token_view p.tokens.items) p.module)) }
    ensures fault { IfErr result (λ e. IfFault e (HasTextFault text.entry.now)) }
{
    let tokens = tokens(alloc, text)?;
    let end = place_after(Pos { row: 1, column: 1 }, text);
    match parse_module(alloc, &tokens, end) {
        Ok(module) => Ok(Parsed { tokens, module }),
        Err(error) => Err(error),
    }
}
