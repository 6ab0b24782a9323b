//! The readers of modules, heads, types, patterns and expressions.

ghost use Rattle.std.specs.Prelude.{◌≡◌, ◌↔◌, ◌^◌, ◌<◌, length, map, IfOk, IfErr, IsTrue};
ghost use Rattle.elm_lexer.specs.View.{token_view, place_view, IfFault};
ghost use Rattle.elm_tree.specs.View.{expr_view, head_view, module_view, type_view};
ghost use Rattle.elm_values.specs.Stack.{begun_view};
ghost use Rattle.elm_parser.specs.Reading.{BeginsPort, ReadsModule, ReadsHead, ReadsType, ReadsPattern, ReadsExpr};
ghost use Rattle.elm_parser.specs.Parsed.{ModuleFault, HeadFault, TypeFault, PatternFault, ExprFault, LeavesRest};

use crate::reading::{front, whole};
use elm_base::position::Pos;
use elm_grammar::table::actions;
use elm_lexer::error::TextError;
use elm_lexer::token::{Kind, Token};
use elm_tree::tree::{Expr, Head, Module, TypeTree};
use elm_values::build::{expr_of, module_of, pattern_of, type_of};
use elm_values::value::Begun;
use std::alloc::Global;

/// The nonterminals of the readers.
const MODULE: u8 = 0;

const HEAD: u8 = 7;

const TYPING: u8 = 27;

const EXPRESSION: u8 = 38;

const PATTERN: u8 = 62;

/// The module that all of the tokens spell. (Elm syntax reference.)
///
/// `tokens` are those of the module's text, fewer than 2^32, and `end` is the place where the text ends, at which a
/// fault stands that no token has. The error is the fault that is reported: the first one by its place, then by its
/// code. It is E03 where the tokens spell no module, and E08, E35, E36 or E37 where tokens up to some place decide it.
pub fn parse_module<'a>(
    alloc: Global,
    tokens: &[Token<'a>],
    end: Pos,
) -> Result<Module, TextError<'a>>
    requires few { length tokens.now < 2 ^ 32 }
    ensures read { IfOk result (λ m.
        ReadsModule (map token_view tokens.now) (module_view (map token_view tokens.now) m)) }
    ensures fault { IfErr result (λ e. IfFault e (ModuleFault (map token_view tokens.now) (place_view end))) }
{
    let steps = whole(alloc, tokens, MODULE, 1, end)?;
    Ok(module_of(alloc, actions(), &steps)?)
}

/// Whether the tokens begin with `port` without `module` after it.
fn begins_port(tokens: &[Token<'_>]) -> bool
    ensures { IsTrue result ↔ BeginsPort (map token_view tokens.now) }
{
    match tokens {
        [first, second, ..] => first.kind == Kind::Port && second.kind != Kind::Module,
        [first] => first.kind == Kind::Port,
        [] => false,
    }
}

/// The head of a module, which is its header and its imports, and the tokens after it. (Elm guide: modules.)
///
/// It is the longest front of the tokens that begins a head. Tokens that begin with the declaration of a port have an
/// empty head. `tokens` and `end` are as for `parse_module`, and so is the error.
pub fn head<'t, 'a>(
    alloc: Global,
    tokens: &'t [Token<'a>],
    end: Pos,
) -> Result<(Head, &'t [Token<'a>]), TextError<'a>>
    requires few { length tokens.now < 2 ^ 32 }
    ensures read { IfOk result (λ v. LeavesRest tokens.entry.now v.1.now
        (ReadsHead (map token_view tokens.entry.now) (head_view (map token_view tokens.entry.now) v.0))) }
    ensures fault { IfErr result (λ e. IfFault e (HeadFault (map token_view tokens.entry.now) (place_view end))) }
{
    if begins_port(tokens) {
        let none = Head {
            header: None,
            imports: Vec::new(alloc),
        };
        return Ok((none, tokens));
    }
    let (steps, rest) = front(alloc, tokens, HEAD, 1, end)?;
    let built = module_of(alloc, actions(), &steps)?;
    Ok((built.head, &tokens[tokens.len() - rest..]))
}

/// The type that the longest front of the tokens that begins one spells, and the tokens after it. (Elm guide: types.)
///
/// Each of its tokens stands right of `column`. `tokens` and `end` are as for `parse_module`, and so is the error.
pub fn parse_type<'t, 'a>(
    alloc: Global,
    tokens: &'t [Token<'a>],
    column: u32,
    end: Pos,
) -> Result<(TypeTree, &'t [Token<'a>]), TextError<'a>>
    requires few { length tokens.now < 2 ^ 32 }
    ensures read { IfOk result (λ v. LeavesRest tokens.entry.now v.1.now
        (ReadsType (map token_view tokens.entry.now) column (type_view (map token_view tokens.entry.now) v.0))) }
    ensures fault { IfErr result (λ e.
        IfFault e (TypeFault (map token_view tokens.entry.now) column (place_view end))) }
{
    let (steps, rest) = front(alloc, tokens, TYPING, column, end)?;
    let built = type_of(alloc, actions(), &steps)?;
    Ok((built, &tokens[tokens.len() - rest..]))
}

/// The pattern that the longest front of the tokens that begins one spells, and the tokens after it. (Elm guide:
/// pattern matching.)
///
/// Each of its tokens stands right of `column`. `tokens` and `end` are as for `parse_module`, and so is the error.
pub fn parse_pattern<'t, 'a>(
    alloc: Global,
    tokens: &'t [Token<'a>],
    column: u32,
    end: Pos,
) -> Result<(Begun, &'t [Token<'a>]), TextError<'a>>
    requires few { length tokens.now < 2 ^ 32 }
    ensures read { IfOk result (λ v. LeavesRest tokens.entry.now v.1.now
        (ReadsPattern (map token_view tokens.entry.now) column (begun_view (map token_view tokens.entry.now) v.0))) }
    ensures fault { IfErr result (λ e.
        IfFault e (PatternFault (map token_view tokens.entry.now) column (place_view end))) }
{
    let (steps, rest) = front(alloc, tokens, PATTERN, column, end)?;
    let built = pattern_of(alloc, actions(), &steps)?;
    Ok((built, &tokens[tokens.len() - rest..]))
}

/// The expression that the longest front of the tokens that begins one spells, and the tokens after it. (Elm guide:
/// core language.)
///
/// Each of its tokens stands right of `column`. `tokens` and `end` are as for `parse_module`, and so is the error.
pub fn parse_expr<'t, 'a>(
    alloc: Global,
    tokens: &'t [Token<'a>],
    column: u32,
    end: Pos,
) -> Result<(Expr, &'t [Token<'a>]), TextError<'a>>
    requires few { length tokens.now < 2 ^ 32 }
    ensures read { IfOk result (λ v. LeavesRest tokens.entry.now v.1.now
        (ReadsExpr (map token_view tokens.entry.now) column (expr_view (map token_view tokens.entry.now) v.0))) }
    ensures fault { IfErr result (λ e.
        IfFault e (ExprFault (map token_view tokens.entry.now) column (place_view end))) }
{
    let (steps, rest) = front(alloc, tokens, EXPRESSION, column, end)?;
    let built = expr_of(alloc, actions(), &steps)?;
    Ok((built, &tokens[tokens.len() - rest..]))
}
