//! The names that the definitions of a block bind.

ghost use Rattle.std.specs.Prelude.{◌≡◌, ◌++◌, List, map, OnOk, IfOk};
ghost use Rattle.elm_lexer.specs.Tokens as lexed;
ghost use Rattle.elm_tree.specs.Tree as tree;
ghost use Rattle.elm_tree.specs.View.{words_view, definition_view, expr_view, pattern_view, patterns_view, place_view};
ghost use Rattle.elm_tree.specs.Turns.{tokens_view};
ghost use Rattle.canon_expr.specs.Binding as spec;

use crate::items::one_item;
use crate::words::words_of;
use elm_lexer::token::Token;
use elm_tree::tree::{Definition, Expr, Pattern, Word};
use std::alloc::{AllocError, Global};

/// The names that the definition `definition` binds in its block, from left to right. It is of the text of the tokens
/// `tokens`. The error means that memory ran out.
pub fn bound_by(
    alloc: Global,
    tokens: &[Token<'_>],
    definition: &Definition,
) -> Result<Vec<Word>, AllocError>
    ensures { IfOk result (λ v. words_view (tokens_view tokens.now) v.items
        ≡ spec.bound_by (definition_view (tokens_view tokens.now) definition.now)) }
{
    match definition {
        Definition::Annotate(_, _) => Ok(Vec::new(alloc)),
        Definition::Define(name, _, _) => one_item(alloc, *name),
        Definition::Destructure(pattern, _) => words_of(alloc, tokens, pattern),
    }
}

/// The names that the definitions `definitions` bind, in turn. They are of the text of the tokens `tokens`. The error
/// means that memory ran out.
pub fn bound_in(
    alloc: Global,
    tokens: &[Token<'_>],
    definitions: &[Definition],
) -> Result<Vec<Word>, AllocError>
    ensures { IfOk result (λ v. words_view (tokens_view tokens.now) v.items
        ≡ spec.bound_in (tree.definitions_of (map (definition_view (tokens_view tokens.now)) definitions.now))) }
{
    let mut words = Vec::new(alloc);
    for definition in definitions {
        let bound = bound_by(alloc, tokens, definition)?;
        words.extend_from_slice(&bound)?;
    }
    Ok(words)
}

/// Whether the expression is a lambda.
fn is_lambda(body: &Expr) -> bool
    ensures { (tokens : List lexed.Token) → result ≡ spec.is_lambda (expr_view tokens body.now) }
{
    match body {
        Expr::Lambda(_, _, _) => true,
        Expr::OneWord(_) => false,
        Expr::Negative(_, _) => false,
        Expr::Apply(_, _) => false,
        Expr::Chain(_, _) => false,
        Expr::List(_, _) => false,
        Expr::Tuple(_, _) => false,
        Expr::Record(_, _, _) => false,
        Expr::Access(_, _, _) => false,
        Expr::If(_, _, _) => false,
        Expr::Case(_, _, _) => false,
        Expr::Let(_, _) => false,
    }
}

/// Whether a definition with the parameters `parameters` and the body `body` is a function: it has parameters, or its
/// body is a lambda.
pub fn is_function(parameters: &[Pattern], body: &Expr) -> bool
    ensures { (tokens : List lexed.Token)
        → result ≡ spec.is_function (patterns_view tokens parameters.now) (expr_view tokens body.now) }
{
    if parameters.is_empty() {
        is_lambda(body)
    } else {
        true
    }
}

/// The word with which a pattern begins.
pub(crate) fn first_word(pattern: &Pattern) -> Word
    ensures { (tokens : List lexed.Token)
        → place_view tokens result ≡ spec.pattern_place (pattern_view tokens pattern.now) }
{
    match pattern {
        Pattern::OneWord(word) => *word,
        Pattern::Negative(sign, _) => *sign,
        Pattern::Construct(name, _) => *name,
        Pattern::Cons(first, _) => *first,
        Pattern::List(first, _) => *first,
        Pattern::Tuple(first, _) => *first,
        Pattern::Fields(first, _) => *first,
        Pattern::As(first, _, _) => *first,
    }
}
