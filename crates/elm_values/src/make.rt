//! Trees from their parts. A list that comes in is held from its last item to its first.

#![tactic(auto)]

ghost use Rattle.std.specs.Prelude.{◌≡◌, List, IfOk, reverse};
ghost use Rattle.elm_lexer.specs.Tokens.{Token};
ghost use Rattle.elm_tree.specs.View.{definition_view, expr_view, pattern_view, patterns_view, place_view, token_view};
ghost use Rattle.elm_tree.specs.View.{type_view};
ghost use Rattle.elm_grammar.specs.Values.{bracket_pattern, bracket_type, bracketed, conses_of, defined, patterns_in};
ghost use Rattle.elm_grammar.specs.Values.{record_expr, with_name};
ghost use Rattle.elm_values.specs.Stack.{base_and_field, begun_view, fields_view, first, held, rest_view};

use crate::lists::{first, put, single, turned};
use crate::value::{Begun, Fields, Rest};
use elm_tree::tree::{Definition, Expr, Pattern, TypeTree, Word};
use std::alloc::{AllocError, Global};

// ---- types

/// The types in parentheses.
pub fn bracketed_type(types: Vec<TypeTree>) -> TypeTree
    ensures { (tokens : List Token) → type_view tokens result ≡ bracket_type (held (type_view tokens) types.items) }
{
    match single(types) {
        Ok(one) => one,
        Err(others) => TypeTree::Tuple(turned(others)),
    }
}

// ---- records

/// The base of a record, if it has one, and its first field: the first word is the base if a name follows it.
pub fn base_and_field(word: Word, name: Vec<Word>) -> (Option<Word>, Word)
    ensures { result ≡ base_and_field word (first (reverse name.items)) }
{
    match first(name) {
        None => (None, word),
        Some(field) => (Some(word), field),
    }
}

// ---- definitions

/// A definition with its name.
pub fn definition(name: Word, rest: Rest) -> Definition
    ensures { (tokens : List Token) →
        definition_view tokens result ≡ defined (token_view tokens name) (rest_view tokens rest) }
{
    match rest {
        Rest::Typed(written) => Definition::Annotate(name, written),
        Rest::Bodied(parameters, body) => Definition::Define(name, parameters, body),
    }
}

// ---- expressions

/// The value in a box.
fn boxed<T: Drop>(alloc: Global, value: T) -> Result<Box<T>, AllocError>
    ensures { IfOk result (λ made. made.value ≡ value) }
{
    Ok(Box::new(alloc, value)?)
}

/// The expressions in parentheses.
pub fn brackets(place: Word, exprs: Vec<Expr>) -> Expr
    ensures { (tokens : List Token) →
        expr_view tokens result ≡ bracketed (place_view tokens place) (held (expr_view tokens) exprs.items) }
{
    match single(exprs) {
        Ok(one) => one,
        Err(others) => Expr::Tuple(place, turned(others)),
    }
}

/// `{ x = a }`, or with a base.
pub fn record_expr(place: Word, fields: Fields) -> Expr
    ensures { (tokens : List Token) →
        expr_view tokens result ≡ record_expr (place_view tokens place) (fields_view tokens fields) }
{
    Expr::Record(place, fields.base, turned(fields.parts))
}

// ---- patterns

/// The patterns from the first on.
pub fn patterns(alloc: Global, list: Vec<Begun>) -> Result<Vec<Pattern>, AllocError>
    ensures { IfOk result (λ made. (tokens : List Token) →
        patterns_view tokens made.items ≡ patterns_in (held (begun_view tokens) list.items)) }
{
    list.into_iter()
        .rev()
        .map(|begun| begun.pattern)
        .collect(alloc)
}

/// The patterns in parentheses.
pub fn bracketed_pattern(
    alloc: Global,
    place: Word,
    list: Vec<Begun>,
) -> Result<Pattern, AllocError>
    ensures { IfOk result (λ made. (tokens : List Token) →
        pattern_view tokens made
        ≡ bracket_pattern (place_view tokens place) (held (begun_view tokens) list.items)) }
{
    match single(list) {
        Ok(one) => Ok(one.pattern),
        Err(others) => {
            let others = patterns(alloc, others)?;
            Ok(Pattern::Tuple(place, others))
        }
    }
}

/// `p :: q :: r`, or the pattern without others.
pub fn conses(alloc: Global, begun: Begun, mut others: Vec<Begun>) -> Result<Begun, AllocError>
    ensures { IfOk result (λ made. (tokens : List Token) →
        begun_view tokens made ≡ conses_of (begun_view tokens begun) (held (begun_view tokens) others.items)) }
{
    if others.is_empty() {
        return Ok(begun);
    }
    let place = begun.place;
    put(&mut others, begun)?;
    let others = patterns(alloc, others)?;
    let pattern = Pattern::Cons(place, others);
    Ok(Begun { place, pattern })
}

/// `p as x`, or the pattern without a name.
pub fn named(alloc: Global, begun: Begun, name: Vec<Word>) -> Result<Begun, AllocError>
    ensures { IfOk result (λ made. (tokens : List Token) →
        begun_view tokens made ≡ with_name (begun_view tokens begun) (held (token_view tokens) name.items)) }
{
    let place = begun.place;
    match first(name) {
        None => Ok(begun),
        Some(name) => {
            let inner = boxed(alloc, begun.pattern)?;
            let pattern = Pattern::As(place, inner, name);
            Ok(Begun { place, pattern })
        }
    }
}
