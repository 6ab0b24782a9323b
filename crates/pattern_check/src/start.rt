//! What shapes begin with, as it stands in patterns.

ghost use Rattle.std.specs.Prelude.{◌≡◌};
ghost use Rattle.elm_canon.specs.Constructors as constructors;
ghost use Rattle.pattern_check.specs.Shapes as shapes;
ghost use Rattle.pattern_check.specs.Starts.{start_view, key_view};

use elm_canon::tree::Literal;
use elm_canon::unions::{Alternative, Tag, Union};

/// What a shape begins with.
#[derive(Clone, Copy)]
pub enum Start<'a> {
    Literal(&'a Literal),
    /// A literal that no pattern has.
    Other,
    /// A tuple of so many parts.
    Tuple(usize),
    /// `[]`
    Empty,
    /// `::`
    Item,
    /// A constructor of a declared union.
    Constructor(&'a Union, &'a Alternative),
}

/// What tells a start from others.
#[derive(Clone, Copy)]
pub enum StartKey<'a> {
    Literal(&'a Literal),
    Other,
    Constructor(Tag, usize),
}

/// Whether two literals are the same.
pub fn same_literal(first: &Literal, second: &Literal) -> bool
    ensures { result ≡ shapes.same_literal first.now second.now }
{
    match (first, second) {
        (Literal::Int(m), Literal::Int(n)) => m == n,
        (Literal::Char(s), Literal::Char(t)) => s == t,
        (Literal::Text(s), Literal::Text(t)) => s == t,
        _ => false,
    }
}

/// Whether two tags are the same.
pub fn same_tag(first: Tag, second: Tag) -> bool
    ensures { result ≡ constructors.same_tag first second }
{
    match (first, second) {
        (Tag::Number(m), Tag::Number(n)) => m == n,
        (Tag::Truth(a), Tag::Truth(b)) => a == b,
        (Tag::Blank, Tag::Blank) => true,
        _ => false,
    }
}

/// What tells a start from others.
pub fn key(start: Start<'_>) -> StartKey<'_>
    ensures { key_view result ≡ shapes.key_of (start_view start.entry) }
{
    match start {
        Start::Literal(literal) => StartKey::Literal(literal),
        Start::Other => StartKey::Other,
        Start::Tuple(0) => StartKey::Constructor(Tag::Blank, 0),
        Start::Tuple(count) => StartKey::Constructor(Tag::Number(0), count),
        Start::Empty => StartKey::Constructor(Tag::Number(0), 0),
        Start::Item => StartKey::Constructor(Tag::Number(1), 2),
        Start::Constructor(_, alternative) => {
            StartKey::Constructor(alternative.tag, alternative.arity)
        }
    }
}

/// Whether two keys are the same.
pub fn same_key(first: StartKey<'_>, second: StartKey<'_>) -> bool
    ensures { result ≡ shapes.same_key (key_view first.entry) (key_view second.entry) }
{
    match (first, second) {
        (StartKey::Literal(l), StartKey::Literal(m)) => same_literal(l, m),
        (StartKey::Other, StartKey::Other) => true,
        (StartKey::Constructor(s, m), StartKey::Constructor(t, n)) => same_tag(s, t) && m == n,
        _ => false,
    }
}

/// Whether two starts are the same.
pub fn same_start(first: Start<'_>, second: Start<'_>) -> bool
    ensures { result ≡ shapes.same_head (start_view first.entry) (start_view second.entry) }
{
    same_key(key(first), key(second))
}

/// How many parts come after the start.
pub fn arity(start: Start<'_>) -> usize
    ensures { result ≡ shapes.arity_of (start_view start.entry) }
{
    match start {
        Start::Literal(_) | Start::Other | Start::Empty => 0,
        Start::Tuple(count) => count,
        Start::Item => 2,
        Start::Constructor(_, alternative) => alternative.arity,
    }
}
