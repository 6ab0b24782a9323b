//! Patterns made of their parts.

ghost use Rattle.std.specs.Prelude.{◌≡◌, ◌∷◌, [], take, drop, map, IfOk, OnOk};
ghost use Rattle.elm_canon.specs.View.{pattern_view};
ghost use Rattle.elm_canon.specs.Unions.{tuple_alternative, nil_alternative, cons_alternative};
ghost use Rattle.pattern_check.specs.Starts.{start_view, parts_view};
ghost use Rattle.pattern_check.specs.Shapes as shapes;
ghost use Rattle.pattern_check.specs.Built.{tuple_head, empty_head, item_head, head_pattern, unlisted, stack_view};

use crate::start::{Start, arity};
use elm_base::names::Name;
use elm_base::units::Units;
use elm_canon::tree::{Literal, Pattern};
use elm_canon::unions::{Alternative, Tag, Union, UnionShape};
use std::alloc::{AllocError, Global};

/// The literal once more.
fn literal_copy(literal: &Literal) -> Result<Literal, AllocError>
    ensures { IfOk result (λ copy. copy ≡ literal.now) }
{
    match literal {
        Literal::Int(n) => Ok(Literal::Int(*n)),
        Literal::Char(units) => Ok(Literal::Char(units.clone()?)),
        Literal::Text(units) => Ok(Literal::Text(units.clone()?)),
    }
}

/// The name of one unit.
fn name_of_one(alloc: Global, unit: u16) -> Result<Name, AllocError>
    ensures { IfOk result (λ name. name ≡ unit ∷ []) }
{
    let mut units = Vec::new(alloc);
    units.push(unit)?;
    Name::new(alloc, Units::from_vec(units))
}

/// The name of two units.
fn name_of_two(alloc: Global, first: u16, second: u16) -> Result<Name, AllocError>
    ensures { IfOk result (λ name. name ≡ first ∷ second ∷ []) }
{
    let mut units = Vec::new(alloc);
    units.push(first)?;
    units.push(second)?;
    Name::new(alloc, Units::from_vec(units))
}

/// The constructor of tuples of so many parts.
fn tuple_constructor(alloc: Global, count: usize) -> Result<Alternative, AllocError>
    ensures { IfOk result (λ a. a ≡ tuple_alternative count) }
{
    if count == 0 {
        Ok(Alternative {
            name: name_of_two(alloc, 40, 41)?,
            tag: Tag::Blank,
            arity: 0,
        })
    } else {
        Ok(Alternative {
            name: name_of_one(alloc, 44)?,
            tag: Tag::Number(0),
            arity: count,
        })
    }
}

/// `[]`
fn empty_constructor(alloc: Global) -> Result<Alternative, AllocError>
    ensures { IfOk result (λ a. a ≡ nil_alternative) }
{
    Ok(Alternative {
        name: name_of_two(alloc, 91, 93)?,
        tag: Tag::Number(0),
        arity: 0,
    })
}

/// `::`
fn item_constructor(alloc: Global) -> Result<Alternative, AllocError>
    ensures { IfOk result (λ a. a ≡ cons_alternative) }
{
    Ok(Alternative {
        name: name_of_two(alloc, 58, 58)?,
        tag: Tag::Number(1),
        arity: 2,
    })
}

/// A tuple of the parts.
fn tuple_of(alloc: Global, count: usize, parts: Vec<Pattern>) -> Result<Pattern, AllocError>
    ensures { IfOk result (λ p. pattern_view p ≡ head_pattern (tuple_head count) (map pattern_view parts.items)) }
{
    let union = Union::new(alloc, UnionShape::Tuple(count))?;
    let alternative = tuple_constructor(alloc, count)?;
    Ok(Pattern::Construct(union, alternative, parts))
}

/// `[]`
fn empty_of(alloc: Global, parts: Vec<Pattern>) -> Result<Pattern, AllocError>
    ensures { IfOk result (λ p. pattern_view p ≡ head_pattern empty_head (map pattern_view parts.items)) }
{
    let union = Union::new(alloc, UnionShape::List)?;
    let alternative = empty_constructor(alloc)?;
    Ok(Pattern::Construct(union, alternative, parts))
}

/// `::` of the parts.
fn item_of(alloc: Global, parts: Vec<Pattern>) -> Result<Pattern, AllocError>
    ensures { IfOk result (λ p. pattern_view p ≡ head_pattern item_head (map pattern_view parts.items)) }
{
    let union = Union::new(alloc, UnionShape::List)?;
    let alternative = item_constructor(alloc)?;
    Ok(Pattern::Construct(union, alternative, parts))
}

/// The constructor of the parts.
fn constructed(
    own: &Union,
    constructor: &Alternative,
    parts: Vec<Pattern>,
) -> Result<Pattern, AllocError>
    ensures { IfOk result (λ p. pattern_view p
        ≡ head_pattern (shapes.Constructor own.now constructor.now) (map pattern_view parts.items)) }
{
    let union = own.clone()?;
    let alternative = constructor.clone()?;
    Ok(Pattern::Construct(union, alternative, parts))
}

/// The pattern that begins so, of these parts.
fn make(alloc: Global, start: Start<'_>, parts: Vec<Pattern>) -> Result<Pattern, AllocError>
    ensures { IfOk result (λ p. pattern_view p
        ≡ head_pattern (start_view start.entry) (map pattern_view parts.items)) }
{
    match start {
        Start::Literal(literal) => {
            let copy = literal_copy(literal)?;
            Ok(Pattern::Exactly(copy))
        }
        Start::Other => Ok(Pattern::Anything),
        Start::Tuple(count) => tuple_of(alloc, count, parts),
        Start::Empty => empty_of(alloc, parts),
        Start::Item => item_of(alloc, parts),
        Start::Constructor(union, alternative) => constructed(union, alternative, parts),
    }
}

/// So many patterns from the top of the stack.
fn taken(alloc: Global, stack: &mut Vec<Pattern>, count: usize) -> Result<Vec<Pattern>, AllocError>
    ensures taken { IfOk result (λ ps. map pattern_view ps.items ≡ take count (stack_view stack.old.items [])) }
    ensures left { OnOk result (stack_view stack.new.items [] ≡ drop count (stack_view stack.old.items [])) }
{
    let mut out = Vec::new(alloc);
    for _ in 0..count {
        let Some(pattern) = stack.pop() else {
            return Ok(out);
        };
        out.push(pattern)?;
    }
    Ok(out)
}

/// The patterns of the parts, the first on the top.
pub fn built(alloc: Global, mut parts: Vec<Option<Start<'_>>>) -> Result<Vec<Pattern>, AllocError>
    ensures { IfOk result (λ stack. stack_view stack.items [] ≡ unlisted (parts_view parts.entry.items) []) }
{
    let mut stack = Vec::new(alloc);
    while let Some(part) = parts.pop() {
        match part {
            None => stack.push(Pattern::Anything)?,
            Some(start) => {
                let fields = taken(alloc, &mut stack, arity(start))?;
                stack.push(make(alloc, start, fields)?)?;
            }
        }
    }
    Ok(stack)
}
