//! The parts of patterns, from left to right.

ghost use Rattle.std.specs.Prelude.{◌≡◌, ◌++◌, OnOk, IfOk};
ghost use Rattle.pattern_check.specs.Starts.{parts_view};
ghost use Rattle.pattern_check.specs.Listed.{pattern_parts, all_parts, item_parts};

use crate::start::Start;
use elm_canon::tree::Pattern;
use std::alloc::{AllocError, Global};

/// The parts, and after them those of the pattern.
#[cycle(listed)]
fn add_pattern<'a>(
    parts: &mut Vec<Option<Start<'a>>>,
    pattern: &'a Pattern,
) -> Result<(), AllocError>
    ensures { OnOk result (parts_view parts.new.items ≡ parts_view parts.old.items ++ pattern_parts pattern.now) }
{
    match pattern {
        Pattern::Anything => parts.push(None)?,
        Pattern::Named(_) => parts.push(None)?,
        Pattern::Fields(_) => parts.push(None)?,
        Pattern::As(inner, _) => add_pattern(parts, inner)?,
        Pattern::Located(_, inner) => add_pattern(parts, inner)?,
        Pattern::Exactly(literal) => parts.push(Some(Start::Literal(literal)))?,
        Pattern::Construct(union, alternative, fields) => {
            parts.push(Some(Start::Constructor(union, alternative)))?;
            add_patterns(parts, fields)?
        }
        Pattern::Tuple(fields) => {
            parts.push(Some(Start::Tuple(fields.len())))?;
            add_patterns(parts, fields)?
        }
        Pattern::List(items) => {
            add_items(parts, items)?;
            parts.push(Some(Start::Empty))?
        }
        Pattern::Items(items, rest) => {
            add_items(parts, items)?;
            add_pattern(parts, rest)?
        }
    }
    Ok(())
}

/// The parts, and after them those of the patterns.
#[cycle(listed)]
fn add_patterns<'a>(
    parts: &mut Vec<Option<Start<'a>>>,
    patterns: &'a [Pattern],
) -> Result<(), AllocError>
    ensures { OnOk result (parts_view parts.new.items ≡ parts_view parts.old.items ++ all_parts patterns.now) }
{
    for pattern in patterns {
        add_pattern(parts, pattern)?;
    }
    Ok(())
}

/// The parts, and after them those of the items of a list.
#[cycle(listed)]
fn add_items<'a>(parts: &mut Vec<Option<Start<'a>>>, items: &'a [Pattern]) -> Result<(), AllocError>
    ensures { OnOk result (parts_view parts.new.items ≡ parts_view parts.old.items ++ item_parts items.now) }
{
    for item in items {
        parts.push(Some(Start::Item))?;
        add_pattern(parts, item)?;
    }
    Ok(())
}

/// The parts of the pattern.
pub fn parts_of<'a>(
    alloc: Global,
    pattern: &'a Pattern,
) -> Result<Vec<Option<Start<'a>>>, AllocError>
    ensures { IfOk result (λ parts. parts_view parts.items ≡ pattern_parts pattern.now) }
{
    let mut parts = Vec::new(alloc);
    add_pattern(&mut parts, pattern)?;
    Ok(parts)
}
