//! The signs of patterns.

ghost use Rattle.std.specs.Prelude.{◌≡◌, ◌++◌, ◌∷◌, [], map, flat_map, OnOk};
ghost use Rattle.elm_canon.specs.View.{pattern_view, patterns_view};
ghost use Rattle.core_modules.specs.PortFaultsSigns.{pattern_signs, patterns_signs, named, other};

use crate::makers::{push, push_ends, push_form, push_taken};
use crate::port_faults_sign::{Form, Sign};
use elm_base::names::Name;
use elm_canon::tree::Pattern;
use std::alloc::AllocError;

/// Adds the sign of a name.
fn push_named(name: &Name, signs: &mut Vec<Sign>) -> Result<(), AllocError>
    ensures { OnOk result (signs.new.items ≡ signs.old.items ++ named name.now ∷ []) }
{
    push(Sign::Named(name.clone()?), signs)
}

/// Adds the signs of a pattern.
#[cycle(patterns)]
pub(crate) fn push_pattern(pattern: &Pattern, signs: &mut Vec<Sign>) -> Result<(), AllocError>
    ensures { OnOk result (signs.new.items ≡ signs.old.items ++ pattern_signs (pattern_view pattern.now)) }
{
    match pattern {
        Pattern::Anything => push_form(Form::Other, signs),
        Pattern::Named(name) => push_named(name, signs),
        Pattern::As(inner, _) => {
            push_form(Form::Other, signs)?;
            push_boxed(inner, signs)
        }
        Pattern::Exactly(_) => push_form(Form::Other, signs),
        Pattern::Construct(union, constructor, fields) => {
            push_taken(union, constructor, signs)?;
            push_patterns(fields, signs)?;
            push_ends(union, signs)
        }
        Pattern::Tuple(parts) => {
            push_form(Form::Other, signs)?;
            push_patterns(parts, signs)
        }
        Pattern::List(items) => {
            push_items(items, signs)?;
            push_form(Form::Other, signs)
        }
        Pattern::Items(items, rest) => {
            push_items(items, signs)?;
            push_boxed(rest, signs)
        }
        Pattern::Fields(_) => push_form(Form::Other, signs),
        Pattern::Located(_, inner) => push_boxed(inner, signs),
    }
}

/// Adds the signs of a pattern in a box.
#[cycle(patterns)]
fn push_boxed(pattern: &Box<Pattern>, signs: &mut Vec<Sign>) -> Result<(), AllocError>
    ensures { OnOk result (signs.new.items ≡ signs.old.items ++ pattern_signs (pattern_view pattern.now.value)) }
{
    push_pattern(pattern, signs)
}

/// Adds the signs of patterns.
#[cycle(patterns)]
pub(crate) fn push_patterns(
    patterns: &Vec<Pattern>,
    signs: &mut Vec<Sign>,
) -> Result<(), AllocError>
    ensures { OnOk result (signs.new.items
        ≡ signs.old.items ++ patterns_signs (patterns_view patterns.now.items)) }
{
    for place in 0..patterns.len() {
        push_pattern(&patterns[place], signs)?;
    }
    Ok(())
}

/// Adds the signs of the items of a list, each of which begins what is left of it.
#[cycle(patterns)]
fn push_items(patterns: &Vec<Pattern>, signs: &mut Vec<Sign>) -> Result<(), AllocError>
    ensures { OnOk result (signs.new.items
        ≡ signs.old.items ++ flat_map (λ p. other ∷ pattern_signs p) (map pattern_view patterns.now.items)) }
{
    for place in 0..patterns.len() {
        push_form(Form::Other, signs)?;
        push_pattern(&patterns[place], signs)?;
    }
    Ok(())
}
