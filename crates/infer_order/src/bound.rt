//! The names that a pattern binds, and where it begins.

ghost use Rattle.std.specs.Prelude.{◌≡◌, [], ◌∷◌, ◌++◌, OnOk};
ghost use Rattle.elm_canon.specs.View.{pattern_view, patterns_view};
ghost use Rattle.elm_canon.specs.Proper as proper;
ghost use Rattle.type_items.specs.Expressions.{nowhere};
ghost use Rattle.type_items.specs.Patterns.{pattern_start};

use elm_base::names::Name;
use elm_base::position::Pos;
use elm_canon::reference::Ref;
use elm_canon::tree::Pattern;
use std::alloc::AllocError;

/// Adds a local name.
fn push_local(name: &Name, names: &mut Vec<Ref>) -> Result<(), AllocError>
    ensures { OnOk result (names.new.items ≡ names.old.items ++ proper.locals (name.now ∷ [])) }
{
    names.push(Ref::Local(name.clone()?))?;
    Ok(())
}

/// Adds local names.
fn push_locals(locals: &[Name], names: &mut Vec<Ref>) -> Result<(), AllocError>
    ensures { OnOk result (names.new.items ≡ names.old.items ++ proper.locals locals.now) }
{
    for name in locals {
        push_local(name, names)?;
    }
    Ok(())
}

/// Adds the names that a pattern binds, from left to right.
#[cycle(patterns)]
pub(crate) fn push_bound(pattern: &Pattern, names: &mut Vec<Ref>) -> Result<(), AllocError>
    ensures { OnOk result (names.new.items ≡ names.old.items ++ proper.bound_by (pattern_view pattern.now)) }
{
    match pattern {
        Pattern::Anything => Ok(()),
        Pattern::Named(name) => push_local(name, names),
        Pattern::As(inner, name) => {
            push_bound(inner, names)?;
            push_local(name, names)
        }
        Pattern::Exactly(_) => Ok(()),
        Pattern::Construct(_, _, parts) => push_each(parts, names),
        Pattern::Tuple(parts) => push_each(parts, names),
        Pattern::List(items) => push_each(items, names),
        Pattern::Items(items, rest) => {
            push_each(items, names)?;
            push_bound(rest, names)
        }
        Pattern::Fields(fields) => push_locals(fields, names),
        Pattern::Located(_, inner) => push_bound(inner, names),
    }
}

/// Adds the names that patterns bind.
#[cycle(patterns)]
fn push_each(patterns: &[Pattern], names: &mut Vec<Ref>) -> Result<(), AllocError>
    ensures { OnOk result (names.new.items ≡ names.old.items ++ proper.all_bound_by (patterns_view patterns.now)) }
{
    for pattern in patterns {
        push_bound(pattern, names)?;
    }
    Ok(())
}

/// Where a pattern begins. Row and column are 0 where it does not say.
#[tactic(auto, using(elm_canon::proofs::Views::anything_pattern, elm_canon::proofs::Views::named_pattern, elm_canon::proofs::Views::exact_pattern, elm_canon::proofs::Views::construct_pattern, elm_canon::proofs::Views::pattern_of_tuple, elm_canon::proofs::Views::list_pattern, elm_canon::proofs::Views::fields_pattern, elm_canon::proofs::Views::located_pattern, crate::proofs::Binding::list_start))]
pub(crate) fn start(pattern: &Pattern) -> Pos
    ensures { result ≡ pattern_start nowhere (pattern_view pattern.now) }
{
    match pattern {
        Pattern::Located(place, _) => *place,
        Pattern::As(inner, _) => start(inner),
        Pattern::Items(items, rest) => {
            if items.len() == 0 {
                start(rest)
            } else {
                Pos { row: 0, column: 0 }
            }
        }
        Pattern::Anything
        | Pattern::Named(_)
        | Pattern::Exactly(_)
        | Pattern::Construct(_, _, _)
        | Pattern::Tuple(_)
        | Pattern::List(_)
        | Pattern::Fields(_) => Pos { row: 0, column: 0 },
    }
}
