//! A type group that is one pattern with its value: what is done before and after the walk of the value.

ghost use Rattle.std.specs.Prelude.{◌≡◌, ◌<◌, ℕ, Err, length, map, IfOk, OnOk};
ghost use Rattle.elm_canon.specs.Tree.{Expr};
ghost use Rattle.elm_canon.specs.View.{pattern_view};
ghost use Rattle.type_items.specs.Items.{child};
ghost use Rattle.type_items.specs.Patterns.{pattern_start};
ghost use Rattle.type_items.specs.Expressions.{nowhere};
ghost use Rattle.type_store.specs.Shape.{IsStore};
ghost use Rattle.infer_steps.specs.Leaving.{without};
ghost use Rattle.infer_steps.specs.View.{bad_view, code_of, here};
ghost use Rattle.infer_steps.specs.declared.bad.Bad.{Bad};
ghost use Rattle.infer_steps.specs.declared.bad.InferError.TheVariants as error;
ghost use Rattle.infer_patterns.specs.Once.{FieldsOnce};
ghost use Rattle.infer_patterns.specs.View.{bound_view};
ghost use Rattle.infer_steps.specs.Made.{IsOpened};
ghost use Rattle.infer_groups.specs.Defined.{inside, moved};
ghost use Rattle.infer_groups.specs.Laws.{bound_named};
ghost use Rattle.infer_groups.specs.Names.{named_views};
ghost use Rattle.infer_parts.specs.Steps.{CanWalk};
ghost use Rattle.infer_exprs.specs.Begun.{PatternBegun, PatternStops, PatternEnds, PatternIsLarge};

use elm_base::position::Pos;
use elm_canon::reference::Ref;
use elm_canon::tree::Pattern;
use infer_groups::names::Named;
use infer_groups::sizes::check_size;
use infer_parts::parts::{enter_both, leave_both};
use infer_patterns::bound::{Bound, enter};
use infer_patterns::pattern::infer_pattern;
use infer_steps::bad::InferError;
use infer_steps::make;
use infer_steps::scope::{Entered, Scope};
use infer_steps::state::State;
use std::alloc::{AllocError, Global};

/// A pattern that was matched for values of the type of a variable.
#[derive(Drop)]
pub struct Begun {
    pub variable: u32,
    /// The names that it binds, each with the variable of its type.
    pub names: Vec<Named>,
    /// What its names stood for before.
    pub entered: Vec<Entered>,
}

/// Goes inside the definition that stands at the child 0 of the child `number` of the place.
fn go_deeper(state: &mut State, number: usize) -> Result<(), AllocError>
    ensures place { OnOk result ((here state.new).place ≡ child (child (here state.old).place number) 0) }
    ensures inside { OnOk result (moved (here state.new) (child (here state.old).place number)
        ≡ inside (here state.old) number) }
{
    let Ok(outer) = u32::try_from(number) else {
        return Err(AllocError);
    };
    let Some(depth) = state.depth.checked_add(1) else {
        return Err(AllocError);
    };
    enter_both(state, outer, 0)?;
    state.depth = depth;
    Ok(())
}

/// The same, with a new variable for the type of the definition.
fn open_deeper(state: &mut State, number: usize) -> Result<u32, AllocError>
    requires { IsStore (here state.old).store }
    ensures place { OnOk result ((here state.new).place ≡ child (child (here state.old).place number) 0) }
    ensures opened { IfOk result (λ v. IsOpened (inside (here state.old) number)
        (moved (here state.new) (child (here state.old).place number)) v) }
{
    go_deeper(state, number)?;
    let variable = make::open(state)?;
    Ok(variable)
}

/// The names that a pattern binds, each with its variable.
fn named(alloc: Global, bound: &[Bound]) -> Result<Vec<Named>, AllocError>
    ensures { IfOk result (λ names. named_views names.items ≡ bound_named (map bound_view bound.now)) }
{
    let mut names = Vec::with_capacity(alloc, bound.len())?;
    for one in bound {
        names.push(Named {
            name: Ref::Local(one.name.clone()?),
            variable: one.variable,
        })?;
    }
    Ok(names)
}

/// Begins the type group of the number `number`, which is the pattern `pattern` with its value and begins at
/// `position`: matches the pattern for values of the type of a new variable, and takes its names into scope. Then the
/// value is to be walked at child 1, where the type of that variable is wanted, before `end_pattern`. The errors: an
/// item of the pattern is bad; memory or numbers ran out.
pub fn begin_pattern(
    alloc: Global,
    state: &mut State,
    scope: &mut Scope,
    pattern: &Pattern,
    position: Pos,
    number: usize,
) -> Result<Begun, InferError>
    requires can { CanWalk (code_of scope.old) (here state.old) }
    requires once { FieldsOnce (pattern_view pattern.now) }
    requires start { position ≡ pattern_start nowhere (pattern_view pattern.now) }
    ensures begun { IfOk result (λ b. PatternBegun (code_of scope.old) (code_of scope.new) (pattern_view pattern.now)
        number b.variable (named_views b.names.items) (here state.old) (here state.new)) }
    ensures left { IfOk result (λ b. without b.entered.items (code_of scope.new) ≡ code_of scope.old) }
    ensures stops { (b : Bad) → result ≡ Err (error.Bad b) → (e : Expr) → PatternStops (code_of scope.old)
        (pattern_view pattern.now) e number (here state.old) (here state.new) (bad_view b) }
{
    let variable = open_deeper(state, number)?;
    let bound = infer_pattern(alloc, state, scope.known(), position, pattern, variable)?;
    let names = named(alloc, &bound)?;
    let entered = enter(alloc, scope, bound)?;
    Ok(Begun {
        variable,
        names,
        entered,
    })
}

/// Ends a type group that is a pattern with its value, which begins at `position`, after its value was walked, where
/// the type of `variable` was wanted: goes back to the place of the group. The errors: its type is too large; memory
/// or numbers ran out.
pub fn end_pattern(
    alloc: Global,
    state: &mut State,
    position: Pos,
    variable: u32,
) -> Result<(), InferError>
    requires whole { IsStore (here state.old).store }
    requires inside { variable < length (here state.old).store }
    ensures ends { OnOk result (PatternEnds position variable (here state.old) (here state.new)) }
    ensures large { (b : Bad) → result ≡ Err (error.Bad b) → PatternIsLarge position variable (here state.old)
        (here state.new) (bad_view b) }
{
    match check_size(alloc, &state.store, position, variable) {
        Ok(()) => {}
        Err(error) => return Err(error),
    }
    leave_both(state);
    Ok(())
}
