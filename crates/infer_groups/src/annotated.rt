//! Definitions with annotations: entered, and closed after the walk of the body.

ghost use Rattle.std.specs.Prelude.{◌≡◌, ◌<◌, ◌∷◌, ℕ, Err, length, map, IfOk, OnOk};
ghost use Rattle.elm_canon.specs.Tree.{Annotation};
ghost use Rattle.elm_type.specs.View.{kind_view};
ghost use Rattle.type_items.specs.Items.{child};
ghost use Rattle.type_items.specs.Definitions.{Definition};
ghost use Rattle.infer_steps.specs.Codes as plain;
ghost use Rattle.infer_steps.specs.Leaving.{without_constant};
ghost use Rattle.infer_steps.specs.Ready.{IsReady};
ghost use Rattle.infer_steps.specs.View.{bad_view, code_of, here};
ghost use Rattle.infer_steps.specs.declared.bad.Bad.{Bad as PlainBad};
ghost use Rattle.infer_steps.specs.declared.bad.InferError.TheVariants as error;
ghost use Rattle.infer_groups.specs.Defined.{IsClear, Defined, DefinitionsStop, group_places};
ghost use Rattle.infer_groups.specs.Members.{at_number};
ghost use Rattle.infer_groups.specs.Annotated.{own_names, inside_of, listed_annotated, ConstantsOpen};
ghost use Rattle.infer_groups.specs.Annotated.{AnnotatedDone};
ghost use Rattle.infer_groups.specs.Given.{AreApart, AreOwnOf, CanEnd, with_slots};

use crate::infer_annotated_laws::closing_law;
use crate::infer_annotated_states::{come_back, go_inside};
use crate::making::constants;
use crate::sizes::check_size;
use elm_base::names::Name;
use elm_base::position::Pos;
use elm_type::scheme::Kind;
use infer_steps::bad::{Bad, InferError};
use infer_steps::scope::{EnteredConstant, Scope};
use infer_steps::state::State;
use std::alloc::{AllocError, Global};
use type_schemes::constants::{escaped, let_go, open_constants};

/// A definition with an annotation, which was entered: its constants have variables.
#[derive(Drop)]
pub struct Inside {
    pub names: Vec<Name>,
    pub slots: Vec<u32>,
    pub entered: Vec<EnteredConstant>,
}

/// Lets names stand for constants with the variables `slots`: the last one first, so the first is the innermost. The
/// result is for `Scope::leave_constants`. The error means that memory ran out.
fn enter_constants(
    alloc: Global,
    scope: &mut Scope,
    names: &[Name],
    slots: &[u32],
) -> Result<Vec<EnteredConstant>, AllocError>
    requires { length slots.now ≡ length names.now }
    ensures scope { OnOk result (code_of scope.new ≡ with_slots names.now slots.now (code_of scope.old)) }
    ensures entered { IfOk result (λ es. without_constant es.items (code_of scope.new) ≡ code_of scope.old) }
{
    let mut entered = Vec::new(alloc);
    let mut done = 0;
    while done < names.len() {
        let at = names.len() - 1 - done;
        let one = scope.enter_constant(&names[at], slots[at])?;
        entered.push(one)?;
        done += 1;
    }
    Ok(entered)
}

/// Goes to the child `number` of the place, inside the definition that is there, whose annotation has own variables of
/// these names and kinds: they are constants. The error means that memory or numbers ran out.
pub fn open_annotated(
    alloc: Global,
    state: &mut State,
    scope: &mut Scope,
    names: Vec<Name>,
    kinds: &[Kind],
    number: usize,
) -> Result<Inside, AllocError>
    requires ready { IsReady (code_of scope.old) (here state.old).depth (here state.old).store }
    requires clear { IsClear (here state.old) }
    requires kinds { length kinds.now ≡ length names.items }
    requires apart { AreApart names.items }
    ensures opens { IfOk result (λ o. (annotation : Annotation) → AreOwnOf (code_of scope.old) annotation names.items
        (map kind_view kinds.now) → ConstantsOpen (code_of scope.old) annotation number o.slots.items (here state.old)
        (here state.new)) }
    ensures scope { IfOk result (λ o. (annotation : Annotation) → AreOwnOf (code_of scope.old) annotation names.items
        (map kind_view kinds.now) → code_of scope.new ≡ inside_of (code_of scope.old) annotation
        (child (here state.old).place number) o.slots.items) }
    ensures left { IfOk result (λ o. without_constant o.entered.items (code_of scope.new) ≡ code_of scope.old) }
    ensures names { IfOk result (λ o. o.names.items ≡ names.items) }
{
    go_inside(state, number)?;
    let rigids = constants(alloc, &state.place, &names, kinds)?;
    let slots = open_constants(alloc, &mut state.store, &rigids, state.depth)?;
    let entered = enter_constants(alloc, scope, &names, &slots)?;
    Ok(Inside {
        names,
        slots,
        entered,
    })
}

/// Goes out of a definition whose body was walked, the type of which is that of the variable `variable`, written at
/// `position`. The errors: a constant of its annotation is in a type of what is around; its type is too large; memory
/// or numbers ran out.
pub fn close_annotated(
    alloc: Global,
    state: &mut State,
    scope: &mut Scope,
    position: Pos,
    inside: Inside,
    variable: u32,
) -> Result<(), InferError>
    requires { CanEnd position inside.names.items inside.slots.items variable (here state.old) }
    ensures closed { OnOk result ((code : plain.Code) (d : Definition) (annotation : Annotation) (i : ℕ)
        (old mid : plain.State) → without_constant inside.entered.items (code_of scope.old) ≡ code
        → AnnotatedDone code d annotation i inside.slots.items variable old mid (here state.old)
        → (code_of scope.new ≡ code) × Defined code code (λ q. group_places (child q i))
        (at_number i (listed_annotated d annotation)) old (here state.new)) }
    ensures stops { (b : PlainBad) → result ≡ Err (error.Bad b) → (code : plain.Code) (d : Definition)
        (annotation : Annotation) (i : ℕ) (old mid : plain.State)
        → AnnotatedDone code d annotation i inside.slots.items variable old mid (here state.old)
        → inside.names.items ≡ own_names code annotation → position ≡ d.place
        → DefinitionsStop code (λ q. group_places (child q i)) (at_number i (listed_annotated d annotation)) old
        (here state.new) (bad_view b) }
{
    closing_law();
    let Inside {
        names,
        slots,
        entered,
    } = inside;
    let depth = state.depth - 1;
    if let Some(at) = escaped(&state.store, &slots, depth) {
        let name = names[at].clone()?;
        return Err(InferError::Bad(Bad::Keeps(position, name)));
    }
    match check_size(alloc, &state.store, position, variable) {
        Ok(()) => {}
        Err(error) => return Err(error),
    }
    let_go(&mut state.store, &slots)?;
    scope.leave_constants(entered)?;
    come_back(state);
    Ok(())
}
