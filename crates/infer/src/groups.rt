//! The type groups of a module, one after another.

ghost use Rattle.std.specs.Prelude.{◌≡◌, ◌<◌, ℕ, List, Err, Some, None, length, map, slice_get, IfOk, OnOk};
ghost use Rattle.elm_canon.specs.Tree.{Module as PlainModule, groups_of};
ghost use Rattle.elm_canon.specs.View.{group_view};
ghost use Rattle.type_items.specs.Definitions.{Definition, type_groups};
ghost use Rattle.type_items.specs.Inferred.{first_annotation};
ghost use Rattle.type_items.specs.Modules.{module_items};
ghost use Rattle.type_items.specs.Scopes.{Known as PlainKnown};
ghost use Rattle.type_constructs.specs.TypeModulesGroups as modules;
ghost use Rattle.type_constructs.specs.Failing.{FailsAt};
ghost use Rattle.infer_steps.specs.Codes as plain;
ghost use Rattle.infer_steps.specs.Codes.{Code};
ghost use Rattle.infer_steps.specs.Leaving.{without};
ghost use Rattle.infer_steps.specs.View.{bad_view, code_of, here};
ghost use Rattle.infer_steps.specs.declared.bad.Bad.{Bad};
ghost use Rattle.infer_steps.specs.declared.bad.InferError.TheVariants as error;
ghost use Rattle.infer_groups.specs.Members.{CanClose, GroupDone};
ghost use Rattle.infer_groups.specs.Names.{named_views};
ghost use Rattle.infer_exprs.specs.Finished.{GroupStops};
ghost use Rattle.infer_order.specs.Order.{IsOrder, IsSimple, ordered};
ghost use Rattle.infer_parts.specs.Formed.{FormedGroups};
ghost use Rattle.infer_parts.specs.Steps.{CanWalk};
ghost use Rattle.infer.specs.Middle.{AnnotationsOnce, Begun, Middle, Starts};
ghost use Rattle.infer.specs.Modules.{root};
ghost use Rattle.infer.specs.Names.{AllTitled};
ghost use Rattle.infer.specs.Told.{GroupIsTold, told_views};

use crate::told::{Told, tell_annotated, tell_each};
use elm_canon::tree::Group;
use infer_exprs::declare::declare;
use infer_exprs::exprs::walk_group;
use infer_groups::groups::{Opened, close_group};
use infer_order::order::Order;
use infer_steps::bad::InferError;
use infer_steps::scope::Scope;
use infer_steps::state::State;
use std::alloc::{AllocError, Global};
use type_constructs::told_reading_laws::reading_law;
use type_constructs::type_answers_laws::inference_law;
use type_constructs::type_modules_laws::module_law;

/// Adds the names of a type group whose members were walked with their types, and closes the group. The error is that
/// memory or numbers ran out.
fn finish(
    alloc: Global,
    state: &mut State,
    scope: &mut Scope,
    opened: Opened,
    told: &mut Vec<Told>,
) -> Result<(), AllocError>
    requires { CanClose (named_views opened.names.items) (here state.old) }
    ensures { OnOk result ((code : Code) (g : List Definition) (i : ℕ) (old : plain.State)
        → without opened.entered.items (code_of scope.old) ≡ code → first_annotation g ≡ None
        → GroupDone code g i (named_views opened.names.items) old (here state.old)
        → GroupIsTold code (code_of scope.new) g i old (here state.new) (told_views told.old.items)
        (told_views told.new.items)) }
{
    tell_each(alloc, &state.store, &opened.names, told)?;
    close_group(alloc, state, scope, opened)?;
    Ok(())
}

/// Infers the type group of the number `number` and adds its names with their types. The errors: its items stop at a
/// bad one; memory or numbers ran out.
fn infer_group(
    alloc: Global,
    state: &mut State,
    scope: &mut Scope,
    groups: &[&Group],
    order: &Order<'_>,
    number: usize,
    told: &mut Vec<Told>,
) -> Result<(), InferError>
    requires can { CanWalk (code_of scope.old) (here state.old) }
    requires formed { FormedGroups (groups_of (map (λ g. group_view g.now) groups.now)) }
    requires simple { IsSimple (groups_of (map (λ g. group_view g.now) groups.now)) }
    requires titled { AllTitled (map (λ g. group_view g.now) groups.now) }
    requires order { IsOrder (map (λ g. group_view g.now) groups.now) order.now }
    requires number { number < length order.now.groups.items }
    ensures told { OnOk result ((g : List Definition)
        → slice_get (type_groups (ordered (map (λ g. group_view g.now) groups.now))) number ≡ Some g
        → GroupIsTold (code_of scope.old) (code_of scope.new) g number (here state.old) (here state.new)
        (told_views told.old.items) (told_views told.new.items)) }
    ensures stopped { (b : Bad) → result ≡ Err (error.Bad b) → (g : List Definition)
        → slice_get (type_groups (ordered (map (λ g. group_view g.now) groups.now))) number ≡ Some g
        → GroupStops (code_of scope.old) g number (here state.old) (here state.new) (bad_view b) }
{
    match walk_group(alloc, state, scope, groups, order, number) {
        Ok(walked) => match walked {
            Some(opened) => {
                finish(alloc, state, scope, opened, told)?;
                Ok(())
            }
            None => {
                tell_annotated(alloc, &order.definitions, &order.groups[number], told)?;
                Ok(())
            }
        },
        Err(error) => Err(error),
    }
}

/// Infers the type groups in turn, and returns their names with their types. The errors: their items stop at a bad one;
/// memory or numbers ran out.
fn infer_groups(
    alloc: Global,
    state: &mut State,
    scope: &mut Scope,
    groups: &[&Group],
    order: &Order<'_>,
) -> Result<Vec<Told>, InferError>
    requires can { CanWalk (code_of scope.old) (here state.old) }
    requires formed { FormedGroups (groups_of (map (λ g. group_view g.now) groups.now)) }
    requires simple { IsSimple (groups_of (map (λ g. group_view g.now) groups.now)) }
    requires titled { AllTitled (map (λ g. group_view g.now) groups.now) }
    requires once { AnnotationsOnce (ordered (map (λ g. group_view g.now) groups.now)) }
    requires order { IsOrder (map (λ g. group_view g.now) groups.now) order.now }
    ensures can { IfOk result (λ told. CanWalk (code_of scope.new) (here state.new)) }
    ensures told { IfOk result (λ told. (module_ : PlainModule) (env : PlainKnown)
        → Begun module_ env (map (λ g. group_view g.now) groups.now) (code_of scope.old) (here state.old)
        → Middle module_ env (length (modules.groups_of module_)) (code_of scope.new) (here state.new)
        (told_views told.items)) }
    ensures stopped { (b : Bad) → result ≡ Err (error.Bad b) → (module_ : PlainModule) (env : PlainKnown)
        → Begun module_ env (map (λ g. group_view g.now) groups.now) (code_of scope.old) (here state.old)
        → FailsAt root (module_items module_ env root) (bad_view b) (here state.new).store }
{
    module_law();
    reading_law();
    let mut told = Vec::new(alloc);
    for number in 0..order.groups.len() {
        match infer_group(alloc, state, scope, groups, order, number, &mut told) {
            Ok(()) => {}
            Err(error) => return Err(error),
        }
    }
    Ok(told)
}

/// Infers definitions: first those with annotations come into scope, and then the type groups are inferred in turn.
/// Returns their names with their types. The errors: their items stop at a bad one; memory or numbers ran out.
pub(crate) fn infer_definitions(
    alloc: Global,
    state: &mut State,
    scope: &mut Scope,
    groups: &[&Group],
    order: &Order<'_>,
) -> Result<Vec<Told>, InferError>
    requires can { CanWalk (code_of scope.old) (here state.old) }
    requires formed { FormedGroups (groups_of (map (λ g. group_view g.now) groups.now)) }
    requires simple { IsSimple (groups_of (map (λ g. group_view g.now) groups.now)) }
    requires titled { AllTitled (map (λ g. group_view g.now) groups.now) }
    requires once { AnnotationsOnce (ordered (map (λ g. group_view g.now) groups.now)) }
    requires order { IsOrder (map (λ g. group_view g.now) groups.now) order.now }
    ensures can { IfOk result (λ told. CanWalk (code_of scope.new) (here state.new)) }
    ensures told { IfOk result (λ told. (module_ : PlainModule) (env : PlainKnown)
        → Starts module_ env (map (λ g. group_view g.now) groups.now) (code_of scope.old) (here state.old)
        → Middle module_ env (length (modules.groups_of module_)) (code_of scope.new) (here state.new)
        (told_views told.items)) }
    ensures stopped { (b : Bad) → result ≡ Err (error.Bad b) → (module_ : PlainModule) (env : PlainKnown)
        → Starts module_ env (map (λ g. group_view g.now) groups.now) (code_of scope.old) (here state.old)
        → FailsAt root (module_items module_ env root) (bad_view b) (here state.new).store }
{
    module_law();
    inference_law();
    match declare(alloc, state, scope, &order.definitions) {
        Ok(_) => {}
        Err(error) => return Err(error),
    }
    infer_groups(alloc, state, scope, groups, order)
}
