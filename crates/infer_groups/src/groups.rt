//! Type groups without annotations.

ghost use Rattle.std.specs.Prelude.{◌≡◌, ℕ, List, IfOk, OnOk, length, map};
ghost use Rattle.std.specs.List.{AllZip};
ghost use Rattle.type_items.specs.Definitions as plain;
ghost use Rattle.type_items.specs.Items.{child};
ghost use Rattle.infer_steps.specs.Codes.{Code};
ghost use Rattle.infer_steps.specs.Codes as codes;
ghost use Rattle.infer_steps.specs.Ready.{IsReady};
ghost use Rattle.infer_steps.specs.View.{code_of, here};
ghost use Rattle.infer_steps.specs.Leaving.{without};
ghost use Rattle.infer_groups.specs.Defined.{Defined, group_places, inside};
ghost use Rattle.infer_groups.specs.Members.{IsTitledAs, MembersDone, GroupDone, CanClose, listed_group, at_number};
ghost use Rattle.infer_groups.specs.Members.{with_named};
ghost use Rattle.infer_groups.specs.Names.{named_views};

use crate::laws::{closing_law, members_law};
use crate::names::{Named, copy_name, enter_general, enter_named, freeze_named};
use crate::states::{come_back, go_inside};
use elm_canon::tree::Title;
use infer_steps::make::open_each;
use infer_steps::scope::{Entered, Scope};
use infer_steps::state::State;
use std::alloc::{AllocError, Global};

/// A type group whose members are to be walked.
#[derive(Drop)]
pub struct Opened {
    /// The name of each member, and the variable of its type.
    pub names: Vec<Named>,
    /// What its names stood for before.
    pub entered: Vec<Entered>,
}

/// The names of titles, with variables in turn.
fn named(alloc: Global, titles: &[&Title], variables: &[u32]) -> Result<Vec<Named>, AllocError>
    requires { length titles.now ≡ length variables.now }
    ensures variables { IfOk result (λ names. map (λ n. n.variable) names.items ≡ variables.now) }
    ensures names { IfOk result (λ names. map (λ n. n.name) names.items ≡ map (λ t. t.now.name) titles.now) }
{
    let mut names = Vec::with_capacity(alloc, titles.len())?;
    for at in 0..titles.len() {
        let name = copy_name(&titles[at].name)?;
        names.push(Named {
            name,
            variable: variables[at],
        })?;
    }
    Ok(names)
}

/// Opens the type group of the number `number`, whose members have these titles: goes to that child of the place and
/// inside one definition more, and gives each name a variable of its own. Then each member is to be walked in turn at
/// its child of the place, and the size of its type checked, before `close_group`. The error is that memory or numbers
/// ran out.
pub fn open_group(
    alloc: Global,
    state: &mut State,
    scope: &mut Scope,
    titles: &[&Title],
    number: usize,
) -> Result<Opened, AllocError>
    requires { IsReady (code_of scope.old) (here state.old).depth (here state.old).store }
    ensures opened { IfOk result (λ o. (ds : List plain.Definition)
        → AllZip (λ t d. IsTitledAs t.now.name d) titles.now ds
        → MembersDone (code_of scope.old) ds number 0 (named_views o.names.items) (here state.old) (here state.new)) }
    ensures scope { IfOk result (λ o. code_of scope.new ≡ with_named (named_views o.names.items) (code_of scope.old)) }
    ensures entered { IfOk result (λ o. without o.entered.items (code_of scope.new) ≡ code_of scope.old) }
{
    members_law();
    go_inside(state, number)?;
    let variables = open_each(alloc, state, titles.len())?;
    let names = named(alloc, titles, &variables)?;
    let entered = enter_named(alloc, scope, &names)?;
    Ok(Opened { names, entered })
}

/// Closes a type group whose members were walked: its names become general, and stand for copies of their types. It
/// comes back to the place and the definitions around it. The result is for `Scope::leave`. The error is that memory or
/// numbers ran out.
pub fn close_group(
    alloc: Global,
    state: &mut State,
    scope: &mut Scope,
    opened: Opened,
) -> Result<Vec<Entered>, AllocError>
    requires { CanClose (named_views opened.names.items) (here state.old) }
    ensures closed { IfOk result (λ es. (code : Code) (ds : List plain.Definition) (i : ℕ) (old : codes.State)
        → without opened.entered.items (code_of scope.old) ≡ code
        → GroupDone code ds i (named_views opened.names.items) old (here state.old)
        → Defined code (code_of scope.new) (λ q. group_places (child q i)) (at_number i (listed_group ds)) old
        (here state.new)) }
    ensures entered { IfOk result (λ es. without es.items (code_of scope.new)
        ≡ without opened.entered.items (code_of scope.old)) }
    ensures store { OnOk result ((here state.new).store ≡ (here state.old).store) }
{
    closing_law();
    let Opened { names, entered } = opened;
    let general = freeze_named(alloc, &state.store, &names, state.depth - 1)?;
    scope.leave(entered)?;
    come_back(state);
    let left = enter_general(alloc, scope, general)?;
    Ok(left)
}
