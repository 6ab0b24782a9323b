//! The groups of the definitions of a block, by what they mean.

ghost use Rattle.std.specs.Prelude.{◌≡◌, ◌≢◌, ◌++◌, ◌∷◌, [], ℕ, List, length, map, slice_index_or, IfOk, OnOk};
ghost use Rattle.elm_canon.specs.Tree as canon;
ghost use Rattle.elm_canon.specs.View.{group_view, function_view, title_view, patterns_view, expr_view};
ghost use Rattle.canon_expr.specs.Blocks as spec;
ghost use Rattle.canon_expr.specs.Kept.{made_view, one_view, IsOrderOf, left_at, left_after, taken_at};
ghost use Rattle.canon_expr.specs.Kept.{functions_among};

use crate::items::{discard, one_item, put};
use crate::made::Made;
use crate::order::Order;
use elm_canon::tree::{Expr, Function, Group, Pattern, Title};
use std::alloc::{AllocError, Global};
use std::mem;

/// Takes out what stands at a place, and leaves nothing there.
fn take_one(made: &mut Vec<Made>, at: usize) -> Made
    ensures taken { made_view result ≡ slice_index_or (map made_view made.old.items) at spec.NoMade }
    ensures left { map made_view made.new.items ≡ left_at spec.NoMade (map made_view made.old.items) at }
{
    if at < made.len() {
        mem::replace(&mut made[at], Made::Nothing)
    } else {
        Made::Nothing
    }
}

/// Takes out what stands at places, in turn.
fn take_each(alloc: Global, made: &mut Vec<Made>, members: &[u32]) -> Result<Vec<Made>, AllocError>
    ensures taken { IfOk result (λ v. map made_view v.items
        ≡ taken_at spec.NoMade (map made_view made.old.items) members.now) }
    ensures left { OnOk result (map made_view made.new.items
        ≡ left_after spec.NoMade (map made_view made.old.items) members.now) }
{
    let mut taken = Vec::new(alloc);
    for member in members {
        put(&mut taken, take_one(made, *member as usize))?;
    }
    Ok(taken)
}

/// Adds a function.
fn add_function(
    functions: &mut Vec<Function>,
    title: Title,
    parameters: Vec<Pattern>,
    body: Box<Expr>,
) -> Result<(), AllocError>
    ensures { OnOk result (map function_view functions.new.items ≡ map function_view functions.old.items
        ++ (title_view title, patterns_view parameters.items, expr_view body.value) ∷ []) }
{
    put(
        functions,
        Function {
            title,
            parameters,
            body,
        },
    )
}

/// Adds a definition that is a function.
fn push_function(made: Made, functions: &mut Vec<Function>) -> Result<(), AllocError>
    ensures { OnOk result (map function_view functions.new.items
        ≡ map function_view functions.old.items ++ functions_among (made_view made ∷ [])) }
{
    match made {
        Made::Nothing => Ok(()),
        Made::Function(title, parameters, body) => add_function(functions, title, parameters, body),
        Made::Constant(title, value) => {
            discard(title);
            discard(value);
            Ok(())
        }
        Made::Parts(pattern, value) => {
            discard(pattern);
            discard(value);
            Ok(())
        }
    }
}

/// The functions among the definitions `made`. The error means that memory ran out.
pub fn functions_in(alloc: Global, made: Vec<Made>) -> Result<Vec<Function>, AllocError>
    ensures { IfOk result (λ v. canon.functions_of (map function_view v.items)
        ≡ spec.functions_in (map made_view made.items)) }
{
    let mut functions = Vec::new(alloc);
    for one in made {
        push_function(one, &mut functions)?;
    }
    Ok(functions)
}

/// The list of one function.
fn one_function(
    alloc: Global,
    title: Title,
    parameters: Vec<Pattern>,
    body: Box<Expr>,
) -> Result<Vec<Function>, AllocError>
    ensures { IfOk result (λ fs. map function_view fs.items
        ≡ (title_view title, patterns_view parameters.items, expr_view body.value) ∷ []) }
{
    one_item(
        alloc,
        Function {
            title,
            parameters,
            body,
        },
    )
}

/// The group of the definition `made` alone. None: an annotation makes none. The error means that memory ran out.
pub fn one_group(alloc: Global, made: Made) -> Result<Option<Group>, AllocError>
    ensures { IfOk result (λ g. one_view g ≡ spec.group_of (made_view made ∷ [])) }
{
    match made {
        Made::Nothing => Ok(None),
        Made::Function(title, parameters, body) => {
            let functions = one_function(alloc, title, parameters, body)?;
            Ok(Some(Group::Together(functions)))
        }
        Made::Constant(title, value) => Ok(Some(Group::Constant(title, value))),
        Made::Parts(pattern, value) => Ok(Some(Group::Destructure(pattern, value))),
    }
}

/// Adds the group of one definition, if it makes one.
fn push_one(alloc: Global, made: Made, groups: &mut Vec<Group>) -> Result<(), AllocError>
    ensures { OnOk result (map group_view groups.new.items
        ≡ map group_view groups.old.items ++ spec.group_of (made_view made ∷ [])) }
{
    match one_group(alloc, made)? {
        Some(group) => put(groups, group),
        None => Ok(()),
    }
}

/// Adds the group of the definitions at these places, and takes them out.
fn push_group(
    alloc: Global,
    made: &mut Vec<Made>,
    members: &[u32],
    groups: &mut Vec<Group>,
) -> Result<(), AllocError>
    ensures groups { OnOk result (map group_view groups.new.items ≡ map group_view groups.old.items
        ++ spec.group_of (taken_at spec.NoMade (map made_view made.old.items) members.now)) }
    ensures left { OnOk result (map made_view made.new.items
        ≡ left_after spec.NoMade (map made_view made.old.items) members.now) }
{
    if members.len() == 1 {
        return push_one(alloc, take_one(made, members[0] as usize), groups);
    }
    let taken = take_each(alloc, made, members)?;
    let functions = functions_in(alloc, taken)?;
    put(groups, Group::Together(functions))
}

/// The groups of a block, each after those that it uses. `made` says what its definitions mean, and `order` is their
/// order. The error means that memory ran out.
pub fn groups_of(alloc: Global, order: &Order, made: Vec<Made>) -> Result<Vec<Group>, AllocError>
    ensures { IfOk result (λ v. (uses : List (List ℕ)) → IsOrderOf order.now uses
        → canon.groups_of (map group_view v.items) ≡ spec.groups_in uses (map made_view made.items)) }
{
    let mut made = made;
    let mut groups = Vec::new(alloc);
    for group in &order.groups {
        push_group(alloc, &mut made, &group.members, &mut groups)?;
    }
    Ok(groups)
}
