//! Fields of a value, and groups without a constant.

ghost use Rattle.std.specs.Prelude.{◌≡◌, [], ◌∷◌, List, map, OnOk};
ghost use Rattle.elm_canon.specs.Tree.{groups_of};
ghost use Rattle.elm_canon.specs.View.{group_view};
ghost use Rattle.js_tree.specs.Tree.{Js, JArrow, JProperty, JVar, Made, Return};
ghost use Rattle.js_tree.specs.Postorder.{Tree, Expression, trees_of};
ghost use Rattle.emit_exprs.specs.Frames.{properties, has_constant};

use elm_base::names::Name;
use elm_canon::tree::Group;
use js_emit::push::{push_made, push_property};
use js_tree::tree;
use js_tree::tree::Node;
use js_tree::trees::Trees;
use std::alloc::{AllocError, Global};

/// Adds the function that takes the field `name` of its argument, whose name has the number `number`. The error means
/// that memory ran out.
pub fn push_accessor(
    alloc: Global,
    trees: &mut Trees,
    name: &Name,
    number: u64,
) -> Result<(), AllocError>
    ensures { OnOk result (trees_of trees.new
        ≡ Expression (JArrow (Made number) (Return (JProperty (JVar (Made number)) name.now))) ∷ trees_of trees.old) }
{
    trees.push(Node::NoStatement)?;
    push_made(trees, number)?;
    push_property(alloc, trees, name)?;
    trees.push(Node::Return)?;
    trees.push(Node::Ended)?;
    trees.push(Node::Arrow(tree::Name::Made(number)))
}

/// Makes the last tree the field of the field of it, by these names in turn. The error means that memory ran out.
pub fn push_properties(
    alloc: Global,
    trees: &mut Trees,
    names: &Vec<Name>,
) -> Result<(), AllocError>
    ensures { OnOk result ((x : Js) (ts : List Tree) → trees_of trees.old ≡ Expression x ∷ ts
        → trees_of trees.new ≡ Expression (properties x names.now.items) ∷ ts) }
{
    for name in names {
        push_property(alloc, trees, name)?;
    }
    Ok(())
}

/// Whether the groups define anything.
pub fn has_constant(groups: &Vec<Group>) -> bool
    ensures { result ≡ has_constant (groups_of (map group_view groups.now.items)) }
{
    for group in groups {
        if defines(group) {
            return true;
        }
    }
    false
}

/// Whether a group defines anything.
fn defines(group: &Group) -> bool
    ensures { result ≡ has_constant (groups_of (group_view group.now ∷ [])) }
{
    match group {
        Group::Together(functions) => {
            if functions.len() == 0 {
                return false;
            }
            true
        }
        Group::Constant(_, _) => true,
        Group::Destructure(_, _) => true,
    }
}
