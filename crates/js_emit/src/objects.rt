//! Objects, field by field.

ghost use Rattle.std.specs.Prelude.{◌≡◌, ◌∷◌, OnOk, codes};
ghost use Rattle.js_tree.specs.Tree.{JInt, JObject, NoField};
ghost use Rattle.js_tree.specs.Postorder.{Expression, MembersOf, Member, NoMember, below};
ghost use Rattle.js_tree.specs.Postorder.{trees_of, expression, members};
ghost use Rattle.js_tree.specs.Postorder.{members_then, top};
ghost use Rattle.js_emit.specs.Names.{part_name};

use crate::names::{part_name, units_of};
use elm_base::names::Name;
use elm_base::units::Units;
use js_tree::tree::Node;
use js_tree::trees::Trees;
use std::alloc::{AllocError, Global};

/// Begins an object with that tag. The error means that memory ran out.
pub fn begin_tagged(alloc: Global, trees: &mut Trees, tag: i64) -> Result<(), AllocError>
    ensures { OnOk result (trees_of trees.new
        ≡ MembersOf (Member NoMember (codes "$") (JInt tag)) ∷ trees_of trees.old) }
{
    let mut name = Vec::with_capacity(alloc, 1)?;
    name.push(36u16)?;
    trees.push(Node::NoField)?;
    trees.push(Node::Int(tag))?;
    trees.push(Node::Field(Units::from_vec(name)))
}

/// Makes the last tree the part of that number, after the fields before it. The error means that memory ran out.
pub fn add_numbered(alloc: Global, trees: &mut Trees, number: usize) -> Result<(), AllocError>
    ensures { OnOk result (trees_of trees.new
        ≡ MembersOf (Member (members (top (below (trees_of trees.old)))) (part_name number)
        (expression (top (trees_of trees.old)))) ∷ below (below (trees_of trees.old))) }
{
    trees.push(Node::Field(part_name(alloc, number)?))
}

/// Makes the last tree the field of that name, after the fields before it. The error means that memory ran out.
pub fn add_named(alloc: Global, trees: &mut Trees, name: &Name) -> Result<(), AllocError>
    ensures { OnOk result (trees_of trees.new
        ≡ MembersOf (Member (members (top (below (trees_of trees.old)))) name.now
        (expression (top (trees_of trees.old)))) ∷ below (below (trees_of trees.old))) }
{
    trees.push(Node::Field(units_of(alloc, name)?))
}

/// Makes the fields an object. The error means that memory ran out.
pub fn end_object(trees: &mut Trees) -> Result<(), AllocError>
    ensures { OnOk result (trees_of trees.new
        ≡ Expression (JObject (members_then (members (top (trees_of trees.old))) NoField))
        ∷ below (trees_of trees.old)) }
{
    trees.push(Node::Object)
}
