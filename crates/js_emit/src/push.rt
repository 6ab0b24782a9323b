//! Trees that are added whole.

ghost use Rattle.std.specs.Prelude.{◌≡◌, ◌∷◌, OnOk};
ghost use Rattle.js_tree.specs.Tree.{JVar, JProperty, Made};
ghost use Rattle.js_tree.specs.Postorder.{Expression, below, trees_of, expression, top};
ghost use Rattle.js_emit.specs.Names.{js_name, literal_js};

use crate::names::{js_name, units_of};
use elm_base::names::Name;
use elm_canon::reference::Ref;
use elm_canon::tree::Literal;
use js_tree::tree;
use js_tree::tree::Node;
use js_tree::trees::Trees;
use std::alloc::{AllocError, Global};

/// Adds a literal. The error means that memory ran out.
pub fn push_literal(trees: &mut Trees, literal: &Literal) -> Result<(), AllocError>
    ensures { OnOk result (trees_of trees.new ≡ Expression (literal_js literal.now) ∷ trees_of trees.old) }
{
    match literal {
        Literal::Int(number) => trees.push(Node::Int(*number)),
        Literal::Char(units) | Literal::Text(units) => trees.push(Node::Text(units.clone()?)),
    }
}

/// Adds the use of a name of the source. The error means that memory ran out.
pub fn push_name(alloc: Global, trees: &mut Trees, name: &Ref) -> Result<(), AllocError>
    ensures { OnOk result (trees_of trees.new ≡ Expression (JVar (js_name name.now)) ∷ trees_of trees.old) }
{
    trees.push(Node::Var(js_name(alloc, name)?))
}

/// Adds the use of the made name of that number. The error means that memory ran out.
pub fn push_made(trees: &mut Trees, number: u64) -> Result<(), AllocError>
    ensures { OnOk result (trees_of trees.new ≡ Expression (JVar (Made number)) ∷ trees_of trees.old) }
{
    trees.push(Node::Var(tree::Name::Made(number)))
}

/// Makes the last tree the field of that name of what it was. The error means that memory ran out.
pub fn push_property(alloc: Global, trees: &mut Trees, name: &Name) -> Result<(), AllocError>
    ensures { OnOk result (trees_of trees.new
        ≡ Expression (JProperty (expression (top (trees_of trees.old))) name.now) ∷ below (trees_of trees.old)) }
{
    trees.push(Node::Property(units_of(alloc, name)?))
}

/// Drops a node.
fn drop_node(_node: Node) {}

/// Drops the last tree, if there is one.
pub fn drop_last(trees: &mut Trees)
    ensures { trees_of trees.new ≡ below (trees_of trees.old) }
{
    let start = trees.below(trees.len());
    while start < trees.len() {
        if let Some(node) = trees.pop() {
            drop_node(node);
        }
    }
}
