//! Functions of made names, each of which returns the next.

ghost use Rattle.std.specs.Prelude.{◌≡◌, ◌∷◌, ◌<◌, List, OnOk};
ghost use Rattle.js_tree.specs.Tree.{Stmts};
ghost use Rattle.js_tree.specs.Postorder.{Tree, Expression, BlockOf, trees_of};
ghost use Rattle.js_emit.specs.Names.{made_names, now};
ghost use Rattle.js_emit.specs.Operators.{arrows_of};
ghost use Rattle.js_emit.specs.Open.{opens, arrow_ended};

use js_tree::tree::{Name, Node};
use js_tree::trees::Trees;
use std::alloc::AllocError;

/// Begins so many functions, one within the other. The error means that memory ran out.
pub fn begin_made(trees: &mut Trees, count: usize) -> Result<(), AllocError>
    ensures { OnOk result (trees_of trees.new ≡ opens count (trees_of trees.old)) }
{
    for _ in 0..count {
        trees.push(Node::NoStatement)?;
    }
    Ok(())
}

/// Ends the innermost function, whose parameter has that number.
fn end_one(trees: &mut Trees, number: u64) -> Result<(), AllocError>
    ensures { OnOk result (trees_of trees.new ≡ arrow_ended number (trees_of trees.old)) }
{
    trees.push(Node::Ended)?;
    trees.push(Node::Arrow(Name::Made(number)))
}

/// Ends so many functions, of which there is at least one. The parameter of the first has the number `first`, and the
/// block of the last stands there. The error means that memory or the numbers ran out.
pub fn end_made(trees: &mut Trees, first: u64, count: usize) -> Result<(), AllocError>
    requires some { 0 < count }
    ensures { OnOk result ((s : Stmts) (ts : List Tree) → trees_of trees.old ≡ BlockOf s ∷ opens count ts
        → trees_of trees.new ≡ Expression (now (arrows_of (made_names first count) s)) ∷ ts) }
{
    let Some(mut number) = first.checked_add(count as u64) else {
        return Err(AllocError);
    };
    let mut left = count;
    while left > 1 {
        number -= 1;
        left -= 1;
        end_one(trees, number)?;
        trees.push(Node::Return)?;
    }
    end_one(trees, first)
}
