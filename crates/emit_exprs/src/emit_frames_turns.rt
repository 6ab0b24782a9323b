//! The next turn of a loop.

ghost use Rattle.std.specs.Prelude.{◌≡◌, ◌+◌, [], ◌∷◌, ◌++◌, List, length, OnOk};
ghost use Rattle.js_tree.specs.Tree.{Js, Made};
ghost use Rattle.js_tree.specs.Postorder.{Tree, Expression, BlockOf, StatementsOf, ConstThen, Before, trees_of};
ghost use Rattle.js_tree.specs.Postorder.{statements_then};
ghost use Rattle.js_emit.specs.Loops.{variables, assigns};
ghost use Rattle.emit_exprs.specs.Turns.{loop_view};
ghost use Rattle.emit_exprs.specs.Frames.{pairs};

use crate::loops::{Loop, first_variable};
use crate::made::next_made;
use js_emit::push::push_made;
use js_tree::tree::{Name, Node};
use js_tree::trees::Trees;
use std::alloc::AllocError;

/// Makes the last tree the constant with the made name `number`, which is added to `numbers`. The error means that
/// memory ran out.
pub fn keep_value(trees: &mut Trees, number: u64, numbers: &mut Vec<u64>) -> Result<(), AllocError>
    ensures constant { OnOk result ((x : Js) (before : Before) (ts : List Tree)
        → trees_of trees.old ≡ Expression x ∷ StatementsOf before ∷ ts
        → trees_of trees.new ≡ StatementsOf (ConstThen before (Made number) x) ∷ ts) }
    ensures numbers { OnOk result (numbers.new.items ≡ numbers.old.items ++ number ∷ []) }
{
    trees.push(Node::Const(Name::Made(number)))?;
    numbers.push(number)?;
    Ok(())
}

/// Ends the statements that stand last with the next turn of the loop `place`, whose variables get the constants of
/// these numbers. The error means that memory ran out.
pub fn end_turn(trees: &mut Trees, place: &Loop, numbers: &Vec<u64>) -> Result<(), AllocError>
    ensures { OnOk result ((before : Before) (ts : List Tree)
        → length numbers.now.items ≡ length (variables (loop_view place.now))
        → trees_of trees.old ≡ StatementsOf before ∷ ts
        → trees_of trees.new ≡ BlockOf (statements_then before
        (assigns (pairs (variables (loop_view place.now)) numbers.now.items))) ∷ ts) }
{
    let mut variable = first_variable(place);
    for number in numbers {
        let to = next_made(&mut variable)?;
        push_made(trees, *number)?;
        trees.push(Node::Assign(Name::Made(to)))?;
    }
    trees.push(Node::Continue)?;
    trees.push(Node::Ended)
}
