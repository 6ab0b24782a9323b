//! Operations with the values of all their parts.

ghost use Rattle.std.specs.Prelude.{◌≡◌, Err, IfOk, length};
ghost use Rattle.elm_canon.specs.View.{op_view};
ghost use Rattle.type_store.specs.Shape.{IsStore};
ghost use Rattle.type_walks.specs.Links.{Live};
ghost use Rattle.infer_steps.specs.Codes.{Code};
ghost use Rattle.infer_steps.specs.Ready.{AreWritten};
ghost use Rattle.infer_steps.specs.View.{here, bad_view, known_view};
ghost use Rattle.infer_steps.specs.declared.bad.Bad.{Bad};
ghost use Rattle.infer_steps.specs.declared.bad.InferError.TheVariants as error;
ghost use Rattle.infer_steps.specs.Operations.{NamesOnce, BeginsOp, OpStops, first_count};

use crate::build::build;
use elm_base::position::Pos;
use elm_canon::tree::Op;
use infer_steps::bad::InferError;
use infer_steps::known::Known;
use infer_steps::parts::{binary, if_any, list, negation, record, repeated, tuple};
use infer_steps::state::State;
use std::alloc::Global;

/// Begins the operation `op` of `count` parts, which stands at `position` and is wanted at the type of the variable
/// `wanted`, where `known` is declared elsewhere: returns the variables that the parts are wanted at, of a record that
/// is updated that of the record. The errors: what it asks before its parts is bad; memory or numbers ran out.
pub fn begin_op(
    alloc: Global,
    state: &mut State,
    known: &Known,
    op: &Op,
    count: usize,
    position: Pos,
    wanted: u32,
) -> Result<Vec<u32>, InferError>
    requires whole { IsStore (here state.old).store }
    requires known { AreWritten (known_view known.now) }
    requires once { NamesOnce (op_view op.now) }
    requires wanted { Live (here state.old).depth (here state.old).store wanted }
    ensures begins { IfOk result (λ vs. (code : Code) → code.known ≡ known_view known.now
        → BeginsOp code (op_view op.now) count position wanted vs.items (here state.old) (here state.new)) }
    ensures number { IfOk result (λ vs. length vs.items ≡ first_count (op_view op.now) count) }
    ensures stops { (b : Bad) → result ≡ Err (error.Bad b) → (code : Code) → code.known ≡ known_view known.now
        → OpStops code (op_view op.now) count position wanted (here state.old) (here state.new) (bad_view b) }
{
    match op {
        Op::Tuple => tuple(alloc, state, position, count, wanted),
        Op::List => list(alloc, state, position, count, wanted),
        Op::Build(place, union, alternative) => {
            build(
                alloc,
                state,
                known,
                *place,
                union,
                alternative,
                count,
                wanted,
            )
        }
        Op::Record(names) => record(alloc, state, position, names, count, wanted),
        Op::Update(_names) => {
            let owner = repeated(alloc, wanted, 1)?;
            Ok(if_any(alloc, owner, count))
        }
        Op::Negate => negation(alloc, state, position, count, wanted),
        Op::Binary(place, operator) => binary(alloc, state, *place, *operator, count, wanted),
    }
}
