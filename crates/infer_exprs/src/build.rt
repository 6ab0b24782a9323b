//! Constructors with all their fields.

ghost use Rattle.std.specs.Prelude.{◌≡◌, Err, IfOk, length};
ghost use Rattle.elm_base.specs.declared.position.Pos.{Pos};
ghost use Rattle.elm_canon.specs.Tree.{Build};
ghost use Rattle.type_store.specs.Shape.{IsStore};
ghost use Rattle.type_walks.specs.Links.{Live};
ghost use Rattle.infer_steps.specs.Codes.{Code};
ghost use Rattle.infer_steps.specs.Ready.{AreWritten};
ghost use Rattle.infer_steps.specs.View.{here, bad_view, known_view};
ghost use Rattle.infer_steps.specs.declared.bad.Bad.{Bad};
ghost use Rattle.infer_steps.specs.declared.bad.InferError.TheVariants as error;
ghost use Rattle.infer_steps.specs.Operations.{BeginsOp, OpStops, first_count};

use elm_base::position::Pos;
use elm_canon::unions::{Alternative, Union};
use infer_patterns::shape::infer_shape;
use infer_steps::ask::same;
use infer_steps::bad::InferError;
use infer_steps::known::Known;
use infer_steps::make;
use infer_steps::state::State;
use std::alloc::Global;

/// Begins the constructor `alternative` of the union `union` with `count` fields, where `known` is declared elsewhere.
/// Its name stands at `place`, and it is wanted at the type of the variable `wanted`. Returns the variables that the
/// fields are wanted at. The errors: the constructor makes no such value of so many fields; memory or numbers ran out.
pub fn build(
    alloc: Global,
    state: &mut State,
    known: &Known,
    place: Pos,
    union: &Union,
    alternative: &Alternative,
    count: usize,
    wanted: u32,
) -> Result<Vec<u32>, InferError>
    requires whole { IsStore (here state.old).store }
    requires known { AreWritten (known_view known.now) }
    requires wanted { Live (here state.old).depth (here state.old).store wanted }
    ensures begins { IfOk result (λ vs. (code : Code) (position : Pos) → code.known ≡ known_view known.now
        → BeginsOp code (Build place union.now alternative.now) count position wanted vs.items (here state.old)
        (here state.new)) }
    ensures number { IfOk result (λ vs. length vs.items ≡ first_count (Build place union.now alternative.now) count) }
    ensures stops { (b : Bad) → result ≡ Err (error.Bad b) → (code : Code) (position : Pos)
        → code.known ≡ known_view known.now
        → OpStops code (Build place union.now alternative.now) count position wanted (here state.old)
        (here state.new) (bad_view b) }
{
    let parts = make::open_each(alloc, state, count)?;
    let made = match infer_shape(alloc, state, known, place, union, alternative) {
        Ok(made) => made,
        Err(error) => return Err(error),
    };
    let made_function = make::functions(alloc, state, &made.parts, made.result)?;
    let asked = make::functions(alloc, state, &parts, wanted)?;
    match same(state, place, made_function, asked) {
        Ok(()) => Ok(parts),
        Err(error) => Err(error),
    }
}
