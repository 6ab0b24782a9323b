//! Parts of expressions: where they stand, and the variables that they are wanted at.

ghost use Rattle.std.specs.Prelude.{◌≡◌, ◌<◌, ◌∷◌, ◌++◌, [], ℕ, Err, IfOk, OnOk, length, map, get_or};
ghost use Rattle.std.specs.List.{AllByRecursion};
ghost use Rattle.elm_canon.specs.View.{op_view};
ghost use Rattle.type_items.specs.Items.{child};
ghost use Rattle.type_store.specs.Shape.{IsStore};
ghost use Rattle.type_walks.specs.Links.{Live};
ghost use Rattle.infer_steps.specs.Codes as plain;
ghost use Rattle.infer_steps.specs.Codes.{Code};
ghost use Rattle.infer_steps.specs.Ready.{Follows};
ghost use Rattle.infer_steps.specs.View.{here, bad_view};
ghost use Rattle.infer_steps.specs.declared.bad.Bad.{Bad};
ghost use Rattle.infer_steps.specs.declared.bad.InferError.TheVariants as error;
ghost use Rattle.infer_steps.specs.Operations.{NamesOnce};
ghost use Rattle.infer_parts.specs.Parts.{later_count, GoesOnAt, StopsOnAt};

use elm_base::position::Pos;
use elm_canon::tree::Op;
use infer_steps::bad::InferError;
use infer_steps::fields::go_on_update;
use infer_steps::state::State;
use std::alloc::{AllocError, Global};

/// The number of a child. The error is that it is not below 2^32.
pub fn number_of(index: usize) -> Result<u32, AllocError>
    ensures { IfOk result (λ n. n ≡ index) }
{
    match u32::try_from(index) {
        Ok(number) => Ok(number),
        Err(_) => Err(AllocError),
    }
}

/// Goes to the child `number` of the child `outer` of the place. The error means that memory ran out.
pub fn enter_both(state: &mut State, outer: u32, number: u32) -> Result<(), AllocError>
    ensures { OnOk result (here state.new
        ≡ record (here state.old) { place = child (child (here state.old).place outer) number }) }
{
    state.enter(outer)?;
    state.enter(number)
}

/// Goes back from a child of a child of a place to the place.
pub fn leave_both(state: &mut State)
    ensures { (s : plain.State) (i j : ℕ) → here state.old ≡ record s { place = child (child s.place i) j }
        → here state.new ≡ s }
{
    state.place.pop();
    state.place.pop();
}

/// Goes back from a child of a place to the place.
pub fn leave_one(state: &mut State)
    ensures { (s : plain.State) (i : ℕ) → here state.old ≡ record s { place = child s.place i } → here state.new ≡ s }
{
    state.place.pop();
}

/// The number `first` and then `rest`. The error means that memory ran out.
fn before(first: u32, rest: Vec<u32>) -> Result<Vec<u32>, AllocError>
    ensures { IfOk result (λ all. all.items ≡ first ∷ rest.items) }
{
    let mut all = rest;
    all.insert(0, first)?;
    Ok(all)
}

/// Goes on with the operation `op`, which stands at `position`, after its part `index` was walked. `variables` are
/// those that its parts are wanted at, as far as they are known; after the record of `{ r | .. }` they are all known.
/// The errors: what is asked then is bad; memory or numbers ran out.
pub fn go_on(
    alloc: Global,
    state: &mut State,
    op: &Op,
    index: usize,
    position: Pos,
    variables: &mut Vec<u32>,
) -> Result<(), InferError>
    requires whole { IsStore (here state.old).store }
    requires once { NamesOnce (op_view op.now) }
    requires some { 0 < length variables.old.items }
    requires live { AllByRecursion (Live (here state.old).depth (here state.old).store) variables.old.items }
    ensures live { OnOk result (AllByRecursion (Live (here state.new).depth (here state.new).store)
        variables.new.items) }
    ensures number { OnOk result (length variables.new.items
        ≡ later_count (op_view op.now) index (length variables.old.items)) }
    ensures follows { OnOk result (Follows (here state.old) (here state.new)) }
    ensures goes { OnOk result ((code : Code) (n : ℕ) → GoesOnAt index code (op_view op.now) n position
        variables.old.items variables.new.items (here state.old) (here state.new)) }
    ensures stops { (b : Bad) → result ≡ Err (error.Bad b) → (code : Code) (n : ℕ)
        → StopsOnAt index code (op_view op.now) n position variables.old.items (here state.old) (here state.new)
        (bad_view b) }
{
    if index > 0 {
        return Ok(());
    }
    match op {
        Op::Update(names) => {
            let first = variables[0];
            match go_on_update(alloc, state, names, position, first) {
                Ok(rest) => {
                    *variables = before(first, rest)?;
                    Ok(())
                }
                Err(error) => Err(error),
            }
        }
        Op::Tuple => Ok(()),
        Op::List => Ok(()),
        Op::Build(_, _, _) => Ok(()),
        Op::Record(_) => Ok(()),
        Op::Negate => Ok(()),
        Op::Binary(_, _) => Ok(()),
    }
}

/// Keeps these variables after the others. The error means that memory ran out.
pub fn keep(kept: &mut Vec<Vec<u32>>, own: Vec<u32>) -> Result<(), AllocError>
    ensures { OnOk result (map (λ vs. vs.items) kept.new.items
        ≡ map (λ vs. vs.items) kept.old.items ++ own.items ∷ []) }
{
    kept.push(own)?;
    Ok(())
}

/// Goes to the child `number` of the child `outer` of the place, keeps these variables after the others, and returns
/// the one with the number `index` among them. The error is that memory or numbers ran out.
pub fn go_inside(
    state: &mut State,
    outer: u32,
    number: usize,
    own: Vec<u32>,
    index: usize,
    kept: &mut Vec<Vec<u32>>,
) -> Result<u32, AllocError>
    requires { index < length own.items }
    ensures variable { IfOk result (λ v. v ≡ get_or own.items index 0) }
    ensures kept { OnOk result (map (λ vs. vs.items) kept.new.items
        ≡ map (λ vs. vs.items) kept.old.items ++ own.items ∷ []) }
    ensures place { OnOk result (here state.new
        ≡ record (here state.old) { place = child (child (here state.old).place outer) number }) }
{
    let place = number_of(number)?;
    enter_both(state, outer, place)?;
    let variable = own[index];
    keep(kept, own)?;
    Ok(variable)
}
