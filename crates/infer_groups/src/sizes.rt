//! The size of the type of a definition.

ghost use Rattle.std.specs.Prelude.{◌≡◌, ◌<◌, Err, length, OnOk};
ghost use Rattle.type_store.specs.Shape.{IsStore};
ghost use Rattle.type_constructs.specs.Failing as failing;
ghost use Rattle.infer_steps.specs.View.{bad_view};
ghost use Rattle.infer_steps.specs.declared.bad.Bad.{Bad as PlainBad};
ghost use Rattle.infer_steps.specs.declared.bad.InferError.TheVariants as error;
ghost use Rattle.infer_groups.specs.Defined.{IsSmallIn, IsLargeIn};

use elm_base::position::Pos;
use infer_steps::bad::{Bad, InferError};
use std::alloc::Global;
use type_constructs::told_reading_laws::reading_law;
use type_schemes::sizes::size;
use type_store::store::Store;

/// So many nodes a type may have.
const LIMIT: u64 = 65536;

/// Asks that the type of the variable `variable` has no more nodes than a type may have. The errors: it has; memory or
/// numbers ran out.
pub fn check_size(
    alloc: Global,
    store: &Store,
    position: Pos,
    variable: u32,
) -> Result<(), InferError>
    requires whole { IsStore store.now }
    requires inside { variable < length store.now }
    ensures small { OnOk result (IsSmallIn store.now variable) }
    ensures what { (b : PlainBad) → result ≡ Err (error.Bad b) → bad_view b ≡ failing.Large position variable }
    ensures large { (b : PlainBad) → result ≡ Err (error.Bad b) → IsLargeIn store.now variable }
{
    reading_law();
    let nodes = size(alloc, store, variable)?;
    if nodes > LIMIT {
        return Err(InferError::Bad(Bad::Large(position, variable)));
    }
    Ok(())
}
