//! The constants of an annotated definition in a store.

ghost use Rattle.std.specs.Prelude.{◌≡◌, ◌<◌, None, length, IfOk, IfSome, OnOk};
ghost use Rattle.std.specs.List.{All};
ghost use Rattle.type_store.specs.Shape.{IsStore};
ghost use Rattle.type_schemes.specs.Calls.{AreNew, CanLetGo, EscapesAt, LetsGo, Opens};
ghost use Rattle.type_schemes.specs.Constants.{Distinct, IsFree};

use elm_type::rigid::Rigid;
use std::alloc::{AllocError, Global};
use type_store::laws::choice_law;
use type_store::store::Store;

/// Makes a variable for each of the constants `rigids`, which no variable has yet, inside `depth` definitions, and
/// returns their numbers in the same order. The error is that memory or numbers ran out.
pub fn open_constants(
    alloc: Global,
    store: &mut Store,
    rigids: &[Rigid],
    depth: u32,
) -> Result<Vec<u32>, AllocError>
    requires whole { IsStore store.old }
    requires new { AreNew store.old rigids.now }
    requires distinct { Distinct rigids.now }
    ensures { IfOk result (λ slots. Opens depth rigids.now store.old slots.items store.new) }
{
    let mut slots = Vec::new(alloc);
    for rigid in rigids {
        let slot = store.constant(rigid.clone()?, depth)?;
        slots.push(slot)?;
    }
    Ok(slots)
}

/// The place in `slots` of the first variable that is no deeper than `depth` definitions: so the type of a variable
/// around has its constant. None, if all are deeper.
pub fn escaped(store: &Store, slots: &[u32], depth: u32) -> Option<usize>
    requires { All (λ v. v < length store.now) slots.now }
    ensures free { result ≡ None → All (IsFree depth store.now) slots.now }
    ensures first { IfSome result (λ i. EscapesAt depth store.now slots.now i) }
{
    for at in 0..slots.len() {
        if store.depth(store.root(slots[at])) <= depth {
            return Some(at);
        }
    }
    None
}

/// Lets the constants of the variables `slots` go. The error is that memory ran out: then only some are let go.
pub fn let_go(store: &mut Store, slots: &[u32]) -> Result<(), AllocError>
    requires whole { IsStore store.old }
    requires inside { All (λ v. v < length store.old) slots.now }
    requires own { CanLetGo store.old slots.now }
    ensures { OnOk result (LetsGo store.old slots.now store.new) }
{
    choice_law();
    for slot in slots {
        let root = store.root(*slot);
        store.loosen(root)?;
    }
    Ok(())
}
