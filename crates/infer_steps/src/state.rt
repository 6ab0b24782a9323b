//! Where inference is in the tree of a module.

ghost use Rattle.std.specs.Prelude.{◌≡◌, ◌++◌, ◌∷◌, [], IfOk, OnOk};
ghost use Rattle.type_items.specs.Items.{child};
ghost use Rattle.infer_steps.specs.Codes as plain;
ghost use Rattle.infer_steps.specs.View.{here};

use std::alloc::{AllocError, Global};
use type_store::store::Store;

/// Where inference is: the variables so far, inside how many definitions, and the place in the tree of the module, as
/// the numbers of children from the root on.
#[derive(Drop)]
pub struct State {
    pub store: Store,
    pub depth: u32,
    pub place: Vec<u32>,
}

impl State {
    /// A state without variables, at the root and inside no definition.
    pub fn new(alloc: Global) -> State
        ensures { here result ≡ record { store = []; depth = 0; place = [] } }
    {
        State {
            store: Store::new(alloc),
            depth: 0,
            place: Vec::new(alloc),
        }
    }

    /// Goes to the child `number` of the place. The error means that memory ran out.
    pub fn enter(&mut self, number: u32) -> Result<(), AllocError>
        ensures { OnOk result (here self.new ≡ record (here self.old) { place = child (here self.old).place number }) }
    {
        self.place.push(number)?;
        Ok(())
    }

    /// Goes back from the child `number` of a place to the place.
    pub fn leave(&mut self, number: u32)
        ensures { (s : plain.State) → here self.old ≡ record s { place = child s.place number } → here self.new ≡ s }
    {
        self.place.pop();
    }
}
