//! What a module lacks of the core library.

ghost use Rattle.std.specs.Prelude.{◌≡◌, option_map, IfOk};
ghost use Rattle.elm_canon.specs.View.{module_view};
ghost use Rattle.canon_env.specs.Order.{IsInOrder};
ghost use Rattle.interface.specs.View.{interface_view};
ghost use Rattle.module_made.specs.Made as spec;
ghost use Rattle.module_compile.specs.Parts.{interfaces_view};
ghost use Rattle.module_compile.specs.ModulePhasesView.{around_view};

use crate::imports::Imports;
use canon_env::finding::Finding;
use elm_base::names::Name;
use elm_base::units::Units;
use elm_canon::tree::Module;
use interface::Interface;
use module_offers::operators::operator_faults;
use std::alloc::{AllocError, Global};

/// `Basics`
const BASICS: [u16; 6] = [66, 97, 115, 105, 99, 115];

/// `List`
const LIST: [u16; 4] = [76, 105, 115, 116];

/// The name of these units.
fn name_of(alloc: Global, units: &[u16]) -> Result<Name, AllocError>
    ensures { IfOk result (λ name. name ≡ units.now) }
{
    let copy = Vec::from_slice(alloc, units)?;
    Name::new(alloc, Units::from_vec(copy))
}

impl Imports {
    /// The interface of the module `home`, if it is imported.
    #[tactic(auto, unfolding(crate::specs::Parts::interfaces_view))]
    fn interface_of(&self, alloc: Global, home: &[u16]) -> Result<Option<&Interface>, AllocError>
        ensures { IfOk result (λ o. option_map (λ i. interface_view i.now) o
            ≡ interfaces_view self.entry.now.interfaces home.now) }
    {
        let name = name_of(alloc, home)?;
        match self.interfaces.get(&name) {
            Some(offered) => Ok(Some(&offered.interface)),
            None => Ok(None),
        }
    }

    /// What the module `module` lacks of what the compiler takes for granted of the core library, in order.
    pub(crate) fn lacking(&self, alloc: Global, module: &Module) -> Result<Vec<Finding>, AllocError>
        ensures { IfOk result (λ v. IsInOrder (spec.lacking (around_view self.now) (module_view module.now)) v.items) }
    {
        let basics = self.interface_of(alloc, &BASICS)?;
        let lists = self.interface_of(alloc, &LIST)?;
        operator_faults(alloc, basics, lists, module)
    }
}
