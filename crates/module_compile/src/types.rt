//! The types of what the imports of a module offer.

ghost use Rattle.std.specs.Prelude.{◌≡◌, IfOk, OnOk, Some};
ghost use Rattle.elm_canon.specs.Names.{same_name};
ghost use Rattle.elm_type.specs.Types.{Name as PlainName};
ghost use Rattle.interface.specs.View.{interface_view};
ghost use Rattle.infer_steps.specs.View.{known_view};
ghost use Rattle.infer.specs.Laws.{with_offered};
ghost use Rattle.module_offers.specs.Offers.{known_by};
ghost use Rattle.module_compile.specs.Parts.{interfaces_view};
ghost use Rattle.module_compile.specs.ModulePhasesView.{around_view};

use crate::imports::Imports;
use crate::offered::Offered;
use elm_base::names::Name;
use infer::infer_known_types::offered_types;
use infer_steps::known::Known;
use std::alloc::{AllocError, Global};
use std::sync::Arc;

/// Adds the types of what the module `home` offers.
fn push_types(
    alloc: Global,
    home: &Name,
    offered: &Arc<Offered, Global>,
    known: &mut Known,
) -> Result<(), AllocError>
    ensures { OnOk result ((m x : PlainName) → known_view known.new m x
        ≡ with_offered home.now (interface_view offered.now.value.interface) (known_view known.old) m x) }
{
    let types = offered_types(alloc, home, &offered.interface)?;
    known.insert(home.clone()?, types)
}

impl Imports {
    /// The types of what the modules that are imported offer. The error means that memory or numbers ran out.
    pub fn types(&self, alloc: Global) -> Result<Known, AllocError>
        ensures { IfOk result (λ known. known_view known ≡ known_by (around_view self.now).interfaces) }
    {
        let mut known = Known::new(alloc);
        for k in (0..self.interfaces.len()).rev() {
            if let Some((home, offered)) = self.interfaces.get_index(k) {
                push_types(alloc, home, offered, &mut known)?;
            }
        }
        Ok(known)
    }
}
