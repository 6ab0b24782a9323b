//! Sets of names.

ghost use Rattle.std.specs.Prelude.{◌≡◌, ◌||◌, OnOk};
ghost use Rattle.indexmap.specs.IndexSet.{contains};
ghost use Rattle.elm_canon.specs.Names.{Name, same_name};

use elm_base::names::Name;
use indexmap::IndexSet;
use std::alloc::AllocError;

/// Adds a name to a set.
pub(crate) fn insert(names: &mut IndexSet<Name>, name: Name) -> Result<(), AllocError>
    ensures { OnOk result ((x : Name) → contains same_name names.new x
        ≡ (contains same_name names.old x || same_name x name)) }
{
    names.insert(name)?;
    Ok(())
}
