//! Which names are looked for.

ghost use Rattle.std.specs.Prelude.{◌≡◌, ◌||◌, IfOk, OnOk};
ghost use Rattle.std.specs.List.{list_any};
ghost use Rattle.indexmap.specs.IndexSet.{contains};
ghost use Rattle.elm_canon.specs.Names.{same_name, Name as PlainName};

use crate::functions::is_operator_function;
use elm_base::names::Name;
use elm_type::ascii::is_text;
use indexmap::IndexSet;
use std::alloc::{AllocError, Global};

/// A test of names.
pub(crate) trait Naming {
    ghost use Rattle.std.specs.Prelude.{Bool};
    ghost use Rattle.elm_canon.specs.Names.{Name as PlainName};

    // Whether a name passes.
    ghost test: { Self → PlainName → Bool };

    /// Whether the name passes.
    fn passes(&self, name: &Name) -> bool
        ensures { result ≡ test self.now name.now };
}

/// The name `main`.
pub(crate) struct MainName;

impl Naming for MainName {
    ghost use Rattle.module_offers.specs.Offers.{is_main};

    ghost test = { λ _ x. is_main x };

    fn passes(&self, name: &Name) -> bool {
        is_text(name, b"main")
    }
}

/// The names that a module shows, and the functions of operators.
#[derive(Drop)]
pub(crate) struct Offered {
    home: Name,
    shown: IndexSet<Name>,
}

impl Naming for Offered {
    ghost use Rattle.std.specs.Prelude.{◌||◌};
    ghost use Rattle.indexmap.specs.IndexSet.{contains};
    ghost use Rattle.elm_canon.specs.Names.{same_name};
    ghost use Rattle.module_offers.specs.Offers.{is_operator_function};

    ghost test = { λ o x. contains same_name o.shown x || is_operator_function o.home x };

    fn passes(&self, name: &Name) -> bool {
        self.shown.contains(name) || is_operator_function(&self.home, name)
    }
}

/// Adds a name to a set.
fn insert(names: &mut IndexSet<Name>, name: &Name) -> Result<(), AllocError>
    ensures { OnOk result ((x : PlainName) → contains same_name names.new x
        ≡ (contains same_name names.old x || same_name x name.now)) }
{
    names.insert(name.clone()?)?;
    Ok(())
}

/// The names as a set.
fn set_of(alloc: Global, names: &[Name]) -> Result<IndexSet<Name>, AllocError>
    ensures { IfOk result (λ s. (x : PlainName) → contains same_name s x ≡ list_any (same_name x) names.now) }
{
    let mut set = IndexSet::new(alloc);
    for name in names {
        insert(&mut set, name)?;
    }
    Ok(set)
}

impl Offered {
    /// The names `shown`, and the functions of operators that the module `home` has.
    pub(crate) fn of(alloc: Global, home: &Name, shown: &[Name]) -> Result<Offered, AllocError>
        ensures home { IfOk result (λ o. o.home ≡ home.now) }
        ensures shown { IfOk result (λ o. (x : PlainName) → contains same_name o.shown x
            ≡ list_any (same_name x) shown.now) }
    {
        Ok(Offered {
            home: home.clone()?,
            shown: set_of(alloc, shown)?,
        })
    }
}
