//! What an import lets through without a qualifier.

ghost use Rattle.std.specs.Prelude.{◌≡◌, ◌||◌, false, [], IfOk, OnOk};
ghost use Rattle.indexmap.specs.IndexSet.{contains};
ghost use Rattle.elm_canon.specs.Names.{Name, same_name};
ghost use Rattle.canon_env.specs.Imports.{exposing_view, Everything, These};
ghost use Rattle.canon_env.specs.Filter.{Filters, FiltersMore, filter_value, filter_type, filter_makers};

use crate::import::{Exposed, Exposing};
use elm_base::names::Name;
use indexmap::IndexSet;
use std::alloc::{AllocError, Global};

/// What an import lets through: everything, or what is in these sets.
#[derive(Drop)]
pub struct Filter {
    is_open: bool,
    values: IndexSet<Name>,
    types: IndexSet<Name>,
    /// Unions whose constructors pass.
    makers: IndexSet<Name>,
}

/// Adds a name to a set.
pub(crate) fn insert(names: &mut IndexSet<Name>, name: &Name) -> Result<(), AllocError>
    ensures { OnOk result ((x : Name) → contains same_name names.new x
        ≡ (contains same_name names.old x || same_name x name.now)) }
{
    names.insert(name.clone()?)?;
    Ok(())
}

impl Filter {
    fn new(alloc: Global, is_open: bool) -> Filter
        ensures is_open { result.is_open ≡ is_open }
        ensures none { is_open ≡ false → Filters result (These []) }
    {
        Filter {
            is_open,
            values: IndexSet::new(alloc),
            types: IndexSet::new(alloc),
            makers: IndexSet::new(alloc),
        }
    }

    /// Lets everything through.
    pub fn open(alloc: Global) -> Filter
        ensures { Filters result Everything }
    {
        Filter::new(alloc, true)
    }

    /// Lets one entry more through.
    fn add(&mut self, exposed: &Exposed) -> Result<(), AllocError>
        ensures { OnOk result (FiltersMore self.old self.new exposed.now) }
    {
        match exposed {
            Exposed::Value(name) => insert(&mut self.values, name),
            Exposed::Type(name) => insert(&mut self.types, name),
            Exposed::OpenType(name) => {
                insert(&mut self.types, name)?;
                insert(&mut self.makers, name)
            }
            Exposed::Operator(_) => Ok(()),
        }
    }

    /// Lets these entries through too.
    fn add_all(&mut self, entries: &[Exposed]) -> Result<(), AllocError>
        ensures { OnOk result (Filters self.old (These []) → Filters self.new (These entries.now)) }
    {
        for entry in entries {
            self.add(entry)?;
        }
        Ok(())
    }

    /// Lets these entries through.
    fn these(alloc: Global, entries: &[Exposed]) -> Result<Filter, AllocError>
        ensures { IfOk result (λ f. Filters f (These entries.now)) }
    {
        let mut filter = Filter::new(alloc, false);
        filter.add_all(entries)?;
        Ok(filter)
    }

    /// Lets through what is exposed.
    pub fn of(alloc: Global, exposing: &Exposing) -> Result<Filter, AllocError>
        ensures { IfOk result (λ f. Filters f (exposing_view exposing.now)) }
    {
        match exposing {
            Exposing::Everything => Ok(Filter::open(alloc)),
            Exposing::These(entries) => Filter::these(alloc, entries),
        }
    }

    /// Whether the value passes.
    pub fn passes_value(&self, name: &Name) -> bool
        ensures { result ≡ filter_value self.now name.now }
    {
        self.is_open || self.values.contains(name)
    }

    /// Whether the type passes.
    pub fn passes_type(&self, name: &Name) -> bool
        ensures { result ≡ filter_type self.now name.now }
    {
        self.is_open || self.types.contains(name)
    }

    /// Whether the constructors of the union pass.
    pub fn passes_makers(&self, name: &Name) -> bool
        ensures { result ≡ filter_makers self.now name.now }
    {
        self.is_open || self.makers.contains(name)
    }
}
