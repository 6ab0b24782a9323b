//! Which definitions a name is of.

ghost use Rattle.std.specs.Prelude.{◌≡◌, ◌++◌, None, IfOk, OnOk, option_map};
ghost use Rattle.elm_canon.specs.declared.reference.Ref.{Ref as PlainRef};
ghost use Rattle.elm_canon.specs.declared.reference.Ref.TheVariants as ref;
ghost use Rattle.infer_order.specs.Owners.{items_of, numbers_of, nothing, put, put_all};

use elm_base::names::Name;
use elm_canon::reference::Ref;
use indexmap::IndexMap;
use std::alloc::{AllocError, Global};

/// The numbers of the definitions that each name is of. To look a name up costs the same however many there are.
#[derive(Drop)]
pub(crate) struct Owners {
    locals: IndexMap<Name, Vec<u32>>,
    tops: IndexMap<(Name, Name), Vec<u32>>,
}

/// The numbers that are there, or none.
fn or_none(alloc: Global, numbers: Option<Vec<u32>>) -> Vec<u32>
    ensures { result.items ≡ items_of numbers }
{
    match numbers {
        Some(list) => list,
        None => Vec::new(alloc),
    }
}

/// Adds the numbers that are there.
fn push_all(numbers: Option<&Vec<u32>>, found: &mut Vec<u32>) -> Result<(), AllocError>
    ensures { OnOk result (found.new.items ≡ found.old.items ++ items_of (option_map (λ v. v.now) numbers.entry)) }
{
    match numbers {
        Some(list) => {
            found.extend_from_slice(list)?;
            Ok(())
        }
        None => Ok(()),
    }
}

impl Owners {
    /// Of no names.
    #[tactic(auto, unfolding(crate::specs::Owners::numbers_of))]
    pub(crate) fn new(alloc: Global) -> Owners
        ensures { (y : PlainRef) → numbers_of result y ≡ nothing y }
    {
        Owners {
            locals: IndexMap::new(alloc),
            tops: IndexMap::new(alloc),
        }
    }

    /// Adds the number of a definition to those of a local name.
    fn add_local(&mut self, alloc: Global, name: &Name, number: u32) -> Result<(), AllocError>
        ensures { OnOk result ((y : PlainRef)
            → numbers_of self.new y ≡ put (ref.Local name.now) number (numbers_of self.old) y) }
    {
        let mut numbers = or_none(alloc, self.locals.swap_remove(name));
        numbers.push(number)?;
        self.locals.insert(name.clone()?, numbers)?;
        Ok(())
    }

    /// Adds the number of a definition to those of a name of a module.
    fn add_top(
        &mut self,
        alloc: Global,
        home: &Name,
        name: &Name,
        number: u32,
    ) -> Result<(), AllocError>
        ensures { OnOk result ((y : PlainRef)
            → numbers_of self.new y ≡ put (ref.Top home.now name.now) number (numbers_of self.old) y) }
    {
        let key = (home.clone()?, name.clone()?);
        let mut numbers = or_none(alloc, self.tops.swap_remove(&key));
        numbers.push(number)?;
        self.tops.insert(key, numbers)?;
        Ok(())
    }

    /// Adds the number of a definition to those of its name `name`.
    pub(crate) fn add(&mut self, alloc: Global, name: &Ref, number: u32) -> Result<(), AllocError>
        ensures { OnOk result ((y : PlainRef) → numbers_of self.new y ≡ put name.now number (numbers_of self.old) y) }
    {
        match name {
            Ref::Local(local) => self.add_local(alloc, local, number),
            Ref::Top(home, top) => self.add_top(alloc, home, top, number),
        }
    }

    /// Adds the numbers of the definitions that the name `name` is of to `found`.
    #[tactic(auto, unfolding(crate::specs::Owners::numbers_of))]
    pub(crate) fn push(&self, name: &Ref, found: &mut Vec<u32>) -> Result<(), AllocError>
        ensures { OnOk result (found.new.items ≡ found.old.items ++ numbers_of self.now name.now) }
    {
        match name {
            Ref::Local(local) => push_all(self.locals.get(local), found),
            Ref::Top(home, top) => {
                let key = (home.clone()?, top.clone()?);
                push_all(self.tops.get(&key), found)
            }
        }
    }
}
