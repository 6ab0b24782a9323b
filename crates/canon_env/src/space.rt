//! Spaces of names: what each name means with each qualifier.

ghost use Rattle.std.specs.Prelude.{◌≡◌, Some, OnOk, false, if◌then◌else◌};
ghost use Rattle.elm_canon.specs.Names.{Name, same_name};
ghost use Rattle.canon_env.specs.Found.{Nothing, own_or};
ghost use Rattle.canon_env.specs.Space.{entry_view, found_view, named_at, found_at, added, added_all};

use crate::found::{Entry, Meant, Named};
use elm_base::names::Name;
use indexmap::IndexMap;
use std::alloc::{AllocError, Global};

/// Names with one qualifier.
#[derive(Drop)]
pub struct Names<M> {
    by_name: IndexMap<Name, Entry<M>>,
}

/// One space of names, as that of values.
#[derive(Drop)]
pub struct Space<M> {
    by_qualifier: IndexMap<Name, Names<M>>,
}

/// What a name means that meant `old`, and now also a thing of the module `home`.
fn merged<M: Drop>(old: Entry<M>, home: &Name) -> Entry<M>
    ensures { (m : M) → entry_view result ≡ added (entry_view old) (record { home = home.now; meaning = m }) }
{
    match old {
        Entry::One(meant) => {
            if meant.home == *home {
                Entry::One(meant)
            } else {
                Entry::Several
            }
        }
        Entry::Several => Entry::Several,
    }
}

impl<M: Drop> Names<M> {
    fn new(alloc: Global) -> Names<M>
        ensures { (x : Name) → named_at result x ≡ Nothing }
    {
        Names {
            by_name: IndexMap::new(alloc),
        }
    }

    /// Adds a meaning of the name `name`, a thing of the module `home`.
    fn add(&mut self, name: Name, home: &Name, meaning: M) -> Result<(), AllocError>
        ensures { OnOk result ((x : Name) → named_at self.new x ≡
            (if same_name x name then added (named_at self.old x) (record { home = home.now; meaning = meaning })
            else named_at self.old x)) }
    {
        let meant = Meant {
            home: home.clone()?,
            meaning,
        };
        let before = self.by_name.insert(name.clone()?, Entry::One(meant))?;
        if let Some(old) = before {
            self.by_name.insert(name, merged(old, home))?;
        }
        Ok(())
    }

    /// Adds names of the module `home`.
    fn add_each(&mut self, home: &Name, named: Vec<Named<M>>) -> Result<(), AllocError>
        ensures { OnOk result ((x : Name) → named_at self.new x
            ≡ added_all (named_at self.old x) x home.now named.items) }
    {
        for one in named {
            self.add(one.name, home, one.meaning)?;
        }
        Ok(())
    }
}

impl<M: Drop> Space<M> {
    /// A space without names.
    pub fn new(alloc: Global) -> Space<M>
        ensures { (q x : Name) → found_at result q x ≡ Nothing }
    {
        Space {
            by_qualifier: IndexMap::new(alloc),
        }
    }

    /// What the name `name` means with the qualifier `qualifier`, which is empty where there is none. None: nothing
    /// has that name.
    pub fn find(&self, qualifier: &Name, name: &Name) -> Option<&Entry<M>>
        ensures { found_view result ≡ found_at self.now qualifier.now name.now }
    {
        match self.by_qualifier.get(qualifier) {
            Some(names) => names.by_name.get(name),
            None => None,
        }
    }

    /// Takes the names with the qualifier out.
    fn take(&mut self, alloc: Global, qualifier: &Name) -> Names<M>
        ensures taken { (x : Name) → named_at result x ≡ found_at self.old qualifier.now x }
        ensures others { (q x : Name) → same_name q qualifier.now ≡ false → found_at self.new q x
            ≡ found_at self.old q x }
    {
        match self.by_qualifier.swap_remove(qualifier) {
            Some(names) => names,
            None => Names::new(alloc),
        }
    }

    /// Adds names of the module `home` with the qualifier `qualifier`. The error means that memory ran out; then
    /// names are missing.
    pub fn add_all(
        &mut self,
        alloc: Global,
        qualifier: &Name,
        home: &Name,
        named: Vec<Named<M>>,
    ) -> Result<(), AllocError>
        ensures { OnOk result ((q x : Name) → found_at self.new q x ≡
            (if same_name q qualifier.now then added_all (found_at self.old q x) x home.now named.items
            else found_at self.old q x)) }
    {
        let mut names = self.take(alloc, qualifier);
        names.add_each(home, named)?;
        self.by_qualifier.insert(qualifier.clone()?, names)?;
        Ok(())
    }
}

/// What a name means in two spaces, of which the names in the first hide those in the second.
pub fn look<'a, M: Drop>(
    own: &'a Space<M>,
    imported: &'a Space<M>,
    qualifier: &Name,
    name: &Name,
) -> Option<&'a Entry<M>>
    ensures { found_view result
        ≡ own_or (found_at own.now qualifier.now name.now) (found_at imported.now qualifier.now name.now) }
{
    match own.find(qualifier, name) {
        Some(entry) => Some(entry),
        None => imported.find(qualifier, name),
    }
}
