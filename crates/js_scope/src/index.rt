//! The place of each name that is bound.

ghost use Rattle.std.specs.Prelude.{◌≡◌, ℕ, OnOk, OnErr};
ghost use Rattle.js_tree.specs.Tree as plain;
ghost use Rattle.js_tree.specs.Postorder.{name_view};
ghost use Rattle.js_scope.specs.Places.{with_place};

use js_tree::tree::Name;
use std::alloc::{AllocError, Global};
use std::collections::BTreeMap;

/// The place of each name that is bound, and 0 for one that is not. A contract sees it by `place_in`, the function that
/// gives a name its place.
#[derive(Drop)]
pub(crate) struct Index<'a> {
    tops: BTreeMap<(&'a [u16], &'a [u16]), usize>,
    locals: BTreeMap<&'a [u16], usize>,
    made: BTreeMap<u64, usize>,
}

impl<'a> Index<'a> {
    ghost use Rattle.js_scope.specs.Index.{place_in};

    /// No name is bound.
    pub(crate) fn new(alloc: Global) -> Index<'a>
        ensures { (x : plain.Name) → place_in result x ≡ 0 }
    {
        Index {
            tops: BTreeMap::new(alloc),
            locals: BTreeMap::new(alloc),
            made: BTreeMap::new(alloc),
        }
    }

    /// The place of a name.
    pub(crate) fn place(&self, name: &'a Name) -> usize
        ensures { result ≡ place_in self.now (name_view name.now) }
    {
        match name {
            Name::Top { module, name } => self
                .tops
                .get(&(module.as_slice(), name.as_slice()))
                .copied()
                .unwrap_or(0),
            Name::Local(name) => self.locals.get(&name.as_slice()).copied().unwrap_or(0),
            Name::Made(number) => self.made.get(number).copied().unwrap_or(0),
        }
    }

    /// Gives a name another place.
    pub(crate) fn set(&mut self, name: &'a Name, place: usize) -> Result<(), AllocError>
        ensures ok { OnOk result (place_in self.new ≡ with_place (name_view name.now) place (place_in self.old)) }
        ensures err { OnErr result (place_in self.new ≡ place_in self.old) }
    {
        match name {
            Name::Top { module, name } => {
                self.tops
                    .insert((module.as_slice(), name.as_slice()), place)?;
            }
            Name::Local(name) => {
                self.locals.insert(name.as_slice(), place)?;
            }
            Name::Made(number) => {
                self.made.insert(*number, place)?;
            }
        }
        Ok(())
    }
}
