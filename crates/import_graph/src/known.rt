//! The names that were met, and which modules have them.

ghost use Rattle.std.specs.Prelude.{◌≡◌, ℕ, List, None, Some, OnOk, if◌then◌else◌};
ghost use Rattle.std.specs.Str.{bytes_eq};
ghost use Rattle.import_graph.specs.Walk.{known_at};

use crate::found::Found;
use elm_base::text::Text;
use indexmap::IndexMap;
use std::alloc::{AllocError, Global};

/// The names that were met, and which modules have them.
#[derive(Drop)]
pub(crate) struct Known {
    by_name: IndexMap<Text, Found>,
}

impl Known {
    pub(crate) fn new(alloc: Global) -> Known
        ensures { (x : List ℕ) → known_at result x ≡ None }
    {
        Known {
            by_name: IndexMap::new(alloc),
        }
    }

    /// Which modules have the name, if it was met.
    pub(crate) fn find(&self, name: &Text) -> Option<Found>
        ensures { result ≡ known_at self.now name.now }
    {
        self.by_name.get(name).copied()
    }

    /// Notes which modules have the name.
    pub(crate) fn note(&mut self, name: &Text, found: Found) -> Result<(), AllocError>
        ensures { OnOk result ((x : List ℕ) → known_at self.new x
            ≡ (if bytes_eq name.now x then Some found else known_at self.old x)) }
    {
        self.by_name.insert(name.clone()?, found)?;
        Ok(())
    }
}
