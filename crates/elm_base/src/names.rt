//! Names, by their UTF-16 units.
ghost use Rattle.std.specs.Prelude.{◌≡◌, IfOk, Some, nat_eq, refl};
ghost use Rattle.std.specs.Ordering.{nat_cmp};
ghost use Rattle.std.specs.Hash as fed;
ghost use Rattle.std.specs.Cmp.Lexicographic.{pointwise, slice_cmp, nat_list_eq_equiv, nat_list_cmp_total, texts_ties};
ghost use Rattle.std.specs.Cmp.Lexicographic.{texts_po};
ghost use Rattle.std.specs.Cmp.{partial_equiv_from_equiv};
ghost use Rattle.std.proofs.Common.{rules};
ghost use Rattle.std.specs.Cmp.Rules.{hashing};
ghost use Rattle.elm_base.specs.Units.{text_units};

use crate::units;
use crate::units::Units;
use std::alloc::{AllocError, Global};
use std::cmp::Ordering;
use std::hash::{Hash, Hasher};
use std::marker::Model;
use std::sync::Arc;

/// A name, which any number of trees and threads may share. A contract sees it as the list of its UTF-16 units.
///
/// Two names are equal when their units are, and names are ordered by their units. A clone is the same text once more
/// and copies nothing; it fails only after 2 to the 63rd clones.
#[derive(Drop)]
pub struct Name {
    units: Arc<Units, Global>,
}

impl Model for Name {
    ghost use Rattle.std.specs.Prelude.{List, ℕ};

    ghost Value = { List ℕ };

    ghost view = { λ n. n.units.value };
}

impl Name {
    /// The name of the units `units`. The error means that memory ran out.
    pub fn new(alloc: Global, units: Units) -> Result<Name, AllocError>
        ensures { IfOk result (λ name. name ≡ units) }
    {
        Ok(Name {
            units: Arc::new(alloc, units)?,
        })
    }

    /// The name that the text `text` spells. The error means that memory ran out.
    pub fn of_text(alloc: Global, text: &str) -> Result<Name, AllocError>
        ensures { IfOk result (λ name. name ≡ text_units text.now) }
    {
        Name::new(alloc, units::text_units(alloc, text)?)
    }

    /// The units of the name.
    pub fn as_slice(&self) -> &[u16]
        ensures { result.now ≡ self.now }
    {
        self.units.as_slice()
    }
}

impl Clone for Name {
    ghost is_clone = { λ name copy. copy ≡ name };

    fn clone(&self) -> Result<Name, AllocError> {
        Ok(Name {
            units: Arc::try_clone(&self.units)?,
        })
    }
}

impl PartialEq for Name {
    ghost eq = { pointwise nat_eq };

    ghost laws = { partial_equiv_from_equiv nat_list_eq_equiv };

    fn eq(&self, other: &Name) -> bool {
        self.as_slice() == other.as_slice()
    }
}

impl Eq for Name {
    ghost laws = { nat_list_eq_equiv };
}

impl PartialOrd for Name {
    ghost partial_cmp = { λ x y. Some (slice_cmp nat_cmp x y) };

    ghost laws = { texts_po };

    fn partial_cmp(&self, other: &Name) -> Option<Ordering> {
        Some(self.cmp(other))
    }
}

impl Ord for Name {
    ghost cmp = { slice_cmp nat_cmp };

    ghost total = { nat_list_cmp_total };

    ghost matches_partial_cmp = { λ x y. refl };

    ghost matches_eq = { texts_ties };

    fn cmp(&self, other: &Name) -> Ordering {
        self.as_slice().cmp(&other.as_slice())
    }
}

impl Hash for Name {
    ghost hash_input = { fed.slice fed.u16 };

    ghost respects_eq = { Prim.search (hashing, rules) };

    fn hash<H: Hasher>(&self, state: &mut H) {
        self.as_slice().hash(state);
    }
}
