//! The places of pieces by the names that they declare.

ghost use Rattle.std.specs.Prelude.{◌≡◌, ◌<◌, ◌^◌, ◌++◌, ◌∷◌, [], List, length, map, IfOk, OnOk};
ghost use Rattle.std.specs.List.{All, filter_map};
ghost use Rattle.decl_groups.specs.Groups.{plain};
ghost use Rattle.link.specs.Names.{TopName};
ghost use Rattle.link.specs.Kept.{Numbered};
ghost use Rattle.link.specs.Reached.{place_of, places_used};
ghost use Rattle.link.specs.View.{placed_view};

use crate::names::pair_of;
use crate::pieces::Placed;
use elm_base::names::Name;
use indexmap::IndexMap;
use std::alloc::{AllocError, Global};

/// The place of the first piece that declares a name. To look one up costs the same however many there are.
#[derive(Drop)]
pub(crate) struct Places {
    by_name: IndexMap<(Name, Name), u32>,
}

impl Places {
    /// Notes the place of a piece that declares a name, unless one before it does.
    fn add(&mut self, name: &(Name, Name), place: u32) -> Result<(), AllocError>
        ensures { OnOk result ((each : List (List TopName)) (ns : List TopName) → length each ≡ place
            → Numbered self.old (each ++ ns ∷ []) → Numbered self.new (each ++ (ns ++ name.now ∷ []) ∷ [])) }
    {
        if self.by_name.contains_key(name) {
            return Ok(());
        }
        let key = pair_of(&name.0, &name.1)?;
        self.by_name.insert(key, place)?;
        Ok(())
    }

    /// Notes the place of a piece that declares these names.
    fn add_all(&mut self, names: &[(Name, Name)], place: u32) -> Result<(), AllocError>
        ensures { OnOk result ((each : List (List TopName)) → length each ≡ place → Numbered self.old each
            → Numbered self.new (each ++ names.now ∷ [])) }
    {
        for name in names {
            self.add(name, place)?;
        }
        Ok(())
    }

    /// The places of the pieces `pieces`. The error means that memory ran out; so it does where there are 2 ^ 32 pieces
    /// or more.
    pub(crate) fn of(alloc: Global, pieces: &[Placed<'_>]) -> Result<Places, AllocError>
        ensures numbered { IfOk result (λ p. Numbered p (map (λ d. d.piece.names) (map placed_view pieces.now))) }
        ensures count { OnOk result (length pieces.now < 2 ^ 32) }
    {
        let Ok(count) = u32::try_from(pieces.len()) else {
            return Err(AllocError);
        };
        let mut places = Places {
            by_name: IndexMap::new(alloc),
        };
        for place in 0..count {
            let piece = pieces[place as usize].piece;
            places.add_all(&piece.names, place)?;
        }
        Ok(places)
    }

    /// The place of the first piece that declares a name.
    pub(crate) fn find(&self, name: &(Name, Name)) -> Option<u32>
        ensures { (each : List (List TopName)) → Numbered self.now each → result ≡ place_of each name.now }
    {
        self.by_name.get(name).copied()
    }

    /// Adds the place of the piece that declares a name, if one does.
    fn push_used(&self, name: &(Name, Name), places: &mut Vec<u32>) -> Result<(), AllocError>
        ensures { OnOk result ((each : List (List TopName)) → Numbered self.now each → places.new.items
            ≡ places.old.items ++ filter_map (place_of each) (name.now ∷ [])) }
    {
        match self.find(name) {
            Some(place) => {
                places.push(place)?;
                Ok(())
            }
            None => Ok(()),
        }
    }

    /// The places of the pieces that declare these names, in turn.
    fn used(&self, alloc: Global, names: &[(Name, Name)]) -> Result<Vec<u32>, AllocError>
        ensures used { IfOk result (λ v. (each : List (List TopName)) → Numbered self.now each
            → v.items ≡ filter_map (place_of each) names.now) }
        ensures within { IfOk result (λ v. (each : List (List TopName)) → Numbered self.now each
            → All (λ j. j < length each) v.items) }
    {
        let mut places = Vec::with_capacity(alloc, names.len())?;
        for name in names {
            self.push_used(name, &mut places)?;
        }
        Ok(places)
    }

    /// The places of the pieces that each piece uses.
    pub(crate) fn all_used(
        &self,
        alloc: Global,
        pieces: &[Placed<'_>],
    ) -> Result<Vec<Vec<u32>>, AllocError>
        ensures used { IfOk result (λ rows. (each : List (List TopName)) → Numbered self.now each
            → plain rows.items ≡ places_used each (map (λ d. d.piece.uses) (map placed_view pieces.now))) }
        ensures within { IfOk result (λ rows. (each : List (List TopName)) → Numbered self.now each
            → All (λ row. All (λ j. j < length each) row.items) rows.items) }
    {
        let mut rows = Vec::with_capacity(alloc, pieces.len())?;
        for placed in pieces {
            let piece = placed.piece;
            let row = self.used(alloc, &piece.uses)?;
            rows.push(row)?;
        }
        Ok(rows)
    }
}
