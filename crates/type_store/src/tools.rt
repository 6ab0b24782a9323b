//! The memory that adding to a store needs.

ghost use Rattle.std.specs.Prelude.{◌≡◌, []};
ghost use Rattle.type_store.specs.Adding.{IsIdle};

use crate::ask::Ask;
use crate::change::Change;
use crate::cycle::CycleSearch;
use crate::level::DepthChange;
use std::alloc::Global;

/// What is asked, what is changed, and a search. This memory serves one call after another.
#[derive(Drop)]
pub(crate) struct Tools {
    /// What is asked, and not yet done.
    pub(crate) work: Vec<Ask>,
    /// The slots and kinds that were changed.
    pub(crate) trail: Vec<Change>,
    /// The variables whose cells were changed.
    pub(crate) changed: Vec<u32>,
    /// The variables whose parts are to be made no deeper.
    pub(crate) todo: Vec<u32>,
    /// The depths that were changed, when all that was asked was done.
    pub(crate) depths: Vec<DepthChange>,
    /// The depths that were changed, when a variable was made.
    pub(crate) made: Vec<DepthChange>,
    /// The search for a type that is a part of itself.
    pub(crate) search: CycleSearch,
}

impl Tools {
    /// Nothing is asked.
    pub(crate) fn new(alloc: Global) -> Tools
        ensures idle { IsIdle result }
        ensures work { result.work.items ≡ [] }
        ensures made { result.made.items ≡ [] }
    {
        Tools {
            work: Vec::new(alloc),
            trail: Vec::new(alloc),
            changed: Vec::new(alloc),
            todo: Vec::new(alloc),
            depths: Vec::new(alloc),
            made: Vec::new(alloc),
            search: CycleSearch::new(alloc),
        }
    }
}
