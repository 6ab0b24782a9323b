//! The faults of modules, or the text of their program.

ghost use Rattle.std.specs.Prelude.{◌<◌, length, map, Some, IfOk};
ghost use Rattle.std.specs.List.{zip};
ghost use Rattle.link.specs.Link as links;
ghost use Rattle.link.specs.View as linked;
ghost use Rattle.project_parts.specs.Modules.{Values};
ghost use Rattle.project_parts.specs.Outcomes as outcome;
ghost use Rattle.project_parts.specs.Outcomes.{IsLinked};
ghost use Rattle.project_parts.specs.Laws.{IsBuild};
ghost use Rattle.project_parts.specs.View.{part_view};
ghost use Rattle.elm_make.specs.ProjectCompileView.{value_view};
ghost use Rattle.elm_make.specs.Outcome.{outcome_of, AreOfSources, IsLinkOf};

use crate::faults::all_faults;
use crate::linking::linked_parts;
use elm_base::fault::Fault;
use link::laws::link_law;
use link::part::Part as LinkedPart;
use link::{LinkError, link};
use module_compile::made::Made;
use project_parts::Part;
use project_proper::build_laws::build_law;
use std::alloc::{AllocError, Global};

/// What the modules of a build compile to.
#[derive(Drop)]
pub enum Finished {
    /// The modules or their link have these faults.
    Faulty(Vec<Fault>),
    /// The text of the program.
    Text(Vec<u8>),
}

/// What these modules link to from the one of the number `entry`.
fn linked_from<'a>(
    alloc: Global,
    parts: &'a [LinkedPart<'a>],
    entry: u32,
) -> Result<Finished, AllocError>
    requires within { entry < length parts.now }
    requires sources { AreOfSources (map linked.part_view parts.now) }
    ensures { IfOk result (λ f. IsLinked (links.link (map linked.part_view parts.now) entry) (outcome_of f)) }
{
    link_law();
    match link(alloc, parts, entry) {
        Ok(bytes) => Ok(Finished::Text(bytes)),
        Err(error) => match error {
            LinkError::Faults(faults) => Ok(Finished::Faulty(faults)),
            LinkError::NoMemory => Err(AllocError),
        },
    }
}

/// What the modules of a build link to from the one of the number `entry`, if all are good.
fn linked(
    alloc: Global,
    parts: &[Part<'_>],
    values: &[Option<Made>],
    entry: u32,
) -> Result<Option<Finished>, AllocError>
    requires within { entry < length parts.now }
    requires build { IsBuild (map part_view parts.now) }
    requires values { Values (map part_view parts.now) (map value_view values.now) }
    ensures { IfOk result (IsLinkOf entry
        (outcome.linked_parts (zip (map part_view parts.now) (map value_view values.now)))) }
{
    build_law();
    match linked_parts(alloc, parts, values)? {
        Some(good) => Ok(Some(linked_from(alloc, &good, entry)?)),
        None => Ok(None),
    }
}

/// The faults of all modules of a build in order; or, if all are good, what they link to from the module of the number
/// `entry`: the text of the program, or the faults of the link. `parts` has the modules and `values` what they compile
/// to, in the same order; None stands for a module that is blocked. The error means that memory ran out, or that the
/// text would have 4,294,967,296 bytes or more.
pub fn finish(
    alloc: Global,
    parts: &[Part<'_>],
    values: Vec<Option<Made>>,
    entry: u32,
) -> Result<Finished, AllocError>
    requires within { entry < length parts.now }
    requires build { IsBuild (map part_view parts.now) }
    requires values { Values (map part_view parts.now) (map value_view values.items) }
    ensures { IfOk result (λ f. outcome.IsFinished (map value_view values.items)
        (outcome.linked_parts (zip (map part_view parts.now) (map value_view values.items))) (Some entry)
        (outcome_of f)) }
{
    match linked(alloc, parts, &values, entry)? {
        Some(finished) => Ok(finished),
        None => Ok(Finished::Faulty(all_faults(alloc, values)?)),
    }
}
