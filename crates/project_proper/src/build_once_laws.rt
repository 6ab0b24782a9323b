//! The outcome of a build is determined.

ghost use Rattle.project_proper.specs.BuildOnce.{OneOutcome};

use crate::made_once_laws::made_law;
use import_graph::module_heads_laws::imports_law;
use project_parts::laws::ordered_law;

/// The files, the entry and the output have one outcome at most.
pub fn outcome_law()
    ensures { OneOutcome }
{
    made_law();
    imports_law();
    ordered_law();
}
