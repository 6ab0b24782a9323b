//! What holds of the modules of each project.

ghost use Rattle.elm_make.specs.Counts.{OneCount};

use import_graph::module_heads_laws::imports_law;

/// A build of one outcome compiles one number of modules.
pub fn count_law()
    ensures { OneCount }
{
    imports_law();
}
