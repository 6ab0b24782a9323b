//! What inference asks of a module, and names give.

ghost use Rattle.std.specs.Prelude.{◌≡◌, []};
ghost use Rattle.elm_tree.specs.Tree as tree;
ghost use Rattle.elm_canon.specs.Tree as canon;
ghost use Rattle.elm_canon.specs.Proper.{Scope};
ghost use Rattle.canon_module.specs.Resolve.{Setting, IsModule, module_faults};
ghost use Rattle.module_proper.specs.Modules.{IsAround, AreRead};
ghost use Rattle.module_proper.specs.Records.{ImportsHaveRecords};
ghost use Rattle.infer.specs.Modules.{CanInfer};

use crate::{annotation_proper_laws as annotations, laws as groups};
use module_proper::laws as names;

/// A resolved module can be inferred where no fault was found in it, where it stands in a scope that has what its
/// imports show, and where the aliases that they show stand for types whose records have words for fields, each once.
pub fn can_infer_law()
    ensures { (s : Setting) (t : tree.Module) (m : canon.Module) (scope : Scope) → IsModule s t.declarations m
        → IsAround s.home s.imports t.declarations scope → AreRead s.home t.declarations
        → ImportsHaveRecords s.imports → module_faults s t m ≡ [] → CanInfer m }
{
    names::module_law();
    annotations::module_law();
    groups::module_law();
}
