//! What inference asks of a module, and names give.

ghost use Rattle.std.specs.Prelude.{◌≡◌, []};
ghost use Rattle.std.specs.List.{AllByRecursion};
ghost use Rattle.elm_tree.specs.Tree as tree;
ghost use Rattle.elm_canon.specs.Tree as canon;
ghost use Rattle.elm_canon.specs.Proper.{Scope};
ghost use Rattle.canon_module.specs.Resolve.{Setting, IsModule, module_faults};
ghost use Rattle.module_proper.specs.Modules.{IsAround, AreRead};
ghost use Rattle.module_proper.specs.Records.{ImportsHaveRecords};
ghost use Rattle.infer_proper.specs.Formed.{FormedDeclaration};

/// The groups of a resolved module are as inference asks, where no fault was found in it and the aliases that its
/// imports show stand for types whose records have words for fields, each once.
pub fn module_law()
    ensures { (s : Setting) (t : tree.Module) (m : canon.Module) (scope : Scope) → IsModule s t.declarations m
        → IsAround s.home s.imports t.declarations scope → AreRead s.home t.declarations
        → ImportsHaveRecords s.imports → module_faults s t m ≡ []
        → AllByRecursion FormedDeclaration m.declarations }
{}
