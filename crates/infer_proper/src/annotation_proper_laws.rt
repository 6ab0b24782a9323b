//! What holds at the annotations of a module in which no fault was found.

ghost use Rattle.std.specs.Prelude.{◌≡◌, []};
ghost use Rattle.std.specs.List.{AllByRecursion};
ghost use Rattle.elm_tree.specs.Tree as tree;
ghost use Rattle.elm_canon.specs.Tree as canon;
ghost use Rattle.canon_module.specs.Resolve.{Setting, IsModule, module_faults};
ghost use Rattle.module_proper.specs.Modules.{AreRead};
ghost use Rattle.module_proper.specs.Records.{ImportsHaveRecords};
ghost use Rattle.type_items.specs.Modules.{declared};
ghost use Rattle.infer_types.specs.Once.{FieldsOnce};
ghost use Rattle.infer_proper.specs.Annotations.{InModule};

/// Each annotation that a resolved module writes has each field of a record once, and so has the type of each of its
/// constructors and ports, where no fault was found in the module and the aliases that its imports show stand for types
/// whose records have words for fields, each once.
pub fn module_law()
    ensures annotations { (s : Setting) (t : tree.Module) (m : canon.Module) → IsModule s t.declarations m
        → AreRead s.home t.declarations → ImportsHaveRecords s.imports → module_faults s t m ≡ []
        → InModule FieldsOnce m }
    ensures declared { (s : Setting) (t : tree.Module) (m : canon.Module) → IsModule s t.declarations m
        → AreRead s.home t.declarations → ImportsHaveRecords s.imports → module_faults s t m ≡ []
        → AllByRecursion (λ d. FieldsOnce d.1) (declared m) }
{}
