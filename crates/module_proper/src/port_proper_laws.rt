//! What holds at the ports of a module in which no fault was found.

ghost use Rattle.std.specs.Prelude.{◌≡◌, [], Some, true};
ghost use Rattle.std.specs.List.{flat_map};
ghost use Rattle.elm_tree.specs.Tree as tree;
ghost use Rattle.elm_tree.specs.Tree.{TypeTree};
ghost use Rattle.elm_canon.specs.Tree as canon;
ghost use Rattle.elm_canon.specs.Tree.{Annotation, Payload};
ghost use Rattle.canon_env.specs.Naming.{World};
ghost use Rattle.canon_env.specs.Sites.{faults_at};
ghost use Rattle.canon_env.specs.Types.{type_of, type_sites};
ghost use Rattle.port_payload.specs.Payloads.{payload_of};
ghost use Rattle.canon_proper.specs.Declared.{IsSpelledType};
ghost use Rattle.canon_module.specs.Resolve.{Setting, IsModule, module_faults, module_shows};
ghost use Rattle.module_proper.specs.Modules.{IsAround, AreRead};
ghost use Rattle.elm_canon.specs.Spelled.{are_fields};
ghost use Rattle.elm_canon.specs.Proper.{Scope};
ghost use Rattle.emit_laws.specs.Programs.{in_ports};
ghost use Rattle.emit_size_laws.specs.Small.{HasFields, PortsHaveFields};
ghost use Rattle.module_proper.specs.Records.{HasRecords, NamesHaveRecords, AliasesHaveRecords, ImportsHaveRecords};

/// What crosses a port has words for the fields of its records, each once, where its type has.
pub fn payload_law()
    ensures { (t : Annotation) (p : Payload) → HasRecords t → payload_of t ≡ Some p → HasFields p }
{}

/// A written type in which no fault was found has words for the fields of its records, each once, where the aliases
/// that it can name have: also where an alias extends a record by fields.
pub fn type_law()
    ensures { (w : World) (t : TypeTree) → NamesHaveRecords w → IsSpelledType t
        → flat_map (faults_at w) (type_sites w t) ≡ [] → HasRecords (type_of w t) }
{}

/// The ports of a resolved module in which no fault was found are as the laws of what is emitted ask, where the aliases
/// that its imports show stand for types whose records have words for fields, each once: so have the records that cross
/// its ports, its incoming ports have words for names, each once, and the aliases that it shows are such aliases again.
pub fn module_law()
    ensures payloads { (s : Setting) (t : tree.Module) (m : canon.Module) → IsModule s t.declarations m
        → AreRead s.home t.declarations → ImportsHaveRecords s.imports → module_faults s t m ≡ []
        → PortsHaveFields m.declarations }
    ensures names { (s : Setting) (t : tree.Module) (m : canon.Module) (scope : Scope) → IsModule s t.declarations m
        → IsAround s.home s.imports t.declarations scope → AreRead s.home t.declarations → module_faults s t m ≡ []
        → are_fields (in_ports m.declarations) ≡ true }
    ensures shown { (s : Setting) (t : tree.Module) (m : canon.Module) → IsModule s t.declarations m
        → AreRead s.home t.declarations → ImportsHaveRecords s.imports → module_faults s t m ≡ []
        → AliasesHaveRecords (module_shows s t m).aliases }
{}
