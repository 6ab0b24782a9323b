//! What holds of a module in which no fault was found.

ghost use Rattle.std.specs.Prelude.{◌≡◌, List, [], map};
ghost use Rattle.elm_canon.specs.Names.{Name};
ghost use Rattle.elm_canon.specs.declared.reference.Ref.{Ref};
ghost use Rattle.elm_canon.specs.Tree as canon;
ghost use Rattle.elm_tree.specs.Tree as tree;
ghost use Rattle.elm_tree.specs.Tree.{Declaration};
ghost use Rattle.canon_env.specs.Naming.{World};
ghost use Rattle.canon_type.specs.Unions.{unions_in, union_of};
ghost use Rattle.canon_module.specs.Items.{value_groups};
ghost use Rattle.canon_module.specs.CanonValuesFaults.{value_faults};
ghost use Rattle.canon_module.specs.Resolve.{Setting, IsModule, module_faults, module_shows};
ghost use Rattle.elm_canon.specs.Proper.{Scope, among, with_all};
ghost use Rattle.elm_canon.specs.Declarations.{ProperDeclarations, after_declarations};
ghost use Rattle.canon_proper.specs.Rows.{AreUnions};
ghost use Rattle.canon_proper.specs.Declared.{AreSpelledDeclarations};
ghost use Rattle.module_proper.specs.Modules.{IsBefore, IsAround, IsOffered, AreRead, AreBare, HasAll};
ghost use Rattle.module_proper.specs.Modules.{value_refs, maker_refs};
ghost use Rattle.module_proper.specs.Counted.{AllHaveFew};
ghost use Rattle.module_proper.specs.Inside.{AllInside};

/// The groups of a module's values, ports among them, are proper in order where no fault was found: each value and port
/// is a new name, each name is bound before it is used, or with functions that use each other, and what reaches itself
/// is a function. After them each value of the module is in scope.
pub fn values_law()
    ensures proper { (w : World) (ds : List Declaration) (scope : Scope) → IsBefore w ds scope
        → AreSpelledDeclarations ds → value_faults w ds ≡ [] → ProperDeclarations scope (value_groups w ds) }
    ensures all { (w : World) (ds : List Declaration) (scope : Scope) → IsBefore w ds scope
        → AreSpelledDeclarations ds → value_faults w ds ≡ [] → (r : Ref)
        → among r (after_declarations (value_groups w ds) scope) ≡ among r (with_all (value_refs w.name ds) scope) }
{}

/// The declarations of a resolved module are proper in order where no fault was found: its constructors, and then its
/// groups of values. Each is a new name, and all that the module declares is in scope after them. Each is proper where
/// all of this is in scope.
pub fn module_law()
    ensures proper { (s : Setting) (t : tree.Module) (m : canon.Module) (scope : Scope) → IsModule s t.declarations m
        → IsAround s.home s.imports t.declarations scope → AreRead s.home t.declarations → module_faults s t m ≡ []
        → ProperDeclarations scope m.declarations }
    ensures all { (s : Setting) (t : tree.Module) (m : canon.Module) (scope : Scope) → IsModule s t.declarations m
        → IsAround s.home s.imports t.declarations scope → AreRead s.home t.declarations → module_faults s t m ≡ []
        → (r : Ref) → among r (after_declarations m.declarations scope)
        ≡ among r (with_all (value_refs s.home t.declarations) (with_all (maker_refs s.home t.declarations) scope)) }
    ensures inside { (s : Setting) (t : tree.Module) (m : canon.Module) (scope : Scope) → IsModule s t.declarations m
        → IsAround s.home s.imports t.declarations scope → AreRead s.home t.declarations → module_faults s t m ≡ []
        → AllInside (with_all (value_refs s.home t.declarations) (with_all (maker_refs s.home t.declarations) scope))
        m.declarations }
{}

/// What a module shows is in scope where all that it declares is, and the constructors of the unions that it shows are
/// constructors of these: so modules that import it stand in a scope that has what they need of it.
pub fn shown_law()
    ensures { (s : Setting) (t : tree.Module) (m : canon.Module) (scope : Scope) → IsModule s t.declarations m
        → AreRead s.home t.declarations → AreBare s.given → HasAll scope (value_refs s.home t.declarations)
        → HasAll scope (maker_refs s.home t.declarations) → IsOffered s.home (module_shows s t m) scope }
{}

/// Unions that are written, of few constructors with few fields, have constructors of their own: each has its own tag,
/// and all tags are of one kind.
pub fn unions_law()
    ensures { (home : Name) (w : World) (ds : List Declaration) → AllHaveFew home ds
        → AreUnions (map (union_of home w) (unions_in ds)) }
{}
