//! What holds of the names of each `let`.

ghost use Rattle.std.specs.Prelude.{◌≡◌, List, [], flat_map};
ghost use Rattle.elm_canon.specs.Tree as canon;
ghost use Rattle.elm_tree.specs.Tree as tree;
ghost use Rattle.elm_tree.specs.Tree.{Declaration, Expr};
ghost use Rattle.canon_env.specs.Naming.{World};
ghost use Rattle.canon_env.specs.Locals.{Locals};
ghost use Rattle.canon_env.specs.Sites.{faults_at};
ghost use Rattle.canon_expr.specs.Exprs.{expr_sites, meant};
ghost use Rattle.canon_module.specs.CanonValuesFaults.{value_faults};
ghost use Rattle.canon_module.specs.Items.{value_groups};
ghost use Rattle.canon_module.specs.Resolve.{Setting, IsModule, module_faults};
ghost use Rattle.elm_canon.specs.Apart.{LetsApart};
ghost use Rattle.module_proper.specs.Declarations.{DeclarationsApart};

/// Where no fault was found, the names that the definitions of a `let` bind inside are none of its own names: in an
/// expression, in the values of a module, and in a resolved module.
pub fn lets_law()
    ensures expr { (w : World) (locals : Locals) (e : Expr) → flat_map (faults_at w) (expr_sites w locals e) ≡ []
        → LetsApart (meant w locals e) }
    ensures values { (w : World) (ds : List Declaration) → value_faults w ds ≡ []
        → DeclarationsApart (value_groups w ds) }
    ensures module { (s : Setting) (t : tree.Module) (m : canon.Module) → IsModule s t.declarations m
        → module_faults s t m ≡ [] → DeclarationsApart m.declarations }
{}
