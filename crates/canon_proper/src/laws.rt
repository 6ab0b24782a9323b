//! What names give where no fault was found.

ghost use Rattle.std.specs.Prelude.{◌≡◌, ◌++◌, List, [], flat_map, true};
ghost use Rattle.elm_tree.specs.Tree.{Pattern, Patterns, Expr};
ghost use Rattle.elm_canon.specs.Tree as canon;
ghost use Rattle.canon_env.specs.Uses.{expr_uses, group_uses};
ghost use Rattle.canon_env.specs.Naming.{World};
ghost use Rattle.canon_env.specs.Sites.{faults_at};
ghost use Rattle.canon_env.specs.Locals.{Locals, with_names};
ghost use Rattle.canon_env.specs.Patterns.{pattern_sites, list_sites, pattern_of, patterns_of, words_of_all};
ghost use Rattle.canon_expr.specs.Binding.{is_function};
ghost use Rattle.canon_expr.specs.Exprs.{expr_sites, meant};
ghost use Rattle.elm_canon.specs.Proper as proper;
ghost use Rattle.elm_canon.specs.Proper.{Scope, Binds, BindsAll, Proper, ProperGroup, all_bound_by, with_all};
ghost use Rattle.canon_proper.specs.Narrower.{IsNarrower, KeepsAll};
ghost use Rattle.canon_proper.specs.Patterns.{IsSpelledPattern, AreSpelledPatterns};
ghost use Rattle.canon_proper.specs.Written.{IsSpelled};
ghost use Rattle.canon_proper.specs.Worlds.{HasMakers, HasNames, IsScopeOf, AreMakers};
ghost use Rattle.canon_proper.specs.Rows.{HasRows, AreUnions, HaveUnions};
ghost use Rattle.canon_env.specs.Env.{Known, own_rows, imported_rows};
ghost use Rattle.canon_env.specs.Shown.{Shown};
ghost use Rattle.elm_canon.specs.Names.{Name};

/// A pattern without faults binds new names, and each of its constructors has all its fields.
pub fn pattern_law()
    ensures { (w : World) (locals : Locals) (scope : Scope) (p : Pattern) → HasMakers w → IsScopeOf locals scope
        → IsSpelledPattern p → flat_map (faults_at w) (pattern_sites locals p) ≡ [] → Binds (pattern_of w p) scope }
{}

/// An expression without faults means a proper one: each name is bound where it is used, no local name repeats one in
/// scope, and constructors have their fields.
pub fn expr_law()
    ensures { (w : World) (locals : Locals) (scope : Scope) (e : Expr) → HasMakers w → HasNames w scope
        → IsScopeOf locals scope → IsSpelled e → flat_map (faults_at w) (expr_sites w locals e) ≡ []
        → Proper scope (meant w locals e) }
{}

/// The parameters and the body of a definition without faults: the parameters are new names, the body is proper where
/// they are in scope too, and what is written as a function is one.
pub fn definition_law()
    ensures proper { (w : World) (locals : Locals) (scope : Scope) (ps : Patterns) (e : Expr) → HasMakers w
        → HasNames w scope → IsScopeOf locals scope → AreSpelledPatterns ps → IsSpelled e
        → flat_map (faults_at w) (list_sites locals ps ++ expr_sites w (with_names (words_of_all ps) locals) e) ≡ []
        → BindsAll (patterns_of w ps) scope
        × Proper (with_all (all_bound_by (patterns_of w ps)) scope) (meant w (with_names (words_of_all ps) locals) e) }
    ensures function { (w : World) (locals : Locals) (ps : Patterns) (e : Expr) → is_function ps e ≡ true
        → proper.is_function (patterns_of w ps) (meant w (with_names (words_of_all ps) locals) e) ≡ true }
{}

/// What is proper in a scope is proper in a narrower one that has, of the names of modules that it uses, those that the
/// scope has: so a group of definitions is proper after those that it uses, wherever it is among all names of the
/// module.
pub fn narrower_law()
    ensures expr { (e : canon.Expr) (a b : Scope) → IsNarrower a b → KeepsAll a b (expr_uses e) → Proper a e → Proper b e }
    ensures group { (g : canon.Group) (a b : Scope) → IsNarrower a b → KeepsAll a b (group_uses g) → ProperGroup a g
        → ProperGroup b g }
{}

/// Where the names of its rows are in scope, a module's names are; and where declared unions have constructors of their
/// own, the rows of a module and of its imports have such constructors.
pub fn rows_law()
    ensures names { (w : World) (scope : Scope) → HasRows w scope → HasNames w scope }
    ensures own { (home : Name) (s : Shown) → AreUnions s.unions → AreMakers (own_rows home s).makers }
    ensures imported { (ks : List Known) → HaveUnions ks → AreMakers (imported_rows ks).makers }
{}
