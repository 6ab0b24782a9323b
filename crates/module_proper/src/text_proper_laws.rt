//! What holds of the module of a text.

ghost use Rattle.std.specs.Prelude.{◌≡◌, ℕ, ◌<◌, ◌^◌, List, [], length, codes, false};
ghost use Rattle.elm_lexer.specs.Tokens.{Token, Tokens};
ghost use Rattle.elm_tree.specs.Tree.{Module};
ghost use Rattle.elm_canon.specs.Names.{Name, same_name};
ghost use Rattle.elm_canon.specs.Tree as canon;
ghost use Rattle.elm_canon.specs.Proper.{Scope};
ghost use Rattle.elm_canon.specs.Declarations.{ProperDeclarations};
ghost use Rattle.canon_module.specs.Resolve.{Setting, IsModule, module_faults};
ghost use Rattle.module_proper.specs.Modules.{IsAround, AreRead};
ghost use Rattle.canon_proper.specs.Spelled.{SpellModule};

/// The declarations of a text have names that can be spelled, of the case that is theirs, and few constructors. (In
/// `Basics` the truth values need more than that.)
pub fn read_law()
    ensures { (text : List ℕ) (tokens : List Token) (t : Module) (home : Name) → Tokens text tokens
        → length text < 2 ^ 32 → SpellModule tokens t → same_name home (codes "Basics") ≡ false
        → AreRead home t.declarations }
{}

/// The module that a text means, where no fault was found in it and what it imports is in scope, has proper declarations,
/// each after those that it uses.
pub fn text_law()
    ensures { (text : List ℕ) (tokens : List Token) (t : Module) (s : Setting) (m : canon.Module) (scope : Scope)
        → Tokens text tokens → length text < 2 ^ 32 → SpellModule tokens t
        → same_name s.home (codes "Basics") ≡ false → IsModule s t.declarations m
        → IsAround s.home s.imports t.declarations scope → module_faults s t m ≡ []
        → ProperDeclarations scope m.declarations }
{}
