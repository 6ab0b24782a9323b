//! What holds of the tokens of each text, and of the name of each path.

ghost use Rattle.std.specs.Prelude.{◌≡◌, ℕ, ◌≤◌, List, length, true, IsUtf8};
ghost use Rattle.elm_base.specs.Path.{NamesModule};
ghost use Rattle.elm_base.specs.Units.{text_units};
ghost use Rattle.elm_lexer.specs.Tokens.{Token, Tokens};
ghost use Rattle.elm_canon.specs.Spelled.{is_module};
ghost use Rattle.canon_proper.specs.Sound.{AreSound, StandInOrder};

/// Each name and each field is a word that JavaScript can spell, each name begins with a letter of its case, each
/// upper-case name names a module, each integer is exact, and the units of each text and each character are units of
/// UTF-16.
pub fn sound_law()
    ensures { (text : List ℕ) (ts : List Token) → Tokens text ts → AreSound ts }
{}

/// Each token begins before those after it.
pub fn order_law()
    ensures { (text : List ℕ) (ts : List Token) → Tokens text ts → StandInOrder ts }
{}

/// A text has no more tokens than bytes.
pub fn count_law()
    ensures { (text : List ℕ) (ts : List Token) → Tokens text ts → length ts ≤ length text }
{}

/// The name of a module by its path is one that can be spelled.
pub fn path_law()
    ensures { (path name : List ℕ) → IsUtf8 path → NamesModule path name → is_module true (text_units name) ≡ true }
{}
