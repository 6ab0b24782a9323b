//! What holds of the imports of any text.

ghost use Rattle.std.specs.Prelude.{◌≡◌, ℕ, List};
ghost use Rattle.import_graph.specs.Heads.{HasImports};
ghost use Rattle.import_graph.specs.Modules.{Word};

use elm_lexer::laws::tokens_law;
use elm_parser::laws::front_law;

/// A text imports one list of names.
pub fn imports_law()
    ensures { (text : List ℕ) (words others : List Word) → HasImports text words → HasImports text others → words
        ≡ others }
{
    tokens_law();
    front_law();
}
