//! How the imports of a text are read.

ghost use Rattle.std.specs.Prelude.{◌≡◌, ℕ, List, map, IfOk};
ghost use Rattle.import_graph.specs.Modules.{Word};
ghost use Rattle.import_graph.specs.Words.{word_view};

use elm_base::position::Pos;
use elm_base::text::Text;
use std::alloc::{AllocError, Global};

/// An import that is written in the text of a module.
#[derive(Debug, Drop)]
pub struct Written {
    /// The name of the module that is imported, with its dots.
    pub name: Text,
    /// Where the name begins.
    pub place: Pos,
}

/// Reads what texts of modules import.
pub trait Reader {
    // The text of a module imports these names, in written order.
    ghost has_imports: { List ℕ → List Word → Type 0 };

    /// What the text of a module imports, in written order. The error means that memory ran out.
    fn imports(&self, alloc: Global, text: &[u8]) -> Result<Vec<Written>, AllocError>
        ensures found { IfOk result (λ v. has_imports text.now (map word_view v.items)) }
        ensures only { IfOk result (λ v. (words : List Word) → has_imports text.now words
            → words ≡ map word_view v.items) };
}
