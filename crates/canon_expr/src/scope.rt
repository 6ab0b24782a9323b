//! The local names in scope.

ghost use Rattle.std.specs.Prelude.{◌≡◌, [], ◌∷◌, Some, if◌then◌else◌, IfOk, OnOk};
ghost use Rattle.elm_tree.specs.View.{word_view, words_view};
ghost use Rattle.elm_tree.specs.Turns.{tokens_view};
ghost use Rattle.canon_env.specs.Imports.{name_of};
ghost use Rattle.canon_env.specs.Locals.{no_locals, with_names};
ghost use Rattle.canon_expr.specs.Scope.{locals_of, without};

use crate::items::put;
use canon_env::finding::place_at;
use canon_env::import::word_name;
use elm_base::names::Name;
use elm_base::position::Pos;
use elm_lexer::token::Token;
use elm_tree::tree::Word;
use indexmap::IndexMap;
use std::alloc::{AllocError, Global};

/// The local names in scope, and where each is bound. To enter a name, to look it up and to leave it costs the same
/// however many are in scope.
#[derive(Drop)]
pub struct Scope {
    places: IndexMap<Name, Pos>,
}

/// A name that was entered, and where it was bound before, if it was.
#[derive(Drop)]
pub struct Entered {
    name: Name,
    outer: Option<Pos>,
}

impl Scope {
    /// A scope without names.
    #[tactic(auto, unfolding(crate::specs::Scope::locals_of))]
    pub fn new(alloc: Global) -> Scope
        ensures { locals_of result ≡ no_locals }
    {
        Scope {
            places: IndexMap::new(alloc),
        }
    }

    /// Where the name `name` is bound. None: it is no local name.
    #[tactic(auto, unfolding(crate::specs::Scope::locals_of))]
    pub fn find(&self, name: &Name) -> Option<Pos>
        ensures { result ≡ locals_of self.now name.now }
    {
        self.places.get(name).copied()
    }

    /// Binds one name.
    fn enter_one(
        &mut self,
        alloc: Global,
        tokens: &[Token<'_>],
        word: Word,
    ) -> Result<Entered, AllocError>
        ensures names { OnOk result (locals_of self.new
            ≡ with_names (word_view (tokens_view tokens.now) word ∷ []) (locals_of self.old)) }
        ensures entered { IfOk result (λ e. without (e ∷ []) (locals_of self.new) ≡ locals_of self.old) }
    {
        let name = word_name(alloc, tokens, word)?;
        let outer = self.places.insert(name.clone()?, place_at(tokens, word))?;
        Ok(Entered { name, outer })
    }

    /// Binds the names that the words `words` spell in the text of the tokens `tokens`, each at its word. Of a name
    /// that stands there twice the first counts. The result is for `leave`. The error means that memory ran out; then
    /// some of the names are bound.
    pub fn enter(
        &mut self,
        alloc: Global,
        tokens: &[Token<'_>],
        words: &[Word],
    ) -> Result<Vec<Entered>, AllocError>
        ensures names { OnOk result (locals_of self.new
            ≡ with_names (words_view (tokens_view tokens.now) words.now) (locals_of self.old)) }
        ensures entered { IfOk result (λ es. without es.items (locals_of self.new) ≡ locals_of self.old) }
    {
        let mut entered = Vec::new(alloc);
        let mut rest = words;
        while let [others @ .., last] = rest {
            put(&mut entered, self.enter_one(alloc, tokens, *last)?)?;
            rest = others;
        }
        Ok(entered)
    }

    /// Binds a name again as it was before it was entered.
    fn restore(&mut self, entered: Entered) -> Result<(), AllocError>
        ensures { OnOk result (locals_of self.new ≡ without (entered ∷ []) (locals_of self.old)) }
    {
        match entered.outer {
            Some(place) => {
                self.places.insert(entered.name, place)?;
            }
            None => {
                self.places.swap_remove(&entered.name);
            }
        }
        Ok(())
    }

    /// Takes the names out of scope that `entered` is of, the last `enter` that was not left yet. Each is bound again
    /// as it was before it. The error means that memory ran out; then some of the names are still bound.
    pub fn leave(&mut self, entered: Vec<Entered>) -> Result<(), AllocError>
        ensures { OnOk result (locals_of self.new ≡ without entered.items (locals_of self.old)) }
    {
        let mut rest = entered;
        while let Some(last) = rest.pop() {
            self.restore(last)?;
        }
        Ok(())
    }
}
