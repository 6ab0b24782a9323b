//! Which definition of a block binds a name, by the place where it is bound.

ghost use Rattle.std.specs.Prelude.{◌≡◌, ◌<◌, ◌^◌, ◌++◌, ◌∷◌, [], List, length, map, filter_map, IfOk, OnOk};
ghost use Rattle.std.specs.List.{All};
ghost use Rattle.elm_tree.specs.Tree as tree;
ghost use Rattle.elm_tree.specs.View.{words_view, definition_view};
ghost use Rattle.elm_tree.specs.Turns.{tokens_view};
ghost use Rattle.canon_env.specs.Naming as naming;
ghost use Rattle.canon_env.specs.Sites.{Site};
ghost use Rattle.canon_expr.specs.Logs.{Grows};
ghost use Rattle.canon_expr.specs.declared.log.Log as logs;
ghost use Rattle.canon_expr.specs.Binding as spec;
ghost use Rattle.canon_expr.specs.Kept.{Binds};

use crate::bound_words::bound_by;
use crate::items::put;
use crate::log::Log;
use canon_env::finding::place_at;
use elm_base::position::Pos;
use elm_lexer::token::Token;
use elm_tree::tree::{Definition, Word};
use indexmap::IndexMap;
use std::alloc::{AllocError, Global};

/// The number of the first definition that binds a name at a place. To look one up costs the same however many there
/// are.
#[derive(Drop)]
pub struct Binders {
    places: IndexMap<Pos, u32>,
}

/// How many definitions there are. The error is that there are 2 ^ 32 or more.
fn count_of(definitions: &[Definition]) -> Result<u32, AllocError>
    ensures count { IfOk result (λ n. n ≡ length definitions.now) }
    ensures few { OnOk result (length definitions.now < 2 ^ 32) }
{
    match u32::try_from(definitions.len()) {
        Ok(count) => Ok(count),
        Err(_) => Err(AllocError),
    }
}

impl Binders {
    /// Notes that a definition binds a name at a place, unless an earlier one does.
    fn add_one(&mut self, place: Pos, number: u32) -> Result<(), AllocError>
        ensures { OnOk result ((each : List (List tree.Word)) (xs : List tree.Word) (x : tree.Word) → x.place ≡ place
            → length each ≡ number → Binds self.old (each ++ xs ∷ []) → Binds self.new (each ++ (xs ++ x ∷ []) ∷ [])) }
    {
        if self.places.contains_key(&place) {
            return Ok(());
        }
        self.places.insert(place, number)?;
        Ok(())
    }

    /// Notes that a definition binds these words.
    fn add(&mut self, tokens: &[Token<'_>], words: &[Word], number: u32) -> Result<(), AllocError>
        ensures { OnOk result ((each : List (List tree.Word)) → length each ≡ number → Binds self.old each
            → Binds self.new (each ++ words_view (tokens_view tokens.now) words.now ∷ [])) }
    {
        for word in words {
            self.add_one(place_at(tokens, *word), number)?;
        }
        Ok(())
    }

    /// Notes that a definition binds its names.
    fn add_definition(
        &mut self,
        alloc: Global,
        tokens: &[Token<'_>],
        definition: &Definition,
        number: u32,
    ) -> Result<(), AllocError>
        ensures { OnOk result ((each : List (List tree.Word)) → length each ≡ number → Binds self.old each
            → Binds self.new (each ++ spec.bound_by (definition_view (tokens_view tokens.now) definition.now) ∷ [])) }
    {
        let words = bound_by(alloc, tokens, definition)?;
        self.add(tokens, &words, number)
    }

    /// Those of the definitions `definitions`, which are of the text of the tokens `tokens`. The error means that
    /// memory ran out; so it does where there are 2 ^ 32 definitions or more.
    pub fn of(
        alloc: Global,
        tokens: &[Token<'_>],
        definitions: &[Definition],
    ) -> Result<Binders, AllocError>
        ensures binds { IfOk result (λ b. Binds b (spec.bound_by_each
            (tree.definitions_of (map (definition_view (tokens_view tokens.now)) definitions.now)))) }
        ensures count { OnOk result (length definitions.now < 2 ^ 32) }
    {
        let count = count_of(definitions)?;
        let mut binders = Binders {
            places: IndexMap::new(alloc),
        };
        for number in 0..count {
            binders.add_definition(alloc, tokens, &definitions[number as usize], number)?;
        }
        Ok(binders)
    }

    /// The number of the definition that binds a name at the place `place`.
    fn find(&self, place: Pos) -> Option<u32>
        ensures { (each : List (List tree.Word)) → Binds self.now each → result ≡ spec.binder_of each place }
    {
        self.places.get(&place).copied()
    }

    /// Adds the definition that binds a name at a place.
    fn push_binder(&self, place: Pos, numbers: &mut Vec<u32>) -> Result<(), AllocError>
        ensures { OnOk result ((each : List (List tree.Word)) → Binds self.now each → numbers.new.items
            ≡ numbers.old.items ++ filter_map (spec.binder_of each) (place ∷ [])) }
    {
        match self.find(place) {
            Some(number) => put(numbers, number),
            None => Ok(()),
        }
    }

    /// The definitions that bind names at these places, in turn.
    fn among(&self, alloc: Global, places: &[Pos]) -> Result<Vec<u32>, AllocError>
        ensures { IfOk result (λ v. (each : List (List tree.Word)) → Binds self.now each →
            v.items ≡ filter_map (spec.binder_of each) places.now) }
    {
        let mut numbers = Vec::new(alloc);
        for place in places {
            self.push_binder(*place, &mut numbers)?;
        }
        Ok(numbers)
    }

    /// The definitions that are used at the sites that were noted in the log `log` since it had `start` uses of local
    /// names, in turn. The error means that memory ran out.
    pub fn used_since(&self, alloc: Global, log: &Log, start: usize) -> Result<Vec<u32>, AllocError>
        ensures used { IfOk result (λ v. (each : List (List tree.Word)) (w : naming.World) (old : logs.Log)
            (sites : List Site) → Binds self.now each → length old.uses.items ≡ start → Grows w old log.now sites
            → v.items ≡ filter_map (spec.used_definition w each) sites) }
        ensures within { IfOk result (λ v. (each : List (List tree.Word)) → Binds self.now each
            → All (λ j. j < length each) v.items) }
    {
        if start > log.uses.len() {
            return Ok(Vec::new(alloc));
        }
        self.among(alloc, &log.uses[start..])
    }
}
