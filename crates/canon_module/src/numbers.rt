//! The numbers of a module's declarations by the names of their values.

ghost use Rattle.std.specs.Prelude.{◌≡◌, ◌<◌, ◌^◌, ◌++◌, ◌∷◌, [], List, Option, length, map, filter_map, IfOk, OnOk};
ghost use Rattle.std.specs.List.{All};
ghost use Rattle.elm_lexer.specs.Tokens as lexed;
ghost use Rattle.elm_tree.specs.View.{declaration_view, definition_view};
ghost use Rattle.elm_tree.specs.Turns.{tokens_view};
ghost use Rattle.elm_canon.specs.Names.{Name};
ghost use Rattle.canon_module.specs.Names as names;
ghost use Rattle.canon_module.specs.TopUses as spec;
ghost use Rattle.canon_module.specs.TopUsesKept.{Numbered, one_word};

use crate::written::{Declarations, Written};
use canon_env::import::word_name;
use elm_base::names::Name;
use elm_canon::reference::Ref;
use elm_lexer::token::Token;
use elm_tree::tree::{Declaration, Definition, Word};
use indexmap::IndexMap;
use std::alloc::{AllocError, Global};

/// The number of the first declaration that declares a value of a name. To look one up costs the same however many
/// there are.
#[derive(Drop)]
pub struct Numbers {
    by_name: IndexMap<Name, u32>,
}

/// The word that a definition defines.
fn defined_word(definition: &Definition) -> Option<Word>
    ensures { (tokens : List lexed.Token) → one_word tokens result
        ≡ names.defined_word (definition_view tokens definition.now) }
{
    match definition {
        Definition::Define(name, _, _) => Some(*name),
        Definition::Annotate(_, _) => None,
        Definition::Destructure(_, _) => None,
    }
}

/// The word that a declaration declares as a value.
fn value_word(declaration: &Written<'_>) -> Option<Word>
    ensures { (tokens : List lexed.Token) → one_word tokens result
        ≡ (names.names_of (declaration_view tokens declaration.now)).values }
{
    match declaration.get() {
        Declaration::Value(definition) => defined_word(definition),
        Declaration::Port(name, _) => Some(*name),
        Declaration::Union(_, _, _) => None,
        Declaration::Alias(_, _, _) => None,
    }
}

impl Numbers {
    /// Notes the number of the declaration of a name, unless an earlier one declares it.
    fn add(&mut self, name: Name, number: u32) -> Result<(), AllocError>
        ensures { OnOk result ((each : List (List Name)) → length each ≡ number → Numbered self.old each
            → Numbered self.new (each ++ (name ∷ []) ∷ [])) }
    {
        if self.by_name.contains_key(&name) {
            return Ok(());
        }
        self.by_name.insert(name, number)?;
        Ok(())
    }

    /// Notes the number of a declaration, if it declares a value.
    fn add_declaration(
        &mut self,
        alloc: Global,
        tokens: &[Token<'_>],
        declaration: &Written<'_>,
        number: u32,
    ) -> Result<(), AllocError>
        ensures { OnOk result ((each : List (List Name)) → length each ≡ number → Numbered self.old each
            → Numbered self.new (each ++ spec.value_names (declaration_view (tokens_view tokens.now) declaration.now)
            ∷ [])) }
    {
        match value_word(declaration) {
            Some(word) => self.add(word_name(alloc, tokens, word)?, number),
            None => Ok(()),
        }
    }

    /// The numbers of the declarations `declarations`, which are of the text of the tokens `tokens`. The error means that
    /// memory ran out; so it does where there are 2 ^ 32 declarations or more.
    pub fn of(
        alloc: Global,
        tokens: &[Token<'_>],
        declarations: &Declarations<'_>,
    ) -> Result<Numbers, AllocError>
        ensures numbered { IfOk result (λ n. Numbered n (spec.value_names_each
            (map (declaration_view (tokens_view tokens.now)) declarations.now))) }
        ensures count { OnOk result (length declarations.now < 2 ^ 32) }
    {
        let Ok(count) = u32::try_from(declarations.len()) else {
            return Err(AllocError);
        };
        let mut numbers = Numbers {
            by_name: IndexMap::new(alloc),
        };
        for number in 0..count {
            let declaration = declarations.at(number as usize);
            numbers.add_declaration(alloc, tokens, &declaration, number)?;
        }
        Ok(numbers)
    }

    /// The number of the declaration that a name of the module `home` is of.
    fn find(&self, home: &Name, name: &Ref) -> Option<u32>
        ensures { (each : List (List Name)) → Numbered self.now each
            → result ≡ spec.used_number home.now each name.now }
    {
        match name {
            Ref::Local(_) => None,
            Ref::Top(module, name) => {
                if module == home {
                    self.by_name.get(name).copied()
                } else {
                    None
                }
            }
        }
    }

    /// Adds the number of the declaration that a name of the module `home` is of.
    fn push_used(&self, home: &Name, name: &Ref, numbers: &mut Vec<u32>) -> Result<(), AllocError>
        ensures { OnOk result ((each : List (List Name)) → Numbered self.now each → numbers.new.items
            ≡ numbers.old.items ++ filter_map (spec.used_number home.now each) (name.now ∷ [])) }
    {
        match self.find(home, name) {
            Some(number) => {
                numbers.push(number)?;
                Ok(())
            }
            None => Ok(()),
        }
    }

    /// The declarations of the module `home` that the names `names` are of, in turn. The error means that memory ran out.
    pub fn used(&self, alloc: Global, home: &Name, names: &[Ref]) -> Result<Vec<u32>, AllocError>
        ensures used { IfOk result (λ v. (each : List (List Name)) → Numbered self.now each
            → v.items ≡ spec.used_numbers home.now each names.now) }
        ensures within { IfOk result (λ v. (each : List (List Name)) → Numbered self.now each
            → All (λ j. j < length each) v.items) }
    {
        let mut numbers = Vec::new(alloc);
        for name in names {
            self.push_used(home, name, &mut numbers)?;
        }
        Ok(numbers)
    }
}
