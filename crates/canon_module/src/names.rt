//! The names that a module declares.

ghost use Rattle.std.specs.Prelude.{◌≡◌, ◌++◌, ◌∷◌, List, [], map, IfOk, OnOk};
ghost use Rattle.elm_lexer.specs.Tokens as lexed;
ghost use Rattle.elm_tree.specs.Tree as tree;
ghost use Rattle.elm_tree.specs.View as tree_view;
ghost use Rattle.canon_module.specs.Names as spec;
ghost use Rattle.canon_module.specs.View.{names_view};

use crate::written::{Declarations, Written};
use elm_tree::tree::{Constructor, Declaration, Definition, TypeTree, Word};
use std::alloc::{AllocError, Global};

/// The names that a module declares, each list in written order.
#[derive(Drop)]
pub struct Names {
    /// Definitions and ports.
    pub values: Vec<Word>,
    pub ports: Vec<Word>,
    /// Unions and aliases.
    pub types: Vec<Word>,
    pub unions: Vec<Word>,
    /// Of unions, and of aliases that are written as closed records.
    pub constructors: Vec<Word>,
}

/// Whether a type is written as a closed record.
#[tactic(auto, using(elm_tree::proofs::Views::variable_type, elm_tree::proofs::Views::named_type, elm_tree::proofs::Views::function_type, elm_tree::proofs::Views::tuple_type, elm_tree::proofs::Views::record_of_type))]
fn is_closed_record(written: &TypeTree) -> bool
    ensures { (tokens : List lexed.Token) → result
        ≡ spec.is_closed_record (tree_view.type_view tokens written.now) }
{
    match written {
        TypeTree::Variable(_) => false,
        TypeTree::Named(_, _) => false,
        TypeTree::Function(_) => false,
        TypeTree::Tuple(_) => false,
        TypeTree::Record(base, _) => base.is_none(),
    }
}

/// Adds a word.
fn push_word(words: &mut Vec<Word>, word: Word) -> Result<(), AllocError>
    ensures { OnOk result (words.new.items ≡ words.old.items ++ word ∷ []) }
{
    words.push(word)?;
    Ok(())
}

/// Adds the name that a definition defines.
#[tactic(auto, using(elm_tree::proofs::Views::annotate_definition, elm_tree::proofs::Views::define_definition, elm_tree::proofs::Views::destructure_definition))]
fn push_defined(words: &mut Vec<Word>, definition: &Definition) -> Result<(), AllocError>
    ensures { OnOk result ((tokens : List lexed.Token) → tree_view.words_view tokens words.new.items
        ≡ tree_view.words_view tokens words.old.items
        ++ spec.defined_word (tree_view.definition_view tokens definition.now)) }
{
    match definition {
        Definition::Define(name, _, _) => push_word(words, *name),
        Definition::Annotate(_, _) => Ok(()),
        Definition::Destructure(_, _) => Ok(()),
    }
}

/// Adds the names of constructors.
fn push_constructors(words: &mut Vec<Word>, constructors: &[Constructor]) -> Result<(), AllocError>
    ensures { OnOk result ((tokens : List lexed.Token) → tree_view.words_view tokens words.new.items
        ≡ tree_view.words_view tokens words.old.items
        ++ spec.constructor_words (map (tree_view.constructor_view tokens) constructors.now)) }
{
    for constructor in constructors {
        push_word(words, constructor.name)?;
    }
    Ok(())
}

impl Names {
    fn new(alloc: Global) -> Names
        ensures { (tokens : List lexed.Token) → names_view tokens result ≡ spec.no_names }
    {
        Names {
            values: Vec::new(alloc),
            ports: Vec::new(alloc),
            types: Vec::new(alloc),
            unions: Vec::new(alloc),
            constructors: Vec::new(alloc),
        }
    }

    /// Adds the name of a definition.
    fn push_value(&mut self, definition: &Definition) -> Result<(), AllocError>
        ensures { OnOk result ((tokens : List lexed.Token) → names_view tokens self.new
            ≡ spec.join (names_view tokens self.old)
            (spec.names_of (tree.Value (tree_view.definition_view tokens definition.now)))) }
    {
        push_defined(&mut self.values, definition)
    }

    /// Adds the name of a port.
    fn push_port(&mut self, name: Word) -> Result<(), AllocError>
        ensures { OnOk result ((tokens : List lexed.Token) → (t : tree.TypeTree) → names_view tokens self.new
            ≡ spec.join (names_view tokens self.old)
            (spec.names_of (tree.Port (tree_view.word_view tokens name) t))) }
    {
        push_word(&mut self.values, name)?;
        push_word(&mut self.ports, name)
    }

    /// Adds the names of a union.
    fn push_union(&mut self, name: Word, constructors: &[Constructor]) -> Result<(), AllocError>
        ensures { OnOk result ((tokens : List lexed.Token) → (ps : List tree.Word) → names_view tokens self.new
            ≡ spec.join (names_view tokens self.old)
            (spec.names_of (tree.Union (tree_view.word_view tokens name) ps
            (map (tree_view.constructor_view tokens) constructors.now)))) }
    {
        push_word(&mut self.types, name)?;
        push_word(&mut self.unions, name)?;
        push_constructors(&mut self.constructors, constructors)
    }

    /// Adds the names of an alias.
    fn push_alias(&mut self, name: Word, written: &TypeTree) -> Result<(), AllocError>
        ensures { OnOk result ((tokens : List lexed.Token) → (ps : List tree.Word) → names_view tokens self.new
            ≡ spec.join (names_view tokens self.old)
            (spec.names_of (tree.Alias (tree_view.word_view tokens name) ps (tree_view.type_view tokens written.now)))) }
    {
        push_word(&mut self.types, name)?;
        if is_closed_record(written) {
            push_word(&mut self.constructors, name)
        } else {
            Ok(())
        }
    }

    /// Adds the names of one declaration.
    fn push(&mut self, declaration: &Written<'_>) -> Result<(), AllocError>
        ensures { OnOk result ((tokens : List lexed.Token) → names_view tokens self.new
            ≡ spec.join (names_view tokens self.old)
            (spec.names_of (tree_view.declaration_view tokens declaration.now))) }
    {
        match declaration.get() {
            Declaration::Value(definition) => self.push_value(definition),
            Declaration::Port(name, _) => self.push_port(*name),
            Declaration::Union(name, _, constructors) => self.push_union(*name, constructors),
            Declaration::Alias(name, _, written) => self.push_alias(*name, written),
        }
    }

    /// Adds the names of declarations.
    fn fill(&mut self, declarations: &Declarations<'_>) -> Result<(), AllocError>
        ensures { OnOk result ((tokens : List lexed.Token) → names_view tokens self.new
            ≡ spec.join (names_view tokens self.old)
            (spec.names_in (map (tree_view.declaration_view tokens) declarations.now))) }
    {
        for number in 0..declarations.len() {
            let declaration = declarations.at(number);
            self.push(&declaration)?;
        }
        Ok(())
    }

    /// The names that these declarations declare, of whatever tokens they are. The error means that memory ran out.
    pub fn of(alloc: Global, declarations: &Declarations<'_>) -> Result<Names, AllocError>
        ensures { IfOk result (λ n. (tokens : List lexed.Token) → names_view tokens n
            ≡ spec.names_in (map (tree_view.declaration_view tokens) declarations.now)) }
    {
        let mut names = Names::new(alloc);
        names.fill(declarations)?;
        Ok(names)
    }
}
