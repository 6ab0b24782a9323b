//! Whether a module declares what its header exposes.

ghost use Rattle.std.specs.Prelude.{◌≡◌, ◌||◌, ◌++◌, List, [], map, flat_map, IfOk, OnOk};
ghost use Rattle.indexmap.specs.IndexSet.{contains};
ghost use Rattle.elm_canon.specs.Names.{Name, same_name};
ghost use Rattle.elm_tree.specs.Tree as tree;
ghost use Rattle.elm_tree.specs.View as tree_view;
ghost use Rattle.elm_tree.specs.Turns.{tokens_view};
ghost use Rattle.canon_env.specs.Imports.{name_of};
ghost use Rattle.canon_env.specs.Exposing.{is_among};
ghost use Rattle.canon_module.specs.Names as spec;
ghost use Rattle.canon_module.specs.Faults.{is_declared, export_fault};
ghost use Rattle.canon_module.specs.View.{names_view, entry_of, IsDeclaredOf};

use crate::names::Names;
use canon_env::finding::{Finding, push_finding};
use canon_env::import::word_name;
use elm_base::fault::Code;
use elm_base::names::Name;
use elm_lexer::token::{Kind, Token};
use elm_tree::tree::{Exposed, Word};
use indexmap::IndexSet;
use std::alloc::{AllocError, Global};

/// What a header may expose.
#[derive(Drop)]
pub(crate) struct Declared {
    values: IndexSet<Name>,
    types: IndexSet<Name>,
    unions: IndexSet<Name>,
}

/// Adds a name to a set.
fn insert(names: &mut IndexSet<Name>, name: &Name) -> Result<(), AllocError>
    ensures { OnOk result ((x : Name) → contains same_name names.new x
        ≡ (contains same_name names.old x || same_name x name.now)) }
{
    names.insert(name.clone()?)?;
    Ok(())
}

/// Adds names to a set.
fn insert_names(names: &mut IndexSet<Name>, more: &[Name]) -> Result<(), AllocError>
    ensures { OnOk result ((x : Name) → contains same_name names.new x
        ≡ (contains same_name names.old x || is_among x more.now)) }
{
    for name in more {
        insert(names, name)?;
    }
    Ok(())
}

/// Adds the name that a word spells to a set.
fn insert_word(
    alloc: Global,
    tokens: &[Token<'_>],
    names: &mut IndexSet<Name>,
    word: Word,
) -> Result<(), AllocError>
    ensures { OnOk result ((x : Name) → contains same_name names.new x ≡ (contains same_name names.old x
        || same_name x (name_of (tree_view.word_view (tokens_view tokens.now) word)))) }
{
    let name = word_name(alloc, tokens, word)?;
    insert(names, &name)
}

/// Adds the names that words spell to a set.
fn insert_words(
    alloc: Global,
    tokens: &[Token<'_>],
    names: &mut IndexSet<Name>,
    words: &[Word],
) -> Result<(), AllocError>
    ensures { OnOk result ((x : Name) → contains same_name names.new x ≡ (contains same_name names.old x
        || is_among x (map name_of (tree_view.words_view (tokens_view tokens.now) words.now)))) }
{
    for word in words {
        insert_word(alloc, tokens, names, *word)?;
    }
    Ok(())
}

/// What an entry of a header exposes by its name.
#[derive(Clone, Copy)]
enum Form {
    Value,
    Type,
    /// `T(..)`
    OpenType,
    Operator,
}

/// What an entry of a header exposes, as its token says. Past the tokens stands an empty name.
fn form_of(tokens: &[Token<'_>], entry: &Exposed) -> Form
    ensures { entry_of result (tree_view.word_view (tokens_view tokens.now) entry.now.name)
        ≡ tree_view.exposed_view (tokens_view tokens.now) entry.now }
{
    let kind = match tokens.get(entry.name.index as usize) {
        Some(token) => token.kind,
        None => Kind::LowerName,
    };
    match kind {
        Kind::UpperName => {
            if entry.is_open {
                Form::OpenType
            } else {
                Form::Type
            }
        }
        Kind::Operator => Form::Operator,
        _ => Form::Value,
    }
}

impl Declared {
    /// Nothing.
    fn new(alloc: Global) -> Declared
        ensures { IsDeclaredOf result [] spec.no_names }
    {
        Declared {
            values: IndexSet::new(alloc),
            types: IndexSet::new(alloc),
            unions: IndexSet::new(alloc),
        }
    }

    /// Adds what a header may expose of a module that declares these names, and has these types without a text.
    fn fill(
        &mut self,
        alloc: Global,
        tokens: &[Token<'_>],
        given: &[Name],
        names: &Names,
    ) -> Result<(), AllocError>
        ensures { OnOk result (IsDeclaredOf self.old [] spec.no_names
            → IsDeclaredOf self.new given.now (names_view (tokens_view tokens.now) names.now)) }
    {
        insert_words(alloc, tokens, &mut self.values, &names.values)?;
        insert_names(&mut self.types, given)?;
        insert_words(alloc, tokens, &mut self.types, &names.types)?;
        insert_words(alloc, tokens, &mut self.unions, &names.unions)
    }

    /// What a header may expose of a module that declares these names, and has these types without a text.
    pub(crate) fn of(
        alloc: Global,
        tokens: &[Token<'_>],
        given: &[Name],
        names: &Names,
    ) -> Result<Declared, AllocError>
        ensures { IfOk result (λ d. IsDeclaredOf d given.now (names_view (tokens_view tokens.now) names.now)) }
    {
        let mut declared = Declared::new(alloc);
        declared.fill(alloc, tokens, given, names)?;
        Ok(declared)
    }

    /// Whether a name is of what is exposed in this form.
    fn has_name(&self, form: Form, name: &Name) -> bool
        ensures { (given : List Name) → (n : spec.Names) → (word : tree.Word) → IsDeclaredOf self.now given n
            → name.now ≡ name_of word → result ≡ is_declared given n (entry_of form word) }
    {
        match form {
            Form::Value => self.values.contains(name),
            Form::Type => self.types.contains(name),
            Form::OpenType => self.unions.contains(name),
            Form::Operator => false,
        }
    }

    /// Whether the module declares what an entry of its header exposes.
    fn has(&self, alloc: Global, tokens: &[Token<'_>], entry: &Exposed) -> Result<bool, AllocError>
        ensures { IfOk result (λ b. (given : List Name) → (n : spec.Names) → IsDeclaredOf self.now given n → b
            ≡ is_declared given n (tree_view.exposed_view (tokens_view tokens.now) entry.now)) }
    {
        let name = word_name(alloc, tokens, entry.name)?;
        Ok(self.has_name(form_of(tokens, entry), &name))
    }

    /// Adds the fault of one entry, if it has one.
    fn push_fault(
        &self,
        alloc: Global,
        tokens: &[Token<'_>],
        entry: &Exposed,
        findings: &mut Vec<Finding>,
    ) -> Result<(), AllocError>
        ensures { OnOk result ((given : List Name) → (n : spec.Names) → IsDeclaredOf self.now given n →
            findings.new.items ≡ findings.old.items
            ++ export_fault given n (tree_view.exposed_view (tokens_view tokens.now) entry.now)) }
    {
        if self.has(alloc, tokens, entry)? {
            Ok(())
        } else {
            push_finding(alloc, tokens, Code::ExportUnknown, entry.name, findings)
        }
    }

    /// Adds the faults of entries.
    pub(crate) fn push_faults(
        &self,
        alloc: Global,
        tokens: &[Token<'_>],
        entries: &[Exposed],
        findings: &mut Vec<Finding>,
    ) -> Result<(), AllocError>
        ensures { OnOk result ((given : List Name) → (n : spec.Names) → IsDeclaredOf self.now given n →
            findings.new.items ≡ findings.old.items
            ++ flat_map (export_fault given n) (map (tree_view.exposed_view (tokens_view tokens.now)) entries.now)) }
    {
        for entry in entries {
            self.push_fault(alloc, tokens, entry, findings)?;
        }
        Ok(())
    }
}
