//! The faults of imports: an import exposes what its module does not show.

ghost use Rattle.std.specs.Prelude.{◌≡◌, ◌||◌, ◌++◌, false, map, flat_map, IfOk, OnOk};
ghost use Rattle.indexmap.specs.IndexSet.{contains};
ghost use Rattle.elm_tree.specs.View as tree;
ghost use Rattle.elm_tree.specs.Turns.{tokens_view};
ghost use Rattle.elm_canon.specs.Names.{Name, same_name};
ghost use Rattle.canon_env.specs.Shown as spec;
ghost use Rattle.canon_env.specs.Exposing.{is_among, is_operator, operator_home, shows_union, shows_alias, shows_named, shows};
ghost use Rattle.canon_env.specs.Exposing.{entry_faults, exposing_faults, import_faults, written_view, IsNamesOf};

use crate::filter::insert;
use crate::finding::{Finding, push_finding};
use crate::import::{Exposed, exposed_name, word_name};
use crate::shown::Shown;
use elm_base::fault::Code;
use elm_base::names::Name;
use elm_canon::tree::{AliasDeclaration, UnionDeclaration};
use elm_lexer::token::Token;
use elm_tree::operator::strength_of;
use elm_tree::tree;
use elm_tree::turns::text_at;
use indexmap::IndexSet;
use std::alloc::{AllocError, Global};
use std::sync::Arc;

/// The names that a module shows.
#[derive(Drop)]
pub struct ShownNames {
    values: IndexSet<Name>,
    unions: IndexSet<Name>,
    aliases: IndexSet<Name>,
}

/// The level past that of each operator of the language.
const NO_LEVEL: u8 = 10;

/// `List`
const LIST: [u16; 4] = [76, 105, 115, 116];

/// `Basics`
const BASICS: [u16; 6] = [66, 97, 115, 105, 99, 115];

/// Whether the text is an operator of the language.
fn is_operator(operator: &[u8]) -> bool
    ensures { result ≡ is_operator operator.now }
{
    strength_of(operator).level < NO_LEVEL
}

/// Whether the operator is of the module.
fn is_home(home: &Name, operator: &[u8]) -> bool
    ensures { result ≡ same_name home.now (operator_home operator.now) }
{
    if operator == b"::".as_slice() {
        home.as_slice() == LIST.as_slice()
    } else {
        home.as_slice() == BASICS.as_slice()
    }
}

/// Adds the names of values to a set.
fn insert_values(names: &mut IndexSet<Name>, values: &[Name]) -> Result<(), AllocError>
    ensures { OnOk result ((x : Name) → contains same_name names.new x
        ≡ (contains same_name names.old x || is_among x values.now)) }
{
    for name in values {
        insert(names, name)?;
    }
    Ok(())
}

/// Adds the names of unions to a set.
fn insert_unions(
    names: &mut IndexSet<Name>,
    unions: &[Arc<UnionDeclaration, Global>],
) -> Result<(), AllocError>
    ensures { OnOk result ((x : Name) → contains same_name names.new x
        ≡ (contains same_name names.old x || is_among x (map (λ u. u.name) (spec.unions_view unions.now)))) }
{
    for union in unions {
        insert(names, &union.name)?;
    }
    Ok(())
}

/// Adds the names of aliases to a set.
fn insert_aliases(
    names: &mut IndexSet<Name>,
    aliases: &[Arc<AliasDeclaration, Global>],
) -> Result<(), AllocError>
    ensures { OnOk result ((x : Name) → contains same_name names.new x
        ≡ (contains same_name names.old x || is_among x (map (λ a. a.name) (spec.aliases_view aliases.now)))) }
{
    for alias in aliases {
        insert(names, &alias.name)?;
    }
    Ok(())
}

impl ShownNames {
    /// No names.
    fn new(alloc: Global) -> ShownNames
        ensures values { (x : Name) → contains same_name result.values x ≡ false }
        ensures unions { (x : Name) → contains same_name result.unions x ≡ false }
        ensures aliases { (x : Name) → contains same_name result.aliases x ≡ false }
    {
        ShownNames {
            values: IndexSet::new(alloc),
            unions: IndexSet::new(alloc),
            aliases: IndexSet::new(alloc),
        }
    }

    /// Adds the names that a module shows.
    fn fill(&mut self, shown: &Shown) -> Result<(), AllocError>
        ensures values { OnOk result ((x : Name) → contains same_name self.new.values x
            ≡ (contains same_name self.old.values x || is_among x (spec.shown_view shown.now).values)) }
        ensures unions { OnOk result ((x : Name) → contains same_name self.new.unions x
            ≡ (contains same_name self.old.unions x || shows_union (spec.shown_view shown.now) x)) }
        ensures aliases { OnOk result ((x : Name) → contains same_name self.new.aliases x
            ≡ (contains same_name self.old.aliases x || shows_alias (spec.shown_view shown.now) x)) }
    {
        insert_values(&mut self.values, &shown.values)?;
        insert_unions(&mut self.unions, &shown.unions)?;
        insert_aliases(&mut self.aliases, &shown.aliases)?;
        Ok(())
    }

    /// The names that a module shows.
    fn of(alloc: Global, shown: &Shown) -> Result<ShownNames, AllocError>
        ensures { IfOk result (λ names. IsNamesOf names (spec.shown_view shown.now)) }
    {
        let mut names = ShownNames::new(alloc);
        names.fill(shown)?;
        Ok(names)
    }

    /// Whether the module `home` shows what is exposed of it by a name, or an operator by its text.
    fn shows(&self, home: &Name, text: &[u8], exposed: &Exposed) -> bool
        ensures { (s : spec.Shown) → IsNamesOf self.now s → result
            ≡ shows_named home.now s text.now exposed.now }
    {
        match exposed {
            Exposed::Value(name) => self.values.contains(name),
            Exposed::Type(name) => self.unions.contains(name) || self.aliases.contains(name),
            Exposed::OpenType(name) => self.unions.contains(name),
            Exposed::Operator(_) => is_operator(text) && is_home(home, text),
        }
    }

    /// Whether the module `home` shows what the entry exposes of it.
    fn shows_entry(
        &self,
        alloc: Global,
        tokens: &[Token<'_>],
        home: &Name,
        entry: &tree::Exposed,
    ) -> Result<bool, AllocError>
        ensures { IfOk result (λ b. (s : spec.Shown) → IsNamesOf self.now s → b
            ≡ shows home.now s (tree.exposed_view (tokens_view tokens.now) entry.now)) }
    {
        let exposed = exposed_name(alloc, tokens, entry)?;
        Ok(self.shows(home, text_at(tokens, entry.name), &exposed))
    }

    /// Adds the fault of one entry, if it has one.
    fn push_fault(
        &self,
        alloc: Global,
        tokens: &[Token<'_>],
        home: &Name,
        entry: &tree::Exposed,
        faults: &mut Vec<Finding>,
    ) -> Result<(), AllocError>
        ensures { OnOk result ((s : spec.Shown) → IsNamesOf self.now s → faults.new.items ≡ faults.old.items
            ++ entry_faults home.now s (tree.exposed_view (tokens_view tokens.now) entry.now)) }
    {
        if self.shows_entry(alloc, tokens, home, entry)? {
            Ok(())
        } else {
            push_finding(alloc, tokens, Code::ImportExposing, entry.name, faults)
        }
    }

    /// Adds the faults of entries.
    fn push_faults(
        &self,
        alloc: Global,
        tokens: &[Token<'_>],
        home: &Name,
        entries: &[tree::Exposed],
        faults: &mut Vec<Finding>,
    ) -> Result<(), AllocError>
        ensures { OnOk result ((s : spec.Shown) → IsNamesOf self.now s → faults.new.items ≡ faults.old.items
            ++ flat_map (entry_faults home.now s) (map (tree.exposed_view (tokens_view tokens.now)) entries.now)) }
    {
        for entry in entries {
            self.push_fault(alloc, tokens, home, entry, faults)?;
        }
        Ok(())
    }
}

/// Adds the faults of what is exposed of the module `home`.
fn push_entries_faults(
    alloc: Global,
    tokens: &[Token<'_>],
    home: &Name,
    shown: &Shown,
    entries: &[tree::Exposed],
    faults: &mut Vec<Finding>,
) -> Result<(), AllocError>
    ensures { OnOk result (faults.new.items ≡ faults.old.items
        ++ flat_map (entry_faults home.now (spec.shown_view shown.now))
        (map (tree.exposed_view (tokens_view tokens.now)) entries.now)) }
{
    let names = ShownNames::of(alloc, shown)?;
    names.push_faults(alloc, tokens, home, entries, faults)
}

/// Adds the faults of what an import of the module `home` exposes.
fn push_exposing_faults(
    alloc: Global,
    tokens: &[Token<'_>],
    home: &Name,
    written: &Written<'_>,
    faults: &mut Vec<Finding>,
) -> Result<(), AllocError>
    ensures { OnOk result (faults.new.items ≡ faults.old.items
        ++ exposing_faults home.now (spec.shown_view written.now.shown.now)
        (tree.exposing_view (tokens_view tokens.now) written.now.import.now.exposes)) }
{
    match &written.import.exposes {
        tree::Exposing::Everything => Ok(()),
        tree::Exposing::These(entries) => {
            push_entries_faults(alloc, tokens, home, written.shown, entries, faults)
        }
    }
}

/// Adds the faults of an import.
fn push_import_faults(
    alloc: Global,
    tokens: &[Token<'_>],
    written: &Written<'_>,
    faults: &mut Vec<Finding>,
) -> Result<(), AllocError>
    ensures { OnOk result (faults.new.items ≡ faults.old.items
        ++ import_faults (written_view (tokens_view tokens.now) written.now)) }
{
    let home = word_name(alloc, tokens, written.import.name)?;
    push_exposing_faults(alloc, tokens, &home, written, faults)
}

/// An import as it is written, beside what its module shows.
#[derive(Clone, Copy)]
pub struct Written<'a> {
    pub import: &'a tree::Import,
    pub shown: &'a Shown,
}

/// The faults of imports, in the order in which they are written: each thing that is exposed and that its module does
/// not show. `imports` are those of the text of the tokens `tokens`. The error means that memory ran out.
pub fn import_faults(
    alloc: Global,
    tokens: &[Token<'_>],
    imports: &[Written<'_>],
) -> Result<Vec<Finding>, AllocError>
    ensures { IfOk result (λ v. v.items
        ≡ flat_map import_faults (map (written_view (tokens_view tokens.now)) imports.now)) }
{
    let mut faults = Vec::new(alloc);
    for written in imports {
        push_import_faults(alloc, tokens, written, &mut faults)?;
    }
    Ok(faults)
}
