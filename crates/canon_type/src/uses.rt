//! Which aliases of a module the names in a type mean.

ghost use Rattle.std.specs.Prelude.{◌≡◌, [], ◌∷◌, ◌<◌, ◌^◌, ◌++◌, List, length, map, flat_map, filter_map, IfOk};
ghost use Rattle.std.specs.Prelude.{option_map, OnOk};
ghost use Rattle.elm_lexer.specs.Tokens as lexed;
ghost use Rattle.elm_tree.specs.View as tree;
ghost use Rattle.elm_tree.specs.View.{word_view, long_view, declaration_view};
ghost use Rattle.elm_tree.specs.Turns.{tokens_view};
ghost use Rattle.elm_canon.specs.Names.{Name, same_name};
ghost use Rattle.decl_groups.specs.Groups.{plain};
ghost use Rattle.canon_env.specs.Imports.{name_of};
ghost use Rattle.canon_type.specs.Written.{alias_names, union_name_in, union_names_in};
ghost use Rattle.canon_type.specs.Recursion.{alias_place, place_of_name, alias_uses};
ghost use Rattle.canon_type.specs.Kept.{Keeps, aliases_view, places_in, field_places};

use crate::aliases::WrittenAlias;
use crate::outcomes::when_done;
use crate::sets::insert;
use canon_env::import::word_name;
use canon_env::long::long_name;
use elm_base::names::Name;
use elm_lexer::token::Token;
use elm_tree::tree::{Declaration, FieldType, TypeTree, Word};
use indexmap::{IndexMap, IndexSet};
use std::alloc::{AllocError, Global};

/// The names of a module's unions, and the places of its aliases among them. To look one up costs the same however
/// many there are.
#[derive(Drop)]
pub struct OwnNames {
    unions: IndexSet<Name>,
    places: IndexMap<Name, u32>,
}

/// Whether a name has no units.
fn is_empty(name: &Name) -> bool
    ensures { result ≡ same_name name.now [] }
{
    name.as_slice().is_empty()
}

/// The name of the union that a declaration is, if it is one.
fn union_name(declaration: &Declaration) -> Option<Word>
    ensures { (tokens : List lexed.Token) → option_map (λ x. name_of (word_view tokens x)) result
        ≡ union_name_in (declaration_view tokens declaration.now) }
{
    match declaration {
        Declaration::Value(_) => None,
        Declaration::Port(_, _) => None,
        Declaration::Union(name, _, _) => Some(*name),
        Declaration::Alias(_, _, _) => None,
    }
}

impl OwnNames {
    /// Notes the name of a union.
    fn add_union(&mut self, name: Name) -> Result<(), AllocError>
        ensures { OnOk result ((unions aliases : List Name) → Keeps self.old unions aliases
            → Keeps self.new (unions ++ name ∷ []) aliases) }
    {
        insert(&mut self.unions, name)
    }

    /// Notes the name of the alias at a place, unless an earlier one has it.
    fn add_alias(&mut self, name: Name, place: u32) -> Result<(), AllocError>
        ensures { OnOk result ((unions aliases : List Name) → length aliases ≡ place → Keeps self.old unions aliases
            → Keeps self.new unions (aliases ++ name ∷ [])) }
    {
        if self.places.contains_key(&name) {
            return Ok(());
        }
        self.places.insert(name, place)?;
        Ok(())
    }

    /// Notes the names of the unions among declarations.
    fn add_unions(
        &mut self,
        alloc: Global,
        tokens: &[Token<'_>],
        declarations: &[Declaration],
    ) -> Result<(), AllocError>
        ensures { OnOk result (Keeps self.old [] [] → Keeps self.new
            (union_names_in (map (declaration_view (tokens_view tokens.now)) declarations.now)) []) }
    {
        for declaration in declarations {
            match union_name(declaration) {
                Some(name) => self.add_union(word_name(alloc, tokens, name)?)?,
                None => {}
            }
        }
        Ok(())
    }

    /// Notes the names of aliases, and their places.
    fn add_aliases(
        &mut self,
        alloc: Global,
        tokens: &[Token<'_>],
        aliases: &[WrittenAlias<'_>],
    ) -> Result<(), AllocError>
        ensures names { OnOk result ((unions : List Name) → Keeps self.old unions []
            → Keeps self.new unions (alias_names (aliases_view (tokens_view tokens.now) aliases.now))) }
        ensures count { OnOk result (length aliases.now < 2 ^ 32) }
    {
        let Ok(count) = u32::try_from(aliases.len()) else {
            return Err(AllocError);
        };
        for place in 0..count {
            let name = word_name(alloc, tokens, aliases[place as usize].name)?;
            self.add_alias(name, place)?;
        }
        Ok(())
    }

    /// Notes the names of the unions among declarations, and those of aliases with their places.
    fn add_all(
        &mut self,
        alloc: Global,
        tokens: &[Token<'_>],
        declarations: &[Declaration],
        aliases: &[WrittenAlias<'_>],
    ) -> Result<(), AllocError>
        ensures names { OnOk result (Keeps self.old [] [] → Keeps self.new
            (union_names_in (map (declaration_view (tokens_view tokens.now)) declarations.now))
            (alias_names (aliases_view (tokens_view tokens.now) aliases.now))) }
        ensures count { OnOk result (length aliases.now < 2 ^ 32) }
    {
        self.add_unions(alloc, tokens, declarations)?;
        self.add_aliases(alloc, tokens, aliases)
    }

    /// No names.
    fn new(alloc: Global) -> OwnNames
        ensures { Keeps result [] [] }
    {
        OwnNames {
            unions: IndexSet::new(alloc),
            places: IndexMap::new(alloc),
        }
    }

    /// The names of the unions among declarations, and of these aliases. The error means that memory ran out; so it
    /// does where there are 2 ^ 32 aliases or more.
    pub fn of(
        alloc: Global,
        tokens: &[Token<'_>],
        declarations: &[Declaration],
        aliases: &[WrittenAlias<'_>],
    ) -> Result<OwnNames, AllocError>
        ensures names { IfOk result (λ n. Keeps n
            (union_names_in (map (declaration_view (tokens_view tokens.now)) declarations.now))
            (alias_names (aliases_view (tokens_view tokens.now) aliases.now))) }
        ensures count { OnOk result (length aliases.now < 2 ^ 32) }
    {
        let mut names = OwnNames::new(alloc);
        let done = names.add_all(alloc, tokens, declarations, aliases);
        when_done(done, names)
    }

    /// The place of the alias that the name `name` means among the aliases. None: it means none of them, or a union has
    /// the name too.
    pub fn place_of_name(&self, name: &Name) -> Option<u32>
        ensures { (unions aliases : List Name) → Keeps self.now unions aliases
            → result ≡ place_of_name unions aliases name.now }
    {
        if self.unions.contains(name) {
            return None;
        }
        self.places.get(name).copied()
    }

    /// The place of the alias that the name at a word means.
    fn place(
        &self,
        alloc: Global,
        tokens: &[Token<'_>],
        word: Word,
    ) -> Result<Option<u32>, AllocError>
        ensures { IfOk result (λ p. (unions aliases : List Name) → Keeps self.now unions aliases
            → p ≡ alias_place unions aliases (long_view (tokens_view tokens.now) word)) }
    {
        let long = long_name(alloc, tokens, word)?;
        if !is_empty(&long.qualifier) {
            return Ok(None);
        }
        Ok(self.place_of_name(&long.name))
    }

    /// Adds the place of the alias that the name at a word means.
    fn push_place(
        &self,
        alloc: Global,
        tokens: &[Token<'_>],
        word: Word,
        places: &mut Vec<u32>,
    ) -> Result<(), AllocError>
        ensures { OnOk result ((unions aliases : List Name) → Keeps self.now unions aliases → places.new.items
            ≡ places.old.items ++ filter_map (alias_place unions aliases) (long_view (tokens_view tokens.now) word ∷ [])) }
    {
        match self.place(alloc, tokens, word)? {
            Some(place) => {
                places.push(place)?;
                Ok(())
            }
            None => Ok(()),
        }
    }
}

/// Adds the places of the aliases that the names in a type mean, in turn.
#[cycle(uses)]
fn push_uses(
    alloc: Global,
    tokens: &[Token<'_>],
    names: &OwnNames,
    written: &TypeTree,
    places: &mut Vec<u32>,
) -> Result<(), AllocError>
    ensures { OnOk result ((unions aliases : List Name) → Keeps names.now unions aliases → places.new.items
        ≡ places.old.items ++ places_in unions aliases (tree.type_view (tokens_view tokens.now) written.now)) }
{
    match written {
        TypeTree::Variable(_) => Ok(()),
        TypeTree::Named(name, types) => {
            names.push_place(alloc, tokens, *name, places)?;
            push_all_uses(alloc, tokens, names, types, places)
        }
        TypeTree::Function(types) => push_all_uses(alloc, tokens, names, types, places),
        TypeTree::Tuple(types) => push_all_uses(alloc, tokens, names, types, places),
        TypeTree::Record(base, fields) => match base {
            None => push_field_uses(alloc, tokens, names, fields, places),
            Some(_) => push_field_uses(alloc, tokens, names, fields, places),
        },
    }
}

/// The same of types.
#[cycle(uses)]
fn push_all_uses(
    alloc: Global,
    tokens: &[Token<'_>],
    names: &OwnNames,
    written: &[TypeTree],
    places: &mut Vec<u32>,
) -> Result<(), AllocError>
    ensures { OnOk result ((unions aliases : List Name) → Keeps names.now unions aliases → places.new.items
        ≡ places.old.items ++ flat_map (places_in unions aliases)
        (map (tree.type_view (tokens_view tokens.now)) written.now)) }
{
    for one in written {
        push_uses(alloc, tokens, names, one, places)?;
    }
    Ok(())
}

/// The same in the types of fields.
#[cycle(uses)]
fn push_field_uses(
    alloc: Global,
    tokens: &[Token<'_>],
    names: &OwnNames,
    written: &[FieldType],
    places: &mut Vec<u32>,
) -> Result<(), AllocError>
    ensures { OnOk result ((unions aliases : List Name) → Keeps names.now unions aliases → places.new.items
        ≡ places.old.items ++ flat_map (field_places unions aliases)
        (map (tree.field_type_view (tokens_view tokens.now)) written.now)) }
{
    for field in written {
        push_uses(alloc, tokens, names, &field.field_type, places)?;
    }
    Ok(())
}

/// The places of the aliases that the body of an alias uses.
fn uses_of_one(
    alloc: Global,
    tokens: &[Token<'_>],
    names: &OwnNames,
    alias: &WrittenAlias<'_>,
) -> Result<Vec<u32>, AllocError>
    ensures { IfOk result (λ v. (unions aliases : List Name) → Keeps names.now unions aliases → v.items
        ≡ places_in unions aliases (tree.type_view (tokens_view tokens.now) alias.now.body.now)) }
{
    let mut places = Vec::new(alloc);
    push_uses(alloc, tokens, names, alias.body, &mut places)?;
    Ok(places)
}

/// The places of the aliases that each of the aliases `aliases` uses, in turn, by the names `names` of the module. They
/// are of the text of the tokens `tokens`. The error means that memory ran out.
pub fn uses_of(
    alloc: Global,
    tokens: &[Token<'_>],
    names: &OwnNames,
    aliases: &[WrittenAlias<'_>],
) -> Result<Vec<Vec<u32>>, AllocError>
    ensures { IfOk result (λ v. (unions : List Name)
        → Keeps names.now unions (alias_names (aliases_view (tokens_view tokens.now) aliases.now))
        → plain v.items ≡ alias_uses unions (aliases_view (tokens_view tokens.now) aliases.now)) }
{
    let mut uses = Vec::with_capacity(alloc, aliases.len())?;
    for alias in aliases {
        uses.push(uses_of_one(alloc, tokens, names, alias)?)?;
    }
    Ok(uses)
}
