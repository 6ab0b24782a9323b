//! The constructors that a module declares, as functions without bodies.

ghost use Rattle.std.specs.Prelude.{◌≡◌, ◌++◌, ◌∷◌, [], map, flat_map, IfOk, OnOk};
ghost use Rattle.elm_tree.specs.View as tree_view;
ghost use Rattle.elm_tree.specs.Turns.{tokens_view};
ghost use Rattle.elm_canon.specs.Tree as canon;
ghost use Rattle.elm_canon.specs.View.{declaration_view, known_view};
ghost use Rattle.elm_canon.specs.declared.reference.Ref.TheVariants.{Top};
ghost use Rattle.canon_env.specs.Imports.{name_of};
ghost use Rattle.canon_type.specs.Unions.{alternatives_of};
ghost use Rattle.canon_module.specs.Resolve.{maker_of, record_maker, makers_in};

use crate::outcomes::put;
use crate::written::{Declarations, Written};
use canon_env::import::word_name;
use canon_type::constructors::alternatives_of;
use elm_base::names::Name;
use elm_canon::reference::Ref;
use elm_canon::tree;
use elm_canon::tree::Known;
use elm_canon::unions::Alternative;
use elm_lexer::token::Token;
use elm_tree::tree::{Constructor, Declaration, FieldType, TypeTree, Word};
use std::alloc::{AllocError, Global};

/// Adds a function without a body.
fn push_given(
    makers: &mut Vec<tree::Declaration>,
    name: Ref,
    known: Known,
) -> Result<(), AllocError>
    ensures { OnOk result (map declaration_view makers.new.items
        ≡ map declaration_view makers.old.items ++ canon.Given name (known_view known) ∷ []) }
{
    put(makers, tree::Declaration::Given(name, known))
}

/// A name of the module `home`.
fn top_name(home: &Name, name: &Name) -> Result<Ref, AllocError>
    ensures { IfOk result (λ r. r ≡ Top home.now name.now) }
{
    Ok(Ref::Top(home.clone()?, name.clone()?))
}

/// Adds one constructor of a union.
fn push_maker(
    home: &Name,
    alternative: &Alternative,
    makers: &mut Vec<tree::Declaration>,
) -> Result<(), AllocError>
    ensures { OnOk result (map declaration_view makers.new.items
        ≡ map declaration_view makers.old.items ++ maker_of home.now alternative.now ∷ []) }
{
    let known = alternative.clone()?;
    let name = top_name(home, &alternative.name)?;
    push_given(makers, name, Known::Maker(known))
}

/// Adds constructors of a union.
fn push_alternatives(
    home: &Name,
    alternatives: &[Alternative],
    makers: &mut Vec<tree::Declaration>,
) -> Result<(), AllocError>
    ensures { OnOk result (map declaration_view makers.new.items
        ≡ map declaration_view makers.old.items ++ map (maker_of home.now) alternatives.now) }
{
    for alternative in alternatives {
        push_maker(home, alternative, makers)?;
    }
    Ok(())
}

/// Adds the constructors of the union that the word `word` names.
fn push_union(
    alloc: Global,
    tokens: &[Token<'_>],
    home: &Name,
    word: Word,
    constructors: &[Constructor],
    makers: &mut Vec<tree::Declaration>,
) -> Result<(), AllocError>
    ensures { OnOk result (map declaration_view makers.new.items ≡ map declaration_view makers.old.items
        ++ map (maker_of home.now) (alternatives_of home.now
        (name_of (tree_view.word_view (tokens_view tokens.now) word))
        (map (tree_view.constructor_view (tokens_view tokens.now)) constructors.now))) }
{
    let union = word_name(alloc, tokens, word)?;
    let alternatives = alternatives_of(alloc, tokens, home, &union, constructors)?;
    push_alternatives(home, &alternatives, makers)
}

/// The names of fields.
fn field_names(
    alloc: Global,
    tokens: &[Token<'_>],
    fields: &[FieldType],
) -> Result<Vec<Name>, AllocError>
    ensures { IfOk result (λ v. v.items
        ≡ map (λ f. name_of (tree_view.word_view (tokens_view tokens.now) f.name)) fields.now) }
{
    let mut names = Vec::with_capacity(alloc, fields.len())?;
    for field in fields {
        put(&mut names, word_name(alloc, tokens, field.name)?)?;
    }
    Ok(names)
}

/// Adds the constructor of records with these fields that the word `word` names.
fn push_record(
    alloc: Global,
    tokens: &[Token<'_>],
    home: &Name,
    word: Word,
    fields: &[FieldType],
    makers: &mut Vec<tree::Declaration>,
) -> Result<(), AllocError>
    ensures { OnOk result (map declaration_view makers.new.items ≡ map declaration_view makers.old.items
        ++ canon.Given (Top home.now (name_of (tree_view.word_view (tokens_view tokens.now) word)))
        (canon.RecordMaker (map (λ f. name_of (tree_view.word_view (tokens_view tokens.now) f.name)) fields.now))
        ∷ []) }
{
    let names = field_names(alloc, tokens, fields)?;
    let alias = word_name(alloc, tokens, word)?;
    let name = top_name(home, &alias)?;
    push_given(makers, name, Known::RecordMaker(names))
}

/// Adds the constructor of the alias that the word `word` names, if it is written as a closed record.
fn push_alias(
    alloc: Global,
    tokens: &[Token<'_>],
    home: &Name,
    word: Word,
    written: &TypeTree,
    makers: &mut Vec<tree::Declaration>,
) -> Result<(), AllocError>
    ensures { OnOk result (map declaration_view makers.new.items ≡ map declaration_view makers.old.items
        ++ record_maker home.now (tree_view.word_view (tokens_view tokens.now) word)
        (tree_view.type_view (tokens_view tokens.now) written.now)) }
{
    match written {
        TypeTree::Variable(_) => Ok(()),
        TypeTree::Named(_, _) => Ok(()),
        TypeTree::Function(_) => Ok(()),
        TypeTree::Tuple(_) => Ok(()),
        TypeTree::Record(base, fields) => match base {
            Some(_) => Ok(()),
            None => push_record(alloc, tokens, home, word, fields, makers),
        },
    }
}

/// Adds the constructors that a declaration declares.
fn push_makers(
    alloc: Global,
    tokens: &[Token<'_>],
    home: &Name,
    declaration: &Written<'_>,
    makers: &mut Vec<tree::Declaration>,
) -> Result<(), AllocError>
    ensures { OnOk result (map declaration_view makers.new.items ≡ map declaration_view makers.old.items
        ++ makers_in home.now (tree_view.declaration_view (tokens_view tokens.now) declaration.now)) }
{
    match declaration.get() {
        Declaration::Value(_) => Ok(()),
        Declaration::Port(_, _) => Ok(()),
        Declaration::Union(word, _, constructors) => {
            push_union(alloc, tokens, home, *word, constructors, makers)
        }
        Declaration::Alias(word, _, written) => {
            push_alias(alloc, tokens, home, *word, written, makers)
        }
    }
}

/// The constructors that the declarations of a module declare, in written order.
pub(crate) fn makers(
    alloc: Global,
    tokens: &[Token<'_>],
    home: &Name,
    declarations: &Declarations<'_>,
) -> Result<Vec<tree::Declaration>, AllocError>
    ensures { IfOk result (λ v. map declaration_view v.items ≡ flat_map (makers_in home.now)
        (map (tree_view.declaration_view (tokens_view tokens.now)) declarations.now)) }
{
    let mut makers = Vec::new(alloc);
    for number in 0..declarations.len() {
        let declaration = declarations.at(number);
        push_makers(alloc, tokens, home, &declaration, &mut makers)?;
    }
    Ok(makers)
}
