//! The constructors of a union.

ghost use Rattle.std.specs.Prelude.{◌≡◌, ◌++◌, codes, length, map, flat_map, IfOk, OnOk};
ghost use Rattle.elm_tree.specs.View.{words_view, constructor_view};
ghost use Rattle.elm_tree.specs.Turns.{tokens_view};
ghost use Rattle.elm_canon.specs.View.{types_view};
ghost use Rattle.canon_env.specs.Imports.{name_of};
ghost use Rattle.canon_env.specs.Naming as naming;
ghost use Rattle.canon_env.specs.Naming.{IsWorld};
ghost use Rattle.canon_type.specs.Unions.{is_type, tag_of, alternatives_of, fields_of, constructor_faults};

use crate::annotation::annotations;
use canon_env::env::World;
use canon_env::finding::Finding;
use canon_env::import::word_name;
use elm_base::names::Name;
use elm_canon::tree::Fields;
use elm_canon::unions::{Alternative, Tag};
use elm_lexer::token::Token;
use elm_tree::tree::{Constructor, Word};
use std::alloc::{AllocError, Global};

/// `Basics`
const BASICS: [u16; 6] = [66, 97, 115, 105, 99, 115];

/// `Bool`
const BOOL: [u16; 4] = [66, 111, 111, 108];

/// `Dict`
const DICT: [u16; 4] = [68, 105, 99, 116];

/// Whether a union is that of the truth values.
fn is_bool(home: &Name, union: &Name) -> bool
    ensures { result ≡ is_type (codes "Basics") (codes "Bool") home.now union.now }
{
    home.as_slice() == BASICS.as_slice() && union.as_slice() == BOOL.as_slice()
}

/// Whether a union is that of dictionaries.
fn is_dict(home: &Name, union: &Name) -> bool
    ensures { result ≡ is_type (codes "Dict") (codes "Dict") home.now union.now }
{
    home.as_slice() == DICT.as_slice() && union.as_slice() == DICT.as_slice()
}

/// What tells the constructor at a place of a union.
fn tag_of(home: &Name, union: &Name, place: u32) -> Tag
    ensures { result ≡ tag_of home.now union.now place }
{
    if is_bool(home, union) {
        return Tag::Truth(place == 0);
    }
    if is_dict(home, union) {
        return Tag::Number(-1 - i64::from(place));
    }
    Tag::Number(i64::from(place))
}

/// The constructors of the union `union` of the module `home`. The error means that memory ran out; so it does where
/// there are 2 ^ 32 constructors or more.
pub fn alternatives_of(
    alloc: Global,
    tokens: &[Token<'_>],
    home: &Name,
    union: &Name,
    constructors: &[Constructor],
) -> Result<Vec<Alternative>, AllocError>
    ensures { IfOk result (λ v. v.items ≡ alternatives_of home.now union.now
        (map (constructor_view (tokens_view tokens.now)) constructors.now)) }
{
    let Ok(count) = u32::try_from(constructors.len()) else {
        return Err(AllocError);
    };
    let mut alternatives = Vec::with_capacity(alloc, constructors.len())?;
    for place in 0..count {
        let constructor = &constructors[place as usize];
        alternatives.push(Alternative {
            name: word_name(alloc, tokens, constructor.name)?,
            tag: tag_of(home, union, place),
            arity: constructor.arguments.len(),
        })?;
    }
    Ok(alternatives)
}

/// The names that the words `words` spell in the text of the tokens `tokens`. The error means that memory ran out.
pub fn names_of(
    alloc: Global,
    tokens: &[Token<'_>],
    words: &[Word],
) -> Result<Vec<Name>, AllocError>
    ensures { IfOk result (λ v. v.items ≡ map name_of (words_view (tokens_view tokens.now) words.now)) }
{
    let mut names = Vec::with_capacity(alloc, words.len())?;
    for word in words {
        names.push(word_name(alloc, tokens, *word)?)?;
    }
    Ok(names)
}

/// The types of the fields of constructors. Their faults are added to `findings`, in the order of their sites.
pub(crate) fn fields_of(
    alloc: Global,
    tokens: &[Token<'_>],
    world: &World,
    constructors: &[Constructor],
    findings: &mut Vec<Finding>,
) -> Result<Vec<Fields>, AllocError>
    ensures fields { IfOk result (λ v. (w : naming.World) → IsWorld world.now w
        → map (λ f. types_view f.types.items) v.items
        ≡ map (fields_of w) (map (constructor_view (tokens_view tokens.now)) constructors.now)) }
    ensures faults { OnOk result ((w : naming.World) → IsWorld world.now w → findings.new.items ≡ findings.old.items
        ++ flat_map (constructor_faults w) (map (constructor_view (tokens_view tokens.now)) constructors.now)) }
{
    let mut fields = Vec::with_capacity(alloc, constructors.len())?;
    for constructor in constructors {
        let types = annotations(alloc, tokens, world, &constructor.arguments, findings)?;
        fields.push(Fields { types })?;
    }
    Ok(fields)
}
