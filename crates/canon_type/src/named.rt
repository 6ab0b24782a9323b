//! What the name of a type with its arguments means.

ghost use Rattle.std.specs.Prelude.{◌≡◌, ◌++◌, ◌∷◌, [], Some, IfOk, OnOk};
ghost use Rattle.elm_tree.specs.View.{long_view};
ghost use Rattle.elm_tree.specs.Turns.{tokens_view};
ghost use Rattle.elm_canon.specs.Tree.{NamedType};
ghost use Rattle.elm_canon.specs.View.{annotation_view, types_view};
ghost use Rattle.canon_env.specs.Shown.{type_meaning_view};
ghost use Rattle.canon_env.specs.Found.{One, meant_by};
ghost use Rattle.canon_env.specs.Naming as naming;
ghost use Rattle.canon_env.specs.Naming.{IsWorld, own_name, type_found};
ghost use Rattle.canon_env.specs.Expanding as sites;
ghost use Rattle.canon_env.specs.Expanding.{blank, applied};
ghost use Rattle.canon_type.specs.Filling.{Fills};
ghost use Rattle.canon_env.specs.Sites.{at_long, faults_at, TypeUse, type_faults, extension_faults, utf8};

use crate::copying::copy;
use crate::filling::{Filling, fill, push_bad_fields};
use canon_env::env::{World, no_name};
use canon_env::finding::{Finding, place_at};
use canon_env::found::{Entry, Meant};
use canon_env::long::{finding_long, long_name};
use canon_env::shown::TypeMeaning;
use elm_base::fault::Code;
use elm_base::names::Name;
use elm_base::text::Text;
use elm_canon::tree::{AliasDeclaration, Annotation};
use elm_lexer::token::Token;
use elm_tree::tree::Word;
use std::alloc::{AllocError, Global};

/// The type of what has no meaning.
pub(crate) fn blank(alloc: Global) -> Result<Annotation, AllocError>
    ensures { IfOk result (λ t. annotation_view t ≡ blank) }
{
    Ok(Annotation::Variable(no_name(alloc)?))
}

/// The type of what has no meaning, with a fault at the word `word`.
fn no_type(
    alloc: Global,
    tokens: &[Token<'_>],
    code: Code,
    word: Word,
    findings: &mut Vec<Finding>,
) -> Result<Annotation, AllocError>
    ensures meaning { IfOk result (λ t. annotation_view t ≡ blank) }
    ensures faults { OnOk result (findings.new.items ≡ findings.old.items
        ++ at_long code (long_view (tokens_view tokens.now) word) ∷ []) }
{
    findings.push(finding_long(alloc, tokens, code, word)?)?;
    blank(alloc)
}

/// The parameters of a type.
fn parameters(meaning: &TypeMeaning) -> &[Name]
    ensures { result.now ≡ (type_meaning_view meaning.now).parameters }
{
    match meaning {
        TypeMeaning::Union(union) => &union.parameters,
        TypeMeaning::Alias(alias) => &alias.parameters,
    }
}

/// The least of names by their units.
fn least_of<'a>(first: &'a Name, others: &'a [Name]) -> &'a Name
    ensures { result.now ≡ sites.least_of first.now others.now }
{
    let mut least = first;
    let mut rest = others;
    while let [name, after @ ..] = rest {
        if *name < *least {
            least = name;
        }
        rest = after;
    }
    least
}

/// A name in UTF-8.
fn utf8(alloc: Global, name: &Name) -> Result<Text, AllocError>
    ensures { IfOk result (λ t. t ≡ utf8 name.now) }
{
    let text = String::from_utf16_lossy(alloc, name.as_slice())?;
    Text::copy(alloc, text.as_bytes())
}

/// Adds the fault at the word `word`, if there are fields that may not extend their base.
fn push_extension_fault(
    alloc: Global,
    tokens: &[Token<'_>],
    word: Word,
    bad: &[Name],
    findings: &mut Vec<Finding>,
) -> Result<(), AllocError>
    ensures { OnOk result (findings.new.items ≡ findings.old.items
        ++ extension_faults (long_view (tokens_view tokens.now) word) bad.now) }
{
    if let [first, others @ ..] = bad {
        findings.push(Finding {
            code: Code::BadExtension,
            place: place_at(tokens, word),
            detail: utf8(alloc, least_of(first, others))?,
        })?;
    }
    Ok(())
}

/// The type with what `filling` has in the place of its variables, and the fault at the word `word` where that extends
/// what it may not.
fn filled(
    alloc: Global,
    tokens: &[Token<'_>],
    word: Word,
    body: &Annotation,
    filling: &Filling,
    findings: &mut Vec<Finding>,
) -> Result<Annotation, AllocError>
    ensures meaning { IfOk result (λ t. (s : sites.Filling) → Fills filling.now s
        → annotation_view t ≡ sites.fill s (annotation_view body.now)) }
    ensures faults { OnOk result ((s : sites.Filling) → Fills filling.now s → findings.new.items
        ≡ findings.old.items ++ extension_faults (long_view (tokens_view tokens.now) word)
        (sites.bad_fields s (annotation_view body.now))) }
{
    let mut bad = Vec::new(alloc);
    push_bad_fields(alloc, body, filling, &mut bad)?;
    push_extension_fault(alloc, tokens, word, &bad, findings)?;
    fill(alloc, body, filling)
}

/// The type that an alias stands for with these arguments, and the fault at the word `word` where it extends what it
/// may not.
fn of_alias(
    alloc: Global,
    tokens: &[Token<'_>],
    word: Word,
    alias: &AliasDeclaration,
    arguments: Vec<Annotation>,
    findings: &mut Vec<Finding>,
) -> Result<Annotation, AllocError>
    ensures meaning { IfOk result (λ t. annotation_view t
        ≡ sites.fill (sites.filling alias.now.parameters.items (types_view arguments.items))
        (annotation_view alias.now.body)) }
    ensures faults { OnOk result (findings.new.items ≡ findings.old.items
        ++ extension_faults (long_view (tokens_view tokens.now) word)
        (sites.bad_fields (sites.filling alias.now.parameters.items (types_view arguments.items))
        (annotation_view alias.now.body))) }
{
    if alias.parameters.len() == 0 {
        return copy(alloc, &alias.body);
    }
    let filling = Filling::of(alloc, &alias.parameters, arguments)?;
    filled(alloc, tokens, word, &alias.body, &filling, findings)
}

/// A type of the module `home` with these arguments.
fn union_type(home: &Name, name: Name, arguments: Vec<Annotation>) -> Result<Annotation, AllocError>
    ensures { IfOk result (λ t. annotation_view t ≡ NamedType home.now name (types_view arguments.items)) }
{
    Ok(Annotation::Named(home.clone()?, name, arguments))
}

/// The type that a name means with these arguments, and the fault at the word `word`.
fn of_meaning(
    alloc: Global,
    tokens: &[Token<'_>],
    word: Word,
    name: Name,
    meant: &Meant<TypeMeaning>,
    arguments: Vec<Annotation>,
    findings: &mut Vec<Finding>,
) -> Result<Annotation, AllocError>
    ensures meaning { IfOk result (λ t. annotation_view t
        ≡ applied name (One (meant_by type_meaning_view meant.now)) (types_view arguments.items)) }
    ensures faults { OnOk result (findings.new.items ≡ findings.old.items
        ++ type_faults (long_view (tokens_view tokens.now) word) (types_view arguments.items)
        (type_meaning_view meant.now.meaning)) }
{
    if parameters(&meant.meaning).len() != arguments.len() {
        return no_type(alloc, tokens, Code::TypeArity, word, findings);
    }
    match &meant.meaning {
        TypeMeaning::Union(_) => union_type(&meant.home, name, arguments),
        TypeMeaning::Alias(alias) => of_alias(alloc, tokens, word, alias, arguments, findings),
    }
}

/// The type that the name at the word `word` means with these arguments, and its faults.
pub(crate) fn named(
    alloc: Global,
    tokens: &[Token<'_>],
    world: &World,
    word: Word,
    arguments: Vec<Annotation>,
    findings: &mut Vec<Finding>,
) -> Result<Annotation, AllocError>
    ensures meaning { IfOk result (λ t. (w : naming.World) → IsWorld world.now w → annotation_view t
        ≡ applied (own_name (long_view (tokens_view tokens.now) word))
        (type_found w (long_view (tokens_view tokens.now) word)) (types_view arguments.items)) }
    ensures faults { OnOk result ((w : naming.World) → IsWorld world.now w → findings.new.items ≡ findings.old.items
        ++ faults_at w (TypeUse (long_view (tokens_view tokens.now) word) (types_view arguments.items))) }
{
    let long = long_name(alloc, tokens, word)?;
    match world.type_named(&long.qualifier, &long.name) {
        None => no_type(alloc, tokens, Code::UnknownType, word, findings),
        Some(Entry::Several) => no_type(alloc, tokens, Code::Ambiguous, word, findings),
        Some(Entry::One(meant)) => {
            of_meaning(alloc, tokens, word, long.name, meant, arguments, findings)
        }
    }
}
