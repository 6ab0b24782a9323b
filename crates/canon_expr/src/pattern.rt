//! What patterns mean.

ghost use Rattle.std.specs.Prelude.{◌≡◌, ◌++◌, ◌∷◌, [], length, IfOk, OnOk};
ghost use Rattle.elm_tree.specs.View as tree_view;
ghost use Rattle.elm_tree.specs.Turns.{tokens_view};
ghost use Rattle.elm_canon.specs.Tree as canon;
ghost use Rattle.elm_canon.specs.View.{pattern_view, patterns_view};
ghost use Rattle.elm_canon.specs.Unions as spec_unions;
ghost use Rattle.elm_canon.specs.declared.tree.Pattern.TheVariants as form;
ghost use Rattle.canon_env.specs.Shown.{OfUnion};
ghost use Rattle.canon_env.specs.Naming as naming;
ghost use Rattle.canon_env.specs.Naming.{IsWorld, maker_found};
ghost use Rattle.canon_env.specs.Sites.{match_faults, at_long};
ghost use Rattle.canon_env.specs.Patterns as spec;
ghost use Rattle.canon_expr.specs.Logs.{Grows};
ghost use Rattle.canon_expr.specs.Literals.{AreLiterals};
ghost use Rattle.canon_expr.specs.Matches.{match_faults_at};

use crate::fields::names_of;
use crate::items::{boxed, put};
use crate::literal::{negative, one_word};
use crate::log::Log;
use crate::long::LongName;
use crate::parts::{fields, items, located};
use canon_env::env::World;
use canon_env::found::Entry;
use canon_env::import::word_name;
use canon_env::shown::MakerMeaning;
use elm_base::fault::Code;
use elm_canon::tree::Pattern;
use elm_canon::unions::{Alternative, Union};
use elm_lexer::token::Token;
use elm_tree::tree;
use elm_tree::tree::Word;
use std::alloc::{AllocError, Global};

/// Notes that a constructor of a union has another number of fields than the patterns.
fn note_arity(
    alloc: Global,
    tokens: &[Token<'_>],
    log: &mut Log,
    word: Word,
    count: usize,
    alternative: &Alternative,
) -> Result<(), AllocError>
    ensures findings { OnOk result ((u : spec_unions.Union) → log.new.findings.items ≡ log.old.findings.items
        ++ match_faults (tree_view.long_view (tokens_view tokens.now) word) count (OfUnion u alternative.now)) }
    ensures uses { OnOk result (log.new.uses.items ≡ log.old.uses.items) }
{
    if count != alternative.arity {
        log.note_name(alloc, tokens, Code::ConstructorArity, word)?;
    }
    Ok(())
}

/// The pattern of a constructor of a union with these parts.
fn union_pattern(
    union: &Union,
    alternative: &Alternative,
    parts: Vec<Pattern>,
) -> Result<Pattern, AllocError>
    ensures { IfOk result (λ p. pattern_view p
        ≡ canon.Construct union.now alternative.now (patterns_view parts.items)) }
{
    let union = union.clone()?;
    let alternative = alternative.clone()?;
    Ok(Pattern::Construct(union, alternative, parts))
}

/// The pattern of a name that means no constructor, whose fault is noted.
fn no_pattern(
    alloc: Global,
    tokens: &[Token<'_>],
    log: &mut Log,
    code: Code,
    word: Word,
) -> Result<Pattern, AllocError>
    ensures meaning { IfOk result (λ p. p ≡ form.Anything) }
    ensures findings { OnOk result (log.new.findings.items ≡ log.old.findings.items
        ++ at_long code (tree_view.long_view (tokens_view tokens.now) word) ∷ []) }
    ensures uses { OnOk result (log.new.uses.items ≡ log.old.uses.items) }
{
    log.note_name(alloc, tokens, code, word)?;
    Ok(Pattern::Anything)
}

/// The pattern of a constructor with these parts. A fault there is noted.
fn construct(
    alloc: Global,
    tokens: &[Token<'_>],
    world: &World,
    log: &mut Log,
    word: Word,
    parts: Vec<Pattern>,
) -> Result<Pattern, AllocError>
    ensures meaning { IfOk result (λ p. (w : naming.World) → IsWorld world.now w → pattern_view p
        ≡ spec.construct_of (patterns_view parts.items)
        (maker_found w (tree_view.long_view (tokens_view tokens.now) word))) }
    ensures findings { OnOk result ((w : naming.World) → IsWorld world.now w
        → log.new.findings.items ≡ log.old.findings.items
        ++ match_faults_at w (tree_view.long_view (tokens_view tokens.now) word) (length parts.items)) }
    ensures uses { OnOk result (log.new.uses.items ≡ log.old.uses.items) }
{
    let long = LongName::read(alloc, tokens, word)?;
    match world.maker(&long.qualifier, &long.name) {
        Some(Entry::One(meant)) => match &meant.meaning {
            MakerMeaning::OfUnion(union, alternative) => {
                note_arity(alloc, tokens, log, word, parts.len(), alternative)?;
                union_pattern(union, alternative, parts)
            }
            MakerMeaning::OfRecord(_) => {
                no_pattern(alloc, tokens, log, Code::UnknownConstructor, word)
            }
        },
        Some(Entry::Several) => no_pattern(alloc, tokens, log, Code::Ambiguous, word),
        None => no_pattern(alloc, tokens, log, Code::UnknownConstructor, word),
    }
}

/// What the pattern `written` means, which is of the text of the tokens `tokens`, as the lexer makes them. The faults
/// at its constructors are noted: nothing has that name, imports give it two meanings, or it has another number of
/// fields; such a part matches anything where it has no meaning. The error means that memory ran out.
#[cycle(patterns)]
pub fn pattern(
    alloc: Global,
    tokens: &[Token<'_>],
    world: &World,
    log: &mut Log,
    written: &tree::Pattern,
) -> Result<Pattern, AllocError>
    requires { AreLiterals (tokens_view tokens.now) }
    ensures meaning { IfOk result (λ p. (w : naming.World) → IsWorld world.now w → pattern_view p
        ≡ spec.pattern_of w (tree_view.pattern_view (tokens_view tokens.now) written.now)) }
    ensures log { OnOk result ((w : naming.World) → IsWorld world.now w → Grows w log.old log.new
        (spec.match_sites (tree_view.pattern_view (tokens_view tokens.now) written.now))) }
{
    match written {
        tree::Pattern::OneWord(word) => one_word(alloc, tokens, *word),
        tree::Pattern::Negative(sign, number) => negative(alloc, tokens, *sign, *number),
        tree::Pattern::Construct(name, parts) => {
            let parts = patterns(alloc, tokens, world, log, parts)?;
            let meant = construct(alloc, tokens, world, log, *name, parts)?;
            located(alloc, tokens, *name, meant)
        }
        tree::Pattern::Cons(first, parts) => {
            let parts = patterns(alloc, tokens, world, log, parts)?;
            let meant = items(alloc, parts)?;
            located(alloc, tokens, *first, meant)
        }
        tree::Pattern::List(first, parts) => {
            let parts = patterns(alloc, tokens, world, log, parts)?;
            located(alloc, tokens, *first, Pattern::List(parts))
        }
        tree::Pattern::Tuple(first, parts) => {
            let parts = patterns(alloc, tokens, world, log, parts)?;
            located(alloc, tokens, *first, Pattern::Tuple(parts))
        }
        tree::Pattern::Fields(first, names) => {
            let names = names_of(alloc, tokens, names)?;
            located(alloc, tokens, *first, fields(names))
        }
        tree::Pattern::As(first, inner, name) => {
            let inner = pattern(alloc, tokens, world, log, inner)?;
            let inner = boxed(alloc, inner)?;
            let name = word_name(alloc, tokens, *name)?;
            located(alloc, tokens, *first, Pattern::As(inner, name))
        }
    }
}

/// What the patterns `written` mean, in turn, which are of the text of the tokens `tokens`, as the lexer makes them.
/// The faults at their constructors are noted. The error means that memory ran out.
#[cycle(patterns)]
pub fn patterns(
    alloc: Global,
    tokens: &[Token<'_>],
    world: &World,
    log: &mut Log,
    written: &[tree::Pattern],
) -> Result<Vec<Pattern>, AllocError>
    requires { AreLiterals (tokens_view tokens.now) }
    ensures count { IfOk result (λ v. length v.items ≡ length written.now) }
    ensures meaning { IfOk result (λ v. (w : naming.World) → IsWorld world.now w → patterns_view v.items
        ≡ spec.patterns_of w (tree_view.patterns_view (tokens_view tokens.now) written.now)) }
    ensures log { OnOk result ((w : naming.World) → IsWorld world.now w → Grows w log.old log.new
        (spec.match_sites_all (tree_view.patterns_view (tokens_view tokens.now) written.now))) }
{
    let mut meant = Vec::new(alloc);
    for one in written {
        put(&mut meant, pattern(alloc, tokens, world, log, one)?)?;
    }
    Ok(meant)
}
