//! Names that are bound together.

ghost use Rattle.std.specs.Prelude.{◌≡◌, [], ◌∷◌, ◌++◌, map, OnOk};
ghost use Rattle.elm_base.specs.declared.fault.Code.TheVariants.{DuplicateBinding};
ghost use Rattle.elm_tree.specs.View.{word_view, words_view};
ghost use Rattle.elm_tree.specs.Turns.{tokens_view};
ghost use Rattle.canon_env.specs.Naming as naming;
ghost use Rattle.canon_env.specs.Naming.{IsWorld};
ghost use Rattle.canon_env.specs.Sites.{Binding, is_in_scope, at_word, repeats};
ghost use Rattle.canon_env.specs.Patterns.{binding_sites};
ghost use Rattle.canon_expr.specs.Scope.{locals_of};
ghost use Rattle.canon_expr.specs.Logs.{Grows};

use crate::log::Log;
use crate::scope::Scope;
use canon_env::env::{World, no_name};
use canon_env::import::word_name;
use canon_env::repeats::push_repeats;
use elm_base::fault::Code;
use elm_base::names::Name;
use elm_lexer::token::Token;
use elm_tree::tree::Word;
use std::alloc::{AllocError, Global};

/// Whether a name is a local one or one of the module's own. `none` is the qualifier of no module.
fn is_in_scope(world: &World, none: &Name, scope: &Scope, name: &Name) -> bool
    requires { none.now ≡ [] }
    ensures { (w : naming.World) → IsWorld world.now w → result ≡ is_in_scope w (locals_of scope.now) name.now }
{
    scope.find(name).is_some() || world.own.value(none, name).is_some()
}

/// Notes a name that is bound and that repeats one in scope.
fn note_shadow(
    alloc: Global,
    tokens: &[Token<'_>],
    world: &World,
    none: &Name,
    scope: &Scope,
    log: &mut Log,
    word: Word,
) -> Result<(), AllocError>
    requires { none.now ≡ [] }
    ensures { OnOk result ((w : naming.World) → IsWorld world.now w → Grows w log.old log.new
        (Binding (locals_of scope.now) (word_view (tokens_view tokens.now) word) ∷ [])) }
{
    let name = word_name(alloc, tokens, word)?;
    if !is_in_scope(world, none, scope, &name) {
        return Ok(());
    }
    log.note_word(alloc, tokens, Code::Shadowing, word)?;
    Ok(())
}

/// Notes each name that is bound and that repeats one in scope.
fn note_shadows(
    alloc: Global,
    tokens: &[Token<'_>],
    world: &World,
    scope: &Scope,
    log: &mut Log,
    words: &[Word],
) -> Result<(), AllocError>
    ensures { OnOk result ((w : naming.World) → IsWorld world.now w → Grows w log.old log.new
        (map (Binding (locals_of scope.now)) (words_view (tokens_view tokens.now) words.now))) }
{
    let none = no_name(alloc)?;
    for word in words {
        note_shadow(alloc, tokens, world, &none, scope, log, *word)?;
    }
    Ok(())
}

/// Notes each name that stands before among the words.
fn note_repeats(
    alloc: Global,
    tokens: &[Token<'_>],
    log: &mut Log,
    words: &[Word],
) -> Result<(), AllocError>
    ensures findings { OnOk result (log.new.findings.items ≡ log.old.findings.items
        ++ map (at_word DuplicateBinding) (repeats (words_view (tokens_view tokens.now) words.now))) }
    ensures uses { OnOk result (log.new.uses.items ≡ log.old.uses.items) }
{
    push_repeats(
        alloc,
        tokens,
        Code::DuplicateBinding,
        words,
        &mut log.findings,
    )
}

/// Notes the faults where the names that the words `words` spell are bound together: each that repeats a name of
/// `scope` or one of the module's own, and each that stands before among the words. The error means that memory ran
/// out.
pub fn note_bindings(
    alloc: Global,
    tokens: &[Token<'_>],
    world: &World,
    scope: &Scope,
    log: &mut Log,
    words: &[Word],
) -> Result<(), AllocError>
    ensures { OnOk result ((w : naming.World) → IsWorld world.now w → Grows w log.old log.new
        (binding_sites (locals_of scope.now) (words_view (tokens_view tokens.now) words.now))) }
{
    note_shadows(alloc, tokens, world, scope, log, words)?;
    note_repeats(alloc, tokens, log, words)?;
    Ok(())
}
