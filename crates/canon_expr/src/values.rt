//! Uses of values.

ghost use Rattle.std.specs.Prelude.{◌≡◌, [], ◌∷◌, ◌++◌, Some, None, IfOk, OnOk};
ghost use Rattle.elm_tree.specs.Tree.{Long};
ghost use Rattle.elm_tree.specs.View.{long_view};
ghost use Rattle.elm_tree.specs.Turns.{tokens_view};
ghost use Rattle.canon_env.specs.Naming as naming;
ghost use Rattle.canon_env.specs.Naming.{IsWorld, value_found};
ghost use Rattle.elm_canon.specs.declared.reference.Ref.TheVariants.{Top};
ghost use Rattle.canon_env.specs.Sites.{ValueUse, Elsewhere, value_meaning, value_faults, at_long};
ghost use Rattle.canon_expr.specs.Longs.{IsLong, bound_at};
ghost use Rattle.canon_expr.specs.Scope.{locals_of};
ghost use Rattle.canon_expr.specs.Logs.{Grows, value_ref, found_ref};

use crate::items::put;
use crate::log::Log;
use crate::long::LongName;
use crate::scope::Scope;
use canon_env::env::World;
use canon_env::found::Entry;
use elm_base::fault::Code;
use elm_base::names::Name;
use elm_base::position::Pos;
use elm_canon::reference::Ref;
use elm_lexer::token::Token;
use elm_tree::tree::Word;
use std::alloc::{AllocError, Global};

/// Where the name is bound, if it is a local one.
fn bound_at(scope: &Scope, long: &LongName) -> Option<Pos>
    ensures { (x : Long) → IsLong long.now x → result ≡ bound_at (locals_of scope.now) x }
{
    if long.is_unqualified {
        scope.find(&long.name)
    } else {
        None
    }
}

/// A name of the module `home`.
fn top_ref(home: &Name, long: LongName) -> Result<Option<Ref>, AllocError>
    ensures { IfOk result (λ r. r ≡ Some (Top home.now long.name)) }
{
    let home = home.clone()?;
    Ok(Some(Ref::Top(home, long.name)))
}

/// What a name means that means no value, whose fault is noted.
fn no_value(
    alloc: Global,
    tokens: &[Token<'_>],
    log: &mut Log,
    code: Code,
    word: Word,
) -> Result<Option<Ref>, AllocError>
    ensures meaning { IfOk result (λ r. r ≡ None) }
    ensures findings { OnOk result (log.new.findings.items ≡ log.old.findings.items
        ++ at_long code (long_view (tokens_view tokens.now) word) ∷ []) }
    ensures uses { OnOk result (log.new.uses.items ≡ log.old.uses.items) }
{
    log.note_name(alloc, tokens, code, word)?;
    Ok(None)
}

/// What a name means that is no local one. A fault of the use is noted.
fn value_elsewhere(
    alloc: Global,
    tokens: &[Token<'_>],
    world: &World,
    log: &mut Log,
    word: Word,
    long: LongName,
) -> Result<Option<Ref>, AllocError>
    requires { IsLong long (long_view (tokens_view tokens.now) word) }
    ensures meaning { IfOk result (λ r. (w : naming.World) → IsWorld world.now w
        → r ≡ found_ref (long_view (tokens_view tokens.now) word)
        (value_found w (long_view (tokens_view tokens.now) word))) }
    ensures findings { OnOk result ((w : naming.World) → IsWorld world.now w
        → log.new.findings.items ≡ log.old.findings.items
        ++ value_faults (long_view (tokens_view tokens.now) word)
        (Elsewhere (value_found w (long_view (tokens_view tokens.now) word)))) }
    ensures uses { OnOk result (log.new.uses.items ≡ log.old.uses.items) }
{
    match world.value(&long.qualifier, &long.name) {
        Some(Entry::One(meant)) => top_ref(&meant.home, long),
        Some(Entry::Several) => no_value(alloc, tokens, log, Code::Ambiguous, word),
        None => no_value(alloc, tokens, log, Code::UnknownValue, word),
    }
}

/// What the name of a value means that the word `word` is: a local name of `scope`, or else a name of the module or
/// of its imports. None: nothing has that name, or imports give it two meanings. That fault is noted, and else the
/// place where a local name is bound that is used. The error means that memory ran out.
pub fn value_use(
    alloc: Global,
    tokens: &[Token<'_>],
    world: &World,
    scope: &Scope,
    log: &mut Log,
    word: Word,
) -> Result<Option<Ref>, AllocError>
    ensures meaning { IfOk result (λ r. (w : naming.World) → IsWorld world.now w
        → r ≡ value_ref (long_view (tokens_view tokens.now) word)
        (value_meaning w (locals_of scope.now) (long_view (tokens_view tokens.now) word))) }
    ensures log { OnOk result ((w : naming.World) → IsWorld world.now w → Grows w log.old log.new
        (ValueUse (locals_of scope.now) (long_view (tokens_view tokens.now) word) ∷ [])) }
{
    let long = LongName::read(alloc, tokens, word)?;
    match bound_at(scope, &long) {
        Some(place) => {
            put(&mut log.uses, place)?;
            Ok(Some(Ref::Local(long.name)))
        }
        None => {
            let meaning = value_elsewhere(alloc, tokens, world, log, word, long)?;
            Ok(meaning)
        }
    }
}
