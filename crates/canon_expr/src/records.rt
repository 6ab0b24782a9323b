//! Records, by what the values of their fields mean.

ghost use Rattle.std.specs.Prelude.{◌≡◌, [], ◌∷◌, List, map, option_map, IfOk, OnOk};
ghost use Rattle.elm_lexer.specs.Tokens as lexed;
ghost use Rattle.elm_tree.specs.Tree as tree;
ghost use Rattle.elm_tree.specs.View.{place_view, word_view, part_view};
ghost use Rattle.elm_tree.specs.Turns.{tokens_view};
ghost use Rattle.elm_canon.specs.Tree as canon;
ghost use Rattle.elm_canon.specs.View.{expr_view, op_view};
ghost use Rattle.canon_env.specs.Imports.{name_of};
ghost use Rattle.canon_env.specs.Naming as naming;
ghost use Rattle.canon_env.specs.Naming.{IsWorld};
ghost use Rattle.canon_env.specs.Sites.{FieldsTogether};
ghost use Rattle.canon_expr.specs.Scope.{locals_of};
ghost use Rattle.canon_expr.specs.Logs.{Grows};
ghost use Rattle.canon_expr.specs.Calls.{callee_view};
ghost use Rattle.canon_expr.specs.Exprs.{at, part_words};
ghost use Rattle.canon_expr.specs.Records as spec;

use crate::callee::Callee;
use crate::fields::{names_of, note_fields, part_words};
use crate::forms::strict_at;
use crate::items::one_item;
use crate::log::Log;
use crate::scope::Scope;
use crate::uses::value_at;
use canon_env::env::World;
use elm_base::names::Name;
use elm_canon::tree::{Expr, Op};
use elm_lexer::token::Token;
use elm_tree::tree::{Part, Word};
use std::alloc::{AllocError, Global};

/// The value of the record that is changed, if there is one. A fault of its name is noted.
#[tactic(auto, using(crate::proofs::Growing::grows_none))]
pub(crate) fn base_values(
    alloc: Global,
    tokens: &[Token<'_>],
    world: &World,
    scope: &Scope,
    log: &mut Log,
    base: Option<Word>,
) -> Result<Vec<Expr>, AllocError>
    ensures meaning { IfOk result (λ v. (w : naming.World) → IsWorld world.now w → map expr_view v.items
        ≡ spec.base_values w (locals_of scope.now) (option_map (word_view (tokens_view tokens.now)) base)) }
    ensures log { OnOk result ((w : naming.World) → IsWorld world.now w → Grows w log.old log.new
        (spec.base_sites (locals_of scope.now) (option_map (word_view (tokens_view tokens.now)) base))) }
{
    match base {
        None => Ok(Vec::new(alloc)),
        Some(word) => {
            let value = value_at(alloc, tokens, world, scope, log, word)?;
            one_item(alloc, value)
        }
    }
}

/// What a record with these fields does with their values.
fn record_op(base: Option<Word>, names: Vec<Name>) -> Op
    ensures { (tokens : List lexed.Token)
        → op_view result ≡ spec.record_op (option_map (word_view tokens) base) names.items }
{
    match base {
        None => Op::Record(names),
        Some(_) => Op::Update(names),
    }
}

/// The record that begins at a word, by the values of the record that is changed, if there is one, and of its fields.
/// The names of the fields are noted.
pub(crate) fn record_of(
    alloc: Global,
    tokens: &[Token<'_>],
    log: &mut Log,
    first: Word,
    base: Option<Word>,
    fields: &[Part],
    values: Vec<Expr>,
) -> Result<Callee, AllocError>
    ensures meaning { IfOk result (λ c. callee_view c ≡ at (place_view (tokens_view tokens.now) first)
        (canon.Strict (spec.record_op (option_map (word_view (tokens_view tokens.now)) base)
        (map name_of (part_words (tree.parts_of (map (part_view (tokens_view tokens.now)) fields.now)))))
        (canon.exprs_of (map expr_view values.items)))) }
    ensures log { OnOk result ((w : naming.World) → Grows w log.old log.new
        (FieldsTogether (part_words (tree.parts_of (map (part_view (tokens_view tokens.now)) fields.now))) ∷ [])) }
{
    let words = part_words(alloc, fields)?;
    note_fields(alloc, tokens, log, &words)?;
    let names = names_of(alloc, tokens, &words)?;
    strict_at(alloc, tokens, first, record_op(base, names), values)
}
