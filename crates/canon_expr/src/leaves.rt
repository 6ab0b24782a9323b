//! Expressions of one word.

ghost use Rattle.std.specs.Prelude.{◌≡◌, ◌∷◌, [], IfOk, OnOk};
ghost use Rattle.elm_tree.specs.View as tree_view;
ghost use Rattle.elm_tree.specs.View.{place_view};
ghost use Rattle.elm_tree.specs.Words.{expr_of, field_of};
ghost use Rattle.elm_tree.specs.Turns.{tokens_view};
ghost use Rattle.elm_canon.specs.Tree as canon;
ghost use Rattle.canon_env.specs.Naming as naming;
ghost use Rattle.canon_env.specs.Naming.{IsWorld};
ghost use Rattle.canon_expr.specs.Scope.{locals_of};
ghost use Rattle.canon_expr.specs.Logs.{Grows};
ghost use Rattle.canon_expr.specs.Literals.{AreLiterals};
ghost use Rattle.canon_env.specs.Imports.{name_of};
ghost use Rattle.canon_env.specs.Sites.{ValueUse, OperatorUse, value_meaning};
ghost use Rattle.canon_expr.specs.Calls.{callee_view};
ghost use Rattle.canon_expr.specs.Callees.{plain, value_of};
ghost use Rattle.canon_expr.specs.Operators.{function_of};
ghost use Rattle.canon_expr.specs.Exprs as spec;

use crate::callee::Callee;
use crate::fields::field_name;
use crate::literal::{char_at, int_literal, text_value_at};
use crate::log::Log;
use crate::operators::core_function;
use crate::parts::kind_at;
use crate::scope::Scope;
use crate::uses::{maker_at, note_operator, value_at};
use canon_env::env::World;
use canon_env::finding::place_at;
use elm_canon::tree::{Expr, Literal};
use elm_lexer::token::{Kind, Token};
use elm_tree::tree::Word;
use std::alloc::{AllocError, Global};

/// A literal, where it stands.
#[tactic(auto, using(elm_canon::proofs::Views::literal))]
fn literal_at(
    alloc: Global,
    tokens: &[Token<'_>],
    word: Word,
    literal: Literal,
) -> Result<Callee, AllocError>
    ensures { IfOk result (λ c. callee_view c
        ≡ spec.at (place_view (tokens_view tokens.now) word) (canon.Is literal)) }
{
    Callee::at(alloc, place_at(tokens, word), Expr::Literal(literal))
}

/// The function of an operator in parentheses. That there is no such operator is noted.
fn operator_at(
    alloc: Global,
    tokens: &[Token<'_>],
    log: &mut Log,
    word: Word,
) -> Result<Callee, AllocError>
    ensures meaning { IfOk result (λ c. callee_view c
        ≡ plain (function_of (tree_view.word_view (tokens_view tokens.now) word))) }
    ensures log { OnOk result ((w : naming.World) → Grows w log.old log.new
        (OperatorUse (tree_view.word_view (tokens_view tokens.now) word) ∷ [])) }
{
    note_operator(alloc, tokens, log, word)?;
    Callee::of(alloc, core_function(alloc, tokens, word)?)
}

/// The function that takes a field out, `.x`.
fn accessor_at(alloc: Global, tokens: &[Token<'_>], word: Word) -> Result<Callee, AllocError>
    ensures { IfOk result (λ c. callee_view c ≡ spec.at (place_view (tokens_view tokens.now) word)
        (canon.Accessor (name_of (field_of (tree_view.token_view (tokens_view tokens.now) word))))) }
{
    let name = field_name(alloc, tokens, word)?;
    Callee::at(alloc, place_at(tokens, word), Expr::Accessor(name))
}

/// The value of a name. A fault of the use is noted, and else the place where a local name is bound that is used.
fn name_at(
    alloc: Global,
    tokens: &[Token<'_>],
    world: &World,
    scope: &Scope,
    log: &mut Log,
    word: Word,
) -> Result<Callee, AllocError>
    ensures meaning { IfOk result (λ c. (w : naming.World) → IsWorld world.now w → callee_view c
        ≡ plain (value_of (tree_view.long_view (tokens_view tokens.now) word)
        (value_meaning w (locals_of scope.now) (tree_view.long_view (tokens_view tokens.now) word)))) }
    ensures log { OnOk result ((w : naming.World) → IsWorld world.now w → Grows w log.old log.new
        (ValueUse (locals_of scope.now) (tree_view.long_view (tokens_view tokens.now) word) ∷ [])) }
{
    Callee::of(alloc, value_at(alloc, tokens, world, scope, log, word)?)
}

/// What the word `word` means, of which arguments may follow: a literal, a constructor, an operator in parentheses,
/// `.x`, or a name. It is of the text of the tokens `tokens`, as the lexer makes them; `world` has the names of the
/// module and its imports, and `scope` the local names. A fault of the use is noted in `log`, and else the place where a
/// local name is bound that is used. The error means that memory ran out.
pub fn one_word(
    alloc: Global,
    tokens: &[Token<'_>],
    world: &World,
    scope: &Scope,
    log: &mut Log,
    word: Word,
) -> Result<Callee, AllocError>
    requires { AreLiterals (tokens_view tokens.now) }
    ensures meaning { IfOk result (λ c. (w : naming.World) → IsWorld world.now w → callee_view c
        ≡ spec.callee w (locals_of scope.now) (expr_of (tree_view.token_view (tokens_view tokens.now) word))) }
    ensures log { OnOk result ((w : naming.World) → IsWorld world.now w → Grows w log.old log.new
        (spec.expr_sites w (locals_of scope.now) (expr_of (tree_view.token_view (tokens_view tokens.now) word)))) }
{
    match kind_at(tokens, word) {
        Kind::Int(value) => literal_at(alloc, tokens, word, int_literal(value)),
        Kind::Char => literal_at(alloc, tokens, word, char_at(alloc, tokens, word)?),
        Kind::Text => literal_at(alloc, tokens, word, text_value_at(alloc, tokens, word)?),
        Kind::UpperName => maker_at(alloc, tokens, world, log, word),
        Kind::QualifiedUpper => maker_at(alloc, tokens, world, log, word),
        Kind::Operator => operator_at(alloc, tokens, log, word),
        Kind::Field => accessor_at(alloc, tokens, word),
        _ => name_at(alloc, tokens, world, scope, log, word),
    }
}
