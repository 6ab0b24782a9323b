//! Uses of values, constructors and operators.

ghost use Rattle.std.specs.Prelude.{◌≡◌, [], ◌∷◌, ◌++◌, IfOk, OnOk};
ghost use Rattle.elm_tree.specs.Tree.{Long};
ghost use Rattle.elm_tree.specs.View as tree_view;
ghost use Rattle.elm_tree.specs.View.{word_view};
ghost use Rattle.elm_tree.specs.Turns.{tokens_view};
ghost use Rattle.elm_canon.specs.View.{expr_view};
ghost use Rattle.canon_env.specs.Naming as naming;
ghost use Rattle.canon_env.specs.Found.{One, meant_by};
ghost use Rattle.canon_env.specs.Shown.{maker_meaning_view};
ghost use Rattle.canon_env.specs.Naming.{IsWorld, maker_found, own_name};
ghost use Rattle.canon_env.specs.Sites.{ValueUse, MakerUse, OperatorUse, value_meaning, at_long};
ghost use Rattle.canon_expr.specs.Scope.{locals_of};
ghost use Rattle.canon_expr.specs.Logs.{Grows};
ghost use Rattle.canon_expr.specs.Calls.{callee_view};
ghost use Rattle.canon_expr.specs.Callees.{Maker, blank, alone, plain, maker_head, value_of};

use crate::callee::{Callee, Head, top_name};
use crate::log::Log;
use crate::long::LongName;
use crate::scope::Scope;
use crate::values::value_use;
use canon_env::env::World;
use canon_env::finding::place_at;
use canon_env::found::{Entry, Meant};
use canon_env::shown::MakerMeaning;
use elm_base::fault::Code;
use elm_base::names::Name;
use elm_base::position::Pos;
use elm_canon::tree::{Expr, Literal};
use elm_canon::unions::{Alternative, Union};
use elm_lexer::token::Token;
use elm_tree::operator::strength_of;
use elm_tree::tree::Word;
use elm_tree::turns::text_at;
use std::alloc::{AllocError, Global};

/// The level past that of each operator of the language.
const NO_LEVEL: u8 = 10;

/// What a use without meaning is.
#[tactic(auto, using(elm_canon::proofs::Views::literal))]
fn blank() -> Expr
    ensures { expr_view result ≡ blank }
{
    Expr::Literal(Literal::Int(0))
}

/// The same, as what is called.
fn nothing(alloc: Global) -> Result<Callee, AllocError>
    ensures { IfOk result (λ c. callee_view c ≡ plain blank) }
{
    Callee::of(alloc, blank())
}

/// The value that the name means that the word `word` is, where it stands: a local name of `scope`, or else a name of
/// the module or of its imports. What has no meaning is 0. A fault of the use is noted, and else the place where a
/// local name is bound that is used. The word is of the text of the tokens `tokens`. The error means that memory ran
/// out.
pub fn value_at(
    alloc: Global,
    tokens: &[Token<'_>],
    world: &World,
    scope: &Scope,
    log: &mut Log,
    word: Word,
) -> Result<Expr, AllocError>
    ensures meaning { IfOk result (λ e. (w : naming.World) → IsWorld world.now w → expr_view e
        ≡ value_of (tree_view.long_view (tokens_view tokens.now) word)
        (value_meaning w (locals_of scope.now) (tree_view.long_view (tokens_view tokens.now) word))) }
    ensures log { OnOk result ((w : naming.World) → IsWorld world.now w → Grows w log.old log.new
        (ValueUse (locals_of scope.now) (tree_view.long_view (tokens_view tokens.now) word) ∷ [])) }
{
    match value_use(alloc, tokens, world, scope, log, word)? {
        Some(reference) => {
            let name = Box::new(alloc, Expr::Name(reference))?;
            Ok(Expr::Located(place_at(tokens, word), name))
        }
        None => Ok(blank()),
    }
}

/// A constructor of a union, as what is called.
fn union_maker(
    alloc: Global,
    place: Pos,
    home: Name,
    name: Name,
    union: &Union,
    alternative: &Alternative,
) -> Result<Callee, AllocError>
    ensures { IfOk result (λ c. callee_view c ≡ alone (Maker place home name union.now alternative.now)) }
{
    let union = union.clone()?;
    let alternative = alternative.clone()?;
    Ok(Callee {
        head: Head::Maker(place, home, name, union, alternative),
        arguments: Vec::new(alloc),
    })
}

/// The constructor that an entry has, as what is called.
fn maker_of(
    alloc: Global,
    place: Pos,
    name: Name,
    meant: &Meant<MakerMeaning>,
) -> Result<Callee, AllocError>
    ensures { IfOk result (λ c. (x : Long) → x.place ≡ place → own_name x ≡ name → callee_view c
        ≡ alone (maker_head x (One (meant_by maker_meaning_view meant.now)))) }
{
    let home = meant.home.clone()?;
    match &meant.meaning {
        MakerMeaning::OfUnion(union, alternative) => {
            union_maker(alloc, place, home, name, union, alternative)
        }
        MakerMeaning::OfRecord(_) => Callee::of(alloc, top_name(alloc, place, home, name)?),
    }
}

/// What a name means that means no constructor, whose fault is noted.
fn no_maker(
    alloc: Global,
    tokens: &[Token<'_>],
    log: &mut Log,
    code: Code,
    word: Word,
) -> Result<Callee, AllocError>
    ensures meaning { IfOk result (λ c. callee_view c ≡ plain blank) }
    ensures findings { OnOk result (log.new.findings.items ≡ log.old.findings.items
        ++ at_long code (tree_view.long_view (tokens_view tokens.now) word) ∷ []) }
    ensures uses { OnOk result (log.new.uses.items ≡ log.old.uses.items) }
{
    log.note_name(alloc, tokens, code, word)?;
    nothing(alloc)
}

/// The constructor that the name means that the word `word` is, as what is called: one of the module or of its imports.
/// What has no meaning is 0. A fault of the use is noted. The word is of the text of the tokens `tokens`. The error
/// means that memory ran out.
pub fn maker_at(
    alloc: Global,
    tokens: &[Token<'_>],
    world: &World,
    log: &mut Log,
    word: Word,
) -> Result<Callee, AllocError>
    ensures meaning { IfOk result (λ c. (w : naming.World) → IsWorld world.now w → callee_view c
        ≡ alone (maker_head (tree_view.long_view (tokens_view tokens.now) word)
        (maker_found w (tree_view.long_view (tokens_view tokens.now) word)))) }
    ensures log { OnOk result ((w : naming.World) → IsWorld world.now w → Grows w log.old log.new
        (MakerUse (tree_view.long_view (tokens_view tokens.now) word) ∷ [])) }
{
    let long = LongName::read(alloc, tokens, word)?;
    match world.maker(&long.qualifier, &long.name) {
        Some(Entry::One(meant)) => maker_of(alloc, place_at(tokens, word), long.name, meant),
        Some(Entry::Several) => no_maker(alloc, tokens, log, Code::Ambiguous, word),
        None => no_maker(alloc, tokens, log, Code::UnknownConstructor, word),
    }
}

/// Notes that the operator `operator` is none of the language, if it is none. It is a word of the text of the tokens
/// `tokens`. The error means that memory ran out.
pub fn note_operator(
    alloc: Global,
    tokens: &[Token<'_>],
    log: &mut Log,
    operator: Word,
) -> Result<(), AllocError>
    ensures { OnOk result ((w : naming.World) → Grows w log.old log.new
        (OperatorUse (word_view (tokens_view tokens.now) operator) ∷ [])) }
{
    if strength_of(text_at(tokens, operator)).level < NO_LEVEL {
        return Ok(());
    }
    log.note_word(alloc, tokens, Code::UnknownOperator, operator)
}
