//! One pass over the steps of a derivation.

ghost use Rattle.std.specs.Prelude.{◌≡◌, ◌&&◌, List, None, Some, map, reverse, IfOk, OnOk, nat_eq};
ghost use Rattle.elm_lexer.specs.View.{token_view};
ghost use Rattle.elm_grammar.specs.Classes.{comma};
ghost use Rattle.elm_parser.specs.Faults.{is_one_of, openers, operators};
ghost use Rattle.elm_parser.specs.Scan.{found_view, first_among, at_token, next_of, same_named, by_name};
ghost use Rattle.elm_parser.specs.Scan.{after_annotation, at_production, push, bottom, scan};

use crate::finding::{Finding, note, note_lone};
use crate::level::{COMMA, Level, same_name};
use crate::production::{annotates, ends_block, is_entry, is_named, is_opener, is_operator, size};
use elm_base::fault::Code;
use elm_lexer::token::Token;
use parse_machine::table::{Step, Token as Classed};
use std::alloc::{AllocError, Global};

/// The symbols of a production that are left, and their level.
#[derive(Clone, Copy)]
pub struct Frame {
    pub left: usize,
    pub level: Level,
}

fn opens_too_many(level: &Level, token: Classed) -> bool
    ensures { result ≡ (is_one_of openers token.class && nat_eq level.now.constructs_left 0) }
{
    is_opener(token.class) && level.constructs_left == 0
}

fn joins_too_many(level: &Level, token: Classed) -> bool
    ensures { result ≡ (is_one_of operators token.class && nat_eq level.now.operators_left 0) }
{
    is_operator(token.class) && level.operators_left == 0
}

fn precedes_too_many(level: &Level, token: Classed) -> bool
    ensures { result ≡ (nat_eq token.class comma && nat_eq level.now.commas_left 0) }
{
    token.class == COMMA && level.commas_left == 0
}

/// What was found, and the faults at a token.
fn at_token(
    tokens: &[Token<'_>],
    level: &Level,
    token: Classed,
    found: Option<Finding>,
    ended: bool,
) -> Option<Finding>
    ensures { found_view result ≡ first_among ended (found_view found)
        (at_token (map token_view tokens.now) level.now token) }
{
    let found = note(
        found,
        opens_too_many(level, token),
        token,
        Code::TooDeep,
        ended,
    );
    let found = note(
        found,
        joins_too_many(level, token),
        token,
        Code::TooDeep,
        ended,
    );
    let clashes = level.clashes(tokens, token);
    let found = note(found, clashes, token, Code::MixedOperators, ended);
    let large = precedes_too_many(level, token);
    note(found, large, token, Code::TupleTooLarge, ended)
}

/// The next token that is read.
fn next_of(steps: &[Step]) -> Option<Classed>
    ensures { result ≡ next_of steps.now }
{
    let mut rest = steps;
    while let [step, after @ ..] = rest {
        if let Step::Read(token) = *step {
            return Some(token);
        }
        rest = after;
    }
    None
}

fn same_named(
    annotated: Classed,
    steps: &[Step],
    found: Option<Finding>,
    ended: bool,
) -> Option<Finding>
    ensures { found_view result ≡ first_among ended (found_view found) (same_named annotated steps.now) }
{
    match steps {
        [Step::Take(number), after @ ..] if annotates(*number) => {
            note_lone(found, annotated, next_of(after), ended)
        }
        _ => found,
    }
}

fn by_name(
    tokens: &[Token<'_>],
    annotated: Classed,
    steps: &[Step],
    found: Option<Finding>,
    ended: bool,
) -> Option<Finding>
    ensures { found_view result ≡ first_among ended (found_view found)
        (by_name (map token_view tokens.now) annotated steps.now) }
{
    match steps {
        [Step::Read(name), after @ ..] => {
            if same_name(tokens, annotated, *name) {
                same_named(annotated, after, found, ended)
            } else {
                note_lone(found, annotated, Some(*name), ended)
            }
        }
        _ => found,
    }
}

fn after_annotation(
    tokens: &[Token<'_>],
    annotated: Classed,
    number: u16,
    steps: &[Step],
    found: Option<Finding>,
    ended: bool,
) -> Option<Finding>
    ensures { found_view result ≡ first_among ended (found_view found)
        (after_annotation (map token_view tokens.now) annotated number steps.now) }
{
    if is_named(number) {
        by_name(tokens, annotated, steps, found, ended)
    } else if is_entry(number) {
        note_lone(found, annotated, next_of(steps), ended)
    } else if ends_block(number) {
        note_lone(found, annotated, next_of(steps), ended)
    } else {
        found
    }
}

/// What was found, and the fault at a production.
fn at_production(
    tokens: &[Token<'_>],
    annotated: Option<Classed>,
    number: u16,
    steps: &[Step],
    found: Option<Finding>,
    ended: bool,
) -> Option<Finding>
    ensures { found_view result ≡ first_among ended (found_view found)
        (at_production (map token_view tokens.now) annotated number steps.now) }
{
    match annotated {
        Some(name) => after_annotation(tokens, name, number, steps, found, ended),
        None => found,
    }
}

/// Puts a frame on the stack, unless no symbol is left in it.
fn push(stack: &mut Vec<Frame>, left: usize, level: Level) -> Result<(), AllocError>
    ensures { OnOk result (reverse stack.new.items ≡ push left level (reverse stack.old.items)) }
{
    if left == 0 {
        return Ok(());
    }
    stack.push(Frame { left, level })?;
    Ok(())
}

/// The first fault that steps tell.
pub(crate) fn scan(
    alloc: Global,
    tokens: &[Token<'_>],
    steps: &[Step],
    ended: bool,
) -> Result<Option<Finding>, AllocError>
    ensures { IfOk result (λ r. found_view r ≡ first_among ended None
        (scan (map token_view tokens.now) bottom steps.now)) }
{
    let mut stack = Vec::new(alloc);
    push(&mut stack, 1, Level::outermost(257))?;
    let mut found = None;
    let mut rest = steps;
    while let [step, after @ ..] = rest {
        let Some(frame) = stack.pop() else {
            return Ok(found);
        };
        match *step {
            Step::Read(token) => {
                found = at_token(tokens, &frame.level, token, found, ended);
                let level = frame.level.read(tokens, token);
                push(&mut stack, frame.left.saturating_sub(1), level)?;
            }
            Step::Take(number) => {
                found = at_production(tokens, frame.level.annotated, number, after, found, ended);
                let level = frame.level.passed(number, after);
                push(&mut stack, frame.left.saturating_sub(1), level)?;
                push(&mut stack, size(number), frame.level.below(number))?;
            }
        }
        rest = after;
    }
    Ok(found)
}
