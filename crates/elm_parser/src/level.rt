//! What is kept of a place in a derivation: what may still come in the constructs and lists around it.

ghost use Rattle.std.specs.Prelude.{◌≡◌, ◌≤◌, ◌-◌, ◌&&◌, map, get_or, None, if◌then◌else◌};
ghost use Rattle.elm_lexer.specs.View.{token_view};
ghost use Rattle.elm_tree.specs.Regroup.{level_of};
ghost use Rattle.elm_parser.specs.Faults.{begins_with, openers, is_one_of, operators, same_name};
ghost use Rattle.elm_parser.specs.Scan.{outermost, below, slot, sides_after, operator_word, with_operator, with_comma};
ghost use Rattle.elm_parser.specs.Scan.{read, clash_with, clashes, name_in, annotated_by, passed};

use crate::production::{annotates, goes_on, is_entry, is_named, is_operator, opens};
use elm_lexer::token::Token;
use elm_tree::operator::Side;
use elm_tree::tree::Word;
use elm_tree::turns::{differ, strength_at, text_at};
use parse_machine::table::{Step, Token as Classed};

/// How many levels of operators there are.
pub const LEVELS: usize = 11;

/// The class of a comma.
pub(crate) const COMMA: u8 = 21;

/// What may still come around a place, and what came before it in the list around it.
#[derive(Clone, Copy)]
pub struct Level {
    /// How many more constructs may be opened, one of which is a construct too many.
    pub constructs_left: u16,
    /// How many more operators the chain may have.
    pub operators_left: u16,
    /// How many more commas the tuple may have.
    pub commas_left: u8,
    /// For each level of operators, the side of the nearest one in the chain after which none of a lower level comes.
    pub sides: [Option<Side>; LEVELS],
    /// The name that the entry before annotates.
    pub annotated: Option<Classed>,
}

fn constructs_below(left: u16, number: u16) -> u16
    ensures { result ≡ (if begins_with openers number then left - 1 else left) }
{
    if opens(number) {
        left.saturating_sub(1)
    } else {
        left
    }
}

fn slot(sides: &[Option<Side>], place: usize, level: usize, side: Side) -> Option<Side>
    ensures { result ≡ slot sides.now place level side }
{
    if place < level {
        match sides.get(place) {
            Some(before) => *before,
            None => None,
        }
    } else if place == level {
        Some(side)
    } else {
        None
    }
}

/// The sides of the nearest operators, after one more operator.
fn sides_after(sides: &[Option<Side>], level: usize, side: Side) -> [Option<Side>; LEVELS]
    ensures { result ≡ sides_after sides.now level side }
{
    [
        slot(sides, 0, level, side),
        slot(sides, 1, level, side),
        slot(sides, 2, level, side),
        slot(sides, 3, level, side),
        slot(sides, 4, level, side),
        slot(sides, 5, level, side),
        slot(sides, 6, level, side),
        slot(sides, 7, level, side),
        slot(sides, 8, level, side),
        slot(sides, 9, level, side),
        slot(sides, 10, level, side),
    ]
}

/// Whether two tokens have the same text.
pub(crate) fn same_name(tokens: &[Token<'_>], first: Classed, second: Classed) -> bool
    ensures { result ≡ same_name (map token_view tokens.now) first second }
{
    text_at(tokens, Word { index: first.index })
        == text_at(
            tokens,
            Word {
                index: second.index,
            },
        )
}

/// The name that an entry annotates, of which these are the first steps.
fn name_in(steps: &[Step]) -> Option<Classed>
    ensures { result ≡ name_in steps.now }
{
    match steps {
        [Step::Read(name), Step::Take(number), ..] if annotates(*number) => Some(*name),
        _ => None,
    }
}

/// The name that an entry annotates, if it does.
fn annotated_by(number: u16, steps: &[Step]) -> Option<Classed>
    ensures { result ≡ annotated_by number steps.now }
{
    if is_named(number) {
        name_in(steps)
    } else {
        None
    }
}

impl Level {
    /// Outside of all lists.
    pub(crate) fn outermost(constructs_left: u16) -> Level
        ensures { result ≡ outermost constructs_left }
    {
        Level {
            constructs_left,
            operators_left: 1024,
            commas_left: 2,
            sides: [None; LEVELS],
            annotated: None,
        }
    }

    /// Below a production.
    pub(crate) fn below(self, number: u16) -> Level
        ensures { result ≡ below self number }
    {
        let constructs_left = constructs_below(self.constructs_left, number);
        if goes_on(number) {
            Level {
                constructs_left,
                ..self
            }
        } else {
            Level::outermost(constructs_left)
        }
    }

    fn with_operator(self, tokens: &[Token<'_>], token: Classed) -> Level
        ensures { result ≡ with_operator (map token_view tokens.now) self token }
    {
        let strength = strength_at(tokens, Word { index: token.index });
        Level {
            operators_left: self.operators_left.saturating_sub(1),
            sides: sides_after(&self.sides, strength.level as usize, strength.side),
            ..self
        }
    }

    fn with_comma(self, token: Classed) -> Level
        ensures { result ≡ with_comma token self }
    {
        if token.class == COMMA {
            Level {
                commas_left: self.commas_left.saturating_sub(1),
                ..self
            }
        } else {
            self
        }
    }

    /// After a token.
    pub(crate) fn read(self, tokens: &[Token<'_>], token: Classed) -> Level
        ensures { result ≡ read (map token_view tokens.now) self token }
    {
        if is_operator(token.class) {
            self.with_operator(tokens, token).with_comma(token)
        } else {
            self.with_comma(token)
        }
    }

    /// After a production, below which these are the first steps.
    pub(crate) fn passed(self, number: u16, steps: &[Step]) -> Level
        ensures { result ≡ passed self number steps.now }
    {
        if is_entry(number) {
            Level {
                annotated: annotated_by(number, steps),
                ..self
            }
        } else {
            self
        }
    }

    /// Whether a token is an operator that does not group with one before it in the chain.
    pub(crate) fn clashes(&self, tokens: &[Token<'_>], token: Classed) -> bool
        ensures { result ≡ (is_one_of operators token.class && clashes (map token_view tokens.now) self.now token) }
    {
        if !is_operator(token.class) {
            return false;
        }
        let strength = strength_at(tokens, Word { index: token.index });
        match self.sides.get(strength.level as usize) {
            Some(Some(before)) => differ(*before, strength.side),
            _ => false,
        }
    }
}
