//! The machine: a stack of what is still to be read.

ghost use Rattle.std.specs.Prelude.{◌≡◌, ◌↔◌, List, [], ◌∷◌, IfOk, OnOk, IsTrue, MatchOption};
ghost use Rattle.parse_machine.specs.declared.table.Symbol.TheVariants.{Word};
ghost use Rattle.parse_machine.specs.declared.table.Token.{Token};
ghost use Rattle.parse_machine.specs.Grammar.{Holds, Stands};
ghost use Rattle.parse_machine.specs.Plan.{IsNoWord, WordAt};
ghost use Rattle.parse_machine.specs.Planned.{planned};
ghost use Rattle.parse_machine.specs.Rows.{grammar_of, place};
ghost use Rattle.parse_machine.specs.Stopped.{IsStart, IsStop, set_aside};

use crate::choice::select;
use crate::table::{Row, Rule, Step, Symbol, Token};
use std::alloc::{AllocError, Global};

/// What is still to be read, under which column, and whether its first token stands in the column itself.
#[derive(Clone, Copy)]
struct Frame<'a> {
    rest: &'a [Symbol],
    column: u32,
    leading: bool,
}

/// Where the machine stopped.
#[derive(Drop)]
pub struct Stop<'a> {
    /// The steps that it took.
    pub steps: Vec<Step>,
    /// How many of them it took up to the last token.
    pub sure: usize,
    /// The tokens that are left.
    pub at: &'a [Token],
    /// Nothing was left to be read.
    pub whole: bool,
}

/// Whether the class is one of the set.
fn is_one_of(set: u64, class: u8) -> bool
    ensures { IsTrue result ↔ Holds set class }
{
    class < 64 && (set >> class) % 2 == 1
}

/// Whether the token stands where it must.
fn stands(leading: bool, column: u32, token: Token) -> bool
    ensures { IsTrue result ↔ Stands (place leading) column token }
{
    if leading {
        token.column == column
    } else {
        token.column > column
    }
}

fn first<'a>(symbols: &'a [Symbol]) -> Option<(Symbol, &'a [Symbol])>
    ensures { MatchOption result (symbols.now ≡ []) (λ x. symbols.now ≡ x.0 ∷ x.1.now) }
{
    match symbols {
        [symbol, rest @ ..] => Some((*symbol, rest)),
        [] => None,
    }
}

fn next<'a>(tokens: &'a [Token]) -> Option<(Token, &'a [Token])>
    ensures { MatchOption result (tokens.now ≡ []) (λ x. tokens.now ≡ x.0 ∷ x.1.now) }
{
    match tokens {
        [token, rest @ ..] => Some((*token, rest)),
        [] => None,
    }
}

fn classes_of(symbol: Symbol) -> Option<u64>
    ensures { MatchOption result (IsNoWord symbol) (λ k. symbol ≡ Word k) }
{
    match symbol {
        Symbol::Word(classes) => Some(classes),
        _ => None,
    }
}

/// The token, if it is of one of these classes and stands where it must, and the tokens after it.
fn read<'a>(
    at: &'a [Token],
    classes: u64,
    leading: bool,
    column: u32,
) -> Option<(Token, &'a [Token])>
    ensures { MatchOption result
        ((t : Token) (rest : List Token) → WordAt (place leading) column classes at.now t rest → ⊥)
        (λ x. WordAt (place leading) column classes at.now x.0 x.1.now) }
{
    let (token, rest) = next(at)?;
    if is_one_of(classes, token.class) && stands(leading, column, token) {
        Some((token, rest))
    } else {
        None
    }
}

/// Puts a frame on the stack, unless nothing is left to be read in it.
fn set_aside<'a>(below: &mut Vec<Frame<'a>>, frame: Frame<'a>) -> Result<(), AllocError>
    ensures { OnOk result (below.new.items ≡ set_aside frame.entry below.old.items) }
{
    if frame.rest.is_empty() {
        return Ok(());
    }
    below.push(frame)?;
    Ok(())
}

/// Reads tokens as `begin` asks for them under the column, until nothing is left to be read or the next token does not
/// fit.
pub fn run<'s, 'a>(
    alloc: Global,
    rules: &[Rule<'s>],
    rows: &[Row],
    begin: &'s [Symbol],
    column: u32,
    tokens: &'a [Token],
) -> Result<Stop<'a>, AllocError>
    requires planned { IsTrue (planned (grammar_of rules.now) rows.now) }
    requires begun { IsStart rows.now begin.now }
    ensures { IfOk result (λ s.
        IsStop (grammar_of rules.now) begin.now column tokens.now s.steps.items s.sure s.at.now s.whole) }
{
    let mut below: Vec<Frame<'s>> = Vec::new(alloc);
    let mut steps: Vec<Step> = Vec::new(alloc);
    let mut sure = 0usize;
    let mut top = Frame {
        rest: begin,
        column,
        leading: false,
    };
    let mut at = tokens;
    'tokens: loop {
        'steps: loop {
            match first(top.rest) {
                None => match below.pop() {
                    Some(frame) => top = frame,
                    None => {
                        return Ok(Stop {
                            steps,
                            sure,
                            at,
                            whole: true,
                        });
                    }
                },
                Some((symbol, rest)) => match classes_of(symbol) {
                    Some(classes) => match read(at, classes, top.leading, top.column) {
                        Some((token, others)) => {
                            steps.push(Step::Read(token))?;
                            sure = steps.len();
                            top = Frame {
                                rest,
                                column: top.column,
                                leading: false,
                            };
                            at = others;
                            break 'steps;
                        }
                        None => {
                            return Ok(Stop {
                                steps,
                                sure,
                                at,
                                whole: false,
                            });
                        }
                    },
                    None => match select(rows, symbol, top.leading, top.column, at) {
                        Some(choice) => {
                            let right = rules[choice.rule as usize].right;
                            set_aside(
                                &mut below,
                                Frame {
                                    rest,
                                    column: top.column,
                                    leading: false,
                                },
                            )?;
                            steps.push(Step::Take(choice.rule))?;
                            top = Frame {
                                rest: right,
                                column: choice.column,
                                leading: choice.leading,
                            };
                        }
                        None => {
                            return Ok(Stop {
                                steps,
                                sure,
                                at,
                                whole: false,
                            });
                        }
                    },
                },
            }
        }
    }
}
