//! Derivations of tokens without a fault, or the fault.

ghost use Rattle.std.specs.Prelude.{◌≡◌, ◌^◌, ◌<◌, length, map, IfOk, IfErr, List};
ghost use Rattle.elm_lexer.specs.View.{token_view, place_view, IfFault};
ghost use Rattle.parse_machine.specs.declared.table.Token as machine;
ghost use Rattle.elm_grammar.specs.Classes.{classed};
ghost use Rattle.elm_grammar.specs.Table.{nonterminals};
ghost use Rattle.elm_parser.specs.Reading.{Faulty, FrontFaulty};
ghost use Rattle.elm_parser.specs.Scan.{finding_view, found_view};
ghost use Rattle.elm_parser.specs.Reported.{IsReported, or_syntax};
ghost use Rattle.elm_parser.specs.Steps.{HasSteps, HasFrontSteps};

use crate::fault::fault_of;
use crate::faults::{front_fault, text_fault};
use crate::finding::Finding;
use elm_base::fault::Code;
use elm_base::position::Pos;
use elm_grammar::classes::classed;
use elm_grammar::table::{rows, rules};
use elm_lexer::error::TextError;
use elm_lexer::token::Token;
use parse_machine::fault::Fault;
use parse_machine::reader::{parse, parse_front};
use parse_machine::table::{Step, Table};
use std::alloc::Global;

/// A finding, or else that no text goes on as the token at `index` does.
fn or_syntax(finding: Option<Finding>, index: usize) -> Finding
    requires { index < 2 ^ 32 }
    ensures { finding_view result ≡ or_syntax (found_view finding) index }
{
    match finding {
        Some(finding) => finding,
        None => Finding {
            index: index as u32,
            code: Code::Syntax,
        },
    }
}

/// The steps of the one derivation of all of the tokens from the nonterminal `start` under the column `column`, in
/// which no fault stands; or the fault.
pub fn whole<'a>(
    alloc: Global,
    tokens: &[Token<'a>],
    start: u8,
    column: u32,
    end: Pos,
) -> Result<Vec<Step>, TextError<'a>>
    requires few { length tokens.now < 2 ^ 32 }
    requires started { start < nonterminals }
    ensures read { IfOk result (λ v. HasSteps (map token_view tokens.now) start column v.items) }
    ensures fault { IfErr result (λ e. IfFault e (λ f. IsReported (map token_view tokens.now) (place_view end)
        (Faulty (map token_view tokens.now) start column (classed (map token_view tokens.now))) f)) }
{
    let classes = classed(alloc, tokens)?;
    let table = Table {
        rules: rules(),
        rows: rows(),
    };
    match parse(alloc, table, start, column, &classes) {
        Ok(steps) => match text_fault(alloc, tokens, &steps)? {
            None => Ok(steps),
            Some(finding) => Err(TextError::Fault(fault_of(tokens, end, finding))),
        },
        Err(Fault::Memory) => Err(TextError::NoMemory),
        Err(Fault::At { at, steps }) => {
            let found = front_fault(alloc, tokens, &steps)?;
            let finding = or_syntax(found, classes.len() - at.len());
            Err(TextError::Fault(fault_of(tokens, end, finding)))
        }
    }
}

/// The steps of the one derivation of the longest front of the tokens that begins a text, in which no fault stands, and
/// how many tokens follow it; or the fault.
pub fn front<'a>(
    alloc: Global,
    tokens: &[Token<'a>],
    start: u8,
    column: u32,
    end: Pos,
) -> Result<(Vec<Step>, usize), TextError<'a>>
    requires few { length tokens.now < 2 ^ 32 }
    requires started { start < nonterminals }
    ensures read { IfOk result (λ v. (rest : List machine.Token) × (length rest ≡ v.1)
        × HasFrontSteps (map token_view tokens.now) start column rest v.0.items) }
    ensures fault { IfErr result (λ e. IfFault e (λ f. IsReported (map token_view tokens.now) (place_view end)
        (FrontFaulty (map token_view tokens.now) start column) f)) }
{
    let classes = classed(alloc, tokens)?;
    let table = Table {
        rules: rules(),
        rows: rows(),
    };
    match parse_front(alloc, table, start, column, &classes) {
        Ok((steps, rest)) => match text_fault(alloc, tokens, &steps)? {
            None => Ok((steps, rest.len())),
            Some(finding) => Err(TextError::Fault(fault_of(tokens, end, finding))),
        },
        Err(Fault::Memory) => Err(TextError::NoMemory),
        Err(Fault::At { at, steps }) => {
            let found = front_fault(alloc, tokens, &steps)?;
            let finding = or_syntax(found, classes.len() - at.len());
            Err(TextError::Fault(fault_of(tokens, end, finding)))
        }
    }
}
