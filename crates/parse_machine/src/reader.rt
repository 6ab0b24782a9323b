//! Reads the tokens of a text of a given kind, or the longest front of them that begins one.

ghost use Rattle.std.specs.Prelude.{◌≡◌, ◌↔◌, ◌<◌, ◌∷◌, [], true, length, take, IfOk, IfErr, IsTrue};
ghost use Rattle.parse_machine.specs.Grammar.{IsReading, IsFront, IsFault, IsFrontFault, HasFault};
ghost use Rattle.parse_machine.specs.Planned.{planned};
ghost use Rattle.parse_machine.specs.Rows.{grammar_of};
ghost use Rattle.parse_machine.specs.declared.table.Symbol.TheVariants.{Part};

use crate::fault::Fault;
use crate::machine::{Stop, run};
use crate::table::{Step, Symbol, Table, Token};
use std::alloc::Global;

/// The fault at which the machine stopped.
fn fault_of<'a>(stop: Stop<'a>) -> Fault<'a>
    ensures { HasFault result stop.entry.at.now (take stop.entry.sure stop.entry.steps.items) }
{
    let mut steps = stop.steps;
    steps.truncate(stop.sure);
    Fault::At { at: stop.at, steps }
}

/// Whether nothing was left to be read, and no token is left.
fn is_whole(stop: &Stop<'_>) -> bool
    ensures { IsTrue result ↔ (stop.now.whole ≡ true) × (stop.now.at.now ≡ []) }
{
    stop.whole && stop.at.is_empty()
}

/// The steps of the one derivation of the tokens from the nonterminal `start` under the enclosing column `column`. The
/// tokens have none exactly where it reports a fault.
pub fn parse<'a>(
    alloc: Global,
    table: Table<'_>,
    start: u8,
    column: u32,
    tokens: &'a [Token],
) -> Result<Vec<Step>, Fault<'a>>
    requires planned { IsTrue (planned (grammar_of table.rules.now) table.rows.now) }
    requires started { start < length table.rows.now }
    ensures read { IfOk result (λ v.
        IsReading (grammar_of table.entry.rules.now) (Part start ∷ []) column tokens.now v.items) }
    ensures fault { IfErr result (λ f.
        IsFault (grammar_of table.entry.rules.now) (Part start ∷ []) column tokens.now f) }
{
    let begin = [Symbol::Part(start)];
    let stop = run(alloc, table.rules, table.rows, &begin, column, tokens)?;
    if is_whole(&stop) {
        Ok(stop.steps)
    } else {
        Err(fault_of(stop))
    }
}

/// Reads the longest front of the tokens that begins what the nonterminal `start` stands for under the enclosing column
/// `column`: the steps of its one derivation, and the tokens after it. It reports a fault exactly where that front has
/// no derivation itself.
pub fn parse_front<'a>(
    alloc: Global,
    table: Table<'_>,
    start: u8,
    column: u32,
    tokens: &'a [Token],
) -> Result<(Vec<Step>, &'a [Token]), Fault<'a>>
    requires planned { IsTrue (planned (grammar_of table.rules.now) table.rows.now) }
    requires started { start < length table.rows.now }
    ensures read { IfOk result (λ v.
        IsFront (grammar_of table.entry.rules.now) (Part start ∷ []) column tokens.now v.1.now v.0.items) }
    ensures fault { IfErr result (λ f.
        IsFrontFault (grammar_of table.entry.rules.now) (Part start ∷ []) column tokens.now f) }
{
    let begin = [Symbol::Part(start)];
    let stop = run(alloc, table.rules, table.rows, &begin, column, tokens)?;
    if stop.whole {
        Ok((stop.steps, stop.at))
    } else {
        Err(fault_of(stop))
    }
}
