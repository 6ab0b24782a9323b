//! Which production one token chooses.

ghost use Rattle.std.specs.Prelude.{◌≡◌, Option, option_map, Some};
ghost use Rattle.parse_machine.specs.Plan.{look, select};
ghost use Rattle.parse_machine.specs.Rows.{cell, plan_of, takes_row, place, choice_of, part_row, line_row, own_row};
ghost use Rattle.parse_machine.specs.Rows.{block_row};

use crate::table::{Row, Symbol, Token};

/// The production to take, and the place and the column of what it stands for.
#[derive(Clone, Copy)]
pub struct Choice {
    pub rule: u16,
    pub leading: bool,
    pub column: u32,
}

/// The production that a cell names.
fn named(cell: u16) -> Option<u16>
    ensures { result ≡ Rattle.parse_machine.specs.Rows.number cell }
{
    if cell == 0 { None } else { Some(cell - 1) }
}

fn entry(cells: &[u16], class: u8) -> Option<u16>
    ensures { result ≡ cell cells.now class }
{
    match cells.get(class as usize) {
        Some(number) => named(*number),
        None => None,
    }
}

fn takes(row: &Row, leading: bool, column: u32, token: Token) -> Option<u16>
    ensures { result ≡ takes_row (Some row.now) (look (place leading) column token) }
{
    if leading {
        if token.column == column {
            entry(&row.beyond, token.class)
        } else {
            None
        }
    } else if token.column > column {
        entry(&row.beyond, token.class)
    } else if token.column == column {
        entry(&row.level, token.class)
    } else {
        None
    }
}

fn part(row: &Row, leading: bool, column: u32, at: &[Token]) -> Option<u16>
    ensures { result ≡ part_row (Some row.now) (place leading) column at.now }
{
    match at {
        [token, ..] => match takes(row, leading, column, *token) {
            Some(rule) => Some(rule),
            None => named(row.empty),
        },
        [] => named(row.empty),
    }
}

fn line(row: &Row, leading: bool, column: u32, at: &[Token]) -> Option<u16>
    ensures { result ≡ line_row (Some row.now) (place leading) column at.now }
{
    match at {
        [token, ..] if !leading && token.column == column => entry(&row.beyond, token.class),
        _ => None,
    }
}

fn at_own_column(row: &Row, token: Token) -> Option<Choice>
    ensures { option_map choice_of result ≡ own_row (Some row.now) token }
{
    let rule = entry(&row.level, token.class)?;
    Some(Choice {
        rule,
        leading: false,
        column: token.column,
    })
}

fn block(row: &Row, leading: bool, column: u32, at: &[Token]) -> Option<Choice>
    ensures { option_map choice_of result ≡ block_row (Some row.now) (place leading) column at.now }
{
    match at {
        [token, ..] if !leading && token.column > column => at_own_column(row, *token),
        _ => None,
    }
}

/// What stands at a symbol that is no word, by the next token.
pub fn select(
    rows: &[Row],
    symbol: Symbol,
    leading: bool,
    column: u32,
    at: &[Token],
) -> Option<Choice>
    ensures { option_map choice_of result ≡ select (plan_of rows.now) symbol (place leading) column at.now }
{
    match symbol {
        Symbol::Word(_) => None,
        Symbol::Part(n) => {
            let row = rows.get(n as usize)?;
            let rule = part(row, leading, column, at)?;
            Some(Choice {
                rule,
                leading,
                column,
            })
        }
        Symbol::Line(n) => {
            let row = rows.get(n as usize)?;
            let rule = line(row, leading, column, at)?;
            Some(Choice {
                rule,
                leading: true,
                column,
            })
        }
        Symbol::Block(n) => {
            let row = rows.get(n as usize)?;
            block(row, leading, column, at)
        }
    }
}
