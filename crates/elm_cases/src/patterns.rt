//! Patterns as texts.

use crate::page::Page;
use elm_tree::tree::{Pattern, Word};
use std::alloc::AllocError;

/// What stands as a parameter without brackets.
const ATOM: u8 = 0;
/// What stands beside `::` without brackets.
const OPERAND: u8 = 1;
/// What stands before `as` without brackets.
const NAMED: u8 = 2;

/// How loosely the parts of a pattern hang together.
fn looseness(pattern: &Pattern) -> u8 {
    match pattern {
        Pattern::Construct(_, arguments) => { if arguments.len() == 0 { ATOM } else { OPERAND } }
        Pattern::Cons(_, _) => NAMED,
        Pattern::As(_, _, _) => 3,
        _ => ATOM,
    }
}

/// Whether a pattern that a definition takes apart stands without brackets.
fn is_taken_apart(page: &Page<'_, '_>, pattern: &Pattern) -> bool {
    match pattern {
        Pattern::OneWord(word) => !page.is_name(*word),
        _ => looseness(pattern) == ATOM,
    }
}

/// Writes a pattern that a definition takes apart.
pub fn put_destructured(page: &mut Page<'_, '_>, pattern: &Pattern) -> Result<(), AllocError> {
    let bare = is_taken_apart(page, pattern);
    page.open_bracket(bare)?;
    put_pattern(page, pattern)?;
    page.close_bracket(bare)
}

/// Writes a pattern.
#[cycle(patterns)]
pub fn put_pattern(page: &mut Page<'_, '_>, pattern: &Pattern) -> Result<(), AllocError> {
    match pattern {
        Pattern::OneWord(word) => page.word(*word),
        Pattern::Negative(sign, number) => page.both(*sign, *number),
        Pattern::Construct(name, arguments) => put_construct(page, *name, arguments),
        Pattern::Cons(_, patterns) => put_conses(page, patterns),
        Pattern::List(_, patterns) => put_listed(page, "[", patterns, "]"),
        Pattern::Tuple(_, patterns) => put_listed(page, "(", patterns, ")"),
        Pattern::Fields(_, names) => page.braced(names),
        Pattern::As(_, inner, name) => put_named(page, inner, *name),
    }
}

/// Writes a pattern, in brackets if it is looser than `most`.
#[cycle(patterns)]
fn put_part(page: &mut Page<'_, '_>, pattern: &Pattern, most: u8) -> Result<(), AllocError> {
    let bare = looseness(pattern) <= most;
    page.open_bracket(bare)?;
    put_pattern(page, pattern)?;
    page.close_bracket(bare)
}

#[cycle(patterns)]
fn put_construct(
    page: &mut Page<'_, '_>,
    name: Word,
    arguments: &Vec<Pattern>,
) -> Result<(), AllocError> {
    page.word(name)?;
    put_parameters(page, arguments)
}

#[cycle(patterns)]
fn put_named(page: &mut Page<'_, '_>, inner: &Box<Pattern>, name: Word) -> Result<(), AllocError> {
    put_part(page, inner, NAMED)?;
    page.put(" as ")?;
    page.word(name)
}

/// Writes parameters with a space before each.
#[cycle(patterns)]
pub fn put_parameters(page: &mut Page<'_, '_>, patterns: &Vec<Pattern>) -> Result<(), AllocError> {
    for place in 0..patterns.len() {
        page.put(" ")?;
        put_part(page, &patterns[place], ATOM)?;
    }
    Ok(())
}

#[cycle(patterns)]
fn put_conses(page: &mut Page<'_, '_>, patterns: &Vec<Pattern>) -> Result<(), AllocError> {
    for place in 0..patterns.len() {
        page.between(place, " :: ")?;
        put_part(page, &patterns[place], OPERAND)?;
    }
    Ok(())
}

#[cycle(patterns)]
fn put_listed(
    page: &mut Page<'_, '_>,
    before: &str,
    patterns: &Vec<Pattern>,
    after: &str,
) -> Result<(), AllocError> {
    page.put(before)?;
    for place in 0..patterns.len() {
        page.between(place, ", ")?;
        put_pattern(page, &patterns[place])?;
    }
    page.put(after)
}
