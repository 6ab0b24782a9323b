//! Types as texts.

use crate::page::Page;
use elm_tree::tree::{FieldType, TypeTree, Word};
use std::alloc::AllocError;

/// What stands as an argument without brackets.
const ATOM: u8 = 0;
/// What stands beside an arrow without brackets.
const OPERAND: u8 = 1;

/// How loosely the parts of a type hang together.
fn looseness(tree: &TypeTree) -> u8 {
    match tree {
        TypeTree::Named(_, arguments) => { if arguments.len() == 0 { ATOM } else { OPERAND } }
        TypeTree::Function(_) => 2,
        _ => ATOM,
    }
}

/// Writes a type.
#[cycle(types)]
pub fn put_type(page: &mut Page<'_, '_>, tree: &TypeTree) -> Result<(), AllocError> {
    match tree {
        TypeTree::Variable(name) => page.word(*name),
        TypeTree::Named(name, arguments) => put_named(page, *name, arguments),
        TypeTree::Function(types) => put_arrows(page, types),
        TypeTree::Tuple(types) => put_tuple(page, types),
        TypeTree::Record(base, fields) => put_record(page, *base, fields),
    }
}

/// Writes a type, in brackets if it is looser than `most`.
#[cycle(types)]
fn put_part(page: &mut Page<'_, '_>, tree: &TypeTree, most: u8) -> Result<(), AllocError> {
    let bare = looseness(tree) <= most;
    page.open_bracket(bare)?;
    put_type(page, tree)?;
    page.close_bracket(bare)
}

/// Writes a name, and arguments with a space before each.
#[cycle(types)]
pub fn put_named(
    page: &mut Page<'_, '_>,
    name: Word,
    types: &Vec<TypeTree>,
) -> Result<(), AllocError> {
    page.word(name)?;
    for place in 0..types.len() {
        page.put(" ")?;
        put_part(page, &types[place], ATOM)?;
    }
    Ok(())
}

#[cycle(types)]
fn put_arrows(page: &mut Page<'_, '_>, types: &Vec<TypeTree>) -> Result<(), AllocError> {
    for place in 0..types.len() {
        page.between(place, " -> ")?;
        put_part(page, &types[place], OPERAND)?;
    }
    Ok(())
}

#[cycle(types)]
fn put_tuple(page: &mut Page<'_, '_>, types: &Vec<TypeTree>) -> Result<(), AllocError> {
    page.put("(")?;
    for place in 0..types.len() {
        page.between(place, ", ")?;
        put_type(page, &types[place])?;
    }
    page.put(")")
}

#[cycle(types)]
fn put_record(
    page: &mut Page<'_, '_>,
    base: Option<Word>,
    fields: &Vec<FieldType>,
) -> Result<(), AllocError> {
    page.put("{ ")?;
    page.base(base, " | ")?;
    for place in 0..fields.len() {
        page.between(place, ", ")?;
        page.word(fields[place].name)?;
        page.put(" : ")?;
        put_type(page, &fields[place].field_type)?;
    }
    page.put(" }")
}
