//! Expressions and definitions as texts.

use crate::page::Page;
use crate::patterns::{put_destructured, put_parameters, put_pattern};
use crate::types::put_type;
use elm_tree::tree::{Branch, Definition, Expr, Part, Word};
use std::alloc::AllocError;

/// Whether an expression stands as an operand after a minus, or as an argument, without brackets.
fn is_atom(expr: &Expr) -> bool {
    matches!(
        expr,
        Expr::OneWord(_)
            | Expr::List(_, _)
            | Expr::Tuple(_, _)
            | Expr::Record(_, _, _)
            | Expr::Access(_, _, _)
    )
}

/// Whether an expression stands as a function or an argument without brackets.
fn is_signed(expr: &Expr) -> bool {
    is_atom(expr) || matches!(expr, Expr::Negative(_, _))
}

/// Whether an expression stands before or between operators without brackets.
fn is_operand(expr: &Expr) -> bool {
    is_signed(expr) || matches!(expr, Expr::Apply(_, _))
}

/// Whether an expression stands after the last operator without brackets.
fn is_last(expr: &Expr) -> bool {
    !matches!(expr, Expr::Chain(_, _))
}

/// Whether the fields of an expression are read without brackets.
fn has_fields(page: &Page<'_, '_>, expr: &Expr) -> bool {
    match expr {
        Expr::OneWord(word) => page.is_name(*word),
        Expr::Record(_, _, _) | Expr::Tuple(_, _) => true,
        _ => false,
    }
}

/// Writes an expression.
#[cycle(exprs)]
pub fn put_expr(page: &mut Page<'_, '_>, expr: &Expr) -> Result<(), AllocError> {
    match expr {
        Expr::OneWord(word) => page.operand(*word),
        Expr::Negative(sign, inner) => {
            page.word(*sign)?;
            put_part(page, inner, is_atom(inner))
        }
        Expr::Apply(function, arguments) => {
            put_part(page, function, is_signed(function))?;
            put_arguments(page, arguments)
        }
        Expr::Chain(first, parts) => {
            put_part(page, first, is_operand(first))?;
            put_operators(page, parts)
        }
        Expr::List(_, exprs) => put_listed(page, "[", exprs, "]"),
        Expr::Tuple(_, exprs) => put_listed(page, "(", exprs, ")"),
        Expr::Record(_, base, fields) => put_record(page, *base, fields),
        Expr::Access(_, inner, fields) => {
            put_part(page, inner, has_fields(page, inner))?;
            for field in fields {
                page.word(*field)?;
            }
            Ok(())
        }
        Expr::If(condition, yes, no) => {
            page.put("if ")?;
            put_expr(page, condition)?;
            page.put(" then ")?;
            put_expr(page, yes)?;
            page.put(" else ")?;
            put_expr(page, no)
        }
        Expr::Case(_, subject, branches) => {
            page.put("case ")?;
            put_expr(page, subject)?;
            page.put(" of")?;
            put_branches(page, branches)
        }
        Expr::Let(definitions, body) => {
            page.put("let")?;
            put_definitions(page, definitions)?;
            page.put(" in ")?;
            put_expr(page, body)
        }
        Expr::Lambda(_, patterns, body) => {
            page.put("\\")?;
            put_parameters(page, patterns)?;
            page.put(" -> ")?;
            put_expr(page, body)
        }
    }
}

/// Writes an expression, in brackets unless it is bare.
#[cycle(exprs)]
fn put_part(page: &mut Page<'_, '_>, expr: &Expr, bare: bool) -> Result<(), AllocError> {
    if bare {
        return put_expr(page, expr);
    }
    page.put("(")?;
    put_expr(page, expr)?;
    page.put(")")
}

#[cycle(exprs)]
fn put_arguments(page: &mut Page<'_, '_>, exprs: &[Expr]) -> Result<(), AllocError> {
    for expr in exprs {
        page.put(" ")?;
        put_part(page, expr, is_signed(expr))?;
    }
    Ok(())
}

#[cycle(exprs)]
fn put_operators(page: &mut Page<'_, '_>, parts: &[Part]) -> Result<(), AllocError> {
    for (place, part) in parts.iter().enumerate() {
        page.put(" ")?;
        page.word(part.word)?;
        page.put(" ")?;
        let is_at_end = parts.len() - place == 1;
        let bare = is_operand(&part.value) || (is_at_end && is_last(&part.value));
        put_part(page, &part.value, bare)?;
    }
    Ok(())
}

#[cycle(exprs)]
fn put_listed(
    page: &mut Page<'_, '_>,
    before: &str,
    exprs: &[Expr],
    after: &str,
) -> Result<(), AllocError> {
    page.put(before)?;
    for (place, expr) in exprs.iter().enumerate() {
        page.between(place, ", ")?;
        put_expr(page, expr)?;
    }
    page.put(after)
}

#[cycle(exprs)]
fn put_record(
    page: &mut Page<'_, '_>,
    base: Option<Word>,
    fields: &[Part],
) -> Result<(), AllocError> {
    page.put("{ ")?;
    if let Some(base) = base {
        page.word(base)?;
        page.put(" | ")?;
    }
    for (place, field) in fields.iter().enumerate() {
        page.between(place, ", ")?;
        page.word(field.word)?;
        page.put(" = ")?;
        put_expr(page, &field.value)?;
    }
    page.put(" }")
}

#[cycle(exprs)]
fn put_branches(page: &mut Page<'_, '_>, branches: &[Branch]) -> Result<(), AllocError> {
    page.open();
    for branch in branches {
        page.line()?;
        put_pattern(page, &branch.pattern)?;
        page.put(" -> ")?;
        put_expr(page, &branch.body)?;
    }
    page.close();
    Ok(())
}

#[cycle(exprs)]
fn put_definitions(page: &mut Page<'_, '_>, definitions: &[Definition]) -> Result<(), AllocError> {
    page.open();
    for definition in definitions {
        page.line()?;
        put_definition(page, definition)?;
    }
    page.close();
    Ok(())
}

/// Writes a definition.
#[cycle(exprs)]
pub fn put_definition(page: &mut Page<'_, '_>, definition: &Definition) -> Result<(), AllocError> {
    match definition {
        Definition::Annotate(name, tree) => {
            page.word(*name)?;
            page.put(" : ")?;
            put_type(page, tree)
        }
        Definition::Define(name, patterns, body) => {
            page.word(*name)?;
            put_parameters(page, patterns)?;
            page.put(" = ")?;
            put_expr(page, body)
        }
        Definition::Destructure(pattern, body) => {
            put_destructured(page, pattern)?;
            page.put(" = ")?;
            put_expr(page, body)
        }
    }
}
