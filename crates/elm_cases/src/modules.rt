//! Modules as texts.

use crate::exprs::put_definition;
use crate::page::Page;
use crate::types::{put_named, put_type};
use elm_lexer::Token;
use elm_tree::tree::{Constructor, Declaration, Exposed, Exposing, Header, Import, Module};
use std::alloc::{AllocError, Global};

/// The text of a module: one declaration a line but for blocks, and no brackets but those that the nesting needs.
pub fn module_text(
    alloc: Global,
    tokens: &[Token<'_>],
    module: &Module,
) -> Result<Vec<u8>, AllocError> {
    let mut page = Page::new(alloc, tokens);
    if let Some(header) = &module.head.header {
        put_header(&mut page, header)?;
    }
    for import in &module.head.imports {
        put_import(&mut page, import)?;
    }
    for declaration in &module.declarations {
        page.line()?;
        put_declaration(&mut page, declaration)?;
    }
    Ok(page.into_text())
}

fn put_header(page: &mut Page<'_, '_>, header: &Header) -> Result<(), AllocError> {
    if header.has_ports {
        page.put("port ")?;
    }
    page.put("module ")?;
    page.word(header.name)?;
    put_exposing(page, &header.exposes)
}

fn put_import(page: &mut Page<'_, '_>, import: &Import) -> Result<(), AllocError> {
    page.line()?;
    page.put("import ")?;
    page.word(import.name)?;
    if let Some(alias) = import.alias {
        page.put(" as ")?;
        page.word(alias)?;
    }
    put_exposing(page, &import.exposes)
}

fn put_exposing(page: &mut Page<'_, '_>, exposing: &Exposing) -> Result<(), AllocError> {
    match exposing {
        Exposing::Everything => page.put(" exposing (..)"),
        Exposing::These(these) => {
            if these.is_empty() {
                return Ok(());
            }
            page.put(" exposing (")?;
            put_exposed(page, these)?;
            page.put(")")
        }
    }
}

fn put_exposed(page: &mut Page<'_, '_>, these: &[Exposed]) -> Result<(), AllocError> {
    for (place, exposed) in these.iter().enumerate() {
        page.between(place, ", ")?;
        page.operand(exposed.name)?;
        if exposed.is_open {
            page.put("(..)")?;
        }
    }
    Ok(())
}

fn put_declaration(page: &mut Page<'_, '_>, declaration: &Declaration) -> Result<(), AllocError> {
    match declaration {
        Declaration::Value(definition) => put_definition(page, definition),
        Declaration::Port(name, tree) => {
            page.put("port ")?;
            page.word(*name)?;
            page.put(" : ")?;
            put_type(page, tree)
        }
        Declaration::Union(name, variables, constructors) => {
            page.put("type ")?;
            page.word(*name)?;
            page.words(variables)?;
            page.put(" = ")?;
            put_constructors(page, constructors)
        }
        Declaration::Alias(name, variables, tree) => {
            page.put("type alias ")?;
            page.word(*name)?;
            page.words(variables)?;
            page.put(" = ")?;
            put_type(page, tree)
        }
    }
}

fn put_constructors(
    page: &mut Page<'_, '_>,
    constructors: &[Constructor],
) -> Result<(), AllocError> {
    for (place, constructor) in constructors.iter().enumerate() {
        page.between(place, " | ")?;
        put_named(page, constructor.name, &constructor.arguments)?;
    }
    Ok(())
}
