//! What is taken where a stack is empty.

#![tactic(auto)]

ghost use Rattle.std.specs.Prelude.{◌≡◌, List};
ghost use Rattle.elm_lexer.specs.Tokens.{Token};
ghost use Rattle.elm_tree.specs.View.{constructor_view, branch_view, declaration_view, definition_view, exposed_view};
ghost use Rattle.elm_tree.specs.View.{expr_view, header_view, import_view, type_view};
ghost use Rattle.elm_grammar.specs.declared.action.Item.TheVariants as item;
ghost use Rattle.elm_values.specs.Stack.{begun_view, built_module, chain_view, default_of, fields_view, rest_view};

use crate::value::{Begun, Chain, Fields, Rest};
use elm_tree::tree::{
    Branch, Constructor, Declaration, Definition, Exposed, Exposing, Expr, Head, Header, Import,
    Module, Pattern, TypeTree, Word,
};
use std::alloc::Global;

pub fn no_module(alloc: Global) -> Module
    ensures { (tokens : List Token) → built_module tokens result ≡ default_of tokens item.Module }
{
    let head = Head {
        header: None,
        imports: Vec::new(alloc),
    };
    Module {
        head,
        declarations: Vec::new(alloc),
    }
}

pub fn no_header() -> Header
    ensures { (tokens : List Token) → header_view tokens result ≡ default_of tokens item.Header }
{
    Header {
        has_ports: false,
        name: Word { index: 0 },
        exposes: Exposing::Everything,
    }
}

pub fn no_exposed() -> Exposed
    ensures { (tokens : List Token) → exposed_view tokens result ≡ default_of tokens item.Exposed }
{
    Exposed {
        name: Word { index: 0 },
        is_open: false,
    }
}

pub fn no_import() -> Import
    ensures { (tokens : List Token) → import_view tokens result ≡ default_of tokens item.Import }
{
    Import {
        name: Word { index: 0 },
        alias: None,
        exposes: Exposing::Everything,
    }
}

pub fn no_declaration() -> Declaration
    ensures { (tokens : List Token) → declaration_view tokens result ≡ default_of tokens item.Declaration }
{
    Declaration::Port(Word { index: 0 }, no_type())
}

pub fn no_rest() -> Rest
    ensures { (tokens : List Token) → rest_view tokens result ≡ default_of tokens item.Rest }
{
    Rest::Typed(no_type())
}

pub fn no_constructor(alloc: Global) -> Constructor
    ensures { (tokens : List Token) → constructor_view tokens result ≡ default_of tokens item.Constructor }
{
    Constructor {
        name: Word { index: 0 },
        arguments: Vec::new(alloc),
    }
}

pub fn no_type() -> TypeTree
    ensures { (tokens : List Token) → type_view tokens result ≡ default_of tokens item.TypeTree }
{
    TypeTree::Variable(Word { index: 0 })
}

pub fn no_pattern() -> Begun
    ensures { (tokens : List Token) → begun_view tokens result ≡ default_of tokens item.Pattern }
{
    Begun {
        place: Word { index: 0 },
        pattern: Pattern::OneWord(Word { index: 0 }),
    }
}

pub fn no_expr() -> Expr
    ensures { (tokens : List Token) → expr_view tokens result ≡ default_of tokens item.Expr }
{
    Expr::OneWord(Word { index: 0 })
}

pub fn no_chain(alloc: Global) -> Chain
    ensures { (tokens : List Token) → chain_view tokens result ≡ default_of tokens item.Chain }
{
    Chain {
        first: no_expr(),
        parts: Vec::new(alloc),
    }
}

pub fn no_fields(alloc: Global) -> Fields
    ensures { (tokens : List Token) → fields_view tokens result ≡ default_of tokens item.Record }
{
    Fields {
        base: None,
        parts: Vec::new(alloc),
    }
}

pub fn no_branch() -> Branch
    ensures { (tokens : List Token) → branch_view tokens result ≡ default_of tokens item.Branch }
{
    Branch {
        pattern: Pattern::OneWord(Word { index: 0 }),
        body: no_expr(),
    }
}

pub fn no_definition() -> Definition
    ensures { (tokens : List Token) → definition_view tokens result ≡ default_of tokens item.Definition }
{
    Definition::Annotate(Word { index: 0 }, no_type())
}
