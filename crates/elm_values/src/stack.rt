//! Values on and off the stacks.

#![tactic(auto)]

ghost use Rattle.std.specs.Prelude.{◌≡◌, List, IfOk, OnOk};
ghost use Rattle.elm_lexer.specs.Tokens.{Token};
ghost use Rattle.elm_tree.specs.View.{branch_view, constructor_view, declaration_view, definition_view, exposed_view};
ghost use Rattle.elm_tree.specs.View.{exposing_view, expr_view, field_type_view, header_view, import_view, part_view};
ghost use Rattle.elm_tree.specs.View.{token_view, type_view};
ghost use Rattle.elm_grammar.specs.declared.action.Item.TheVariants as item;
ghost use Rattle.elm_grammar.specs.Values.{One, Many};
ghost use Rattle.elm_values.specs.Stack.{after_view, begun_view, built_module, chain_view, columns, fields_view};
ghost use Rattle.elm_values.specs.Stack.{held, pop, push, rest_view, top};

use crate::lists::{put, take_boxed, take_or};
use crate::nothing::{
    no_chain, no_expr, no_fields, no_header, no_module, no_pattern, no_rest, no_type,
};
use crate::store::Store;
use crate::value::{AfterMinus, Begun, Chain, Fields, Rest};
use elm_tree::tree::{
    Branch, Constructor, Declaration, Definition, Exposed, Exposing, Expr, FieldType, Header,
    Import, Module, Part, TypeTree, Word,
};
use std::alloc::{AllocError, Global};

pub fn take_word(stacks: &mut Store) -> Word
    ensures value { (tokens : List Token) →
        token_view tokens result ≡ top tokens (One item.Word) (columns tokens stacks.old) }
    ensures rest { (tokens : List Token) → columns tokens stacks.new ≡ pop (One item.Word) (columns tokens stacks.old) }
{
    take_or(&mut stacks.held.words, Word { index: 0 })
}

pub fn put_word(stacks: &mut Store, word: Word) -> Result<(), AllocError>
    ensures { OnOk result ((tokens : List Token) →
        columns tokens stacks.new ≡ push (One item.Word) (token_view tokens word) (columns tokens stacks.old)) }
{
    put(&mut stacks.held.words, word)
}

/// Takes a word that says nothing more.
pub fn skip_word(stacks: &mut Store)
    ensures { (tokens : List Token) → columns tokens stacks.new ≡ pop (One item.Word) (columns tokens stacks.old) }
{
    let _word = take_word(stacks);
}

pub fn take_module(alloc: Global, stacks: &mut Store) -> Module
    ensures value { (tokens : List Token) →
        built_module tokens result ≡ top tokens (One item.Module) (columns tokens stacks.old) }
    ensures rest { (tokens : List Token) →
        columns tokens stacks.new ≡ pop (One item.Module) (columns tokens stacks.old) }
{
    take_or(&mut stacks.held.modules, no_module(alloc))
}

pub fn put_module(stacks: &mut Store, built: Module) -> Result<(), AllocError>
    ensures { OnOk result ((tokens : List Token) →
        columns tokens stacks.new ≡ push (One item.Module) (built_module tokens built) (columns tokens stacks.old)) }
{
    put(&mut stacks.held.modules, built)
}

pub fn take_header(stacks: &mut Store) -> Header
    ensures value { (tokens : List Token) →
        header_view tokens result ≡ top tokens (One item.Header) (columns tokens stacks.old) }
    ensures rest { (tokens : List Token) →
        columns tokens stacks.new ≡ pop (One item.Header) (columns tokens stacks.old) }
{
    take_or(&mut stacks.held.headers, no_header())
}

pub fn put_header(stacks: &mut Store, header: Header) -> Result<(), AllocError>
    ensures { OnOk result ((tokens : List Token) →
        columns tokens stacks.new ≡ push (One item.Header) (header_view tokens header) (columns tokens stacks.old)) }
{
    put(&mut stacks.held.headers, header)
}

pub fn take_exposing(stacks: &mut Store) -> Exposing
    ensures value { (tokens : List Token) →
        exposing_view tokens result ≡ top tokens (One item.Exposing) (columns tokens stacks.old) }
    ensures rest { (tokens : List Token) →
        columns tokens stacks.new ≡ pop (One item.Exposing) (columns tokens stacks.old) }
{
    take_or(&mut stacks.held.exposings, Exposing::Everything)
}

pub fn put_exposing(stacks: &mut Store, exposing: Exposing) -> Result<(), AllocError>
    ensures { OnOk result ((tokens : List Token) →
        columns tokens stacks.new
        ≡ push (One item.Exposing) (exposing_view tokens exposing) (columns tokens stacks.old)) }
{
    put(&mut stacks.held.exposings, exposing)
}

pub fn put_exposed(stacks: &mut Store, exposed: Exposed) -> Result<(), AllocError>
    ensures { OnOk result ((tokens : List Token) →
        columns tokens stacks.new ≡ push (One item.Exposed) (exposed_view tokens exposed) (columns tokens stacks.old)) }
{
    put(&mut stacks.held.exposed, exposed)
}

pub fn put_import(stacks: &mut Store, import: Import) -> Result<(), AllocError>
    ensures { OnOk result ((tokens : List Token) →
        columns tokens stacks.new ≡ push (One item.Import) (import_view tokens import) (columns tokens stacks.old)) }
{
    put(&mut stacks.held.imports, import)
}

pub fn put_declaration(stacks: &mut Store, declaration: Declaration) -> Result<(), AllocError>
    ensures { OnOk result ((tokens : List Token) →
        columns tokens stacks.new
        ≡ push (One item.Declaration) (declaration_view tokens declaration) (columns tokens stacks.old)) }
{
    put(&mut stacks.held.declarations, declaration)
}

pub fn take_rest(stacks: &mut Store) -> Rest
    ensures value { (tokens : List Token) →
        rest_view tokens result ≡ top tokens (One item.Rest) (columns tokens stacks.old) }
    ensures rest { (tokens : List Token) → columns tokens stacks.new ≡ pop (One item.Rest) (columns tokens stacks.old) }
{
    take_or(&mut stacks.held.rests, no_rest())
}

pub fn put_rest(stacks: &mut Store, rest: Rest) -> Result<(), AllocError>
    ensures { OnOk result ((tokens : List Token) →
        columns tokens stacks.new ≡ push (One item.Rest) (rest_view tokens rest) (columns tokens stacks.old)) }
{
    put(&mut stacks.held.rests, rest)
}

pub fn put_constructor(stacks: &mut Store, constructor: Constructor) -> Result<(), AllocError>
    ensures { OnOk result ((tokens : List Token) →
        columns tokens stacks.new
        ≡ push (One item.Constructor) (constructor_view tokens constructor) (columns tokens stacks.old)) }
{
    put(&mut stacks.held.constructors, constructor)
}

pub fn take_type(stacks: &mut Store) -> TypeTree
    ensures value { (tokens : List Token) →
        type_view tokens result ≡ top tokens (One item.TypeTree) (columns tokens stacks.old) }
    ensures rest { (tokens : List Token) →
        columns tokens stacks.new ≡ pop (One item.TypeTree) (columns tokens stacks.old) }
{
    take_or(&mut stacks.held.types, no_type())
}

pub fn put_type(stacks: &mut Store, type_tree: TypeTree) -> Result<(), AllocError>
    ensures { OnOk result ((tokens : List Token) →
        columns tokens stacks.new ≡ push (One item.TypeTree) (type_view tokens type_tree) (columns tokens stacks.old)) }
{
    put(&mut stacks.held.types, type_tree)
}

pub fn take_pattern(stacks: &mut Store) -> Begun
    ensures value { (tokens : List Token) →
        begun_view tokens result ≡ top tokens (One item.Pattern) (columns tokens stacks.old) }
    ensures rest { (tokens : List Token) →
        columns tokens stacks.new ≡ pop (One item.Pattern) (columns tokens stacks.old) }
{
    take_or(&mut stacks.held.patterns, no_pattern())
}

pub fn put_pattern(stacks: &mut Store, pattern: Begun) -> Result<(), AllocError>
    ensures { OnOk result ((tokens : List Token) →
        columns tokens stacks.new ≡ push (One item.Pattern) (begun_view tokens pattern) (columns tokens stacks.old)) }
{
    put(&mut stacks.held.patterns, pattern)
}

pub fn take_expr(stacks: &mut Store) -> Expr
    ensures value { (tokens : List Token) →
        expr_view tokens result ≡ top tokens (One item.Expr) (columns tokens stacks.old) }
    ensures rest { (tokens : List Token) → columns tokens stacks.new ≡ pop (One item.Expr) (columns tokens stacks.old) }
{
    take_or(&mut stacks.held.exprs, no_expr())
}

/// The last expression, in a box.
pub fn take_boxed_expr(alloc: Global, stacks: &mut Store) -> Result<Box<Expr>, AllocError>
    ensures value { IfOk result (λ made. (tokens : List Token) →
        expr_view tokens made.value ≡ top tokens (One item.Expr) (columns tokens stacks.old)) }
    ensures rest { OnOk result ((tokens : List Token) →
        columns tokens stacks.new ≡ pop (One item.Expr) (columns tokens stacks.old)) }
{
    take_boxed(alloc, &mut stacks.held.exprs, no_expr())
}

pub fn put_expr(stacks: &mut Store, expr: Expr) -> Result<(), AllocError>
    ensures { OnOk result ((tokens : List Token) →
        columns tokens stacks.new ≡ push (One item.Expr) (expr_view tokens expr) (columns tokens stacks.old)) }
{
    put(&mut stacks.held.exprs, expr)
}

pub fn take_chain(alloc: Global, stacks: &mut Store) -> Chain
    ensures value { (tokens : List Token) →
        chain_view tokens result ≡ top tokens (One item.Chain) (columns tokens stacks.old) }
    ensures rest { (tokens : List Token) →
        columns tokens stacks.new ≡ pop (One item.Chain) (columns tokens stacks.old) }
{
    take_or(&mut stacks.held.chains, no_chain(alloc))
}

pub fn put_chain(stacks: &mut Store, chain: Chain) -> Result<(), AllocError>
    ensures { OnOk result ((tokens : List Token) →
        columns tokens stacks.new ≡ push (One item.Chain) (chain_view tokens chain) (columns tokens stacks.old)) }
{
    put(&mut stacks.held.chains, chain)
}

pub fn take_after_minus(stacks: &mut Store) -> AfterMinus
    ensures value { (tokens : List Token) →
        after_view tokens result ≡ top tokens (One item.AfterMinus) (columns tokens stacks.old) }
    ensures rest { (tokens : List Token) →
        columns tokens stacks.new ≡ pop (One item.AfterMinus) (columns tokens stacks.old) }
{
    take_or(&mut stacks.held.after_minus, AfterMinus::Closed)
}

pub fn put_after_minus(stacks: &mut Store, after_minus: AfterMinus) -> Result<(), AllocError>
    ensures { OnOk result ((tokens : List Token) →
        columns tokens stacks.new
        ≡ push (One item.AfterMinus) (after_view tokens after_minus) (columns tokens stacks.old)) }
{
    put(&mut stacks.held.after_minus, after_minus)
}

pub fn take_fields(alloc: Global, stacks: &mut Store) -> Fields
    ensures value { (tokens : List Token) →
        fields_view tokens result ≡ top tokens (One item.Record) (columns tokens stacks.old) }
    ensures rest { (tokens : List Token) →
        columns tokens stacks.new ≡ pop (One item.Record) (columns tokens stacks.old) }
{
    take_or(&mut stacks.held.records, no_fields(alloc))
}

pub fn put_fields(stacks: &mut Store, fields: Fields) -> Result<(), AllocError>
    ensures { OnOk result ((tokens : List Token) →
        columns tokens stacks.new ≡ push (One item.Record) (fields_view tokens fields) (columns tokens stacks.old)) }
{
    put(&mut stacks.held.records, fields)
}

pub fn put_branch(stacks: &mut Store, branch: Branch) -> Result<(), AllocError>
    ensures { OnOk result ((tokens : List Token) →
        columns tokens stacks.new ≡ push (One item.Branch) (branch_view tokens branch) (columns tokens stacks.old)) }
{
    put(&mut stacks.held.branches, branch)
}

pub fn put_definition(stacks: &mut Store, definition: Definition) -> Result<(), AllocError>
    ensures { OnOk result ((tokens : List Token) →
        columns tokens stacks.new
        ≡ push (One item.Definition) (definition_view tokens definition) (columns tokens stacks.old)) }
{
    put(&mut stacks.held.definitions, definition)
}

pub fn take_words(alloc: Global, stacks: &mut Store) -> Vec<Word>
    ensures value { (tokens : List Token) →
        held (token_view tokens) result.items ≡ top tokens (Many item.Word) (columns tokens stacks.old) }
    ensures rest { (tokens : List Token) →
        columns tokens stacks.new ≡ pop (Many item.Word) (columns tokens stacks.old) }
{
    take_or(&mut stacks.held.word_lists, Vec::new(alloc))
}

pub fn put_words(stacks: &mut Store, words: Vec<Word>) -> Result<(), AllocError>
    ensures { OnOk result ((tokens : List Token) →
        columns tokens stacks.new
        ≡ push (Many item.Word) (held (token_view tokens) words.items) (columns tokens stacks.old)) }
{
    put(&mut stacks.held.word_lists, words)
}

pub fn take_exposed_list(alloc: Global, stacks: &mut Store) -> Vec<Exposed>
    ensures value { (tokens : List Token) →
        held (exposed_view tokens) result.items ≡ top tokens (Many item.Exposed) (columns tokens stacks.old) }
    ensures rest { (tokens : List Token) →
        columns tokens stacks.new ≡ pop (Many item.Exposed) (columns tokens stacks.old) }
{
    take_or(&mut stacks.held.exposed_lists, Vec::new(alloc))
}

pub fn take_constructors(alloc: Global, stacks: &mut Store) -> Vec<Constructor>
    ensures value { (tokens : List Token) →
        held (constructor_view tokens) result.items ≡ top tokens (Many item.Constructor) (columns tokens stacks.old) }
    ensures rest { (tokens : List Token) →
        columns tokens stacks.new ≡ pop (Many item.Constructor) (columns tokens stacks.old) }
{
    take_or(&mut stacks.held.constructor_lists, Vec::new(alloc))
}

pub fn take_types(alloc: Global, stacks: &mut Store) -> Vec<TypeTree>
    ensures value { (tokens : List Token) →
        held (type_view tokens) result.items ≡ top tokens (Many item.TypeTree) (columns tokens stacks.old) }
    ensures rest { (tokens : List Token) →
        columns tokens stacks.new ≡ pop (Many item.TypeTree) (columns tokens stacks.old) }
{
    take_or(&mut stacks.held.type_lists, Vec::new(alloc))
}

pub fn put_types(stacks: &mut Store, types: Vec<TypeTree>) -> Result<(), AllocError>
    ensures { OnOk result ((tokens : List Token) →
        columns tokens stacks.new
        ≡ push (Many item.TypeTree) (held (type_view tokens) types.items) (columns tokens stacks.old)) }
{
    put(&mut stacks.held.type_lists, types)
}

pub fn take_field_types(alloc: Global, stacks: &mut Store) -> Vec<FieldType>
    ensures value { (tokens : List Token) →
        held (field_type_view tokens) result.items ≡ top tokens (Many item.FieldType) (columns tokens stacks.old) }
    ensures rest { (tokens : List Token) →
        columns tokens stacks.new ≡ pop (Many item.FieldType) (columns tokens stacks.old) }
{
    take_or(&mut stacks.held.field_type_lists, Vec::new(alloc))
}

pub fn take_patterns(alloc: Global, stacks: &mut Store) -> Vec<Begun>
    ensures value { (tokens : List Token) →
        held (begun_view tokens) result.items ≡ top tokens (Many item.Pattern) (columns tokens stacks.old) }
    ensures rest { (tokens : List Token) →
        columns tokens stacks.new ≡ pop (Many item.Pattern) (columns tokens stacks.old) }
{
    take_or(&mut stacks.held.pattern_lists, Vec::new(alloc))
}

pub fn take_exprs(alloc: Global, stacks: &mut Store) -> Vec<Expr>
    ensures value { (tokens : List Token) →
        held (expr_view tokens) result.items ≡ top tokens (Many item.Expr) (columns tokens stacks.old) }
    ensures rest { (tokens : List Token) →
        columns tokens stacks.new ≡ pop (Many item.Expr) (columns tokens stacks.old) }
{
    take_or(&mut stacks.held.expr_lists, Vec::new(alloc))
}

pub fn put_exprs(stacks: &mut Store, exprs: Vec<Expr>) -> Result<(), AllocError>
    ensures { OnOk result ((tokens : List Token) →
        columns tokens stacks.new
        ≡ push (Many item.Expr) (held (expr_view tokens) exprs.items) (columns tokens stacks.old)) }
{
    put(&mut stacks.held.expr_lists, exprs)
}

pub fn take_parts(alloc: Global, stacks: &mut Store) -> Vec<Part>
    ensures value { (tokens : List Token) →
        held (part_view tokens) result.items ≡ top tokens (Many item.Part) (columns tokens stacks.old) }
    ensures rest { (tokens : List Token) →
        columns tokens stacks.new ≡ pop (Many item.Part) (columns tokens stacks.old) }
{
    take_or(&mut stacks.held.part_lists, Vec::new(alloc))
}

pub fn put_parts(stacks: &mut Store, parts: Vec<Part>) -> Result<(), AllocError>
    ensures { OnOk result ((tokens : List Token) →
        columns tokens stacks.new
        ≡ push (Many item.Part) (held (part_view tokens) parts.items) (columns tokens stacks.old)) }
{
    put(&mut stacks.held.part_lists, parts)
}

pub fn take_branches(alloc: Global, stacks: &mut Store) -> Vec<Branch>
    ensures value { (tokens : List Token) →
        held (branch_view tokens) result.items ≡ top tokens (Many item.Branch) (columns tokens stacks.old) }
    ensures rest { (tokens : List Token) →
        columns tokens stacks.new ≡ pop (Many item.Branch) (columns tokens stacks.old) }
{
    take_or(&mut stacks.held.branch_lists, Vec::new(alloc))
}

pub fn take_definitions(alloc: Global, stacks: &mut Store) -> Vec<Definition>
    ensures value { (tokens : List Token) →
        held (definition_view tokens) result.items ≡ top tokens (Many item.Definition) (columns tokens stacks.old) }
    ensures rest { (tokens : List Token) →
        columns tokens stacks.new ≡ pop (Many item.Definition) (columns tokens stacks.old) }
{
    take_or(&mut stacks.held.definition_lists, Vec::new(alloc))
}
