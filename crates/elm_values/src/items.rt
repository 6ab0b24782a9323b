//! Lists of items, and values that are only passed on.

#![tactic(auto, using(std::proofs::lemmas::Grind::common_steps), unfolding(elm_grammar::specs::Values::takes, elm_grammar::specs::Values::gives, elm_grammar::specs::Values::act))]

ghost use Rattle.std.specs.Prelude.{OnOk, IsTrue};
ghost use Rattle.elm_grammar.specs.declared.action.Action.TheVariants.{Comma, Empty, End, More, Same, Second};
ghost use Rattle.elm_grammar.specs.declared.action.Action.TheVariants.{SecondAsList};
ghost use Rattle.elm_grammar.specs.declared.action.Item.TheVariants as item;
ghost use Rattle.elm_values.specs.Stack.{Acts};
ghost use Rattle.elm_values.specs.Used.{grows, has_list, moves};

use crate::lists::{grow, keep, one_item, put_empty};
use crate::nothing::{
    no_branch, no_constructor, no_declaration, no_definition, no_exposed, no_expr, no_header,
    no_module, no_pattern, no_type,
};
use crate::stack::{put_words, skip_word, take_word};
use crate::store::Store;
use elm_grammar::action::Item;
use elm_tree::tree::{Exposing, Word};
use std::alloc::{AllocError, Global};

/// No items.
pub fn empty(alloc: Global, item: Item, stacks: &mut Store) -> Result<(), AllocError>
    requires { IsTrue (has_list item) }
    ensures { OnOk result (Acts (Empty item) stacks.old stacks.new) }
{
    match item {
        Item::Word => put_empty(alloc, &mut stacks.held.word_lists),
        Item::Exposed => put_empty(alloc, &mut stacks.held.exposed_lists),
        Item::Constructor => put_empty(alloc, &mut stacks.held.constructor_lists),
        Item::TypeTree => put_empty(alloc, &mut stacks.held.type_lists),
        Item::FieldType => put_empty(alloc, &mut stacks.held.field_type_lists),
        Item::Pattern => put_empty(alloc, &mut stacks.held.pattern_lists),
        Item::Expr => put_empty(alloc, &mut stacks.held.expr_lists),
        Item::Part => put_empty(alloc, &mut stacks.held.part_lists),
        Item::Branch => put_empty(alloc, &mut stacks.held.branch_lists),
        Item::Definition => put_empty(alloc, &mut stacks.held.definition_lists),
        _ => unreachable!(),
    }
}

/// No items, at a closing bracket.
pub fn ended(alloc: Global, item: Item, stacks: &mut Store) -> Result<(), AllocError>
    requires { IsTrue (has_list item) }
    ensures { OnOk result (Acts (End item) stacks.old stacks.new) }
{
    skip_word(stacks);
    empty(alloc, item, stacks)
}

/// One more in front.
fn more_words(alloc: Global, stacks: &mut Store) -> Result<(), AllocError>
    ensures { OnOk result (Acts (More item.Word) stacks.old stacks.new) }
{
    grow(
        alloc,
        &mut stacks.held.words,
        &mut stacks.held.word_lists,
        Word { index: 0 },
    )
}

/// One more in front.
pub fn more_exposed(alloc: Global, stacks: &mut Store) -> Result<(), AllocError>
    ensures { OnOk result (Acts (More item.Exposed) stacks.old stacks.new) }
{
    grow(
        alloc,
        &mut stacks.held.exposed,
        &mut stacks.held.exposed_lists,
        no_exposed(),
    )
}

/// One more in front.
pub fn more_constructors(alloc: Global, stacks: &mut Store) -> Result<(), AllocError>
    ensures { OnOk result (Acts (More item.Constructor) stacks.old stacks.new) }
{
    grow(
        alloc,
        &mut stacks.held.constructors,
        &mut stacks.held.constructor_lists,
        no_constructor(alloc),
    )
}

/// One more in front.
pub fn more_types(alloc: Global, stacks: &mut Store) -> Result<(), AllocError>
    ensures { OnOk result (Acts (More item.TypeTree) stacks.old stacks.new) }
{
    grow(
        alloc,
        &mut stacks.held.types,
        &mut stacks.held.type_lists,
        no_type(),
    )
}

/// One more in front.
pub fn more_patterns(alloc: Global, stacks: &mut Store) -> Result<(), AllocError>
    ensures { OnOk result (Acts (More item.Pattern) stacks.old stacks.new) }
{
    grow(
        alloc,
        &mut stacks.held.patterns,
        &mut stacks.held.pattern_lists,
        no_pattern(),
    )
}

/// One more in front.
pub fn more_exprs(alloc: Global, stacks: &mut Store) -> Result<(), AllocError>
    ensures { OnOk result (Acts (More item.Expr) stacks.old stacks.new) }
{
    grow(
        alloc,
        &mut stacks.held.exprs,
        &mut stacks.held.expr_lists,
        no_expr(),
    )
}

/// One more in front.
fn more_branches(alloc: Global, stacks: &mut Store) -> Result<(), AllocError>
    ensures { OnOk result (Acts (More item.Branch) stacks.old stacks.new) }
{
    grow(
        alloc,
        &mut stacks.held.branches,
        &mut stacks.held.branch_lists,
        no_branch(),
    )
}

/// One more in front.
fn more_definitions(alloc: Global, stacks: &mut Store) -> Result<(), AllocError>
    ensures { OnOk result (Acts (More item.Definition) stacks.old stacks.new) }
{
    grow(
        alloc,
        &mut stacks.held.definitions,
        &mut stacks.held.definition_lists,
        no_definition(),
    )
}

/// One item more in front.
pub fn more(alloc: Global, item: Item, stacks: &mut Store) -> Result<(), AllocError>
    requires { IsTrue (grows item) }
    ensures { OnOk result (Acts (More item) stacks.old stacks.new) }
{
    match item {
        Item::Word => more_words(alloc, stacks),
        Item::Exposed => more_exposed(alloc, stacks),
        Item::Constructor => more_constructors(alloc, stacks),
        Item::TypeTree => more_types(alloc, stacks),
        Item::Pattern => more_patterns(alloc, stacks),
        Item::Expr => more_exprs(alloc, stacks),
        Item::Branch => more_branches(alloc, stacks),
        Item::Definition => more_definitions(alloc, stacks),
        _ => unreachable!(),
    }
}

/// One item more in front, after a word that separates them.
pub fn comma(alloc: Global, item: Item, stacks: &mut Store) -> Result<(), AllocError>
    requires { IsTrue (grows item) }
    ensures { OnOk result (Acts (Comma item) stacks.old stacks.new) }
{
    skip_word(stacks);
    more(alloc, item, stacks)
}

/// The second of two words, as a list.
pub fn second_word(alloc: Global, stacks: &mut Store) -> Result<(), AllocError>
    ensures { OnOk result (Acts SecondAsList stacks.old stacks.new) }
{
    skip_word(stacks);
    let word = take_word(stacks);
    put_words(stacks, one_item(alloc, word)?)
}

fn same_module(alloc: Global, stacks: &mut Store) -> Result<(), AllocError>
    ensures { OnOk result (Acts (Same item.Module) stacks.old stacks.new) }
{
    keep(&mut stacks.held.modules, no_module(alloc))
}

fn same_header(stacks: &mut Store) -> Result<(), AllocError>
    ensures { OnOk result (Acts (Same item.Header) stacks.old stacks.new) }
{
    keep(&mut stacks.held.headers, no_header())
}

fn same_exposing(stacks: &mut Store) -> Result<(), AllocError>
    ensures { OnOk result (Acts (Same item.Exposing) stacks.old stacks.new) }
{
    keep(&mut stacks.held.exposings, Exposing::Everything)
}

fn same_declaration(stacks: &mut Store) -> Result<(), AllocError>
    ensures { OnOk result (Acts (Same item.Declaration) stacks.old stacks.new) }
{
    keep(&mut stacks.held.declarations, no_declaration())
}

pub fn same_type(stacks: &mut Store) -> Result<(), AllocError>
    ensures { OnOk result (Acts (Same item.TypeTree) stacks.old stacks.new) }
{
    keep(&mut stacks.held.types, no_type())
}

pub fn same_pattern(stacks: &mut Store) -> Result<(), AllocError>
    ensures { OnOk result (Acts (Same item.Pattern) stacks.old stacks.new) }
{
    keep(&mut stacks.held.patterns, no_pattern())
}

pub fn same_expr(stacks: &mut Store) -> Result<(), AllocError>
    ensures { OnOk result (Acts (Same item.Expr) stacks.old stacks.new) }
{
    keep(&mut stacks.held.exprs, no_expr())
}

/// The value itself.
pub fn same(alloc: Global, item: Item, stacks: &mut Store) -> Result<(), AllocError>
    requires { IsTrue (moves item) }
    ensures { OnOk result (Acts (Same item) stacks.old stacks.new) }
{
    match item {
        Item::Module => same_module(alloc, stacks),
        Item::Header => same_header(stacks),
        Item::Exposing => same_exposing(stacks),
        Item::Declaration => same_declaration(stacks),
        Item::TypeTree => same_type(stacks),
        Item::Pattern => same_pattern(stacks),
        Item::Expr => same_expr(stacks),
        _ => unreachable!(),
    }
}

/// The value after a word.
pub fn second(alloc: Global, item: Item, stacks: &mut Store) -> Result<(), AllocError>
    requires { IsTrue (moves item) }
    ensures { OnOk result (Acts (Second item) stacks.old stacks.new) }
{
    skip_word(stacks);
    same(alloc, item, stacks)
}
