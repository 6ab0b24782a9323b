//! Definitions.

#![tactic(auto)]

ghost use Rattle.std.specs.Prelude.{OnOk};
ghost use Rattle.elm_grammar.specs.declared.action.Action.TheVariants.{ConstantRest, DefinitionOf, DestructureOf};
ghost use Rattle.elm_grammar.specs.declared.action.Action.TheVariants.{FunctionRest};
ghost use Rattle.elm_values.specs.Stack.{Acts};

use crate::make::{definition, patterns};
use crate::stack::{
    put_definition, put_rest, skip_word, take_expr, take_pattern, take_patterns, take_rest,
    take_word,
};
use crate::store::Store;
use crate::value::Rest;
use elm_tree::tree::Definition;
use std::alloc::{AllocError, Global};

/// `= e`
pub fn constant(alloc: Global, stacks: &mut Store) -> Result<(), AllocError>
    ensures { OnOk result (Acts ConstantRest stacks.old stacks.new) }
{
    skip_word(stacks);
    let body = take_expr(stacks);
    put_rest(stacks, Rest::Bodied(Vec::new(alloc), body))
}

/// `p q = e`
pub fn function(alloc: Global, stacks: &mut Store) -> Result<(), AllocError>
    ensures { OnOk result (Acts FunctionRest stacks.old stacks.new) }
{
    let parameters = patterns(alloc, take_patterns(alloc, stacks))?;
    skip_word(stacks);
    let body = take_expr(stacks);
    put_rest(stacks, Rest::Bodied(parameters, body))
}

/// A definition with its name.
pub fn named(stacks: &mut Store) -> Result<(), AllocError>
    ensures { OnOk result (Acts DefinitionOf stacks.old stacks.new) }
{
    let name = take_word(stacks);
    let rest = take_rest(stacks);
    put_definition(stacks, definition(name, rest))
}

/// `p = e`
pub fn destructure(stacks: &mut Store) -> Result<(), AllocError>
    ensures { OnOk result (Acts DestructureOf stacks.old stacks.new) }
{
    let begun = take_pattern(stacks);
    skip_word(stacks);
    let body = take_expr(stacks);
    put_definition(stacks, Definition::Destructure(begun.pattern, body))
}
