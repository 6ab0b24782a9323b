//! The tree that a derivation stands for, from its steps.

#![tactic(auto, using(std::proofs::lemmas::Grind::common_steps), unfolding(crate::specs::Stack::columns, crate::specs::Stack::empty))]

ghost use Rattle.std.specs.Prelude.{◌≡◌, List, IfOk, OnOk, map};
ghost use Rattle.elm_lexer.specs.Tokens.{Token};
ghost use Rattle.elm_tree.specs.View.{expr_view, module_view, type_view};
ghost use Rattle.elm_grammar.specs.declared.action.Item.TheVariants as item;
ghost use Rattle.elm_grammar.specs.Meaning.{action_in};
ghost use Rattle.elm_grammar.specs.Table.{elm_actions};
ghost use Rattle.elm_grammar.specs.Values.{One};
ghost use Rattle.elm_values.specs.Building.{Builds};
ghost use Rattle.elm_values.specs.Stack.{after_step, begun_view, built_module, columns, empty, run};

use crate::act::act;
use crate::stack::{put_word, take_expr, take_module, take_pattern, take_type};
use crate::store::Store;
use crate::value::{Begun, Stacks};
use elm_grammar::action::Action;
use elm_tree::tree::{Expr, Module, TypeTree, Word};
use parse_machine::table::Step;
use std::alloc::{AllocError, Global};

/// No values.
fn no_values(alloc: Global) -> Store
    ensures { (tokens : List Token) → columns tokens result ≡ empty }
{
    Store {
        held: Stacks {
            words: Vec::new(alloc),
            word_lists: Vec::new(alloc),
            modules: Vec::new(alloc),
            headers: Vec::new(alloc),
            exposings: Vec::new(alloc),
            exposed: Vec::new(alloc),
            exposed_lists: Vec::new(alloc),
            imports: Vec::new(alloc),
            declarations: Vec::new(alloc),
            rests: Vec::new(alloc),
            constructors: Vec::new(alloc),
            constructor_lists: Vec::new(alloc),
            types: Vec::new(alloc),
            type_lists: Vec::new(alloc),
            field_type_lists: Vec::new(alloc),
            patterns: Vec::new(alloc),
            pattern_lists: Vec::new(alloc),
            exprs: Vec::new(alloc),
            expr_lists: Vec::new(alloc),
            part_lists: Vec::new(alloc),
            chains: Vec::new(alloc),
            after_minus: Vec::new(alloc),
            records: Vec::new(alloc),
            branches: Vec::new(alloc),
            branch_lists: Vec::new(alloc),
            definitions: Vec::new(alloc),
            definition_lists: Vec::new(alloc),
        },
    }
}

/// The action of a production.
fn action_of(actions: &[Action], rule: u16) -> Action
    ensures { result ≡ action_in actions.now rule }
{
    match actions.get(rule as usize) {
        Some(action) => *action,
        None => Action::EmptyModule,
    }
}

/// Does a step: a token is put on its stack, and of a production is made what its action says.
fn advance(
    alloc: Global,
    actions: &[Action],
    step: Step,
    stacks: &mut Store,
) -> Result<(), AllocError>
    requires { actions.now ≡ elm_actions }
    ensures { OnOk result ((tokens : List Token) →
        columns tokens stacks.new ≡ after_step tokens step (columns tokens stacks.old)) }
{
    match step {
        Step::Read(token) => put_word(stacks, Word { index: token.index }),
        Step::Take(rule) => act(alloc, action_of(actions, rule), stacks),
    }
}

/// What the steps leave. The last one is the first to be done, so that what an action takes is there before it.
fn run(alloc: Global, actions: &[Action], steps: &[Step]) -> Result<Store, AllocError>
    requires { actions.now ≡ elm_actions }
    ensures { IfOk result (λ s. (tokens : List Token) → columns tokens s ≡ run tokens steps.now) }
{
    let mut stacks = no_values(alloc);
    let mut left = steps.len();
    while left > 0 {
        left -= 1;
        advance(alloc, actions, steps[left], &mut stacks)?;
    }
    Ok(stacks)
}

/// The module with its imports and declarations from the first on.
fn whole(mut module: Module) -> Module
    ensures { (tokens : List Token) → module_view tokens result ≡ built_module tokens «module» }
{
    module.head.imports.reverse();
    module.declarations.reverse();
    module
}

/// The module that a derivation stands for. `actions` are those of the grammar.
pub fn module_of(alloc: Global, actions: &[Action], steps: &[Step]) -> Result<Module, AllocError>
    requires { actions.now ≡ elm_actions }
    ensures { IfOk result (λ m. (tokens : List Token) →
        Builds tokens (One item.Module) steps.now (module_view tokens m)) }
{
    let mut stacks = run(alloc, actions, steps)?;
    let built = take_module(alloc, &mut stacks);
    Ok(whole(built))
}

/// The type that a derivation stands for.
pub fn type_of(alloc: Global, actions: &[Action], steps: &[Step]) -> Result<TypeTree, AllocError>
    requires { actions.now ≡ elm_actions }
    ensures { IfOk result (λ t. (tokens : List Token) →
        Builds tokens (One item.TypeTree) steps.now (type_view tokens t)) }
{
    let mut stacks = run(alloc, actions, steps)?;
    let built = take_type(&mut stacks);
    Ok(built)
}

/// The pattern that a derivation stands for, and where its text begins.
pub fn pattern_of(alloc: Global, actions: &[Action], steps: &[Step]) -> Result<Begun, AllocError>
    requires { actions.now ≡ elm_actions }
    ensures { IfOk result (λ p. (tokens : List Token) →
        Builds tokens (One item.Pattern) steps.now (begun_view tokens p)) }
{
    let mut stacks = run(alloc, actions, steps)?;
    let built = take_pattern(&mut stacks);
    Ok(built)
}

/// The expression that a derivation stands for.
pub fn expr_of(alloc: Global, actions: &[Action], steps: &[Step]) -> Result<Expr, AllocError>
    requires { actions.now ≡ elm_actions }
    ensures { IfOk result (λ e. (tokens : List Token) →
        Builds tokens (One item.Expr) steps.now (expr_view tokens e)) }
{
    let mut stacks = run(alloc, actions, steps)?;
    let built = take_expr(&mut stacks);
    Ok(built)
}
