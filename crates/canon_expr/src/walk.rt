//! The walk: what expressions mean, with what is wrong in them noted.
//!
//! It calls itself for the parts of an expression, so it is as deep as the constructs that are open at once.

ghost use Rattle.std.specs.Prelude.{◌≡◌, ◌++◌, map, None, option_map, IfOk, OnOk};
ghost use Rattle.elm_tree.specs.Tree as tree;
ghost use Rattle.elm_tree.specs.View as tree_view;
ghost use Rattle.elm_tree.specs.Turns.{tokens_view};
ghost use Rattle.elm_canon.specs.Tree as canon;
ghost use Rattle.elm_canon.specs.View.{expr_view, branch_view, group_view, annotation_view};
ghost use Rattle.canon_env.specs.Naming as naming;
ghost use Rattle.canon_env.specs.Locals.{Locals, with_names};
ghost use Rattle.canon_expr.specs.Scope.{locals_of};
ghost use Rattle.canon_expr.specs.Logs.{Grows};
ghost use Rattle.canon_expr.specs.Literals.{AreLiterals};
ghost use Rattle.canon_expr.specs.Calls.{callee_view};
ghost use Rattle.canon_expr.specs.Chains.{operand_view};
ghost use Rattle.canon_expr.specs.Binding.{uses_among, bound_by_each, defined_in};
ghost use Rattle.canon_expr.specs.Blocks.{joined_sites, reaching_sites};
ghost use Rattle.canon_expr.specs.Kept.{made_view};
ghost use Rattle.canon_expr.specs.Exprs as spec;
ghost use Rattle.canon_expr.specs.Walking.{StandsIn};

use crate::binding::{
    BoundPattern, Parameters, annotate, bind_parameters, bind_pattern, boxed_pattern, enter_block,
};
use crate::boxes::{
    applied, defined_by, forget, parts_of, push_branch, push_meaning, push_operand,
};
use crate::callee::Callee;
use crate::chain::{Operand, chain};
use crate::fields::accessed;
use crate::forms::{case_of, conditional, lambda, let_in, negated, strict_at};
use crate::gathering::Gathered;
use crate::items::boxed;
use crate::leaves::one_word;
use crate::log::Log;
use crate::made::Made;
use crate::records::{base_values, record_of};
use crate::scope::Scope;
use crate::uses::note_operator;
use canon_env::env::World;
use elm_canon::tree::{Annotation, Branch, Expr, Group, Op};
use elm_lexer::token::Token;
use elm_tree::tree;
use elm_tree::tree::{Definition, Part, Word};
use std::alloc::{AllocError, Global};

/// What the expression `written` means, of which more arguments may follow. It is of the text of the tokens `tokens`,
/// as the lexer makes them; `world` has the names of the module and its imports, and `scope` the local names, which are
/// the same afterwards. Faults are noted in `log`, with the places where the local names are bound that are used. The
/// error means that memory ran out; then some local names may still be in scope.
#[cycle(meaning)]
pub fn callee(
    alloc: Global,
    tokens: &[Token<'_>],
    world: &World,
    scope: &mut Scope,
    log: &mut Log,
    written: &tree::Expr,
) -> Result<Callee, AllocError>
    requires { AreLiterals (tokens_view tokens.now) }
    ensures meaning { IfOk result (λ c. (w : naming.World) (locals : Locals) → StandsIn world.now scope.old w locals
        → callee_view c ≡ spec.callee w locals
        (tree_view.expr_view (tokens_view tokens.now) written.now)) }
    ensures log { OnOk result ((w : naming.World) (locals : Locals) → StandsIn world.now scope.old w locals
        → Grows w log.old log.new (spec.expr_sites w locals
        (tree_view.expr_view (tokens_view tokens.now) written.now))) }
    ensures scope { OnOk result (locals_of scope.new ≡ locals_of scope.old) }
{
    match written {
        tree::Expr::OneWord(word) => one_word(alloc, tokens, world, scope, log, *word),
        tree::Expr::Negative(sign, inner) => {
            let inner = meant(alloc, tokens, world, scope, log, inner)?;
            negated(alloc, tokens, *sign, inner)
        }
        tree::Expr::Apply(function, arguments) => {
            let function = callee(alloc, tokens, world, scope, log, function)?;
            let function = boxed(alloc, function)?;
            let arguments = meant_each(alloc, tokens, world, scope, log, arguments)?;
            applied(function, arguments)
        }
        tree::Expr::Chain(first, parts) => {
            let first = callee(alloc, tokens, world, scope, log, first)?;
            let first = boxed(alloc, first)?;
            let operands = operands(alloc, tokens, world, scope, log, parts)?;
            chain(alloc, tokens, first, operands)
        }
        tree::Expr::List(first, items) => {
            let items = meant_each(alloc, tokens, world, scope, log, items)?;
            strict_at(alloc, tokens, *first, Op::List, items)
        }
        tree::Expr::Tuple(first, parts) => {
            let parts = meant_each(alloc, tokens, world, scope, log, parts)?;
            strict_at(alloc, tokens, *first, Op::Tuple, parts)
        }
        tree::Expr::Record(first, base, fields) => {
            let values = base_values(alloc, tokens, world, scope, log, *base)?;
            let values = meant_parts(alloc, tokens, world, scope, log, fields, values)?;
            record_of(alloc, tokens, log, *first, *base, fields, values)
        }
        tree::Expr::Access(first, inner, fields) => {
            let inner = meant(alloc, tokens, world, scope, log, inner)?;
            accessed(alloc, tokens, *first, inner, fields)
        }
        tree::Expr::If(condition, yes, no) => {
            let condition = meant(alloc, tokens, world, scope, log, condition)?;
            let yes = meant(alloc, tokens, world, scope, log, yes)?;
            let no = meant(alloc, tokens, world, scope, log, no)?;
            conditional(alloc, condition, yes, no)
        }
        tree::Expr::Case(first, subject, branches) => {
            let subject = meant(alloc, tokens, world, scope, log, subject)?;
            let branches = meant_branches(alloc, tokens, world, scope, log, branches)?;
            case_of(alloc, tokens, *first, subject, branches)
        }
        tree::Expr::Let(definitions, body) => {
            let entered = enter_block(alloc, tokens, world, scope, log, definitions)?;
            let groups = defined(alloc, tokens, world, scope, log, definitions)?;
            let body = meant(alloc, tokens, world, scope, log, body)?;
            scope.leave(entered)?;
            let_in(alloc, groups, body)
        }
        tree::Expr::Lambda(first, parameters, body) => {
            let Parameters { patterns, words } = bind_parameters(
                alloc, tokens, world, scope, log, parameters,
            )?;
            let body = scoped(alloc, tokens, world, scope, log, &words, body)?;
            lambda(alloc, tokens, *first, patterns, body)
        }
    }
}

/// What the expression `written` means, of which no more arguments follow. Otherwise as `callee`.
#[cycle(meaning)]
pub fn meant(
    alloc: Global,
    tokens: &[Token<'_>],
    world: &World,
    scope: &mut Scope,
    log: &mut Log,
    written: &tree::Expr,
) -> Result<Box<Expr>, AllocError>
    requires { AreLiterals (tokens_view tokens.now) }
    ensures meaning { IfOk result (λ e. (w : naming.World) (locals : Locals) → StandsIn world.now scope.old w locals
        → expr_view e.value ≡ spec.meant w locals
        (tree_view.expr_view (tokens_view tokens.now) written.now)) }
    ensures log { OnOk result ((w : naming.World) (locals : Locals) → StandsIn world.now scope.old w locals
        → Grows w log.old log.new (spec.expr_sites w locals
        (tree_view.expr_view (tokens_view tokens.now) written.now))) }
    ensures scope { OnOk result (locals_of scope.new ≡ locals_of scope.old) }
{
    let callee = callee(alloc, tokens, world, scope, log, written)?;
    callee.finish(alloc)
}

/// What the expression `written` means where the names of the words `words` are local too. Otherwise as `meant`.
#[cycle(meaning)]
pub fn scoped(
    alloc: Global,
    tokens: &[Token<'_>],
    world: &World,
    scope: &mut Scope,
    log: &mut Log,
    words: &[Word],
    written: &tree::Expr,
) -> Result<Box<Expr>, AllocError>
    requires { AreLiterals (tokens_view tokens.now) }
    ensures meaning { IfOk result (λ e. (w : naming.World) (locals : Locals) → StandsIn world.now scope.old w locals
        → expr_view e.value ≡ spec.meant w
        (with_names (tree_view.words_view (tokens_view tokens.now) words.now) locals)
        (tree_view.expr_view (tokens_view tokens.now) written.now)) }
    ensures log { OnOk result ((w : naming.World) (locals : Locals) → StandsIn world.now scope.old w locals
        → Grows w log.old log.new (spec.expr_sites w
        (with_names (tree_view.words_view (tokens_view tokens.now) words.now) locals)
        (tree_view.expr_view (tokens_view tokens.now) written.now))) }
    ensures scope { OnOk result (locals_of scope.new ≡ locals_of scope.old) }
{
    let entered = scope.enter(alloc, tokens, words)?;
    let meaning = meant(alloc, tokens, world, scope, log, written)?;
    scope.leave(entered)?;
    Ok(meaning)
}

/// What expressions mean, in turn.
#[cycle(meaning)]
fn meant_each(
    alloc: Global,
    tokens: &[Token<'_>],
    world: &World,
    scope: &mut Scope,
    log: &mut Log,
    written: &[tree::Expr],
) -> Result<Vec<Expr>, AllocError>
    requires { AreLiterals (tokens_view tokens.now) }
    ensures meaning { IfOk result (λ v. (w : naming.World) (locals : Locals) → StandsIn world.now scope.old w locals
        → map expr_view v.items ≡ spec.meant_each w locals
        (tree.exprs_of (map (tree_view.expr_view (tokens_view tokens.now)) written.now))) }
    ensures log { OnOk result ((w : naming.World) (locals : Locals) → StandsIn world.now scope.old w locals
        → Grows w log.old log.new (spec.exprs_sites w locals
        (tree.exprs_of (map (tree_view.expr_view (tokens_view tokens.now)) written.now)))) }
    ensures scope { OnOk result (locals_of scope.new ≡ locals_of scope.old) }
{
    let mut meanings = Vec::new(alloc);
    for one in written {
        let meaning = meant(alloc, tokens, world, scope, log, one)?;
        push_meaning(&mut meanings, meaning)?;
    }
    Ok(meanings)
}

/// What the values of fields mean, in turn, after these.
#[cycle(meaning)]
fn meant_parts(
    alloc: Global,
    tokens: &[Token<'_>],
    world: &World,
    scope: &mut Scope,
    log: &mut Log,
    fields: &[Part],
    before: Vec<Expr>,
) -> Result<Vec<Expr>, AllocError>
    requires { AreLiterals (tokens_view tokens.now) }
    ensures meaning { IfOk result (λ v. (w : naming.World) (locals : Locals) → StandsIn world.now scope.old w locals
        → map expr_view v.items
        ≡ map expr_view before.items ++ spec.meant_parts w locals
        (tree.parts_of (map (tree_view.part_view (tokens_view tokens.now)) fields.now))) }
    ensures log { OnOk result ((w : naming.World) (locals : Locals) → StandsIn world.now scope.old w locals
        → Grows w log.old log.new (spec.part_sites w locals
        (tree.parts_of (map (tree_view.part_view (tokens_view tokens.now)) fields.now)))) }
    ensures scope { OnOk result (locals_of scope.new ≡ locals_of scope.old) }
{
    let mut meanings = before;
    for field in fields {
        let meaning = meant(alloc, tokens, world, scope, log, &field.value)?;
        push_meaning(&mut meanings, meaning)?;
    }
    Ok(meanings)
}

/// The operands of a chain, each with the operator before it.
#[cycle(meaning)]
fn operands(
    alloc: Global,
    tokens: &[Token<'_>],
    world: &World,
    scope: &mut Scope,
    log: &mut Log,
    parts: &[Part],
) -> Result<Vec<Operand>, AllocError>
    requires { AreLiterals (tokens_view tokens.now) }
    ensures meaning { IfOk result (λ v. (w : naming.World) (locals : Locals) → StandsIn world.now scope.old w locals
        → map (operand_view (tokens_view tokens.now)) v.items ≡ spec.callees w locals
        (tree.parts_of (map (tree_view.part_view (tokens_view tokens.now)) parts.now))) }
    ensures log { OnOk result ((w : naming.World) (locals : Locals) → StandsIn world.now scope.old w locals
        → Grows w log.old log.new (spec.chain_sites w locals
        (tree.parts_of (map (tree_view.part_view (tokens_view tokens.now)) parts.now)))) }
    ensures scope { OnOk result (locals_of scope.new ≡ locals_of scope.old) }
{
    let mut operands = Vec::new(alloc);
    for part in parts {
        note_operator(alloc, tokens, log, part.word)?;
        let callee = callee(alloc, tokens, world, scope, log, &part.value)?;
        push_operand(alloc, &mut operands, part.word, callee)?;
    }
    Ok(operands)
}

/// What the branches of a `case` mean.
#[cycle(meaning)]
fn meant_branches(
    alloc: Global,
    tokens: &[Token<'_>],
    world: &World,
    scope: &mut Scope,
    log: &mut Log,
    branches: &[tree::Branch],
) -> Result<Vec<Branch>, AllocError>
    requires { AreLiterals (tokens_view tokens.now) }
    ensures meaning { IfOk result (λ v. (w : naming.World) (locals : Locals) → StandsIn world.now scope.old w locals
        → canon.branches_of (map branch_view v.items) ≡ spec.meant_branches w locals
        (tree.branches_of (map (tree_view.branch_view (tokens_view tokens.now)) branches.now))) }
    ensures log { OnOk result ((w : naming.World) (locals : Locals) → StandsIn world.now scope.old w locals
        → Grows w log.old log.new (spec.branch_sites w locals
        (tree.branches_of (map (tree_view.branch_view (tokens_view tokens.now)) branches.now)))) }
    ensures scope { OnOk result (locals_of scope.new ≡ locals_of scope.old) }
{
    let mut meanings = Vec::new(alloc);
    for branch in branches {
        let BoundPattern { pattern, words } = bind_pattern(
            alloc,
            tokens,
            world,
            scope,
            log,
            &branch.pattern,
        )?;
        let body = scoped(alloc, tokens, world, scope, log, &words, &branch.body)?;
        push_branch(&mut meanings, pattern, body)?;
    }
    Ok(meanings)
}

/// The groups of the definitions of a block, whose names are in scope.
#[cycle(meaning)]
fn defined(
    alloc: Global,
    tokens: &[Token<'_>],
    world: &World,
    scope: &mut Scope,
    log: &mut Log,
    definitions: &[Definition],
) -> Result<Vec<Group>, AllocError>
    requires { AreLiterals (tokens_view tokens.now) }
    ensures meaning { IfOk result (λ v. (w : naming.World) (locals : Locals) → StandsIn world.now scope.old w locals
        → canon.groups_of (map group_view v.items) ≡ spec.block_groups w locals
        (tree.definitions_of (map (tree_view.definition_view (tokens_view tokens.now)) definitions.now))
        (spec.made_in w locals None
        (tree.definitions_of (map (tree_view.definition_view (tokens_view tokens.now)) definitions.now)))) }
    ensures log { OnOk result ((w : naming.World) (locals : Locals) → StandsIn world.now scope.old w locals
        → Grows w log.old log.new (joined_sites (spec.definitions_sites w locals
        (tree.definitions_of (map (tree_view.definition_view (tokens_view tokens.now)) definitions.now)))
        ++ reaching_sites (uses_among w (bound_by_each
        (tree.definitions_of (map (tree_view.definition_view (tokens_view tokens.now)) definitions.now)))
        (spec.definitions_sites w locals
        (tree.definitions_of (map (tree_view.definition_view (tokens_view tokens.now)) definitions.now))))
        (defined_in
        (tree.definitions_of (map (tree_view.definition_view (tokens_view tokens.now)) definitions.now))))) }
    ensures scope { OnOk result (locals_of scope.new ≡ locals_of scope.old) }
{
    let mut gathered = Gathered::new(alloc, tokens, definitions)?;
    for definition in definitions {
        let start = log.uses.len();
        let before = &mut gathered.before;
        let made = one_definition(alloc, tokens, world, scope, log, definition, before)?;
        gathered.add(alloc, log, start, made)?;
    }
    gathered.finish(alloc, tokens, log, definitions)
}

/// What a definition means, with the annotation that stands before it. What then stands before the next one is the
/// annotation that it is, if it is one.
#[cycle(meaning)]
fn one_definition(
    alloc: Global,
    tokens: &[Token<'_>],
    world: &World,
    scope: &mut Scope,
    log: &mut Log,
    definition: &Definition,
    before: &mut Option<Annotation>,
) -> Result<Made, AllocError>
    requires { AreLiterals (tokens_view tokens.now) }
    ensures meaning { IfOk result (λ m. (w : naming.World) (locals : Locals) → StandsIn world.now scope.old w locals
        → made_view m
        ≡ spec.made_by w locals (option_map annotation_view before.old)
        (tree_view.definition_view (tokens_view tokens.now) definition.now)) }
    ensures log { OnOk result ((w : naming.World) (locals : Locals) → StandsIn world.now scope.old w locals
        → Grows w log.old log.new (spec.definition_sites w locals
        (tree_view.definition_view (tokens_view tokens.now) definition.now))) }
    ensures scope { OnOk result (locals_of scope.new ≡ locals_of scope.old) }
    ensures before { OnOk result ((w : naming.World) (locals : Locals) → StandsIn world.now scope.old w locals
        → option_map annotation_view before.new ≡ spec.annotation_of w
        (tree_view.definition_view (tokens_view tokens.now) definition.now)) }
{
    match definition {
        Definition::Annotate(_, written) => {
            annotate(alloc, tokens, world, log, written, before)?;
            Ok(Made::Nothing)
        }
        Definition::Define(name, parameters, body) => {
            let Parameters { patterns, words } = bind_parameters(
                alloc, tokens, world, scope, log, parameters,
            )?;
            let value = scoped(alloc, tokens, world, scope, log, &words, body)?;
            defined_by(
                alloc, tokens, *name, before, parameters, patterns, body, value,
            )
        }
        Definition::Destructure(left, body) => {
            forget(before);
            let parts = boxed_pattern(alloc, tokens, world, log, left)?;
            let value = meant(alloc, tokens, world, scope, log, body)?;
            Ok(parts_of(parts, value))
        }
    }
}
