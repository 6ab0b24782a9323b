//! Functions by their parameters, each of which returns the next.

ghost use Rattle.std.specs.Prelude.{◌≡◌, ◌<◌, ◌≤◌, ◌+◌, ◌∷◌, List, IfOk, OnOk, length, map, option_map};
ghost use Rattle.elm_canon.specs.View.{pattern_view, patterns_view};
ghost use Rattle.js_tree.specs.Tree.{Stmts};
ghost use Rattle.js_tree.specs.Postorder.{Tree, Expression, StatementsOf, BlockOf, trees_of, top, below, statements};
ghost use Rattle.js_tree.specs.Postorder.{statements_then, name_view};
ghost use Rattle.js_emit.specs.Names.{now};
ghost use Rattle.js_emit.specs.Patterns.{made_one, made_for, parameter, parameter_consts, arrows};
ghost use Rattle.decision_tree.specs.Before.{own_name, parameter_before};
ghost use Rattle.decision_tree.specs.Opened.{opened, named, arrow_ended};

use crate::bound::push_bound;
use elm_base::names::Name;
use elm_canon::tree::Pattern;
use js_emit::names::units_of;
use js_tree::tree;
use js_tree::tree::Node;
use js_tree::trees::Trees;
use std::alloc::{AllocError, Global};

/// The name that is the whole of a pattern, if one is.
#[cycle(own)]
#[tactic(auto, using(elm_canon::proofs::Views::anything_pattern, elm_canon::proofs::Views::named_pattern, elm_canon::proofs::Views::as_pattern, elm_canon::proofs::Views::exact_pattern, elm_canon::proofs::Views::construct_pattern, elm_canon::proofs::Views::pattern_of_tuple, elm_canon::proofs::Views::list_pattern, elm_canon::proofs::Views::items_pattern, elm_canon::proofs::Views::fields_pattern, elm_canon::proofs::Views::located_pattern, crate::proofs::Binding::own_list, crate::proofs::Binding::own_some, crate::proofs::Binding::own_rest))]
fn own_name(pattern: &Pattern) -> Option<&Name>
    ensures { option_map (λ x. x.now) result ≡ own_name (pattern_view pattern.now) }
{
    match pattern {
        Pattern::Named(name) => Some(name),
        Pattern::Located(_, pattern) => own_name(pattern),
        Pattern::Items(items, rest) => {
            if items.len() == 0 {
                own_name(rest)
            } else {
                None
            }
        }
        Pattern::Anything
        | Pattern::As(_, _)
        | Pattern::Exactly(_)
        | Pattern::Construct(_, _, _)
        | Pattern::Tuple(_)
        | Pattern::List(_)
        | Pattern::Fields(_) => None,
    }
}

/// How many made names a parameter takes: 1, unless it is a name itself.
#[tactic(auto, using(crate::proofs::Binding::made_none, crate::proofs::Binding::made_some))]
fn made_one(pattern: &Pattern) -> u64
    ensures counted { result ≡ made_one (pattern_view pattern.now) }
    ensures small { result ≤ 1 }
{
    match own_name(pattern) {
        None => 1,
        Some(_) => 0,
    }
}

/// How many made names the parameters take.
pub fn made_for(parameters: &[Pattern]) -> u64
    ensures { result ≡ made_for (patterns_view parameters.now) }
{
    let mut made = 0;
    for pattern in parameters {
        made += made_one(pattern);
    }
    made
}

/// The name of a parameter, which has that made name unless it has one of its own.
#[tactic(auto, using(crate::proofs::Binding::named_none, crate::proofs::Binding::named_some))]
fn name_of(alloc: Global, pattern: &Pattern, number: u64) -> Result<tree::Name, AllocError>
    ensures { IfOk result (λ name. name_view name ≡ parameter number (pattern_view pattern.now)) }
{
    match own_name(pattern) {
        None => Ok(tree::Name::Made(number)),
        Some(name) => Ok(tree::Name::Local(units_of(alloc, name)?)),
    }
}

/// Counts the made name that a parameter takes. The error means that the numbers ran out.
fn count(pattern: &Pattern, made: &mut u64) -> Result<(), AllocError>
    ensures { OnOk result (made.new ≡ made.old + made_one (pattern_view pattern.now)) }
{
    *made = made.checked_add(made_one(pattern)).ok_or(AllocError)?;
    Ok(())
}

/// The name of a parameter. `made` is the number of the next made name. The error means that memory ran out.
pub fn parameter(alloc: Global, pattern: &Pattern, made: &mut u64) -> Result<tree::Name, AllocError>
    ensures named { IfOk result (λ name. name_view name ≡ parameter made.old (pattern_view pattern.now)) }
    ensures counted { OnOk result (made.new ≡ made.old + made_one (pattern_view pattern.now)) }
{
    let number = *made;
    count(pattern, made)?;
    name_of(alloc, pattern, number)
}

/// Adds the constants of a parameter after no statement.
fn push_opened(
    alloc: Global,
    trees: &mut Trees,
    pattern: &Pattern,
    number: u64,
) -> Result<(), AllocError>
    ensures { OnOk result (trees_of trees.new
        ≡ StatementsOf (parameter_before number (pattern_view pattern.now) (own_name (pattern_view pattern.now)))
        ∷ trees_of trees.old) }
{
    trees.push(Node::NoStatement)?;
    match own_name(pattern) {
        None => push_bound(alloc, trees, pattern, number),
        Some(_) => Ok(()),
    }
}

/// Adds the constants of a parameter to the statements that stand last. Its made name, if it has one, has that number.
/// The error means that memory ran out.
#[tactic(auto, using(crate::proofs::Binding::bound_law, crate::proofs::Binding::bound_some))]
pub fn push_parameter_consts(
    alloc: Global,
    trees: &mut Trees,
    pattern: &Pattern,
    number: u64,
) -> Result<(), AllocError>
    requires begun { trees_of trees.old ≡ StatementsOf (statements (top (trees_of trees.old)))
        ∷ below (trees_of trees.old) }
    ensures kind { OnOk result (trees_of trees.new
        ≡ StatementsOf (statements (top (trees_of trees.new))) ∷ below (trees_of trees.old)) }
    ensures consts { OnOk result ((s : Stmts) → statements_then (statements (top (trees_of trees.new))) s
        ≡ statements_then (statements (top (trees_of trees.old)))
        (parameter_consts number (pattern_view pattern.now) s)) }
{
    match own_name(pattern) {
        None => push_bound(alloc, trees, pattern, number),
        Some(_) => Ok(()),
    }
}

/// Begins the functions of these parameters, one within the other. `made` is the number of the next made name. The
/// error means that memory or the numbers ran out.
pub fn begin_arrows(
    alloc: Global,
    trees: &mut Trees,
    parameters: &[Pattern],
    made: &mut u64,
) -> Result<(), AllocError>
    ensures opened { OnOk result (trees_of trees.new
        ≡ opened made.old (patterns_view parameters.now) (trees_of trees.old)) }
    ensures counted { OnOk result (made.new ≡ made.old + made_for (patterns_view parameters.now)) }
{
    for pattern in parameters {
        push_opened(alloc, trees, pattern, *made)?;
        count(pattern, made)?;
    }
    Ok(())
}

/// Ends the innermost function.
fn end_one(
    alloc: Global,
    trees: &mut Trees,
    pattern: &Pattern,
    number: u64,
) -> Result<(), AllocError>
    ensures { OnOk result (trees_of trees.new
        ≡ arrow_ended (parameter number (pattern_view pattern.now)) (trees_of trees.old)) }
{
    let name = name_of(alloc, pattern, number)?;
    trees.push(Node::Ended)?;
    trees.push(Node::Arrow(name))
}

/// Ends the functions of these parameters, of which there is at least one. `first` is the number that was the next made
/// name's when they were begun, and the block of the last stands there. The error means that memory or the numbers ran
/// out.
pub fn end_arrows(
    alloc: Global,
    trees: &mut Trees,
    parameters: &[Pattern],
    first: u64,
) -> Result<(), AllocError>
    requires some { 0 < length parameters.now }
    ensures { OnOk result ((s : Stmts) (ts : List Tree)
        → trees_of trees.old ≡ BlockOf s ∷ opened first (patterns_view parameters.now) ts
        → trees_of trees.new ≡ Expression (now (arrows first (patterns_view parameters.now) s)) ∷ ts) }
{
    let Some(mut number) = first.checked_add(made_for(parameters)) else {
        return Err(AllocError);
    };
    let mut left = parameters.len();
    while left > 1 {
        left -= 1;
        let pattern = &parameters[left];
        number -= made_one(pattern);
        end_one(alloc, trees, pattern, number)?;
        trees.push(Node::Return)?;
    }
    end_one(alloc, trees, &parameters[0], first)
}
