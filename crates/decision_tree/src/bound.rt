//! A constant for each name that a pattern binds, by its path from the value.
//!
//! All goes as deep as the pattern nests. The path of a name is written out, so what is added is as long as all the
//! paths together.

ghost use Rattle.std.specs.Prelude.{◌≡◌, ◌≤◌, ◌∷◌, List, OnOk, length, map, take};
ghost use Rattle.elm_canon.specs.Tree.{patterns_of};
ghost use Rattle.elm_canon.specs.Tree as source;
ghost use Rattle.elm_canon.specs.View.{pattern_view, items_before};
ghost use Rattle.js_tree.specs.Tree.{JVar, Made, Local, Stmts};
ghost use Rattle.js_tree.specs.Postorder.{Expression, StatementsOf, ConstThen, trees_of, top, below, statements};
ghost use Rattle.js_tree.specs.Postorder.{statements_then};
ghost use Rattle.js_emit.specs.Patterns.{consts};
ghost use Rattle.decision_tree.specs.Before.{path_js, fields_before, consts_before, parts_before};

use elm_base::names::Name;
use elm_canon::tree::Pattern;
use js_emit::names::{part_name, units_of};
use js_emit::push::push_made;
use js_tree::tree;
use js_tree::tree::Node;
use js_tree::trees::Trees;
use std::alloc::{AllocError, Global};

/// Adds a part of a part, and so on, of the value that has the made name `subject`. The error means that memory ran
/// out.
pub fn push_path(
    alloc: Global,
    trees: &mut Trees,
    subject: u64,
    path: &[usize],
) -> Result<(), AllocError>
    ensures { OnOk result (trees_of trees.new
        ≡ Expression (path_js (JVar (Made subject)) path.now) ∷ trees_of trees.old) }
{
    push_made(trees, subject)?;
    for number in path {
        trees.push(Node::Property(part_name(alloc, *number)?))?;
    }
    Ok(())
}

/// Adds a constant of that name for what stands there.
fn push_const(
    alloc: Global,
    trees: &mut Trees,
    name: &Name,
    subject: u64,
    path: &[usize],
) -> Result<(), AllocError>
    ensures { OnOk result (trees_of trees.new ≡ StatementsOf (ConstThen (statements (top (trees_of trees.old)))
        (Local name.now) (path_js (JVar (Made subject)) path.now)) ∷ below (trees_of trees.old)) }
{
    push_path(alloc, trees, subject, path)?;
    trees.push(Node::Const(tree::Name::Local(units_of(alloc, name)?)))
}

/// Adds a constant for each field of the record that stands there.
fn push_fields(
    alloc: Global,
    trees: &mut Trees,
    names: &[Name],
    subject: u64,
    path: &[usize],
) -> Result<(), AllocError>
    requires begun { trees_of trees.old ≡ StatementsOf (statements (top (trees_of trees.old)))
        ∷ below (trees_of trees.old) }
    ensures { OnOk result (trees_of trees.new ≡ StatementsOf (fields_before (statements (top (trees_of trees.old)))
        names.now (path_js (JVar (Made subject)) path.now)) ∷ below (trees_of trees.old)) }
{
    for name in names {
        push_path(alloc, trees, subject, path)?;
        trees.push(Node::Property(units_of(alloc, name)?))?;
        trees.push(Node::Const(tree::Name::Local(units_of(alloc, name)?)))?;
    }
    Ok(())
}

/// Adds a constant for each name of the pattern of what stands there.
#[cycle(bound)]
#[tactic(auto, using(elm_canon::proofs::Views::anything_pattern, elm_canon::proofs::Views::named_pattern, elm_canon::proofs::Views::as_pattern, elm_canon::proofs::Views::exact_pattern, elm_canon::proofs::Views::construct_pattern, elm_canon::proofs::Views::pattern_of_tuple, elm_canon::proofs::Views::list_pattern, elm_canon::proofs::Views::items_pattern, elm_canon::proofs::Views::fields_pattern, elm_canon::proofs::Views::located_pattern))]
fn push_at(
    alloc: Global,
    trees: &mut Trees,
    pattern: &Pattern,
    subject: u64,
    path: &mut Vec<usize>,
) -> Result<(), AllocError>
    requires begun { trees_of trees.old ≡ StatementsOf (statements (top (trees_of trees.old)))
        ∷ below (trees_of trees.old) }
    ensures bound { OnOk result (trees_of trees.new
        ≡ StatementsOf (consts_before (statements (top (trees_of trees.old)))
        (pattern_view pattern.now) (path_js (JVar (Made subject)) path.old.items)) ∷ below (trees_of trees.old)) }
    ensures back { OnOk result (path.new.items ≡ path.old.items) }
{
    match pattern {
        Pattern::Anything | Pattern::Exactly(_) => Ok(()),
        Pattern::Named(name) => push_const(alloc, trees, name, subject, path),
        Pattern::As(pattern, name) => {
            push_at(alloc, trees, pattern, subject, path)?;
            push_const(alloc, trees, name, subject, path)
        }
        Pattern::Construct(_, _, parts) | Pattern::Tuple(parts) => {
            push_parts(alloc, trees, parts, subject, path)
        }
        Pattern::List(items) => {
            let depth = path.len();
            push_items(alloc, trees, items, subject, path)?;
            path.truncate(depth);
            Ok(())
        }
        Pattern::Items(items, rest) => {
            let depth = path.len();
            push_items(alloc, trees, items, subject, path)?;
            push_at(alloc, trees, rest, subject, path)?;
            path.truncate(depth);
            Ok(())
        }
        Pattern::Fields(names) => push_fields(alloc, trees, names, subject, path),
        Pattern::Located(_, pattern) => push_at(alloc, trees, pattern, subject, path),
    }
}

/// The same for each of the parts.
#[cycle(bound)]
#[tactic(auto, using(crate::proofs::Binding::path_push))]
fn push_parts(
    alloc: Global,
    trees: &mut Trees,
    parts: &[Pattern],
    subject: u64,
    path: &mut Vec<usize>,
) -> Result<(), AllocError>
    requires begun { trees_of trees.old ≡ StatementsOf (statements (top (trees_of trees.old)))
        ∷ below (trees_of trees.old) }
    ensures bound { OnOk result (trees_of trees.new ≡ StatementsOf (parts_before (statements (top (trees_of trees.old)))
        0 (patterns_of (map pattern_view parts.now)) (path_js (JVar (Made subject)) path.old.items))
        ∷ below (trees_of trees.old)) }
    ensures back { OnOk result (path.new.items ≡ path.old.items) }
{
    let depth = path.len();
    for number in 0..parts.len() {
        path.push(number)?;
        push_at(alloc, trees, &parts[number], subject, path)?;
        path.truncate(depth);
    }
    Ok(())
}

/// The same for each item of a list. The path is then that of what comes after the items.
#[cycle(bound)]
#[tactic(auto, using(crate::proofs::Binding::path_push))]
fn push_items(
    alloc: Global,
    trees: &mut Trees,
    items: &[Pattern],
    subject: u64,
    path: &mut Vec<usize>,
) -> Result<(), AllocError>
    requires begun { trees_of trees.old ≡ StatementsOf (statements (top (trees_of trees.old)))
        ∷ below (trees_of trees.old) }
    ensures kind { OnOk result (trees_of trees.new
        ≡ StatementsOf (statements (top (trees_of trees.new))) ∷ below (trees_of trees.old)) }
    ensures bound { OnOk result ((rest : source.Pattern) →
        consts_before (statements (top (trees_of trees.new))) rest (path_js (JVar (Made subject)) path.new.items)
        ≡ consts_before (statements (top (trees_of trees.old))) (items_before rest (map pattern_view items.now))
        (path_js (JVar (Made subject)) path.old.items)) }
    ensures longer { OnOk result (length path.old.items ≤ length path.new.items) }
    ensures kept { OnOk result (take (length path.old.items) path.new.items ≡ path.old.items) }
{
    for item in items {
        let depth = path.len();
        path.push(0)?;
        push_at(alloc, trees, item, subject, path)?;
        path.truncate(depth);
        path.push(1)?;
    }
    Ok(())
}

/// Adds a constant for each name of the pattern to the statements that stand last. The value has the made name
/// `subject`. The error means that memory ran out.
#[tactic(auto, using(crate::proofs::Binding::consts_law))]
pub fn push_consts(
    alloc: Global,
    trees: &mut Trees,
    pattern: &Pattern,
    subject: u64,
) -> Result<(), AllocError>
    requires begun { trees_of trees.old ≡ StatementsOf (statements (top (trees_of trees.old)))
        ∷ below (trees_of trees.old) }
    ensures kind { OnOk result (trees_of trees.new
        ≡ StatementsOf (statements (top (trees_of trees.new))) ∷ below (trees_of trees.old)) }
    ensures consts { OnOk result ((s : Stmts) → statements_then (statements (top (trees_of trees.new))) s
        ≡ statements_then (statements (top (trees_of trees.old)))
        (consts (pattern_view pattern.now) (JVar (Made subject)) s)) }
{
    push_bound(alloc, trees, pattern, subject)
}

/// The same, by what then stands there.
pub fn push_bound(
    alloc: Global,
    trees: &mut Trees,
    pattern: &Pattern,
    subject: u64,
) -> Result<(), AllocError>
    requires begun { trees_of trees.old ≡ StatementsOf (statements (top (trees_of trees.old)))
        ∷ below (trees_of trees.old) }
    ensures { OnOk result (trees_of trees.new ≡ StatementsOf (consts_before (statements (top (trees_of trees.old)))
        (pattern_view pattern.now) (JVar (Made subject))) ∷ below (trees_of trees.old)) }
{
    let mut path = Vec::new(alloc);
    push_at(alloc, trees, pattern, subject, &mut path)
}
