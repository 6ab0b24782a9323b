//! The types of names with annotations, where they are used.

ghost use Rattle.std.specs.Prelude.{◌≡◌, ◌+◌, ℕ, [], ◌++◌, map, if◌then◌else◌, IfOk, OnOk};
ghost use Rattle.elm_canon.specs.Tree.{Annotation};
ghost use Rattle.elm_type.specs.Nodes.{renamed_node};
ghost use Rattle.elm_type.specs.View.{kind_view, type_view};
ghost use Rattle.type_items.specs.Scopes.{Constants};
ghost use Rattle.type_items.specs.Annotations.{scheme_inside};
ghost use Rattle.type_store.specs.Store.{Store};
ghost use Rattle.type_walks.specs.Links.{Links};
ghost use Rattle.infer_steps.specs.Means.{IsDeclared};
ghost use Rattle.infer_steps.specs.Ready.{IsReady, DeclaredReady};
ghost use Rattle.infer_steps.specs.View.{code_of, declared_view};
ghost use Rattle.infer_types.specs.Asking.{MeansConstants};
ghost use Rattle.infer_types.specs.Fixing.{IsAnnotation, Annotated};
ghost use Rattle.infer_types.specs.Table.{table, more_outer, outer_of, moved, LackAround};

use crate::own::{OwnVariable, own_variables};
use elm_base::names::Name;
use elm_type::node::{Leaf, Node};
use elm_type::scheme::{Kind, Scheme};
use elm_type::ty::Ty;
use infer_steps::scope::{Declared, Scope};
use std::alloc::{AllocError, Global};

/// The next numbers of own variables, and of those of annotations around.
#[derive(Drop)]
struct Numbers {
    own: u32,
    outer: u32,
}

/// The number after this one. The error is that there is none.
fn after(number: u32) -> Result<u32, AllocError>
    ensures { IfOk result (λ n. n ≡ number + 1) }
{
    match number.checked_add(1) {
        Some(next) => Ok(next),
        None => Err(AllocError),
    }
}

/// Takes the next number.
fn next(numbers: &mut Numbers, is_own: bool) -> Result<u32, AllocError>
    ensures number { IfOk result (λ n. n ≡ (if is_own then numbers.old.own else numbers.old.outer)) }
    ensures own { OnOk result (numbers.new.own ≡ (if is_own then numbers.old.own + 1 else numbers.old.own)) }
    ensures outer { OnOk result (numbers.new.outer ≡ (if is_own then numbers.old.outer else numbers.old.outer + 1)) }
{
    if is_own {
        let number = numbers.own;
        numbers.own = after(number)?;
        Ok(number)
    } else {
        let number = numbers.outer;
        numbers.outer = after(number)?;
        Ok(number)
    }
}

/// The numbers of the variables `names`, of which `own` are the annotation's own.
fn numbers_of(
    alloc: Global,
    scope: &Scope,
    names: &[Name],
    own: u32,
) -> Result<Vec<u32>, AllocError>
    ensures { IfOk result (λ numbers. numbers.items ≡ table (code_of scope.now) 0 own names.now) }
{
    let mut numbers = Numbers { own: 0, outer: own };
    let mut table = Vec::new(alloc);
    for name in names {
        let is_own = scope.constant(name).is_none();
        table.push(next(&mut numbers, is_own)?)?;
    }
    Ok(table)
}

/// Adds the variable of the store for a variable of an annotation around.
fn add_outer(scope: &Scope, name: &Name, outer: &mut Vec<u32>) -> Result<(), AllocError>
    ensures { OnOk result (outer.new.items ≡ outer.old.items ++ more_outer ((code_of scope.now).constants name.now) []) }
{
    match scope.constant(name) {
        None => Ok(()),
        Some(variable) => {
            outer.push(variable)?;
            Ok(())
        }
    }
}

/// The variables of the store for those of the variables `names` that annotations around have.
fn outer_variables(alloc: Global, scope: &Scope, names: &[Name]) -> Result<Vec<u32>, AllocError>
    ensures { IfOk result (λ vs. vs.items ≡ outer_of (code_of scope.now) names.now) }
{
    let mut outer = Vec::new(alloc);
    for name in names {
        add_outer(scope, name, &mut outer)?;
    }
    Ok(outer)
}

/// The node with its variable by the number that the table has for it.
fn moved_node(node: &Node, numbers: &[u32]) -> Result<Node, AllocError>
    ensures { IfOk result (λ other. other ≡ renamed_node (moved numbers.now) node.now) }
{
    match node {
        Node::Open(Leaf::Free(number), count) => {
            let other = numbers.get(*number as usize).copied().unwrap_or(0);
            Ok(Node::Open(Leaf::Free(other), *count))
        }
        other => other.copy(),
    }
}

/// The nodes with their variables by the numbers that the table has for them.
fn moved_nodes(alloc: Global, nodes: &[Node], numbers: &[u32]) -> Result<Vec<Node>, AllocError>
    ensures { IfOk result (λ others. others.items ≡ map (renamed_node (moved numbers.now)) nodes.now) }
{
    let mut others = Vec::with_capacity(alloc, nodes.len())?;
    for node in nodes {
        others.push(moved_node(node, numbers)?)?;
    }
    Ok(others)
}

/// The kinds of variables.
fn kinds_of(alloc: Global, own: Vec<OwnVariable>) -> Result<Vec<Kind>, AllocError>
    ensures { IfOk result (λ kinds. map kind_view kinds.items ≡ map (λ o. kind_view o.kind) own.items) }
{
    let mut kinds = Vec::new(alloc);
    for variable in own {
        let OwnVariable { name: _, kind } = variable;
        kinds.push(kind)?;
    }
    Ok(kinds)
}

/// What a name with an annotation stands for where it is used. The annotation has the variables `names` in order of
/// appearance, of the kinds `kinds`, and the type `ty` over their numbers. Those that annotations around have stand for
/// variables of the store. The error means that memory or numbers ran out.
pub fn declared(
    alloc: Global,
    scope: &Scope,
    names: &[Name],
    kinds: &[Kind],
    ty: &Ty,
) -> Result<Declared, AllocError>
    requires { Annotated names.now (map kind_view kinds.now) (type_view ty.now) }
    ensures ready { IfOk result (λ t. (d : ℕ) (s : Store) → IsReady (code_of scope.now) d s
        → LackAround (code_of scope.now) s names.now (map kind_view kinds.now)
        → DeclaredReady d s (declared_view t)) }
    ensures declared { IfOk result (λ t. (a : Annotation) (links : Links) (around : Constants)
        → IsAnnotation a names.now (map kind_view kinds.now) (type_view ty.now)
        → MeansConstants (code_of scope.now) links around → IsDeclared links (declared_view t) (scheme_inside around a)) }
{
    let own = own_variables(alloc, scope, names, kinds)?;
    let Ok(own_count) = u32::try_from(own.len()) else {
        return Err(AllocError);
    };
    let numbers = numbers_of(alloc, scope, names, own_count)?;
    let outer = outer_variables(alloc, scope, names)?;
    let nodes = moved_nodes(alloc, &ty.nodes, &numbers)?;
    let kinds = kinds_of(alloc, own)?;
    Ok(Declared {
        scheme: Scheme {
            ty: Ty { nodes },
            kinds,
        },
        outer,
    })
}
