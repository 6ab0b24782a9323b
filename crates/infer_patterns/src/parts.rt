//! Patterns without parts, and what is asked before the parts of a pattern.

ghost use Rattle.std.specs.Prelude.{◌≡◌, [], Err, IfOk, OnOk, length};
ghost use Rattle.elm_base.specs.declared.position.Pos as plain;
ghost use Rattle.elm_canon.specs.Tree.{Exactly, FieldsOf};
ghost use Rattle.elm_canon.specs.Unions.{TupleUnion, ListUnion};
ghost use Rattle.elm_canon.specs.View.{nil_pattern};
ghost use Rattle.elm_canon.specs.declared.unions.Alternative as canon;
ghost use Rattle.type_constructs.specs.Patterns.{bound_before, list_slots};
ghost use Rattle.type_items.specs.Patterns.{literal_type};
ghost use Rattle.type_items.specs.Scopes as scopes;
ghost use Rattle.type_store.specs.Shape.{IsStore};
ghost use Rattle.type_walks.specs.Links.{Live};
ghost use Rattle.infer_steps.specs.Ready.{AreWritten};
ghost use Rattle.infer_steps.specs.View.{here, bad_view, known_view};
ghost use Rattle.infer_steps.specs.declared.bad.Bad.{Bad};
ghost use Rattle.infer_steps.specs.declared.bad.InferError.TheVariants as error;
ghost use Rattle.infer_steps.specs.Made.{IsMade, Just};
ghost use Rattle.infer_steps.specs.Records.{AreDistinct};
ghost use Rattle.infer_patterns.specs.Matches.{MatchesPattern, RefusesPattern, AddsNames, Begins, RefusesConstructor};
ghost use Rattle.infer_patterns.specs.View.{in_scope};

use crate::bound::{Bound, bind};
use crate::shape::{Items, infer_shape, list_shape, tuple_shape};
use elm_base::names::Name;
use elm_base::position::Pos;
use elm_canon::tree::Literal;
use elm_canon::unions::{Alternative, Union};
use infer_steps::ask::{lacks_each, same};
use infer_steps::bad::InferError;
use infer_steps::known::Known;
use infer_steps::make;
use infer_steps::record::record;
use infer_steps::state::State;
use std::alloc::{AllocError, Global};

/// Makes a variable for the type of a literal.
fn literal_type(alloc: Global, state: &mut State, literal: &Literal) -> Result<u32, AllocError>
    requires { IsStore (here state.old).store }
    ensures { IfOk result (λ v. IsMade (here state.old) (here state.new) v (Just (literal_type literal.now))) }
{
    match literal {
        Literal::Int(_number) => make::int(alloc, state),
        Literal::Char(_units) => make::char(alloc, state),
        Literal::Text(_units) => make::text(alloc, state),
    }
}

/// Matches a literal.
pub fn match_literal(
    alloc: Global,
    state: &mut State,
    position: Pos,
    literal: &Literal,
    wanted: u32,
) -> Result<(), InferError>
    requires whole { IsStore (here state.old).store }
    requires wanted { Live (here state.old).depth (here state.old).store wanted }
    ensures matches { OnOk result ((known : scopes.Known) → MatchesPattern known position wanted
        (Exactly literal.now) [] (here state.old) (here state.new)) }
    ensures refuses { (b : Bad) → result ≡ Err (error.Bad b) → (known : scopes.Known) → RefusesPattern known position
        wanted (Exactly literal.now) (bad_view b) (here state.old) (here state.new) }
{
    let variable = literal_type(alloc, state, literal)?;
    same(state, position, variable, wanted)
}

/// Binds each name to the variable of its field.
fn bind_each(names: &[Name], variables: &[u32], bound: &mut Vec<Bound>) -> Result<(), AllocError>
    requires { length variables.now ≡ length names.now }
    ensures { OnOk result (in_scope bound.new.items ≡ bound_before names.now variables.now (in_scope bound.old.items)) }
{
    for i in 0..names.len() {
        bind(&names[i], variables[i], bound)?;
    }
    Ok(())
}

/// Matches a record by its fields.
pub fn match_fields(
    alloc: Global,
    state: &mut State,
    position: Pos,
    names: &[Name],
    wanted: u32,
    bound: &mut Vec<Bound>,
) -> Result<(), InferError>
    requires whole { IsStore (here state.old).store }
    requires wanted { Live (here state.old).depth (here state.old).store wanted }
    requires once { AreDistinct names.now }
    ensures matches { OnOk result ((known : scopes.Known) → AddsNames (λ own. MatchesPattern known position wanted
        (FieldsOf names.now) own (here state.old) (here state.new)) (in_scope bound.old.items)
        (in_scope bound.new.items)) }
    ensures refuses { (b : Bad) → result ≡ Err (error.Bad b) → (known : scopes.Known) → RefusesPattern known position
        wanted (FieldsOf names.now) (bad_view b) (here state.old) (here state.new) }
{
    let rest = make::open(state)?;
    match lacks_each(state, position, rest, names) {
        Ok(()) => {}
        Err(error) => return Err(error),
    }
    let fields = make::open_each(alloc, state, names.len())?;
    let variable = record(alloc, state, names, &fields, Some(rest))?;
    match same(state, position, variable, wanted) {
        Ok(()) => {}
        Err(error) => return Err(error),
    }
    bind_each(names, &fields, bound)?;
    Ok(())
}

/// Asks what a constructor asks, and that what it makes has the wanted type. The result: the variables of its fields.
pub fn begin_constructor(
    alloc: Global,
    state: &mut State,
    known: &Known,
    position: Pos,
    union: &Union,
    alternative: &Alternative,
    wanted: u32,
) -> Result<Vec<u32>, InferError>
    requires whole { IsStore (here state.old).store }
    requires known { AreWritten (known_view known.now) }
    requires wanted { Live (here state.old).depth (here state.old).store wanted }
    ensures begins { IfOk result (λ vs. Begins (known_view known.now) position wanted union.now alternative.now vs.items
        (here state.old) (here state.new)) }
    ensures refuses { (b : Bad) → result ≡ Err (error.Bad b) → RefusesConstructor (known_view known.now) position wanted
        union.now alternative.now (bad_view b) (here state.old) (here state.new) }
{
    match infer_shape(alloc, state, known, position, union, alternative) {
        Ok(shape) => match same(state, position, shape.result, wanted) {
            Ok(()) => Ok(shape.parts),
            Err(error) => Err(error),
        },
        Err(error) => Err(error),
    }
}

/// The same for tuples of `count` parts.
pub fn begin_tuple(
    alloc: Global,
    state: &mut State,
    position: Pos,
    count: usize,
    wanted: u32,
) -> Result<Vec<u32>, InferError>
    requires whole { IsStore (here state.old).store }
    requires wanted { Live (here state.old).depth (here state.old).store wanted }
    ensures begins { IfOk result (λ vs. (known : scopes.Known) (c : canon.Alternative) → Begins known position wanted
        (TupleUnion count) c vs.items (here state.old) (here state.new)) }
    ensures refuses { (b : Bad) → result ≡ Err (error.Bad b) → (known : scopes.Known) (c : canon.Alternative)
        → RefusesConstructor known position wanted (TupleUnion count) c (bad_view b) (here state.old)
        (here state.new) }
{
    let shape = tuple_shape(alloc, state, count)?;
    match same(state, position, shape.result, wanted) {
        Ok(()) => Ok(shape.parts),
        Err(error) => Err(error),
    }
}

/// The same for lists. The result: the variables of the items and of the list.
pub fn begin_list(
    alloc: Global,
    state: &mut State,
    position: Pos,
    wanted: u32,
) -> Result<Items, InferError>
    requires whole { IsStore (here state.old).store }
    requires wanted { Live (here state.old).depth (here state.old).store wanted }
    ensures begins { IfOk result (λ s. (known : scopes.Known) (c : canon.Alternative) → Begins known position wanted
        ListUnion c (list_slots c.arity s.item s.list) (here state.old) (here state.new)) }
    ensures refuses { (b : Bad) → result ≡ Err (error.Bad b) → (known : scopes.Known) (c : canon.Alternative)
        → RefusesConstructor known position wanted ListUnion c (bad_view b) (here state.old) (here state.new) }
{
    let made = list_shape(alloc, state)?;
    match same(state, position, made.list, wanted) {
        Ok(()) => Ok(made),
        Err(error) => Err(error),
    }
}

/// Matches `[]`.
pub fn match_nil(
    alloc: Global,
    state: &mut State,
    position: Pos,
    wanted: u32,
) -> Result<(), InferError>
    requires whole { IsStore (here state.old).store }
    requires wanted { Live (here state.old).depth (here state.old).store wanted }
    ensures matches { OnOk result ((known : scopes.Known) → MatchesPattern known position wanted nil_pattern []
        (here state.old) (here state.new)) }
    ensures refuses { (b : Bad) → result ≡ Err (error.Bad b) → (known : scopes.Known) → RefusesPattern known position
        wanted nil_pattern (bad_view b) (here state.old) (here state.new) }
{
    match begin_list(alloc, state, position, wanted) {
        Ok(_items) => Ok(()),
        Err(error) => Err(error),
    }
}
