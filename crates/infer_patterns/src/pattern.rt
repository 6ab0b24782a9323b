//! Patterns. All goes as deep as the pattern nests; a list is a loop.

ghost use Rattle.std.specs.Prelude.{◌≡◌, Err, IfOk, OnOk, map};
ghost use Rattle.std.specs.List.{AllByRecursion};
ghost use Rattle.elm_canon.specs.Tree as tree;
ghost use Rattle.elm_canon.specs.View.{pattern_view, patterns_view, items_before};
ghost use Rattle.type_store.specs.Shape.{IsStore};
ghost use Rattle.type_walks.specs.Links.{Live};
ghost use Rattle.infer_steps.specs.Ready.{AreWritten};
ghost use Rattle.infer_steps.specs.View.{here, bad_view, known_view};
ghost use Rattle.infer_steps.specs.declared.bad.Bad.{Bad};
ghost use Rattle.infer_steps.specs.declared.bad.InferError.TheVariants as error;
ghost use Rattle.infer_patterns.specs.Matches.{MatchesPattern, RefusesPattern, MatchesEach, RefusesEach, AddsNames};
ghost use Rattle.infer_patterns.specs.Matches.{Leads};
ghost use Rattle.infer_patterns.specs.Once.{FieldsOnce, EachFieldsOnce};
ghost use Rattle.infer_patterns.specs.View.{bound_view, in_scope};

use crate::bound::{Bound, bind};
use crate::parts::{
    begin_constructor, begin_list, begin_tuple, match_fields, match_literal, match_nil,
};
use elm_base::position::Pos;
use elm_canon::tree::Pattern;
use infer_steps::ask::nonsense;
use infer_steps::bad::InferError;
use infer_steps::known::Known;
use infer_steps::state::State;
use std::alloc::Global;

/// Matches the pattern, and adds the names that it binds.
#[cycle(patterns)]
fn match_pattern(
    alloc: Global,
    state: &mut State,
    known: &Known,
    position: Pos,
    pattern: &Pattern,
    wanted: u32,
    bound: &mut Vec<Bound>,
) -> Result<(), InferError>
    requires whole { IsStore (here state.old).store }
    requires known { AreWritten (known_view known.now) }
    requires wanted { Live (here state.old).depth (here state.old).store wanted }
    requires once { FieldsOnce (pattern_view pattern.now) }
    ensures matches { OnOk result (AddsNames (λ own. MatchesPattern (known_view known.now) position wanted
        (pattern_view pattern.now) own (here state.old) (here state.new)) (in_scope bound.old.items)
        (in_scope bound.new.items)) }
    ensures refuses { (b : Bad) → result ≡ Err (error.Bad b) → RefusesPattern (known_view known.now) position wanted
        (pattern_view pattern.now) (bad_view b) (here state.old) (here state.new) }
{
    match pattern {
        Pattern::Anything => Ok(()),
        Pattern::Named(name) => {
            bind(name, wanted, bound)?;
            Ok(())
        }
        Pattern::As(inner, name) => {
            match match_pattern(alloc, state, known, position, inner, wanted, bound) {
                Ok(()) => {}
                Err(error) => return Err(error),
            }
            bind(name, wanted, bound)?;
            Ok(())
        }
        Pattern::Exactly(literal) => match_literal(alloc, state, position, literal, wanted),
        Pattern::Construct(union, alternative, parts) => {
            match begin_constructor(alloc, state, known, position, union, alternative, wanted) {
                Ok(fields) => match_each(alloc, state, known, position, parts, &fields, bound),
                Err(error) => Err(error),
            }
        }
        Pattern::Tuple(parts) => match begin_tuple(alloc, state, position, parts.len(), wanted) {
            Ok(fields) => match_each(alloc, state, known, position, parts, &fields, bound),
            Err(error) => Err(error),
        },
        Pattern::List(items) => {
            match match_items(alloc, state, known, position, items, wanted, bound) {
                Ok(list) => match_nil(alloc, state, position, list),
                Err(error) => Err(error),
            }
        }
        Pattern::Items(items, rest) => {
            match match_items(alloc, state, known, position, items, wanted, bound) {
                Ok(list) => match_pattern(alloc, state, known, position, rest, list, bound),
                Err(error) => Err(error),
            }
        }
        Pattern::Fields(names) => match_fields(alloc, state, position, names, wanted, bound),
        Pattern::Located(place, inner) => {
            match_pattern(alloc, state, known, *place, inner, wanted, bound)
        }
    }
}

/// Matches the patterns in turn, each for the variable in its place.
#[cycle(patterns)]
fn match_each(
    alloc: Global,
    state: &mut State,
    known: &Known,
    position: Pos,
    patterns: &[Pattern],
    wanted: &[u32],
    bound: &mut Vec<Bound>,
) -> Result<(), InferError>
    requires whole { IsStore (here state.old).store }
    requires known { AreWritten (known_view known.now) }
    requires wanted { AllByRecursion (Live (here state.old).depth (here state.old).store) wanted.now }
    requires once { EachFieldsOnce (patterns_view patterns.now) }
    ensures matches { OnOk result (AddsNames (λ own. MatchesEach (known_view known.now) position wanted.now
        (map pattern_view patterns.now) own (here state.old) (here state.new)) (in_scope bound.old.items)
        (in_scope bound.new.items)) }
    ensures refuses { (b : Bad) → result ≡ Err (error.Bad b) → RefusesEach (known_view known.now) position wanted.now
        (map pattern_view patterns.now) (bad_view b) (here state.old) (here state.new) }
{
    let count = patterns.len();
    for i in 0..count {
        if i >= wanted.len() {
            return Err(nonsense(alloc, state, position));
        }
        match match_pattern(
            alloc,
            state,
            known,
            position,
            &patterns[i],
            wanted[i],
            bound,
        ) {
            Ok(()) => {}
            Err(error) => return Err(error),
        }
    }
    if count < wanted.len() {
        return Err(nonsense(alloc, state, position));
    }
    Ok(())
}

/// Matches the items of a list in turn. The result is the variable for the list of what comes after them.
#[cycle(patterns)]
fn match_items(
    alloc: Global,
    state: &mut State,
    known: &Known,
    position: Pos,
    items: &[Pattern],
    wanted: u32,
    bound: &mut Vec<Bound>,
) -> Result<u32, InferError>
    requires whole { IsStore (here state.old).store }
    requires known { AreWritten (known_view known.now) }
    requires wanted { Live (here state.old).depth (here state.old).store wanted }
    requires once { AllByRecursion FieldsOnce (map pattern_view items.now) }
    ensures leads { IfOk result (λ w. AddsNames (λ own. Leads (known_view known.now) position wanted w
        (map pattern_view items.now) own (here state.old) (here state.new)) (in_scope bound.old.items)
        (in_scope bound.new.items)) }
    ensures refuses { (b : Bad) → result ≡ Err (error.Bad b) → (rest : tree.Pattern) → RefusesPattern
        (known_view known.now) position wanted (items_before rest (map pattern_view items.now)) (bad_view b)
        (here state.old) (here state.new) }
{
    let mut list = wanted;
    for item in items {
        match begin_list(alloc, state, position, list) {
            Ok(made) => {
                match match_pattern(alloc, state, known, position, item, made.item, bound) {
                    Ok(()) => {}
                    Err(error) => return Err(error),
                }
                list = made.list;
            }
            Err(error) => return Err(error),
        }
    }
    Ok(list)
}

/// Infers the pattern `pattern`, which begins at `position` or where it says, for values of the type of the variable
/// `wanted`. The types of constructors that modules declare are in `known`. The result has the names that the pattern
/// binds, with their variables; the one that is bound last is the first. The errors: an item of the pattern is bad;
/// memory or numbers ran out.
pub fn infer_pattern(
    alloc: Global,
    state: &mut State,
    known: &Known,
    position: Pos,
    pattern: &Pattern,
    wanted: u32,
) -> Result<Vec<Bound>, InferError>
    requires whole { IsStore (here state.old).store }
    requires known { AreWritten (known_view known.now) }
    requires wanted { Live (here state.old).depth (here state.old).store wanted }
    requires once { FieldsOnce (pattern_view pattern.now) }
    ensures matches { IfOk result (λ bound. MatchesPattern (known_view known.now) position wanted
        (pattern_view pattern.now) (map bound_view bound.items) (here state.old) (here state.new)) }
    ensures refuses { (b : Bad) → result ≡ Err (error.Bad b) → RefusesPattern (known_view known.now) position wanted
        (pattern_view pattern.now) (bad_view b) (here state.old) (here state.new) }
{
    let mut bound = Vec::new(alloc);
    match match_pattern(alloc, state, known, position, pattern, wanted, &mut bound) {
        Ok(()) => {}
        Err(error) => return Err(error),
    }
    bound.reverse();
    Ok(bound)
}

/// Infers the patterns `patterns` in turn, which begin at `position` or where they say, each for values of the type of
/// the variable in its place of `wanted`. The types of constructors that modules declare are in `known`. The result has
/// the names that the patterns bind, with their variables; the one that is bound last is the first. The errors: an item
/// of a pattern is bad, or there are more or fewer variables than patterns; memory or numbers ran out.
pub fn infer_patterns(
    alloc: Global,
    state: &mut State,
    known: &Known,
    position: Pos,
    patterns: &[Pattern],
    wanted: &[u32],
) -> Result<Vec<Bound>, InferError>
    requires whole { IsStore (here state.old).store }
    requires known { AreWritten (known_view known.now) }
    requires wanted { AllByRecursion (Live (here state.old).depth (here state.old).store) wanted.now }
    requires once { EachFieldsOnce (patterns_view patterns.now) }
    ensures matches { IfOk result (λ bound. MatchesEach (known_view known.now) position wanted.now
        (map pattern_view patterns.now) (map bound_view bound.items) (here state.old) (here state.new)) }
    ensures refuses { (b : Bad) → result ≡ Err (error.Bad b) → RefusesEach (known_view known.now) position wanted.now
        (map pattern_view patterns.now) (bad_view b) (here state.old) (here state.new) }
{
    let mut bound = Vec::new(alloc);
    match match_each(alloc, state, known, position, patterns, wanted, &mut bound) {
        Ok(()) => {}
        Err(error) => return Err(error),
    }
    bound.reverse();
    Ok(bound)
}
