//! Constructors.

ghost use Rattle.std.specs.Prelude.{◌≡◌, List, Err, IfOk};
ghost use Rattle.elm_base.specs.declared.position.Pos as plain;
ghost use Rattle.elm_canon.specs.Names as names;
ghost use Rattle.elm_canon.specs.Unions.{TupleUnion, ListUnion, Declared};
ghost use Rattle.elm_canon.specs.declared.unions.Alternative as canon;
ghost use Rattle.type_items.specs.Scopes as scopes;
ghost use Rattle.type_store.specs.Shape.{IsStore};
ghost use Rattle.type_constructs.specs.Patterns.{list_slots};
ghost use Rattle.infer_steps.specs.Ready.{AreWritten};
ghost use Rattle.infer_steps.specs.View.{here, bad_view, known_view};
ghost use Rattle.infer_steps.specs.declared.bad.Bad.{Bad};
ghost use Rattle.infer_steps.specs.declared.bad.InferError.TheVariants as error;
ghost use Rattle.infer_patterns.specs.Shapes.{IsShaped, NoShape};

use elm_base::names::Name;
use elm_base::position::Pos;
use elm_canon::unions::{Alternative, Union, UnionShape};
use elm_type::head::Head;
use infer_steps::ask::nonsense;
use infer_steps::bad::InferError;
use infer_steps::known::Known;
use infer_steps::make;
use infer_steps::state::State;
use infer_types::instances::constructor;
use std::alloc::{AllocError, Global};

/// The variables of a constructor: of what it makes, and of its fields in turn.
#[derive(Drop)]
pub struct Shape {
    pub result: u32,
    pub parts: Vec<u32>,
}

/// The variables of a list: of its items, and of the list.
#[derive(Clone, Copy)]
pub struct Items {
    pub item: u32,
    pub list: u32,
}

/// Makes variables for the tuples of `count` parts. The error is that memory or numbers ran out.
pub fn tuple_shape(alloc: Global, state: &mut State, count: usize) -> Result<Shape, AllocError>
    requires { IsStore (here state.old).store }
    ensures { IfOk result (λ s. (known : scopes.Known) (pos : plain.Pos) (c : canon.Alternative) → IsShaped known pos
        (TupleUnion count) c (here state.old) (here state.new) s.result s.parts.items) }
{
    let parts = make::open_each(alloc, state, count)?;
    let copy = Vec::from_slice(alloc, &parts)?;
    let result = make::built(state, Head::Tuple, copy)?;
    Ok(Shape { result, parts })
}

/// Makes variables for the lists of items of one type. The error is that memory or numbers ran out.
pub fn list_shape(alloc: Global, state: &mut State) -> Result<Items, AllocError>
    requires { IsStore (here state.old).store }
    ensures { IfOk result (λ s. (known : scopes.Known) (pos : plain.Pos) (c : canon.Alternative) → IsShaped known pos
        ListUnion c (here state.old) (here state.new) s.list (list_slots c.arity s.item s.list)) }
{
    let item = make::open(state)?;
    let list = make::list(alloc, state, item)?;
    Ok(Items { item, list })
}

/// The variables of the fields of a constructor of lists with so many fields.
fn list_parts(alloc: Global, arity: usize, items: Items) -> Result<Vec<u32>, AllocError>
    ensures { IfOk result (λ parts. parts.items ≡ list_slots arity items.item items.list) }
{
    let mut parts = Vec::new(alloc);
    if arity == 0 {
        return Ok(parts);
    }
    parts.push(items.item)?;
    parts.push(items.list)?;
    Ok(parts)
}

/// Makes variables for a constructor of lists.
fn list_constructor(
    alloc: Global,
    state: &mut State,
    alternative: &Alternative,
) -> Result<Shape, AllocError>
    requires { IsStore (here state.old).store }
    ensures { IfOk result (λ s. (known : scopes.Known) (pos : plain.Pos) → IsShaped known pos ListUnion
        alternative.now (here state.old) (here state.new) s.result s.parts.items) }
{
    let made = list_shape(alloc, state)?;
    let parts = list_parts(alloc, alternative.arity, made)?;
    Ok(Shape {
        result: made.list,
        parts,
    })
}

/// Makes variables for a constructor of a union that the module `home` declares.
fn declared_shape(
    alloc: Global,
    state: &mut State,
    known: &Known,
    position: Pos,
    home: &Name,
    alternative: &Alternative,
) -> Result<Shape, InferError>
    requires whole { IsStore (here state.old).store }
    requires known { AreWritten (known_view known.now) }
    ensures shaped { IfOk result (λ s. (x : names.Name) (cs : List canon.Alternative) → IsShaped (known_view known.now)
        position (Declared home.now x cs) alternative.now (here state.old) (here state.new) s.result s.parts.items) }
    ensures refused { (b : Bad) → result ≡ Err (error.Bad b) → (x : names.Name) (cs : List canon.Alternative)
        → NoShape (known_view known.now) position (Declared home.now x cs) alternative.now (here state.old)
        (here state.new) (bad_view b) }
{
    match known.get(home, &alternative.name) {
        Some(scheme) => {
            let made = constructor(alloc, state, position, scheme, alternative.arity)?;
            Ok(Shape {
                result: made.result,
                parts: made.parameters,
            })
        }
        None => Err(nonsense(alloc, state, position)),
    }
}

/// Makes variables for the constructor `alternative` of the union `union`, whose name stands at `position`, and asks
/// what it asks. The types of constructors that modules declare are in `known`. The errors: a type that it asks is bad;
/// memory or numbers ran out.
pub fn infer_shape(
    alloc: Global,
    state: &mut State,
    known: &Known,
    position: Pos,
    union: &Union,
    alternative: &Alternative,
) -> Result<Shape, InferError>
    requires whole { IsStore (here state.old).store }
    requires known { AreWritten (known_view known.now) }
    ensures shaped { IfOk result (λ s. IsShaped (known_view known.now) position union.now alternative.now
        (here state.old) (here state.new) s.result s.parts.items) }
    ensures refused { (b : Bad) → result ≡ Err (error.Bad b) → NoShape (known_view known.now) position union.now
        alternative.now (here state.old) (here state.new) (bad_view b) }
{
    match union.shape() {
        UnionShape::Tuple(count) => {
            let shape = tuple_shape(alloc, state, *count)?;
            Ok(shape)
        }
        UnionShape::List => {
            let shape = list_constructor(alloc, state, alternative)?;
            Ok(shape)
        }
        UnionShape::Declared(home, _name, _alternatives) => {
            declared_shape(alloc, state, known, position, home, alternative)
        }
    }
}
