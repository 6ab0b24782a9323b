//! The variables of an annotation in order of appearance, each once, and their numbers.

ghost use Rattle.std.specs.Prelude.{◌≡◌, [], ◌^◌, ◌≤◌, length, IfOk, OnOk, if◌then◌else◌, ◌++◌, ◌∷◌};
ghost use Rattle.type_schemes.specs.Names.{IsTable};
ghost use Rattle.elm_canon.specs.View.{annotation_view};
ghost use Rattle.elm_type.specs.Ground.{contains};
ghost use Rattle.type_items.specs.Annotations.{number_of, once, variables_of};

use crate::names::push_names;
use elm_base::names::Name;
use elm_canon::tree::Annotation;
use std::alloc::{AllocError, Global};
use std::collections::HashMap;

/// Names, each once, and the number of each: how many stand before it.
#[derive(Drop)]
pub struct Order {
    pub names: Vec<Name>,
    pub numbers: HashMap<Name, u32>,
}

/// Adds a name, unless it is there. The error means that memory or numbers ran out.
fn note(order: &mut Order, name: &Name) -> Result<(), AllocError>
    requires { IsTable order.old.numbers order.old.names.items }
    ensures table { OnOk result (IsTable order.new.numbers order.new.names.items) }
    ensures names { OnOk result (order.new.names.items ≡ (if contains name.now order.old.names.items
        then order.old.names.items else order.old.names.items ++ name.now ∷ [])) }
{
    if order.numbers.contains_key(name) {
        return Ok(());
    }
    let Ok(number) = u32::try_from(order.names.len()) else {
        return Err(AllocError);
    };
    order.numbers.insert(name.clone()?, number)?;
    order.names.push(name.clone()?)?;
    Ok(())
}

/// The names, each once, in order of appearance.
fn ordered(alloc: Global, names: &[Name]) -> Result<Order, AllocError>
    ensures table { IfOk result (λ order. IsTable order.numbers order.names.items) }
    ensures names { IfOk result (λ order. order.names.items ≡ once names.now []) }
{
    let mut order = Order {
        names: Vec::new(alloc),
        numbers: HashMap::new(alloc),
    };
    for name in names {
        note(&mut order, name)?;
    }
    Ok(order)
}

/// The variables of an annotation. The error means that memory or numbers ran out.
pub fn order_of(alloc: Global, t: &Annotation) -> Result<Order, AllocError>
    ensures table { IfOk result (λ order. IsTable order.numbers order.names.items) }
    ensures names { IfOk result (λ order. order.names.items ≡ variables_of (annotation_view t.now)) }
{
    let mut names = Vec::new(alloc);
    push_names(&mut names, t)?;
    ordered(alloc, &names)
}
