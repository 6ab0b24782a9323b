//! Types of declarations, of their steps. A stack holds the types that were read; no call goes down a type.

ghost use Rattle.std.specs.Prelude.{◌≡◌, ◌≤◌, ◌∷◌, length, map, reverse, option_map};
ghost use Rattle.std.specs.Prelude.{IfOk, Some, None, true, if◌then◌else◌};
ghost use Rattle.elm_canon.specs.Tree as plain;
ghost use Rattle.elm_canon.specs.View.{annotation_view, field_type_view, function_type};
ghost use Rattle.interface.specs.Steps.{stepped, built, joined, with_part, with_field};
ghost use Rattle.interface.specs.Opened.{opened_view, stack_view, First};
ghost use Rattle.interface.specs.declared.step.Step.TheVariants as step;

use crate::opened::{OpenFunction, Opened};
use crate::step::Step;
use elm_base::names::Name;
use elm_canon::tree::{Annotation, FieldType};
use std::alloc::{AllocError, Global};

/// The same types from the last to the first.
fn reversed(types: Vec<Annotation>) -> Vec<Annotation>
    ensures { result.items ≡ reverse types.items }
{
    let mut types = types;
    types.reverse();
    types
}

/// The same fields from the last to the first.
fn reversed_fields(fields: Vec<FieldType>) -> Vec<FieldType>
    ensures { result.items ≡ reverse fields.items }
{
    let mut fields = fields;
    fields.reverse();
    fields
}

/// Adds one more type, and answers that it did.
fn push_type(types: &mut Vec<Annotation>, part: Annotation) -> Result<bool, AllocError>
    ensures { IfOk result (λ taken. (taken ≡ true) × (reverse (map annotation_view types.new.items)
        ≡ annotation_view part ∷ reverse (map annotation_view types.old.items))) }
{
    types.push(part)?;
    Ok(true)
}

/// Adds one more field, and answers that it did.
fn push_field_type(
    fields: &mut Vec<FieldType>,
    name: Name,
    field_type: Annotation,
) -> Result<bool, AllocError>
    ensures { IfOk result (λ taken. (taken ≡ true) × (reverse (map field_type_view fields.new.items)
        ≡ (name, annotation_view field_type) ∷ reverse (map field_type_view fields.old.items))) }
{
    fields.push(FieldType { name, field_type })?;
    Ok(true)
}

/// The type, to which nothing more is added.
fn close(opened: Opened) -> Annotation
    ensures { annotation_view result ≡ opened_view opened }
{
    match opened {
        Opened::Variable(name) => Annotation::Variable(name),
        Opened::Named(module, name, types) => Annotation::Named(module, name, reversed(types)),
        Opened::Function(function) => Annotation::Function(reversed(function.types)),
        Opened::Tuple(types) => Annotation::Tuple(reversed(types)),
        Opened::Record(base, fields) => Annotation::Record(base, reversed_fields(fields)),
    }
}

/// Puts a type in front of those that were read.
fn put(stack: &mut Vec<Opened>, opened: Opened) -> Result<bool, AllocError>
    ensures { IfOk result (λ taken. Some (opened_view opened ∷ stack_view stack.old.items)
        ≡ (if taken then Some (stack_view stack.new.items) else None)) }
{
    stack.push(opened)?;
    Ok(true)
}

/// Takes the first of the types that were read, if there is one.
fn take_first(stack: &mut Vec<Opened>) -> Option<Annotation>
    ensures { First (stack_view stack.old.items) result (stack_view stack.new.items) }
{
    match stack.pop() {
        None => None,
        Some(opened) => Some(close(opened)),
    }
}

/// Adds one more to the parts.
fn push_part(opened: &mut Opened, part: Annotation) -> Result<bool, AllocError>
    ensures { IfOk result (λ taken. with_part (annotation_view part) (opened_view opened.old)
        ≡ (if taken then Some (opened_view opened.new) else None)) }
{
    match opened {
        Opened::Named(_, _, types) => push_type(types, part),
        Opened::Tuple(types) => push_type(types, part),
        Opened::Variable(_) => Ok(false),
        Opened::Function(_) => Ok(false),
        Opened::Record(_, _) => Ok(false),
    }
}

/// Adds the first type to the parts of the second.
fn add_part(stack: &mut Vec<Opened>) -> Result<bool, AllocError>
    ensures { IfOk result (λ taken. joined with_part (stack_view stack.old.items)
        ≡ (if taken then Some (stack_view stack.new.items) else None)) }
{
    match take_first(stack) {
        None => Ok(false),
        Some(part) => match stack.last_mut() {
            None => Ok(false),
            Some(opened) => push_part(opened, part),
        },
    }
}

/// Adds one more to the fields.
fn push_field(opened: &mut Opened, name: Name, field_type: Annotation) -> Result<bool, AllocError>
    ensures { IfOk result (λ taken. with_field name (annotation_view field_type) (opened_view opened.old)
        ≡ (if taken then Some (opened_view opened.new) else None)) }
{
    match opened {
        Opened::Record(_, fields) => push_field_type(fields, name, field_type),
        Opened::Variable(_) => Ok(false),
        Opened::Named(_, _, _) => Ok(false),
        Opened::Function(_) => Ok(false),
        Opened::Tuple(_) => Ok(false),
    }
}

/// Adds the first type to the fields of the second.
fn add_field(stack: &mut Vec<Opened>, name: Name) -> Result<bool, AllocError>
    ensures { IfOk result (λ taken. joined (with_field name) (stack_view stack.old.items)
        ≡ (if taken then Some (stack_view stack.new.items) else None)) }
{
    match take_first(stack) {
        None => Ok(false),
        Some(field_type) => match stack.last_mut() {
            None => Ok(false),
            Some(opened) => push_field(opened, name, field_type),
        },
    }
}
/// The types of a function from the last to the first. A type that is no function is alone.
fn types_of_function(alloc: Global, opened: Opened) -> Result<Vec<Annotation>, AllocError>
    ensures some { IfOk result (λ types. 1 ≤ length types.items) }
    ensures types { IfOk result (λ types. function_type (reverse (map annotation_view types.items))
        ≡ opened_view opened) }
{
    match opened {
        Opened::Function(function) => Ok(function.types),
        other => {
            let mut types = Vec::new(alloc);
            types.push(close(other))?;
            Ok(types)
        }
    }
}

/// The function of the first type to the second.
fn function_to(alloc: Global, parameter: Annotation, opened: Opened) -> Result<Opened, AllocError>
    ensures { IfOk result (λ function. opened_view function
        ≡ plain.FunctionType (annotation_view parameter) (opened_view opened)) }
{
    let mut types = types_of_function(alloc, opened)?;
    push_type(&mut types, parameter)?;
    Ok(Opened::Function(OpenFunction { types }))
}

/// Puts the function of the first type to the second in their place.
fn add_function(alloc: Global, stack: &mut Vec<Opened>) -> Result<bool, AllocError>
    ensures { IfOk result (λ taken. stepped step.Function (stack_view stack.old.items)
        ≡ (if taken then Some (stack_view stack.new.items) else None)) }
{
    match take_first(stack) {
        None => Ok(false),
        Some(parameter) => match stack.pop() {
            None => Ok(false),
            Some(opened) => put(stack, function_to(alloc, parameter, opened)?),
        },
    }
}

/// Takes a step in front of the types that were read. Answers whether there is such a step.
fn add_step(alloc: Global, stack: &mut Vec<Opened>, taken: Step) -> Result<bool, AllocError>
    ensures { IfOk result (λ done. stepped taken (stack_view stack.old.items)
        ≡ (if done then Some (stack_view stack.new.items) else None)) }
{
    match taken {
        Step::Variable(name) => put(stack, Opened::Variable(name)),
        Step::Named(module, name) => put(stack, Opened::Named(module, name, Vec::new(alloc))),
        Step::Tuple => put(stack, Opened::Tuple(Vec::new(alloc))),
        Step::Record => put(stack, Opened::Record(None, Vec::new(alloc))),
        Step::Extended(name) => put(stack, Opened::Record(Some(name), Vec::new(alloc))),
        Step::Part => add_part(stack),
        Step::Function => add_function(alloc, stack),
        Step::Field(name) => add_field(stack, name),
    }
}

/// The types of the steps, each as it stands, if the steps are those of types.
fn opened_of(alloc: Global, steps: Vec<Step>) -> Result<Option<Vec<Opened>>, AllocError>
    ensures { IfOk result (λ found. built steps.items ≡ option_map (λ stack. stack_view stack.items) found) }
{
    let mut steps = steps;
    let mut stack = Vec::new(alloc);
    while let Some(step) = steps.pop() {
        if !add_step(alloc, &mut stack, step)? {
            return Ok(None);
        }
    }
    Ok(Some(stack))
}

/// The types of a stack, the first of them first.
fn closed(alloc: Global, stack: Vec<Opened>) -> Result<Vec<Annotation>, AllocError>
    ensures { IfOk result (λ types. map annotation_view types.items ≡ stack_view stack.items) }
{
    let mut stack = stack;
    let mut types = Vec::new(alloc);
    while let Some(opened) = stack.pop() {
        types.push(close(opened))?;
    }
    Ok(types)
}

/// The types of the steps, if the steps are those of types.
pub(crate) fn types_of(
    alloc: Global,
    steps: Vec<Step>,
) -> Result<Option<Vec<Annotation>>, AllocError>
    ensures { IfOk result (λ found. built steps.items ≡ option_map (λ types. map annotation_view types.items) found) }
{
    match opened_of(alloc, steps)? {
        None => Ok(None),
        Some(stack) => Ok(Some(closed(alloc, stack)?)),
    }
}
