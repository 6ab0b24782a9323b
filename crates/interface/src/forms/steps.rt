//! Types of declarations, by their steps. The calls that go down a type are as deep as the type nests in its tree, as
//! the calls that made it were.

ghost use Rattle.std.specs.Prelude.{◌≡◌, [], ◌∷◌, ◌++◌, IfOk, OnOk, map, if◌then◌else◌, refl};
ghost use Rattle.std.specs.List.{flat_map};
ghost use Rattle.elm_canon.specs.View.{annotation_view, field_type_view, function_type, types_view};
ghost use Rattle.interface.specs.Formats.{Puts};
ghost use Rattle.interface.specs.Reading.{Gives, types_read};
ghost use Rattle.interface.specs.Text.{step_format, annotation_format, annotations_format};
ghost use Rattle.interface.specs.Steps.{steps_of, part_steps, field_steps, record_step, only_one};
ghost use Rattle.interface.specs.declared.step.Step as steps;
ghost use Rattle.interface.specs.declared.step.Step.TheVariants as step;

use super::lists::{Entry, list_at, put_list};
use super::parts::{name_at, put_name, put_tag, tag_at};
use crate::error::ReadError;
use crate::input::Input;
use crate::rebuilding::types_of;
use crate::step::Step;
use elm_base::names::Name;
use elm_canon::tree::{Annotation, FieldType};
use std::alloc::{AllocError, Global};

/// Adds one more step.
fn push_step(steps: &mut Vec<Step>, step: Step) -> Result<(), AllocError>
    ensures { OnOk result (steps.new.items ≡ steps.old.items ++ step ∷ []) }
{
    steps.push(step)?;
    Ok(())
}

/// Adds the step of a function, if there is one.
fn push_arrow(steps: &mut Vec<Step>, is_there: bool) -> Result<(), AllocError>
    ensures { OnOk result (steps.new.items ≡ steps.old.items ++ (if is_there then step.Function ∷ [] else [])) }
{
    if is_there {
        push_step(steps, Step::Function)
    } else {
        Ok(())
    }
}

/// Adds the step of a variable.
fn push_variable(steps: &mut Vec<Step>, name: &Name) -> Result<(), AllocError>
    ensures { OnOk result (steps.new.items ≡ steps.old.items ++ step.Variable name.now ∷ []) }
{
    push_step(steps, Step::Variable(name.clone()?))
}

/// Adds the step of a type of a module.
fn push_named(steps: &mut Vec<Step>, owner: &Name, name: &Name) -> Result<(), AllocError>
    ensures { OnOk result (steps.new.items ≡ steps.old.items ++ step.Named owner.now name.now ∷ []) }
{
    push_step(steps, Step::Named(owner.clone()?, name.clone()?))
}

/// Adds the step of a record, which may stand over a variable.
fn push_record(steps: &mut Vec<Step>, base: &Option<Name>) -> Result<(), AllocError>
    ensures { OnOk result (steps.new.items ≡ steps.old.items ++ record_step base.now ∷ []) }
{
    match base {
        None => push_step(steps, Step::Record),
        Some(name) => push_step(steps, Step::Extended(name.clone()?)),
    }
}

/// Adds the step of a field.
fn push_field(steps: &mut Vec<Step>, name: &Name) -> Result<(), AllocError>
    ensures { OnOk result (steps.new.items ≡ steps.old.items ++ step.Field name.now ∷ []) }
{
    push_step(steps, Step::Field(name.clone()?))
}

/// Adds the steps of a type.
#[cycle(steps)]
fn push_steps(steps: &mut Vec<Step>, annotation: &Annotation) -> Result<(), AllocError>
    ensures { OnOk result (steps.new.items ≡ steps.old.items ++ steps_of (annotation_view annotation.now)) }
{
    match annotation {
        Annotation::Variable(name) => push_variable(steps, name),
        Annotation::Named(module, name, arguments) => {
            push_parts(steps, arguments)?;
            push_named(steps, module, name)
        }
        Annotation::Function(types) => push_function(steps, types),
        Annotation::Tuple(types) => {
            push_parts(steps, types)?;
            push_step(steps, Step::Tuple)
        }
        Annotation::Record(base, fields) => {
            push_fields(steps, fields)?;
            push_record(steps, base)
        }
        Annotation::Shared(shared) => push_steps(steps, shared),
    }
}

/// Adds the steps of parts.
#[cycle(steps)]
fn push_parts(steps: &mut Vec<Step>, types: &[Annotation]) -> Result<(), AllocError>
    ensures { OnOk result (steps.new.items ≡ steps.old.items ++ flat_map part_steps (map annotation_view types.now)) }
{
    for part in types {
        push_step(steps, Step::Part)?;
        push_steps(steps, part)?;
    }
    Ok(())
}

/// Adds the steps of fields.
#[cycle(steps)]
fn push_fields(steps: &mut Vec<Step>, fields: &[FieldType]) -> Result<(), AllocError>
    ensures { OnOk result (steps.new.items ≡ steps.old.items ++ flat_map field_steps (map field_type_view fields.now)) }
{
    for field in fields {
        push_field(steps, &field.name)?;
        push_steps(steps, &field.field_type)?;
    }
    Ok(())
}

/// Adds the steps of a function of the types before the last to the last.
#[cycle(steps)]
fn push_function(steps: &mut Vec<Step>, types: &[Annotation]) -> Result<(), AllocError>
    ensures { OnOk result (steps.new.items ≡ steps.old.items ++ steps_of
        (function_type (map annotation_view types.now))) }
{
    if types.is_empty() {
        return push_step(steps, Step::Tuple);
    }
    for (index, part) in types.iter().enumerate() {
        push_arrow(steps, index + 1 < types.len())?;
        push_steps(steps, part)?;
    }
    Ok(())
}

impl Entry for Step {
    ghost Plain = { steps.Step };

    ghost view = { λ step. step };

    ghost views = { λ steps. steps };

    ghost format = { step_format };

    #[tactic(auto, unfolding(crate::specs::Text::step_format, crate::specs::Text::tag_format))]
    fn put(&self, alloc: Global, out: &mut Vec<u8>) -> Result<(), AllocError> {
        match self {
            Step::Variable(name) => {
                put_tag(out, 0)?;
                put_name(alloc, out, name)
            }
            Step::Named(module, name) => {
                put_tag(out, 1)?;
                put_name(alloc, out, module)?;
                put_name(alloc, out, name)
            }
            Step::Tuple => put_tag(out, 2),
            Step::Record => put_tag(out, 3),
            Step::Extended(name) => {
                put_tag(out, 4)?;
                put_name(alloc, out, name)
            }
            Step::Part => put_tag(out, 5),
            Step::Function => put_tag(out, 6),
            Step::Field(name) => {
                put_tag(out, 7)?;
                put_name(alloc, out, name)
            }
        }
    }

    #[tactic(auto, unfolding(crate::specs::Text::step_format))]
    fn read(alloc: Global, input: &mut Input) -> Result<Step, ReadError> {
        match tag_at(input)? {
            0 => Ok(Step::Variable(name_at(alloc, input)?)),
            1 => {
                let module = name_at(alloc, input)?;
                let name = name_at(alloc, input)?;
                Ok(Step::Named(module, name))
            }
            2 => Ok(Step::Tuple),
            3 => Ok(Step::Record),
            4 => Ok(Step::Extended(name_at(alloc, input)?)),
            5 => Ok(Step::Part),
            6 => Ok(Step::Function),
            7 => Ok(Step::Field(name_at(alloc, input)?)),
            _ => Err(ReadError::Refused),
        }
    }

    ghost none = { refl };

    ghost more = { λ xs x. refl };
}

/// Adds a type of a declaration.
#[tactic(auto, unfolding(crate::specs::Text::annotation_format, crate::specs::Text::steps_format))]
pub(crate) fn put_annotation(
    alloc: Global,
    out: &mut Vec<u8>,
    annotation: &Annotation,
) -> Result<(), AllocError>
    ensures { OnOk result (Puts annotation_format out.old.items out.new.items (annotation_view annotation.now)) }
{
    let mut steps = Vec::new(alloc);
    push_steps(&mut steps, annotation)?;
    put_list(alloc, out, &steps)
}

/// The steps of types one after the other.
fn steps_of_all(alloc: Global, types: &[Annotation]) -> Result<Vec<Step>, AllocError>
    ensures { IfOk result (λ steps. steps.items ≡ flat_map steps_of (map annotation_view types.now)) }
{
    let mut steps = Vec::new(alloc);
    for annotation in types {
        push_steps(&mut steps, annotation)?;
    }
    Ok(steps)
}

/// Adds types of a declaration.
#[tactic(auto, unfolding(crate::specs::Text::annotations_format, crate::specs::Text::steps_format))]
pub(crate) fn put_annotations(
    alloc: Global,
    out: &mut Vec<u8>,
    types: &[Annotation],
) -> Result<(), AllocError>
    ensures { OnOk result (Puts annotations_format out.old.items out.new.items (types_view types.now)) }
{
    let steps = steps_of_all(alloc, types)?;
    put_list(alloc, out, &steps)
}

/// The types of steps.
#[tactic(auto, unfolding(crate::specs::Reading::types_read, crate::specs::Text::steps_format))]
fn types_at(alloc: Global, input: &mut Input) -> Result<Vec<Annotation>, ReadError>
    ensures { Gives (λ x. (map annotation_view x.items, input.new.rest.now)) result (types_read input.old.rest.now) }
{
    let steps = list_at(alloc, input)?;
    match types_of(alloc, steps)? {
        None => Err(ReadError::Refused),
        Some(types) => Ok(types),
    }
}

/// The one type, if there is one alone.
fn one_of(types: Vec<Annotation>) -> Result<Annotation, ReadError>
    ensures { Gives annotation_view result (only_one (map annotation_view types.items)) }
{
    let mut types = types;
    match types.pop() {
        None => Err(ReadError::Refused),
        Some(annotation) => {
            if types.is_empty() {
                Ok(annotation)
            } else {
                Err(ReadError::Refused)
            }
        }
    }
}

/// A type of a declaration.
#[tactic(auto, using(crate::proofs::Typed::annotation_read))]
pub(crate) fn annotation_at(alloc: Global, input: &mut Input) -> Result<Annotation, ReadError>
    ensures { Gives (λ x. (annotation_view x, input.new.rest.now)) result (annotation_format.get input.old.rest.now) }
{
    let types = types_at(alloc, input)?;
    let annotation = one_of(types)?;
    Ok(annotation)
}

/// Types of a declaration.
#[tactic(auto, using(crate::proofs::Typed::annotations_read))]
pub(crate) fn annotations_at(alloc: Global, input: &mut Input) -> Result<Vec<Annotation>, ReadError>
    ensures { Gives (λ x. (types_view x.items, input.new.rest.now)) result (annotations_format.get input.old.rest.now) }
{
    types_at(alloc, input)
}
