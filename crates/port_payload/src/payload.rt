//! What crosses a port, by its type.

ghost use Rattle.std.specs.Prelude.{◌≡◌, codes, map, option_map, IfOk};
ghost use Rattle.elm_canon.specs.Tree.{NamedType, TupleType, RecordType, annotations_of, field_types_of, payloads_of, payload_fields_of};
ghost use Rattle.elm_canon.specs.View.{annotation_view, field_type_view, function_type, payload_view};
ghost use Rattle.elm_canon.specs.View.{payload_field_view};
ghost use Rattle.canon_type.specs.Ports.{is_type};
ghost use Rattle.port_payload.specs.Payloads as spec;

use elm_base::names::Name;
use elm_canon::tree::{Annotation, FieldType, Payload, PayloadField};
use std::alloc::{AllocError, Global};

/// `Basics`
const BASICS: [u16; 6] = [66, 97, 115, 105, 99, 115];

/// `Int`
const INT: [u16; 3] = [73, 110, 116];

/// `Bool`
const BOOL: [u16; 4] = [66, 111, 111, 108];

/// `String`
const STRING: [u16; 6] = [83, 116, 114, 105, 110, 103];

/// `Maybe`
const MAYBE: [u16; 5] = [77, 97, 121, 98, 101];

/// `List`
const LIST: [u16; 4] = [76, 105, 115, 116];

/// How many types that cross a port may stand inside each other.
const LEVELS: u8 = 100;

/// Whether the type `name` of the module `home` is `Int`.
fn is_int(home: &Name, name: &Name) -> bool
    ensures { result ≡ is_type (codes "Basics") (codes "Int") home.now name.now }
{
    home.as_slice() == BASICS.as_slice() && name.as_slice() == INT.as_slice()
}

/// Whether the type `name` of the module `home` is `Bool`.
fn is_bool(home: &Name, name: &Name) -> bool
    ensures { result ≡ is_type (codes "Basics") (codes "Bool") home.now name.now }
{
    home.as_slice() == BASICS.as_slice() && name.as_slice() == BOOL.as_slice()
}

/// Whether the type `name` of the module `home` is `String`.
fn is_string(home: &Name, name: &Name) -> bool
    ensures { result ≡ is_type (codes "String") (codes "String") home.now name.now }
{
    home.as_slice() == STRING.as_slice() && name.as_slice() == STRING.as_slice()
}

/// Whether the type `name` of the module `home` is `Maybe`.
fn is_maybe(home: &Name, name: &Name) -> bool
    ensures { result ≡ is_type (codes "Maybe") (codes "Maybe") home.now name.now }
{
    home.as_slice() == MAYBE.as_slice() && name.as_slice() == MAYBE.as_slice()
}

/// Whether the type `name` of the module `home` is `List`.
fn is_list(home: &Name, name: &Name) -> bool
    ensures { result ≡ is_type (codes "List") (codes "List") home.now name.now }
{
    home.as_slice() == LIST.as_slice() && name.as_slice() == LIST.as_slice()
}

/// What a type without arguments is to a port.
fn plain_payload(home: &Name, name: &Name) -> Option<Payload>
    ensures { option_map payload_view result ≡ spec.plain_payload home.now name.now }
{
    if is_int(home, name) {
        Some(Payload::Int)
    } else if is_bool(home, name) {
        Some(Payload::Bool)
    } else if is_string(home, name) {
        Some(Payload::Text)
    } else {
        None
    }
}

/// What a type of one argument is to a port.
fn payload_around(
    alloc: Global,
    home: &Name,
    name: &Name,
    argument: Option<Payload>,
) -> Result<Option<Payload>, AllocError>
    ensures { IfOk result (λ p. option_map payload_view p
        ≡ spec.payload_around home.now name.now (option_map payload_view argument)) }
{
    match argument {
        None => Ok(None),
        Some(argument) => {
            if is_maybe(home, name) {
                Ok(Some(Payload::Maybe(Box::new(alloc, argument)?)))
            } else if is_list(home, name) {
                Ok(Some(Payload::List(Box::new(alloc, argument)?)))
            } else {
                Ok(None)
            }
        }
    }
}

/// What a variable is to a port: only one that stands for what has no meaning is told.
fn variable_payload(name: &Name) -> Option<Payload>
    ensures { option_map payload_view result ≡ spec.variable_payload name.now }
{
    if name.as_slice().len() == 0 {
        Some(Payload::Int)
    } else {
        None
    }
}

/// What a type is to a port, with so many levels left.
#[cycle(payloads)]
#[tactic(auto, using(elm_canon::proofs::Views::variable_type, elm_canon::proofs::Views::named_type, elm_canon::proofs::Views::type_of_function, elm_canon::proofs::Views::tuple_type, elm_canon::proofs::Views::type_of_record, elm_canon::proofs::Views::shared_type))]
fn payload_within(alloc: Global, levels: u8, t: &Annotation) -> Result<Option<Payload>, AllocError>
    ensures { IfOk result (λ p. option_map payload_view p ≡ spec.payload_within levels (annotation_view t.now)) }
{
    match t {
        Annotation::Variable(a) => Ok(variable_payload(a)),
        Annotation::Named(home, name, arguments) => named_within(
            alloc, levels, home, name, arguments,
        ),
        Annotation::Function(types) => function_within(alloc, levels, types),
        Annotation::Tuple(parts) => tuple_within(alloc, levels, parts),
        Annotation::Record(base, fields) => match base {
            None => record_within(alloc, levels, fields),
            Some(_) => Ok(None),
        },
        Annotation::Shared(t) => payload_within(alloc, levels, t),
    }
}

/// The same of a function, which of one type is the type itself.
#[cycle(payloads)]
fn function_within(
    alloc: Global,
    levels: u8,
    types: &[Annotation],
) -> Result<Option<Payload>, AllocError>
    ensures { IfOk result (λ p. option_map payload_view p
        ≡ spec.payload_within levels (function_type (map annotation_view types.now))) }
{
    match types {
        [] => Ok(Some(Payload::Tuple(Vec::new(alloc)))),
        [only] => payload_within(alloc, levels, only),
        _ => Ok(None),
    }
}

/// The same of the type `name` of the module `home`.
#[cycle(payloads)]
fn named_within(
    alloc: Global,
    levels: u8,
    home: &Name,
    name: &Name,
    arguments: &[Annotation],
) -> Result<Option<Payload>, AllocError>
    ensures { IfOk result (λ p. option_map payload_view p ≡ spec.payload_within levels
        (NamedType home.now name.now (annotations_of (map annotation_view arguments.now)))) }
{
    match arguments {
        [] => Ok(plain_payload(home, name)),
        [only] => {
            if levels == 0 {
                return Ok(None);
            }
            let argument = payload_within(alloc, levels - 1, only)?;
            payload_around(alloc, home, name, argument)
        }
        _ => Ok(None),
    }
}

/// The same of a tuple.
#[cycle(payloads)]
fn tuple_within(
    alloc: Global,
    levels: u8,
    parts: &[Annotation],
) -> Result<Option<Payload>, AllocError>
    ensures { IfOk result (λ p. option_map payload_view p ≡ spec.payload_within levels
        (TupleType (annotations_of (map annotation_view parts.now)))) }
{
    if parts.len() == 0 {
        return Ok(Some(Payload::Tuple(Vec::new(alloc))));
    }
    if levels == 0 {
        return Ok(None);
    }
    match payloads_within(alloc, levels - 1, parts)? {
        Some(payloads) => Ok(Some(Payload::Tuple(payloads))),
        None => Ok(None),
    }
}

/// The same of a closed record.
#[cycle(payloads)]
fn record_within(
    alloc: Global,
    levels: u8,
    fields: &[FieldType],
) -> Result<Option<Payload>, AllocError>
    ensures { IfOk result (λ p. option_map payload_view p ≡ spec.payload_within levels
        (RecordType (field_types_of (map field_type_view fields.now)))) }
{
    if levels == 0 {
        return Ok(None);
    }
    match fields_within(alloc, levels - 1, fields)? {
        Some(payloads) => Ok(Some(Payload::Record(payloads))),
        None => Ok(None),
    }
}

/// What each of the types is to a port, if all cross it.
#[cycle(payloads)]
fn payloads_within(
    alloc: Global,
    levels: u8,
    types: &[Annotation],
) -> Result<Option<Vec<Payload>>, AllocError>
    ensures { IfOk result (λ o. option_map (λ v. payloads_of (map payload_view v.items)) o
        ≡ spec.payloads_within levels (annotations_of (map annotation_view types.now))) }
{
    let mut payloads = Vec::with_capacity(alloc, types.len())?;
    for t in types {
        match payload_within(alloc, levels, t)? {
            Some(payload) => payloads.push(payload)?,
            None => return Ok(None),
        }
    }
    Ok(Some(payloads))
}

/// What each of the fields is to a port, if all cross it.
#[cycle(payloads)]
fn fields_within(
    alloc: Global,
    levels: u8,
    fields: &[FieldType],
) -> Result<Option<Vec<PayloadField>>, AllocError>
    ensures { IfOk result (λ o. option_map (λ v. payload_fields_of (map payload_field_view v.items)) o
        ≡ spec.fields_within levels (field_types_of (map field_type_view fields.now))) }
{
    let mut payloads = Vec::with_capacity(alloc, fields.len())?;
    for field in fields {
        match payload_within(alloc, levels, &field.field_type)? {
            Some(value) => payloads.push(PayloadField {
                name: field.name.clone()?,
                value,
            })?,
            None => return Ok(None),
        }
    }
    Ok(Some(payloads))
}

/// What a type is to a port, and none if it may not cross one. Its aliases are expanded. The error means that memory
/// ran out.
pub fn payload_of(alloc: Global, t: &Annotation) -> Result<Option<Payload>, AllocError>
    ensures { IfOk result (λ p. option_map payload_view p ≡ spec.payload_of (annotation_view t.now)) }
{
    payload_within(alloc, LEVELS, t)
}
