//! What crosses a port, by the nodes of its type.

ghost use Rattle.std.specs.Prelude.{◌≡◌, ◌∷◌, ℕ, List, Some, codes, drop, map, option_map, IfOk, IfSome};
ghost use Rattle.canon_type.specs.Ports.{is_type};
ghost use Rattle.elm_canon.specs.View.{payload_view, payload_field_view};
ghost use Rattle.elm_canon.specs.Tree.{NamedType, TupleType, RecordType, payloads_of, payload_fields_of};
ghost use Rattle.elm_type.specs.Types.{ElmType, ElmTypes, Fields, Leaf, Made};
ghost use Rattle.elm_type.specs.declared.node.Node as plain;
ghost use Rattle.port_payload.specs.Payloads as spec;
ghost use Rattle.port_payload.specs.EntryTypePayloads.{annotation_of, annotations_of, field_types_of, type_payload};
ghost use Rattle.port_payload.specs.Fronts.{Front, FrontOfAll, FrontOfFields};

use crate::payload::payload_of;
use elm_base::names::Name;
use elm_canon::tree::{Annotation, Payload, PayloadField};
use elm_type::head::Head;
use elm_type::node::Node;
use std::alloc::{AllocError, Global};

/// `Maybe`
const MAYBE: [u16; 5] = [77, 97, 121, 98, 101];

/// `List`
const LIST: [u16; 4] = [76, 105, 115, 116];

/// How many types that cross a port may stand inside each other.
const LEVELS: u8 = 100;

/// Whether the type `name` of the module `home` is `Maybe`.
fn is_maybe(home: &Name, name: &Name) -> bool
    ensures { result ≡ is_type (codes "Maybe") (codes "Maybe") home.now name.now }
{
    home.as_slice() == MAYBE.as_slice() && name.as_slice() == MAYBE.as_slice()
}

/// Whether the type `name` of the module `home` is `List`.
fn is_list(home: &Name, name: &Name) -> bool
    ensures { result ≡ is_type (codes "List") (codes "List") home.now name.now }
{
    home.as_slice() == LIST.as_slice() && name.as_slice() == LIST.as_slice()
}

/// What a type without arguments is to a port.
fn plain_payload(alloc: Global, home: &Name, name: &Name) -> Result<Option<Payload>, AllocError>
    ensures { IfOk result (λ p. option_map payload_view p ≡ spec.plain_payload home.now name.now) }
{
    let written = Annotation::Named(home.clone()?, name.clone()?, Vec::new(alloc));
    payload_of(alloc, &written)
}

/// What a type of one argument is to a port.
fn payload_around(
    alloc: Global,
    home: &Name,
    name: &Name,
    argument: Payload,
) -> Result<Option<Payload>, AllocError>
    ensures { IfOk result (λ p. option_map payload_view p
        ≡ spec.payload_around home.now name.now (Some (payload_view argument))) }
{
    if is_maybe(home, name) {
        Ok(Some(Payload::Maybe(Box::new(alloc, argument)?)))
    } else if is_list(home, name) {
        Ok(Some(Payload::List(Box::new(alloc, argument)?)))
    } else {
        Ok(None)
    }
}

/// What the type whose nodes begin at the place `at` is to a port, with so many levels left. If it may cross one, `at`
/// is then the place after the type.
#[cycle(payloads)]
fn payload_within(
    alloc: Global,
    levels: u8,
    nodes: &[Node],
    at: &mut usize,
) -> Result<Option<Payload>, AllocError>
    ensures payload { IfOk result (λ p. (t : ElmType (Leaf ℕ)) (rest : List plain.Node) → Front nodes.now at.old t rest
        → option_map payload_view p ≡ spec.payload_within levels (annotation_of t)) }
    ensures end { IfOk result (λ p. IfSome p (λ _. (t : ElmType (Leaf ℕ)) (rest : List plain.Node)
        → Front nodes.now at.old t rest → drop at.new nodes.now ≡ rest)) }
{
    let place = *at;
    if place >= nodes.len() {
        return Ok(None);
    }
    *at = place + 1;
    match &nodes[place] {
        Node::Made(head, count) => {
            let payload = made_within(alloc, levels, head, *count, nodes, at)?;
            Ok(payload)
        }
        Node::Record(count) => {
            let payload = record_within(alloc, levels, *count, nodes, at)?;
            Ok(payload)
        }
        Node::Open(_, _) => Ok(None),
        Node::Field(_) => Ok(None),
    }
}

/// The same of a type of that head, of whose parts the nodes begin at the place `at`.
#[cycle(payloads)]
fn made_within(
    alloc: Global,
    levels: u8,
    head: &Head,
    count: usize,
    nodes: &[Node],
    at: &mut usize,
) -> Result<Option<Payload>, AllocError>
    ensures payload { IfOk result (λ p. (ts : ElmTypes (Leaf ℕ)) (rest : List plain.Node)
        → FrontOfAll nodes.now at.old count ts rest
        → option_map payload_view p ≡ spec.payload_within levels (annotation_of (Made head.now ts))) }
    ensures end { IfOk result (λ p. IfSome p (λ _. (ts : ElmTypes (Leaf ℕ)) (rest : List plain.Node)
        → FrontOfAll nodes.now at.old count ts rest → drop at.new nodes.now ≡ rest)) }
{
    match head {
        Head::Named(home, name) => {
            let payload = named_within(alloc, levels, home, name, count, nodes, at)?;
            Ok(payload)
        }
        Head::Tuple => {
            let payload = tuple_within(alloc, levels, count, nodes, at)?;
            Ok(payload)
        }
        Head::Function => Ok(None),
    }
}

/// The same of the type `name` of the module `home`.
#[cycle(payloads)]
fn named_within(
    alloc: Global,
    levels: u8,
    home: &Name,
    name: &Name,
    count: usize,
    nodes: &[Node],
    at: &mut usize,
) -> Result<Option<Payload>, AllocError>
    ensures payload { IfOk result (λ p. (ts : ElmTypes (Leaf ℕ)) (rest : List plain.Node)
        → FrontOfAll nodes.now at.old count ts rest
        → option_map payload_view p ≡ spec.payload_within levels (NamedType home.now name.now (annotations_of ts))) }
    ensures end { IfOk result (λ p. IfSome p (λ _. (ts : ElmTypes (Leaf ℕ)) (rest : List plain.Node)
        → FrontOfAll nodes.now at.old count ts rest → drop at.new nodes.now ≡ rest)) }
{
    if count == 0 {
        let plain = plain_payload(alloc, home, name)?;
        return Ok(plain);
    }
    if count > 1 {
        return Ok(None);
    }
    if levels == 0 {
        return Ok(None);
    }
    match payload_within(alloc, levels - 1, nodes, at)? {
        Some(argument) => {
            let around = payload_around(alloc, home, name, argument)?;
            Ok(around)
        }
        None => Ok(None),
    }
}

/// The same of a tuple.
#[cycle(payloads)]
fn tuple_within(
    alloc: Global,
    levels: u8,
    count: usize,
    nodes: &[Node],
    at: &mut usize,
) -> Result<Option<Payload>, AllocError>
    ensures payload { IfOk result (λ p. (ts : ElmTypes (Leaf ℕ)) (rest : List plain.Node)
        → FrontOfAll nodes.now at.old count ts rest
        → option_map payload_view p ≡ spec.payload_within levels (TupleType (annotations_of ts))) }
    ensures end { IfOk result (λ p. IfSome p (λ _. (ts : ElmTypes (Leaf ℕ)) (rest : List plain.Node)
        → FrontOfAll nodes.now at.old count ts rest → drop at.new nodes.now ≡ rest)) }
{
    if count == 0 {
        return Ok(Some(Payload::Tuple(Vec::new(alloc))));
    }
    if levels == 0 {
        return Ok(None);
    }
    match payloads_within(alloc, levels - 1, count, nodes, at)? {
        Some(payloads) => Ok(Some(Payload::Tuple(payloads))),
        None => Ok(None),
    }
}

/// The same of a closed record, of whose fields the nodes begin at the place `at`.
#[cycle(payloads)]
fn record_within(
    alloc: Global,
    levels: u8,
    count: usize,
    nodes: &[Node],
    at: &mut usize,
) -> Result<Option<Payload>, AllocError>
    ensures payload { IfOk result (λ p. (fs : Fields (Leaf ℕ)) (rest : List plain.Node)
        → FrontOfFields nodes.now at.old count fs rest
        → option_map payload_view p ≡ spec.payload_within levels (RecordType (field_types_of fs))) }
    ensures end { IfOk result (λ p. IfSome p (λ _. (fs : Fields (Leaf ℕ)) (rest : List plain.Node)
        → FrontOfFields nodes.now at.old count fs rest → drop at.new nodes.now ≡ rest)) }
{
    if levels == 0 {
        return Ok(None);
    }
    match fields_within(alloc, levels - 1, count, nodes, at)? {
        Some(payloads) => Ok(Some(Payload::Record(payloads))),
        None => Ok(None),
    }
}

/// What each of so many types is to a port, if all cross it.
#[cycle(payloads)]
fn payloads_within(
    alloc: Global,
    levels: u8,
    count: usize,
    nodes: &[Node],
    at: &mut usize,
) -> Result<Option<Vec<Payload>>, AllocError>
    ensures payloads { IfOk result (λ o. (ts : ElmTypes (Leaf ℕ)) (rest : List plain.Node)
        → FrontOfAll nodes.now at.old count ts rest
        → option_map (λ v. payloads_of (map payload_view v.items)) o
        ≡ spec.payloads_within levels (annotations_of ts)) }
    ensures end { IfOk result (λ o. IfSome o (λ _. (ts : ElmTypes (Leaf ℕ)) (rest : List plain.Node)
        → FrontOfAll nodes.now at.old count ts rest → drop at.new nodes.now ≡ rest)) }
{
    let mut payloads = Vec::new(alloc);
    'parts: while payloads.len() < count {
        match payload_within(alloc, levels, nodes, at)? {
            Some(payload) => payloads.push(payload)?,
            None => return Ok(None),
        }
    }
    Ok(Some(payloads))
}

/// The name of the field whose node stands at the place `at`, which is then the place after it.
fn field_name(nodes: &[Node], at: &mut usize) -> Result<Option<Name>, AllocError>
    ensures { IfOk result (λ name. (k : List ℕ) (ns : List plain.Node) → drop at.old nodes.now ≡ plain.Node.Field k ∷ ns
        → (name ≡ Some k) × (drop at.new nodes.now ≡ ns)) }
{
    let place = *at;
    if place >= nodes.len() {
        return Ok(None);
    }
    *at = place + 1;
    match &nodes[place] {
        Node::Field(name) => Ok(Some(name.clone()?)),
        Node::Made(_, _) => Ok(None),
        Node::Record(_) => Ok(None),
        Node::Open(_, _) => Ok(None),
    }
}

/// What each of so many fields is to a port, if all cross it.
#[cycle(payloads)]
fn fields_within(
    alloc: Global,
    levels: u8,
    count: usize,
    nodes: &[Node],
    at: &mut usize,
) -> Result<Option<Vec<PayloadField>>, AllocError>
    ensures payloads { IfOk result (λ o. (fs : Fields (Leaf ℕ)) (rest : List plain.Node)
        → FrontOfFields nodes.now at.old count fs rest
        → option_map (λ v. payload_fields_of (map payload_field_view v.items)) o
        ≡ spec.fields_within levels (field_types_of fs)) }
    ensures end { IfOk result (λ o. IfSome o (λ _. (fs : Fields (Leaf ℕ)) (rest : List plain.Node)
        → FrontOfFields nodes.now at.old count fs rest → drop at.new nodes.now ≡ rest)) }
{
    let mut payloads = Vec::new(alloc);
    'fields: while payloads.len() < count {
        let Some(name) = field_name(nodes, at)? else {
            return Ok(None);
        };
        match payload_within(alloc, levels, nodes, at)? {
            Some(value) => payloads.push(PayloadField { name, value })?,
            None => return Ok(None),
        }
    }
    Ok(Some(payloads))
}

/// What the type whose nodes begin at the place `start` is to a port, and none if it may not cross one.
pub(crate) fn payload_at(
    alloc: Global,
    nodes: &[Node],
    start: usize,
) -> Result<Option<Payload>, AllocError>
    ensures { IfOk result (λ p. (t : ElmType (Leaf ℕ)) (rest : List plain.Node) → Front nodes.now start t rest
        → option_map payload_view p ≡ type_payload t) }
{
    let mut at = start;
    payload_within(alloc, LEVELS, nodes, &mut at)
}
