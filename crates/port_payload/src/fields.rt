//! The fields of records among flags.
//!
//! They go as deep as what crosses a port nests, which is at most 100.

ghost use Rattle.std.specs.Prelude.{◌≡◌, ◌&&◌, ℕ, List, None, map, option_map, IfOk};
ghost use Rattle.elm_canon.specs.Tree.{payloads_of, payload_fields_of};
ghost use Rattle.elm_canon.specs.View.{payload_view, payload_field_view};
ghost use Rattle.elm_canon.specs.Spelled as spelled;
ghost use Rattle.elm_type.specs.Types.{ElmType, Leaf};
ghost use Rattle.elm_type.specs.declared.node.Node as plain;
ghost use Rattle.port_payload.specs.EntryTypePayloads as spec;
ghost use Rattle.port_payload.specs.EntryTypePayloads.{flags_payload};
ghost use Rattle.port_payload.specs.Fronts.{Front};

use crate::node_payload::payload_at;
use crate::words::is_word;
use elm_base::names::Name;
use elm_canon::tree::{Payload, PayloadField};
use elm_type::node::Node;
use std::alloc::{AllocError, Global};

/// Whether the fields of its records are words in ascending order.
#[cycle(fields)]
#[tactic(auto, using(elm_canon::proofs::Views::int_payload, elm_canon::proofs::Views::bool_payload, elm_canon::proofs::Views::text_payload, elm_canon::proofs::Views::maybe_payload, elm_canon::proofs::Views::list_payload, elm_canon::proofs::Views::tuple_payload, elm_canon::proofs::Views::record_payload))]
fn has_fields(payload: &Payload) -> bool
    ensures { result ≡ spec.has_fields (payload_view payload.now) }
{
    match payload {
        Payload::Int => true,
        Payload::Bool => true,
        Payload::Text => true,
        Payload::Maybe(part) => has_fields(part),
        Payload::List(part) => has_fields(part),
        Payload::Tuple(parts) => all_have_fields(parts),
        Payload::Record(fields) => are_fields(fields),
    }
}

/// Whether they are, of all of these.
#[cycle(fields)]
fn all_have_fields(parts: &[Payload]) -> bool
    ensures { result ≡ spec.all_have_fields (payloads_of (map payload_view parts.now)) }
{
    for part in parts {
        if !has_fields(part) {
            return false;
        }
    }
    true
}

/// Whether the name of a field is a word and comes after another name, if there is one.
fn is_next(before: Option<&Name>, name: &Name) -> bool
    ensures { result ≡ (spelled.is_word name.now && spec.is_after (option_map (λ n. n.now) before.entry) name.now) }
{
    match before {
        Some(before) => is_word(name) && *before < *name,
        None => is_word(name),
    }
}

/// Whether the names of these fields are words in ascending order, and so in the records in them.
#[cycle(fields)]
fn are_fields(fields: &[PayloadField]) -> bool
    ensures { result ≡ spec.are_fields None (payload_fields_of (map payload_field_view fields.now)) }
{
    let mut before = None;
    for field in fields {
        if !is_next(before, &field.name) {
            return false;
        }
        if !has_fields(&field.value) {
            return false;
        }
        before = Some(&field.name);
    }
    true
}

/// What the flags of the type whose nodes begin at the place `start` are, and none if there can be none.
pub(crate) fn flags_at(
    alloc: Global,
    nodes: &[Node],
    start: usize,
) -> Result<Option<Payload>, AllocError>
    ensures { IfOk result (λ p. (t : ElmType (Leaf ℕ)) (rest : List plain.Node) → Front nodes.now start t rest
        → option_map payload_view p ≡ flags_payload t) }
{
    match payload_at(alloc, nodes, start)? {
        Some(payload) => {
            if has_fields(&payload) {
                Ok(Some(payload))
            } else {
                Ok(None)
            }
        }
        None => Ok(None),
    }
}
