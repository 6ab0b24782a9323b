//! The decoder and the encoder of a type that crosses a port.
//!
//! Both go as deep as the type nests, which is at most 100.

ghost use Rattle.std.specs.Prelude.{◌≡◌, ◌∷◌, map, option_map, OnOk};
ghost use Rattle.elm_canon.specs.Tree.{TuplePayload, RecordPayload, payloads_of, payload_fields_of};
ghost use Rattle.elm_canon.specs.View.{payload_view, payload_field_view};
ghost use Rattle.js_tree.specs.Tree.{JHelper, JText, NoJs};
ghost use Rattle.js_tree.specs.Postorder.{Expression, ItemsOf, Item, trees_of, items, helper_view};
ghost use Rattle.js_tree.specs.Postorder.{below, top};
ghost use Rattle.js_emit.specs.Names.{one};
ghost use Rattle.js_emit.specs.Codecs.{decoder, encoder, flags_decoder};
ghost use Rattle.js_emit.specs.Flags.{flags_view};

use crate::names::units_of;
use elm_canon::tree::{Payload, PayloadField};
use js_tree::tree::{Helper, Node};
use js_tree::trees::Trees;
use std::alloc::{AllocError, Global};

/// Adds what a function of the fixed text gives that takes nothing.
fn push_helper(trees: &mut Trees, helper: Helper) -> Result<(), AllocError>
    ensures { OnOk result (trees_of trees.new ≡ Expression (JHelper (helper_view helper) NoJs) ∷ trees_of trees.old) }
{
    trees.push(Node::NoItem)?;
    trees.push(Node::Helper(helper))
}

/// Adds the decoder of a type. The error means that memory ran out.
#[cycle(decoders)]
#[tactic(auto, using(elm_canon::proofs::Views::int_payload, elm_canon::proofs::Views::bool_payload, elm_canon::proofs::Views::text_payload, elm_canon::proofs::Views::maybe_payload, elm_canon::proofs::Views::list_payload, elm_canon::proofs::Views::tuple_payload, elm_canon::proofs::Views::record_payload))]
pub fn push_decoder(alloc: Global, trees: &mut Trees, payload: &Payload) -> Result<(), AllocError>
    ensures { OnOk result (trees_of trees.new ≡ Expression (decoder (payload_view payload.now)) ∷ trees_of trees.old) }
{
    match payload {
        Payload::Int => push_helper(trees, Helper::DecodeInt),
        Payload::Bool => push_helper(trees, Helper::DecodeBool),
        Payload::Text => push_helper(trees, Helper::DecodeText),
        Payload::Maybe(part) => push_decoder_around(alloc, trees, Helper::DecodeMaybe, part),
        Payload::List(part) => push_decoder_around(alloc, trees, Helper::DecodeList, part),
        Payload::Tuple(parts) => push_tuple_decoder(alloc, trees, parts),
        Payload::Record(fields) => push_record_decoder(alloc, trees, fields),
    }
}

/// Adds the decoder that a function of the fixed text makes of the decoder of a part.
#[cycle(decoders)]
fn push_decoder_around(
    alloc: Global,
    trees: &mut Trees,
    helper: Helper,
    part: &Payload,
) -> Result<(), AllocError>
    ensures { OnOk result (trees_of trees.new
        ≡ Expression (JHelper (helper_view helper) (one (decoder (payload_view part.now)))) ∷ trees_of trees.old) }
{
    trees.push(Node::NoItem)?;
    push_decoder(alloc, trees, part)?;
    trees.push(Node::Item)?;
    trees.push(Node::Helper(helper))
}

/// Adds the decoder of a tuple.
#[cycle(decoders)]
fn push_tuple_decoder(alloc: Global, trees: &mut Trees, parts: &[Payload]) -> Result<(), AllocError>
    ensures { OnOk result (trees_of trees.new
        ≡ Expression (decoder (TuplePayload (payloads_of (map payload_view parts.now)))) ∷ trees_of trees.old) }
{
    if parts.len() == 0 {
        return push_helper(trees, Helper::DecodeNull);
    }
    trees.push(Node::NoItem)?;
    for part in parts {
        push_decoder(alloc, trees, part)?;
        trees.push(Node::Item)?;
    }
    trees.push(Node::Helper(Helper::DecodeTuple))
}

/// Adds the decoder of a record.
#[cycle(decoders)]
fn push_record_decoder(
    alloc: Global,
    trees: &mut Trees,
    fields: &[PayloadField],
) -> Result<(), AllocError>
    ensures { OnOk result (trees_of trees.new
        ≡ Expression (decoder (RecordPayload (payload_fields_of (map payload_field_view fields.now))))
        ∷ trees_of trees.old) }
{
    trees.push(Node::NoItem)?;
    for field in fields {
        push_field_decoder(alloc, trees, field)?;
    }
    trees.push(Node::Helper(Helper::DecodeRecord))
}

/// Adds the name of a field and its decoder, after the items before them.
#[cycle(decoders)]
#[tactic(auto, using(elm_canon::proofs::Views::payload_field))]
fn push_field_decoder(
    alloc: Global,
    trees: &mut Trees,
    field: &PayloadField,
) -> Result<(), AllocError>
    ensures { OnOk result (trees_of trees.new
        ≡ ItemsOf (Item (Item (items (top (trees_of trees.old))) (JText (payload_field_view field.now).0))
        (decoder (payload_field_view field.now).1)) ∷ below (trees_of trees.old)) }
{
    trees.push(Node::Text(units_of(alloc, &field.name)?))?;
    trees.push(Node::Item)?;
    push_decoder(alloc, trees, &field.value)?;
    trees.push(Node::Item)
}

/// Adds the decoder of the flags, by their type. There is none where the flags are of type `()`. The error means that
/// memory ran out.
pub fn push_flags_decoder(
    alloc: Global,
    trees: &mut Trees,
    flags: Option<&Payload>,
) -> Result<(), AllocError>
    ensures { OnOk result (trees_of trees.new
        ≡ Expression (flags_decoder (flags_view (option_map (λ t. t.now) flags.entry))) ∷ trees_of trees.old) }
{
    match flags {
        None => push_helper(trees, Helper::DecodeAny),
        Some(payload) => push_decoder(alloc, trees, payload),
    }
}

/// Adds the encoder of a type. The error means that memory ran out.
#[cycle(encoders)]
#[tactic(auto, using(elm_canon::proofs::Views::int_payload, elm_canon::proofs::Views::bool_payload, elm_canon::proofs::Views::text_payload, elm_canon::proofs::Views::maybe_payload, elm_canon::proofs::Views::list_payload, elm_canon::proofs::Views::tuple_payload, elm_canon::proofs::Views::record_payload))]
pub fn push_encoder(alloc: Global, trees: &mut Trees, payload: &Payload) -> Result<(), AllocError>
    ensures { OnOk result (trees_of trees.new ≡ Expression (encoder (payload_view payload.now)) ∷ trees_of trees.old) }
{
    match payload {
        Payload::Int => push_helper(trees, Helper::EncodeSame),
        Payload::Bool => push_helper(trees, Helper::EncodeSame),
        Payload::Text => push_helper(trees, Helper::EncodeSame),
        Payload::Maybe(part) => push_encoder_around(alloc, trees, Helper::EncodeMaybe, part),
        Payload::List(part) => push_encoder_around(alloc, trees, Helper::EncodeList, part),
        Payload::Tuple(parts) => push_tuple_encoder(alloc, trees, parts),
        Payload::Record(fields) => push_record_encoder(alloc, trees, fields),
    }
}

/// Adds the encoder that a function of the fixed text makes of the encoder of a part.
#[cycle(encoders)]
fn push_encoder_around(
    alloc: Global,
    trees: &mut Trees,
    helper: Helper,
    part: &Payload,
) -> Result<(), AllocError>
    ensures { OnOk result (trees_of trees.new
        ≡ Expression (JHelper (helper_view helper) (one (encoder (payload_view part.now)))) ∷ trees_of trees.old) }
{
    trees.push(Node::NoItem)?;
    push_encoder(alloc, trees, part)?;
    trees.push(Node::Item)?;
    trees.push(Node::Helper(helper))
}

/// Adds the encoder of a tuple.
#[cycle(encoders)]
fn push_tuple_encoder(alloc: Global, trees: &mut Trees, parts: &[Payload]) -> Result<(), AllocError>
    ensures { OnOk result (trees_of trees.new
        ≡ Expression (encoder (TuplePayload (payloads_of (map payload_view parts.now)))) ∷ trees_of trees.old) }
{
    if parts.len() == 0 {
        return push_helper(trees, Helper::EncodeNull);
    }
    trees.push(Node::NoItem)?;
    for part in parts {
        push_encoder(alloc, trees, part)?;
        trees.push(Node::Item)?;
    }
    trees.push(Node::Helper(Helper::EncodeTuple))
}

/// Adds the encoder of a record.
#[cycle(encoders)]
fn push_record_encoder(
    alloc: Global,
    trees: &mut Trees,
    fields: &[PayloadField],
) -> Result<(), AllocError>
    ensures { OnOk result (trees_of trees.new
        ≡ Expression (encoder (RecordPayload (payload_fields_of (map payload_field_view fields.now))))
        ∷ trees_of trees.old) }
{
    trees.push(Node::NoItem)?;
    for field in fields {
        push_field_encoder(alloc, trees, field)?;
    }
    trees.push(Node::Helper(Helper::EncodeRecord))
}

/// Adds the name of a field and its encoder, after the items before them.
#[cycle(encoders)]
#[tactic(auto, using(elm_canon::proofs::Views::payload_field))]
fn push_field_encoder(
    alloc: Global,
    trees: &mut Trees,
    field: &PayloadField,
) -> Result<(), AllocError>
    ensures { OnOk result (trees_of trees.new
        ≡ ItemsOf (Item (Item (items (top (trees_of trees.old))) (JText (payload_field_view field.now).0))
        (encoder (payload_field_view field.now).1)) ∷ below (trees_of trees.old)) }
{
    trees.push(Node::Text(units_of(alloc, &field.name)?))?;
    trees.push(Node::Item)?;
    push_encoder(alloc, trees, &field.value)?;
    trees.push(Node::Item)
}
