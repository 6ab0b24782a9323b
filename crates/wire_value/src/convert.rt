//! JSON that was read, as a wire value.

ghost use Rattle.std.specs.Prelude.{◌≡◌, IfOk, map, option_map};
ghost use Rattle.serde_json.specs.View.{view, number_view, items_view, members_view};
ghost use Rattle.wire_value.specs.Wire.{no_member};
ghost use Rattle.wire_value.specs.View.{wire_view, wires_of, members_of, member_view};
ghost use Rattle.wire_value.specs.FromJson.{from_json, whole};
ghost use Rattle.wire_value.specs.Within.{wire_within, items_within, members_within, entries_view};

use crate::{Member, Wire};
use elm_base::units::{Units, text_units};
use serde_json::{Map, Number, Value};
use std::alloc::{AllocError, Global};
use std::collections::BTreeMap;

/// How deep arrays and objects may nest.
const MAX_DEPTH: u32 = 100;

/// The largest number that is exact on every side. (ECMA-262, 21.1.2.6.)
const LAST: i128 = 9007199254740991;

/// The wire value of JSON. There is none where a number inside is not whole, or is not within plus and minus
/// 9007199254740991, or where arrays and objects nest over 100 deep.
#[tactic(auto, using(crate::proofs::Depths::from_json_within))]
pub fn from_json(alloc: Global, value: &Value) -> Result<Option<Wire>, AllocError>
    ensures { IfOk result (λ found. option_map wire_view found ≡ from_json (view value.now)) }
{
    convert(alloc, value, MAX_DEPTH)
}

/// A number that is whole, and exact on every side.
fn whole_number(number: &Number) -> Option<i64>
    ensures { result ≡ whole (number_view number.now) }
{
    let n = number.as_i128()?;
    if n < -LAST || LAST < n {
        return None;
    }
    Some(n as i64)
}

/// A value, in which arrays and objects may nest `room` deep.
#[cycle(convert)]
fn convert(alloc: Global, value: &Value, room: u32) -> Result<Option<Wire>, AllocError>
    ensures { IfOk result (λ found. option_map wire_view found ≡ wire_within room (view value.now)) }
{
    match value {
        Value::Null => Ok(Some(Wire::Null)),
        Value::Bool(b) => Ok(Some(Wire::Bool(*b))),
        Value::Number(number) => match whole_number(number) {
            Some(n) => Ok(Some(Wire::Int(n))),
            None => Ok(None),
        },
        Value::String(text) => Ok(Some(Wire::Text(text_units(alloc, text.as_str())?))),
        Value::Array(items) => {
            if room == 0 {
                return Ok(None);
            }
            match convert_items(alloc, items, room - 1)? {
                Some(wires) => Ok(Some(Wire::List(wires))),
                None => Ok(None),
            }
        }
        Value::Object(members) => {
            if room == 0 {
                return Ok(None);
            }
            match convert_members(alloc, members, room - 1)? {
                Some(found) => Ok(Some(Wire::Object(in_order(alloc, found)?))),
                None => Ok(None),
            }
        }
    }
}

/// The items of an array.
#[cycle(convert)]
fn convert_items(alloc: Global, items: &[Value], room: u32) -> Result<Option<Vec<Wire>>, AllocError>
    ensures { IfOk result (λ found. option_map (λ ws. wires_of (map wire_view ws.items)) found
        ≡ items_within room (items_view items.now)) }
{
    let mut wires = Vec::with_capacity(alloc, items.len())?;
    for item in items {
        match convert(alloc, item, room)? {
            Some(wire) => wires.push(wire)?,
            None => return Ok(None),
        }
    }
    Ok(Some(wires))
}

/// The members of an object, by their names' units.
#[cycle(convert)]
fn convert_members(
    alloc: Global,
    members: &Map<String, Value>,
    room: u32,
) -> Result<Option<BTreeMap<Units, Wire>>, AllocError>
    ensures { IfOk result (λ found. option_map (λ m. entries_view m.entries) found
        ≡ members_within room (members_view members.now.entries) no_member) }
{
    let mut found = BTreeMap::new(alloc);
    for (key, member) in members.iter() {
        let name = text_units(alloc, key.as_str())?;
        match convert(alloc, member, room)? {
            Some(wire) => drop(found.insert(name, wire)?),
            None => return Ok(None),
        }
    }
    Ok(Some(found))
}

/// The members in the order of their names' units.
fn in_order(alloc: Global, found: BTreeMap<Units, Wire>) -> Result<Vec<Member>, AllocError>
    ensures { IfOk result (λ members. members_of (map member_view members.items) ≡ entries_view found.entries) }
{
    let mut members = Vec::with_capacity(alloc, found.len())?;
    for (name, value) in found {
        members.push(Member { name, value })?;
    }
    Ok(members)
}
