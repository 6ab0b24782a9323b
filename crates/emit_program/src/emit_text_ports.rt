//! The ports of a program, with the texts of their decoders.

ghost use Rattle.std.specs.Prelude.{◌≡◌, [], ◌∷◌, ◌++◌, List, map, codes, if◌then◌else◌, IfOk, OnOk};
ghost use Rattle.std.specs.Ordering.{nat_cmp};
ghost use Rattle.std.specs.Cmp.Lexicographic.{slice_cmp};
ghost use Rattle.elm_canon.specs.Tree as plain;
ghost use Rattle.elm_canon.specs.View.{declaration_view};
ghost use Rattle.js_tree.specs.Text.{fields_text, outs_fields};
ghost use Rattle.js_emit.specs.Program.{in_decoders, out_names};
ghost use Rattle.emit_program.specs.Programs.{out_ports};
ghost use Rattle.emit_program.specs.Texts.{in_view, in_texts, fields_list, listed};

use crate::lines::decoder_text;
use elm_base::names::Name;
use elm_base::quoted::write_text;
use elm_canon::tree::{Declaration, Known};
use std::alloc::{AllocError, Global};
use std::cmp::Ordering;

/// An incoming port.
#[derive(Drop)]
pub struct InPort {
    pub name: Name,
    /// The text of the decoder of what it carries.
    pub decoder: Vec<u8>,
}

/// Adds the port that a declaration is, if it is one, to the incoming or to the outgoing ones. The error means that
/// memory ran out.
pub fn push_port(
    alloc: Global,
    declaration: &Declaration,
    ins: &mut Vec<InPort>,
    outs: &mut Vec<Name>,
) -> Result<(), AllocError>
    ensures ins { OnOk result (map in_view ins.new.items
        ≡ map in_view ins.old.items ++ in_texts (declaration_view declaration.now ∷ [])) }
    ensures outs { OnOk result (outs.new.items
        ≡ outs.old.items ++ out_ports (declaration_view declaration.now ∷ [])) }
{
    match declaration {
        Declaration::Given(_, Known::InPort(name, payload)) => {
            let decoder = decoder_text(alloc, payload)?;
            let name = name.clone()?;
            ins.push(InPort { name, decoder })?;
            Ok(())
        }
        Declaration::Given(_, Known::OutPort(name, _)) => {
            let name = name.clone()?;
            outs.push(name)?;
            Ok(())
        }
        Declaration::Given(_, Known::Maker(_) | Known::RecordMaker(_)) => Ok(()),
        Declaration::Define(_) => Ok(()),
    }
}

/// How two incoming ports stand by their names.
fn port_order(first: &InPort, second: &InPort) -> Ordering
    ensures { result ≡ slice_cmp nat_cmp (in_view first.now).0 (in_view second.now).0 }
{
    first.name.cmp(&second.name)
}

/// The incoming ports in the order of their names' units. Those of one name keep their order.
fn sorted(ins: Vec<InPort>) -> Result<Vec<InPort>, AllocError>
    ensures { IfOk result (λ ports. (ds : List plain.Declaration) → map in_view ins.items ≡ in_texts ds
        → map in_view ports.items ≡ fields_list (in_decoders ds)) }
{
    let mut ins = ins;
    ins.sort_by(|first, second| port_order(first, second))?;
    Ok(ins)
}

/// Adds the comma before a field, but for the first.
fn write_comma(text: &mut Vec<u8>, is_first: bool) -> Result<(), AllocError>
    ensures { OnOk result (text.new.items ≡ text.old.items ++ (if is_first then [] else codes ",")) }
{
    if !is_first {
        text.push(b',')?;
    }
    Ok(())
}

/// Adds the fields of the incoming ports, in the order of their names' units. The error means that memory ran out.
pub(crate) fn write_ins(text: &mut Vec<u8>, ins: Vec<InPort>) -> Result<(), AllocError>
    ensures { OnOk result ((ds : List plain.Declaration) → map in_view ins.items ≡ in_texts ds
        → text.new.items ≡ text.old.items ++ fields_text (in_decoders ds)) }
{
    let ports = sorted(ins)?;
    write_fields(text, &ports)
}

/// Adds the fields of incoming ports, in turn.
fn write_fields(text: &mut Vec<u8>, ports: &[InPort]) -> Result<(), AllocError>
    ensures { OnOk result (text.new.items ≡ text.old.items ++ listed (map in_view ports.now)) }
{
    let mut is_first = true;
    for port in ports {
        write_comma(text, is_first)?;
        write_text(text, port.name.as_slice())?;
        text.push(b':')?;
        text.extend_from_slice(&port.decoder)?;
        is_first = false;
    }
    Ok(())
}

/// Adds the fields of the outgoing ports, in the order of their names' units. The error means that memory ran out.
pub(crate) fn write_outs(text: &mut Vec<u8>, outs: Vec<Name>) -> Result<(), AllocError>
    ensures { OnOk result ((ds : List plain.Declaration) → outs.items ≡ out_ports ds
        → text.new.items ≡ text.old.items ++ fields_text (outs_fields (out_names ds))) }
{
    let mut outs = outs;
    outs.sort()?;
    write_zeros(text, &outs)
}

/// Adds a field for each name, which is 0.
fn write_zeros(text: &mut Vec<u8>, names: &[Name]) -> Result<(), AllocError>
    ensures { OnOk result (text.new.items ≡ text.old.items ++ fields_text (outs_fields names.now)) }
{
    let mut is_first = true;
    for name in names {
        write_comma(text, is_first)?;
        write_text(text, name.as_slice())?;
        text.extend_from_slice(b":0")?;
        is_first = false;
    }
    Ok(())
}
