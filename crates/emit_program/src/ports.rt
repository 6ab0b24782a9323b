//! The ports of a program, in the order of their names' units.

ghost use Rattle.std.specs.Prelude.{◌≡◌, ◌∷◌, map, option_map, IfOk, OnOk};
ghost use Rattle.std.specs.Ordering.{nat_cmp};
ghost use Rattle.std.specs.Cmp.Lexicographic.{slice_cmp};
ghost use Rattle.elm_canon.specs.View.{declaration_view};
ghost use Rattle.js_tree.specs.Tree.{NoField};
ghost use Rattle.js_tree.specs.Postorder.{MembersOf, trees_of, top, members, members_then};
ghost use Rattle.js_emit.specs.Program.{in_decoders, out_names};
ghost use Rattle.emit_program.specs.Programs.{in_port, in_ports, out_port, out_ports, port_view, decoders_of};

use elm_base::names::Name;
use elm_base::units::Units;
use elm_canon::tree::{Declaration, Known, Payload};
use js_emit::codecs::push_decoder;
use js_emit::names::units_of;
use js_tree::tree::Node;
use js_tree::trees::Trees;
use std::alloc::{AllocError, Global};
use std::cmp::Ordering;

/// An incoming port.
#[derive(Drop)]
pub(crate) struct InPort<'a> {
    name: &'a Name,
    /// What it carries.
    payload: &'a Payload,
}

/// How two incoming ports stand by their names.
fn port_order(first: &InPort<'_>, second: &InPort<'_>) -> Ordering
    ensures { result ≡ slice_cmp nat_cmp (port_view first.now).0 (port_view second.now).0 }
{
    first.name.cmp(second.name)
}

/// The incoming port that a declaration is.
fn in_port(declaration: &Declaration) -> Option<InPort<'_>>
    ensures { option_map port_view result ≡ in_port (declaration_view declaration.now) }
{
    match declaration {
        Declaration::Given(_, Known::InPort(name, payload)) => Some(InPort { name, payload }),
        Declaration::Given(_, Known::OutPort(_, _)) => None,
        Declaration::Given(_, Known::Maker(_) | Known::RecordMaker(_)) => None,
        Declaration::Define(_) => None,
    }
}

/// The incoming ports in turn.
fn in_ports<'a>(
    alloc: Global,
    declarations: &'a [Declaration],
) -> Result<Vec<InPort<'a>>, AllocError>
    ensures { IfOk result (λ ports. map port_view ports.items ≡ in_ports (map declaration_view declarations.now)) }
{
    let mut ports = Vec::new(alloc);
    for declaration in declarations {
        if let Some(port) = in_port(declaration) {
            ports.push(port)?;
        }
    }
    Ok(ports)
}

/// The incoming ports in the order of their names' units. Those of one name keep their order.
fn sorted_ports<'a>(
    alloc: Global,
    declarations: &'a [Declaration],
) -> Result<Vec<InPort<'a>>, AllocError>
    ensures { IfOk result (λ ports. decoders_of (map port_view ports.items)
        ≡ in_decoders (map declaration_view declarations.now)) }
{
    let mut ports = in_ports(alloc, declarations)?;
    ports.sort_by(|first, second| port_order(first, second))?;
    Ok(ports)
}

/// Adds the fields of the incoming ports, each with its decoder.
pub(crate) fn push_ins(
    alloc: Global,
    trees: &mut Trees,
    declarations: &[Declaration],
) -> Result<(), AllocError>
    ensures kind { OnOk result (trees_of trees.new
        ≡ MembersOf (members (top (trees_of trees.new))) ∷ trees_of trees.old) }
    ensures fields { OnOk result (members_then (members (top (trees_of trees.new))) NoField
        ≡ in_decoders (map declaration_view declarations.now)) }
{
    let ports = sorted_ports(alloc, declarations)?;
    trees.push(Node::NoField)?;
    for port in &ports {
        push_decoder(alloc, trees, port.payload)?;
        trees.push(Node::Field(units_of(alloc, port.name)?))?;
    }
    Ok(())
}

/// The name of the outgoing port that a declaration is.
fn out_port(declaration: &Declaration) -> Option<&Name>
    ensures { option_map (λ name. name.now) result ≡ out_port (declaration_view declaration.now) }
{
    match declaration {
        Declaration::Given(_, Known::OutPort(name, _)) => Some(name),
        Declaration::Given(_, Known::InPort(_, _)) => None,
        Declaration::Given(_, Known::Maker(_) | Known::RecordMaker(_)) => None,
        Declaration::Define(_) => None,
    }
}

/// The names of the outgoing ports in turn.
fn out_ports(alloc: Global, declarations: &[Declaration]) -> Result<Vec<Units>, AllocError>
    ensures { IfOk result (λ names. names.items ≡ out_ports (map declaration_view declarations.now)) }
{
    let mut names = Vec::new(alloc);
    for declaration in declarations {
        if let Some(name) = out_port(declaration) {
            names.push(units_of(alloc, name)?)?;
        }
    }
    Ok(names)
}

/// The names of the outgoing ports in the order of their units.
pub(crate) fn out_names(
    alloc: Global,
    declarations: &[Declaration],
) -> Result<Vec<Units>, AllocError>
    ensures { IfOk result (λ names. names.items ≡ out_names (map declaration_view declarations.now)) }
{
    let mut names = out_ports(alloc, declarations)?;
    names.sort()?;
    Ok(names)
}
