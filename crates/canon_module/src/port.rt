//! What a port means by its type.

ghost use Rattle.std.specs.Prelude.{◌≡◌, ◌++◌, None, flat_map, IfOk, OnOk};
ghost use Rattle.elm_tree.specs.View as tree;
ghost use Rattle.elm_tree.specs.Turns.{tokens_view};
ghost use Rattle.elm_canon.specs.Tree.{IntPayload, OutPort};
ghost use Rattle.elm_canon.specs.View.{annotation_view, known_view, payload_view, port_declaration_view};
ghost use Rattle.canon_env.specs.Naming as naming;
ghost use Rattle.canon_env.specs.Naming.{IsWorld};
ghost use Rattle.canon_env.specs.Sites.{faults_at};
ghost use Rattle.canon_env.specs.Types.{type_of, type_sites};
ghost use Rattle.canon_type.specs.Ports.{Outgoing, Incoming, NoPort, port_form, port_view};
ghost use Rattle.port_payload.specs.Payloads.{payload_of};
ghost use Rattle.canon_module.specs.Ports as spec;

use canon_env::env::World;
use canon_env::finding::{Finding, place_at, push_finding};
use canon_env::import::word_name;
use canon_type::annotation::annotation;
use canon_type::ports::{PortForm, port_form};
use elm_base::fault::Code;
use elm_base::names::Name;
use elm_base::position::Pos;
use elm_canon::tree::{Annotation, Known, Payload, PortDeclaration};
use elm_lexer::token::Token;
use elm_tree::tree::{TypeTree, Word};
use port_payload::payload::payload_of;
use std::alloc::{AllocError, Global};

/// A port.
#[derive(Drop)]
pub struct Port {
    pub declaration: PortDeclaration,
    /// What it is as a function without a body.
    pub known: Known,
}

/// What crosses a port of a type that may not cross one: `Int`, with a fault at the port's name.
#[tactic(auto, using(elm_canon::proofs::Views::int_payload))]
fn no_payload(
    alloc: Global,
    tokens: &[Token<'_>],
    name: Word,
    findings: &mut Vec<Finding>,
) -> Result<Payload, AllocError>
    ensures payload { IfOk result (λ p. payload_view p ≡ IntPayload) }
    ensures faults { OnOk result (findings.new.items ≡ findings.old.items
        ++ spec.unless_payload (tree.word_view (tokens_view tokens.now) name) None) }
{
    push_finding(alloc, tokens, Code::PortPayload, name, findings)?;
    Ok(Payload::Int)
}

/// What crosses a port of this type, and `Int` with a fault at the port's name if the type may not cross one.
fn payload_or_int(
    alloc: Global,
    tokens: &[Token<'_>],
    name: Word,
    t: &Annotation,
    findings: &mut Vec<Finding>,
) -> Result<Payload, AllocError>
    ensures payload { IfOk result (λ p. payload_view p
        ≡ spec.payload_or_int (payload_of (annotation_view t.now))) }
    ensures faults { OnOk result (findings.new.items ≡ findings.old.items
        ++ spec.unless_payload (tree.word_view (tokens_view tokens.now) name) (payload_of (annotation_view t.now))) }
{
    match payload_of(alloc, t)? {
        Some(payload) => Ok(payload),
        None => no_payload(alloc, tokens, name, findings),
    }
}

/// An outgoing port of this type.
fn outgoing(
    alloc: Global,
    tokens: &[Token<'_>],
    word: Word,
    name: Name,
    t: &Annotation,
    findings: &mut Vec<Finding>,
) -> Result<Known, AllocError>
    ensures known { IfOk result (λ k. known_view k ≡ spec.known_by name (Outgoing (annotation_view t.now))) }
    ensures faults { OnOk result (findings.new.items ≡ findings.old.items
        ++ spec.form_faults (tree.word_view (tokens_view tokens.now) word) (Outgoing (annotation_view t.now))) }
{
    let payload = payload_or_int(alloc, tokens, word, t, findings)?;
    Ok(Known::OutPort(name, payload))
}

/// An incoming port of this type.
fn incoming(
    alloc: Global,
    tokens: &[Token<'_>],
    word: Word,
    name: Name,
    t: &Annotation,
    findings: &mut Vec<Finding>,
) -> Result<Known, AllocError>
    ensures known { IfOk result (λ k. known_view k ≡ spec.known_by name (Incoming (annotation_view t.now))) }
    ensures faults { OnOk result (findings.new.items ≡ findings.old.items
        ++ spec.form_faults (tree.word_view (tokens_view tokens.now) word) (Incoming (annotation_view t.now))) }
{
    let payload = payload_or_int(alloc, tokens, word, t, findings)?;
    Ok(Known::InPort(name, payload))
}

/// What a port without a form is told as.
#[tactic(auto, using(elm_canon::proofs::Views::int_payload))]
fn port_of_int(name: Name) -> Known
    ensures { known_view result ≡ OutPort name IntPayload }
{
    Known::OutPort(name, Payload::Int)
}

/// A port whose type has none of the two forms, with the fault of that.
fn no_port(
    alloc: Global,
    tokens: &[Token<'_>],
    word: Word,
    name: Name,
    findings: &mut Vec<Finding>,
) -> Result<Known, AllocError>
    ensures known { IfOk result (λ k. known_view k ≡ OutPort name IntPayload) }
    ensures faults { OnOk result (findings.new.items ≡ findings.old.items
        ++ spec.form_faults (tree.word_view (tokens_view tokens.now) word) NoPort) }
{
    push_finding(alloc, tokens, Code::PortType, word, findings)?;
    Ok(port_of_int(name))
}

/// What a port is by the form of its type, with the fault of its form.
fn known_by(
    alloc: Global,
    tokens: &[Token<'_>],
    word: Word,
    name: Name,
    form: PortForm<'_>,
    findings: &mut Vec<Finding>,
) -> Result<Known, AllocError>
    ensures known { IfOk result (λ k. known_view k ≡ spec.known_by name (port_view form.entry)) }
    ensures faults { OnOk result (findings.new.items ≡ findings.old.items
        ++ spec.form_faults (tree.word_view (tokens_view tokens.now) word) (port_view form.entry)) }
{
    match form {
        PortForm::Outgoing(t) => outgoing(alloc, tokens, word, name, t, findings),
        PortForm::Incoming(t) => incoming(alloc, tokens, word, name, t, findings),
        PortForm::NoPort => no_port(alloc, tokens, word, name, findings),
        PortForm::Untold => Ok(port_of_int(name)),
    }
}

/// What the port with this name is by its type, with the fault of its form.
fn known_of(
    alloc: Global,
    tokens: &[Token<'_>],
    word: Word,
    name: &Name,
    t: &Annotation,
    findings: &mut Vec<Finding>,
) -> Result<Known, AllocError>
    ensures known { IfOk result (λ k. known_view k ≡ spec.known_by name.now (port_form (annotation_view t.now))) }
    ensures faults { OnOk result (findings.new.items ≡ findings.old.items
        ++ spec.form_faults (tree.word_view (tokens_view tokens.now) word) (port_form (annotation_view t.now))) }
{
    let name = name.clone()?;
    known_by(alloc, tokens, word, name, port_form(t), findings)
}

/// What a written type means, in a box. Its faults are added to `findings`.
fn boxed_type(
    alloc: Global,
    tokens: &[Token<'_>],
    world: &World,
    written: &TypeTree,
    findings: &mut Vec<Finding>,
) -> Result<Box<Annotation>, AllocError>
    ensures meaning { IfOk result (λ t. (w : naming.World) → IsWorld world.now w → annotation_view t.value
        ≡ type_of w (tree.type_view (tokens_view tokens.now) written.now)) }
    ensures faults { OnOk result ((w : naming.World) → IsWorld world.now w → findings.new.items ≡ findings.old.items
        ++ flat_map (faults_at w) (type_sites w (tree.type_view (tokens_view tokens.now) written.now))) }
{
    Ok(Box::new(alloc, annotation(alloc, tokens, world, written, findings)?)?)
}

/// A port by its parts.
fn port_with(name: Name, place: Pos, port_type: Box<Annotation>, known: Known) -> Port
    ensures name { result.declaration.name ≡ name }
    ensures place { result.declaration.place ≡ place }
    ensures port_type { result.declaration.port_type ≡ port_type.value }
    ensures known { result.known ≡ known }
{
    Port {
        declaration: PortDeclaration {
            name,
            place,
            port_type: Box::into_inner(port_type),
        },
        known,
    }
}

/// What the port `word` of the type `written` means, by the text of the tokens `tokens`. The faults of its type are added
/// to `findings`: those at the names in it, then that of its form. The error means that memory ran out.
pub fn resolve(
    alloc: Global,
    tokens: &[Token<'_>],
    world: &World,
    word: Word,
    written: &TypeTree,
    findings: &mut Vec<Finding>,
) -> Result<Port, AllocError>
    ensures declaration { IfOk result (λ p. (w : naming.World) → IsWorld world.now w →
        port_declaration_view p.declaration ≡ spec.port_of w (tree.word_view (tokens_view tokens.now) word)
        (tree.type_view (tokens_view tokens.now) written.now)) }
    ensures known { IfOk result (λ p. (w : naming.World) → IsWorld world.now w → known_view p.known
        ≡ spec.port_known w (tree.word_view (tokens_view tokens.now) word)
        (tree.type_view (tokens_view tokens.now) written.now)) }
    ensures faults { OnOk result ((w : naming.World) → IsWorld world.now w → findings.new.items
        ≡ findings.old.items ++ spec.port_faults w (tree.word_view (tokens_view tokens.now) word)
        (tree.type_view (tokens_view tokens.now) written.now)) }
{
    let port_type = boxed_type(alloc, tokens, world, written, findings)?;
    let name = word_name(alloc, tokens, word)?;
    let known = known_of(alloc, tokens, word, &name, &port_type, findings)?;
    Ok(port_with(name, place_at(tokens, word), port_type, known))
}
