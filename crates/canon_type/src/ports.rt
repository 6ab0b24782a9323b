//! What crosses a port, by the port's type.

ghost use Rattle.std.specs.Prelude.{◌≡◌, ◌<◌, codes, length, map};
ghost use Rattle.elm_canon.specs.View.{annotation_view, types_view, function_type};
ghost use Rattle.canon_type.specs.Ports.{form_to, incoming_form, incoming_to, is_the_variable, is_type, is_variable};
ghost use Rattle.canon_type.specs.Ports.{named_to, port_form, port_to, port_view, same_variable, unless_blank};

use crate::shape::{Shape, shape_of};
use elm_base::names::Name;
use elm_canon::tree::Annotation;

/// How a port is used, by its type.
#[derive(Clone, Copy)]
pub enum PortForm<'a> {
    /// `T -> Cmd msg`: values of the type go out.
    Outgoing(&'a Annotation),
    /// `(T -> msg) -> Sub msg`: values of the type come in.
    Incoming(&'a Annotation),
    /// The type is of neither form.
    NoPort,
    /// A name in the type has no meaning, which is a fault of its own.
    Untold,
}

/// `Platform.Cmd`
const PLATFORM_CMD: [u16; 12] = [80, 108, 97, 116, 102, 111, 114, 109, 46, 67, 109, 100];

/// `Cmd`
const CMD: [u16; 3] = [67, 109, 100];

/// `Platform.Sub`
const PLATFORM_SUB: [u16; 12] = [80, 108, 97, 116, 102, 111, 114, 109, 46, 83, 117, 98];

/// `Sub`
const SUB: [u16; 3] = [83, 117, 98];

/// Whether the type is `Cmd`, by its module and name.
fn is_cmd(home: &Name, name: &Name) -> bool
    ensures { result ≡ is_type (codes "Platform.Cmd") (codes "Cmd") home.now name.now }
{
    home.as_slice() == PLATFORM_CMD.as_slice() && name.as_slice() == CMD.as_slice()
}

/// Whether the type is `Sub`, by its module and name.
fn is_sub(home: &Name, name: &Name) -> bool
    ensures { result ≡ is_type (codes "Platform.Sub") (codes "Sub") home.now name.now }
{
    home.as_slice() == PLATFORM_SUB.as_slice() && name.as_slice() == SUB.as_slice()
}

/// What the variable tells of a port: nothing where it stands for what has no meaning.
fn unless_blank<'a>(a: &Name) -> PortForm<'a>
    ensures { port_view result ≡ unless_blank a.now }
{
    if a.as_slice().is_empty() {
        PortForm::Untold
    } else {
        PortForm::NoPort
    }
}

/// Whether the type is a variable.
fn is_variable(t: &Annotation) -> bool
    ensures { result ≡ is_variable (annotation_view t.now) }
{
    match shape_of(t) {
        Shape::Variable(_) => true,
        Shape::Named(_, _, _) => false,
        Shape::Function(_, _) => false,
        Shape::Tuple(_) => false,
        Shape::Record(_) => false,
        Shape::Extended(_, _) => false,
    }
}

/// Whether the type is this variable.
fn is_the_variable(t: &Annotation, a: &Name) -> bool
    ensures { result ≡ is_the_variable (annotation_view t.now) a.now }
{
    match shape_of(t) {
        Shape::Variable(b) => *b == *a,
        Shape::Named(_, _, _) => false,
        Shape::Function(_, _) => false,
        Shape::Tuple(_) => false,
        Shape::Record(_) => false,
        Shape::Extended(_, _) => false,
    }
}

/// Whether the types are one variable.
fn same_variable(first: &Annotation, second: &Annotation) -> bool
    ensures { result ≡ same_variable (annotation_view first.now) (annotation_view second.now) }
{
    match shape_of(second) {
        Shape::Variable(a) => is_the_variable(first, a),
        Shape::Named(_, _, _) => false,
        Shape::Function(_, _) => false,
        Shape::Tuple(_) => false,
        Shape::Record(_) => false,
        Shape::Extended(_, _) => false,
    }
}

/// The form of a port to `Sub message` from a function with this result.
#[tactic(auto, using(crate::proofs::Forms::incoming_from_more))]
fn incoming_to<'a>(
    payload: &'a Annotation,
    others: &[Annotation],
    message: &Annotation,
) -> PortForm<'a>
    requires { 0 < length others.now }
    ensures { port_view result ≡ incoming_to (annotation_view payload.now)
        (function_type (map annotation_view others.now)) (annotation_view message.now) }
{
    match others {
        [only] => {
            if same_variable(only, message) {
                PortForm::Incoming(payload)
            } else {
                PortForm::NoPort
            }
        }
        [] => PortForm::NoPort,
        [_, _, ..] => PortForm::NoPort,
    }
}

/// The form of a port from this type to `Sub message`.
fn incoming_form<'a>(t: &'a Annotation, message: &Annotation) -> PortForm<'a>
    ensures { port_view result ≡ incoming_form (annotation_view t.now) (annotation_view message.now) }
{
    match shape_of(t) {
        Shape::Variable(a) => unless_blank(a),
        Shape::Function(payload, others) => incoming_to(payload, others, message),
        Shape::Named(_, _, _) => PortForm::NoPort,
        Shape::Tuple(_) => PortForm::NoPort,
        Shape::Record(_) => PortForm::NoPort,
        Shape::Extended(_, _) => PortForm::NoPort,
    }
}

/// The form of a port from this type to a type of one argument.
fn form_to<'a>(t: &'a Annotation, home: &Name, name: &Name, message: &Annotation) -> PortForm<'a>
    ensures { port_view result
        ≡ form_to (annotation_view t.now) home.now name.now (annotation_view message.now) }
{
    if is_cmd(home, name) {
        if is_variable(message) {
            return PortForm::Outgoing(t);
        }
        return PortForm::NoPort;
    }
    if is_sub(home, name) {
        return incoming_form(t, message);
    }
    PortForm::NoPort
}

/// The form of a port from this type to a type with these arguments.
#[tactic(auto, using(crate::proofs::Forms::to_no_argument, crate::proofs::Forms::to_more_arguments))]
fn named_to<'a>(t: &'a Annotation, home: &Name, name: &Name, types: &[Annotation]) -> PortForm<'a>
    ensures { port_view result
        ≡ named_to (annotation_view t.now) home.now name.now (types_view types.now) }
{
    match types {
        [message] => form_to(t, home, name, message),
        [] => PortForm::NoPort,
        [_, _, ..] => PortForm::NoPort,
    }
}

/// The form of a port from one type to another.
fn port_to<'a>(t: &'a Annotation, result_type: &Annotation) -> PortForm<'a>
    ensures { port_view result ≡ port_to (annotation_view t.now) (annotation_view result_type.now) }
{
    match shape_of(result_type) {
        Shape::Variable(a) => unless_blank(a),
        Shape::Named(home, name, types) => named_to(t, home, name, types),
        Shape::Function(_, _) => PortForm::NoPort,
        Shape::Tuple(_) => PortForm::NoPort,
        Shape::Record(_) => PortForm::NoPort,
        Shape::Extended(_, _) => PortForm::NoPort,
    }
}

/// The form of a port from one type to others and a result.
#[tactic(auto, using(crate::proofs::Forms::to_function))]
fn function_port<'a>(t: &'a Annotation, others: &[Annotation]) -> PortForm<'a>
    requires { 0 < length others.now }
    ensures { port_view result
        ≡ port_to (annotation_view t.now) (function_type (map annotation_view others.now)) }
{
    match others {
        [only] => port_to(t, only),
        [] => PortForm::NoPort,
        [_, _, ..] => PortForm::NoPort,
    }
}

/// How a port is used whose type is `t`, with its aliases expanded.
pub fn port_form(t: &Annotation) -> PortForm<'_>
    ensures { port_view result ≡ port_form (annotation_view t.now) }
{
    match shape_of(t) {
        Shape::Variable(a) => unless_blank(a),
        Shape::Function(first, others) => function_port(first, others),
        Shape::Named(_, _, _) => PortForm::NoPort,
        Shape::Tuple(_) => PortForm::NoPort,
        Shape::Record(_) => PortForm::NoPort,
        Shape::Extended(_, _) => PortForm::NoPort,
    }
}
