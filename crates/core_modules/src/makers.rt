//! The unions of commands and of subscriptions, and their constructors.

ghost use Rattle.std.specs.Prelude.{◌≡◌, ◌++◌, ◌∷◌, [], OnOk};
ghost use Rattle.core_modules.specs.Makers as spec;
ghost use Rattle.core_modules.specs.PortFaultsSigns.{ends};
ghost use Rattle.core_modules.specs.Ported.{sign_of};
ghost use Rattle.core_modules.specs.declared.port_faults_sign.Sign.TheVariants as sign;

use crate::port_faults_sign::{Form, Port, Sign};
use elm_base::names::Name;
use elm_canon::reference::Ref;
use elm_canon::unions::{Alternative, Tag, Union, UnionShape};
use elm_type::ascii::is_text;
use std::alloc::AllocError;

/// Whether it is the module of commands or of subscriptions.
pub(crate) fn is_port_home(home: &Name) -> bool
    ensures { result ≡ spec.is_port_home home.now }
{
    is_text(home, b"Platform.Cmd") || is_text(home, b"Platform.Sub")
}

/// Whether a name begins with a small letter.
pub(crate) fn is_small(name: &Name) -> bool
    ensures { result ≡ spec.is_small name.now }
{
    match name.as_slice().first() {
        Some(unit) => 96 < *unit && *unit < 123,
        None => false,
    }
}

/// Adds a sign.
pub(crate) fn push(sign: Sign, signs: &mut Vec<Sign>) -> Result<(), AllocError>
    ensures { OnOk result (signs.new.items ≡ signs.old.items ++ sign ∷ []) }
{
    signs.push(sign)?;
    Ok(())
}

/// Adds a sign that is of no port.
pub(crate) fn push_form(form: Form, signs: &mut Vec<Sign>) -> Result<(), AllocError>
    ensures { OnOk result (signs.new.items ≡ signs.old.items ++ sign.Form form ∷ []) }
{
    push(Sign::Form(form), signs)
}

/// Adds a sign of ports.
fn push_port(port: Port, signs: &mut Vec<Sign>) -> Result<(), AllocError>
    ensures { OnOk result (signs.new.items ≡ signs.old.items ++ sign.Port port ∷ []) }
{
    push(Sign::Port(port), signs)
}

/// Adds a sign of ports, or else one of another constructor.
fn push_any(port: Option<Port>, signs: &mut Vec<Sign>) -> Result<(), AllocError>
    ensures { OnOk result (signs.new.items ≡ signs.old.items ++ sign_of port ∷ []) }
{
    match port {
        Some(port) => push_port(port, signs),
        None => push_form(Form::Other, signs),
    }
}

/// Adds the sign of a local name.
fn push_local(name: &Name, signs: &mut Vec<Sign>) -> Result<(), AllocError>
    ensures { OnOk result (signs.new.items ≡ signs.old.items ++ sign.Local name.now ∷ []) }
{
    push(Sign::Local(name.clone()?), signs)
}

/// Adds the sign of a name.
pub(crate) fn push_name(name: &Ref, signs: &mut Vec<Sign>) -> Result<(), AllocError>
    ensures { OnOk result (signs.new.items ≡ signs.old.items ++ spec.name_sign name.now ∷ []) }
{
    match name {
        Ref::Local(name) => push_local(name, signs),
        Ref::Top(home, name) => {
            if is_port_home(home) && !is_small(name) {
                push_port(Port::Wrong, signs)
            } else {
                push_form(Form::Other, signs)
            }
        }
    }
}

/// Whether it is the constructor of that name, with that number and so many fields.
fn is_maker(name: &[u8], number: u8, fields: usize, constructor: &Alternative) -> bool
    ensures { result ≡ spec.is_maker name.now number fields constructor.now }
{
    match constructor.tag {
        Tag::Number(own) => {
            is_text(&constructor.name, name)
                && own == i64::from(number)
                && constructor.arity == fields
        }
        _ => false,
    }
}

/// Whether the constructors are the one of that name, and `Batch`.
fn are_makers(name: &[u8], constructors: &[Alternative]) -> bool
    ensures { result ≡ spec.are_makers name.now constructors.now }
{
    match constructors {
        [first, second] => is_maker(name, 0, 2, first) && is_maker(b"Batch", 1, 1, second),
        _ => false,
    }
}

/// Whether the module `home` declares the union by the name `name`.
fn is_declared(home: &[u8], name: &[u8], union: &Union) -> bool
    ensures { result ≡ spec.is_declared home.now name.now union.now }
{
    match union.shape() {
        UnionShape::Tuple(_) => false,
        UnionShape::List => false,
        UnionShape::Declared(place, own, _) => is_text(place, home) && is_text(own, name),
    }
}

/// Whether the constructors of the union are the one of that name, and `Batch`.
fn has_makers(name: &[u8], union: &Union) -> bool
    ensures { result ≡ spec.has_makers name.now union.now }
{
    match union.shape() {
        UnionShape::Tuple(_) => false,
        UnionShape::List => false,
        UnionShape::Declared(_, _, constructors) => are_makers(name, constructors),
    }
}

fn is_command(union: &Union) -> bool
    ensures { result ≡ spec.is_command union.now }
{
    is_declared(b"Platform.Cmd", b"Cmd", union)
}

fn is_subscription(union: &Union) -> bool
    ensures { result ≡ spec.is_subscription union.now }
{
    is_declared(b"Platform.Sub", b"Sub", union)
}

/// Adds the end of the fields of a command or of a subscription.
pub(crate) fn push_ends(union: &Union, signs: &mut Vec<Sign>) -> Result<(), AllocError>
    ensures { OnOk result (signs.new.items ≡ signs.old.items ++ ends union.now) }
{
    if is_command(union) || is_subscription(union) {
        push_form(Form::End, signs)
    } else {
        Ok(())
    }
}

/// The sign of a constructor of commands or subscriptions: `first` where it is the one of that name, and `second` where
/// it is `Batch`.
fn maker_sign(
    name: &[u8],
    first: Port,
    second: Option<Port>,
    union: &Union,
    constructor: &Alternative,
) -> Option<Port>
    ensures { sign_of result
        ≡ spec.maker_sign name.now (sign.Port first) (sign_of second) union.now constructor.now }
{
    if !has_makers(name, union) {
        return Some(Port::Wrong);
    }
    if is_maker(name, 0, 2, constructor) {
        return Some(first);
    }
    if is_maker(b"Batch", 1, 1, constructor) {
        return second;
    }
    Some(Port::Wrong)
}

/// The sign of a constructor that a pattern takes apart, if it is one of ports.
fn taken_sign(union: &Union, constructor: &Alternative) -> Option<Port>
    ensures { sign_of result ≡ spec.taken_sign union.now constructor.now }
{
    if is_command(union) {
        return maker_sign(
            b"Send",
            Port::TakesSend,
            Some(Port::TakesCommands),
            union,
            constructor,
        );
    }
    if is_subscription(union) {
        return maker_sign(
            b"Listen",
            Port::TakesListen,
            Some(Port::TakesSubscriptions),
            union,
            constructor,
        );
    }
    None
}

/// Adds the sign of a constructor that a pattern takes apart.
pub(crate) fn push_taken(
    union: &Union,
    constructor: &Alternative,
    signs: &mut Vec<Sign>,
) -> Result<(), AllocError>
    ensures { OnOk result (signs.new.items ≡ signs.old.items ++ spec.taken_sign union.now constructor.now ∷ []) }
{
    push_any(taken_sign(union, constructor), signs)
}

/// The sign of a constructor that is built, if it is one of ports.
fn built_sign(union: &Union, constructor: &Alternative) -> Option<Port>
    ensures { sign_of result ≡ spec.built_sign union.now constructor.now }
{
    if is_command(union) {
        return maker_sign(b"Send", Port::Sends, None, union, constructor);
    }
    if is_subscription(union) {
        return maker_sign(b"Listen", Port::Listens, None, union, constructor);
    }
    None
}

/// Adds the sign of a constructor that is built.
pub(crate) fn push_built(
    union: &Union,
    constructor: &Alternative,
    signs: &mut Vec<Sign>,
) -> Result<(), AllocError>
    ensures { OnOk result (signs.new.items ≡ signs.old.items ++ spec.built_sign union.now constructor.now ∷ []) }
{
    push_any(built_sign(union, constructor), signs)
}
