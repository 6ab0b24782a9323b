//! Signs that are the same.

ghost use Rattle.std.specs.Prelude.{◌≡◌, map};
ghost use Rattle.std.specs.List.{list_all};
ghost use Rattle.core_modules.specs.Same as spec;
ghost use Rattle.core_modules.specs.Faults.{is_free, is_map, are_kept};

use crate::port_faults_sign::{Form, Port, Row, Sign};
use elm_type::ascii::is_text;

/// `map` of Platform.Cmd.
const COMMAND_MAP: [Row; 17] = [
    Row::Form(Form::Alone),
    Row::Named(b"f"),
    Row::Named(b"command"),
    Row::Form(Form::End),
    Row::Form(Form::Two),
    Row::Local(b"command"),
    Row::Port(Port::TakesSend),
    Row::Named(b"name"),
    Row::Named(b"payload"),
    Row::Form(Form::End),
    Row::Port(Port::Sends),
    Row::Local(b"name"),
    Row::Local(b"payload"),
    Row::Form(Form::End),
    Row::Port(Port::TakesCommands),
    Row::Named(b"commands"),
    Row::Form(Form::End),
];

/// `map` of Platform.Sub.
const SUBSCRIPTION_MAP: [Row; 25] = [
    Row::Form(Form::Alone),
    Row::Named(b"f"),
    Row::Named(b"subscription"),
    Row::Form(Form::End),
    Row::Form(Form::Two),
    Row::Local(b"subscription"),
    Row::Port(Port::TakesListen),
    Row::Named(b"name"),
    Row::Named(b"toMessage"),
    Row::Form(Form::End),
    Row::Port(Port::Listens),
    Row::Local(b"name"),
    Row::Form(Form::Lambda),
    Row::Named(b"payload"),
    Row::Form(Form::Apply),
    Row::Local(b"f"),
    Row::Form(Form::Apply),
    Row::Local(b"toMessage"),
    Row::Local(b"payload"),
    Row::Form(Form::End),
    Row::Form(Form::End),
    Row::Form(Form::End),
    Row::Port(Port::TakesSubscriptions),
    Row::Named(b"subscriptions"),
    Row::Form(Form::End),
];

/// The place of a form among them.
fn form_number(form: Form) -> u8
    ensures { result ≡ spec.form_number form }
{
    match form {
        Form::Other => 0,
        Form::End => 1,
        Form::Lambda => 2,
        Form::Apply => 3,
        Form::Two => 4,
        Form::Alone => 5,
    }
}

/// The place of a sign of ports among them.
fn port_number(port: Port) -> u8
    ensures { result ≡ spec.port_number port }
{
    match port {
        Port::Wrong => 0,
        Port::Sends => 1,
        Port::Listens => 2,
        Port::TakesSend => 3,
        Port::TakesListen => 4,
        Port::TakesCommands => 5,
        Port::TakesSubscriptions => 6,
    }
}

/// Whether a sign is that of the row.
fn is_row(row: Row, sign: &Sign) -> bool
    ensures { result ≡ spec.same_sign (spec.row_view row) sign.now }
{
    match (row, sign) {
        (Row::Local(text), Sign::Local(name)) => is_text(name, text),
        (Row::Named(text), Sign::Named(name)) => is_text(name, text),
        (Row::Form(form), Sign::Form(other)) => form_number(form) == form_number(*other),
        (Row::Port(port), Sign::Port(other)) => port_number(port) == port_number(*other),
        _ => false,
    }
}

/// Whether these signs have nothing of a port.
fn are_free(signs: &[Sign]) -> bool
    ensures { result ≡ list_all is_free signs.now }
{
    for sign in signs {
        match sign {
            Sign::Port(_) => return false,
            _ => {}
        }
    }
    true
}

/// Whether the signs are these rows, and then have nothing of a port.
fn is_map(rows: &[Row], signs: &[Sign]) -> bool
    ensures { result ≡ is_map (spec.rows_view rows.now) signs.now }
{
    let mut rest = signs;
    for row in rows {
        match rest.split_first() {
            Some((sign, more)) => {
                if !is_row(*row, sign) {
                    return false;
                }
                rest = more;
            }
            None => return false,
        }
    }
    are_free(rest)
}

/// Whether signs have nothing of a port but a mapping.
pub(crate) fn are_kept(signs: &[Sign]) -> bool
    ensures { result ≡ are_kept signs.now }
{
    are_free(signs) || is_map(&COMMAND_MAP, signs) || is_map(&SUBSCRIPTION_MAP, signs)
}
