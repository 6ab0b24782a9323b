//! Expressions, sign by sign.

use elm_base::names::Name;

/// A sign that is of no port.
#[derive(Clone, Copy)]
pub enum Form {
    Other,
    /// After the last part.
    End,
    /// A function of one parameter.
    Lambda,
    /// A function with its arguments.
    Apply,
    /// A choice of two branches.
    Two,
    /// One function alone.
    Alone,
}

/// A sign of commands and subscriptions of ports.
#[derive(Clone, Copy)]
pub enum Port {
    /// Any other than these.
    Wrong,
    /// A command is built.
    Sends,
    /// A subscription is built.
    Listens,
    /// A command is taken apart.
    TakesSend,
    /// A subscription is taken apart.
    TakesListen,
    /// A batch of commands is taken apart.
    TakesCommands,
    /// A batch of subscriptions is taken apart.
    TakesSubscriptions,
}

/// A sign. It stands in front of its parts.
#[derive(Drop)]
pub enum Sign {
    /// A local name.
    Local(Name),
    /// A pattern that is a name.
    Named(Name),
    Form(Form),
    Port(Port),
}

/// A sign of a table.
#[derive(Clone, Copy)]
pub(crate) enum Row {
    Local(&'static [u8]),
    Named(&'static [u8]),
    Form(Form),
    Port(Port),
}
