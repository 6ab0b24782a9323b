//! Declarations, as they go into groups.

use canon_expr::made::Made;
use elm_canon::reference::Ref;
use elm_canon::tree::Known;

/// A port, as a function without a body.
#[derive(Drop)]
pub struct PortFunction {
    pub name: Ref,
    pub known: Known,
}

/// A declaration.
#[derive(Drop)]
pub enum Item {
    /// A type or an annotation, which means nothing here.
    Nothing,
    Port(Box<PortFunction>),
    /// What a definition means.
    Value(Box<Made>),
}
