//! Interfaces.

ghost use Rattle.interface.specs.Interface.{parts_view};
ghost use Rattle.interface.specs.Text.{IsTextOf};

use crate::value::Value;
use elm_canon::tree::{AliasDeclaration, UnionDeclaration};
use std::alloc::Global;
use std::sync::Arc;

/// What a module offers to those that import it. It keeps its text, so that two of them are compared byte by byte.
#[derive(Drop)]
pub struct Interface {
    pub(crate) values: Vec<Value>,
    pub(crate) unions: Vec<Arc<UnionDeclaration, Global>>,
    pub(crate) aliases: Vec<Arc<AliasDeclaration, Global>>,
    pub(crate) text: Vec<u8>,
    ghost written: { IsTextOf (parts_view values.items unions.items aliases.items) text.items },
}
