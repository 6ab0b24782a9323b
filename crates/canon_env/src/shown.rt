//! What a module shows to those that import it, and what its names mean.

use elm_base::names::Name;
use elm_canon::tree::{AliasDeclaration, UnionDeclaration};
use elm_canon::unions::{Alternative, Union};
use std::alloc::Global;
use std::sync::Arc;

/// What a module shows to those that import it. Any number of environments share the declarations.
#[derive(Drop)]
pub struct Shown {
    /// Values, ports among them.
    pub values: Vec<Name>,
    /// Unions. One that hides its constructors has none.
    pub unions: Vec<Arc<UnionDeclaration, Global>>,
    pub aliases: Vec<Arc<AliasDeclaration, Global>>,
}

/// What the name of a type means.
#[derive(Drop)]
pub enum TypeMeaning {
    Union(Arc<UnionDeclaration, Global>),
    Alias(Arc<AliasDeclaration, Global>),
}

/// What the name of a constructor means.
#[derive(Drop)]
pub enum MakerMeaning {
    /// A constructor of a union.
    OfUnion(Union, Alternative),
    /// The constructor of a record's alias.
    OfRecord(Arc<AliasDeclaration, Global>),
}
