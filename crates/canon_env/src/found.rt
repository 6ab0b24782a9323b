//! What a name means.

use elm_base::names::Name;

/// A thing of a module.
#[derive(Drop)]
pub struct Meant<M> {
    /// The module that declares it.
    pub home: Name,
    pub meaning: M,
}

/// What a name means that means something.
#[derive(Drop)]
pub enum Entry<M> {
    One(Meant<M>),
    /// Things of two modules, which is a fault where the name is used.
    Several,
}

/// A name of a module, and what it means.
#[derive(Drop)]
pub struct Named<M> {
    pub name: Name,
    pub meaning: M,
}
