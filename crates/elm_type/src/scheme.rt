//! Schemes: types with variables of their own.

use crate::class::Class;
use crate::ty::Ty;
use elm_base::names::Name;

/// What a variable may stand for: the types of a class. Where it lacks fields, it stands for records without these.
#[derive(Drop)]
pub struct Kind {
    pub class: Class,
    pub lacks: Vec<Name>,
}

/// A type, and a kind for each of its variables, by their numbers. A variable without a kind may stand for every type.
#[derive(Drop)]
pub struct Scheme {
    pub ty: Ty,
    pub kinds: Vec<Kind>,
}
