//! Unions and their constructors.

ghost use Rattle.std.specs.Prelude.{◌≡◌, IfOk};
ghost use Rattle.elm_canon.specs.Unions as spec;

use elm_base::names::Name;
use std::alloc::{AllocError, Global};
use std::marker::Model;
use std::sync::Arc;

/// What tells a constructor in a value.
#[derive(Clone, Copy, Debug, PartialEq, Eq)]
pub enum Tag {
    /// The place of the constructor in its union, from 0 on. The constructors of dictionaries are below 0.
    Number(i64),
    /// `True` and `False`.
    Truth(bool),
    /// Of `()` there is nothing to tell.
    Blank,
}

/// A constructor of a union.
#[derive(Clone, Drop)]
pub struct Alternative {
    pub name: Name,
    pub tag: Tag,
    /// How many fields it has.
    pub arity: usize,
}

/// What a union is.
#[derive(Drop)]
pub enum UnionShape {
    /// Tuples of so many parts. `()` is the tuple of none.
    Tuple(usize),
    /// Lists.
    List,
    /// What a module declares, by the module, the name and the constructors in declared order.
    Declared(Name, Name, Vec<Alternative>),
}

/// A union, which any number of trees and threads may share. A contract sees what it is, as plain data.
///
/// A clone is the same union once more and copies nothing; it fails only after 2 to the 63rd clones.
#[derive(Drop)]
pub struct Union {
    shape: Arc<UnionShape, Global>,
}

impl Model for Union {
    ghost use Rattle.elm_canon.specs.Unions as spec;

    ghost Value = { spec.Union };

    ghost view = { λ u. spec.union_view u.shape.value };
}

impl Union {
    /// The union of the shape `shape`. The error means that memory ran out.
    pub fn new(alloc: Global, shape: UnionShape) -> Result<Union, AllocError>
        ensures { IfOk result (λ union. union ≡ spec.union_view shape) }
    {
        Ok(Union {
            shape: Arc::new(alloc, shape)?,
        })
    }

    /// What the union is.
    pub fn shape(&self) -> &UnionShape
        ensures { spec.union_view result.now ≡ self.now }
    {
        &self.shape
    }
}

impl Clone for Union {
    ghost is_clone = { λ union copy. copy ≡ union };

    fn clone(&self) -> Result<Union, AllocError> {
        Ok(Union {
            shape: Arc::try_clone(&self.shape)?,
        })
    }
}
