//! Rigid constants.

ghost use Rattle.std.specs.Prelude.{◌≡◌, IfOk};

use crate::class::Class;
use elm_base::names::Name;
use std::alloc::{AllocError, Global};
use std::marker::Model;
use std::sync::Arc;

/// What a constant is, whichever types share it.
#[derive(Drop)]
struct Described {
    place: Vec<u32>,
    name: Name,
    class: Class,
    lacks: Vec<Name>,
}

/// A rigid constant: a variable of an annotation, which no type may take the place of. A contract sees it as the record
/// of its place, name, class and lacked fields.
///
/// Any number of types may share it. A clone copies nothing, and fails only after 2 to the 63rd clones.
#[derive(Drop)]
pub struct Rigid {
    described: Arc<Described, Global>,
}

impl Model for Rigid {
    ghost use Rattle.elm_type.specs.Types as types;

    ghost Value = { types.Rigid };

    ghost view = { λ r. record {
      place = r.described.value.place.items;
      name = r.described.value.name;
      class = r.described.value.class;
      lacks = r.described.value.lacks.items;
    } };
}

impl Rigid {
    /// The constant `name` of the annotation at the place `place` of a module's tree, of the class `class` and without
    /// the fields `lacks`. The error means that memory ran out.
    pub fn new(
        alloc: Global,
        place: Vec<u32>,
        name: Name,
        class: Class,
        lacks: Vec<Name>,
    ) -> Result<Rigid, AllocError>
        ensures { IfOk result (λ constant. constant
            ≡ record { place = place.items; name = name; class = class; lacks = lacks.items }) }
    {
        Ok(Rigid {
            described: Arc::new(
                alloc,
                Described {
                    place,
                    name,
                    class,
                    lacks,
                },
            )?,
        })
    }

    /// The place of the annotation.
    pub fn place(&self) -> &[u32]
        ensures { result.now ≡ self.now.place }
    {
        self.described.place.as_slice()
    }

    /// The name of the constant.
    pub fn name(&self) -> &Name
        ensures { result.now ≡ self.now.name }
    {
        &self.described.name
    }

    /// The class that the name says.
    pub fn class(&self) -> Class
        ensures { result ≡ self.now.class }
    {
        self.described.class
    }

    /// The fields that the annotation writes beside it.
    pub fn lacks(&self) -> &[Name]
        ensures { result.now ≡ self.now.lacks }
    {
        self.described.lacks.as_slice()
    }
}

impl Clone for Rigid {
    ghost is_clone = { λ constant copy. copy ≡ constant };

    fn clone(&self) -> Result<Rigid, AllocError> {
        Ok(Rigid {
            described: Arc::try_clone(&self.described)?,
        })
    }
}
