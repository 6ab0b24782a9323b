//! The types that inference tells.

use elm_canon::reference::Ref;
use elm_type::scheme::Scheme;
use infer::types::Types;
use module_offers::told::Told;
use std::alloc::AllocError;

/// The types of the definitions of a module.
#[derive(Drop)]
pub(crate) struct Inferred {
    pub types: Types,
}

impl Told for Inferred {
    ghost use Rattle.infer.specs.Types.{schemes_of};

    ghost schemes = { λ i. schemes_of i.types };

    fn get(&self, name: &Ref) -> Result<Option<&Scheme>, AllocError> {
        self.types.get(name)
    }
}
