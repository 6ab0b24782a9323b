//! The types that are told of the definitions of a module.

ghost use Rattle.std.specs.Prelude.{◌≡◌, IfOk, option_map};
ghost use Rattle.elm_type.specs.View.{scheme_view};
ghost use Rattle.type_items.specs.Inferred.{Schemes};

use elm_canon::reference::Ref;
use elm_type::scheme::Scheme;
use std::alloc::AllocError;

/// Tells the types of the definitions of a module.
pub trait Told {
    // The types that are told.
    ghost schemes: { Self → Schemes };

    /// The type of the definition `name`. None: nothing is told of it. The error means that memory ran out.
    fn get(&self, name: &Ref) -> Result<Option<&Scheme>, AllocError>
        ensures { IfOk result (λ found. option_map (λ s. scheme_view s.now) found ≡ schemes self.now name.now) };
}
