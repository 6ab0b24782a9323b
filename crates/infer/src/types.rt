//! The types of the names that a module defines.

ghost use Rattle.std.specs.Prelude.{◌≡◌, None, Some, option_map, IfOk, OnOk, if◌then◌else◌};
ghost use Rattle.elm_canon.specs.Names.{same_ref};
ghost use Rattle.elm_canon.specs.declared.reference.Ref.{Ref as PlainRef};
ghost use Rattle.elm_type.specs.View.{scheme_view};
ghost use Rattle.infer.specs.Types.{schemes_of};

use elm_base::names::Name;
use elm_canon::reference::Ref;
use elm_type::scheme::Scheme;
use indexmap::IndexMap;
use std::alloc::{AllocError, Global};

/// The types of the names that a module defines.
#[derive(Drop)]
pub struct Types {
    locals: IndexMap<Name, Scheme>,
    tops: IndexMap<(Name, Name), Scheme>,
}

impl Types {
    /// Of no names.
    pub(crate) fn new(alloc: Global) -> Types
        ensures { (x : PlainRef) → schemes_of result x ≡ None }
    {
        Types {
            locals: IndexMap::new(alloc),
            tops: IndexMap::new(alloc),
        }
    }

    /// Gives the name `name` the type `scheme`, also where it had another. The error means that memory ran out.
    pub(crate) fn insert(&mut self, name: Ref, scheme: Scheme) -> Result<(), AllocError>
        ensures { OnOk result ((x : PlainRef) → schemes_of self.new x
            ≡ (if same_ref x name then Some (scheme_view scheme) else schemes_of self.old x)) }
    {
        match name {
            Ref::Local(local) => {
                self.locals.insert(local, scheme)?;
                Ok(())
            }
            Ref::Top(home, top) => {
                let key = (home, top);
                self.tops.insert(key, scheme)?;
                Ok(())
            }
        }
    }

    /// The type of the name `name`. None: the module does not define it. The error means that memory ran out.
    pub fn get(&self, name: &Ref) -> Result<Option<&Scheme>, AllocError>
        ensures { IfOk result (λ s. option_map (λ x. scheme_view x.now) s ≡ schemes_of self.now name.now) }
    {
        match name {
            Ref::Local(local) => Ok(self.locals.get(local)),
            Ref::Top(home, top) => {
                let key = (home.clone()?, top.clone()?);
                Ok(self.tops.get(&key))
            }
        }
    }
}
