//! The types of what other modules declare, and of the module's own constructors and ports.

ghost use Rattle.std.specs.Prelude.{◌≡◌, None, Some, map, if◌then◌else◌, IfOk, OnOk, option_map};
ghost use Rattle.elm_canon.specs.Names.{same_name};
ghost use Rattle.elm_type.specs.View.{scheme_view};
ghost use Rattle.infer_steps.specs.View.{schemes_view, known_view};

use elm_base::names::Name;
use elm_type::scheme::Scheme;
use indexmap::IndexMap;
use std::alloc::{AllocError, Global};

/// The types of the names that one module declares.
#[derive(Drop)]
pub struct ModuleTypes {
    schemes: IndexMap<Name, Scheme>,
}

/// The types of the names that modules declare, by module and name.
#[derive(Drop)]
pub struct Known {
    modules: IndexMap<Name, ModuleTypes>,
}

impl ModuleTypes {
    /// Of no names.
    #[tactic(auto, unfolding(crate::specs::View::schemes_view))]
    pub fn new(alloc: Global) -> ModuleTypes
        ensures { schemes_view result ≡ (λ x. None) }
    {
        ModuleTypes {
            schemes: IndexMap::new(alloc),
        }
    }

    /// Gives the name `name` the type `scheme`, also where it had another. The error means that memory ran out.
    #[tactic(auto, unfolding(crate::specs::View::schemes_view))]
    pub fn insert(&mut self, name: Name, scheme: Scheme) -> Result<(), AllocError>
        ensures { OnOk result (schemes_view self.new
            ≡ (λ x. if same_name name x then Some (scheme_view scheme) else schemes_view self.old x)) }
    {
        self.schemes.insert(name, scheme)?;
        Ok(())
    }
}

impl Known {
    /// Of no modules.
    #[tactic(auto, unfolding(crate::specs::View::known_view))]
    pub fn new(alloc: Global) -> Known
        ensures { known_view result ≡ (λ m x. None) }
    {
        Known {
            modules: IndexMap::new(alloc),
        }
    }

    /// Adds the types `types` of the module `home`, also where there were others. The error means that memory ran
    /// out.
    #[tactic(auto, unfolding(crate::specs::View::known_view))]
    pub fn insert(&mut self, home: Name, types: ModuleTypes) -> Result<(), AllocError>
        ensures { OnOk result (known_view self.new
            ≡ (λ m x. if same_name home m then schemes_view types x else known_view self.old m x)) }
    {
        self.modules.insert(home, types)?;
        Ok(())
    }

    /// The type of the name `name` of the module `home`. None: the module declares no such name, or it is not there.
    #[tactic(auto, unfolding(crate::specs::View::known_view, crate::specs::View::schemes_view))]
    pub fn get(&self, home: &Name, name: &Name) -> Option<&Scheme>
        ensures { option_map (λ s. scheme_view s.now) result ≡ known_view self.now home.now name.now }
    {
        self.modules.get(home)?.schemes.get(name)
    }
}
