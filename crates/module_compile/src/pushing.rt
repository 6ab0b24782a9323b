//! What is known of imports, one module after another.

ghost use Rattle.std.specs.Prelude.{◌≡◌, None, List, ℕ, false, map, IfOk, OnOk, OnErr};
ghost use Rattle.std.specs.Str.Lossy.{utf8_lossy};
ghost use Rattle.elm_base.specs.Units.{text_units};
ghost use Rattle.elm_canon.specs.Names.{same_name};
ghost use Rattle.interface.specs.View.{interface_view};
ghost use Rattle.import_graph.specs.ModuleWalkView.{import_view};
ghost use Rattle.module_made.specs.Around.{found_in, home_of, in_project, in_core};
ghost use Rattle.infer_proper.specs.Sound.{with_interface};
ghost use Rattle.module_compile.specs.Parts.{found_view, around_of};
ghost use Rattle.module_compile.specs.ModulePhasesView.{around_view};

use crate::imports::Imports;
use crate::offered::Offered;
use elm_base::names::Name;
use elm_base::text::Text;
use import_graph::{Found, Import};
use indexmap::IndexMap;
use std::alloc::{AllocError, Global};
use std::sync::Arc;

/// Which modules have the names of the imports.
#[tactic(auto, unfolding(crate::specs::Parts::found_view))]
fn found_by(alloc: Global, imports: &[Import]) -> Result<IndexMap<Text, Found>, AllocError>
    ensures { IfOk result (λ m. (x : List ℕ) → found_view m x ≡ found_in (map import_view imports.now) x) }
{
    let mut found = IndexMap::new(alloc);
    for k in (0..imports.len()).rev() {
        let import = &imports[k];
        found.insert(import.name.clone()?, import.found)?;
    }
    Ok(found)
}

/// The name of a module, by its units.
fn home_by(alloc: Global, name: &Text) -> Result<Name, AllocError>
    ensures { IfOk result (λ home. home ≡ text_units (utf8_lossy name.now)) }
{
    let text = String::from_utf8_lossy(alloc, name.as_bytes())?;
    Name::of_text(alloc, text.as_str())
}

/// A module of the core library or of a project, before the interfaces of its imports are known.
#[tactic(auto, unfolding(crate::specs::ModulePhasesView::around_view, crate::specs::Parts::interfaces_view))]
fn bare(alloc: Global, is_core: bool, name: Text, found: &[Import]) -> Result<Imports, AllocError>
    ensures { IfOk result (λ i. around_view i
        ≡ around_of is_core name (found_in (map import_view found.now)) (λ x. None)) }
{
    Ok(Imports {
        is_core,
        home: home_by(alloc, &name)?,
        name,
        found: found_by(alloc, found)?,
        interfaces: IndexMap::new(alloc),
    })
}

impl Imports {
    /// The module `name` of a project, before the interfaces of its imports are known. It has the default imports.
    /// `found` says which modules have the names that its text imports. The error means that memory ran out.
    pub fn in_project(alloc: Global, name: Text, found: &[Import]) -> Result<Imports, AllocError>
        ensures { IfOk result (λ i. around_view i
            ≡ in_project name (found_in (map import_view found.now)) (λ x. None)) }
    {
        bare(alloc, false, name, found)
    }

    /// The module `name` of the core library, before the interfaces of its imports are known. The types without a text
    /// are in scope, and it declares those of its own. `found` says which modules have the names that its text imports.
    /// The error means that memory ran out.
    pub fn in_core(alloc: Global, name: Text, found: &[Import]) -> Result<Imports, AllocError>
        ensures { IfOk result (λ i. around_view i
            ≡ in_core name (found_in (map import_view found.now)) (λ x. None)) }
    {
        bare(alloc, true, name, found)
    }

    /// The name of the module.
    pub fn home(&self) -> &Name
        ensures { result.now ≡ home_of (around_view self.now) }
    {
        &self.home
    }

    /// Adds what the module `offered.home` offers, which the module imports; also where that was there already. No
    /// module imports itself. The error means that memory ran out; then nothing changed.
    #[tactic(auto, unfolding(crate::specs::ModulePhasesView::around_view, crate::specs::Parts::interfaces_view))]
    pub fn push(&mut self, offered: &Arc<Offered, Global>) -> Result<(), AllocError>
        requires { same_name offered.now.value.home (home_of (around_view self.old)) ≡ false }
        ensures pushed { OnOk result (around_view self.new ≡ record (around_view self.old) {
          interfaces = with_interface offered.now.value.home (interface_view offered.now.value.interface)
              (around_view self.old).interfaces;
        }) }
        ensures err { OnErr result (around_view self.new ≡ around_view self.old) }
    {
        let home = offered.home.clone()?;
        let shared = Arc::try_clone(offered)?;
        self.interfaces.insert(home, shared)?;
        Ok(())
    }
}
