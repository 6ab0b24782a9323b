//! What is known of the imports of one module, one after another.

ghost use Rattle.std.specs.Prelude.{◌≡◌, ◌++◌, ◌∷◌, [], List, Some, IfOk, OnOk};
ghost use Rattle.elm_canon.specs.Names.{same_name};
ghost use Rattle.module_made.specs.Around.{home_of};
ghost use Rattle.module_compile.specs.ModulePhasesView.{around_view};
ghost use Rattle.project_parts.specs.Modules.{Part as PlainPart, around};
ghost use Rattle.project_parts.specs.View.{part_view};
ghost use Rattle.elm_make.specs.Desks.{IsLaid, Pushes};
ghost use Rattle.elm_make.specs.ProjectCompileView.{Value};

use module_compile::made::Made;
use module_compile::{Imports, Offered};
use project_parts::Part;
use std::alloc::{AllocError, Global};
use std::sync::Arc;

/// What is known of the imports of a module.
#[derive(Drop)]
pub struct Desk {
    /// The number of the module.
    pub(crate) number: u32,
    pub(crate) imports: Imports,
    /// Whether an import is not good.
    pub(crate) is_blocked: bool,
}

/// What a module is compiled in, before its imports are known.
fn imports_before(alloc: Global, part: &Part<'_>) -> Result<Imports, AllocError>
    ensures { IfOk result (λ i. around_view i ≡ around (part_view part.now) []) }
{
    let module = part.module;
    let name = module.name.clone()?;
    if part.is_core {
        Imports::in_core(alloc, name, &module.imports)
    } else {
        Imports::in_project(alloc, name, &module.imports)
    }
}

/// The desk of the module `number`, with nothing on it.
pub(crate) fn empty_desk(alloc: Global, number: u32, part: &Part<'_>) -> Result<Desk, AllocError>
    ensures number { IfOk result (λ d. d.number ≡ number) }
    ensures laid { IfOk result (λ d. IsLaid (part_view part.now) d []) }
{
    let imports = imports_before(alloc, part)?;
    Ok(Desk {
        number,
        imports,
        is_blocked: false,
    })
}

impl Desk {
    /// Whether the module of the desk offers that itself.
    fn is_own(&self, offered: &Arc<Offered, Global>) -> bool
        ensures { result ≡ same_name offered.now.value.home (home_of (around_view self.now.imports)) }
    {
        offered.home == *self.imports.home()
    }

    /// Lays what a good module offers on the desk. No module imports itself.
    fn push(&mut self, offered: &Arc<Offered, Global>) -> Result<(), AllocError>
        ensures number { OnOk result (self.new.number ≡ self.old.number) }
        ensures pushed { OnOk result (Pushes self.old offered.now.value self.new) }
    {
        if self.is_own(offered) {
            self.is_blocked = true;
            return Ok(());
        }
        self.imports.push(offered)?;
        Ok(())
    }

    /// Lays what the next import is compiled to on the desk.
    fn lay_made(&mut self, made: &Made) -> Result<(), AllocError>
        ensures number { OnOk result (self.new.number ≡ self.old.number) }
        ensures laid { OnOk result ((p : PlainPart) (vs : List Value) → IsLaid p self.old vs
            → IsLaid p self.new (vs ++ Some made.now ∷ [])) }
    {
        match made {
            Made::Good(offered, _) => {
                self.push(offered)?;
                Ok(())
            }
            Made::Bad(_) => {
                self.is_blocked = true;
                Ok(())
            }
        }
    }

    /// Lays what the next import compiles to on the desk.
    pub(crate) fn lay(&mut self, made: &Option<Made>) -> Result<(), AllocError>
        ensures number { OnOk result (self.new.number ≡ self.old.number) }
        ensures laid { OnOk result ((p : PlainPart) (vs : List Value) → IsLaid p self.old vs
            → IsLaid p self.new (vs ++ made.now ∷ [])) }
    {
        match made {
            Some(told) => {
                self.lay_made(told)?;
                Ok(())
            }
            None => {
                self.is_blocked = true;
                Ok(())
            }
        }
    }
}
