//! The interface of a module.

ghost use Rattle.std.specs.Prelude.{◌≡◌, option_map, IfOk};
ghost use Rattle.elm_canon.specs.View.{module_view};
ghost use Rattle.elm_type.specs.View.{scheme_view};
ghost use Rattle.canon_env.specs.Shown.{shown_view};
ghost use Rattle.interface.specs.View.{interface_view};
ghost use Rattle.module_offers.specs.Offers as spec;

use crate::listing::values_named;
use crate::naming::{MainName, Offered};
use crate::told::Told;
use canon_env::shown::Shown;
use elm_canon::tree::Module;
use elm_type::scheme::Scheme;
use interface::Interface;
use std::alloc::{AllocError, Global};

/// The interface of the module `module`, which shows `shown`: its values and ports among these, and the functions that
/// operators name, with their types, which `told` tells of its definitions; and the unions and aliases that it shows.
/// It takes time in proportion to the module and to these types, but for the order of names. The error means that
/// memory ran out.
#[tactic(auto, unfolding(crate::specs::Offers::module_interface))]
pub fn module_interface<T: Told>(
    alloc: Global,
    shown: Shown,
    module: &Module,
    told: &T,
) -> Result<Interface, AllocError>
    ensures { IfOk result (λ i. interface_view i
        ≡ spec.module_interface (shown_view shown) (module_view module.now) (T.schemes told.now)) }
{
    let Shown {
        values: names,
        unions,
        aliases,
    } = shown;
    let naming = Offered::of(alloc, &module.name, &names)?;
    let values = values_named(alloc, told, &naming, module)?;
    Interface::new(alloc, values, unions, aliases)
}

/// The type of the value `main` of the module `module`, if it has one, which `told` tells of its definitions. The error
/// means that memory ran out.
pub fn main_type<T: Told>(
    alloc: Global,
    module: &Module,
    told: &T,
) -> Result<Option<Scheme>, AllocError>
    ensures { IfOk result (λ s. option_map scheme_view s
        ≡ spec.main_type (module_view module.now) (T.schemes told.now)) }
{
    let mut values = values_named(alloc, told, &MainName, module)?;
    if values.len() == 0 {
        return Ok(None);
    }
    Ok(Some(values.swap_remove(0).scheme))
}
