//! What is known of the imports of a module.

ghost use Rattle.std.specs.Prelude.{◌≡◌};
ghost use Rattle.std.specs.Str.Lossy.{utf8_lossy};
ghost use Rattle.elm_base.specs.Units.{text_units};
ghost use Rattle.infer_proper.specs.Props.{IsSound-prop};
ghost use Rattle.infer_proper.specs.Sound.{IsSound};
ghost use Rattle.module_compile.specs.Parts.{found_view, interfaces_view, around_of};

use crate::offered::Offered;
use elm_base::names::Name;
use elm_base::text::Text;
use import_graph::Found;
use indexmap::IndexMap;
use std::alloc::Global;
use std::sync::Arc;

/// What a module is compiled in: its name, where its imports stand, and what the modules that it imports offer.
/// Interfaces are shared with the other modules that import them.
#[derive(Drop)]
pub struct Imports {
    /// Whether it is a module of the core library.
    pub(crate) is_core: bool,
    /// Its name, with its dots, in UTF-8.
    pub(crate) name: Text,
    /// The same, by its units.
    pub(crate) home: Name,
    /// Which modules have the names that the text imports.
    pub(crate) found: IndexMap<Text, Found>,
    pub(crate) interfaces: IndexMap<Name, Arc<Offered, Global>>,
    ghost home_is: { home ≡ text_units (utf8_lossy name) },
    ghost sound: { IsSound (around_of is_core name (found_view found) (interfaces_view interfaces)) } by { IsSound-prop (around_of is_core name (found_view found) (interfaces_view interfaces)) },
}
