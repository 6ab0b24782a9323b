//! What a module offers to those that import it.

ghost use Rattle.interface.specs.View.{interface_view};
ghost use Rattle.infer_proper.specs.Props.{SoundInterface-prop};
ghost use Rattle.infer_proper.specs.Sound.{SoundInterface};

use elm_base::names::Name;
use interface::Interface;

/// A module, and what it offers to those that import it.
#[derive(Drop)]
pub struct Offered {
    /// The name of the module.
    pub home: Name,
    pub interface: Interface,
    pub ghost sound: { SoundInterface home (interface_view interface) } by { SoundInterface-prop home (interface_view interface) },
}
