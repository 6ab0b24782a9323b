//! Where what a module is compiled in is sound.

ghost use Rattle.std.specs.Prelude.{◌≡◌, ℕ, List, None, false};
ghost use Rattle.elm_canon.specs.Names.{Name, same_name};
ghost use Rattle.interface.specs.Interface.{Interface};
ghost use Rattle.import_graph.specs.declared.found.Found.{Found};
ghost use Rattle.module_made.specs.Around.{Around, home_of, in_project, in_core};
ghost use Rattle.infer_proper.specs.Sound.{IsSound, SoundInterface, with_interface};

/// A module of a project and one of the core library are compiled in what is sound, before any interface is known.
pub fn bare_law()
    ensures project { (name : List ℕ) (found : List ℕ → Found) → IsSound (in_project name found (λ x. None)) }
    ensures core { (name : List ℕ) (found : List ℕ → Found) → IsSound (in_core name found (λ x. None)) }
{}

/// What a module is compiled in stays sound with the sound interface of one module more, if that is another module.
pub fn with_law()
    ensures { (a : Around) (home : Name) (i : Interface) → IsSound a → same_name home (home_of a) ≡ false
        → SoundInterface home i → IsSound (record a { interfaces = with_interface home i a.interfaces }) }
{}
