//! The link of modules.

ghost use Rattle.std.specs.Prelude.{◌≡◌, ◌<◌, length, map, option_map, IfOk, IfErr};
ghost use Rattle.elm_meaning.specs.Run.{Program};
ghost use Rattle.js_tree.specs.Text.{JsText};
ghost use Rattle.js_emit.specs.Program.{Emit};
ghost use Rattle.link.specs.Link.{Output, Links, Unlinked, link as plain_link, linked_by, flags_in};
ghost use Rattle.link.specs.FragmentsView.{main_view};
ghost use Rattle.link.specs.Programs.{Tells};
ghost use Rattle.link.specs.View.{part_view, placed_view, IfFaults};

use crate::clashes::faults_of;
use crate::fragment::{Main, Says};
use crate::output::written;
use crate::part::Part;
use crate::pieces::Placed;
use crate::reaching::reached;
use elm_base::fault::Fault;
use std::alloc::{AllocError, Global};

/// Why modules are not linked.
#[derive(Debug, Drop)]
pub enum LinkError {
    /// Memory ran out, or the output would have 4,294,967,296 bytes or more.
    NoMemory,
    /// The faults: that of the type of the entry's `main`, and then one at each port that is reached and whose name
    /// another module has before it.
    Faults(Vec<Fault>),
}

impl From<AllocError> for LinkError {
    ghost use Rattle.std.specs.Prelude.{◌≡◌};
    ghost use Rattle.link.specs.declared.linking.LinkError.TheVariants.{NoMemory};

    ghost from_gives = { λ _ e. e ≡ NoMemory };

    fn from(_error: AllocError) -> LinkError {
        LinkError::NoMemory
    }
}

/// The text of the decoder of the flags, if it is a program whose flags may cross.
fn flags_of(main: &Option<Main>) -> Option<&[u8]>
    ensures { option_map (λ b. b.now) result ≡ flags_in (option_map main_view main.now) }
{
    match main {
        Some(main) => match &main.says {
            Says::Program(flags) => Some(flags.as_slice()),
            Says::BadFlags(_) => None,
            Says::NoProgram(_) => None,
        },
        None => None,
    }
}

/// The output of the pieces that the entry's `main` reaches, or the faults.
fn linked(alloc: Global, entry: &Part<'_>, pieces: &[Placed<'_>]) -> Result<Vec<u8>, LinkError>
    ensures output { IfOk result (λ bytes. (o : Output)
        × (linked_by (part_view entry.now) (map placed_view pieces.now) ≡ Links o)
        × ((p : Program) → Tells o p → JsText (Emit p) bytes.items)) }
    ensures small { IfOk result (λ bytes. length bytes.items < 4294967296) }
    ensures faults { IfErr result (λ e. IfFaults e (λ fs.
        linked_by (part_view entry.now) (map placed_view pieces.now) ≡ Unlinked fs)) }
{
    let faults = faults_of(alloc, entry, pieces)?;
    if faults.len() != 0 {
        return Err(LinkError::Faults(faults));
    }
    match flags_of(&entry.fragment.main) {
        Some(flags) => {
            let bytes = written(alloc, &entry.name, flags, pieces)?;
            Ok(bytes)
        }
        None => Err(LinkError::Faults(faults)),
    }
}

/// Links modules: the output of what the `main` of the module at the place `entry` reaches, in the order of the modules
/// `parts` and of their declarations. Names of the core come first. It takes time in proportion to the length of all
/// fragments.
///
/// The error is all faults in order, or out of memory. E44 stands at 1:1 where the entry has no `main`, and at `main`
/// where its type is no program. E45 stands at `main` where its flags may not cross. E46 stands at each port that is
/// reached and whose name another module has before it.
pub fn link<'a>(alloc: Global, parts: &'a [Part<'a>], entry: u32) -> Result<Vec<u8>, LinkError>
    requires { entry < length parts.now }
    ensures output { IfOk result (λ bytes. (o : Output) × (plain_link (map part_view parts.now) entry ≡ Links o)
        × ((p : Program) → Tells o p → JsText (Emit p) bytes.items)) }
    ensures small { IfOk result (λ bytes. length bytes.items < 4294967296) }
    ensures faults { IfErr result (λ e. IfFaults e (λ fs. plain_link (map part_view parts.now) entry ≡ Unlinked fs)) }
{
    let from = &parts[entry as usize];
    let pieces = reached(alloc, parts, &from.name)?;
    match linked(alloc, from, &pieces) {
        Ok(bytes) => Ok(bytes),
        Err(error) => Err(error),
    }
}
