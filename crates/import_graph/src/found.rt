//! Which modules have a name.

ghost use Rattle.std.specs.Prelude.{◌≡◌, IfOk, IfErr, OnOk, IfSome, if◌then◌else◌};
ghost use Rattle.std.specs.Str.{is_utf8};
ghost use Rattle.elm_files.specs.Answers.{NoneFull};
ghost use Rattle.import_graph.specs.Places as places;
ghost use Rattle.import_graph.specs.Places.{place_of, place_view, HasCause};
ghost use Rattle.project_file.specs.View.{directories_of};
ghost use Rattle.import_graph.specs.Modules as plain;
ghost use Rattle.import_graph.specs.ModuleWalkView.{setting, located_view};
ghost use Rattle.import_graph.specs.Walk.{IsPlainPlace, IsPlainFound};

use crate::places::{Place, ReadError, Source, find};
use elm_base::text::Text;
use elm_files::Files;
use indexmap::IndexSet;
use project_file::project::Project;
use std::alloc::Global;
use std::str::from_utf8;

/// Which modules have a name.
#[derive(Clone, Copy, Debug, PartialEq, Eq)]
pub enum Found {
    /// None.
    Nowhere,
    /// A core module alone.
    Core,
    /// A file of the project alone.
    File,
    /// More than one.
    Several,
}

/// Which modules have a name, with the file.
#[derive(Debug, Drop)]
pub(crate) enum Located {
    Nowhere,
    Core,
    File(Source),
    Several,
}

/// Which modules have the name `name`. `core` has the names of the core modules.
pub(crate) fn locate<F: Files>(
    alloc: Global,
    files: &mut F,
    project: &Project,
    core: &IndexSet<Text>,
    name: &Text,
) -> Result<Located, ReadError>
    requires { NoneFull (F.faults files.old) }
    ensures located { IfOk result (λ located. IfSome (F.tree files.old) (λ tree.
        located_view located ≡ plain.located (setting tree project.now core.now.keys) name.now)) }
    ensures plain { IfOk result (λ located. IsPlainFound core.now.keys name.now (located_view located)) }
    ensures tree { F.tree files.new ≡ F.tree files.old }
    ensures no_fault { OnOk result (F.faults files.new ≡ F.faults files.old) }
    ensures error { IfErr result (λ e. HasCause e (F.faults files.old) (F.faults files.new)) }
{
    let place = place(alloc, files, project, name)?;
    Ok(located_by(core.contains(name), place))
}

/// Where the project has the name.
fn place<F: Files>(
    alloc: Global,
    files: &mut F,
    project: &Project,
    name: &Text,
) -> Result<Place, ReadError>
    requires { NoneFull (F.faults files.old) }
    ensures place { IfOk result (λ place. IfSome (F.tree files.old) (λ tree. place_view place
        ≡ (if is_utf8 name.now then place_of tree (directories_of project.now) name.now else places.Nowhere))) }
    ensures plain { IfOk result (λ place. IsPlainPlace name.now (place_view place)) }
    ensures tree { F.tree files.new ≡ F.tree files.old }
    ensures no_fault { OnOk result (F.faults files.new ≡ F.faults files.old) }
    ensures error { IfErr result (λ e. HasCause e (F.faults files.old) (F.faults files.new)) }
{
    match from_utf8(name.as_bytes()) {
        Ok(text) => find(alloc, files, &project.directories, text),
        Err(_) => Ok(Place::Nowhere),
    }
}

/// Which modules have a name, by whether a core module has it and by where the project has it.
fn located_by(is_core: bool, place: Place) -> Located
    ensures { located_view result ≡ plain.located_by is_core (place_view place) }
{
    match place {
        Place::Nowhere => {
            if is_core {
                Located::Core
            } else {
                Located::Nowhere
            }
        }
        Place::At(source) => {
            if is_core {
                Located::Several
            } else {
                Located::File(source)
            }
        }
        Place::Several => Located::Several,
    }
}
