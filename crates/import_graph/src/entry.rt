//! The module of an entry.

ghost use Rattle.std.specs.Prelude.{◌≡◌, [], IfOk, IfErr, OnOk, IfSome, IfNone};
ghost use Rattle.elm_files.specs.Answers.{NoneFull};
ghost use Rattle.import_graph.specs.Places.{HasCause};
ghost use Rattle.import_graph.specs.Modules.{Source};
ghost use Rattle.import_graph.specs.Entry.{IsEntry, IsEntryName, HasNoEntry};
ghost use Rattle.import_graph.specs.Plain.{IsPlain};
ghost use Rattle.import_graph.specs.ModuleWalkView.{setting, source_view, module_view};
ghost use Rattle.project_file.specs.View.{directories_of};

use crate::entries::entry_name;
use crate::places::{ReadError, Source as Found, read};
use crate::walk::Module;
use elm_base::name::ModName;
use elm_base::text::Text;
use elm_files::Files;
use indexmap::IndexSet;
use project_file::paths::{is_absolute, normal};
use project_file::project::Project;
use std::alloc::{AllocError, Global};

/// The module of the entry that is written as the path `written`, with no imports yet, if there is one.
pub(crate) fn entry_module<F: Files>(
    alloc: Global,
    files: &mut F,
    project: &Project,
    core: &IndexSet<Text>,
    written: &str,
) -> Result<Option<Module>, ReadError>
    requires { NoneFull (F.faults files.old) }
    ensures found { IfOk result (λ answer. IfSome answer (λ m. IfSome (F.tree files.old) (λ tree.
        IsEntry (setting tree project.now core.now.keys) written.now (source_view m)))) }
    ensures only { IfOk result (λ answer. IfSome answer (λ m. IfSome (F.tree files.old) (λ tree. (other : Source)
        → IsEntry (setting tree project.now core.now.keys) written.now other → other ≡ source_view m))) }
    ensures plain { IfOk result (λ answer. IfSome answer (λ m. IsPlain core.now.keys (module_view m))) }
    ensures named { IfOk result (λ answer. IfSome answer (λ m.
        IsEntryName (directories_of project.now) written.now m.name)) }
    ensures none { IfOk result (λ answer. IfNone answer (IfSome (F.tree files.old) (λ tree.
        HasNoEntry (setting tree project.now core.now.keys) written.now))) }
    ensures tree { F.tree files.new ≡ F.tree files.old }
    ensures no_fault { OnOk result (F.faults files.new ≡ F.faults files.old) }
    ensures error { IfErr result (λ e. HasCause e (F.faults files.old) (F.faults files.new)) }
{
    if is_absolute(written) {
        return Ok(None);
    }
    let path = normal(alloc, written)?;
    let Some(name) = entry_name(alloc, &project.directories, &path)? else {
        return Ok(None);
    };
    let name = name.as_text().clone()?;
    if core.contains(&name) {
        return Ok(None);
    }
    match read(files, path)? {
        Some(source) => Ok(Some(Module {
            name,
            path: source.path,
            text: source.text,
            imports: Vec::new(alloc),
        })),
        None => Ok(None),
    }
}
