//! The core library as modules.

ghost use Rattle.std.specs.Prelude.{◌≡◌, ◌++◌, ◌∷◌, [], ℕ, List, Some, map, option_map, false, IfOk, OnOk};
ghost use Rattle.std.specs.List.{list_any};
ghost use Rattle.std.specs.Str.{bytes_eq};
ghost use Rattle.core_modules.specs.Library as core;
ghost use Rattle.import_graph.specs.Places.{text_within};
ghost use Rattle.import_graph.specs.ModuleWalkView.{module_view, import_view};
ghost use Rattle.import_graph.specs.Words.{word_view};
ghost use Rattle.project_parts.specs.Modules.{AreCoreModules, core_names, names_in};
ghost use Rattle.project_parts.specs.Library.{found_among, import_among, ImportsAmong, IsNext, IsCore};

use core_modules::library as texts;
use elm_base::text::Text;
use import_graph::{Found, Import, Module, Written, imports};
use indexmap::IndexSet;
use std::alloc::{AllocError, Global};

/// The most bytes that the text of a module may have.
const MAX_TEXT: usize = 4_194_304;

/// The core library.
#[derive(Drop)]
pub struct Library {
    /// Its modules, in the order in which a build takes them. Each imports modules that stand before it.
    pub modules: Vec<Module>,
    /// Their names, in the same order.
    pub names: IndexSet<Text>,
}

/// Which modules have the name `name`, where no others have names than those of the core library with these names.
fn found_among(names: &IndexSet<Text>, name: &Text) -> Found
    ensures { result ≡ found_among names.now.keys name.now }
{
    if names.contains(name) {
        Found::Core
    } else {
        Found::Nowhere
    }
}

/// An import of a text of the core library, where the modules before it have these names.
fn import_among(names: &IndexSet<Text>, written: &Written) -> Result<Import, AllocError>
    ensures { IfOk result (λ i. import_view i ≡ import_among names.now.keys (word_view written.now)) }
{
    let name = written.name.clone()?;
    let found = found_among(names, &name);
    Ok(Import {
        name,
        place: written.place,
        found,
    })
}

/// What the text of a module of the core library imports, where the modules before it have these names.
fn imports_among(
    alloc: Global,
    names: &IndexSet<Text>,
    text: &[u8],
) -> Result<Vec<Import>, AllocError>
    ensures { IfOk result (λ v. ImportsAmong names.now.keys (Some text.now) (map import_view v.items)) }
{
    let written = imports(alloc, text)?;
    let mut found = Vec::with_capacity(alloc, written.len())?;
    for import in &written {
        found.push(import_among(names, import)?)?;
    }
    Ok(found)
}

/// The text, unless it is over the limit.
fn within(text: Vec<u8>) -> Option<Vec<u8>>
    ensures { option_map (λ t. t.items) result ≡ text_within text.items }
{
    if text.len() > MAX_TEXT {
        None
    } else {
        Some(text)
    }
}

/// What a module of the core library imports, where the modules before it have these names.
fn imports_of(
    alloc: Global,
    names: &IndexSet<Text>,
    text: &Option<Vec<u8>>,
) -> Result<Vec<Import>, AllocError>
    ensures { IfOk result (λ v. ImportsAmong names.now.keys (option_map (λ t. t.items) text.now)
        (map import_view v.items)) }
{
    match text {
        Some(text) => imports_among(alloc, names, text),
        None => Ok(Vec::new(alloc)),
    }
}

/// The module of this name and text, where the modules of the core library before it have these names.
fn module_of(
    alloc: Global,
    names: &IndexSet<Text>,
    given: texts::CoreModule,
) -> Result<Module, AllocError>
    ensures { IfOk result (λ m. IsNext names.now.keys (core.module_view given) (module_view m)) }
{
    let texts::CoreModule { name: path, text } = given;
    let text = within(text);
    let imports = imports_of(alloc, names, &text)?;
    let name = Text::copy(alloc, path.as_str().as_bytes())?;
    Ok(Module {
        name,
        path,
        text,
        imports,
    })
}

impl Library {
    /// No modules.
    fn empty(alloc: Global) -> Library
        ensures { IsCore [] result }
    {
        let modules = Vec::new(alloc);
        let names = IndexSet::new(alloc);
        Library { modules, names }
    }

    /// Adds the next module of the core library, which has another name than those before it.
    fn push(&mut self, alloc: Global, given: texts::CoreModule) -> Result<(), AllocError>
        ensures { OnOk result ((before : List (List ℕ × List ℕ)) → IsCore before self.old
            → list_any (bytes_eq (core.module_view given).0) (names_in before) ≡ false
            → IsCore (before ++ core.module_view given ∷ []) self.new) }
    {
        let module = module_of(alloc, &self.names, given)?;
        self.names.insert(module.name.clone()?)?;
        self.modules.push(module)?;
        Ok(())
    }
}

/// The core library. The error means that memory ran out.
pub fn core_library(alloc: Global) -> Result<Library, AllocError>
    ensures modules { IfOk result (λ l. AreCoreModules [] core.core_library (map module_view l.modules.items)) }
    ensures names { IfOk result (λ l. l.names.keys ≡ core_names) }
{
    let mut library = Library::empty(alloc);
    let all = texts::core_library(alloc)?;
    for one in all {
        library.push(alloc, one)?;
    }
    Ok(library)
}
