//! The lines of a project.

ghost use Rattle.std.specs.Prelude.{OnOk};
ghost use Rattle.elm_files.specs.Answers.{NoneFull};

use elm_base::fault::fault_line;
use elm_base::text::Text;
use elm_files::{FileError, Files, Got};
use import_graph::{CrawlEnd, Graph, Heads, crawl};
use indexmap::IndexSet;
use project_file::project::{Project, ProjectError, read};
use std::alloc::{AllocError, Global};

/// The most bytes of a project's file.
const MOST: u64 = 1048576;

/// The lines of the project of the files, from the module at `entry`. `core` has the names of the core modules.
pub fn project_lines<F: Files>(
    alloc: Global,
    files: &mut F,
    core: &IndexSet<Text>,
    entry: &str,
) -> Result<Vec<u8>, FileError>
    requires { NoneFull (F.faults files.old) }
{
    let project = project_of(alloc, files)?;
    match crawl(alloc, &Heads, files, &project, core, entry) {
        Ok(graph) => Ok(graph_lines(alloc, &graph)?),
        Err(CrawlEnd::Refused(fault)) => Ok(fault_line(alloc, &fault)?),
        Err(CrawlEnd::File(_)) => Err(FileError::Failed),
        Err(CrawlEnd::NoMemory) => Err(FileError::NoMemory),
    }
}

/// The project that the project's file describes.
fn project_of<F: Files>(alloc: Global, files: &mut F) -> Result<Project, FileError>
    requires { NoneFull (F.faults files.old) }
    ensures { OnOk result (NoneFull (F.faults files.new)) }
{
    match files.read("elm.json", MOST)? {
        Got::Bytes(bytes) => match read(alloc, &bytes) {
            Ok(project) => Ok(project),
            Err(ProjectError::NoMemory) => Err(FileError::NoMemory),
            Err(ProjectError::Fault(_)) => Err(FileError::Failed),
        },
        Got::Absent | Got::TooLong => Err(FileError::Failed),
    }
}

/// The lines of a graph: its modules in order.
fn graph_lines(alloc: Global, graph: &Graph) -> Result<Vec<u8>, AllocError> {
    let mut lines = Vec::new(alloc);
    for number in &graph.order {
        add_module(&mut lines, graph, *number)?;
    }
    Ok(lines)
}

/// Adds the line of a module.
fn add_module(lines: &mut Vec<u8>, graph: &Graph, number: u32) -> Result<(), AllocError> {
    if let Some((name, module)) = graph.modules.get_index(number as usize) {
        lines.extend_from_slice(name.as_bytes())?;
        lines.push(b' ')?;
        lines.extend_from_slice(module.path.as_bytes())?;
    }
    if let Some(uses) = graph.uses.get(number as usize) {
        for used in uses {
            add_name(lines, graph, *used)?;
        }
    }
    lines.push(b'\n')?;
    Ok(())
}

/// Adds the name of a module after a blank.
fn add_name(lines: &mut Vec<u8>, graph: &Graph, number: u32) -> Result<(), AllocError> {
    if let Some((name, _)) = graph.modules.get_index(number as usize) {
        lines.push(b' ')?;
        lines.extend_from_slice(name.as_bytes())?;
    }
    Ok(())
}
