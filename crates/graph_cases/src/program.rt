//! The loop over the projects.

use crate::lines::project_lines;
use crate::names::core_names;
use elm_files::{FileError, HostFiles, Sink};
use std::rt;

/// Prints the graph of the project that each word names, after the first, which is the name of the program.
pub fn run<R: rt::Files + AllocGlobal + Clone, O: Sink>(
    runtime: &R,
    words: &[String],
    out: &mut O,
) -> Result<(), FileError> {
    let alloc = runtime.alloc();
    let core = core_names(alloc)?;
    for word in words.iter().skip(1) {
        let Some((folder, entry)) = word.split_once(':') else {
            return Err(FileError::Failed);
        };
        let mut files = HostFiles::new(runtime.clone()?, String::from_str(alloc, folder)?);
        let lines = project_lines(alloc, &mut files, &core, entry)?;
        out.put(word.as_bytes())?;
        out.put(b"\n")?;
        out.put(&lines)?;
    }
    Ok(())
}
