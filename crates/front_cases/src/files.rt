//! Files and a sink in memory, of which some calls fail.

use crate::print::{show, show_text};
use elm_files::{Files, MemFiles, MemSink, Sink};
use std::alloc::{AllocError, Global};

/// Adds the answers of calls on files and on a sink.
pub fn rows(alloc: Global, out: &mut String) -> Result<(), AllocError> {
    in_memory(alloc, out)?;
    to_memory(alloc, out)
}

/// Adds the answer of a read.
pub fn add_read<F: Files>(
    files: &mut F,
    path: &str,
    limit: u64,
    out: &mut String,
) -> Result<(), AllocError> {
    show(out, "read", &files.read(path, limit))
}

/// Adds the answer of a write.
pub fn add_write<F: Files>(
    files: &mut F,
    path: &str,
    bytes: &[u8],
    out: &mut String,
) -> Result<(), AllocError> {
    show(out, "write", &files.write(path, bytes))
}

/// Adds the answer of a sink.
pub fn add_put<S: Sink>(sink: &mut S, bytes: &[u8], out: &mut String) -> Result<(), AllocError> {
    show(out, "put", &sink.put(bytes))
}

/// Files of which the calls 1 and 4 fail.
fn in_memory(alloc: Global, out: &mut String) -> Result<(), AllocError> {
    let path = "src/A.elm";
    let mut files = MemFiles::new(alloc, vec![in alloc; 1, 4]?);
    files.insert(path, b"one")?;
    for limit in [3, 3, 2] {
        add_read(&mut files, path, limit, out)?;
    }
    add_write(&mut files, path, b"two", out)?;
    show(out, "is there", &files.get(path).is_some())?;
    add_write(&mut files, path, b"three", out)?;
    add_read(&mut files, path, 9, out)?;
    show(out, "calls", &files.calls())?;
    files.insert(path, b"four")?;
    files.remove(path);
    show(out, "is there", &files.get(path).is_some())
}

/// A sink of which the call 1 fails.
fn to_memory(alloc: Global, out: &mut String) -> Result<(), AllocError> {
    let mut sink = MemSink::new(alloc, vec![in alloc; 1]?);
    for bytes in [b"one ".as_slice(), b"lost", b"two"] {
        add_put(&mut sink, bytes, out)?;
    }
    show_text(out, "sink", sink.bytes())?;
    show(out, "calls", &sink.calls())
}
