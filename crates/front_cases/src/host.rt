//! Files and a sink of the host.

use crate::files::{add_put, add_read, add_write};
use elm_files::{HostFiles, HostSink};
use std::fs::File;
use std::{env, fs, io, process};

/// Adds the answers of calls below a folder that is made for them, and removes the folder.
pub fn rows(rt: HostRuntime, out: &mut String) -> io::Result<()> {
    let temporary = env::temp_dir(&rt)?;
    let folder = temporary.as_path().display();
    let number = process::id(rt.process());
    let root = format!(in rt.alloc(); "{folder}/elm_files_{number}")?;
    let mut files = HostFiles::new(rt, root.clone()?);
    add_write(&mut files, "src/A.elm", b"one", out)?;
    for (path, limit) in [("src/A.elm", 3), ("src/A.elm", 2), ("src/B.elm", 2)] {
        add_read(&mut files, path, limit, out)?;
    }
    add_write(&mut files, "src/A.elm/B", b"two", out)?;
    add_write(&mut files, "src", b"two", out)?;
    let place = format!(in rt.alloc(); "{root}/out")?;
    let mut sink = HostSink::new(File::create(&rt, place.as_str())?);
    add_put(&mut sink, b"one ", out)?;
    add_put(&mut sink, b"two", out)?;
    add_read(&mut files, "out", 9, out)?;
    fs::remove_dir_all(&rt, root.as_str())
}
