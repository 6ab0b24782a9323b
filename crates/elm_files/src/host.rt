//! Files of the host below a folder, and a sink over a writer of the host. Contracts say nothing of what they hold, so
//! they tell no tree and no text.
ghost use Rattle.std.specs.Prelude.{◌≡◌, IfOk};
ghost use Rattle.elm_files.specs.Answers.{faults_after};
ghost use Rattle.elm_files.specs.Host.{file_faults, sink_faults};
ghost use Rattle.elm_files.specs.Tree.{IsWithin};

use crate::outside::{FileError, Files, Got, Sink};
use std::alloc::AllocError;
use std::fs::File;
use std::io::{ErrorKind, Read, Write};
use std::path::Path;
use std::{fs, io, rt};

/// The files below a folder of the host.
#[derive(Drop)]
pub struct HostFiles<R> {
    runtime: R,
    root: String,
    faults: u64,
}

impl<R: rt::Files + AllocGlobal> HostFiles<R> {
    /// The files below the folder `root`, none of whose calls has failed.
    pub fn new(runtime: R, root: String) -> Self
        ensures { file_faults result ≡ 0 }
    {
        HostFiles {
            runtime,
            root,
            faults: 0,
        }
    }

    fn place(&self, path: &str) -> Result<String, AllocError> {
        let root = &self.root;
        format!(in self.runtime.alloc(); "{root}/{path}")
    }

    fn fetch(&self, path: &str, limit: u64) -> Result<Got, FileError>
        ensures { IfOk result (IsWithin limit) }
    {
        let place = self.place(path)?;
        match File::open(&self.runtime, place.as_str()) {
            Ok(file) => self.front(file, limit),
            Err(error) if error.kind() == ErrorKind::NotFound => Ok(Got::Absent),
            Err(error) => Err(read_error(&error)),
        }
    }

    // Reads at most one byte more than the limit.
    fn front(&self, file: R::File, limit: u64) -> Result<Got, FileError>
        ensures { IfOk result (IsWithin limit) }
    {
        let mut bytes = Vec::new(self.runtime.alloc());
        let mut front = file.take(limit.saturating_add(1));
        match front.read_to_end(&mut bytes) {
            Ok(_) if bytes.len() as u64 > limit => Ok(Got::TooLong),
            Ok(_) => Ok(Got::Bytes(bytes)),
            Err(error) => Err(read_error(&error)),
        }
    }

    // Out of memory is a failure here, since a folder may have been created already.
    fn store(&self, path: &str, bytes: &[u8]) -> Result<(), FileError> {
        let place = self.place(path)?;
        match write_below(&self.runtime, place.as_str(), bytes) {
            Ok(()) => Ok(()),
            Err(_) => Err(FileError::Failed),
        }
    }
}

// Creates the folders above the file if they are missing.
fn write_below(runtime: &impl rt::Files, place: &str, bytes: &[u8]) -> io::Result<()> {
    if let Some(folder) = Path::new(place).parent() {
        fs::create_dir_all(runtime, folder)?;
    }
    fs::write(runtime, place, bytes)
}

// A read changes nothing, so out of memory is an error of its own.
fn read_error(error: &io::Error) -> FileError {
    if error.kind() == ErrorKind::OutOfMemory {
        FileError::NoMemory
    } else {
        FileError::Failed
    }
}

// The same outcome, with a failure counted.
fn counted<T>(faults: &mut u64, outcome: Result<T, FileError>) -> Result<T, FileError>
    ensures same { result ≡ outcome }
    ensures faults { faults.new ≡ faults_after outcome faults.old }
{
    match outcome {
        Err(FileError::Failed) => {
            *faults = faults.saturating_add(1);
            Err(FileError::Failed)
        }
        other => other,
    }
}

impl<R: rt::Files + AllocGlobal> Files for HostFiles<R> {
    ghost use Rattle.std.specs.Prelude.{None};
    ghost use Rattle.elm_files.specs.Host.{file_faults};

    ghost tree = { λ _. None };

    ghost faults = { λ h _. file_faults h };

    fn read(&mut self, path: &str, limit: u64) -> Result<Got, FileError> {
        let outcome = self.fetch(path, limit);
        counted(&mut self.faults, outcome)
    }

    /// Creates the folders above the file if they are missing.
    fn write(&mut self, path: &str, bytes: &[u8]) -> Result<(), FileError> {
        let outcome = self.store(path, bytes);
        counted(&mut self.faults, outcome)
    }
}

/// A writer of the host, such as standard output. Each piece is flushed.
#[derive(Drop)]
pub struct HostSink<W> {
    writer: W,
    faults: u64,
}

impl<W: Write> HostSink<W> {
    /// The sink over `writer`, none of whose calls has failed.
    pub fn new(writer: W) -> Self
        ensures { sink_faults result ≡ 0 }
    {
        HostSink { writer, faults: 0 }
    }

    fn deliver(&mut self, bytes: &[u8]) -> Result<(), FileError>
        ensures { sink_faults self.new ≡ sink_faults self.old }
    {
        match write_through(&mut self.writer, bytes) {
            Ok(()) => Ok(()),
            Err(_) => Err(FileError::Failed),
        }
    }
}

fn write_through<W: Write>(writer: &mut W, bytes: &[u8]) -> io::Result<()> {
    writer.write_all(bytes)?;
    writer.flush()
}

impl<W: Write> Sink for HostSink<W> {
    ghost use Rattle.std.specs.Prelude.{None};
    ghost use Rattle.elm_files.specs.Host.{sink_faults};

    ghost text = { λ _. None };

    ghost faults = { sink_faults };

    fn put(&mut self, bytes: &[u8]) -> Result<(), FileError> {
        let outcome = self.deliver(bytes);
        counted(&mut self.faults, outcome)
    }
}
