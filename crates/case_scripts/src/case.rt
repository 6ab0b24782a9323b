//! A case: files in memory, and the commands over them.

ghost use Rattle.std.specs.Prelude.{◌≡◌};
ghost use Rattle.elm_files.specs.Memory.{plan_of};

use crate::line::Calls;
use build_workers::OpenGate;
use commands::top;
use elm_files::{MemFiles, MemSink};
use std::alloc::{AllocError, Global};
use std::mem::replace;
use std::sync::Wait;
use std::thread::Threads;

/// A file of a case.
#[derive(Drop)]
struct Named {
    path: String,
    /// What it holds, or none if it is absent.
    bytes: Option<Vec<u8>>,
}

/// The files of a case, and which calls of its next command are to fail. Of two files of one path the later one counts.
#[derive(Drop)]
pub struct Case {
    alloc: Global,
    files: Vec<Named>,
    files_failing: Vec<u64>,
    out_failing: Vec<u64>,
    err_failing: Vec<u64>,
}

/// A command that is over: its status, and what it printed.
#[derive(Drop)]
pub struct Ran {
    pub status: u8,
    pub out: MemSink,
    pub err: MemSink,
}

impl Case {
    /// A case without files.
    pub fn new(alloc: Global) -> Case {
        Case {
            alloc,
            files: Vec::new(alloc),
            files_failing: Vec::new(alloc),
            out_failing: Vec::new(alloc),
            err_failing: Vec::new(alloc),
        }
    }

    /// Makes the file at `path` an empty one.
    pub fn make(&mut self, path: &str) -> Result<(), AllocError> {
        self.name(path, Some(Vec::new(self.alloc)))
    }

    /// Makes `path` absent.
    pub fn remove(&mut self, path: &str) -> Result<(), AllocError> {
        self.name(path, None)
    }

    fn name(&mut self, path: &str, bytes: Option<Vec<u8>>) -> Result<(), AllocError> {
        let path = String::from_str(self.alloc, path)?;
        self.files.push(Named { path, bytes })?;
        Ok(())
    }

    /// Adds a text to the file that was made last.
    pub fn add(&mut self, text: &[u8]) -> Result<(), AllocError> {
        match self.files.last_mut() {
            Some(
                Named {
                    bytes: Some(bytes),
                    ..
                },
            ) => bytes.extend_from_slice(text),
            _ => Ok(()),
        }
    }

    /// Lets a call of the next command fail.
    pub fn fail(&mut self, calls: Calls, number: u64) -> Result<(), AllocError> {
        let numbers = match calls {
            Calls::Files => &mut self.files_failing,
            Calls::Out => &mut self.out_failing,
            Calls::Err => &mut self.err_failing,
        };
        numbers.push(number)?;
        Ok(())
    }

    /// The file at `path`, or none if no line has named it.
    pub fn file(&self, path: &str) -> Option<Option<&[u8]>> {
        for named in self.files.iter().rev() {
            if named.path.as_str() == path {
                return Some(match &named.bytes {
                    Some(bytes) => Some(bytes.as_slice()),
                    None => None,
                });
            }
        }
        None
    }

    /// Runs a command, whose words have a space before each of them.
    pub fn run<R: Threads + Wait + Sync>(
        &mut self,
        rt: &R,
        words: &str,
    ) -> Result<Ran, AllocError> {
        let alloc = self.alloc;
        let words = words_of(alloc, words)?;
        let mut files = MemFiles::new(alloc, replace(&mut self.files_failing, Vec::new(alloc)));
        let mut out = MemSink::new(alloc, replace(&mut self.out_failing, Vec::new(alloc)));
        let mut err = MemSink::new(alloc, replace(&mut self.err_failing, Vec::new(alloc)));
        fill(&mut files, &self.files)?;
        let status = top(rt, alloc, &words, &mut files, &mut out, &mut err, &OpenGate);
        self.keep(&files)?;
        Ok(Ran { status, out, err })
    }

    /// Keeps what a command left.
    fn keep(&mut self, files: &MemFiles) -> Result<(), AllocError> {
        for named in &mut self.files {
            named.bytes = match files.get(&named.path) {
                Some(bytes) => Some(Vec::from_slice(self.alloc, bytes)?),
                None => None,
            };
        }
        Ok(())
    }
}

/// Puts the files of a case into files in memory.
fn fill(files: &mut MemFiles, named: &[Named]) -> Result<(), AllocError>
    ensures { plan_of files.new ≡ plan_of files.old }
{
    for file in named {
        match &file.bytes {
            Some(bytes) => files.insert(&file.path, bytes)?,
            None => files.remove(&file.path),
        }
    }
    Ok(())
}

/// The words that stand after spaces.
fn words_of(alloc: Global, text: &str) -> Result<Vec<String>, AllocError> {
    let mut words = Vec::new(alloc);
    for word in text.split(' ').skip(1) {
        words.push(String::from_str(alloc, word)?)?;
    }
    Ok(words)
}
