//! Files and a sink in memory, for tests and for builds that touch no disk.
ghost use Rattle.std.specs.Prelude.{◌≡◌, ◌↔◌, ◌++◌, [], Contains, IfOk, IsTrue, None, OnErr, OnOk, Some, option_map};
ghost use Rattle.elm_files.specs.Answers.{IsFailed, OnFailed, OnNoMemory};
ghost use Rattle.elm_files.specs.Memory.{empty_tree, files_in, one_failed, one_made, plan_after, plan_in, plan_of};
ghost use Rattle.elm_files.specs.Memory.{sink_plan_of, text_in};
ghost use Rattle.elm_files.specs.Texts.{LongerByPart};
ghost use Rattle.elm_files.specs.Tree.{IsReadOf, IsWithin, SameElsewhere, put};

use crate::outside::{FileError, Files, Got, Sink};
use std::alloc::{AllocError, Global};
use std::collections::BTreeMap;

// The numbers of the calls that are to fail, how many calls there were, and how many of them failed.
#[derive(Drop)]
struct Calls {
    failing: Vec<u64>,
    made: u64,
    faults: u64,
}

impl Calls {
    fn new(failing: Vec<u64>) -> Self
        ensures { plan_in result ≡ record { failing = failing.items; calls = 0; faults = 0 } }
    {
        Calls {
            failing,
            made: 0,
            faults: 0,
        }
    }

    // Whether the next call is to fail.
    fn is_failing(&self) -> bool
        ensures { IsTrue result ↔ Contains (plan_in self.now).failing (plan_in self.now).calls }
    {
        self.failing.contains(&self.made)
    }

    fn count_made(&mut self)
        ensures { plan_in self.new ≡ one_made (plan_in self.old) }
    {
        self.made = self.made.saturating_add(1);
    }

    fn count_failed(&mut self)
        ensures { plan_in self.new ≡ one_failed (plan_in self.old) }
    {
        self.count_made();
        self.faults = self.faults.saturating_add(1);
    }
}

/// Files in memory. Exactly the calls of `read` and `write` fail whose numbers it was given. Both are numbered
/// together, from 0.
#[derive(Drop)]
pub struct MemFiles {
    alloc: Global,
    held: BTreeMap<String, Vec<u8>>,
    calls: Calls,
}

impl MemFiles {
    /// No files. The calls with the numbers in `failing` are to fail.
    pub fn new(alloc: Global, failing: Vec<u64>) -> Self
        ensures files { files_in result ≡ empty_tree }
        ensures plan { plan_of result ≡ record { failing = failing.items; calls = 0; faults = 0 } }
    {
        MemFiles {
            alloc,
            held: BTreeMap::new(alloc),
            calls: Calls::new(failing),
        }
    }

    /// Makes `bytes` the file at `path`. This call is not numbered.
    pub fn insert(&mut self, path: &str, bytes: &[u8]) -> Result<(), AllocError>
        ensures ok { OnOk result (files_in self.new ≡ put (files_in self.old) path.now (Some bytes.now)) }
        ensures err { OnErr result (files_in self.new ≡ files_in self.old) }
        ensures plan { plan_of self.new ≡ plan_of self.old }
    {
        let key = String::from_str(self.alloc, path)?;
        let file = Vec::from_slice(self.alloc, bytes)?;
        self.held.insert(key, file)?;
        Ok(())
    }

    /// Makes `path` absent. This call is not numbered.
    pub fn remove(&mut self, path: &str)
        ensures files { files_in self.new ≡ put (files_in self.old) path.now None }
        ensures plan { plan_of self.new ≡ plan_of self.old }
    {
        self.held.remove(path);
    }

    /// The file at `path`. This call is not numbered.
    pub fn get(&self, path: &str) -> Option<&[u8]>
        ensures { option_map (λ bytes. bytes.now) result ≡ files_in self.now path.now }
    {
        match self.held.get(path) {
            None => None,
            Some(bytes) => Some(bytes.as_slice()),
        }
    }

    /// How many calls of `read` and `write` were numbered: 2^64 - 1 for that many or more.
    pub fn calls(&self) -> u64
        ensures { result ≡ (plan_of self.now).calls }
    {
        self.calls.made
    }

    // What the path holds, if it is within the limit.
    fn found(&self, path: &str, limit: u64) -> Result<Got, AllocError>
        ensures answer { IfOk result (IsReadOf (files_in self.now path.now) limit) }
        ensures within { IfOk result (IsWithin limit) }
    {
        match self.get(path) {
            None => Ok(Got::Absent),
            Some(bytes) if bytes.len() as u64 > limit => Ok(Got::TooLong),
            Some(bytes) => Ok(Got::Bytes(Vec::from_slice(self.alloc, bytes)?)),
        }
    }
}

impl Files for MemFiles {
    ghost use Rattle.std.specs.Prelude.{Some};
    ghost use Rattle.elm_files.specs.Memory.{files_in, plan_of};

    ghost tree = { λ m. Some (files_in m) };

    ghost faults = { λ m _. (plan_of m).faults };

    fn read(&mut self, path: &str, limit: u64) -> Result<Got, FileError>
        ensures files { files_in self.new ≡ files_in self.old }
        ensures answer { IfOk result (IsReadOf (files_in self.old path.now) limit) }
        ensures within { IfOk result (IsWithin limit) }
        ensures failed { IsFailed result ↔ Contains (plan_of self.old).failing (plan_of self.old).calls }
        ensures plan { plan_of self.new ≡ plan_after result (plan_of self.old) }
    {
        if self.calls.is_failing() {
            self.calls.count_failed();
            return Err(FileError::Failed);
        }
        let got = self.found(path, limit)?;
        self.calls.count_made();
        Ok(got)
    }

    /// If it fails, the path is absent afterwards.
    fn write(&mut self, path: &str, bytes: &[u8]) -> Result<(), FileError>
        ensures ok { OnOk result (files_in self.new ≡ put (files_in self.old) path.now (Some bytes.now)) }
        ensures removed { OnFailed result (files_in self.new ≡ put (files_in self.old) path.now None) }
        ensures no_memory { OnNoMemory result (files_in self.new ≡ files_in self.old) }
        ensures elsewhere { OnFailed result (SameElsewhere path.now (Some (files_in self.old))
            (Some (files_in self.new))) }
        ensures failed { IsFailed result ↔ Contains (plan_of self.old).failing (plan_of self.old).calls }
        ensures plan { plan_of self.new ≡ plan_after result (plan_of self.old) }
    {
        if self.calls.is_failing() {
            self.remove(path);
            self.calls.count_failed();
            return Err(FileError::Failed);
        }
        self.insert(path, bytes)?;
        self.calls.count_made();
        Ok(())
    }
}

/// A sink in memory. Exactly the calls of `put` fail whose numbers it was given, counted from 0.
#[derive(Drop)]
pub struct MemSink {
    held: Vec<u8>,
    calls: Calls,
}

impl MemSink {
    /// A sink without text. The calls with the numbers in `failing` are to fail.
    pub fn new(alloc: Global, failing: Vec<u64>) -> Self
        ensures text { text_in result ≡ [] }
        ensures plan { sink_plan_of result ≡ record { failing = failing.items; calls = 0; faults = 0 } }
    {
        MemSink {
            held: Vec::new(alloc),
            calls: Calls::new(failing),
        }
    }

    /// What was put so far.
    pub fn bytes(&self) -> &[u8]
        ensures { result.now ≡ text_in self.now }
    {
        self.held.as_slice()
    }

    /// How many calls of `put` were numbered: 2^64 - 1 for that many or more.
    pub fn calls(&self) -> u64
        ensures { result ≡ (sink_plan_of self.now).calls }
    {
        self.calls.made
    }
}

impl Sink for MemSink {
    ghost use Rattle.std.specs.Prelude.{Some};
    ghost use Rattle.elm_files.specs.Memory.{sink_plan_of, text_in};

    ghost text = { λ s. Some (text_in s) };

    ghost faults = { λ s. (sink_plan_of s).faults };

    /// If it fails, nothing is put.
    fn put(&mut self, bytes: &[u8]) -> Result<(), FileError>
        ensures ok { OnOk result (text_in self.new ≡ text_in self.old ++ bytes.now) }
        ensures err { OnErr result (text_in self.new ≡ text_in self.old) }
        ensures part { OnFailed result (LongerByPart (Some (text_in self.old)) bytes.now (Some (text_in self.new))) }
        ensures failed { IsFailed result ↔ Contains (sink_plan_of self.old).failing (sink_plan_of self.old).calls }
        ensures plan { sink_plan_of self.new ≡ plan_after result (sink_plan_of self.old) }
    {
        if self.calls.is_failing() {
            self.calls.count_failed();
            return Err(FileError::Failed);
        }
        self.held.extend_from_slice(bytes)?;
        self.calls.count_made();
        Ok(())
    }
}
