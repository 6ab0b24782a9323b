//! The traits of files and sinks.
ghost use Rattle.std.specs.Prelude.{◌≡◌, ◌≤◌, ℕ, List, Option, IfOk, OnOk, IfSome};
ghost use Rattle.elm_files.specs.Answers.{FailedIffRose, OnFailed, OnNoMemory, UnlessFailed};
ghost use Rattle.elm_files.specs.Texts.{LongerByPart, longer};
ghost use Rattle.elm_files.specs.Tree.{IsReadOf, IsWithin, SameElsewhere, Tree, with_file};

use std::alloc::AllocError;

/// Files by their paths, each read and written whole.
pub trait Files {
    // The tree of files that the object tells, if it tells one.
    ghost tree: { Self → Option Tree };

    // For each path, by its bytes, how often a call on it failed. A count of 2^64 - 1 is full and stays as it is.
    ghost faults: { Self → List ℕ → ℕ };

    /// The file at `path`, if it has at most `limit` bytes.
    fn read(&mut self, path: &str, limit: u64) -> Result<Got, FileError>
        ensures tree { tree self.new ≡ tree self.old }
        ensures answer { IfOk result (λ got. IfSome (tree self.old) (λ told. IsReadOf (told path.now) limit got)) }
        ensures within { IfOk result (IsWithin limit) }

        ensures failed { FailedIffRose result (faults self.old path.now) (faults self.new path.now) }
        ensures never_falls { (q : List ℕ) → faults self.old q ≤ faults self.new q }
        ensures same_faults { UnlessFailed result (faults self.new ≡ faults self.old) };

    /// Makes `bytes` the file at `path`. After `Failed` that path may hold anything or be absent.
    fn write(&mut self, path: &str, bytes: &[u8]) -> Result<(), FileError>
        ensures ok { OnOk result (tree self.new ≡ with_file (tree self.old) path.now bytes.now) }
        ensures elsewhere { OnFailed result (SameElsewhere path.now (tree self.old) (tree self.new)) }
        ensures no_memory { OnNoMemory result (tree self.new ≡ tree self.old) }

        ensures failed { FailedIffRose result (faults self.old path.now) (faults self.new path.now) }
        ensures never_falls { (q : List ℕ) → faults self.old q ≤ faults self.new q }
        ensures same_faults { UnlessFailed result (faults self.new ≡ faults self.old) };
}

/// What a read finds.
#[derive(Debug, Drop)]
pub enum Got {
    /// There is no file at the path.
    Absent,
    /// The bytes of the file.
    Bytes(Vec<u8>),
    /// The file has more bytes than the limit.
    TooLong,
}

/// Why a call on a file or a sink returns no result.
#[derive(Clone, Copy, Debug, PartialEq, Eq)]
pub enum FileError {
    /// The file or the sink failed.
    Failed,
    /// Memory ran out. The call changed nothing.
    NoMemory,
}

impl From<AllocError> for FileError {
    ghost use Rattle.std.specs.Prelude.{◌≡◌};
    ghost use Rattle.elm_files.specs.declared.outside.FileError.TheVariants.{NoMemory};

    ghost from_gives = { λ _ error. error ≡ NoMemory };

    fn from(_error: AllocError) -> FileError {
        FileError::NoMemory
    }
}

/// Takes text piece by piece.
pub trait Sink {
    // The text that was put so far, if the object tells it.
    ghost text: { Self → Option (List ℕ) };

    // How often a call failed. A count of 2^64 - 1 is full and stays as it is.
    ghost faults: { Self → ℕ };

    /// Puts `bytes` after what was put before. After `Failed`, a beginning of `bytes` may have been put.
    fn put(&mut self, bytes: &[u8]) -> Result<(), FileError>
        ensures ok { OnOk result (text self.new ≡ longer (text self.old) bytes.now) }
        ensures part { OnFailed result (LongerByPart (text self.old) bytes.now (text self.new)) }
        ensures no_memory { OnNoMemory result (text self.new ≡ text self.old) }

        ensures failed { FailedIffRose result (faults self.old) (faults self.new) }
        ensures never_falls { faults self.old ≤ faults self.new }
        ensures same_faults { UnlessFailed result (faults self.new ≡ faults self.old) };
}
