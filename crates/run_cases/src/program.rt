//! The loop over the runs.

use elm_files::{FileError, Files, Got, MemFiles, MemSink, Sink};
use run_files::{Ended, RunEnd, run};
use std::alloc::Global;

/// The most bytes of a file.
const MOST: u64 = 4194304;

/// Does each run, and prints the paths of its files and the lines that it puts.
pub fn run_all<F: Files, O: Sink>(
    alloc: Global,
    words: &[String],
    files: &mut F,
    out: &mut O,
) -> Result<(), FileError> {
    let mut rest = match words {
        [_, rest @ ..] => rest,
        [] => words,
    };
    while let [output, inputs, fuel, others @ ..] = rest {
        let fuel = match fuel.parse::<u32>() {
            Ok(fuel) => fuel,
            Err(_) => return Err(FileError::Failed),
        };
        let title = format!(in alloc; "{output} {inputs}\n")?;
        out.put(title.as_bytes())?;
        let lines = lines_of(alloc, files, output, inputs, fuel)?;
        out.put(&lines)?;
        rest = others;
    }
    Ok(())
}

/// The bytes of a file.
fn bytes_of<F: Files>(files: &mut F, path: &str) -> Result<Vec<u8>, FileError> {
    match files.read(path, MOST)? {
        Got::Bytes(bytes) => Ok(bytes),
        Got::Absent | Got::TooLong => Err(FileError::Failed),
    }
}

/// What a run puts, or the line of the fault that refuses it.
fn lines_of<F: Files>(
    alloc: Global,
    files: &mut F,
    output: &str,
    inputs: &str,
    fuel: u32,
) -> Result<Vec<u8>, FileError> {
    let program = bytes_of(files, output)?;
    let given = bytes_of(files, inputs)?;
    let mut held = MemFiles::new(alloc, Vec::new(alloc));
    held.insert(output, &program)?;
    held.insert(inputs, &given)?;
    let mut sink = MemSink::new(alloc, Vec::new(alloc));
    match run(alloc, &mut held, &mut sink, output, inputs, fuel) {
        Ok(Ended::Refused(line)) => Ok(line),
        Ok(Ended::Ready | Ended::Stopped) => Ok(Vec::from_slice(alloc, sink.bytes())?),
        Err(RunEnd::NoMemory) => Err(FileError::NoMemory),
        Err(RunEnd::File(_) | RunEnd::Sink) => Err(FileError::Failed),
    }
}
