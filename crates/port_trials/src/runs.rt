//! Rows that perform a run of the program.

use crate::calls::write_lines;
use desk_base::MemFiles;
use mate_desk::Status;
use mate_ports::{FolderShelf, StdSink, StdSource, perform, perform_in_memory};
use std::alloc::Global;
use std::fs::Files;
use std::io::Read;
use std::{fs, mem};
use trial_rows::{Row, RowError};

/// The file of the working folder to which a run writes.
const OUTPUT: &str = "output";

/// The words of a run.
fn words_of(alloc: Global, text: &str) -> Result<Vec<String>, RowError> {
    let mut words = Vec::new(alloc);
    for word in text.split(' ') {
        words.push(String::from_str(alloc, word)?)?;
    }
    Ok(words)
}

/// The bytes of a file of the working folder.
fn bytes_of<R: Files>(alloc: Global, system: &R, name: &str) -> Result<Vec<u8>, RowError> {
    let Ok(mut file) = fs::open(system, name) else {
        return Err(RowError::Name);
    };
    let mut bytes = Vec::new(alloc);
    match file.read_to_end(&mut bytes) {
        Ok(_) => Ok(bytes),
        Err(_) => Err(RowError::Name),
    }
}

/// Writes how a run ended, and what it wrote.
fn write_run(row: &mut Row, status: Status, output: &[u8]) {
    row.write_number(status.code());
    row.write(" ");
    write_lines(row, output);
}

/// The status of a run on files of the working folder.
fn performed<R: Files>(
    alloc: Global,
    system: &R,
    input: &str,
    words: Vec<String>,
) -> Result<Status, RowError> {
    let Ok(input) = fs::open(system, input) else {
        return Err(RowError::Name);
    };
    let Ok(output) = fs::create(system, OUTPUT) else {
        return Err(RowError::Name);
    };
    let mut source = StdSource::new(input);
    let mut sink = StdSink::new(output);
    let mut shelf = FolderShelf::new(system);
    Ok(perform(Ok(words), &mut source, &mut sink, &mut shelf, alloc))
}

/// Runs `run INPUT WORDS`: the status of a run with a file of the working folder as input and the folder's files, and
/// its output.
pub fn run_row<R: Files>(system: &R, row: &mut Row) -> Result<(), RowError> {
    let input = row.word()?;
    let words = words_of(row.alloc, row.rest())?;
    let status = performed(row.alloc, system, input, words)?;
    let wrote = bytes_of(row.alloc, system, OUTPUT)?;
    write_run(row, status, wrote.as_slice());
    Ok(())
}

/// Runs `memory INPUT WORDS`: the same over the bytes of the file, a vector and the files in memory, and the number of
/// bytes of the input that were not taken.
pub fn memory_row<R: Files>(
    system: &R,
    files: &mut MemFiles,
    row: &mut Row,
) -> Result<(), RowError> {
    let alloc = row.alloc;
    let input = bytes_of(alloc, system, row.word()?)?;
    let words = words_of(alloc, row.rest())?;
    let before = mem::replace(files, MemFiles::new(alloc));
    let ran = perform_in_memory(Ok(words), input.as_slice(), Vec::new(alloc), before, alloc)?;
    *files = ran.files;
    write_run(row, ran.status, ran.output.as_slice());
    row.write_labelled(" ", ran.rest.len());
    Ok(())
}
