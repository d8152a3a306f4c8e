//! Rows that call a port of the program on a file of the working folder.

use desk_base::{FetchError, KeepError, Line, LineError, LineReader, Shelf, Source, put_all};
use mate_ports::{FolderShelf, StdSink, StdSource};
use std::fs;
use std::fs::Files;
use std::io::Write;
use trial_rows::{Row, RowError};

/// The most lines that a row reads.
const MOST_LINES: u32 = 100;

/// Writes bytes, each as a character, and LF as `/`.
pub fn write_lines(row: &mut Row, bytes: &[u8]) {
    for byte in bytes {
        row.write_mark(if *byte == b'\n' { '/' } else { *byte as char });
    }
}

/// Runs `keep NAME TEXT`: whether the folder stores the text.
pub fn keep_row<R: Files>(system: &R, row: &mut Row) -> Result<(), RowError> {
    let name = row.word()?;
    let text = row.rest();
    let mut shelf = FolderShelf::new(system);
    match shelf.keep(row.alloc, name, text.as_bytes()) {
        Ok(()) => row.write("kept"),
        Err(KeepError::Failed) => row.write("failed"),
        Err(KeepError::Memory) => return Err(RowError::Memory),
    }
    Ok(())
}

/// Runs `fetch NAME LIMIT`: the contents of a file of the folder, or why there are none.
pub fn fetch_row<R: Files>(system: &R, row: &mut Row) -> Result<(), RowError> {
    let name = row.word()?;
    let limit = row.number::<usize>()?;
    let mut shelf = FolderShelf::new(system);
    match shelf.fetch(row.alloc, name, limit) {
        Ok(Some(bytes)) => {
            row.write("found ");
            write_lines(row, bytes.as_slice());
        }
        Ok(None) => row.write("none"),
        Err(FetchError::Failed) => row.write("failed"),
        Err(FetchError::TooLong) => row.write("too long"),
        Err(FetchError::Memory) => return Err(RowError::Memory),
    }
    Ok(())
}

/// The next line of a source is written, or how the lines end. Says whether they do.
fn write_next<S: Source>(reader: &mut LineReader, source: &mut S, row: &mut Row) -> bool {
    match reader.next_line(source) {
        Ok(Line::Full(_)) => {
            write_lines(row, reader.line());
            row.write("/");
            return false;
        }
        Ok(Line::End) => row.write("end"),
        Err(LineError::TooLong) => row.write("long"),
        Err(LineError::Cut) => row.write("cut"),
        Err(LineError::Read) => row.write("failed"),
    }
    true
}

/// Writes the lines of a source, and how they end.
fn write_source<S: Source>(source: &mut S, row: &mut Row) -> Result<(), RowError> {
    let mut reader = LineReader::new();
    for _ in 0..MOST_LINES {
        if write_next(&mut reader, source, row) {
            return Ok(());
        }
    }
    Err(RowError::Condition)
}

/// Runs `read NAME`: the lines of a file, how they end, and the count of faults of its source.
pub fn read_row<R: Files>(system: &R, row: &mut Row) -> Result<(), RowError> {
    let Ok(file) = fs::open(system, row.word()?) else {
        return Err(RowError::Name);
    };
    let mut source = StdSource::new(file);
    write_source(&mut source, row)?;
    let (_file, faults) = source.into_parts();
    row.write_labelled(" ", faults);
    Ok(())
}

/// Writes whether all of a text is written to a file, and the count of faults of its sink.
fn put_text<W: Write + Drop>(file: W, text: &str, row: &mut Row) {
    let mut sink = StdSink::new(file);
    row.write(match put_all(&mut sink, text.as_bytes()) {
        Ok(()) => "all",
        Err(_) => "failed",
    });
    let (_file, faults) = sink.into_parts();
    row.write_labelled(" ", faults);
}

/// Runs `write NAME TEXT`: whether all of a text is written to a new file.
pub fn write_row<R: Files>(system: &R, row: &mut Row) -> Result<(), RowError> {
    match fs::create(system, row.word()?) {
        Ok(file) => put_text(file, row.rest(), row),
        Err(_) => return Err(RowError::Name),
    }
    Ok(())
}

/// Runs `refused NAME TEXT`: the same for a file that is open for reading only.
pub fn refused_row<R: Files>(system: &R, row: &mut Row) -> Result<(), RowError> {
    match fs::open(system, row.word()?) {
        Ok(file) => put_text(file, row.rest(), row),
        Err(_) => return Err(RowError::Name),
    }
    Ok(())
}
