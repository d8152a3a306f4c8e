//! Rows that write to a sink in memory, and that store and fetch files of a store in memory.

ghost use Rattle.std.specs.Prelude.{◌<◌, IfOk};

use desk_base::{FetchError, KeepError, MemShelf, MemSink, Shelf, Sink, put_all};
use trial_rows::{Row, RowError, RowInterpreter, answer_steps};

/// A sink: the calls that are to fail, the most that a call writes, and the room.
fn sink_of(row: &mut Row) -> Result<MemSink, RowError> {
    let fail = row.numbers::<u32>()?;
    let (most, room) = row.two_numbers::<usize, usize>()?;
    if most == 0 {
        return Err(RowError::Condition);
    }
    Ok(MemSink::new(row.alloc, fail, most, room)?)
}

/// Writes the result of each call of `put`.
fn put_pieces(sink: &mut MemSink, row: &mut Row) {
    for piece in row.rest().split('/') {
        match sink.put(piece.as_bytes()) {
            Ok(count) => row.write_number(count),
            Err(_) => row.write("failed"),
        }
        row.write(" ");
    }
}

/// Runs `sink FAIL MOST ROOM PIECES`: the result of each call of `put`, and the bytes written.
pub fn sink_row(row: &mut Row) -> Result<(), RowError> {
    let mut sink = sink_of(row)?;
    put_pieces(&mut sink, row);
    row.write("written ");
    row.write_bytes(sink.bytes());
    Ok(())
}

/// Runs `put FAIL MOST ROOM TEXT`: whether all of a text is written, and the bytes written.
pub fn put_row(row: &mut Row) -> Result<(), RowError> {
    let mut sink = sink_of(row)?;
    let text = row.rest();
    row.write(match put_all(&mut sink, text.as_bytes()) {
        Ok(()) => "all written ",
        Err(_) => "failed written ",
    });
    row.write_bytes(sink.bytes());
    Ok(())
}

/// `keep NAME TEXT`: whether the store keeps the text.
fn keep_step(shelf: &mut MemShelf, row: &mut Row) -> Result<(), RowError> {
    let name = row.word()?;
    match shelf.keep(row.alloc, name, row.rest().as_bytes()) {
        Ok(()) => row.write("kept"),
        Err(KeepError::Failed) => row.write("failed"),
        Err(KeepError::Memory) => return Err(RowError::Memory),
    }
    Ok(())
}

/// `fetch NAME LIMIT`: what the store has under the name, or why it gives nothing.
fn fetch_step(shelf: &mut MemShelf, row: &mut Row) -> Result<(), RowError> {
    let name = row.word()?;
    let limit = row.number::<usize>()?;
    match shelf.fetch(row.alloc, name, limit) {
        Ok(Some(bytes)) => write_file(row, bytes.as_slice()),
        Ok(None) => row.write("none"),
        Err(FetchError::Failed) => row.write("failed"),
        Err(FetchError::TooLong) => row.write("too long"),
        Err(FetchError::Memory) => return Err(RowError::Memory),
    }
    Ok(())
}

fn write_file(row: &mut Row, bytes: &[u8]) {
    row.write("found ");
    row.write_bytes(bytes);
}

/// `file NAME`: what the store has under the name, without a call that could fail.
fn file_step(shelf: &MemShelf, row: &mut Row) -> Result<(), RowError> {
    match shelf.file(row.word()?) {
        Some(bytes) => write_file(row, bytes),
        None => row.write("none"),
    }
    Ok(())
}

/// The store of a row.
#[derive(Drop)]
struct Store {
    shelf: MemShelf,
}

impl RowInterpreter for Store {
    /// A call of the store, or a look at one of its files.
    fn answer(&mut self, kind: &str, row: &mut Row) -> Result<(), RowError> {
        match kind {
            "keep" => keep_step(&mut self.shelf, row),
            "fetch" => fetch_step(&mut self.shelf, row),
            "file" => file_step(&self.shelf, row),
            _ => Err(RowError::Word),
        }
    }
}

/// Runs `shelf FAIL STEP/STEP ..`: the results of the steps, separated by `/`, over a store in memory that begins
/// without files.
pub fn shelf_row(row: &mut Row) -> Result<(), RowError> {
    let fail = row.numbers::<u32>()?;
    let shelf = MemShelf::new(row.alloc, fail);
    answer_steps(&mut Store { shelf }, row, '/')
}
