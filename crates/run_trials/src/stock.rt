//! State that stays from run to run: the texts that the script has named, and the file store.

use crate::change::{change_bytes, read_change};
use crate::fault::ScriptWhy;
use crate::number::read_number;
use desk_base::MemShelf;
use std::alloc::Global;
use trial_rows::{Answer, Named};

/// State that stays from run to run.
#[derive(Drop)]
pub struct Stock {
    texts: Named<Vec<u8>>,
    /// The file store. Files that a run stores are there for later runs.
    pub shelf: MemShelf,
}

impl Stock {
    /// Creates a state without texts and files.
    pub fn new(alloc: Global) -> Self {
        Stock {
            texts: Named::new(alloc),
            shelf: MemShelf::new(alloc, Vec::new(alloc)),
        }
    }

    /// Returns whether a text has this name.
    pub fn has_text(&self, name: &str) -> bool {
        self.texts.get(name).is_ok()
    }

    /// Adds a text.
    pub fn name_text(
        &mut self,
        alloc: Global,
        name: &str,
        bytes: Vec<u8>,
    ) -> Result<(), ScriptWhy> {
        Ok(self.texts.put(alloc, name, bytes)?)
    }

    /// Returns the bytes of the text of this name.
    pub fn text(&self, name: &str) -> Result<&[u8], ScriptWhy> {
        match self.texts.get(name) {
            Ok(bytes) => Ok(bytes.as_slice()),
            Err(_) => Err(ScriptWhy::NoText),
        }
    }

    /// The bytes of the file of this name.
    fn file(&self, name: &str) -> Result<&[u8], ScriptWhy> {
        match self.shelf.file(name) {
            Some(bytes) => Ok(bytes),
            None => Err(ScriptWhy::NoFile),
        }
    }

    /// Parses `new store` or `new store failing at N ..`: a store without files, whose calls of these numbers, counted
    /// from 1, fail.
    pub fn empty_shelf(&mut self, alloc: Global, rest: &str) -> Result<(), ScriptWhy> {
        if rest == "store" {
            self.shelf = MemShelf::new(alloc, Vec::new(alloc));
            return Ok(());
        }
        let Some(calls) = rest.strip_prefix("store failing at ") else {
            return Err(ScriptWhy::Unknown);
        };
        self.shelf = MemShelf::new(alloc, read_numbers(alloc, calls)?);
        Ok(())
    }

    /// Parses `file NAME holds TEXT`, `file NAME as OTHER` or `file NAME CHANGE`: sets or changes a file.
    pub fn set_file(&mut self, alloc: Global, rest: &str) -> Result<(), ScriptWhy> {
        let Some((name, edit)) = rest.split_once(' ') else {
            return Err(ScriptWhy::Unknown);
        };
        let bytes = self.edited(alloc, name, edit)?;
        let name = String::from_str(alloc, name)?;
        self.shelf.set_file(name, bytes)?;
        Ok(())
    }

    /// The bytes that the file of this name is to have.
    fn edited(&self, alloc: Global, name: &str, edit: &str) -> Result<Vec<u8>, ScriptWhy> {
        if let Some(text) = edit.strip_prefix("holds ") {
            return Ok(Vec::from_slice(alloc, self.text(text)?)?);
        }
        if let Some(other) = edit.strip_prefix("as ") {
            return Ok(Vec::from_slice(alloc, self.file(other)?)?);
        }
        let mut bytes = Vec::from_slice(alloc, self.file(name)?)?;
        change_bytes(read_change(edit)?, &mut bytes)?;
        Ok(bytes)
    }
}

/// The numbers of some words.
fn read_numbers(alloc: Global, words: &str) -> Result<Vec<u32>, ScriptWhy> {
    let mut numbers = Vec::new(alloc);
    for word in words.split_whitespace() {
        numbers.push(read_number(word)?)?;
    }
    Ok(numbers)
}

/// Writes the bytes of a file that `tell NAME` or `tell NAME at A for N` asks for.
pub fn write_told(out: &mut Answer, shelf: &MemShelf, line: &str) -> Result<(), ScriptWhy> {
    let Some(question) = line.strip_prefix("tell ") else {
        return Err(ScriptWhy::Unknown);
    };
    let (name, part) = question.split_once(' ').unwrap_or((question, ""));
    out.write("file ");
    out.write(name);
    match shelf.file(name) {
        None => out.write(": none\n"),
        Some(bytes) if part.is_empty() => write_size(out, bytes),
        Some(bytes) => return write_part(out, bytes, part),
    }
    Ok(())
}

/// Writes the length of a file, and the sum of its bytes.
fn write_size(out: &mut Answer, bytes: &[u8]) {
    out.write(": ");
    out.write_number(bytes.len());
    out.write(" bytes, sum ");
    out.write_number(sum_of(bytes));
    out.write("\n");
}

/// Parses `at A for N`: writes at most N bytes of a file from offset A on.
fn write_part(out: &mut Answer, bytes: &[u8], part: &str) -> Result<(), ScriptWhy> {
    let Some((at, count)) = part.split_once(" for ") else {
        return Err(ScriptWhy::Unknown);
    };
    let Some(at) = at.strip_prefix("at ") else {
        return Err(ScriptWhy::Unknown);
    };
    let at = read_number::<usize>(at)?;
    let count = read_number::<usize>(count)?;
    out.write(" at ");
    out.write_number(at);
    out.write(":");
    for byte in bytes.iter().skip(at).take(count) {
        out.write(" ");
        write_hexadecimal(out, *byte);
    }
    out.write("\n");
    Ok(())
}

/// Writes a byte by two hexadecimal digits.
fn write_hexadecimal(out: &mut Answer, byte: u8) {
    out.write_mark(digit(byte / 16));
    out.write_mark(digit(byte % 16));
}

/// The hexadecimal digit of a number below 16.
fn digit(number: u8) -> char {
    if number < 10 {
        (b'0' + number) as char
    } else {
        (b'a' - 10).saturating_add(number) as char
    }
}

/// The sum of the bytes, modulo 2^64.
fn sum_of(bytes: &[u8]) -> u64 {
    let mut sum = 0u64;
    for byte in bytes {
        sum = sum.wrapping_add(u64::from(*byte));
    }
    sum
}
