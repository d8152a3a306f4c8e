//! The settings of a run.

use crate::change::{change_bytes, read_change};
use crate::fault::ScriptWhy;
use crate::number::read_number;
use crate::port::Port;
use crate::range::spelled_at;
use crate::spelling::{push_piece, read_words};
use crate::stock::Stock;
use desk_base::{MemSink, MemSource};
use std::alloc::{AllocError, Global};
use std::mem;
use trial_rows::Answer;

/// The capacity of a sink in bytes if no setting names one.
const ROOM: usize = 10_000;

/// The settings of one run.
pub struct Case {
    /// The arguments and the settings, as the script spells them.
    pub title: Answer,
    pub words: Vec<String>,
    input: Vec<u8>,
    reads: Port,
    writes: Port,
    /// The capacity of the sink in bytes.
    room: usize,
}

impl Drop for Case {
    fn drop(self) {
        let Case {
            title: _,
            words: _,
            input: _,
            reads: _,
            writes: _,
            room: _,
        } = self;
    }
}

impl Case {
    /// Creates the default settings.
    pub fn new(alloc: Global) -> Self {
        Case {
            title: Answer::new(alloc),
            words: Vec::new(alloc),
            input: Vec::new(alloc),
            reads: Port::new(alloc),
            writes: Port::new(alloc),
            room: ROOM,
        }
    }

    /// Applies a line of the script: it appends bytes to the input, or makes a setting.
    pub fn add(
        &mut self,
        alloc: Global,
        stock: &mut Stock,
        text: &str,
        number: u32,
    ) -> Result<(), ScriptWhy> {
        if let Some(piece) = text.strip_prefix('|') {
            return push_piece(alloc, &mut self.input, piece);
        }
        let line = spelled_at(alloc, text, number);
        let setting = line.text()?;
        if !self.title.is_empty() {
            self.title.write(" / ");
        }
        self.title.write(setting);
        let (word, rest) = setting.split_once(' ').unwrap_or((setting, ""));
        self.set(alloc, stock, word, rest)
    }

    /// Makes a setting: its first word, and the text after it.
    fn set(
        &mut self,
        alloc: Global,
        stock: &mut Stock,
        word: &str,
        rest: &str,
    ) -> Result<(), ScriptWhy> {
        match word {
            "run" => read_words(alloc, &mut self.words, rest),
            "input" => self.set_input(stock, rest),
            "reads" => self.reads.set_most(rest),
            "read" => self.reads.add_failing(rest),
            "writes" => self.writes.set_most(rest),
            "write" => self.writes.add_failing(rest),
            "room" => self.set_room(rest),
            "new" => stock.empty_shelf(alloc, rest),
            "file" => stock.set_file(alloc, rest),
            "tell" => Ok(()),
            _ => Err(ScriptWhy::Unknown),
        }
    }

    /// `input NAME` or `input CHANGE`: a text comes next, or the input is changed.
    fn set_input(&mut self, stock: &Stock, rest: &str) -> Result<(), ScriptWhy> {
        if rest.contains(' ') {
            return change_bytes(read_change(rest)?, &mut self.input);
        }
        self.input.extend_from_slice(stock.text(rest)?)?;
        Ok(())
    }

    /// Parses `room N`: the capacity of the sink in bytes.
    fn set_room(&mut self, rest: &str) -> Result<(), ScriptWhy> {
        self.room = read_number(rest)?;
        Ok(())
    }

    /// Returns the source of the input, and leaves the case without it.
    pub fn source(&mut self, alloc: Global) -> MemSource {
        let input = mem::replace(&mut self.input, Vec::new(alloc));
        MemSource::new(input, self.reads.failing(alloc), self.reads.most())
    }

    /// Returns the sink of the run.
    pub fn sink(&mut self, alloc: Global) -> Result<MemSink, AllocError> {
        let fail = self.writes.failing(alloc);
        MemSink::new(alloc, fail, self.writes.most(), self.room)
    }
}
