//! Performs the texts and the runs of a script.

use crate::case::Case;
use crate::fault::ScriptWhy;
use crate::range::{Range, range_of, spelled_at};
use crate::script::ScriptLine;
use crate::spelling::push_piece;
use crate::stock::{Stock, write_told};
use mate_desk::run;
use std::alloc::Global;
use trial_rows::Answer;

/// Performs the blocks of a script, and writes what each run did.
pub struct Runner {
    pub alloc: Global,
    /// The output so far.
    pub report: Answer,
    /// The number of the current line.
    pub line: u64,
    stock: Stock,
    runs: u64,
}

impl Drop for Runner {
    fn drop(self) {
        let Runner {
            alloc: _,
            report: _,
            line: _,
            stock: _,
            runs: _,
        } = self;
    }
}

impl Runner {
    /// Creates a runner without texts and files.
    pub fn new(alloc: Global) -> Self {
        Runner {
            alloc,
            report: Answer::new(alloc),
            line: 0,
            stock: Stock::new(alloc),
            runs: 0,
        }
    }

    /// Writes the number of runs.
    pub fn finish(&mut self) {
        self.report.write_number(self.runs);
        self.report.write(" runs\n");
    }

    /// Writes which line is refused, and why.
    pub fn refuse(&mut self, why: ScriptWhy) {
        self.report.write("script line ");
        self.report.write_number(self.line);
        self.report.write(": ");
        self.report.write(why.words());
        self.report.write("\n");
    }

    /// Stores a text, or performs a run, with the lines under it.
    pub fn perform_block(&mut self, block: &[ScriptLine]) -> Result<(), ScriptWhy> {
        let Some((head, body)) = block.split_first() else {
            return Ok(());
        };
        self.line = head.number;
        if let Some(name) = head.text.strip_prefix("text ") {
            return self.keep_text(name.trim_end(), body);
        }
        if !head.text.starts_with("run") {
            return Err(ScriptWhy::Stray);
        }
        self.perform_run(block)
    }

    /// Keeps the text of this name.
    fn keep_text(&mut self, name: &str, body: &[ScriptLine]) -> Result<(), ScriptWhy> {
        if self.stock.has_text(name) {
            return Err(ScriptWhy::Taken);
        }
        let mut bytes = Vec::new(self.alloc);
        for line in body {
            self.line = line.number;
            let Some(piece) = line.text.strip_prefix('|') else {
                return Err(ScriptWhy::Stray);
            };
            push_piece(self.alloc, &mut bytes, piece)?;
        }
        self.stock.name_text(self.alloc, name, bytes)
    }

    /// Does the cases of a run, one after another: one for each number of its range, or only one.
    fn perform_run(&mut self, block: &[ScriptLine]) -> Result<(), ScriptWhy> {
        let range = self.range(block)?;
        for number in range.first..=range.last {
            self.perform_case(block, number)?;
        }
        Ok(())
    }

    /// The range of a run. At most one of its lines has one.
    fn range(&mut self, block: &[ScriptLine]) -> Result<Range, ScriptWhy> {
        let mut found = None;
        for line in block {
            self.line = line.number;
            if let Some(range) = range_of(line.text)? {
                if found.is_some() {
                    return Err(ScriptWhy::Range);
                }
                found = Some(range);
            }
        }
        Ok(found.unwrap_or(Range { first: 0, last: 0 }))
    }

    /// Performs a run in one case, and writes what it did and what the script asks about files.
    fn perform_case(&mut self, block: &[ScriptLine], number: u32) -> Result<(), ScriptWhy> {
        let mut case = Case::new(self.alloc);
        for line in block {
            self.line = line.number;
            case.add(self.alloc, &mut self.stock, line.text, number)?;
        }
        self.perform(&mut case)?;
        self.tell_all(block, number)
    }

    /// Does a run, and writes what comes of it.
    fn perform(&mut self, case: &mut Case) -> Result<(), ScriptWhy> {
        let mut source = case.source(self.alloc);
        let mut sink = case.sink(self.alloc)?;
        let shelf = &mut self.stock.shelf;
        let status = run(self.alloc, &case.words, &mut source, &mut sink, shelf);
        self.runs = self.runs.saturating_add(1);
        self.report.write(case.title.text()?);
        self.write_run(sink.bytes(), status.code())
    }

    /// Writes the output of a run unchanged, and its code. If the output does not end with LF, a line says so.
    fn write_run(&mut self, output: &[u8], code: u8) -> Result<(), ScriptWhy> {
        let Ok(output) = str::from_utf8(output) else {
            return Err(ScriptWhy::NotText);
        };
        self.report.write("\n");
        self.report.write(output);
        if !output.is_empty() && !output.ends_with('\n') {
            self.report.write("\n(no LF)\n");
        }
        self.report.write("code ");
        self.report.write_number(code);
        self.report.write("\n");
        Ok(())
    }

    /// Writes the answers to the lines of a run that ask about files.
    fn tell_all(&mut self, block: &[ScriptLine], number: u32) -> Result<(), ScriptWhy> {
        for line in block {
            if line.text.starts_with("tell ") {
                self.line = line.number;
                self.tell(line.text, number)?;
            }
        }
        Ok(())
    }

    /// `tell NAME` or `tell NAME at A for N`, in one case.
    fn tell(&mut self, text: &str, number: u32) -> Result<(), ScriptWhy> {
        let line = spelled_at(self.alloc, text, number);
        write_told(&mut self.report, &self.stock.shelf, line.text()?)
    }
}
