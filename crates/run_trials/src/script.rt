//! The lines of a script, and their blocks: a text or a run, with the lines under it.

use crate::fault::ScriptWhy;
use crate::runner::Runner;

/// The most bytes of a line.
const MOST_LINE: usize = 200;

/// A line of a script, from its first word or its bar on.
#[derive(Clone, Copy)]
pub struct ScriptLine<'a> {
    /// Its number, counted from 1.
    pub number: u64,
    pub text: &'a str,
}

/// Whether a line says nothing: it is blank or a comment.
fn is_remark(text: &str) -> bool {
    text.is_empty() || text.starts_with('#')
}

/// Whether a text or a run begins.
fn is_head(text: &str) -> bool {
    text.starts_with("run") || text.starts_with("text ")
}

/// Refuses a line that is too long.
fn check_length(runner: &mut Runner, line: ScriptLine) -> Result<(), ScriptWhy> {
    if line.text.len() > MOST_LINE {
        runner.line = line.number;
        return Err(ScriptWhy::Long);
    }
    Ok(())
}

/// Performs the blocks of a script, one after another.
fn perform_blocks(runner: &mut Runner, script: &str) -> Result<(), ScriptWhy> {
    let mut block = Vec::new(runner.alloc);
    let mut number = 0u64;
    for text in script.lines() {
        number = number.saturating_add(1);
        check_length(runner, ScriptLine { number, text })?;
        let text = text.trim_start();
        if is_head(text) {
            runner.perform_block(block.as_slice())?;
            block.clear();
        }
        if !is_remark(text) {
            block.push(ScriptLine { number, text })?;
        }
    }
    runner.perform_block(block.as_slice())
}

/// Refuses a script that ends within a line.
fn check_end(runner: &mut Runner, script: &str) -> Result<(), ScriptWhy> {
    if script.is_empty() || script.ends_with('\n') {
        return Ok(());
    }
    runner.line = script.lines().count() as u64;
    Err(ScriptWhy::Cut)
}

/// Performs the runs of a script and writes what they did, and at last the number of runs, or which line is refused.
/// Returns whether no line is refused.
pub fn perform(runner: &mut Runner, script: &str) -> bool {
    let mut done = perform_blocks(runner, script);
    if done.is_ok() {
        done = check_end(runner, script);
    }
    match done {
        Ok(()) => runner.finish(),
        Err(why) => runner.refuse(why),
    }
    done.is_ok()
}
