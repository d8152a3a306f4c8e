//! Ranges of numbers; a run is made once for each number.

use crate::fault::ScriptWhy;
use crate::number::read_number;
use std::alloc::Global;
use trial_rows::Answer;

/// Consecutive numbers.
#[derive(Clone, Copy)]
pub struct Range {
    pub first: u32,
    pub last: u32,
}

/// A line in which a range `A .. B` stands for one of its numbers.
#[derive(Clone, Copy)]
struct Ranged<'a> {
    front: &'a str,
    first: &'a str,
    last: &'a str,
    back: &'a str,
}

/// The parts of a line that has a range.
fn split_at_range(text: &str) -> Option<Ranged<'_>> {
    let (left, right) = text.split_once(" .. ")?;
    let (front, first) = left.rsplit_once(' ')?;
    let (last, back) = right.split_once(' ').unwrap_or((right, ""));
    Some(Ranged {
        front,
        first,
        last,
        back,
    })
}

/// Returns the range in a line, if it has one. Bytes have none.
pub fn range_of(text: &str) -> Result<Option<Range>, ScriptWhy> {
    if text.starts_with('|') {
        return Ok(None);
    }
    let Some(ranged) = split_at_range(text.trim_end()) else {
        return Ok(None);
    };
    let first = read_number(ranged.first)?;
    let last = read_number(ranged.last)?;
    if first > last || ranged.back.contains(" .. ") {
        return Err(ScriptWhy::Range);
    }
    Ok(Some(Range { first, last }))
}

/// Returns the line of one case, with the number in place of the range.
pub fn spelled_at(alloc: Global, text: &str, number: u32) -> Answer {
    let text = text.trim_end();
    let mut line = Answer::new(alloc);
    let Some(ranged) = split_at_range(text) else {
        line.write(text);
        return line;
    };
    line.write(ranged.front);
    line.write(" ");
    line.write_number(number);
    if !ranged.back.is_empty() {
        line.write(" ");
        line.write(ranged.back);
    }
    line
}
