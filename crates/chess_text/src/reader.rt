//! A parser of texts of any kind that takes one line at a time.

ghost use Rattle.std.specs.Prelude.{◌≡◌, ◌≢◌, ◌≤◌, length, IfSome, IfNone, None, Some};
ghost use Rattle.chess_text.specs.Progress.{HasRoom, IsFed, IsWhole, Reads, answer_of, begun, line_due};
ghost use Rattle.chess_text.specs.declared.draft.TheConstants.{MOST_READ};

use crate::draft::Draft;
use crate::grammar::Grammar;
use crate::man_line::{TextWhy, read_man_line, read_turn_line};
use std::marker::Model;

/// The number of a line that is refused, counted from 1, and the reason.
#[derive(Clone, Copy, PartialEq, Eq)]
pub struct TextError {
    pub line: u32,
    pub why: TextWhy,
}

/// The result of one line of a text.
#[derive(Clone, Copy, PartialEq, Eq)]
pub enum LineOutcome {
    /// The text continues.
    More,
    /// The line was the last one.
    Whole,
}

/// How a text ended.
#[derive(Clone, Copy)]
pub enum End {
    Whole,
    Refused(TextError),
}

/// The progress of a text: which line is next.
#[derive(Drop)]
pub enum ReaderState {
    Header,
    Turn,
    /// A man or the end is next.
    Men(Draft),
}

impl ReaderState {
    /// Returns the number of the next line, counted from 1.
    fn number(&self) -> u32
        ensures { result ≡ line_due self.now }
    {
        match self {
            ReaderState::Header => 1,
            ReaderState::Turn => 2,
            ReaderState::Men(draft) => draft.men().len() as u32 + 3,
        }
    }
}

/// Takes a line after the first two.
fn feed_men(grammar: &Grammar, draft: &mut Draft, line: &[u8]) -> Result<LineOutcome, TextWhy>
    requires few { grammar.now.most_men ≤ MOST_READ }
    requires room { length draft.old.men ≤ grammar.now.most_men }
    ensures fed { IsFed grammar.now (ReaderState.Men draft.old) line.now result (ReaderState.Men draft.new) }
    ensures room { length draft.new.men ≤ grammar.now.most_men }
{
    let count = draft.men().len();
    if line == b"end".as_slice() {
        return if count < 2 {
            Err(TextWhy::TooFew)
        } else {
            Ok(LineOutcome::Whole)
        };
    }
    if count == grammar.most_men {
        return Err(TextWhy::TooMany);
    }
    let man = read_man_line(grammar, line)?;
    draft.push(man);
    Ok(LineOutcome::More)
}

/// Takes a line of a text.
fn feed(grammar: &Grammar, stage: &mut ReaderState, line: &[u8]) -> Result<LineOutcome, TextWhy>
    requires few { grammar.now.most_men ≤ MOST_READ }
    requires room { HasRoom grammar.now stage.old }
    ensures fed { IsFed grammar.now stage.old line.now result stage.new }
    ensures room { HasRoom grammar.now stage.new }
{
    match stage {
        ReaderState::Header => {
            if line != grammar.header.as_slice() {
                return Err(TextWhy::Header);
            }
            *stage = ReaderState::Turn;
            Ok(LineOutcome::More)
        }
        ReaderState::Turn => {
            let (turn, winner) = read_turn_line(line)?;
            *stage = ReaderState::Men(Draft::new(turn, winner));
            Ok(LineOutcome::More)
        }
        ReaderState::Men(draft) => feed_men(grammar, draft, line),
    }
}

/// A parser of texts of one kind. It takes one line at a time.
#[derive(Drop)]
pub struct TextReader {
    grammar: Grammar,
    stage: ReaderState,
    end: Option<End>,
}

impl Model for TextReader {
    ghost use Rattle.chess_text.specs.Progress.{IsProgress, Progress};

    ghost Value = { Progress };

    ghost view = { λ r. record { grammar = r.grammar; stage = r.stage; end = r.end } };

    ghost invariant = { λ r. IsProgress (record { grammar = r.grammar; stage = r.stage; end = r.end }) };
}

impl TextReader {
    /// Creates a parser that has read nothing.
    pub fn new(grammar: Grammar) -> Self
        requires { grammar.most_men ≤ MOST_READ }
        ensures { result ≡ begun grammar }
    {
        TextReader {
            grammar,
            stage: ReaderState::Header,
            end: None,
        }
    }

    /// Returns the number of the next line, counted from 1, while the text continues.
    pub fn line_due(&self) -> u32
        ensures { result ≡ line_due self.now.stage }
    {
        self.stage.number()
    }

    /// Takes the next line of a text, without its LF. An error or a complete text is final: later calls return it
    /// again.
    pub fn feed_line(&mut self, line: &[u8]) -> Result<LineOutcome, TextError>
        ensures stopped { IfSome self.old.end (λ end. (result ≡ answer_of end) × (self.new ≡ self.old)) }
        ensures reads { self.old.end ≡ None → Reads self.old.grammar self.old.stage line.now result self.new }
        ensures grammar { self.new.grammar ≡ self.old.grammar }
    {
        match self.end {
            Some(End::Whole) => return Ok(LineOutcome::Whole),
            Some(End::Refused(error)) => return Err(error),
            None => {}
        }
        let number = self.line_due();
        match feed(&self.grammar, &mut self.stage, line) {
            Ok(LineOutcome::More) => Ok(LineOutcome::More),
            Ok(LineOutcome::Whole) => {
                self.end = Some(End::Whole);
                Ok(LineOutcome::Whole)
            }
            Err(why) => {
                let error = TextError { line: number, why };
                self.end = Some(End::Refused(error));
                Err(error)
            }
        }
    }

    /// Returns the contents of the text if it is complete.
    pub fn whole(&self) -> Option<&Draft>
        ensures some { IfSome result (λ draft. IsWhole self.now draft.now) }
        ensures none { IfNone result (self.now.end ≢ Some End.Whole) }
    {
        match (&self.end, &self.stage) {
            (Some(End::Whole), ReaderState::Men(draft)) => Some(draft),
            _ => None,
        }
    }

    /// Returns the contents of the text if it is complete, and consumes the parser.
    pub fn into_whole(self) -> Option<Draft>
        ensures some { IfSome result (λ draft. IsWhole self draft) }
        ensures none { IfNone result (self.end ≢ Some End.Whole) }
    {
        match (self.end, self.stage) {
            (Some(End::Whole), ReaderState::Men(draft)) => Some(draft),
            _ => None,
        }
    }
}
