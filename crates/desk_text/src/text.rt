//! The text at the front of an input.

ghost use Rattle.std.specs.Prelude.{◌≡◌, ℕ, ◌+◌, ◌≤◌, [], length, IsErrOf, IfOk, None, Some};
ghost use Rattle.chess_text.specs.Grammar.{positions};
ghost use Rattle.chess_text.specs.PositionText.{IsDraftOf};
ghost use Rattle.chess_text.specs.Progress.{IsWhole};
ghost use Rattle.chess_text.specs.declared.draft.TheConstants.{MOST_READ};
ghost use Rattle.chess_text.specs.declared.reader.End.TheVariants as End;
ghost use Rattle.desk_base.specs.Faults.{HasRisen};
ghost use Rattle.desk_text.specs.Text.{problem_of, texts_of, why_word};
ghost use Rattle.desk_text.specs.TextRead.{TextRead, TextReadOf};

use crate::problem::{Problem, WholeText};
use chess_game::Position;
use chess_text::{Grammar, LineOutcome, TextReader, TextWhy};
use desk_base::{Line, LineError, LineReader, Source};

/// Why a line is refused.
#[derive(Clone, Copy, PartialEq, Eq)]
pub enum LineWhy {
    /// It may not stand where it stands.
    Grammar(TextWhy),
    /// It has more than 200 bytes.
    Long,
    /// The input ends within it.
    Cut,
    /// The input ends where it is due.
    Missing,
}

impl LineWhy {
    /// Returns the last word of the fault line.
    pub fn word(self) -> &'static [u8]
        ensures word { result.now ≡ why_word self }
        ensures short { length result.now ≤ 7 }
    {
        match self {
            LineWhy::Grammar(TextWhy::Header) => b"header",
            LineWhy::Grammar(TextWhy::Turn) => b"turn",
            LineWhy::Grammar(TextWhy::ManLine) => b"man",
            LineWhy::Grammar(TextWhy::Number) => b"number",
            LineWhy::Grammar(TextWhy::TooFew) => b"few",
            LineWhy::Grammar(TextWhy::TooMany) => b"many",
            LineWhy::Long => b"long",
            LineWhy::Cut => b"cut",
            LineWhy::Missing => b"missing",
        }
    }
}

/// Why no text was read: the source failed, or the line of this number, counted from 1, was refused.
#[derive(Clone, Copy, PartialEq, Eq)]
pub enum TextEnd {
    Fault,
    Refused(u32, LineWhy),
}

/// The problem that a position text says.
fn problem_of(text: &WholeText) -> Problem
    requires { IsDraftOf positions text.now.draft }
    ensures { result ≡ problem_of text.now.draft text.now.lines }
{
    let draft = &text.draft;
    match Position::new(draft.men(), draft.turn()) {
        Some(position) => Problem {
            position,
            winner: draft.winner(),
            lines: text.lines,
        },
        None => unreachable!(),
    }
}

/// Reads a position text at the front of an input. Nothing after it is read, except the bytes that the reader keeps.
pub fn read_problem<S: Source>(reader: &mut LineReader, source: &mut S) -> Result<Problem, TextEnd>
    requires fresh { (reader.old.pending ≡ []) × (reader.old.stopped ≡ None) }
    ensures reads { TextRead result reader.new.pending (S.left source.old) (S.left source.new) }
    ensures goes_on { IfOk result (λ problem. reader.new.stopped ≡ None) }
    ensures held { length reader.new.pending ≤ 256 }
    ensures lines { IfOk result (λ problem. problem.lines ≤ 11) }
    ensures failed { IsErrOf result TextEnd.Fault → HasRisen (S.faults source.old) (S.faults source.new) }
    ensures never_falls { S.faults source.old ≤ S.faults source.new }
{
    match read_text(Grammar::positions(), reader, source) {
        Ok(text) => Ok(problem_of(&text)),
        Err(end) => Err(end),
    }
}

/// What a text says that is whole, and has so many lines.
fn whole_text(text: TextReader, lines: u32) -> WholeText
    requires { text.end ≡ Some End.Whole }
    ensures draft { IsWhole text result.draft }
    ensures lines { result.lines ≡ lines }
{
    match text.into_whole() {
        Some(draft) => WholeText { draft, lines },
        None => unreachable!(),
    }
}

/// Reads a text of a kind at the front of an input. Nothing after it is read, except the bytes that the reader keeps.
pub fn read_text<S: Source>(
    grammar: Grammar,
    reader: &mut LineReader,
    source: &mut S,
) -> Result<WholeText, TextEnd>
    requires few { grammar.most_men ≤ MOST_READ }
    requires fresh { (reader.old.pending ≡ []) × (reader.old.stopped ≡ None) }
    ensures reads { TextReadOf (texts_of grammar) result reader.new.pending (S.left source.old) (S.left source.new) }
    ensures draft { IfOk result (λ text. IsDraftOf grammar text.draft) }
    ensures lines { IfOk result (λ text. text.lines ≡ length text.draft.men + 3) }
    ensures goes_on { IfOk result (λ text. reader.new.stopped ≡ None) }
    ensures held { length reader.new.pending ≤ 256 }
    ensures failed { IsErrOf result TextEnd.Fault → HasRisen (S.faults source.old) (S.faults source.new) }
    ensures never_falls { S.faults source.old ≤ S.faults source.new }
{
    let mut text = TextReader::new(grammar);
    loop {
        let number = text.line_due();
        match reader.next_line(source) {
            Ok(Line::Full(_)) => match text.feed_line(reader.line()) {
                Ok(LineOutcome::More) => {}
                Ok(LineOutcome::Whole) => return Ok(whole_text(text, number)),
                Err(error) => {
                    return Err(TextEnd::Refused(error.line, LineWhy::Grammar(error.why)));
                }
            },
            Ok(Line::End) => return Err(TextEnd::Refused(number, LineWhy::Missing)),
            Err(LineError::Cut) => return Err(TextEnd::Refused(number, LineWhy::Cut)),
            Err(LineError::TooLong) => return Err(TextEnd::Refused(number, LineWhy::Long)),
            Err(LineError::Read) => return Err(TextEnd::Fault),
        }
    }
}
