//! A parser of position texts that takes one line at a time.

ghost use Rattle.std.specs.Prelude.{◌≡◌, IfSome, None};
ghost use Rattle.chess_text.specs.Grammar.{positions};
ghost use Rattle.chess_text.specs.Progress.{ReadsLine, again_at, begun, fed_at, line_due, whole_of};

use crate::grammar::Grammar;
use crate::reader::{TextError, TextReader};
use chess_game::{Position, Side};
use std::marker::Model;

/// The result of one line of a position text.
#[derive(Clone, Copy)]
pub enum Fed {
    /// The text continues.
    More,
    /// The line was the last one of the text of this position and this winner.
    Whole { position: Position, winner: Side },
}

impl Fed {
    /// Returns the position and the winner if the text is complete.
    pub fn whole(self) -> Option<(Position, Side)>
        ensures { result ≡ whole_of self }
    {
        match self {
            Fed::More => None,
            Fed::Whole { position, winner } => Some((position, winner)),
        }
    }
}

/// A parser of position texts. It takes one line at a time.
#[derive(Drop)]
pub struct PositionReader {
    text: TextReader,
}

impl Model for PositionReader {
    ghost use Rattle.std.specs.Prelude.{◌≡◌};
    ghost use Rattle.chess_text.specs.Grammar.{positions};
    ghost use Rattle.chess_text.specs.Progress.{Progress};

    ghost Value = { Progress };

    ghost view = { λ r. r.text };

    ghost invariant = { λ r. r.text.grammar ≡ positions };
}

impl PositionReader {
    /// Creates a parser that has read nothing.
    pub fn new() -> Self
        ensures { result ≡ begun positions }
    {
        PositionReader {
            text: TextReader::new(Grammar::positions()),
        }
    }

    /// Returns the number of the next line, counted from 1, while the text continues.
    pub fn line_due(&self) -> u32
        ensures { result ≡ line_due self.now.stage }
    {
        self.text.line_due()
    }

    /// Takes the next line of a text, without its LF. An error or a complete text is final: later calls return it
    /// again.
    pub fn feed_line(&mut self, line: &[u8]) -> Result<Fed, TextError>
        ensures stopped { IfSome self.old.end (λ end. (result ≡ again_at self.old.stage end) × (self.new ≡ self.old)) }
        ensures feeds { self.old.end ≡ None → ReadsLine self.old.stage line.now result self.new }
    {
        self.text.feed_line(line)?;
        Ok(self.fed())
    }

    /// Returns the result of the last line.
    fn fed(&self) -> Fed
        ensures { result ≡ fed_at self.now.end self.now.stage }
    {
        let Some(draft) = self.text.whole() else {
            return Fed::More;
        };
        match Position::new(draft.men(), draft.turn()) {
            Some(position) => Fed::Whole {
                position,
                winner: draft.winner(),
            },
            None => unreachable!(),
        }
    }
}
