//! The lines of replies and of moves.

ghost use Rattle.std.specs.Prelude.{◌≡◌, ◌≢◌, ◌≤◌, ◌<◌, ◌+◌, FitsSigned, IfOk, IfErr, IfSome, IfNone, ℕ};
ghost use Rattle.std.specs.Int.{w64};
ghost use Rattle.chess_text.specs.Fields.{IsPairRefusal, pair_text};
ghost use Rattle.chess_text.specs.Replies.{IsReply, IsReplyRefusal, move_text};

use crate::fields::{PairWhy, read_pair};
use crate::line_buffer::LineBuffer;
use chess_game::Move;

/// A line that a player typed.
#[derive(Clone, Copy, PartialEq, Eq)]
pub enum Typed {
    Move(Move),
    Quit,
}

/// Why a line is not a reply.
#[derive(Clone, Copy, PartialEq, Eq)]
pub enum MoveWhy {
    /// It is neither `quit` nor the number of a man and two fields.
    Shape,
    /// A field is not a number of 64 bits.
    Number,
}

/// Returns the number of a man from its digit.
fn man_of(digit: u8) -> Option<u8>
    ensures some { IfSome result (λ man. (digit ≡ 48 + man) × (1 ≤ man) × (man ≤ 8)) }
    ensures none { IfNone result ((man : ℕ) → 1 ≤ man → man ≤ 8 → digit ≢ 48 + man) }
{
    if digit < b'1' || digit > b'8' {
        return None;
    }
    Some(digit - b'0')
}

/// Returns the move of the man to the square that the text names.
fn read_target(man: u8, text: &[u8]) -> Result<Move, PairWhy>
    ensures square { IfOk result (λ mv. (text.now ≡ pair_text mv.x mv.y) × FitsSigned w64 mv.x × FitsSigned w64 mv.y) }
    ensures man { IfOk result (λ mv. mv.man ≡ man) }
    ensures refused { IfErr result (IsPairRefusal text.now) }
{
    let (x, y) = read_pair(text)?;
    Ok(Move { man, x, y })
}

/// Parses a reply: the number of a man and the square that he goes to, or the word `quit`.
pub fn read_move(line: &[u8]) -> Result<Typed, MoveWhy>
    ensures reply { IfOk result (IsReply line.now) }
    ensures refused { IfErr result (IsReplyRefusal line.now) }
{
    if line == b"quit".as_slice() {
        return Ok(Typed::Quit);
    }
    let [digit, b' ', rest @ ..] = line else {
        return Err(MoveWhy::Shape);
    };
    let Some(man) = man_of(*digit) else {
        return Err(MoveWhy::Shape);
    };
    match read_target(man, rest) {
        Ok(mv) => Ok(Typed::Move(mv)),
        Err(PairWhy::Shape) => Err(MoveWhy::Shape),
        Err(PairWhy::Number) => Err(MoveWhy::Number),
    }
}

/// A buffer for the text of a move.
#[derive(Drop)]
pub struct MoveText {
    line: LineBuffer,
}

impl MoveText {
    /// Creates an empty buffer.
    pub fn new() -> Self {
        MoveText {
            line: LineBuffer::new(),
        }
    }

    /// Prints the move as a reply, and returns its bytes.
    pub fn write(&mut self, mv: Move) -> &[u8]
        requires first { 1 ≤ mv.man }
        requires last { mv.man ≤ 8 }
        ensures { result.now ≡ move_text mv }
    {
        self.line = LineBuffer::new();
        self.line.push(&[b'0' + mv.man]);
        self.line.push(b" ");
        self.line.push_number(mv.x);
        self.line.push(b" ");
        self.line.push_number(mv.y);
        self.line.as_slice()
    }
}
