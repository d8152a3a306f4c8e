//! The side of a game that is not read from lines.
ghost use Rattle.std.specs.Prelude.{◌≡◌, None, IfOk, IfNone, IfSome, OnErr, OnOk};
ghost use Rattle.game_rules.specs.Game.{Legal, Position as Board};
ghost use Rattle.chess_text.specs.Replies.{IsTypable};
ghost use Rattle.move_choice.specs.Choice.{target};
ghost use Rattle.play_loop.specs.Turns.{ArePlayable, IsMadeBy, Rules};

use crate::ending::Ending;
use chess_game::{Illegal, Move, Side};

/// The state of a game: whose turn it is, or that it is over.
#[derive(Clone, Copy, PartialEq, Eq)]
pub enum GameState {
    /// It is over.
    Over(Ending),
    /// A line is due: the other side is to move.
    LineDue,
    /// The player is to move.
    ToMove,
}

/// A side of a game that is played by code. The moves of the other side come as lines.
pub trait Player {
    /// What is reported of a game.
    ghost Seen: { Type 0 };

    ghost seen: { Self → Seen };

    ghost rules: { Rules Seen };

    /// What is true of each game that is played.
    ghost is_kept: { Seen → Type 0 };

    /// The side that the player moves.
    fn side(&self) -> Side
        ensures { result ≡ rules.side (seen self.now) };

    /// Returns the state of the game.
    fn stand(&mut self) -> GameState
        ensures stands { rules.Stands (seen self.old) result }
        ensures kept { is_kept (seen self.old) }
        ensures same { seen self.new ≡ seen self.old };

    /// The player makes a move, if there is one to a square that can be named.
    fn pick(&mut self) -> Option<Move>
        requires { rules.Stands (seen self.old) GameState.ToMove }
        ensures typable { IfSome result IsTypable }
        ensures made { IfSome result (λ mv. IsMadeBy rules (seen self.old) mv (seen self.new)) }
        ensures none { IfNone result (rules.Picks (seen self.old) None) }
        ensures unchanged { IfNone result (seen self.new ≡ seen self.old) };

    /// The other side's move is made, if it is legal.
    fn typed(&mut self, mv: Move) -> Result<(), Illegal>
        requires { rules.Stands (seen self.old) GameState.LineDue }
        ensures legal { OnOk result (Legal (rules.position (seen self.old)) mv.man (target mv) (rules.position (seen self.new))) }
        ensures after { OnOk result (seen self.new ≡ rules.moved (seen self.old) (rules.position (seen self.new))) }
        ensures illegal { OnErr result ((q : Board) → Legal (rules.position (seen self.old)) mv.man (target mv) q → ⊥) }
        ensures unchanged { OnErr result (seen self.new ≡ seen self.old) };

    ghost playable: { ArePlayable rules is_kept };
}
