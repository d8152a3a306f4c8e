//! The winner of a game as a player.
ghost use Rattle.std.specs.Prelude.{◌≡◌};
ghost use Rattle.winner_player.specs.WinnerRules.{seen};

use chess_game::{Illegal, Move, Side};
use play_loop::{Ending, GameState, Player};
use std::marker::Model;
use winner_session::Session;

/// The winner of a game, who plays by a session.
#[derive(Drop)]
pub struct Winner {
    session: Session,
}

impl Model for Winner {
    ghost use Rattle.winner_player.specs.WinnerRules.{Match, seen};

    ghost Value = { Match };

    ghost view = { λ w. seen w.session };
}

impl Winner {
    /// Creates the player of a session.
    pub fn new(session: Session) -> Self
        ensures { result ≡ seen session }
    {
        Winner { session }
    }
}

impl Player for Winner {
    ghost use Rattle.winner_player.specs.WinnerRules.{IsOfSession, Match, winner_rules};
    ghost use Rattle.winner_player.specs.Playable.{winner_playable};

    ghost Seen = { Match };

    ghost seen = { λ m. m };

    ghost rules = { winner_rules };

    ghost is_kept = { IsOfSession };

    fn side(&self) -> Side {
        self.session.winner()
    }

    fn stand(&mut self) -> GameState {
        let position = self.session.position();
        if position.turn() == self.session.winner() {
            return GameState::ToMove;
        }
        if self.session.over() {
            return GameState::Over(Ending::Mated);
        }
        GameState::LineDue
    }

    fn pick(&mut self) -> Option<Move> {
        let _position = self.session.position(); // for its game
        let Ok(played) = self.session.win_move() else {
            return None;
        };
        Some(played.mv)
    }

    fn typed(&mut self, mv: Move) -> Result<(), Illegal> {
        self.session.other_move(mv)
    }

    ghost playable = { winner_playable };
}
