//! The loser of a game as a player.
ghost use Rattle.std.specs.Prelude.{◌≡◌};
ghost use Rattle.loser_player.specs.LoserRules.{standing_of as standing_is};
ghost use Rattle.loser_session.specs.Defending.{seen};

use chess_game::{Illegal, Move, Side};
use loser_session::{Defence, Stand};
use play_loop::{Ending, GameState, Player};
use std::marker::Model;

/// The loser of a game, who plays by a defence.
#[derive(Drop)]
pub struct Loser {
    defence: Defence,
}

impl Model for Loser {
    ghost use Rattle.loser_session.specs.Defending.{DefenceMatch, seen};

    ghost Value = { DefenceMatch };

    ghost view = { λ l. seen l.defence };
}

impl Loser {
    /// Creates the player of a defence.
    pub fn new(defence: Defence) -> Self
        ensures { result ≡ seen defence }
    {
        Loser { defence }
    }
}

/// Returns the state of the game for the player of the loser.
fn standing_of(stand: Stand) -> GameState
    ensures { result ≡ standing_is stand }
{
    match stand {
        Stand::Held => GameState::Over(Ending::Held),
        Stand::Stuck => GameState::Over(Ending::Stuck),
        Stand::Attack => GameState::LineDue,
        Stand::Answer => GameState::ToMove,
    }
}

impl Player for Loser {
    ghost use Rattle.loser_player.specs.LoserRules.{IsOfDefence, loser_rules};
    ghost use Rattle.loser_player.specs.Playable.{loser_plays};
    ghost use Rattle.loser_session.specs.Defending.{DefenceMatch};

    ghost Seen = { DefenceMatch };

    ghost seen = { λ g. g };

    ghost rules = { loser_rules };

    ghost is_kept = { IsOfDefence };

    fn side(&self) -> Side {
        self.defence.winner().other()
    }

    fn stand(&mut self) -> GameState {
        let _position = self.defence.position(); // for what it keeps
        standing_of(self.defence.stand())
    }

    fn pick(&mut self) -> Option<Move> {
        let _position = self.defence.position(); // for what it keeps
        let Ok(mv) = self.defence.answer() else {
            return None;
        };
        Some(mv)
    }

    fn typed(&mut self, mv: Move) -> Result<(), Illegal> {
        self.defence.typed(mv)
    }

    ghost playable = { loser_plays };
}
