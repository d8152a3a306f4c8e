//! A game that the loser plays.
ghost use Rattle.std.specs.Prelude.{◌≡◌, ◌+◌, None, true, false, IfOk, IfErr, OnErr, OnOk};
ghost use Rattle.game_rules.specs.Game.{HasMove, Legal, Position as Board, Value};
ghost use Rattle.chess_game.specs.Refusal.{IsRefusal};
ghost use Rattle.move_choice.specs.Choice.{target};
ghost use Rattle.winner_session.specs.Game.{made_in, moved_to, start_of};
ghost use Rattle.winning_sets.specs.declared.origin.Origin.TheVariants as origin;
ghost use Rattle.loser_session.specs.Defending.{CanDefend, DefencePick, HasMovesLeft, IsDefence, IsDefendedBy, IsLosersTurn, IsWinnersTurn, seen, StandsAs};
ghost use Rattle.loser_session.specs.Unwon.{RestsFit};

use crate::any_move::has_move_into;
use crate::plies::sets_into;
use crate::room::most_states;
use crate::unwon_sets::unwon_plies;
use auto_search::Search;
use chess_game::{Frame, Illegal, Move, Position, Side, try_move};
use limits::Budget;
use mask_sets::MaskSets;
use move_choice::{Aim, Choice, first_move};
use std::alloc::Global;
use std::marker::Model;
use winner_session::TooWide;
use winning_sets::{PlySets, Solved};

/// The state of a game.
#[derive(Clone, Copy, Debug, PartialEq, Eq)]
pub enum Stand {
    /// The winner has made all his moves.
    Held,
    /// The side to move has no legal move.
    Stuck,
    /// The winner is to move.
    Attack,
    /// The loser is to move.
    Answer,
}

/// A game from a solved position. The winner does not mate within the moves that he has left.
#[derive(Drop)]
pub struct Defence {
    solved: Solved,
    /// The sets of the positions that are reached and not won, ply by ply, after each move of the loser.
    unwon: Vec<PlySets>,
    search: Search,
    frame: Frame,
    position: Position,
    ply: u8,
}

impl Model for Defence {
    ghost use Rattle.winner_session.specs.Game.{Game};
    ghost use Rattle.loser_session.specs.Defending.{IsDefence};
    ghost use Rattle.loser_session.specs.Unwon.{AreUnwonPlies, HaveRoom};

    ghost Value = { Game };

    ghost view = { λ d. record { solution = d.solved; frame = d.frame; position = d.position; ply = d.ply } };

    ghost invariant = { λ d. IsDefence (record { solution = d.solved; frame = d.frame; position = d.position; ply = d.ply })
        × AreUnwonPlies d.solved d.unwon.items
        × HaveRoom d.search d.solved d.unwon.items };
}

impl Defence {
    /// Starts a game and allocates all its memory. If an allocation fails, the solved position is returned as the
    /// error. The budget must suffice for subtracting the kept sets from the reached ones; the budget with which the
    /// position was solved does.
    pub fn begin(
        alloc: Global,
        solved: Solved,
        budget: Budget,
        frame: Frame,
    ) -> Result<Defence, Solved>
        requires plan { solved.origin ≡ origin.Plan }
        requires not_won { Value solved.winner solved.moves solved.position → ⊥ }
        requires fits { RestsFit solved budget }
        ensures ok { IfOk result (λ d. d ≡ start_of solved frame) }
        ensures err { IfErr result (λ back. back ≡ solved) }
    {
        let _masks = solved.masks();
        let Ok(unwon) = unwon_plies(alloc, &solved, budget) else {
            return Err(solved);
        };
        match Search::reserve(alloc, most_states(&solved, unwon.as_slice())) {
            Ok(search) => {
                let position = solved.position();
                Ok(Defence {
                    solved,
                    unwon,
                    search,
                    frame,
                    position,
                    ply: 0,
                })
            }
            Err(_) => Err(solved),
        }
    }

    /// Returns the current position.
    pub fn position(&self) -> Position
        ensures position { result ≡ self.now.position }
        ensures defence { IsDefence self.now }
    {
        self.position
    }

    /// Returns the winner, the side that does not mate in time.
    pub fn winner(&self) -> Side
        ensures { result ≡ self.now.solution.winner }
    {
        self.solved.winner()
    }

    /// Returns the number of moves that the winner has left.
    pub fn moves_left(&self) -> u8
        ensures { result + made_in self.now ≡ self.now.solution.moves }
    {
        (self.solved.last_ply() - self.ply) / 2
    }

    /// Whether the side to move has a legal move. If it is the loser's turn, one then leads to a position that is not won.
    fn can_move(&mut self) -> bool
        requires { HasMovesLeft (seen self.old) }
        ensures some { result ≡ true → HasMove self.old.position }
        ensures defends { result ≡ true → IsLosersTurn (seen self.old) → CanDefend (seen self.old) }
        ensures none { result ≡ false → HasMove self.old.position → ⊥ }
        ensures kept { self.new ≡ self.old }
    {
        let next = self.ply + 1;
        let sets = sets_into(&self.solved, self.unwon.as_slice(), next);
        let table = MaskSets::new(self.solved.masks(), sets);
        has_move_into(&mut self.search, &table, &self.position)
    }

    /// Returns whose turn it is, if the side to move has a legal move.
    fn turn(&self) -> Stand
        requires left { HasMovesLeft (seen self.now) }
        requires moves { HasMove self.now.position }
        ensures { StandsAs (seen self.now) result }
    {
        if self.position.turn() == self.solved.winner() {
            Stand::Attack
        } else {
            Stand::Answer
        }
    }

    /// Returns the state of the game. If the loser is to answer, some legal move of his, to any square of the board,
    /// leads to a position from which the winner does not mate within the moves left. A failed allocation only makes it slower.
    pub fn stand(&mut self) -> Stand
        ensures stands { StandsAs (seen self.old) result }
        ensures defends { result ≡ Stand.Answer → CanDefend (seen self.old) }
        ensures kept { self.new ≡ self.old }
    {
        let _position = self.position();
        if self.moves_left() == 0 {
            return Stand::Held;
        }
        if !self.can_move() {
            return Stand::Stuck;
        }
        self.turn()
    }

    /// The loser's first move, by man, ray and distance, to a square of the frame, that leads to a position that is not won.
    fn pick(&mut self) -> Option<Choice>
        requires left { HasMovesLeft (seen self.old) }
        requires turn { IsLosersTurn (seen self.old) }
        ensures pick { DefencePick (seen self.old) result }
        ensures kept { self.new ≡ self.old }
    {
        let next = self.ply + 1;
        let sets = sets_into(&self.solved, self.unwon.as_slice(), next);
        let table = MaskSets::new(self.solved.masks(), sets);
        let aim = Aim {
            position: &self.position,
            frame: self.frame,
            sets: &table,
        };
        first_move(&mut self.search, &aim)
    }

    /// Makes a move that keeps the defence.
    fn make(&mut self, mv: Move) -> Result<(), Illegal>
        requires { (q : Board) → Legal self.old.position mv.man (target mv) q → IsDefence (moved_to self.old q) }
        ensures legal { OnOk result (Legal self.old.position mv.man (target mv) self.new.position) }
        ensures after { OnOk result (self.new ≡ moved_to self.old self.new.position) }
        ensures reason { IfErr result (IsRefusal self.old.position mv.man (target mv)) }
        ensures illegal { OnErr result ((q : Board) → Legal self.old.position mv.man (target mv) q → ⊥) }
        ensures unchanged { OnErr result (self.new ≡ self.old) }
    {
        match try_move(&self.position, mv) {
            Ok(after) => {
                self.position = after;
                self.ply += 1;
                Ok(())
            }
            Err(reason) => Err(reason),
        }
    }

    /// Makes the winner's move. The error is the first reason why it is not legal. Allocates nothing.
    pub fn typed(&mut self, mv: Move) -> Result<(), Illegal>
        requires left { HasMovesLeft (seen self.old) }
        requires turn { IsWinnersTurn (seen self.old) }
        ensures legal { OnOk result (Legal self.old.position mv.man (target mv) self.new.position) }
        ensures after { OnOk result (self.new ≡ moved_to self.old self.new.position) }
        ensures reason { IfErr result (IsRefusal self.old.position mv.man (target mv)) }
        ensures illegal { OnErr result ((q : Board) → Legal self.old.position mv.man (target mv) q → ⊥) }
        ensures unchanged { OnErr result (self.new ≡ self.old) }
    {
        let _position = self.position();
        self.make(mv)
    }

    /// Makes the loser's first move, by man, ray and distance, that goes to a square of the frame and leads to a
    /// position from which the winner does not mate within the moves left; captures are included. The error is that
    /// there is no such move in the frame. A failed allocation only makes it slower.
    pub fn answer(&mut self) -> Result<Move, TooWide>
        requires left { HasMovesLeft (seen self.old) }
        requires turn { IsLosersTurn (seen self.old) }
        ensures defended { IfOk result (λ mv. IsDefendedBy self.old mv self.new) }
        ensures wide { OnErr result (DefencePick (seen self.old) None) }
        ensures unchanged { OnErr result (self.new ≡ self.old) }
    {
        let _position = self.position();
        let Some(choice) = self.pick() else {
            return Err(TooWide);
        };
        match self.make(choice.mv) {
            Ok(()) => Ok(choice.mv),
            Err(_) => unreachable!(),
        }
    }
}
