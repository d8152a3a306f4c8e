//! A game that the winner plays.
ghost use Rattle.std.specs.Prelude.{◌≡◌, ◌↔◌, ◌+◌, None, IfOk, IfErr, OnErr, OnOk, IsTrue};
ghost use Rattle.game_rules.specs.Game.{Legal, Mate, Position as Board, Value, other};
ghost use Rattle.chess_game.specs.Refusal.{IsRefusal};
ghost use Rattle.move_choice.specs.Choice.{target};
ghost use Rattle.winner_session.specs.Game.{IsGame, IsPicked, LostIn, WinPick, choice_of, made_in, moved_to, start_of};

use auto_search::Search;
use chess_game::{Frame, Illegal, Move, Position, Side, mated, try_move};
use mask_sets::MaskSets;
use move_choice::{Aim, Choice, first_move};
use std::alloc::Global;
use std::marker::Model;
use winning_sets::Solved;

/// A move that was made, the number of its ray, its distance in steps of the ray, and whether it mates.
#[derive(Clone, Copy, PartialEq, Eq)]
pub struct Played {
    pub mv: Move,
    pub ray: u8,
    pub distance: u128,
    pub mated: bool,
}

/// No move to a square of the frame leads into the sets of the next ply.
#[derive(Clone, Copy, PartialEq, Eq)]
pub struct TooWide;

/// A game from a solved position. The winner still mates within the moves that he has left.
#[derive(Drop)]
pub struct Session {
    solved: Solved,
    search: Search,
    frame: Frame,
    position: Position,
    ply: u8,
}

impl Model for Session {
    ghost use Rattle.winner_session.specs.Game.{Game, HasRoom, IsGame};

    ghost Value = { Game };

    ghost view = { λ s. record { solution = s.solved; frame = s.frame; position = s.position; ply = s.ply } };

    ghost invariant = { λ s. IsGame (record { solution = s.solved; frame = s.frame; position = s.position; ply = s.ply })
        × HasRoom s.search s.solved };
}

impl Session {
    /// Starts a game and allocates all its memory. If an allocation fails, the solved position is returned as the
    /// error.
    pub fn begin(alloc: Global, solved: Solved, frame: Frame) -> Result<Session, Solved>
        requires { Value solved.winner solved.moves solved.position }
        ensures ok { IfOk result (λ s. s ≡ start_of solved frame) }
        ensures err { IfErr result (λ back. back ≡ solved) }
    {
        let _masks = solved.masks();
        match Search::reserve(alloc, solved.most_states()) {
            Ok(search) => {
                let position = solved.position();
                Ok(Session {
                    solved,
                    search,
                    frame,
                    position,
                    ply: 0,
                })
            }
            Err(_) => Err(solved),
        }
    }

    /// Returns the current position.
    pub fn position(&self) -> Position
        ensures position { result ≡ self.now.position }
        ensures game { IsGame self.now }
    {
        self.position
    }

    /// Returns the winner, the side that mates.
    pub fn winner(&self) -> Side
        ensures { result ≡ self.now.solution.winner }
    {
        self.solved.winner()
    }

    /// Returns the number of moves that the winner has left.
    pub fn moves_left(&self) -> u8
        ensures { result + made_in self.now ≡ self.now.solution.moves }
    {
        (self.solved.last_ply() - self.ply) / 2
    }

    /// Returns whether the side to move is mated. It is then the loser's turn.
    pub fn over(&self) -> bool
        ensures { IsTrue result ↔ Mate self.now.position }
    {
        mated(&self.position)
    }

    /// The winner's first move, by man, ray and distance, that leads into the sets of the next ply.
    fn pick(&mut self) -> Option<Choice>
        requires { self.old.position.turn ≡ self.old.solution.winner }
        ensures pick { WinPick self.old result }
        ensures kept { self.new ≡ self.old }
    {
        let next = self.ply + 1;
        let sets = MaskSets::new(self.solved.masks(), self.solved.kept_sets(next));
        let aim = Aim {
            position: &self.position,
            frame: self.frame,
            sets: &sets,
        };
        first_move(&mut self.search, &aim)
    }

    /// Makes a move that keeps the game.
    fn make(&mut self, mv: Move) -> Result<(), Illegal>
        requires { (q : Board) → Legal self.old.position mv.man (target mv) q → IsGame (moved_to self.old q) }
        ensures legal { OnOk result (Legal self.old.position mv.man (target mv) self.new.position) }
        ensures after { OnOk result (self.new ≡ moved_to self.old self.new.position) }
        ensures reason { IfErr result (IsRefusal self.old.position mv.man (target mv)) }
        ensures illegal { OnErr result ((q : Board) → Legal self.old.position mv.man (target mv) q → ⊥) }
        ensures unchanged { OnErr result (self.new ≡ self.old) }
    {
        match try_move(&self.position, mv) {
            Ok(after) => {
                self.position = after;
                self.ply += 1;
                Ok(())
            }
            Err(reason) => Err(reason),
        }
    }

    /// Makes the winner's first move, by man, ray and distance, that goes to a square of the frame and leads into the
    /// sets of the next ply; captures are included. The winner then still mates within the moves left. The error is
    /// that there is no such move in the frame. A failed allocation only makes it slower.
    pub fn win_move(&mut self) -> Result<Played, TooWide>
        requires turn { self.old.position.turn ≡ self.old.solution.winner }
        ensures picked { IfOk result (λ played. IsPicked self.old (choice_of played) self.new) }
        ensures mated { IfOk result (λ played. IsTrue played.mated ↔ Mate self.new.position) }
        ensures lost { OnOk result (LostIn self.new) }
        ensures wide { OnErr result (WinPick self.old None) }
        ensures unchanged { OnErr result (self.new ≡ self.old) }
    {
        let _position = self.position();
        let Some(choice) = self.pick() else {
            return Err(TooWide);
        };
        match self.make(choice.mv) {
            Ok(()) => Ok(Played {
                mv: choice.mv,
                ray: choice.ray,
                distance: choice.distance,
                mated: self.over(),
            }),
            Err(_) => unreachable!(),
        }
    }

    /// Makes the loser's move. The error is the first reason why it is not legal; once he is mated no move is legal.
    /// Allocates nothing.
    pub fn other_move(&mut self, mv: Move) -> Result<(), Illegal>
        requires turn { self.old.position.turn ≡ other self.old.solution.winner }
        ensures legal { OnOk result (Legal self.old.position mv.man (target mv) self.new.position) }
        ensures after { OnOk result (self.new ≡ moved_to self.old self.new.position) }
        ensures reason { IfErr result (IsRefusal self.old.position mv.man (target mv)) }
        ensures illegal { OnErr result ((q : Board) → Legal self.old.position mv.man (target mv) q → ⊥) }
        ensures unchanged { OnErr result (self.new ≡ self.old) }
    {
        let _position = self.position();
        self.make(mv)
    }
}
