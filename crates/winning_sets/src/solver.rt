//! Solves a position for one number of moves after another.
ghost use Rattle.std.specs.Prelude.{◌≡◌, ◌+◌, ◌<◌, ◌≤◌, [], IfErr, IfOk, IfNone, IfSome, OnErr, OnOk, length};
ghost use Rattle.game_rules.specs.Game.{Sound};
ghost use Rattle.set_plan.specs.Outcome.{IsPlanError};
ghost use Rattle.mate_plan.specs.PlanOf.{last_ply as last_of, plan_of};
ghost use Rattle.winning_sets.specs.Solve.{AreKept, AreKeptFor, AreReachedTo, IsAnswer, IsOf, IsReachedSet, IsSolveError, IsSolverAfter, IsUnreached, IsWithin, forward_to, kept_at, last_for, plan_for, plies_of, reach_at};

use crate::kept::{kept_levels, push_level};
use crate::lent::{copied, empty_sets, lent};
use crate::names::{SolveError, solve_error};
use crate::ply_sets::PlySets;
use crate::solved::Solved;
use crate::turns::{last_ply, side_at};
use auto_core::Auto;
use chess_game::{Position, Side};
use limits::{Budget, MOST_MOVES};
use mask_sets::place_of_mask;
use mate_plan::{
    LevelNames, PartName, PlanContext, PlanState, ReachedLevel, point_level, reach_level,
};
use rule_formula::masks;
use set_plan::PlanError;
use std::alloc::{AllocError, Global};
use std::marker::Model;

/// A solver of one position for one number of moves after another. The reached sets of a ply are computed once.
#[derive(Drop)]
pub struct Solver {
    alloc: Global,
    position: Position,
    winner: Side,
    /// Its sets are those of the levels, followed by what a failed solution has left.
    work: PlanState,
    /// The number of sets of the levels.
    count: u32,
    masks: Vec<u8>,
    empties: Vec<Auto>,
    /// What is reached at each ply.
    levels: Vec<LevelNames>,
}

impl Model for Solver {
    ghost use Rattle.std.specs.Prelude.{◌≤◌, length, map, take};
    ghost use Rattle.winning_sets.specs.Lent.{sets_or};
    ghost use Rattle.winning_sets.specs.Solve.{SolverState};
    ghost use Rattle.winning_sets.specs.Finished.{AreFinished};

    ghost Value = { SolverState };

    ghost view = { λ s.
        record {
          position = s.position;
          winner = s.winner;
          budget = s.work.memo.budget;
          reach = map (sets_or (take s.count s.work.sets) s.empties.items) s.levels.items;
        } };

    ghost invariant = { λ s. (s.count ≤ length s.work.sets)
        × AreFinished s.position s.work.memo.budget s.masks.items s.empties.items (take s.count s.work.sets)
        s.levels.items };
}

impl Solver {
    /// Creates a solver of a position. Each step has this budget of states.
    pub fn new(alloc: Global, p: &Position, winner: Side, budget: Budget) -> Solver
        requires sound { Sound p.now }
        ensures { result ≡ record { position = p.now; winner = winner; budget = budget; reach = [] } }
    {
        let _ = p.count(); // for its invariant
        Solver {
            alloc,
            position: *p,
            winner,
            work: PlanState::new(alloc, budget),
            count: 0,
            masks: Vec::new(alloc),
            empties: Vec::new(alloc),
            levels: Vec::new(alloc),
        }
    }

    /// Returns the last ply whose reached sets are known, or 0 if there is none. It never falls.
    pub fn plies(&self) -> u8
        ensures { result ≡ plies_of self.now }
    {
        match self.levels.len() {
            0 => 0,
            count => (count - 1) as u8,
        }
    }

    /// The number of plies at which all that is reached is known.
    fn finished(&self) -> usize
        ensures { result ≡ length self.now.reach }
    {
        self.levels.len()
    }

    /// Returns the set of the positions reached at a ply after the first, with the live men of a mask.
    pub fn reach(&self, ply: u8, mask: u8) -> Option<&Auto>
        ensures some { IfSome result (λ a. IsReachedSet self.now ply mask a.now) }
        ensures none { IfNone result (IsUnreached self.now ply mask) }
    {
        if ply == 0 || ply as usize >= self.levels.len() {
            return None;
        }
        let k = place_of_mask(self.masks.as_slice(), mask)?;
        let names = self.levels[ply as usize].as_slice();
        Some(lent(&self.work.sets, &self.empties[k], names[k]))
    }

    /// Solves the position for this number of the winner's moves. Reached sets of finished plies are not computed
    /// again, even if the earlier call failed. The error is the first step that exceeds the budget, or that an
    /// allocation failed.
    pub fn solve(&mut self, moves: u8) -> Result<Solved, SolveError>
        requires moves { moves ≤ MOST_MOVES }
        ensures game { IfOk result (IsOf self.old.position self.old.winner moves) }
        ensures kept { IfOk result (λ s. AreKept self.old.winner self.old.position moves (kept_at s)) }
        ensures reached { IfOk result (λ s. AreReachedTo self.old.position (last_for self.old moves) (reach_at s)) }
        ensures within { OnOk result (IsWithin (plan_for self.old moves) self.old.budget) }
        ensures error { IfErr result (IsSolveError (plan_for self.old moves) moves self.old.budget) }
        ensures after { IsSolverAfter self.old self.new }
        ensures plies { OnOk result (last_for self.old moves ≤ plies_of self.new) }
    {
        let answer = self.answer(moves);
        self.let_go();
        match answer {
            Ok(solved) => Ok(solved),
            Err(error) => Err(solve_error(moves, error)),
        }
    }

    /// Computes the solution of the plan. Sets that do not belong to the levels may be left.
    fn answer(&mut self, moves: u8) -> Result<Solved, PlanError<PartName>>
        requires moves { moves ≤ MOST_MOVES }
        ensures answer { IfOk result (IsAnswer self.old.position self.old.winner moves) }
        ensures within { OnOk result (IsWithin (plan_for self.old moves) self.old.budget) }
        ensures error { IfErr result (IsPlanError (plan_for self.old moves) self.old.budget) }
        ensures after { IsSolverAfter self.old self.new }
        ensures plies { OnOk result (last_for self.old moves ≤ plies_of self.new) }
    {
        let last = last_ply(self.winner, self.position.turn(), moves);
        if last == 0 {
            return Ok(self.without_steps(moves)?);
        }
        self.reach_to(last)?;
        let kept = self.kept_sets(moves, last)?;
        Ok(self.with_steps(moves, last, kept)?)
    }

    /// Returns the solution if it is the winner's turn and he has no move.
    fn without_steps(&self, moves: u8) -> Result<Solved, AllocError>
        requires moves { moves ≤ MOST_MOVES }
        requires none { last_for self.now moves ≡ 0 }
        ensures { IfOk result (IsAnswer self.now.position self.now.winner moves) }
    {
        let all = masks(self.alloc, &self.position)?;
        let empties = empty_sets(self.alloc, &self.position, all.as_slice())?;
        let mut kept = Vec::new(self.alloc);
        kept.push(PlySets::new(empties))?;
        Ok(Solved::new(
            self.position,
            self.winner,
            moves,
            all,
            kept,
            Vec::new(self.alloc),
        ))
    }

    /// Returns the solution with the kept sets of each ply.
    fn with_steps(&self, moves: u8, last: u8, kept: Vec<PlySets>) -> Result<Solved, AllocError>
        requires moves { moves ≤ MOST_MOVES }
        requires last { last ≡ last_for self.now moves }
        requires some { 0 < last }
        requires finished { last < length self.now.reach }
        requires kept { AreKeptFor self.now moves kept.items }
        ensures { IfOk result (IsAnswer self.now.position self.now.winner moves) }
    {
        let all = masks(self.alloc, &self.position)?;
        let levels = &self.levels.as_slice()[..last as usize + 1];
        let reach = copied(self.alloc, &self.work.sets, self.empties.as_slice(), levels)?;
        Ok(Solved::new(self.position, self.winner, moves, all, kept, reach))
    }

    /// Makes what is reached at the plies up to the last that are not finished.
    fn reach_to(&mut self, last: u8) -> Result<(), PlanError<PartName>>
        requires { last ≤ 41 }
        ensures error { IfErr result (IsPlanError (forward_to self.old last) self.old.budget) }
        ensures after { IsSolverAfter self.old self.new }
        ensures plies { OnOk result (last < length self.new.reach) }
    {
        if self.finished() == 0 {
            self.start()?;
        }
        'plies: while self.finished() <= last as usize {
            self.reach_next()?;
        }
        Ok(())
    }

    /// Makes what is reached at the first ply.
    fn start(&mut self) -> Result<(), PlanError<PartName>>
        requires { self.old.reach ≡ [] }
        ensures error { IfErr result (IsPlanError (forward_to self.old 0) self.old.budget) }
        ensures after { IsSolverAfter self.old self.new }
        ensures count { OnOk result (length self.new.reach ≡ 1) }
    {
        let all = masks(self.alloc, &self.position)?;
        let empties = empty_sets(self.alloc, &self.position, all.as_slice())?;
        let bench = PlanContext {
            alloc: self.alloc,
            position: &self.position,
            masks: all.as_slice(),
        };
        let level = point_level(&bench, &mut self.work)?;
        push_level(&mut self.levels, level)?;
        self.masks = all;
        self.empties = empties;
        self.count = self.work.sets.count();
        Ok(())
    }

    /// Makes what is reached at the next ply.
    fn reach_next(&mut self) -> Result<(), PlanError<PartName>>
        requires some { 0 < length self.old.reach }
        requires room { length self.old.reach ≤ 41 }
        ensures error { IfErr result (IsPlanError (forward_to self.old (length self.old.reach)) self.old.budget) }
        ensures after { IsSolverAfter self.old self.new }
        ensures count { OnOk result (length self.new.reach ≡ length self.old.reach + 1) }
    {
        let ply = self.levels.len() as u8;
        let side = side_at(self.position.turn(), ply - 1);
        let bench = PlanContext {
            alloc: self.alloc,
            position: &self.position,
            masks: self.masks.as_slice(),
        };
        let from = ReachedLevel {
            side,
            ply,
            level: &self.levels[ply as usize - 1],
        };
        let level = reach_level(&bench, &mut self.work, &from)?;
        push_level(&mut self.levels, level)?;
        self.count = self.work.sets.count();
        Ok(())
    }

    /// What is kept at each ply. Sets that are not of the levels are left.
    fn kept_sets(&mut self, moves: u8, last: u8) -> Result<Vec<PlySets>, PlanError<PartName>>
        requires last { last ≡ last_for self.old moves }
        requires some { 0 < last }
        requires finished { last < length self.old.reach }
        ensures kept { IfOk result (λ sets. AreKeptFor self.old moves sets.items) }
        ensures within { OnOk result (IsWithin (plan_for self.old moves) self.old.budget) }
        ensures error { IfErr result (IsPlanError (plan_for self.old moves) self.old.budget) }
        ensures same { self.new ≡ self.old }
    {
        let levels = &self.levels.as_slice()[..last as usize + 1];
        let bench = PlanContext {
            alloc: self.alloc,
            position: &self.position,
            masks: self.masks.as_slice(),
        };
        let kept = kept_levels(&bench, &mut self.work, levels)?;
        Ok(copied(
            self.alloc,
            &self.work.sets,
            self.empties.as_slice(),
            kept.as_slice(),
        )?)
    }

    /// Lets go the sets that are not of the levels.
    fn let_go(&mut self)
        ensures { self.new ≡ self.old }
    {
        self.work.sets.truncate(self.count);
    }
}

/// Computes the sets of the positions from which the winner mates within `moves` moves of his own, ply by ply. The
/// error is the first step that exceeds the budget, or that an allocation failed.
pub fn solve(
    alloc: Global,
    p: &Position,
    winner: Side,
    moves: u8,
    budget: Budget,
) -> Result<Solved, SolveError>
    requires sound { Sound p.now }
    requires moves { moves ≤ MOST_MOVES }
    ensures game { IfOk result (IsOf p.now winner moves) }
    ensures kept { IfOk result (λ s. AreKept winner p.now moves (kept_at s)) }
    ensures reached { IfOk result (λ s. AreReachedTo p.now (last_of winner p.now.turn moves) (reach_at s)) }
    ensures within { OnOk result (IsWithin (plan_of winner p.now moves) budget) }
    ensures error { IfErr result (IsSolveError (plan_of winner p.now moves) moves budget) }
{
    let mut solver = Solver::new(alloc, p, winner, budget);
    solver.solve(moves)
}
