//! Executes the plan of a crowd, path by path.

ghost use Rattle.std.specs.Prelude.{◌≡◌, ◌↔◌, ◌<◌, ◌≤◌, ◌+◌, ◌^◌, ◌∷◌, [], suc, true, Contains, IfErr, IfOk, IsTrue, Some, length};
ghost use Rattle.auto_core.specs.Automaton.{Automaton};
ghost use Rattle.game_rules.specs.Game.{Sound, Value, other};
ghost use Rattle.lin_formula.specs.SetOf.{Nothing, Table, as_set};
ghost use Rattle.line_formula.specs.Paths.{options_at};
ghost use Rattle.rule_formula.specs.Fits.{target_of};
ghost use Rattle.rule_formula.specs.Placed.{is_live};
ghost use Rattle.set_plan.specs.Outcome.{Ends};
ghost use Rattle.line_plan.specs.Plan as plan;
ghost use Rattle.line_engine.specs.Answers.{Answers, IsErrorOf, IsFilled, IsFilledOn, IsFilledLosing, IsOneSet, escape_by, found_at, losing_at, most_of_option, most_steps};
ghost use Rattle.line_engine.specs.Nodes.{position_of};

use crate::crowd::Crowd;
use crate::errors::CrowdError;
use crate::losing::LoserProgress;
use crate::node::{leg, mask_of, target, with_first};
use crate::parts::{checked, reach};
use crate::path::{PathNode, PathStep};
use crate::sets::{copied, difference, join, one_set, shortened, shortened_rest};
use crate::work::EngineState;
use auto_core::Auto;
use chess_game::MOST_CROWD;
use formula_auto::SetTable;
use limits::Budget;
use line_formula::{Force, MOST_LEGS, options};
use rule_formula::Opt;
use std::alloc::{AllocError, Global};

/// The greatest number of moves of the winner for a crowd.
pub const MOST_CROWD_MOVES: u8 = 2;

/// A path after which a side is to move, with what is reached there, and how many moves of both sides are left after that one.
#[derive(Clone, Copy)]
struct Ply<'a> {
    node: PathNode<'a>,
    reached: &'a SetTable,
    left: u8,
}

/// Returns the distances at which the moves of the path are legal and the winner mates with the moves left, of both sides.
#[cycle(kept)]
fn kept(
    work: &mut EngineState,
    node: &PathNode,
    left: u8,
    reached: Auto,
) -> Result<Option<Auto>, CrowdError>
    requires sound { Sound (position_of node.now.crowd) }
    requires few { length node.now.path.now + left ≤ MOST_LEGS }
    requires set { IsFilledOn (plan.distances (length node.now.path.now)) reached }
    requires room { work.old.at + most_steps left ≤ 2 ^ 127 }
    ensures answers { Answers
        (plan.kept (position_of node.now.crowd) node.now.crowd.winner left node.now.path.now (Table reached, work.old.at))
        work.old.memo.budget (found_at work.new.at) result }
    ensures set { IfOk result (IsFilled (length node.now.path.now)) }
    ensures room { IfOk result (λ _. work.new.at ≤ work.old.at + most_steps left) }
    ensures budget { work.new.memo.budget ≡ work.old.memo.budget }
{
    if left == 0 {
        return Ok(None);
    }
    let sets = one_set(work.alloc, reached)?;
    let ply = Ply {
        node: *node,
        reached: &sets,
        left: left - 1,
    };
    if node.is_winners() {
        win(work, ply)
    } else {
        lose(work, ply)
    }
}

/// Returns the distances at which one of the winner's options is legal and leads to kept distances.
#[cycle(kept)]
fn win(work: &mut EngineState, ply: Ply) -> Result<Option<Auto>, CrowdError>
    requires sound { Sound (position_of ply.node.crowd) }
    requires few { length ply.node.path.now + suc ply.left ≤ MOST_LEGS }
    requires set { IsOneSet (length ply.node.path.now) ply.reached.now }
    requires room { work.old.at + most_steps (suc ply.left) ≤ 2 ^ 127 }
    ensures answers { (a : Automaton) → ply.entry.reached.now ≡ a ∷ [] → Answers
        (plan.win (position_of ply.entry.node.crowd) ply.entry.node.crowd.winner
        (plan.kept (position_of ply.entry.node.crowd) ply.entry.node.crowd.winner ply.entry.left)
        ply.entry.node.path.now (Table a) work.old.at)
        work.old.memo.budget (found_at work.new.at) result }
    ensures set { IfOk result (IsFilled (length ply.entry.node.path.now)) }
    ensures room { IfOk result (λ _. work.new.at ≤ work.old.at + most_steps (suc ply.entry.left)) }
    ensures budget { work.new.memo.budget ≡ work.old.memo.budget }
{
    let node = ply.node;
    let choices = options(work.alloc, node.crowd.men, node.force)?;
    let mut so_far = None;
    for option in choices.as_slice() {
        so_far = with_won(work, ply, *option, so_far)?;
    }
    Ok(so_far)
}

/// The same with one more option.
#[cycle(kept)]
fn with_won(
    work: &mut EngineState,
    ply: Ply,
    option: Opt,
    so_far: Option<Auto>,
) -> Result<Option<Auto>, CrowdError>
    requires sound { Sound (position_of ply.node.crowd) }
    requires few { length ply.node.path.now + suc ply.left ≤ MOST_LEGS }
    requires set { IsOneSet (length ply.node.path.now) ply.reached.now }
    requires listed { Contains (options_at (position_of ply.node.crowd) ply.node.path.now) option }
    requires so_far { IsFilled (length ply.node.path.now) so_far }
    requires room { work.old.at + most_of_option ply.left ≤ 2 ^ 127 }
    ensures answers { (a : Automaton) → ply.entry.reached.now ≡ a ∷ [] → Answers
        (plan.win_option (position_of ply.entry.node.crowd) ply.entry.node.crowd.winner
        (plan.kept (position_of ply.entry.node.crowd) ply.entry.node.crowd.winner ply.entry.left)
        ply.entry.node.path.now (Table a) option (found_at work.old.at so_far))
        work.old.memo.budget (found_at work.new.at) result }
    ensures set { IfOk result (IsFilled (length ply.entry.node.path.now)) }
    ensures room { IfOk result (λ _. work.new.at ≤ work.old.at + most_of_option ply.entry.left) }
    ensures budget { work.new.memo.budget ≡ work.old.memo.budget }
{
    let before = ply.node;
    let leg = leg(before.crowd.men, option);
    let path = with_first(work.alloc, option, before.path)?;
    let legs = with_first(work.alloc, leg, before.legs)?;
    let after = PathNode {
        crowd: before.crowd,
        path: path.as_slice(),
        legs: legs.as_slice(),
        force: force_after(before.force, option),
    };
    let step = PathStep {
        before,
        after,
        option,
        leg,
    };
    let Some(next) = reach(work, &step, ply.reached)? else {
        return Ok(so_far);
    };
    let Some(kept) = kept(work, &after, ply.left, next)? else {
        return Ok(so_far);
    };
    let item = shortened(work, before.count(), kept)?;
    join(work, before.count(), so_far, item)
}

/// Returns the distances at which the loser is in check or has a move, and does not escape.
#[cycle(kept)]
fn lose(work: &mut EngineState, ply: Ply) -> Result<Option<Auto>, CrowdError>
    requires sound { Sound (position_of ply.node.crowd) }
    requires few { length ply.node.path.now + suc ply.left ≤ MOST_LEGS }
    requires set { IsOneSet (length ply.node.path.now) ply.reached.now }
    requires room { work.old.at + most_steps (suc ply.left) ≤ 2 ^ 127 }
    ensures answers { (a : Automaton) → ply.entry.reached.now ≡ a ∷ [] → Answers
        (plan.lose (position_of ply.entry.node.crowd) ply.entry.node.crowd.winner
        (plan.kept (position_of ply.entry.node.crowd) ply.entry.node.crowd.winner ply.entry.left)
        ply.entry.node.path.now (Table a) work.old.at)
        work.old.memo.budget (found_at work.new.at) result }
    ensures set { IfOk result (IsFilled (length ply.entry.node.path.now)) }
    ensures room { IfOk result (λ _. work.new.at ≤ work.old.at + most_steps (suc ply.entry.left)) }
    ensures budget { work.new.memo.budget ≡ work.old.memo.budget }
{
    let node = ply.node;
    let choices = options(work.alloc, node.crowd.men, node.force)?;
    let mut lost = LoserProgress {
        escape: None,
        moves: None,
    };
    for option in choices.as_slice() {
        lost = with_lost(work, ply, *option, lost)?;
    }
    let count = node.count();
    let LoserProgress { escape, moves } = lost;
    let check = checked(work, &node, ply.reached)?;
    let all = join(work, count, check, moves)?;
    difference(work, count, all, escape)
}

/// What is found with one more option of the loser.
#[cycle(kept)]
fn with_lost(
    work: &mut EngineState,
    ply: Ply,
    option: Opt,
    lost: LoserProgress,
) -> Result<LoserProgress, CrowdError>
    requires sound { Sound (position_of ply.node.crowd) }
    requires few { length ply.node.path.now + suc ply.left ≤ MOST_LEGS }
    requires set { IsOneSet (length ply.node.path.now) ply.reached.now }
    requires listed { Contains (options_at (position_of ply.node.crowd) ply.node.path.now) option }
    requires lost { IsFilledLosing (length ply.node.path.now) lost }
    requires room { work.old.at + most_of_option ply.left ≤ 2 ^ 127 }
    ensures answers { (a : Automaton) → ply.entry.reached.now ≡ a ∷ [] → Answers
        (plan.lose_option (position_of ply.entry.node.crowd) ply.entry.node.crowd.winner
        (plan.kept (position_of ply.entry.node.crowd) ply.entry.node.crowd.winner ply.entry.left)
        ply.entry.node.path.now (Table a) option (losing_at work.old.at lost))
        work.old.memo.budget (losing_at work.new.at) result }
    ensures sets { IfOk result (IsFilledLosing (length ply.entry.node.path.now)) }
    ensures room { IfOk result (λ _. work.new.at ≤ work.old.at + most_of_option ply.entry.left) }
    ensures budget { work.new.memo.budget ≡ work.old.memo.budget }
{
    let before = ply.node;
    let leg = leg(before.crowd.men, option);
    let path = with_first(work.alloc, option, before.path)?;
    let legs = with_first(work.alloc, leg, before.legs)?;
    let after = PathNode {
        crowd: before.crowd,
        path: path.as_slice(),
        legs: legs.as_slice(),
        force: force_after(before.force, option),
    };
    let step = PathStep {
        before,
        after,
        option,
        leg,
    };
    let Some(next) = reach(work, &step, ply.reached)? else {
        return Ok(lost);
    };
    let kept = kept(work, &after, ply.left, next.copy()?)?;
    escaped(work, before.count(), next, kept, lost)
}

/// Returns the live men after a move by the option, and the side to move then.
fn force_after(force: Force, option: Opt) -> Force
    requires high { option.taken ≤ MOST_CROWD }
    requires live { 0 < option.taken → is_live force.mask option.taken ≡ true }
    ensures mask { result.mask ≡ target_of force.mask option }
    ensures side { result.side ≡ other force.side }
{
    Force {
        mask: target(option, force.mask),
        side: force.side.other(),
    }
}

/// What is found with an option by which this is reached, of which this is kept.
fn escaped(
    work: &mut EngineState,
    count: u8,
    reached: Auto,
    kept: Option<Auto>,
    lost: LoserProgress,
) -> Result<LoserProgress, CrowdError>
    requires few { count ≤ 5 }
    requires reached { IsFilledOn (plan.distances (suc count)) reached }
    requires kept { IsFilled (suc count) kept }
    requires lost { IsFilledLosing count lost }
    requires room { work.old.at + 4000 ≤ 2 ^ 127 }
    ensures answers { Answers (escape_by count (Table reached) (as_set kept) (losing_at work.old.at lost))
        work.old.memo.budget (losing_at work.new.at) result }
    ensures sets { IfOk result (IsFilledLosing count) }
    ensures room { IfOk result (λ _. work.new.at ≤ work.old.at + 4000) }
    ensures budget { work.new.memo.budget ≡ work.old.memo.budget }
{
    match kept {
        None => always_escaped(work, count, reached, lost),
        Some(kept) => escaped_unless(work, count, reached, kept, lost),
    }
}

/// Adds an option after which nothing is kept. The loser escapes at every distance at which the move is legal: the set
/// is computed once and used twice.
fn always_escaped(
    work: &mut EngineState,
    count: u8,
    reached: Auto,
    lost: LoserProgress,
) -> Result<LoserProgress, CrowdError>
    requires few { count ≤ 5 }
    requires reached { IsFilledOn (plan.distances (suc count)) reached }
    requires lost { IsFilledLosing count lost }
    requires room { work.old.at + 4000 ≤ 2 ^ 127 }
    ensures answers { Answers (escape_by count (Table reached) Nothing (losing_at work.old.at lost))
        work.old.memo.budget (losing_at work.new.at) result }
    ensures sets { IfOk result (IsFilledLosing count) }
    ensures room { IfOk result (λ _. work.new.at ≤ work.old.at + 4000) }
    ensures budget { work.new.memo.budget ≡ work.old.memo.budget }
{
    let first = shortened(work, count, reached)?;
    let second = copied(&first)?;
    let escape = join(work, count, lost.escape, first)?;
    work.at += 1;
    let moves = join(work, count, lost.moves, second)?;
    Ok(LoserProgress { escape, moves })
}

/// Adds an option after which this set is kept.
fn escaped_unless(
    work: &mut EngineState,
    count: u8,
    reached: Auto,
    kept: Auto,
    lost: LoserProgress,
) -> Result<LoserProgress, CrowdError>
    requires few { count ≤ 5 }
    requires reached { IsFilledOn (plan.distances (suc count)) reached }
    requires kept { IsFilledOn (plan.distances (suc count)) kept }
    requires lost { IsFilledLosing count lost }
    requires room { work.old.at + 4000 ≤ 2 ^ 127 }
    ensures answers { Answers (escape_by count (Table reached) (Table kept) (losing_at work.old.at lost))
        work.old.memo.budget (losing_at work.new.at) result }
    ensures sets { IfOk result (IsFilledLosing count) }
    ensures room { IfOk result (λ _. work.new.at ≤ work.old.at + 4000) }
    ensures budget { work.new.memo.budget ≡ work.old.memo.budget }
{
    let again = reached.copy()?;
    let rest = shortened_rest(work, count, again, kept)?;
    let escape = join(work, count, lost.escape, rest)?;
    let item = shortened(work, count, reached)?;
    let moves = join(work, count, lost.moves, item)?;
    Ok(LoserProgress { escape, moves })
}

/// The automaton of the empty tuple: it accepts each word over no track.
fn no_distance(alloc: Global) -> Result<Auto, AllocError>
    ensures { IfOk result (IsFilledOn []) }
{
    let mut first = Vec::new(alloc);
    first.push(0)?;
    let mut next = Vec::new(alloc);
    next.push(0)?;
    let mut accept = Vec::new(alloc);
    accept.push(true)?;
    let one = Auto::from_rows(alloc, Vec::new(alloc), first, next, accept)?;
    Ok(one)
}

/// Returns the number of moves of both sides until the winner has made `moves` moves.
fn plies(crowd: &Crowd, moves: u8) -> u8
    requires { moves ≤ MOST_CROWD_MOVES }
    ensures { result ≡ plan.plies crowd.now.turn crowd.now.winner moves }
{
    if crowd.turn == crowd.winner {
        2 * moves
    } else {
        2 * moves + 1
    }
}

/// Returns whether the winner mates within `moves` moves of his own. Each step of the plan has this budget of states.
///
/// The error is the first step that exceeds the budget, or that an allocation failed. The run is exponential in the
/// number of moves of both sides.
pub fn decide_crowd(
    alloc: Global,
    crowd: &Crowd,
    moves: u8,
    budget: Budget,
) -> Result<bool, CrowdError>
    requires sound { Sound (position_of crowd.now) }
    requires moves { moves ≤ MOST_CROWD_MOVES }
    ensures verdict { IfOk result (λ mates. IsTrue mates ↔ Value crowd.now.winner moves (position_of crowd.now)) }
    ensures within { IfOk result
        (λ mates. Ends (plan.plan (position_of crowd.now) crowd.now.winner moves) budget (Some mates)) }
    ensures over { IfErr result (IsErrorOf (plan.plan (position_of crowd.now) crowd.now.winner moves) budget) }
{
    let mut work = EngineState::new(alloc, budget);
    let node = PathNode {
        crowd: *crowd,
        path: &[],
        legs: &[],
        force: Force {
            mask: mask_of(crowd.men),
            side: crowd.turn,
        },
    };
    let start = no_distance(alloc)?;
    let kept = kept(&mut work, &node, plies(crowd, moves), start)?;
    Ok(kept.is_some())
}
