//! The plies and masks for which a claim has a set, in order.

ghost use Rattle.std.specs.Prelude.{◌≡◌, ◌+◌, ◌≤◌, ◌++◌, ℕ, map, IfOk, OnOk};
ghost use Rattle.mate_plan.specs.Claim.{every_second as second_plies, losers_plies};
ghost use Rattle.strategy_file.specs.StrategyFile.{places_with};

use chess_game::Side;
use limits::MOST_MOVES;
use mate_plan::plies_before_turn;
use std::alloc::{AllocError, Global};

/// Adds a ply with each of some masks.
fn push_masks(places: &mut Vec<(u8, u8)>, ply: u8, masks: &[u8]) -> Result<(), AllocError>
    ensures { OnOk result (places.new.items ≡ places.old.items ++ map (λ mask. (ply, mask)) masks.now) }
{
    for mask in masks {
        places.push((ply, *mask))?;
    }
    Ok(())
}

/// Returns the plies of the loser in ascending order, each with every mask in ascending order.
pub fn places(
    alloc: Global,
    winner: Side,
    turn: Side,
    moves: u8,
    masks: &[u8],
) -> Result<Vec<(u8, u8)>, AllocError>
    requires { moves ≤ MOST_MOVES }
    ensures { IfOk result (λ places. places.items ≡ places_with (losers_plies winner turn moves) masks.now) }
{
    let first = plies_before_turn(winner.other(), turn);
    every_second(alloc, first, moves + plies_before_turn(winner, turn), masks)
}

/// Returns `count` plies, every second one, each with each mask.
fn every_second(
    alloc: Global,
    first: u8,
    count: u8,
    masks: &[u8],
) -> Result<Vec<(u8, u8)>, AllocError>
    requires first { first ≤ 1 }
    requires count { count ≤ MOST_MOVES + 1 }
    ensures { IfOk result (λ places. places.items ≡ places_with (second_plies first count) masks.now) }
{
    let mut places = Vec::new(alloc);
    for i in 0..count {
        push_masks(&mut places, first + 2 * i, masks)?;
    }
    Ok(places)
}
