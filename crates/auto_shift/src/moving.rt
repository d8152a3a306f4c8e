//! The automaton of a set that is shifted along a track.
ghost use Rattle.std.specs.Prelude.{◌≡◌, ◌≢◌, ◌<◌, ◌≤◌, pos, length, IfOk, OnOk};
ghost use Rattle.auto_core.specs.Integers.{DecidesIntegers};
ghost use Rattle.auto_core.specs.Reduced.{AllReached};
ghost use Rattle.auto_walk.specs.Walker.{IsWalked, MoreThan};
ghost use Rattle.auto_shift.specs.Moved.{DecidesMoved, IsOverOnTheWay};
ghost use Rattle.auto_shift.specs.Shifted.{by_one, along, shift_walker};

use crate::laws::{moving_adds_up, pairs_decide_moved_sets};
use crate::pair_walk::ShiftPairs;
use auto_core::Auto;
use auto_walk::{Grown, explored};
use limits::Budget;
use std::alloc::Global;

/// Returns the automaton over the pairs of states that words reach.
fn pairs_walked(alloc: Global, a: &Auto, track: u8, up: bool, budget: Budget) -> Result<Auto, Grown>
    requires { track < length a.now.tracks }
    ensures ok { IfOk result (IsWalked (shift_walker a.now track up)) }
    ensures few { IfOk result (λ m. length m.accept ≤ budget) }
    ensures within { OnOk result (¬ MoreThan (shift_walker a.now track up) budget) }
    ensures over { result ≡ Err Grown.Over → MoreThan (shift_walker a.now track up) budget }
{
    let pairs = ShiftPairs::new(alloc, a, track, up)?;
    explored(alloc, pairs, budget)
}

/// Shifts a set by one: the result accepts a word if and only if the argument accepts the words with one more (or one less) on the
/// track.
/// Its states are the pairs of states that words reach; it need not be minimal. Errors: `Over` if they are more than the budget,
/// `Memory` if an allocation fails. Costs the pairs of nodes that are visited over all rows.
pub fn shift_by_one(
    alloc: Global,
    a: &Auto,
    track: u8,
    up: bool,
    budget: Budget,
) -> Result<Auto, Grown>
    requires integers { DecidesIntegers a.now }
    requires track { track < length a.now.tracks }
    ensures explored { IfOk result (IsWalked (shift_walker a.now track up)) }
    ensures moved { IfOk result (λ b. DecidesMoved a.now b track (by_one up)) }
    ensures integers { IfOk result (λ b. DecidesIntegers b) }
    ensures reached { IfOk result AllReached }
    ensures few { IfOk result (λ b. length b.accept ≤ budget) }
    ensures within { OnOk result (¬ MoreThan (shift_walker a.now track up) budget) }
    ensures over { result ≡ Err Grown.Over → MoreThan (shift_walker a.now track up) budget }
{
    pairs_decide_moved_sets();
    let moved = pairs_walked(alloc, a, track, up, budget)?;
    Ok(moved)
}

/// A number of shifts by one, up or down.
#[derive(Clone, Copy)]
struct UnitShifts {
    up: bool,
    times: u32,
}

impl UnitShifts {
    fn of(by: i32) -> Self
        requires { by ≢ pos 0 }
        ensures along { along result.up result.times ≡ by }
        ensures some { 0 < result.times }
    {
        UnitShifts {
            up: by > 0,
            times: by.unsigned_abs(),
        }
    }
}

/// Shifts a set by a constant: the result accepts a word if and only if the argument accepts the words with `by` added on the
/// track.
/// Repeats `shift_by_one`; `by` is not 0. Errors: `Over` if one of the shifts exceeds the budget, `Memory` if an
/// allocation fails.
pub fn shift_by(alloc: Global, a: &Auto, track: u8, by: i32, budget: Budget) -> Result<Auto, Grown>
    requires integers { DecidesIntegers a.now }
    requires track { track < length a.now.tracks }
    requires by { by ≢ pos 0 }
    ensures moved { IfOk result (λ b. DecidesMoved a.now b track by) }
    ensures integers { IfOk result (λ b. DecidesIntegers b) }
    ensures reached { IfOk result AllReached }
    ensures few { IfOk result (λ b. length b.accept ≤ budget) }
    ensures within { OnOk result (¬ IsOverOnTheWay a.now track by budget) }
    ensures over { result ≡ Err Grown.Over → IsOverOnTheWay a.now track by budget }
{
    moving_adds_up();
    let UnitShifts { up, times } = UnitShifts::of(by);
    let mut moved = shift_by_one(alloc, a, track, up, budget)?;
    for _done in 1..times {
        moved = shift_by_one(alloc, &moved, track, up, budget)?;
    }
    Ok(moved)
}
