//! The state limit of a shifted set that ensures that no step of the image exceeds the budget.
ghost use Rattle.std.specs.Prelude.{◌≡◌, ◌+◌, ◌*◌, ◌^◌, ◌≤◌, ◌<◌, length, map, IfSome};
ghost use Rattle.shift_image.specs.Equations as equations;
ghost use Rattle.shift_image.specs.Image.{equation_of};
ghost use Rattle.shift_image.specs.Laws as laws;

use crate::shift::ValueShift;
use limits::Budget;

/// Returns the state limit of the shifted set and of its part, each, if the set has few enough states.
pub(crate) fn share(budget: Budget, shifts: &[ValueShift], states: u32) -> Option<Budget>
    requires { 0 < length shifts.now }
    ensures start { IfSome result (λ each. laws.start_colours shifts.now * states ≤ budget) }
    ensures changes { IfSome result (λ each. laws.change_colours shifts.now * each ≤ budget) }
{
    let all = u64::from(budget.states());
    let start = start_colours(shifts)?.checked_mul(u64::from(states))?;
    if start > all {
        return None;
    }
    let each = all / change_colours(shifts)?;
    Budget::checked(each as u32)
}

/// Returns the number of ways in which a word can leave a change undecided.
fn ways(shift: ValueShift) -> u64
    ensures is { result ≡ (equation_of shift).by + 1 }
    ensures few { result < 2 ^ 32 }
{
    u64::from(shift.by.unsigned_abs()) + 1
}

/// Returns the number of colours of words for these changes, one after another.
fn start_colours(shifts: &[ValueShift]) -> Option<u64>
    ensures { IfSome result (λ colours. colours ≡ laws.start_colours shifts.now) }
{
    match shifts.split_first() {
        None => Some(1),
        Some((shift, rest)) => (ways(*shift) + 1).checked_mul(start_colours(rest)?),
    }
}

/// Returns the number of colours of words for all changes together.
fn change_colours(shifts: &[ValueShift]) -> Option<u64>
    requires { 0 < length shifts.now }
    ensures { IfSome result (λ colours. colours ≡ laws.change_colours shifts.now) }
{
    open_ways(shifts)?.checked_add(1)
}

fn open_ways(shifts: &[ValueShift]) -> Option<u64>
    ensures { IfSome result (λ all. all ≡ equations.open_ways (map equation_of shifts.now)) }
{
    match shifts.split_first() {
        None => Some(1),
        Some((shift, rest)) => ways(*shift).checked_mul(open_ways(rest)?),
    }
}
