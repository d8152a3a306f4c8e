//! The residues modulo the period of a set that repeats.
ghost use Rattle.std.specs.Prelude.{◌≡◌, ◌↔◌, ◌+◌, ◌-◌, ◌%◌, ◌<◌, ◌≤◌, ◌^◌};
ghost use Rattle.auto_numbers.specs.Numbers.{Has};
ghost use Rattle.auto_numbers.specs.declared.bits.TheConstants.{GREATEST_BITS, MOST_BITS};
ghost use Rattle.period_sets.specs.Period.{AreRests};
ghost use Rattle.period_sets.specs.Finding.{AreRestsFrom, Repeating};

use crate::periodic::{MOST_PERIOD, PeriodStart};
use auto_numbers::NumberSet;

/// Returns the residues of the members from the start on; bit i is 1 if numbers with residue i are in the set.
pub(crate) fn residues_of(set: &NumberSet, start: PeriodStart) -> u64
    requires { Repeating (Has set.now.auto.now) start }
    ensures { AreRests (Has set.now.auto.now) start.from start.period result }
{
    rests_from(set, start, 0)
}

/// Returns the bits of the residues from `rest` on, lowest first.
fn rests_from(set: &NumberSet, start: PeriodStart, rest: u8) -> u64
    requires start { Repeating (Has set.now.auto.now) start }
    requires rest { rest ≤ start.period }
    ensures { AreRestsFrom (Has set.now.auto.now) start rest result }
{
    if rest == start.period {
        return 0;
    }
    let number = first_of_rest(start, rest);
    own_bit(set, number) + 2 * rests_from(set, start, rest + 1)
}

/// Returns 1 if a number is in the set, and 0 otherwise.
fn own_bit(set: &NumberSet, number: u128) -> u64
    requires { number < 2 ^ MOST_BITS }
    ensures bit { result < 2 }
    ensures is { (result ≡ 1) ↔ Has set.now.auto.now number }
{
    if set.has(number) { 1 } else { 0 }
}

/// Returns the first number from the start on with a residue.
fn first_of_rest(start: PeriodStart, rest: u8) -> u128
    requires period { start.period ≤ MOST_PERIOD }
    requires rest { rest < start.period }
    requires from { start.from ≤ 2 ^ GREATEST_BITS }
    ensures from { start.from ≤ result }
    ensures near { result < start.from + start.period }
    ensures rest { result % start.period ≡ rest }
{
    let period = u128::from(start.period);
    let rest = u128::from(rest);
    let own = start.from % period;
    if own <= rest {
        start.from + (rest - own)
    } else {
        start.from + (period + rest - own)
    }
}
