//! The runs of a set below an end.
ghost use Rattle.std.specs.Prelude.{◌≡◌, ◌<◌, ◌≤◌, ◌^◌, ◌++◌, [], ◌∷◌, IfOk, IfErr, OnOk};
ghost use Rattle.auto_numbers.specs.Numbers.{Has};
ghost use Rattle.auto_numbers.specs.declared.bits.TheConstants.{GREATEST_BITS};
ghost use Rattle.period_sets.specs.Period.{AreFewRuns};
ghost use Rattle.period_sets.specs.Finding.{AddsRuns, IsRunEnd, IsRunStart, IsRunsError};

use crate::errors::PeriodError;
use crate::periodic::{MOST_RUNS, Run};
use auto_numbers::NumberSet;
use auto_numbers::laws::each_number_is_in_or_not;
use std::alloc::{AllocError, Global};

/// Returns the runs of positive members below the end. Errors: `Many` if there are more than `MOST_RUNS`, `Memory` if an allocation
/// fails.
pub(crate) fn runs_below(alloc: Global, set: &NumberSet, end: u128) -> Result<Vec<Run>, PeriodError>
    requires { end ≤ 2 ^ GREATEST_BITS }
    ensures ok { IfOk result (λ runs. AreFewRuns (Has set.now.auto.now) 1 end MOST_RUNS runs.items) }
    ensures err { IfErr result (IsRunsError (Has set.now.auto.now) 1 end MOST_RUNS) }
{
    let mut runs = Vec::new(alloc);
    add_runs(&mut runs, set, 1, end, MOST_RUNS)?;
    Ok(runs)
}

/// Appends the runs from a number on and below the end, at most as many as there is room for.
fn add_runs(
    runs: &mut Vec<Run>,
    set: &NumberSet,
    from: u128,
    end: u128,
    room: u8,
) -> Result<(), PeriodError>
    requires { end ≤ 2 ^ GREATEST_BITS }
    ensures ok { OnOk result (AddsRuns (Has set.now.auto.now) from end room runs.old.items runs.new.items) }
    ensures err { IfErr result (IsRunsError (Has set.now.auto.now) from end room) }
{
    match run_start(set, from, end) {
        None => Ok(()),
        Some(low) => {
            if room == 0 {
                return Err(PeriodError::Many);
            }
            let stop = run_end(set, low, end);
            let run = Run {
                low,
                high: stop - 1,
            };
            put(runs, run)?;
            add_runs(runs, set, stop, end, room - 1)
        }
    }
}

/// Returns the first member of the set from a number on and below the end.
fn run_start(set: &NumberSet, from: u128, end: u128) -> Option<u128>
    requires { end ≤ 2 ^ GREATEST_BITS }
    ensures { IsRunStart (Has set.now.auto.now) from end result }
{
    if from >= end {
        return None;
    }
    match set.next_member(from) {
        Some(low) => { if low < end { Some(low) } else { None } }
        None => None,
    }
}

/// Returns the end of the run of members that starts at `low`: the first number that is not a member, or the end.
fn run_end(set: &NumberSet, low: u128, end: u128) -> u128
    requires member { Has set.now.auto.now low }
    requires below { low < end }
    requires end { end ≤ 2 ^ GREATEST_BITS }
    ensures { IsRunEnd (Has set.now.auto.now) low end result }
{
    each_number_is_in_or_not(set.auto);
    match set.next_other(low) {
        Some(stop) => stop.min(end),
        None => end,
    }
}

/// Appends a run.
fn put(runs: &mut Vec<Run>, run: Run) -> Result<(), AllocError>
    ensures { OnOk result (runs.new.items ≡ runs.old.items ++ run ∷ []) }
{
    runs.push(run)?;
    Ok(())
}
