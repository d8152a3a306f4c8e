//! The description of a set.
ghost use Rattle.std.specs.Prelude.{◌≡◌, [], ◌∷◌, IfOk, IfErr};
ghost use Rattle.auto_core.specs.Integers.{DecidesIntegers};
ghost use Rattle.auto_core.specs.Reduced.{IsReduced};
ghost use Rattle.auto_numbers.specs.Numbers.{Has};
ghost use Rattle.period_sets.specs.Period.{IsPeriodic};
ghost use Rattle.period_sets.specs.Question.{StaysWithin, t_var};
ghost use Rattle.period_sets.specs.Description.{IsPeriodError};

use crate::errors::PeriodError;
use crate::period::first_period;
use crate::periodic::Periodic;
use crate::rests::residues_of;
use crate::runs::runs_below;
use auto_core::Auto;
use auto_numbers::NumberSet;
use limits::Budget;
use std::alloc::Global;

/// Returns the positive members of the set of a minimal one-track automaton as a periodic set.
/// For each candidate period from 1 on, compiles a formula, by steps within the budget, for the numbers at which the set does not
/// repeat; the last such number determines where the repetition starts. Errors: see `PeriodError`.
pub fn describe_set(alloc: Global, a: &Auto, budget: Budget) -> Result<Periodic, PeriodError>
    requires reduced { IsReduced a.now }
    requires tracks { a.now.tracks ≡ t_var ∷ [] }
    requires decides { DecidesIntegers a.now }
    ensures ok { IfOk result (IsPeriodic (Has a.now)) }
    ensures within { IfOk result (λ p. StaysWithin a.now budget p.period) }
    ensures err { IfErr result (IsPeriodError a.now budget) }
{
    let start = first_period(alloc, a, budget)?;
    let set = NumberSet::new(alloc, a)?;
    let runs = runs_below(alloc, &set, start.from)?;
    Ok(Periodic {
        runs,
        from: start.from,
        period: start.period,
        rests: residues_of(&set, start),
    })
}
