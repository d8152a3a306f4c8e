//! Descriptions of sets of numbers.

ghost use Rattle.std.specs.Prelude.{◌≡◌, [], ◌∷◌};
ghost use Rattle.auto_core.specs.Integers.{DecidesIntegers};
ghost use Rattle.auto_core.specs.Reduced.{IsReduced};
ghost use Rattle.period_sets.specs.Question.{t_var};

use crate::reduced_auto::check_stable;
use auto_core::Auto;
use limits::Budget;
use period_sets::{PeriodError, Periodic, describe_set};
use track_word::Var;
use trial_rows::{Row, RowError, number};

/// The variable of the numbers of a described set.
const NUMBER: Var = Var(18);

/// Writes the runs, from where on the set is periodic, its period, and a number whose bits are the rests (residues).
fn write_periodic(row: &mut Row, periodic: &Periodic) {
    for run in periodic.runs.as_slice() {
        row.write_number(run.low);
        row.write_labelled("-", run.high);
        row.write(" ");
    }
    row.write_labelled("from ", periodic.from);
    row.write_labelled(" every ", periodic.period);
    row.write_labelled(" rests ", periodic.rests);
}

/// Writes the description of the set of an automaton of one variable, or why there is none.
fn describe(row: &mut Row, a: &Auto, budget: Budget) -> Result<(), RowError>
    requires reduced { IsReduced a.now }
    requires tracks { a.now.tracks ≡ t_var ∷ [] }
    requires decides { DecidesIntegers a.now }
{
    match describe_set(row.alloc, a, budget) {
        Ok(periodic) => write_periodic(row, &periodic),
        Err(PeriodError::Over { step }) => row.write_labelled("over ", step),
        Err(PeriodError::NoPeriod) => row.write("no period"),
        Err(PeriodError::Far) => row.write("far"),
        Err(PeriodError::Many) => row.write("many"),
        Err(PeriodError::Memory) => return Err(RowError::Memory),
    }
    Ok(())
}

/// Runs `periods BUDGET A`: from where on the set of an automaton of one track is periodic, and its elements.
pub fn write_periods(row: &mut Row, a: &Auto, budget: &str) -> Result<(), RowError>
    requires { IsReduced a.now }
{
    check_stable(row.alloc, a)?;
    let Some(budget) = Budget::checked(number(budget)?) else {
        return Err(RowError::Number);
    };
    if a.tracks().len() != 1 {
        return Err(RowError::Condition);
    }
    let set = a.rename(row.alloc, &[NUMBER])?;
    describe(row, &set, budget)
}
