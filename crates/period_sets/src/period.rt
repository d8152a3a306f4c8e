//! The least period of a set, and the start of its repetition.
ghost use Rattle.std.specs.Prelude.{◌≡◌, ◌≤◌, ◌<◌, ◌+◌, ◌*◌, [], ◌∷◌, pos, IfOk, IfErr, OnOk, None};
ghost use Rattle.auto_core.specs.Integers.{DecidesIntegers};
ghost use Rattle.auto_core.specs.Reduced.{IsReduced};
ghost use Rattle.auto_numbers.specs.Numbers.{Has, IsGreatest};
ghost use Rattle.lin_formula.specs.Tree.{steps};
ghost use Rattle.lin_formula.specs.SetOf.{tables};
ghost use Rattle.formula_auto.specs.Step.{FirstOver};
ghost use Rattle.formula_auto.specs.Compiled.{IsCompileError};
ghost use Rattle.period_sets.specs.Question.{differs as differs_tree, named, t_var};
ghost use Rattle.period_sets.specs.Description.{IsFound, IsPeriodError};
ghost use Rattle.period_sets.specs.Finding.{IsDifference};

use crate::errors::PeriodError;
use crate::formulas::{STEPS, differs};
use crate::periodic::{MOST_PERIOD, PeriodStart};
use auto_core::Auto;
use auto_numbers::laws::each_number_is_in_or_not;
use auto_numbers::{Greatest, greatest_of};
use formula_auto::{CompileError, SetTable, compile};
use limits::Budget;
use std::alloc::{AllocError, Global};
use track_word::laws::{
    bits_spell_their_integers, repeating_first_letter_keeps_values, words_of_equal_values_are_equal,
};

/// Returns the least period, and the least positive number from which on the set repeats.
pub(crate) fn first_period(
    alloc: Global,
    a: &Auto,
    budget: Budget,
) -> Result<PeriodStart, PeriodError>
    requires reduced { IsReduced a.now }
    requires tracks { a.now.tracks ≡ t_var ∷ [] }
    requires decides { DecidesIntegers a.now }
    ensures found { IfOk result (IsFound (Has a.now) a.now budget) }
    ensures err { IfErr result (IsPeriodError a.now budget) }
{
    each_number_is_in_or_not(a);
    let mut sets = SetTable::new(alloc);
    put(&mut sets, a)?;
    for before in 0..MOST_PERIOD {
        let period = before + 1;
        match last_difference(alloc, a, &sets, period, budget) {
            Err(CompileError::Over { step }) => {
                return Err(PeriodError::Over {
                    step: counted(before, step),
                });
            }
            Err(CompileError::Memory) => return Err(PeriodError::Memory),
            Ok(Greatest::Endless) => {}
            Ok(Greatest::Far) => return Err(PeriodError::Far),
            Ok(Greatest::Nothing) => return Ok(PeriodStart { from: 1, period }),
            Ok(Greatest::Number(last)) => {
                return Ok(PeriodStart {
                    from: last + 1,
                    period,
                });
            }
        }
    }
    Err(PeriodError::NoPeriod)
}

/// Adds the set to an empty table.
fn put(sets: &mut SetTable, a: &Auto) -> Result<(), AllocError>
    requires { sets.old ≡ [] }
    ensures { OnOk result (sets.new ≡ a.now ∷ []) }
{
    match sets.put(a.copy()?) {
        Ok(_) => Ok(()),
        Err(_) => Err(AllocError),
    }
}

/// Returns the last number t such that exactly one of t and t + period is in the set.
fn last_difference(
    alloc: Global,
    a: &Auto,
    sets: &SetTable,
    period: u8,
    budget: Budget,
) -> Result<Greatest, CompileError>
    requires reduced { IsReduced a.now }
    requires tracks { a.now.tracks ≡ t_var ∷ [] }
    requires decides { DecidesIntegers a.now }
    requires sets { sets.now ≡ a.now ∷ [] }
    requires period { period ≤ MOST_PERIOD }
    ensures last { IfOk result (IsGreatest (IsDifference (Has a.now) period)) }
    ensures within { OnOk result (FirstOver (steps (differs_tree period)) (named a.now) budget 1 None) }
    ensures over { IfErr result (IsCompileError (differs_tree period) (tables (a.now ∷ [])) 0 budget) }
{
    bits_spell_their_integers();
    repeating_first_letter_keeps_values();
    words_of_equal_values_are_equal();
    let f = differs(alloc, period)?;
    let differences = compile(alloc, &f, sets, budget)?;
    let _ = differences.tracks(); // for its invariant
    let greatest = greatest_of(alloc, &differences)?;
    Ok(greatest)
}

/// Returns the number of a step, counted through the formulas before its own.
fn counted(before: u8, step: u32) -> u32
    requires before { before < MOST_PERIOD }
    requires step { step ≤ STEPS }
    ensures { result ≡ step + STEPS * before }
{
    step + STEPS * u32::from(before)
}
