//! State that is kept between the sets of a plan.

ghost use Rattle.std.specs.Prelude.{◌≡◌, ◌≤◌, ◌+◌, ◌^◌, IfNone, IfOk, IfSome};
ghost use Rattle.auto_core.specs.Reduced.{AllReached};
ghost use Rattle.lin_formula.specs.SetOf.{IsEmpty, Table};
ghost use Rattle.lin_formula.specs.Tree.{free_vars};
ghost use Rattle.lin_formula.specs.TreeOf.{tree_of};
ghost use Rattle.set_plan.specs.Making.{item_over};
ghost use Rattle.set_plan.specs.Stopped.{IsStepOf, stopped_at};
ghost use Rattle.set_plan.specs.Unite.{make};
ghost use Rattle.line_engine.specs.Answers.{Answers, IsFilledItem, IsFilledOn, IsThisOne, as_plan_error, made_at};

use crate::errors::CrowdError;
use auto_core::Auto;
use formula_auto::{CompileError, Memo, SetTable};
use limits::Budget;
use lin_formula::Formula;
use set_plan::{has_no_tuple, step_count};
use std::alloc::Global;

/// Compiled formulas within a budget, and the number of the next step.
#[derive(Drop)]
pub(crate) struct EngineState {
    pub(crate) alloc: Global,
    pub(crate) memo: Memo,
    pub(crate) at: u128,
}

impl EngineState {
    /// Creates the state before the first step.
    pub(crate) fn new(alloc: Global, budget: Budget) -> EngineState
        ensures budget { result.memo.budget ≡ budget }
        ensures at { result.at ≡ 1 }
    {
        EngineState {
            alloc,
            memo: Memo::new(alloc, budget),
            at: 1,
        }
    }

    /// Returns the set of a formula over nonempty sets, or `None` if it is empty.
    pub(crate) fn set_of(
        &mut self,
        f: &Formula,
        sets: &SetTable,
    ) -> Result<Option<Auto>, CrowdError>
        requires item { IsFilledItem (free_vars (tree_of f.now)) sets.now (tree_of f.now) }
        requires room { self.old.at + 1000 ≤ 2 ^ 127 }
        ensures answers { Answers (make tt self.old.at (item_over sets.now f.now)) self.old.memo.budget
            (made_at self.new.at) result }
        ensures set { IfOk result (λ set. IfSome set (IsFilledOn (free_vars (tree_of f.now)))) }
        ensures room { IfOk result (λ _. self.new.at ≤ self.old.at + 1000) }
        ensures budget { self.new.memo.budget ≡ self.old.memo.budget }
    {
        let count = step_count(f);
        let _ = self.memo.budget(); // for its invariant
        let mut meets = self.memo.meets(self.alloc, sets);
        match self.memo.compile_uncached(self.alloc, f, &mut meets) {
            Ok(a) => {
                self.at += u128::from(count);
                Ok(unless_empty(a))
            }
            Err(why) => Err(stopped(self.at, why)),
        }
    }
}

/// The set, or none if it is empty.
fn unless_empty(a: Auto) -> Option<Auto>
    requires { AllReached a }
    ensures some { IfSome result (IsThisOne a) }
    ensures none { IfNone result (IsEmpty (Table a)) }
{
    if has_no_tuple(&a) { None } else { Some(a) }
}

/// Why a formula has no set whose first step has this number.
fn stopped(at: u128, why: CompileError) -> CrowdError
    requires step { IsStepOf 1000 why }
    requires room { at + 1000 ≤ 2 ^ 127 }
    ensures { as_plan_error result ≡ stopped_at (record { part = tt; at = at }) why }
{
    match why {
        CompileError::Over { step } => CrowdError::Over {
            step: at + u128::from(step) - 1,
        },
        CompileError::Memory => CrowdError::Memory,
    }
}
