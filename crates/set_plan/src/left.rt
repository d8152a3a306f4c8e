//! Differences of sets.
ghost use Rattle.std.specs.Prelude.{◌≡◌, ◌≤◌, IfOk, IfSome};
ghost use Rattle.set_plan.specs.Making.{AnswersRemainder};
ghost use Rattle.set_plan.specs.Sets.{IsSetOn, lent, IsLeftOn};

use crate::empty::is_empty_set;
use crate::pairs::except;
use crate::stop::{PartStep, PlanError};
use auto_core::Auto;
use auto_walk::Grown;
use limits::Budget;
use std::alloc::Global;
use track_word::Var;

/// The difference of two sets.
#[derive(Drop)]
pub enum Left {
    /// The whole first set, since the second is empty.
    Whole,
    /// This set, or none since the first set is empty.
    Part(Option<Auto>),
}

/// Returns the difference of two sets, as a part of its own. It takes no step if one of the two is empty.
pub fn difference_set<P: Copy>(
    alloc: Global,
    tracks: &[Var],
    part: P,
    one: Option<&Auto>,
    other: Option<&Auto>,
    budget: Budget,
) -> Result<Left, PlanError<P>>
    requires one { IfSome one (λ a. IsSetOn tracks.now a.now) }
    requires other { IfSome other (λ a. IsSetOn tracks.now a.now) }
    ensures answers { AnswersRemainder tracks.now part (lent one.entry) (lent other.entry) budget result }
    ensures set { IfOk result (IsLeftOn tracks.now) }
{
    let Some(b) = other else {
        return Ok(Left::Whole);
    };
    if is_empty_set(b) {
        return Ok(Left::Whole);
    }
    let Some(a) = one else {
        return Ok(Left::Part(None));
    };
    if is_empty_set(a) {
        return Ok(Left::Part(None));
    }
    match except(alloc, tracks, a, b, budget) {
        Ok(c) => Ok(Left::Part(Some(c))),
        Err(Grown::Over) => Err(PlanError::Over(PartStep { part, at: 1 })),
        Err(Grown::Memory) => Err(PlanError::Memory),
    }
}
