//! The description of the distances of a ray.

ghost use Rattle.std.specs.Prelude.{◌≡◌, ◌≤◌, IfErr, IfOk};
ghost use Rattle.move_choice.specs.Aims.{HasRay};
ghost use Rattle.winning_sets.specs.declared.origin.Origin.TheVariants.{Plan};
ghost use Rattle.desk_solve.specs.First.{OfSolved};
ghost use Rattle.desk_describe.specs.Describe.{IsDescribed, StopsAt};
ghost use Rattle.desk_describe.specs.RayStep.{StopsWith};

use crate::ray_step::{DescribeError, RayPart, RayStep};
use first_distances::ray_set;
use formula_auto::CompileError;
use limits::Budget;
use period_sets::{PeriodError, Periodic, describe_set};
use std::alloc::Global;
use winning_sets::Solved;

/// The description of a set of distances.
#[derive(Drop)]
pub enum Description {
    /// From which number on it repeats, and what is in it.
    Repeats(Periodic),
    /// No number that is tried is a period.
    NoPeriod,
    /// It repeats only from too great a number on.
    Far,
    /// There are too many runs before it repeats.
    Many,
}

/// A solved position whose rays are described, with the budget of each step.
#[derive(Clone, Copy)]
pub struct Rays<'a> {
    pub alloc: Global,
    pub solved: &'a Solved,
    pub budget: Budget,
}

/// Computes the description of the distances of the winner's first moves along a ray.
pub(crate) fn described(of: &Rays, man: u8, ray: u8) -> Result<Description, DescribeError>
    requires plan { of.now.solved.now.origin ≡ Plan }
    requires turn { of.now.solved.now.position.turn ≡ of.now.solved.now.winner }
    requires moves { 1 ≤ of.now.solved.now.moves }
    requires mover { HasRay of.now.solved.now.position man ray }
    ensures is { IfOk result (OfSolved (IsDescribed of.now.budget) of.now.solved.now man ray) }
    ensures stops { IfErr result (StopsWith (OfSolved (StopsAt of.now.budget) of.now.solved.now man ray)) }
{
    let set = match ray_set(of.alloc, of.solved, man, ray, of.budget) {
        Ok(set) => set,
        Err(CompileError::Over { step }) => return Err(over(man, ray, RayPart::Line, step)),
        Err(CompileError::Memory) => return Err(DescribeError::Memory),
    };
    match describe_set(of.alloc, &set, of.budget) {
        Ok(periodic) => Ok(Description::Repeats(periodic)),
        Err(PeriodError::Over { step }) => Err(over(man, ray, RayPart::Period, step)),
        Err(PeriodError::NoPeriod) => Ok(Description::NoPeriod),
        Err(PeriodError::Far) => Ok(Description::Far),
        Err(PeriodError::Many) => Ok(Description::Many),
        Err(PeriodError::Memory) => Err(DescribeError::Memory),
    }
}

/// The step exceeds the budget.
fn over(man: u8, ray: u8, part: RayPart, at: u32) -> DescribeError
    ensures { result ≡ DescribeError.Over (record { man = man; ray = ray; part = part; at = at }) }
{
    DescribeError::Over(RayStep { man, ray, part, at })
}
