//! Why a program stops.
ghost use Rattle.std.specs.Prelude.{◌≡◌, ◌<◌, ◌^◌};
ghost use Rattle.set_plan.specs.declared.stop.PlanError.TheVariants.{Memory};
ghost use Rattle.set_plan.specs.Stopped.{IsStepOf, stopped_at};

use formula_auto::CompileError;
use std::alloc::AllocError;

/// A step of a part.
#[derive(Clone, Copy, PartialEq, Eq)]
pub struct PartStep<P> {
    /// The part's name.
    pub part: P,
    /// The number of the step in its part, counted from 1.
    pub at: u32,
}

/// Why a program has no value.
#[derive(Clone, Copy, PartialEq, Eq)]
pub enum PlanError<P> {
    /// The first step that needs more states than the budget.
    Over(PartStep<P>),
    /// An allocation failed.
    Memory,
}

impl<P> From<AllocError> for PlanError<P> {
    ghost from_gives = { λ _ e. e ≡ Memory };

    fn from(_: AllocError) -> Self {
        PlanError::Memory
    }
}

impl<P: Copy> PartStep<P> {
    /// Returns the reason why a formula has no set, whose first step is this one.
    pub(crate) fn stopped(self, why: CompileError) -> PlanError<P>
        requires step { IsStepOf 1000 why }
        requires room { self.at < 2 ^ 31 }
        ensures { result ≡ stopped_at self why }
    {
        let PartStep { part, at } = self;
        match why {
            CompileError::Over { step } => PlanError::Over(PartStep {
                part,
                at: at + step - 1,
            }),
            CompileError::Memory => PlanError::Memory,
        }
    }
}
