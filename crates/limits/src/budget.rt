//! The state limit of a step.
ghost use Rattle.std.specs.Prelude.{◌≡◌, IfSome, IfNone};
ghost use Rattle.limits.specs.Budget.{IsBudget};

use crate::numbers::MOST_STATES;
use std::marker::Model;

/// The maximum number of states that a step of a computation may need: 1 to `MOST_STATES`.
#[derive(Clone, Copy, PartialEq, Eq)]
pub struct Budget {
    states: u32,
}

impl Model for Budget {
    ghost use Rattle.std.specs.Prelude.{ℕ};
    ghost use Rattle.limits.specs.Budget.{IsBudget};

    ghost Value = { ℕ };

    ghost view = { λ b. b.states };

    ghost inverse = { λ states. record { states = states } };

    ghost invariant = { λ b. IsBudget b.states };
}

impl Budget {
    /// Returns the budget of `states` states.
    pub fn new(states: u32) -> Budget
        requires { IsBudget states }
        ensures { result ≡ states }
    {
        Budget { states }
    }

    /// Returns the budget of `states` states, or `None` if `states` is 0 or exceeds `MOST_STATES`.
    pub fn checked(states: u32) -> Option<Budget>
        ensures some { IfSome result (λ budget. budget ≡ states) }
        ensures none { IfNone result (IsBudget states → ⊥) }
    {
        if states >= 1 && states <= MOST_STATES {
            Some(Budget { states })
        } else {
            None
        }
    }

    /// Returns the maximum number of states that a step may need.
    pub fn states(self) -> u32
        ensures is { result ≡ self }
        ensures within { IsBudget result }
    {
        self.states
    }
}
