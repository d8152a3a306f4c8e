//! The number of tuples of states of several automata.
ghost use Rattle.std.specs.Prelude.{◌≡◌, ◌*◌, ◌^◌, ◌<◌, ◌≤◌, IfSome};

use limits::Budget;

/// The formulas are combined first only if the set has at least this many times as many states as they have tuples of states.
const LEAST_TIMES: u64 = 4;

/// The number of tuples of states of several automata, and its limit.
#[derive(Clone, Copy)]
pub struct Tuples {
    pub count: u64,
    pub most: u64,
}

impl Tuples {
    /// Returns the limits for an automaton with this many states: the room in the budget, and what is faster.
    pub fn new(states: u32, budget: Budget) -> Tuples
        ensures count { result.count ≡ states }
        ensures most { result.most ≤ budget }
        ensures small { result.most < 2 ^ 31 }
    {
        let count = u64::from(states);
        let paying = count * count / LEAST_TIMES;
        Tuples {
            count,
            most: u64::from(budget.states()).min(paying),
        }
    }

    /// Adds an automaton with this many states, if the limit allows it.
    pub fn with(self, states: u32) -> Option<Tuples>
        ensures count { IfSome result (λ more. more.count ≡ self.count * states) }
        ensures few { IfSome result (λ more. more.count ≤ self.most) }
        ensures most { IfSome result (λ more. more.most ≡ self.most) }
    {
        let count = self.count.checked_mul(u64::from(states))?;
        if count > self.most {
            return None;
        }
        Some(Tuples { count, ..self })
    }
}
