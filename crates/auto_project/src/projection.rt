//! The projection of an automaton.
ghost use Rattle.std.specs.Prelude.{◌≡◌, ◌≤◌, length, IfOk, OnOk};
ghost use Rattle.track_word.specs.Tracks.{without_var};
ghost use Rattle.auto_core.specs.Reduced.{IsReduced, AllReached};
ghost use Rattle.auto_project.specs.Lifted.{AcceptsLifted, ForgettingExceeds, MoreSets};

use crate::subsets::Subsets;
use auto_core::Auto;
use auto_walk::{Grown, explored};
use limits::Budget;
use std::alloc::Global;
use track_word::Var;

/// Returns the automaton over the sets of states that lifts of words reach, or `Over` if they are more than the budget. Words that
/// reach one set have lifts with the same residuals; in a minimal automaton words that reach different sets do not.
fn projected(alloc: Global, a: &Auto, var: Var, budget: Budget) -> Result<Auto, Grown>
    ensures tracks { IfOk result (λ m. m.tracks ≡ without_var var a.now.tracks) }
    ensures words { IfOk result (AcceptsLifted a.now) }
    ensures reached { IfOk result AllReached }
    ensures few { IfOk result (λ m. length m.accept ≤ budget) }
    ensures within { OnOk result (¬ ForgettingExceeds var a.now budget) }
    ensures over { IsReduced a.now → result ≡ Err Grown.Over → ForgettingExceeds var a.now budget }
    ensures many { result ≡ Err Grown.Over → MoreSets a.now (without_var var a.now.tracks) budget }
{
    let subsets = Subsets::new(alloc, a, var)?;
    explored(alloc, subsets, budget)
}

/// Projects away a variable: returns the automaton of the words that are accepted with some bits on the track of `var`, after any
/// number of repetitions of their first letter (a value may need more letters than the word has). `var` need not be a track.
/// Its states are the sets of states that lifts reach (Rabin and Scott 1959); it need not be minimal. Errors: `Over` if they are
/// more than the budget, which for a minimal automaton means that the step needs more states; `Memory` if an allocation fails.
pub fn forget(alloc: Global, a: &Auto, var: Var, budget: Budget) -> Result<Auto, Grown>
    requires reduced { IsReduced a.now }
    ensures tracks { IfOk result (λ m. m.tracks ≡ without_var var a.now.tracks) }
    ensures words { IfOk result (AcceptsLifted a.now) }
    ensures within { OnOk result (¬ ForgettingExceeds var a.now budget) }
    ensures over { result ≡ Err Grown.Over → ForgettingExceeds var a.now budget }
{
    let forgotten = projected(alloc, a, var, budget)?;
    Ok(forgotten)
}

/// Projects any automaton, minimal or not, as `forget` does. Errors: `Over` if lifts reach more sets of states than the budget; the
/// step may still need fewer states on the minimal automaton of the same words.
pub fn forget_within(alloc: Global, a: &Auto, var: Var, budget: Budget) -> Result<Auto, Grown>
    ensures tracks { IfOk result (λ m. m.tracks ≡ without_var var a.now.tracks) }
    ensures words { IfOk result (AcceptsLifted a.now) }
    ensures reached { IfOk result AllReached }
    ensures few { IfOk result (λ m. length m.accept ≤ budget) }
    ensures within { OnOk result (¬ ForgettingExceeds var a.now budget) }
    ensures over { result ≡ Err Grown.Over → MoreSets a.now (without_var var a.now.tracks) budget }
{
    let within = projected(alloc, a, var, budget)?;
    Ok(within)
}
