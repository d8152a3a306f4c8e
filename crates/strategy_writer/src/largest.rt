//! The largest set of a claim.

ghost use Rattle.std.specs.Prelude.{◌≤◌, All, length, ℕ};
ghost use Rattle.strategy_writer.specs.Files.{IsMostStatesOf};
ghost use Rattle.strategy_writer.specs.KeptClaims.{as_claim};

use crate::kept_claim::{KeptClaim, KeptSet};

/// Returns the greatest number of states of the claim's sets.
pub(crate) fn largest_set(claim: &KeptClaim) -> u32
    ensures { IsMostStatesOf (as_claim claim.now) result }
{
    largest_of(claim.sets.as_slice())
}

/// Returns the greatest number of states of these sets.
fn largest_of(sets: &[KeptSet]) -> u32
    ensures within { All (λ s. length s.set.accept ≤ result) sets.now }
    ensures least { (n : ℕ) → All (λ s. length s.set.accept ≤ n) sets.now → result ≤ n }
{
    let mut most: u32 = 0;
    for kept in sets {
        most = most.max(kept.set.states());
    }
    most
}
