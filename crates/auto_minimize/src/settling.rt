//! What remains to be done after one pass of merging.
ghost use Rattle.std.specs.Prelude.{◌≡◌, ◌≤◌, Err, length, IfOk};
ghost use Rattle.auto_core.specs.Reduced.{AllReached};
ghost use Rattle.auto_core.specs.Words.{HasSameWords};
ghost use Rattle.auto_walk.specs.Walker.{MoreThan};
ghost use Rattle.auto_merge.specs.Merged.{IsMerged};

use auto_compact::compact;
use auto_core::Auto;
use auto_merge::{Once, RowSource, merge_places};
use auto_reduce::reduce;
use auto_walk::Grown;
use std::alloc::{AllocError, Global};

/// Minimizes the automaton if equivalent states may remain, and removes unreachable nodes if they are many.
fn settled(alloc: Global, once: Once) -> Result<Auto, AllocError>
    ensures tracks { IfOk result (λ m. m.tracks ≡ once.auto.tracks) }
    ensures words { IfOk result (HasSameWords once.auto) }
    ensures fewer { IfOk result (λ m. length m.accept ≤ length once.auto.accept) }
    ensures reached { IfOk result (λ m. AllReached once.auto → AllReached m) }
{
    if once.is_looped {
        let m = reduce(alloc, &once.auto)?;
        return Ok(m);
    }
    if once.is_halved {
        let m = compact(alloc, once.auto)?;
        return Ok(m);
    }
    Ok(once.auto)
}

/// Returns an automaton of the words that reach accepting places, with at most as many states as places that words reach. Places
/// with one flag whose rows lead to the same states, or each to itself where the other leads to itself, are merged.
/// If a path through other places leads back to a place, the result is minimized. Costs the spots of the rows, a second time those
/// that lead to their own place, and the minimization. Errors: `Over` if words reach more places than the limit, `Memory` if an
/// allocation fails.
pub(crate) fn merge_rows<R: RowSource>(alloc: Global, rows: &R) -> Result<Auto, Grown>
    ensures ok { IfOk result (IsMerged (R.graph rows.now)) }
    ensures over { result ≡ Err Grown.Over → MoreThan (R.graph rows.now).walker (R.graph rows.now).most }
{
    let once = merge_places(alloc, rows)?;
    let m = settled(alloc, once)?;
    Ok(m)
}
