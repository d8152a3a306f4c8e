//! One state for each class.
ghost use Rattle.std.specs.Prelude.{IfOk};
ghost use Rattle.auto_reduce.specs.Quotient.{IsCanonical};

use auto_core::Auto;
use auto_refine::{coarsest, members};
use std::alloc::{AllocError, Global};

/// Returns for each state a canonical state: one indistinguishable from it, the same for all of its class. Errors: an allocation
/// failed.
pub(crate) fn canonical(alloc: Global, a: &Auto) -> Result<Vec<u32>, AllocError>
    ensures { IfOk result (λ canon. IsCanonical a.now canon.items) }
{
    let partition = coarsest(alloc, a)?;
    let members = members(alloc, &partition)?;
    let mut canon = Vec::with_capacity(alloc, partition.classes.len())?;
    for class in partition.classes.as_slice() {
        canon.push(members[*class as usize])?;
    }
    Ok(canon)
}
