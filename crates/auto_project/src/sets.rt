//! Numbered sets of states.
ghost use Rattle.std.specs.Prelude.{◌≡◌, ◌<◌, length, slice_get, Some, IfOk, OnOk};
ghost use Rattle.std.specs.List.Sorted.{IsStrictlyIncreasing};
ghost use Rattle.letter_diagram.specs.Sets.{SetsKept, NumbersSet};
ghost use Rattle.auto_project.specs.SetMaps.{AreSingletons};

use letter_diagram::Sets;
use std::alloc::{AllocError, Global};

/// Returns the number of a set, and adds the set if it is new. Errors: an allocation failed, or 2^32 - 1 sets are numbered.
pub(crate) fn number_of(sets: &mut Sets, set: &[u32]) -> Result<u32, AllocError>
    requires { IsStrictlyIncreasing set.now }
    ensures number { IfOk result (λ number. slice_get sets.new number ≡ Some set.now) }
    ensures numbers { OnOk result (NumbersSet sets.old sets.new set.now) }
    ensures kept { SetsKept sets.old sets.new }
{
    match sets.number(set) {
        Ok(number) => Ok(number),
        Err(_) => Err(AllocError),
    }
}

/// Returns the sets of one state each; the number of each set is its state.
pub(crate) fn singletons(alloc: Global, states: u32) -> Result<Sets, AllocError>
    ensures { IfOk result (λ sets. AreSingletons sets states) }
{
    let mut sets = Sets::new(alloc);
    for state in 0..states {
        let set = [state];
        number_of(&mut sets, &set)?;
    }
    Ok(sets)
}

/// Returns a copy of the set with a number.
pub(crate) fn copied_set(alloc: Global, sets: &Sets, number: u32) -> Result<Vec<u32>, AllocError>
    requires { number < length sets.now }
    ensures { IfOk result (λ set. slice_get sets.now number ≡ Some set.items) }
{
    match sets.get(number) {
        Some(set) => Ok(set.to_vec(alloc)?),
        None => unreachable!(),
    }
}
