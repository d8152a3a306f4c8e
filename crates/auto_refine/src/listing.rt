//! For each class a list that contains all its states, kept while states move to new classes.
ghost use Rattle.std.specs.Prelude.{◌≡◌, ◌<◌, ◌^◌, ◌+◌, ◌++◌, [], ℕ, All, length, replicate, slice_index, IfOk, OnOk, vec_len};
ghost use Rattle.auto_refine.specs.Coarsest.{AreClasses};
ghost use Rattle.auto_refine.specs.Listing.{AreBelow, AreLists, AreListed, AreStillIn, IsPutInto, ListsOnly, WerePruned, lists_of};

use crate::classes::{Partition, members};
use std::alloc::{AllocError, Global};

/// For each class a representative state, and a list that contains all states of the class; it may also contain states that left
/// the class since the list was last pruned.
pub struct Listing {
    pub representatives: Vec<u32>,
    pub lists: Vec<Vec<u32>>,
}

impl Drop for Listing {
    /// Drops the lists. Written by hand, so that a function that drops a listing calls this instead of dropping each field.
    fn drop(self) {
        let Listing {
            representatives: _,
            lists: _,
        } = self;
    }
}

/// Returns the states below `count` in order.
pub(crate) fn all_states(alloc: Global, count: usize) -> Result<Vec<u32>, AllocError>
    requires few { count < 2 ^ 31 }
    ensures size { IfOk result (λ states. length states.items ≡ count) }
    ensures each { IfOk result (λ states. (state : ℕ) → state < count → slice_index states.items state ≡ state) }
{
    let mut states = Vec::with_capacity(alloc, count)?;
    for state in 0..count {
        states.push(state as u32)?;
    }
    Ok(states)
}

/// Appends `more` empty lists.
pub(crate) fn add_lists(
    alloc: Global,
    lists: &mut Vec<Vec<u32>>,
    more: usize,
) -> Result<(), AllocError>
    ensures { OnOk result (lists_of lists.new.items ≡ lists_of lists.old.items ++ replicate more []) }
{
    for _ in 0..more {
        lists.push(Vec::new(alloc))?;
    }
    Ok(())
}

/// Appends a state to the list of a class.
fn list(lists: &mut Vec<Vec<u32>>, class: usize, state: u32) -> Result<(), AllocError>
    requires { class < vec_len lists.old }
    ensures lists { OnOk result (IsPutInto (lists_of lists.old.items) class state (lists_of lists.new.items)) }
    ensures size { OnOk result (vec_len lists.new ≡ vec_len lists.old) }
{
    lists[class].push(state)?;
    Ok(())
}

/// Appends states to the lists of their classes.
pub(crate) fn list_each(
    lists: &mut Vec<Vec<u32>>,
    states: &[u32],
    classes: &[u32],
) -> Result<(), AllocError>
    requires within { All (λ class. class < vec_len lists.old) classes.now }
    requires same { length classes.now ≡ length states.now }
    ensures { OnOk result (AreListed (lists_of lists.old.items) states.now classes.now (lists_of lists.new.items)) }
{
    for turn in 0..states.len() {
        list(lists, classes[turn] as usize, states[turn])?;
    }
    Ok(())
}

/// Returns the list of states of each class of a partition, and a representative for each class. Errors: an allocation failed.
pub(crate) fn list_states(alloc: Global, partition: &Partition) -> Result<Listing, AllocError>
    requires partition { AreClasses partition.now }
    requires few { length partition.now.classes.items < 2 ^ 31 }
    ensures { IfOk result (λ listing. AreLists partition.now listing.representatives.items listing.lists.items) }
{
    let representatives = members(alloc, partition)?;
    let states = all_states(alloc, partition.classes.len())?;
    let mut lists = Vec::with_capacity(alloc, partition.count)?;
    add_lists(alloc, &mut lists, partition.count)?;
    list_each(&mut lists, states.as_slice(), partition.classes.as_slice())?;
    Ok(Listing {
        representatives,
        lists,
    })
}

/// Returns those of `states` that are in a class.
fn still_in(
    alloc: Global,
    partition: &Partition,
    class: u32,
    states: &[u32],
) -> Result<Vec<u32>, AllocError>
    requires { All (λ state. state < length partition.now.classes.items) states.now }
    ensures { IfOk result (λ kept. AreStillIn partition.now.classes.items class states.now kept.items) }
{
    let mut kept = Vec::new(alloc);
    for state in states {
        if partition.classes[*state as usize] == class {
            kept.push(*state)?;
        }
    }
    Ok(kept)
}

/// Removes from the list of a class the states that left it, so that iterating over the list costs the states of the class. A state
/// that moves stays in the list of its old class until that list is pruned.
pub(crate) fn prune(
    alloc: Global,
    partition: &Partition,
    class: u32,
    lists: &mut Vec<Vec<u32>>,
) -> Result<(), AllocError>
    requires class { class < vec_len lists.old }
    requires within { AreBelow (lists_of lists.old.items) (length partition.now.classes.items) }
    ensures pruned { OnOk result (WerePruned partition.now lists.old.items lists.new.items) }
    ensures only { OnOk result (ListsOnly partition.now class lists.new.items) }
    ensures size { OnOk result (vec_len lists.new ≡ vec_len lists.old) }
{
    let kept = still_in(alloc, partition, class, lists[class as usize].as_slice())?;
    lists[class as usize] = kept;
    Ok(())
}
