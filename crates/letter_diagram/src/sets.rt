//! Sets of numbers, numbered in the order of their first occurrence.
ghost use Rattle.std.specs.Prelude.{◌≡◌, ◌≢◌, ◌≤◌, ◌<◌, ◌^◌, ◌+◌, ◌-◌, [], ◌∷◌, ◌++◌, List, ℕ, length, map, slice_get, Some, None, Contains, IfOk, IfSome, OnOk, OnErr, IsSome, IsTrue, All, AllPairs, ◌↔◌};
ghost use Rattle.std.specs.List.Sorted.{IsStrictlyIncreasing};
ghost use Rattle.letter_diagram.specs.Numbering.{HasNoNumberLeft};
ghost use Rattle.letter_diagram.specs.OpenTable.{IsHashed, IsFirstFree};
ghost use Rattle.letter_diagram.specs.Sets.{start_of, NumbersSet, SetsKept, HasElementsOfEither, IsUnion, AddsOnlyUnion};

use crate::numbering::NumberingError;
use crate::open_table::{FREE, first_free};
use crate::probing::{place, scatter, slots_for};
use std::alloc::{AllocError, AllocFailed, Global};
use std::marker::Model;

/// Returns the union of two lists as an ascending list without repeats.
fn union(alloc: Global, a: &[u32], b: &[u32]) -> Result<Vec<u32>, AllocError>
    ensures ascends { IfOk result (λ both. IsStrictlyIncreasing both.items) }
    ensures members { IfOk result (λ both. HasElementsOfEither a.now b.now both.items) }
{
    let mut both = a.to_vec(alloc)?;
    both.extend_from_slice(b)?;
    both.sort()?;
    both.dedup();
    Ok(both)
}

/// Returns the hash of a set.
fn start(set: &[u32]) -> usize
    ensures { result ≡ start_of set.now }
{
    let mut start = set.len();
    for &element in set {
        start = scatter(start, element as usize);
    }
    start
}

/// Returns the number of a set, if it has one.
fn find(slots: &[u32], sets: &[Vec<u32>], set: &[u32]) -> Option<u32>
    requires { IsHashed start_of slots.now (map (λ s. s.items) sets.now) }
    ensures some { IfSome result (λ number. slice_get (map (λ s. s.items) sets.now) number ≡ Some set.now) }
    ensures none { result ≡ None → ¬ Contains (map (λ s. s.items) sets.now) set.now }
{
    let start = start(set);
    for step in 0..slots.len() {
        let place = place(slots.len(), start, step);
        let number = slots[place];
        if number == FREE {
            return None;
        }
        if sets[number as usize].as_slice() == set {
            return Some(number);
        }
    }
    None
}

/// Appends a new set, and writes its number into the first free slot of its probe sequence.
fn add(
    sets: &mut Vec<Vec<u32>>,
    slots: &mut [u32],
    set: Vec<u32>,
    place: usize,
) -> Result<u32, AllocError>
    requires hashed { IsHashed start_of slots.old (map (λ s. s.items) sets.old.items) }
    requires first { IsFirstFree slots.old (start_of set.items) place }
    requires room { length sets.old.items < 2 ^ 32 - 1 }
    ensures number { IfOk result (λ number. slice_get (map (λ s. s.items) sets.new.items) number ≡ Some set.items) }
    ensures added { OnOk result (map (λ s. s.items) sets.new.items ≡ map (λ s. s.items) sets.old.items ++ set.items ∷ []) }
    ensures err { OnErr result (sets.new.items ≡ sets.old.items) }
    ensures hashed { IsHashed start_of slots.new (map (λ s. s.items) sets.new.items) }
{
    let number = sets.len();
    sets.push(set)?;
    slots[place] = number as u32;
    Ok(number as u32)
}

/// Distinct sets of numbers, each an ascending list. The number of a set is its index; an open-addressing hash table finds it.
/// There are at most 2^32 - 1.
pub struct Sets {
    sets: Vec<Vec<u32>>,
    slots: Vec<u32>,
}

impl Drop for Sets {
    /// Drops the sets. Written by hand, so that a function that drops a `Sets` calls this instead of dropping each field.
    fn drop(self) {
        let Sets { sets: _, slots: _ } = self;
    }
}

impl Model for Sets {
    ghost Value = { List (List ℕ) };

    ghost view = { λ s. map (λ set. set.items) s.sets.items };

    ghost invariant = { λ s. (All IsStrictlyIncreasing (map (λ set. set.items) s.sets.items))
        × (AllPairs (λ x y. x ≢ y) (map (λ set. set.items) s.sets.items))
        × (IsHashed start_of s.slots.items (map (λ set. set.items) s.sets.items)) };
}

impl Sets {
    /// Returns an empty list of sets.
    pub fn new(alloc: Global) -> Self
        ensures { result ≡ [] }
    {
        Sets {
            sets: Vec::new(alloc),
            slots: Vec::new(alloc),
        }
    }

    /// Returns the number of sets.
    pub fn len(&self) -> usize
        ensures len { result ≡ length self.now }
        ensures small { length self.now < 2 ^ 32 }
        ensures unrepeated { AllPairs (λ x y. x ≢ y) self.now }
        ensures ascend { All IsStrictlyIncreasing self.now }
    {
        self.sets.len()
    }

    /// Returns whether there are no sets.
    pub fn is_empty(&self) -> bool
        ensures { IsTrue result ↔ (self.now ≡ []) }
    {
        self.sets.is_empty()
    }

    /// Returns the set with a number, in ascending order, if there is one.
    pub fn get(&self, number: u32) -> Option<&[u32]>
        ensures known { IsSome result ↔ (number < length self.now) }
        ensures set { IfSome result (λ set. slice_get self.now number ≡ Some set.now) }
    {
        let set = self.sets.get(number as usize)?;
        Some(set.as_slice())
    }

    /// Returns the number of a set, and adds the set if it is new. Errors: `Full` if it is new and all numbers are in use, `Memory`
    /// if an allocation fails.
    pub fn number(&mut self, set: &[u32]) -> Result<u32, NumberingError>
        requires { IsStrictlyIncreasing set.now }
        ensures number { IfOk result (λ number. slice_get self.new number ≡ Some set.now) }
        ensures sets { OnOk result (NumbersSet self.old self.new set.now) }
        ensures full { (result ≡ Err NumberingError.Full) ↔ HasNoNumberLeft self.old set.now }
        ensures err { OnErr result (self.new ≡ self.old) }
    {
        if let Some(number) = find(&self.slots, &self.sets, set) {
            return Ok(number);
        }
        if self.sets.len() == u32::MAX as usize {
            return Err(NumberingError::Full);
        }
        let set = set.to_vec(*self.sets.allocator())?;
        Ok(self.push(set)?)
    }

    /// Returns the number of a set, and adds the set if it is new; a number is known to be free.
    fn add(&mut self, set: Vec<u32>) -> Result<u32, AllocError>
        requires ascends { IsStrictlyIncreasing set.items }
        requires room { length self.old < 2 ^ 32 - 1 }
        ensures number { IfOk result (λ number. slice_get self.new number ≡ Some set.items) }
        ensures sets { OnOk result (NumbersSet self.old self.new set.items) }
        ensures kept { SetsKept self.old self.new }
        ensures room { length self.new ≤ length self.old + 1 }
        ensures err { OnErr result (self.new ≡ self.old) }
    {
        if let Some(number) = find(&self.slots, &self.sets, &set) {
            return Ok(number);
        }
        let number = self.push(set)?;
        Ok(number)
    }

    /// Adds a new set, and returns its number; a number is known to be free.
    fn push(&mut self, set: Vec<u32>) -> Result<u32, AllocError>
        requires ascends { IsStrictlyIncreasing set.items }
        requires absent { ¬ Contains self.old set.items }
        requires room { length self.old < 2 ^ 32 - 1 }
        ensures number { IfOk result (λ number. slice_get self.new number ≡ Some set.items) }
        ensures added { OnOk result (self.new ≡ self.old ++ set.items ∷ []) }
        ensures err { OnErr result (self.new ≡ self.old) }
    {
        self.make_room()?;
        let from = start(&set);
        let Some(place) = first_free(&self.slots, from) else {
            return Err(AllocError);
        };
        let number = add(&mut self.sets, &mut self.slots, set, place)?;
        Ok(number)
    }

    /// Doubles the slots if half of them are used.
    fn make_room(&mut self) -> Result<(), AllocError>
        ensures { self.new ≡ self.old }
    {
        if self.sets.len() >= self.slots.len() / 2 {
            let slots = self.grown()?;
            self.slots = slots;
        }
        Ok(())
    }

    /// Returns twice as many slots with the same numbers.
    fn grown(&self) -> Result<Vec<u32>, AllocError>
        ensures { IfOk result (λ slots. IsHashed start_of slots.items self.now) }
    {
        let alloc = *self.sets.allocator();
        let mut slots = vec![in alloc; FREE; slots_for(self.slots.len())?]?;
        for (number, set) in self.sets.iter().enumerate() {
            let from = start(set);
            let Some(place) = first_free(&slots, from) else {
                return Err(AllocError);
            };
            slots[place] = number as u32;
        }
        Ok(slots)
    }

    /// Returns the number of the union of two numbered sets, and adds the union if it is new; a number is known to be free.
    pub fn unite(&mut self, a: u32, b: u32) -> Result<u32, AllocError>
        requires a_known { a < length self.old }
        requires b_known { b < length self.old }
        requires room { length self.old < 2 ^ 32 - 1 }
        ensures union { IfOk result (λ number. IsUnion self.new a b number) }
        ensures answers { OnOk result (AddsOnlyUnion self.old self.new a b) }
        ensures kept { SetsKept self.old self.new }
        ensures room { length self.new ≤ length self.old + 1 }
        ensures unchanged { OnErr result (self.new ≡ self.old) }
    {
        let both = union(
            *self.sets.allocator(),
            self.sets[a as usize].as_slice(),
            self.sets[b as usize].as_slice(),
        )?;
        let number = self.add(both)?;
        Ok(number)
    }
}
