//! Pairs of numbers, numbered in the order of their first occurrence.
ghost use Rattle.std.specs.Prelude.{◌≡◌, ◌≢◌, ◌≤◌, ◌<◌, ◌^◌, ◌+◌, ◌-◌, [], ◌∷◌, ◌++◌, List, ℕ, length, slice_get, Some, None, Contains, IfSome, IfOk, OnOk, OnErr, AllPairs, ◌↔◌};
ghost use Rattle.letter_diagram.specs.Numbering.{Numbers, PairsKept, HasNoNumberLeft};
ghost use Rattle.letter_diagram.specs.OpenTable.{IsHashed, IsFirstFree};
ghost use Rattle.diagram_product.specs.Pairs.{start_of};

use letter_diagram::NumberingError;
use letter_diagram::open_table::{FREE, first_free};
use letter_diagram::probing::{place, scatter, slots_for};
use std::alloc::{AllocError, Global};
use std::marker::Model;

/// Returns the number of a pair, if it has one.
fn find(slots: &[u32], pairs: &[(u32, u32)], a: u32, b: u32) -> Option<u32>
    requires { IsHashed start_of slots.now pairs.now }
    ensures some { IfSome result (λ number. slice_get pairs.now number ≡ Some (a, b)) }
    ensures none { result ≡ None → ¬ Contains pairs.now (a, b) }
{
    let start = scatter(a as usize, b as usize);
    for step in 0..slots.len() {
        let place = place(slots.len(), start, step);
        let number = slots[place];
        if number == FREE {
            return None;
        }
        let (left, right) = pairs[number as usize];
        if left == a && right == b {
            return Some(number);
        }
    }
    None
}

/// Appends a new pair, and writes its number into the first free slot of its probe sequence.
fn add(
    pairs: &mut Vec<(u32, u32)>,
    slots: &mut [u32],
    pair: (u32, u32),
    place: usize,
) -> Result<u32, AllocError>
    requires hashed { IsHashed start_of slots.old pairs.old.items }
    requires first { IsFirstFree slots.old (start_of pair) place }
    requires room { length pairs.old.items < 2 ^ 32 - 1 }
    ensures number { IfOk result (λ number. slice_get pairs.new.items number ≡ Some pair) }
    ensures added { OnOk result (pairs.new.items ≡ pairs.old.items ++ pair ∷ []) }
    ensures err { OnErr result (pairs.new.items ≡ pairs.old.items) }
    ensures hashed { IsHashed start_of slots.new pairs.new.items }
{
    let number = pairs.len();
    pairs.push(pair)?;
    slots[place] = number as u32;
    Ok(number as u32)
}

/// Distinct pairs of numbers. The number of a pair is its index; an open-addressing hash table finds it. There are at most
/// 2^32 - 1.
pub struct Pairs {
    pairs: Vec<(u32, u32)>,
    slots: Vec<u32>,
}

impl Drop for Pairs {
    /// Drops the pairs. Written by hand, so that a function that drops a `Pairs` calls this instead of dropping each field.
    fn drop(self) {
        let Pairs { pairs: _, slots: _ } = self;
    }
}

impl Model for Pairs {
    ghost Value = { List (ℕ × ℕ) };

    ghost view = { λ p. p.pairs.items };

    ghost invariant = { λ p. (AllPairs (λ x y. x ≢ y) p.pairs.items) × (IsHashed start_of p.slots.items p.pairs.items) };
}

impl Pairs {
    pub fn new(alloc: Global) -> Self
        ensures { result ≡ [] }
    {
        Pairs {
            pairs: Vec::new(alloc),
            slots: Vec::new(alloc),
        }
    }

    /// Returns an empty table with capacity for this many pairs.
    pub fn with_capacity(alloc: Global, pairs: usize) -> Result<Self, AllocError>
        ensures { IfOk result (λ numbered. numbered ≡ []) }
    {
        Ok(Pairs {
            pairs: Vec::with_capacity(alloc, pairs)?,
            slots: vec![in alloc; FREE; slots_for(pairs)?]?,
        })
    }

    /// Returns the number of pairs.
    pub fn len(&self) -> usize
        ensures len { result ≡ length self.now }
        ensures small { length self.now < 2 ^ 32 }
        ensures unrepeated { AllPairs (λ x y. x ≢ y) self.now }
    {
        self.pairs.len()
    }

    /// Returns the pairs in the order of their numbers.
    pub fn as_slice(&self) -> &[(u32, u32)]
        ensures { result.now ≡ self.now }
    {
        self.pairs.as_slice()
    }

    /// Returns the pair with this number.
    pub fn get(&self, number: u32) -> Option<(u32, u32)>
        ensures { result ≡ slice_get self.now number }
    {
        self.pairs.get(number as usize).copied()
    }

    /// Returns the number of a pair, if it has one.
    pub fn find(&self, a: u32, b: u32) -> Option<u32>
        ensures some { IfSome result (λ number. slice_get self.now number ≡ Some (a, b)) }
        ensures none { result ≡ None → ¬ Contains self.now (a, b) }
    {
        find(&self.slots, &self.pairs, a, b)
    }

    /// Returns the number of a pair, and adds the pair if it is new.
    pub fn number(&mut self, a: u32, b: u32) -> Result<u32, NumberingError>
        ensures number { IfOk result (λ number. slice_get self.new number ≡ Some (a, b)) }
        ensures pairs { OnOk result (Numbers self.old self.new (a, b)) }
        ensures full { (result ≡ Err NumberingError.Full) ↔ HasNoNumberLeft self.old (a, b) }
        ensures err { OnErr result (self.new ≡ self.old) }
    {
        if let Some(number) = self.find(a, b) {
            return Ok(number);
        }
        if self.pairs.len() == u32::MAX as usize {
            return Err(NumberingError::Full);
        }
        Ok(self.push(a, b)?)
    }

    /// Returns the number of a pair, and adds the pair if it is new; a number is known to be free.
    pub fn add(&mut self, a: u32, b: u32) -> Result<u32, AllocError>
        requires { length self.old < 2 ^ 32 - 1 }
        ensures number { IfOk result (λ number. slice_get self.new number ≡ Some (a, b)) }
        ensures pairs { OnOk result (Numbers self.old self.new (a, b)) }
        ensures kept { PairsKept self.old self.new }
        ensures room { length self.new ≤ length self.old + 1 }
        ensures err { OnErr result (self.new ≡ self.old) }
    {
        if let Some(number) = self.find(a, b) {
            return Ok(number);
        }
        let number = self.push(a, b)?;
        Ok(number)
    }

    /// Adds a new pair, and returns its number; a number is known to be free.
    fn push(&mut self, a: u32, b: u32) -> Result<u32, AllocError>
        requires absent { ¬ Contains self.old (a, b) }
        requires room { length self.old < 2 ^ 32 - 1 }
        ensures number { IfOk result (λ number. slice_get self.new number ≡ Some (a, b)) }
        ensures added { OnOk result (self.new ≡ self.old ++ (a, b) ∷ []) }
        ensures err { OnErr result (self.new ≡ self.old) }
    {
        self.make_room()?;
        let from = scatter(a as usize, b as usize);
        let Some(place) = first_free(&self.slots, from) else {
            return Err(AllocError);
        };
        let number = add(&mut self.pairs, &mut self.slots, (a, b), place)?;
        Ok(number)
    }

    /// Doubles the slots if half of them are used.
    fn make_room(&mut self) -> Result<(), AllocError>
        ensures { self.new ≡ self.old }
    {
        if self.pairs.len() >= self.slots.len() / 2 {
            let slots = self.grown()?;
            self.slots = slots;
        }
        Ok(())
    }

    /// Returns twice as many slots with the same numbers.
    fn grown(&self) -> Result<Vec<u32>, AllocError>
        ensures { IfOk result (λ slots. IsHashed start_of slots.items self.now) }
    {
        let alloc = *self.pairs.allocator();
        let mut slots = vec![in alloc; FREE; slots_for(self.slots.len())?]?;
        for (number, pair) in self.pairs.iter().enumerate() {
            let from = scatter(pair.0 as usize, pair.1 as usize);
            let Some(place) = first_free(&slots, from) else {
                return Err(AllocError);
            };
            slots[place] = number as u32;
        }
        Ok(slots)
    }
}
