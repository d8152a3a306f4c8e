//! The states visited by a traversal of heads.
ghost use Rattle.std.specs.Prelude.{◌≡◌, ◌<◌, ◌+◌, length, slice_index, slice_set, ℕ};
ghost use Rattle.auto_search.specs.Met.{IsAfter, moment};
ghost use Rattle.auto_search.specs.Entries.{AddsEntry, AreListed, BeginsAlong, HasLists, HasRoomFor, KeepsLists, WalksAlong};
ghost use Rattle.auto_search.specs.Heads.{IsOpened};
ghost use Rattle.auto_search.specs.Search.{IsFront};

use crate::carry::SLOTS;
use crate::course::Course;
use crate::front::{Front, alone, step};

/// The maximum number of visits of a state with a slot, in addition to the starting entries.
pub const MOST_TIMES: u8 = 2;

/// The number of visits of each state with each slot, and the visited states with their slots, in order.
#[derive(Drop)]
pub struct VisitTable {
    pub times: Vec<u8>,
    pub states: Vec<u32>,
    pub slots: Vec<u8>,
    pub len: usize,
}

impl VisitTable {
    /// Records a visit of a state with a slot.
    pub fn put(&mut self, state: u32, slot: u8)
        requires states { self.old.len < length self.old.states.items }
        requires slots { self.old.len < length self.old.slots.items }
        ensures times { self.new.times.items ≡ self.old.times.items }
        ensures states { self.new.states.items ≡ slice_set self.old.states.items self.old.len state }
        ensures slots { self.new.slots.items ≡ slice_set self.old.slots.items self.old.len slot }
        ensures len { self.new.len ≡ self.old.len + 1 }
    {
        self.states[self.len] = state;
        self.slots[self.len] = slot;
        self.len += 1;
    }

    /// Records a visit of a state with a slot, unless it was visited twice.
    pub fn add(&mut self, course: &Course, state: u32, slot: u8)
        requires place { HasRoomFor course.now self.old }
        requires state { state < length course.now.auto.now.accept }
        requires slot { slot < 9 }
        ensures adds { AddsEntry self.old self.new state slot }
        ensures place { HasRoomFor course.now self.new }
    {
        let at = state as usize * SLOTS as usize + slot as usize;
        if self.times[at] < MOST_TIMES {
            self.times[at] += 1;
            self.put(state, slot);
        }
    }

    /// Starts with the states of a front.
    pub fn begin(&mut self, course: &Course, front: &Front)
        requires sizes { HasLists course.now self.old }
        requires none { (k : ℕ) → slice_index self.old.times.items k ≡ 0 }
        requires front { IsFront course.now.auto.now front.now }
        requires opened { IsOpened course.now.auto.now course.now.ray.now front.now }
        ensures sizes { KeepsLists self.old self.new }
        ensures begins { BeginsAlong course.now self.new 9 }
    {
        self.len = 0;
        for slot in 0..SLOTS {
            match front[slot as usize] {
                None => {}
                Some(state) => self.put(state, slot),
            }
        }
    }

    /// Returns the slot of an entry.
    pub fn slot_of(&self, entry: usize) -> u8
        requires { entry < length self.now.slots.items }
        ensures { result ≡ slice_index self.now.slots.items entry }
    {
        self.slots[entry]
    }

    /// Returns the state of an entry.
    pub fn state_of(&self, entry: usize) -> u32
        requires { entry < length self.now.states.items }
        ensures { result ≡ slice_index self.now.states.items entry }
    {
        self.states[entry]
    }

    /// Visits the states that follow an entry by a bit; for the bit 0 none if the entry is a starting entry.
    pub fn follow(&mut self, course: &Course, entry: usize, bit: bool, starts: usize)
        requires place { HasRoomFor course.now self.old }
        requires entry { entry < self.old.len }
        requires slot { slice_index self.old.slots.items entry < 9 }
        requires state { slice_index self.old.states.items entry < length course.now.auto.now.accept }
        ensures { WalksAlong course.now self.old self.new starts (moment entry bit 0) (moment entry bit 9) }
    {
        if bit || entry >= starts {
            let after = after_entry(course, self.slot_of(entry), self.state_of(entry), bit);
            for slot in 0..SLOTS {
                match after[slot as usize] {
                    None => {}
                    Some(state) => self.add(course, state, slot),
                }
            }
        }
    }

    /// Removes all entries. Costs the number of entries.
    pub fn clear(&mut self)
        requires { AreListed self.old }
        ensures none { (k : ℕ) → slice_index self.new.times.items k ≡ 0 }
        ensures sizes { KeepsLists self.old self.new }
    {
        for entry in 0..self.len {
            let at = self.states[entry] as usize * SLOTS as usize + self.slots[entry] as usize;
            self.times[at] = 0;
        }
        self.len = 0;
    }
}

/// Returns the front after one more bit, at the top place, of one state.
fn after_entry(course: &Course, slot: u8, state: u32, bit: bool) -> Front
    requires slot { slot < 9 }
    requires state { state < length course.now.auto.now.accept }
    ensures after { IsAfter course.now.auto.now course.now.ray.now slot state bit result }
    ensures front { IsFront course.now.auto.now result }
{
    step(course, course.ray.top, bit, &alone(slot, state))
}
