//! Marks at states from which no acceptance is possible.
ghost use Rattle.std.specs.Prelude.{◌≡◌, ◌≤◌, ◌<◌, IsTrue, ◌↔◌, ℕ, length, All, IfOk, slice_index};
ghost use Rattle.std.specs.Int.{bit_at};
ghost use Rattle.auto_search.specs.Search.{IsFront, IsLive, IsDead, cell_of};
ghost use Rattle.auto_search.specs.Marks.{Serves, SameRoom, IsClear, IsMarked, HasCellFrom, HasListed, HasListedMarks};

use crate::carry::SLOTS;
use crate::course::Course;
use crate::front::Front;
use auto_core::Auto;
use std::alloc::{AllocError, Global};

/// The number of cells per entry of the list of nonzero cells: a search that marks more of them clears all cells.
const CELLS_PER_ENTRY: usize = 32;

/// For the first places and states a cell with a bit for each slot, and a list of the nonzero cells, as far as it has room. A state without a cell is
/// never marked: a search needs no marks to be correct, it then visits the state again.
#[derive(Drop)]
pub struct Marks {
    pub failed: Vec<u16>,
    pub cells: Vec<usize>,
    pub listed: usize,
}

impl Marks {
    /// Allocates this many cells, all zero. Errors: an allocation failed.
    fn of_cells(alloc: Global, count: usize) -> Result<Marks, AllocError>
        ensures { IfOk result IsClear }
    {
        Ok(Marks {
            failed: vec![in alloc; 0u16; count]?,
            cells: vec![in alloc; 0usize; count / CELLS_PER_ENTRY]?,
            listed: 0,
        })
    }

    /// Grows to this many cells. If an allocation fails, keeps the cells that there are.
    pub fn fit(&mut self, alloc: Global, count: usize)
        requires { IsClear self.old }
        ensures { IsClear self.new }
    {
        if self.failed.len() < count {
            if let Ok(marks) = Marks::of_cells(alloc, count) {
                *self = marks;
            }
        }
    }

    /// Returns whether there is a cell with a slot's bit.
    fn has(&self, cell: usize, slot: u8) -> bool
        requires slot { slot < 9 }
        ensures { IsTrue result ↔ (bit_at (slice_index self.now.failed.items cell) slot ≡ 1) }
    {
        if cell < self.failed.len() {
            (self.failed[cell] >> slot) & 1 == 1
        } else {
            false
        }
    }

    /// Sets a slot's bit in a cell, if there is such a cell.
    fn add(&mut self, cell: usize, slot: u8)
        requires slot { slot < 9 }
        requires listed { HasListedMarks self.old }
        ensures marked { IsMarked self.old.failed.items self.new.failed.items cell slot }
        ensures listed { HasListedMarks self.new }
        ensures room { SameRoom self.old self.new }
    {
        if cell < self.failed.len() {
            self.list(cell);
            self.failed[cell] |= 1 << slot;
        }
    }

    /// Lists a cell, unless it is nonzero already or the list is full.
    fn list(&mut self, cell: usize)
        requires cell { cell < length self.old.failed.items }
        requires listed { HasListedMarks self.old }
        ensures failed { self.new.failed.items ≡ self.old.failed.items }
        ensures listed { HasListedMarks self.new }
        ensures here { HasListed self.new cell }
        ensures size { length self.new.cells.items ≡ length self.old.cells.items }
    {
        if self.failed[cell] == 0 && self.listed < self.cells.len() {
            self.cells[self.listed] = cell;
            self.listed += 1;
        }
    }

    /// Returns the front without its marked states.
    pub fn live(&self, course: &Course, place: u8, front: &Front) -> Front
        requires serves { Serves course.now.auto.now course.now.ray.now self.now }
        requires place { place ≤ course.now.ray.now.top }
        requires front { IsFront course.now.auto.now front.now }
        ensures live { IsLive course.now.auto.now self.now.failed.items place front.now result }
        ensures front { IsFront course.now.auto.now result }
    {
        let mut left = *front;
        for slot in 0..SLOTS {
            if let Some(state) = front[slot as usize] {
                if self.has(cell_at(course.auto, place, state), slot) {
                    left[slot as usize] = None;
                }
            }
        }
        left
    }

    /// Marks the states of a front that no bits complete.
    pub fn add_all(&mut self, course: &Course, place: u8, front: &Front)
        requires serves { Serves course.now.auto.now course.now.ray.now self.old }
        requires place { place ≤ course.now.ray.now.top }
        requires front { IsFront course.now.auto.now front.now }
        requires dead { IsDead course.now.auto.now course.now.ray.now place front.now }
        ensures serves { Serves course.now.auto.now course.now.ray.now self.new }
        ensures room { SameRoom self.old self.new }
    {
        for slot in 0..SLOTS {
            if let Some(state) = front[slot as usize] {
                self.add(cell_at(course.auto, place, state), slot);
            }
        }
    }

    /// Clears all marks. Costs the number of marks, or of all cells if the list is full.
    pub fn clear(&mut self)
        requires { HasListedMarks self.old }
        ensures clear { IsClear self.new }
        ensures room { SameRoom self.old self.new }
    {
        if self.listed < self.cells.len() {
            empty_cells(
                self.failed.as_mut_slice(),
                &self.cells.as_slice()[..self.listed],
            );
        } else {
            empty(self.failed.as_mut_slice());
        }
        self.listed = 0;
    }
}

/// Returns the index of the cell of a state at a place.
fn cell_at(a: &Auto, place: u8, state: u32) -> usize
    requires place { place ≤ 67 }
    requires state { state < length a.now.accept }
    ensures { result ≡ cell_of a.now place state }
{
    place as usize * a.states() as usize + state as usize
}

/// Clears these cells; all others are zero.
fn empty_cells(failed: &mut [u16], cells: &[usize])
    requires within { All (λ cell. cell < length failed.old) cells.now }
    requires others { (cell : ℕ) → 0 < slice_index failed.old cell → HasCellFrom cells.now 0 cell }
    ensures { (cell : ℕ) → slice_index failed.new cell ≡ 0 }
{
    for cell in cells {
        failed[*cell] = 0;
    }
}

/// Clears all cells.
fn empty(failed: &mut [u16])
    ensures { (cell : ℕ) → slice_index failed.new cell ≡ 0 }
{
    for cell in failed.iter_mut() {
        *cell = 0;
    }
}
