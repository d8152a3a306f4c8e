//! The common part of this crate's open-addressing hash tables: slots with the numbers of items.
ghost use Rattle.std.specs.Prelude.{IfSome};
ghost use Rattle.letter_diagram.specs.OpenTable.{IsFirstFree};

use crate::probing::place;

/// The entry of a free slot.
pub const FREE: u32 = u32::MAX;

/// Returns the first free slot of the probe sequence of a hash.
pub fn first_free(slots: &[u32], start: usize) -> Option<usize>
    ensures { IfSome result (IsFirstFree slots.now start) }
{
    for step in 0..slots.len() {
        let place = place(slots.len(), start, step);
        if slots[place] == FREE {
            return Some(place);
        }
    }
    None
}
