//! The greatest number of a given number of bits.
ghost use Rattle.std.specs.Prelude.{◌≡◌, ◌<◌, ◌≤◌, length};
ghost use Rattle.auto_numbers.specs.Reading.{LeadsMostOrNone};

use crate::bits::{MOST_BITS, power};
use crate::outlook::Outlook;
use crate::reading::next_states;

/// Returns the greatest number of `bits` bits that leads from the state to the flag.
pub(crate) fn most(outlook: &Outlook, state: u32, bits: u8) -> Option<u128>
    requires known { state < length outlook.now.auto.now.accept }
    requires bits { bits ≤ MOST_BITS }
    ensures { LeadsMostOrNone outlook.now.auto.now outlook.now.flag state bits result }
{
    if !outlook.leads(state, bits) {
        return None;
    }
    if bits == 0 {
        return Some(0);
    }
    let bits = bits - 1;
    let (zero, one) = next_states(outlook.auto, state);
    if let Some(found) = most(outlook, one, bits) {
        return Some(power(bits) + found);
    }
    most(outlook, zero, bits)
}
