//! Shifted tracks of a set.
ghost use Rattle.std.specs.Prelude.{◌≡◌, ◌≢◌, ◌<◌, pos, length, All, IfOk};
ghost use Rattle.track_word.specs.Tracks.{place};
ghost use Rattle.auto_core.specs.Integers.{DecidesIntegers};
ghost use Rattle.formula_auto.specs.Compiled.{IsAccessible};
ghost use Rattle.auto_shift.specs.Moved.{DecidesMoved};
ghost use Rattle.shift_image.specs.Laws.{IsMovedBy, negated};
ghost use Rattle.shift_image.specs.Read.{IsNear};

use crate::merging::merged;
use crate::shift::ValueShift;
use auto_core::Auto;
use auto_shift::shift_by;
use auto_walk::Grown;
use limits::Budget;
use std::alloc::Global;
use track_word::place_of;

/// Returns the set with the new values in place of the old ones. `Over` does not mean that a step exceeds the budget.
pub(crate) fn moved(
    alloc: Global,
    set: Auto,
    shifts: &[ValueShift],
    each: Budget,
) -> Result<Auto, Grown>
    requires integers { DecidesIntegers set }
    requires near { All (λ s. IsNear s.by) shifts.now }
    requires there { All (λ s. place set.tracks s.new < length set.tracks) shifts.now }
    ensures moved { IfOk result (IsMovedBy shifts.now set) }
    ensures accessible { IfOk result (λ b. 0 < length shifts.now → IsAccessible each b) }
{
    let mut auto = set;
    for shift in shifts {
        auto = shifted(alloc, &auto, *shift, each)?;
    }
    Ok(auto)
}

/// Returns the set with one value changed.
fn shifted(alloc: Global, a: &Auto, shift: ValueShift, each: Budget) -> Result<Auto, Grown>
    requires integers { DecidesIntegers a.now }
    requires near { IsNear shift.by }
    requires there { place a.now.tracks shift.new < length a.now.tracks }
    ensures moved { IfOk result (λ b. DecidesMoved a.now b (place a.now.tracks shift.new) (negated shift.by)) }
    ensures integers { IfOk result DecidesIntegers }
    ensures accessible { IfOk result (IsAccessible each) }
{
    let track = place_of(a.tracks(), shift.new) as u8;
    let pairs = shift_by(alloc, a, track, back(shift), each)?;
    Ok(merged(alloc, &pairs)?)
}

/// Returns the old value minus the new one.
fn back(shift: ValueShift) -> i32
    requires { IsNear shift.by }
    ensures is { result ≡ negated shift.by }
    ensures some { result ≢ pos 0 }
{
    -shift.by
}
