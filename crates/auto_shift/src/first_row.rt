//! The row of shifted states after a sign letter.
ghost use Rattle.std.specs.Prelude.{◌<◌, length, IfOk};
ghost use Rattle.letter_diagram.specs.Diagram.{Grows};
ghost use Rattle.auto_shift.specs.Shifting.{HasNodes, AreTurned, IsFirstMoved, IsByBit};

use auto_core::Auto;
use letter_diagram::{Diagrams, Node};
use std::alloc::AllocError;

/// Returns what is read at the bits 0 and 1, given what is read if the carry (or borrow) stops at the bit and if it passes on.
pub(crate) fn by_bit(up: bool, stays: Node, goes_on: Node) -> (Node, Node)
    ensures { IsByBit up stays goes_on result.0 result.1 }
{
    if up {
        (stays, goes_on)
    } else {
        (goes_on, stays)
    }
}

/// Returns the node that maps each sign letter to the shifted state. `turned` has the rows of the states at letters with the bit
/// flipped.
pub(crate) fn first_moved(
    diagrams: &mut Diagrams,
    auto: &Auto,
    turned: &[Node],
    track: u8,
    up: bool,
) -> Result<Node, AllocError>
    requires nodes { HasNodes diagrams.old auto.now }
    requires turned { AreTurned diagrams.old auto.now track turned.now }
    requires track { track < length auto.now.tracks }
    ensures moved { IfOk result (IsFirstMoved diagrams.new auto.now track up) }
    ensures grows { Grows diagrams.old diagrams.new }
{
    let first = auto.first_node();
    let longer = diagrams.compose(first, turned)?;
    let as_long = diagrams.flip_track(first, track)?;
    let (low, high) = by_bit(up, longer, as_long);
    let node = diagrams.choose(track, low, high)?;
    Ok(node)
}
