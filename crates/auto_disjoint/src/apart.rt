//! The traversal.
ghost use Rattle.std.specs.Prelude.{◌≡◌, ◌≤◌, ◌∷◌, [], length, true, false, IsTrue, IfOk, OnOk};
ghost use Rattle.track_word.specs.Tracks.{with_vars};
ghost use Rattle.letter_diagram.specs.Numbering.{PairsKept};
ghost use Rattle.auto_walk.specs.Walker.{IsReached};
ghost use Rattle.auto_disjoint.specs.Apart.{AreApart, HaveCommonWord};
ghost use Rattle.auto_disjoint.specs.Meetings.{walker_of, IsMet, AreMet, AreStatesSettled, AreSettled};

use crate::meeting::Meeting;
use crate::met::PairWorklist;
use auto_core::Auto;
use diagram_product::PairShape;
use letter_diagram::Node;
use limits::MOST_TRACKS;
use std::alloc::{AllocError, Global};

/// Returns whether no word over the tracks of both is accepted by both, each reading its own tracks.
/// Stops at the first pair of accepting states that a common word reaches. Costs the pairs of nodes that are visited. Errors: an
/// allocation failed.
pub fn are_disjoint(alloc: Global, a: &Auto, b: &Auto) -> Result<bool, AllocError>
    requires tracks { length (with_vars a.now.tracks b.now.tracks) ≤ MOST_TRACKS }
    ensures apart { IfOk result (λ apart. IsTrue apart → AreApart a.now b.now) }
    ensures common { result ≡ Ok false → HaveCommonWord a.now b.now }
{
    let meeting = Meeting::new(alloc, a, b)?;
    let apart = walk(alloc, &meeting)?;
    Ok(apart)
}

/// Returns whether no pair of states that a word reaches is accepting on both sides.
fn walk(alloc: Global, meeting: &Meeting) -> Result<bool, AllocError>
    ensures apart { IfOk result (λ apart. IsTrue apart → AreApart meeting.now.left.now meeting.now.right.now) }
    ensures common { result ≡ Ok false → HaveCommonWord meeting.now.left.now meeting.now.right.now }
{
    let mut met = PairWorklist::new(alloc);
    met.add(meeting.first())?;
    let mut visited = 0;
    while let Some(nodes) = met.get(visited) {
        if !settle(meeting, &mut met, nodes)? {
            return Ok(false);
        }
        visited += 1;
    }
    Ok(true)
}

/// Visits two nodes. Returns false if a letter leads to states that both accept; otherwise adds the pairs of nodes that follow.
fn settle(
    meeting: &Meeting,
    met: &mut PairWorklist,
    nodes: (Node, Node),
) -> Result<bool, AllocError>
    requires met { AreMet meeting.now met.old }
    requires nodes { IsMet meeting.now nodes }
    ensures settled { result ≡ Ok true → AreSettled meeting.now met.new nodes }
    ensures common { result ≡ Ok false → HaveCommonWord meeting.now.left.now meeting.now.right.now }
    ensures met { OnOk result (AreMet meeting.now met.new) }
    ensures kept { OnOk result (PairsKept met.old met.new) }
{
    match meeting.look(nodes) {
        PairShape::Pair(left, right) => settle_states(meeting, met, left, right),
        PairShape::Test(test) => {
            met.add(test.low)?;
            met.add(test.high)?;
            Ok(true)
        }
    }
}

/// Returns whether at most one of two states accepts. If so, adds the nodes of their rows, unless one of the states rejects every
/// continuation.
fn settle_states(
    meeting: &Meeting,
    met: &mut PairWorklist,
    left: u32,
    right: u32,
) -> Result<bool, AllocError>
    requires met { AreMet meeting.now met.old }
    requires reached { IsReached (walker_of meeting.now) (left ∷ right ∷ []) }
    ensures settled { result ≡ Ok true → AreStatesSettled meeting.now met.new (left, right) }
    ensures common { result ≡ Ok false → HaveCommonWord meeting.now.left.now meeting.now.right.now }
    ensures met { OnOk result (AreMet meeting.now met.new) }
    ensures kept { OnOk result (PairsKept met.old met.new) }
{
    if meeting.rejects(left, right) {
        return Ok(true);
    }
    if meeting.accept(left, right) {
        return Ok(false);
    }
    met.add(meeting.rows(left, right))?;
    Ok(true)
}
