//! The states that a ray can have reached, given some first bits of a distance.
ghost use Rattle.std.specs.Prelude.{◌≡◌, ◌≤◌, ◌<◌, ℕ, IsTrue, None, IfSome, slice_index_or, length, ◌↔◌, []};
ghost use Rattle.auto_search.specs.Search.{IsFront, IsStep, IsStart, MayCarry, started, Completes};
ghost use Rattle.auto_search.specs.Entries.{IsNextState};
ghost use Rattle.auto_search.specs.Met.{IsAlone};

use crate::carry::{Carry, SLOTS};
use crate::course::Course;

/// For each slot the state, or none, reached if the remaining bits carry what the slot says.
pub type Front = [Option<u32>; SLOTS as usize];

/// A front without states.
pub const NO_STATES: Front = [None; SLOTS as usize];

/// Returns the front before all bits.
pub fn start(course: &Course) -> Front
    ensures start { IsStart course.now.auto.now course.now.ray.now result }
    ensures front { IsFront course.now.auto.now result }
{
    let mut front = NO_STATES;
    for slot in 0..SLOTS {
        front[slot as usize] = first(course, Carry::of_slot(slot));
    }
    front
}

/// Returns the state after the sign letter, given the carries of all bits.
fn first(course: &Course, carry: Carry) -> Option<u32>
    ensures started { result ≡ started course.now.auto.now course.now.ray.now carry.x carry.y }
    ensures within { IfSome result (λ state. state < length course.now.auto.now.accept) }
{
    let top = course.ray.top;
    match course.ray.x.sign(top, carry.x) {
        None => None,
        Some(x) => match course.ray.y.sign(top, carry.y) {
            None => None,
            Some(y) => Some(course.auto.first_of(course.letter(top, x, y))),
        },
    }
}

/// Returns the front after one more bit of the distance.
pub fn step(course: &Course, place: u8, bit: bool, front: &Front) -> Front
    requires front { IsFront course.now.auto.now front.now }
    requires place { place ≤ course.now.ray.now.top }
    ensures step { IsStep course.now.auto.now course.now.ray.now place bit front.now result }
    ensures front { IsFront course.now.auto.now result }
{
    let mut after = NO_STATES;
    for slot in 0..SLOTS {
        after[slot as usize] = next(course, place, bit, front, Carry::of_slot(slot));
    }
    after
}

/// Returns the state after one more bit, given the carries of the bits after it, or none if these carries are impossible.
fn next(course: &Course, place: u8, bit: bool, front: &Front, carry: Carry) -> Option<u32>
    requires front { IsFront course.now.auto.now front.now }
    requires place { place ≤ course.now.ray.now.top }
    ensures next { IsNextState course.now place bit front.now carry result }
    ensures only { IfSome result (λ _. MayCarry course.now.ray.now carry.x carry.y) }
    ensures within { IfSome result (λ state. state < length course.now.auto.now.accept) }
{
    if carry.x > course.ray.x.zero + course.ray.x.one {
        return None;
    }
    if carry.y > course.ray.y.zero + course.ray.y.one {
        return None;
    }
    let x = course.ray.x.sum(place, carry.x, bit);
    let y = course.ray.y.sum(place, carry.y, bit);
    let before = Carry { x: x / 2, y: y / 2 };
    match front[before.slot() as usize] {
        None => None,
        Some(state) => Some(course.auto.next_of(state, course.letter(place, x, y))),
    }
}

/// Returns whether the front has no state.
pub fn is_empty(front: &Front) -> bool
    ensures { IsTrue result → (slot : ℕ) → slice_index_or front.now slot None ≡ None }
{
    for state in front {
        if state.is_some() {
            return false;
        }
    }
    true
}

/// Returns whether the front is accepting without further bits.
pub fn is_final(course: &Course, front: &Front) -> bool
    requires front { IsFront course.now.auto.now front.now }
    ensures { IsTrue result ↔ Completes course.now.auto.now course.now.ray.now front.now [] }
{
    let carry = Carry {
        x: course.ray.x.zero,
        y: course.ray.y.zero,
    };
    match front[carry.slot() as usize] {
        None => false,
        Some(state) => course.auto.accept_of(state),
    }
}

/// Returns the front with one state only.
pub fn alone(slot: u8, state: u32) -> Front
    requires { slot < 9 }
    ensures alone { IsAlone slot state result }
    ensures size { length result ≡ 9 }
{
    let mut front = NO_STATES;
    front[slot as usize] = Some(state);
    front
}
