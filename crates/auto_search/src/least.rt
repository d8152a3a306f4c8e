//! The least number whose bits complete a front.
ghost use Rattle.std.specs.Prelude.{◌≤◌};
ghost use Rattle.auto_search.specs.Search.{IsFront, IsFoundAhead};
ghost use Rattle.auto_search.specs.Marks.{Serves, SameRoom};

use crate::course::Course;
use crate::front::{Front, is_empty, is_final, step};
use crate::marks::Marks;

/// Returns the least number of `place` bits that completes the front. Depth-first search; failing states are marked, so that none
/// is searched twice.
pub fn least(marks: &mut Marks, course: &Course, place: u8, front: &Front) -> Option<u128>
    requires serves { Serves course.now.auto.now course.now.ray.now marks.old }
    requires place { place ≤ course.now.ray.now.top }
    requires front { IsFront course.now.auto.now front.now }
    ensures found { IsFoundAhead course.now.auto.now course.now.ray.now place front.now result }
    ensures serves { Serves course.now.auto.now course.now.ray.now marks.new }
    ensures room { SameRoom marks.old marks.new }
{
    let front = marks.live(course, place, front);
    if is_empty(&front) {
        return None;
    }
    if place == 0 {
        return if is_final(course, &front) {
            Some(0)
        } else {
            None
        };
    }
    let place = place - 1;
    let low = step(course, place, false, &front);
    if let Some(ahead) = least(marks, course, place, &low) {
        return Some(ahead);
    }
    let high = step(course, place, true, &front);
    if let Some(ahead) = least(marks, course, place, &high) {
        return Some((1 << place) + ahead);
    }
    marks.add_all(course, place + 1, &front);
    None
}
