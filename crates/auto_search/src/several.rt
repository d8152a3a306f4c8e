//! Whether several numbers complete a front.
ghost use Rattle.std.specs.Prelude.{◌≤◌};
ghost use Rattle.auto_search.specs.Fews.{HasFew};
ghost use Rattle.auto_search.specs.Search.{IsFront, CompletedBy};
ghost use Rattle.auto_search.specs.Marks.{Serves, SameRoom};

use crate::course::Course;
use crate::few::Few;
use crate::front::{Front, is_empty, is_final, step};
use crate::marks::Marks;

/// Counts the numbers of `place` bits that complete the front, as 0, 1 or several.
pub fn several(marks: &mut Marks, course: &Course, place: u8, front: &Front) -> Few
    requires serves { Serves course.now.auto.now course.now.ray.now marks.old }
    requires place { place ≤ course.now.ray.now.top }
    requires front { IsFront course.now.auto.now front.now }
    ensures few { HasFew result (CompletedBy course.now.auto.now course.now.ray.now place front.now) }
    ensures serves { Serves course.now.auto.now course.now.ray.now marks.new }
    ensures room { SameRoom marks.old marks.new }
{
    let front = marks.live(course, place, front);
    if is_empty(&front) {
        return Few::Zero;
    }
    if place == 0 {
        return if is_final(course, &front) {
            Few::One
        } else {
            Few::Zero
        };
    }
    let place = place - 1;
    let low = step(course, place, false, &front);
    let below = several(marks, course, place, &low);
    if let Few::More = below {
        return Few::More;
    }
    let high = step(course, place, true, &front);
    let few = below.plus(several(marks, course, place, &high));
    if let Few::Zero = few {
        marks.add_all(course, place + 1, &front);
    }
    few
}
