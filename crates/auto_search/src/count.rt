//! The number of positive distances whose tuple is in the set: 0, 1 or several.
ghost use Rattle.std.specs.Prelude.{◌≡◌, ◌<◌, ◌+◌, slice_index, ℕ};
ghost use Rattle.auto_search.specs.Fews.{HasFew};
ghost use Rattle.auto_search.specs.Search.{IsFront};
ghost use Rattle.auto_search.specs.Marks.{Serves, SameRoom, IsClear};
ghost use Rattle.auto_search.specs.Heads.{IsOpened};
ghost use Rattle.auto_search.specs.Met.{Meets};
ghost use Rattle.auto_search.specs.Entries.{AreListed, HasCounted, HasLists, KeepsLists};

use crate::course::Course;
use crate::few::Few;
use crate::front::{Front, alone, start, step};
use crate::marks::Marks;
use crate::met::VisitTable;
use crate::several::several;

/// The tables that a search writes to.
#[derive(Drop)]
pub struct Room {
    pub marks: Marks,
    pub met: VisitTable,
}

/// Counts the steps from the near end whose tuple is in the set, as 0, 1 or several. The tables are cleared before and after.
pub fn count(room: &mut Room, course: &Course) -> Few
    requires serves { Serves course.now.auto.now course.now.ray.now room.old.marks }
    requires sizes { HasLists course.now room.old.met }
    requires none { (k : ℕ) → slice_index room.old.met.times.items k ≡ 0 }
    ensures few { HasFew result (Meets course.now.auto.now course.now.ray.now) }
    ensures clear { IsClear room.new.marks }
    ensures room { SameRoom room.old.marks room.new.marks }
    ensures none { (k : ℕ) → slice_index room.new.met.times.items k ≡ 0 }
    ensures sizes { KeepsLists room.old.met room.new.met }
{
    let few = walk(room, course);
    room.marks.clear();
    room.met.clear();
    few
}

/// Counts by a traversal of the heads (first bits) of all numbers: each entry is a head, and yields the numbers whose last bits
/// complete it.
fn walk(room: &mut Room, course: &Course) -> Few
    requires serves { Serves course.now.auto.now course.now.ray.now room.old.marks }
    requires sizes { HasLists course.now room.old.met }
    requires none { (k : ℕ) → slice_index room.old.met.times.items k ≡ 0 }
    ensures few { HasFew result (Meets course.now.auto.now course.now.ray.now) }
    ensures serves { Serves course.now.auto.now course.now.ray.now room.new.marks }
    ensures room { SameRoom room.old.marks room.new.marks }
    ensures entered { AreListed room.new.met }
    ensures sizes { KeepsLists room.old.met room.new.met }
{
    room.met.begin(course, &opened(course));
    let starts = room.met.len;
    let mut few = Few::Zero;
    for entry in 0..room.met.slots.len() {
        if entry >= room.met.len {
            return few;
        }
        few = turn(room, course, entry, starts, few);
        if let Few::More = few {
            return few;
        }
    }
    few
}

/// Counts what an entry yields, and adds the entries that follow it.
fn turn(room: &mut Room, course: &Course, entry: usize, starts: usize, few: Few) -> Few
    requires serves { Serves course.now.auto.now course.now.ray.now room.old.marks }
    requires entry { entry < room.old.met.len }
    requires counting { HasCounted course.now room.old.met starts entry few }
    ensures counting { HasCounted course.now room.new.met starts (entry + 1) result }
    ensures serves { Serves course.now.auto.now course.now.ray.now room.new.marks }
    ensures room { SameRoom room.old.marks room.new.marks }
    ensures sizes { KeepsLists room.old.met room.new.met }
{
    let front = alone(room.met.slot_of(entry), room.met.state_of(entry));
    let more = several(&mut room.marks, course, course.ray.top, &front);
    room.met.follow(course, entry, false, starts);
    room.met.follow(course, entry, true, starts);
    few.plus(more)
}

/// Returns the front of the head 0, high enough that no value is too long.
fn opened(course: &Course) -> Front
    ensures opened { IsOpened course.now.auto.now course.now.ray.now result }
    ensures front { IsFront course.now.auto.now result }
{
    let top = course.ray.top;
    let front = start(course);
    let front = step(course, top, false, &front);
    let front = step(course, top, false, &front);
    step(course, top, false, &front)
}
