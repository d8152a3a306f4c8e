//! The search along a ray.
ghost use Rattle.std.specs.Prelude.{◌≡◌, ◌≤◌, ◌^◌, length, IfOk};
ghost use Rattle.auto_core.specs.Integers.{DecidesIntegers};
ghost use Rattle.auto_search.specs.Search.{IsFirstAhead};
ghost use Rattle.auto_search.specs.Marks.{Serves, SameRoom, IsClear};
ghost use Rattle.auto_search.specs.TupleRay.{IsTupleRay, IsLeastFound, HasHits};

use crate::carry::SLOTS;
use crate::count::{Room, count};
use crate::course::Course;
use crate::few::Few;
use crate::front::start;
use crate::least::least;
use crate::marks::Marks;
use crate::met::{MOST_TIMES, VisitTable};
use crate::ray::TrackRay;
use crate::tuple_ray::TupleRay;
use auto_core::Auto;
use std::alloc::{AllocError, Global};
use std::marker::Model;
use track_word::laws::{
    bits_spell_their_integers, repeating_first_letter_keeps_values, words_of_equal_values_are_equal,
};

/// Reusable tables for searches in automata with a limited number of states.
#[derive(Drop)]
pub struct Search {
    alloc: Global,
    states: u32,
    room: Room,
}

impl Model for Search {
    ghost use Rattle.std.specs.Prelude.{ℕ};
    ghost use Rattle.auto_search.specs.Room.{IsRoom};

    ghost Value = { ℕ };

    ghost view = { λ search. search.states };

    ghost invariant = { λ search. IsRoom search.states search.room };
}

impl Search {
    /// Allocates what counting needs in automata with at most `states` states, 99 bytes per state. Errors: an allocation failed.
    /// The marks of a search grow when it begins, by two bytes per state and place that it reads. If that allocation fails, the
    /// search goes on with fewer marks: it returns the same and may take longer.
    pub fn reserve(alloc: Global, states: u32) -> Result<Search, AllocError>
        ensures { IfOk result (λ search. search ≡ states) }
    {
        let count = states as usize;
        let marks = Marks {
            failed: vec![in alloc]?,
            cells: vec![in alloc]?,
            listed: 0,
        };
        let pairs = count * SLOTS as usize;
        let entries = SLOTS as usize + pairs * MOST_TIMES as usize;
        let met = VisitTable {
            times: vec![in alloc; 0u8; pairs]?,
            states: vec![in alloc; 0u32; entries]?,
            slots: vec![in alloc; 0u8; entries]?,
            len: 0,
        };
        Ok(Search {
            alloc,
            states,
            room: Room { marks, met },
        })
    }

    /// Returns the least distance from `near` to `far` whose tuple is in the set. Costs at most the number of states times nine
    /// pairs of carries times the bits of the values and of `far - near`.
    pub fn least_on_ray(&mut self, a: &Auto, way: &TupleRay, near: u128, far: u128) -> Option<u128>
        requires decides { DecidesIntegers a.now }
        requires room { length a.now.accept ≤ self.old }
        requires count { length way.now.fixed.now ≡ length a.now.tracks }
        requires way { IsTupleRay way.now }
        requires far { far ≤ 2 ^ 64 }
        ensures least { IsLeastFound a.now way.now near far result }
        ensures kept { self.new ≡ self.old }
    {
        if far < near {
            return None;
        }
        bits_spell_their_integers();
        repeating_first_letter_keeps_values();
        words_of_equal_values_are_equal();
        let _ = a.tracks();
        let ray = TrackRay::new(way, near, far - near);
        let course = Course { auto: a, ray: &ray };
        self.room.marks.fit(self.alloc, cells_of(&course));
        match ahead(&mut self.room.marks, &course) {
            None => None,
            Some(steps) => {
                if steps <= far - near {
                    Some(near + steps)
                } else {
                    None
                }
            }
        }
    }

    /// Returns whether none, one or several of all positive distances have their tuple in the set.
    pub fn count_on_ray(&mut self, a: &Auto, way: &TupleRay) -> Few
        requires decides { DecidesIntegers a.now }
        requires room { length a.now.accept ≤ self.old }
        requires count { length way.now.fixed.now ≡ length a.now.tracks }
        requires way { IsTupleRay way.now }
        ensures few { HasHits a.now way.now result }
        ensures kept { self.new ≡ self.old }
    {
        bits_spell_their_integers();
        repeating_first_letter_keeps_values();
        words_of_equal_values_are_equal();
        let _ = a.tracks();
        let ray = TrackRay::new(way, 1, 0);
        let course = Course { auto: a, ray: &ray };
        self.room.marks.fit(self.alloc, cells_of(&course));
        count(&mut self.room, &course)
    }
}

/// Returns how many cells a search can mark: one per state and place.
fn cells_of(course: &Course) -> usize {
    (course.ray.top as usize + 1) * course.auto.states() as usize
}

/// Returns the least number of steps from the near end at which the tuple is in the set. The marks are cleared before and after.
fn ahead(marks: &mut Marks, course: &Course) -> Option<u128>
    requires { Serves course.now.auto.now course.now.ray.now marks.old }
    ensures found { IsFirstAhead course.now.auto.now course.now.ray.now result }
    ensures clear { IsClear marks.new }
    ensures room { SameRoom marks.old marks.new }
{
    let found = least(marks, course, course.ray.top, &start(course));
    marks.clear();
    found
}
