//! The result of compiling a part of a formula.
ghost use Rattle.std.specs.Prelude.{◌≡◌, ◌↔◌, IsTrue};
ghost use Rattle.formula_auto.specs.PartOf.{IsSamePlace};

use auto_core::Auto;
use lin_formula::SetId;
use std::rc::Rc;

/// The automaton of a part of a formula.
#[derive(Drop)]
pub enum PartAuto {
    /// It was built for this part.
    Fresh(Auto),
    /// It is the cache entry at this index.
    Kept(usize),
    /// It is of a conjunction of two sets: the entry of `MeetTable` at this index.
    Paired(usize),
    /// It is a set of the table.
    Named(SetId),
    /// It is of a short formula, and shared with the short-formula cache.
    Shared(Rc<Auto>),
}

/// Returns whether two parts have the same automaton, at one index.
pub fn same_place(left: &PartAuto, right: &PartAuto) -> bool
    ensures { IsTrue result ↔ IsSamePlace left.now right.now }
{
    match (left, right) {
        (PartAuto::Kept(place), PartAuto::Kept(other)) => *place == *other,
        (PartAuto::Paired(place), PartAuto::Paired(other)) => *place == *other,
        (PartAuto::Named(set), PartAuto::Named(other)) => set.0 == other.0,
        _ => false,
    }
}

/// A part's automaton, and the number of steps taken up to it.
#[derive(Drop)]
pub struct Remembered {
    pub part: PartAuto,
    pub done: u32,
}

impl Remembered {
    /// Returns the automaton that was built for the part.
    pub fn fresh(auto: Auto, done: u32) -> Remembered
        ensures { result ≡ record { part = PartAuto.Fresh auto; done = done } }
    {
        Remembered {
            part: PartAuto::Fresh(auto),
            done,
        }
    }
}
