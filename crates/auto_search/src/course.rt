//! An automaton that reads along a ray.
ghost use Rattle.std.specs.Prelude.{◌≡◌, ◌<◌, ◌≤◌};
ghost use Rattle.auto_core.specs.Automaton.{width};
ghost use Rattle.auto_search.specs.Bits.{letter_at};
ghost use Rattle.auto_search.specs.Search.{Suits};

use crate::ray::TrackRay;
use auto_core::Auto;

/// A ray, and the automaton whose set is searched along it.
#[derive(Clone, Copy)]
pub struct Course<'a> {
    pub auto: &'a Auto,
    pub ray: &'a TrackRay,
    ghost suits: { Suits auto.now ray.now },
}

impl Course<'_> {
    /// Returns the letter of a place at these sums.
    pub fn letter(&self, place: u8, x_sum: u8, y_sum: u8) -> u32
        requires place { place ≤ self.now.ray.now.top }
        ensures letter { result ≡ letter_at self.now.ray.now place x_sum y_sum }
        ensures narrow { result < width self.now.auto.now }
    {
        self.ray.still[place as usize]
            + (x_sum % 2) as u32 * self.ray.x.unit
            + (y_sum % 2) as u32 * self.ray.y.unit
    }
}
