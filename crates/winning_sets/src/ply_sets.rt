//! The sets of one ply.
ghost use Rattle.std.specs.Prelude.{◌≡◌};

use auto_core::Auto;
use std::marker::Model;

/// The sets of a ply, one for each mask of the position, in the order of the masks.
#[derive(Drop)]
pub struct PlySets {
    sets: Vec<Auto>,
}

impl Model for PlySets {
    ghost use Rattle.std.specs.Prelude.{List};
    ghost use Rattle.auto_core.specs.Automaton.{Automaton};

    ghost Value = { List Automaton };

    ghost view = { λ s. s.sets.items };
}

impl PlySets {
    /// Creates the sets of a ply.
    pub fn new(sets: Vec<Auto>) -> PlySets
        ensures { result ≡ sets.items }
    {
        PlySets { sets }
    }

    /// Returns the sets in the order of the masks.
    pub fn as_slice(&self) -> &[Auto]
        ensures { result.now ≡ self.now }
    {
        self.sets.as_slice()
    }
}
