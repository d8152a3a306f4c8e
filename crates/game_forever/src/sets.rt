//! Sets of positions as type parameters, so that a law can speak of any set.

ghost use Rattle.std.specs.Prelude.{ℕ};
ghost use Rattle.game_rules.specs.Game.{Position};

use std::marker::Brand;

/// A set of positions. A law on each type that has one is a law on each set.
pub trait PositionSet {
    ghost has: { Position → Type 0 };
}

/// A set of positions for each number.
pub trait PositionSets {
    ghost has: { ℕ → Position → Type 0 };
}

impl PositionSet for Brand {
    ghost has = { λ p. ⊥ };
}

impl PositionSets for Brand {
    ghost has = { λ n p. ⊥ };
}
