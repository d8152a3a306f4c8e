//! Whether a position is sound if a side may have no king.

ghost use Rattle.std.specs.Prelude.{◌≡◌, ◌<◌, ◌≤◌, ℕ, length, true};
ghost use Rattle.game_rules.specs.Game.{Sound};
ghost use Rattle.game_trials.specs.Kings.{AreCompatible, AreCompatibleAt, IsFineAt, IsKingAt, IsSafe};

use chess_game::{Kind, Man, Place, Position, attacked};

/// Returns whether two men can be in one sound position: not two kings of one side, and not on one square.
fn are_compatible(one: Man, two: Man) -> bool
    ensures { result ≡ true → AreCompatible one two }
{
    if one.side == two.side && one.kind == Kind::King && two.kind == Kind::King {
        return false;
    }
    if let Place::At { .. } = one.place {
        return one.place != two.place;
    }
    true
}

/// Returns whether the man can be in a sound position together with each man of a greater number.
fn suits_later_men(p: &Position, number: u8) -> bool
    requires first { 1 ≤ number }
    requires last { number ≤ length p.now.men }
    ensures { result ≡ true → (k : ℕ) → number < k → AreCompatibleAt p.now number k }
{
    let count = p.count();
    let man = p.man(number);
    for later in number + 1..count + 1 {
        if !are_compatible(man, p.man(later)) {
            return false;
        }
    }
    true
}

/// Returns whether the man is no king, or a live one that is not attacked or has the move.
fn is_safe(p: &Position, man: Man) -> bool
    ensures { result ≡ true → IsSafe p.now man }
{
    if man.kind != Kind::King {
        return true;
    }
    match man.place {
        Place::Gone => false,
        Place::At { x, y } => man.side == p.turn() || !attacked(p, p.turn(), x, y),
    }
}

/// Returns whether the man of this number speaks against no soundness.
fn is_fine(p: &Position, number: u8) -> bool
    requires first { 1 ≤ number }
    requires last { number ≤ length p.now.men }
    ensures { result ≡ true → IsFineAt p.now number }
{
    is_safe(p, p.man(number)) && suits_later_men(p, number)
}

/// Returns whether some man is a king.
fn has_king(p: &Position) -> bool
    ensures { result ≡ true → (k : ℕ) × IsKingAt p.now k }
{
    for number in 1..p.count() + 1 {
        if p.man(number).kind == Kind::King {
            return true;
        }
    }
    false
}

/// Returns whether the position is sound: each side has a king or none, and not both have none. A text has to have
/// both, so [`chess_game::soundness`] refuses more.
pub fn is_sound(p: &Position) -> bool
    ensures { result ≡ true → Sound p.now }
{
    for number in 1..p.count() + 1 {
        if !is_fine(p, number) {
            return false;
        }
    }
    has_king(p)
}
