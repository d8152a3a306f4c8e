//! The variables of the men's squares.

ghost use Rattle.std.specs.Prelude.{◌≡◌, ◌≤◌, ◌≢◌, ℕ};
ghost use Rattle.rule_formula.specs.Trees.{AreApart, Suits};
ghost use Rattle.rule_formula.specs.Seats.{IsSeat, new_seat as new_place, own as own_seat, seat_of, spare as spare_seat, swept as swept_var};

use crate::paths::Journey;
use game_rules::Ray;
use track_word::Var;

/// The two variables of a square.
#[derive(Clone, Copy, PartialEq, Eq)]
pub(crate) struct Seat {
    pub(crate) x: Var,
    pub(crate) y: Var,
}

/// The variables of a square that belongs to no man: the mover's square before or after the move.
pub(crate) const ELSEWHERE: Seat = Seat {
    x: Var(16),
    y: Var(17),
};

/// Returns the variables of the man with this number.
pub(crate) fn own(man: u8) -> Seat
    requires low { 1 ≤ man }
    requires high { man ≤ 8 }
    ensures own { result ≡ own_seat man }
    ensures seat { IsSeat result }
    ensures apart { (k : ℕ) → 1 ≤ k → k ≢ man → AreApart result (own_seat k) }
    ensures away { (k : ℕ) → 1 ≤ k → k ≢ man → AreApart (own_seat k) result }
{
    Seat {
        x: Var(2 * man - 2),
        y: Var(2 * man - 1),
    }
}

/// Returns the variable that is bound, or the kept one if the ray does not change it.
fn swept(step: i8, kept: Var, spare: Var) -> Var
    ensures { result ≡ swept_var step kept spare }
{
    if step == 0 { kept } else { spare }
}

/// Returns the seat before or after the man's move: he keeps the variable that the ray does not change.
pub(crate) fn spare(ray: Ray, man: u8) -> Seat
    requires low { 1 ≤ man }
    requires high { man ≤ 8 }
    ensures spare { result ≡ spare_seat ray man }
    ensures seat { IsSeat result }
    ensures from { Suits ray result (own_seat man) }
    ensures to { Suits ray (own_seat man) result }
    ensures apart { (k : ℕ) → 1 ≤ k → k ≤ 8 → k ≢ man → AreApart result (own_seat k) }
    ensures away { (k : ℕ) → 1 ≤ k → k ≤ 8 → k ≢ man → AreApart (own_seat k) result }
{
    let own = own(man);
    Seat {
        x: swept(ray.dx, own.x, ELSEWHERE.x),
        y: swept(ray.dy, own.y, ELSEWHERE.y),
    }
}

/// Returns the seat after the man's move: that of the captured man, or along the ray if none is captured.
pub(crate) fn new_seat(journey: Journey) -> Seat
    ensures seat { result ≡ new_place journey.ray journey.man journey.taken }
    ensures kind { IsSeat result }
    ensures to { Suits journey.ray (own_seat journey.man) result }
    ensures away { (k : ℕ) → 1 ≤ k → k ≤ 8 → k ≢ journey.man → k ≢ journey.taken → AreApart (own_seat k) result }
{
    if journey.taken == 0 {
        spare(journey.ray, journey.man)
    } else {
        own(journey.taken)
    }
}

/// The seats of all men: two of them elsewhere, and the others in their own variables.
#[derive(Clone, Copy)]
pub(crate) struct Seats {
    pub(crate) first: u8,
    pub(crate) first_seat: Seat,
    pub(crate) second: u8,
    pub(crate) second_seat: Seat,
}

impl Seats {
    pub(crate) fn seat(&self, man: u8) -> Seat
        requires low { 1 ≤ man }
        requires high { man ≤ 8 }
        ensures { result ≡ seat_of self.now man }
    {
        if man == self.first {
            self.first_seat
        } else if man == self.second {
            self.second_seat
        } else {
            own(man)
        }
    }
}
