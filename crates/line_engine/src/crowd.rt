//! Crowds: positions of two to 32 men.

ghost use Rattle.std.specs.Prelude.{◌≡◌, ◌↔◌, ◌≤◌, IfSome, IsSome, IsTrue, length};
ghost use Rattle.line_formula.specs.Small.{AreNear, IsNearSquare};
ghost use Rattle.line_engine.specs.Crowds.{IsCrowd, IsNearPlace};

use chess_game::MOST_CROWD;
use game_rules::{Man, Place, Side};

/// A crowd: two to 32 men, numbered from 1, the side to move and the winner. Coordinates of live men are from -2^60 to
/// 2^60, so that sums over the moves of a path fit into an `i64`.
#[derive(Clone, Copy)]
pub struct Crowd<'a> {
    pub men: &'a [Man],
    pub turn: Side,
    pub winner: Side,
    pub ghost is: { IsCrowd men.now },
}

/// Whether both numbers of the square are at most 2^60 from 0, if there is one.
fn is_near(place: Place) -> bool
    ensures { IsTrue result ↔ IsNearPlace place }
{
    const FAR: u64 = 1 << 60;
    match place {
        Place::Gone => true,
        Place::At { x, y } => x.unsigned_abs() <= FAR && y.unsigned_abs() <= FAR,
    }
}

impl<'a> Crowd<'a> {
    /// Creates the crowd of these men. Returns `None` unless there are two to 32 and every live one is within 2^60 of
    /// 0.
    pub fn new(men: &'a [Man], turn: Side, winner: Side) -> Option<Crowd<'a>>
        ensures holds { IsSome result ↔ IsCrowd men.now }
        ensures men { IfSome result (λ c. c.men.now ≡ men.now) }
        ensures turn { IfSome result (λ c. c.turn ≡ turn) }
        ensures winner { IfSome result (λ c. c.winner ≡ winner) }
    {
        if men.len() < 2 || men.len() > MOST_CROWD {
            return None;
        }
        for man in men {
            if !is_near(man.place) {
                return None;
            }
        }
        Some(Crowd { men, turn, winner })
    }
}
