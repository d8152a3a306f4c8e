//! Moves with their rays.
ghost use Rattle.std.specs.Prelude.{◌≡◌, ◌≤◌, ◌^◌, ◌+ℤ◌, ◌-ℤ◌, ◌*ℤ◌, pos, unsigned_abs, true, false, FitsSigned};
ghost use Rattle.std.specs.Int.{w64};
ghost use Rattle.auto_search.specs.TupleRay.{IsSlope};
ghost use Rattle.game_laws.specs.Answer.{distance as squares_apart, steps_of as steps_to_sides};
ghost use Rattle.chess_game.specs.Way.{IsFree};
ghost use Rattle.move_choice.specs.Choice.{AreHisSteps, LeadsTo, target};

use crate::aim::AimedRay;
use auto_search::value_along;
use chess_game::{Frame, Move, Place, Ray};

/// A move, the number of its ray, and its distance in steps of the ray.
#[derive(Clone, Copy, PartialEq, Eq)]
pub struct Choice {
    pub mv: Move,
    pub ray: u8,
    pub distance: u128,
}

/// Returns a coordinate after `distance` steps.
fn moved(value: i64, slope: i8, distance: u128) -> i64
    requires slope { IsSlope slope }
    requires distance { distance ≤ 2 ^ 64 }
    requires fits { FitsSigned w64 (value +ℤ (pos distance *ℤ slope)) }
    ensures { result ≡ value +ℤ (pos distance *ℤ slope) }
{
    value_along(value, slope, distance) as i64
}

/// Returns the man's move of this distance along the ray. It goes to a square of the frame, so that its coordinates
/// fit.
pub(crate) fn choice_along(along: &AimedRay, frame: Frame, distance: u128) -> Choice
    requires distance { distance ≤ 2 ^ 64 }
    requires free { IsFree along.now.aim.now.position.now along.now.his.man along.now.his.ray frame distance }
    ensures man { result.mv.man ≡ along.now.his.man }
    ensures ray { result.ray ≡ along.now.his.number }
    ensures distance { result.distance ≡ distance }
    ensures leads { LeadsTo along.now.aim.now.position.now along.now.his.man along.now.his.ray distance (target result.mv) }
{
    let aim = along.aim;
    let his = along.his;
    let _ = frame; // for its invariant
    match aim.position.man(his.man).place {
        Place::At { x, y } => Choice {
            mv: Move {
                man: his.man,
                x: moved(x, his.ray.dx, distance),
                y: moved(y, his.ray.dy, distance),
            },
            ray: his.number,
            distance,
        },
        Place::Gone => unreachable!(),
    }
}

/// How far two numbers are apart.
fn apart(from: i64, to: i64) -> u128
    ensures value { result ≡ unsigned_abs (to -ℤ from) }
    ensures few { result ≤ 2 ^ 64 }
{
    (to as i128 - from as i128).unsigned_abs()
}

/// How many equal steps of a direction lead so far to a side, and so far up or down.
fn equal_steps(across: u128, along: u128) -> u128
    requires across { across ≤ 2 ^ 64 }
    requires along { along ≤ 2 ^ 64 }
    ensures steps { result ≡ steps_to_sides across along }
    ensures few { result ≤ 2 ^ 64 }
{
    if across == 0 {
        return along;
    }
    if along == 0 {
        return across;
    }
    across.min(along)
}

/// How many steps of a ray lead from one square to another on it.
fn steps_between(ray: Ray, x: i64, y: i64, to_x: i64, to_y: i64) -> u128
    ensures far { ray.far ≡ true → result ≡ squares_apart (record { x = x; y = y }) (record { x = to_x; y = to_y }) }
    ensures near { ray.far ≡ false → result ≡ 1 }
    ensures few { result ≤ 2 ^ 64 }
{
    if ray.far {
        equal_steps(apart(x, to_x), apart(y, to_y))
    } else {
        1
    }
}

/// Returns the distance of the move, which goes along the ray, in steps of the ray.
pub(crate) fn steps_of(along: &AimedRay, mv: Move) -> u128
    ensures steps { AreHisSteps along.now.aim.now.position.now along.now.his.man along.now.his.ray (target mv) result }
    ensures few { result ≤ 2 ^ 64 }
{
    match along.aim.position.man(along.his.man).place {
        Place::At { x, y } => steps_between(along.his.ray, x, y, mv.x, mv.y),
        Place::Gone => unreachable!(),
    }
}
