//! The men by number.

ghost use Rattle.std.specs.Prelude.{◌≡◌, ◌≤◌, ◌^◌, Some, length, unsigned_abs};
ghost use Rattle.game_laws.specs.Stock.{stock_man};
ghost use Rattle.rule_formula.specs.Placed.{is_live as live_in};
ghost use Rattle.rule_formula.specs.Trees.{ray_at as ray_of_man};
ghost use Rattle.line_formula.specs.Places.{home};
ghost use Rattle.line_formula.specs.Small.{AreNear, IsSmallRay};

use chess_game::{MOST_CROWD, ray};
use game_rules::{Man, Place, Ray};

/// Returns the man with this number, from 1.
pub fn man_of(men: &[Man], number: u8) -> Man
    requires low { 1 ≤ number }
    requires high { number ≤ length men.now }
    ensures { stock_man men.now number ≡ Some result }
{
    men[number as usize - 1]
}

/// Returns whether the man with this number is in the mask.
pub fn is_live(mask: u32, number: u8) -> bool
    requires low { 1 ≤ number }
    requires high { number ≤ MOST_CROWD }
    ensures { result ≡ live_in mask number }
{
    mask >> (number - 1) & 1 == 1
}

/// Returns the ray of a man with this number, or one that leads nowhere if he has none.
pub fn ray_at(men: &[Man], man: u8, number: u8) -> Ray
    requires low { 1 ≤ man }
    requires high { man ≤ length men.now }
    ensures is { result ≡ ray_of_man men.now man number }
    ensures small { IsSmallRay result }
{
    let man = man_of(men, man);
    match ray(man.kind, man.side, number) {
        Some(ray) => ray,
        None => Ray {
            dx: 0,
            dy: 0,
            far: false,
        },
    }
}

/// A square with coordinates of at most 2^60 in absolute value.
#[derive(Clone, Copy)]
pub(crate) struct Spot {
    pub(crate) x: i64,
    pub(crate) y: i64,
}

/// Returns the first square of a man, or the origin if he has none.
pub(crate) fn first_spot(men: &[Man], number: u8) -> Spot
    requires low { 1 ≤ number }
    requires high { number ≤ length men.now }
    requires near { AreNear men.now }
    ensures x { result.x ≡ (home men.now number).x }
    ensures y { result.y ≡ (home men.now number).y }
    ensures near_x { unsigned_abs result.x ≤ 2 ^ 60 }
    ensures near_y { unsigned_abs result.y ≤ 2 ^ 60 }
{
    match man_of(men, number).place {
        Place::At { x, y } => Spot { x, y },
        Place::Gone => Spot { x: 0, y: 0 },
    }
}
