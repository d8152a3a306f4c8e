//! The men who may move, and their rays.
ghost use Rattle.std.specs.Prelude.{◌≡◌, ◌↔◌, ◌≤◌, IsTrue, length, true, false};
ghost use Rattle.move_choice.specs.Aims.{HasRay, IsLiveOf, IsMover};

use crate::aim::ManRay;
use chess_game::{Man, Place, Position, Side, ray as ray_of_kind};

/// Returns whether the man is live and belongs to the side.
pub(crate) fn is_live_of(man: Man, side: Side) -> bool
    ensures yes { result ≡ true → IsLiveOf side man }
    ensures no { result ≡ false → IsLiveOf side man → ⊥ }
{
    man.side == side && man.place != Place::Gone
}

/// Returns whether the man is a live one of the side to move and one of his rays has this number, counted from 0.
pub fn has_ray(p: &Position, man: u8, number: u8) -> bool
    requires first { 1 ≤ man }
    requires last { man ≤ length p.now.men }
    ensures { IsTrue result ↔ HasRay p.now man number }
{
    let him = p.man(man);
    if !is_live_of(him, p.turn()) {
        return false;
    }
    ray_of_kind(him.kind, him.side, number).is_some()
}

/// Returns the man's ray of this number, with both numbers.
pub fn his_ray(p: &Position, man: u8, number: u8) -> ManRay
    requires { HasRay p.now man number }
    ensures man { result.man ≡ man }
    ensures number { result.number ≡ number }
    ensures mover { IsMover p.now man number result.ray }
{
    let him = p.man(man);
    match ray_of_kind(him.kind, him.side, number) {
        Some(ray) => ManRay { man, number, ray },
        None => unreachable!(),
    }
}
