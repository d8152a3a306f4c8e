//! The first move that leads into sets of positions.
ghost use Rattle.std.specs.Prelude.{◌≡◌, ◌≤◌, IsSomeAnd, length};
ghost use Rattle.game_rules.specs.Game.{man_at};
ghost use Rattle.mask_sets.specs.Sets.{HaveAtMost, IsIn};
ghost use Rattle.move_choice.specs.Aims.{IsLiveOf};
ghost use Rattle.move_choice.specs.Choice.{FirstAsAimed, IsOf, Pick};

use crate::aim::{Aim, AimedRay, ManRay};
use crate::choice::Choice;
use crate::movers::is_live_of;
use crate::ray_pick::along_ray;
use auto_search::Search;
use chess_game::{MOST_RAYS, ray};

/// Of the moves of a live man of the side to move, the first that leads into the sets.
fn of_man(search: &mut Search, aim: &Aim, man: u8) -> Option<Choice>
    requires few { HaveAtMost search.old aim.now.sets.now }
    requires mover { IsSomeAnd (man_at aim.now.position.now man) (IsLiveOf aim.now.position.now.turn) }
    ensures first { FirstAsAimed aim.now (IsOf man) result }
    ensures kept { search.new ≡ search.old }
{
    let him = aim.position.man(man);
    for number in 0..MOST_RAYS {
        let Some(way) = ray(him.kind, him.side, number) else {
            return None;
        };
        let his = ManRay {
            man,
            number,
            ray: way,
        };
        if let Some(choice) = along_ray(search, &AimedRay { aim: &*aim, his }) {
            return Some(choice);
        }
    }
    None
}

/// Returns the first move of a man that leads into the sets. A man who is captured or belongs to the other side has
/// none.
fn of_any(search: &mut Search, aim: &Aim, man: u8) -> Option<Choice>
    requires few { HaveAtMost search.old aim.now.sets.now }
    requires first { 1 ≤ man }
    requires last { man ≤ length aim.now.position.now.men }
    ensures first { FirstAsAimed aim.now (IsOf man) result }
    ensures kept { search.new ≡ search.old }
{
    let him = aim.position.man(man);
    if !is_live_of(him, aim.position.turn()) {
        return None;
    }
    of_man(search, aim, man)
}

/// Returns the first legal move, by man, ray and distance, that goes to a square of the frame and leads into the sets;
/// captures are included. A failed allocation only makes it slower.
pub fn first_move(search: &mut Search, aim: &Aim) -> Option<Choice>
    requires few { HaveAtMost search.old aim.now.sets.now }
    ensures pick { Pick (IsIn aim.now.sets.now) aim.now.frame aim.now.position.now result }
    ensures kept { search.new ≡ search.old }
{
    for man in 1..aim.position.count() + 1 {
        if let Some(choice) = of_any(search, aim, man) {
            return Some(choice);
        }
    }
    None
}
