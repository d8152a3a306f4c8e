//! The number of moves along one ray that lead into the sets, and the distance of the nearest.
ghost use Rattle.std.specs.Prelude.{◌≡◌, ◌≤◌, ◌^◌, length, IfNone, IfSome};
ghost use Rattle.auto_search.specs.Fews.{HasFew};
ghost use Rattle.mask_sets.specs.Sets.{HaveAtMost, IsSetFor};
ghost use Rattle.move_choice.specs.Aimed.{CaptureInto, Hits, LeadsAsAimed, MayGoOn, MayGoTo, Meets, MeetsFirst, MeetsOn, MoveInto, QuietInto, ServesMoves};
ghost use Rattle.move_choice.specs.Aims.{HoldsMen};
ghost use Rattle.move_choice.specs.Along.{IsLeastOrNone};
ghost use Rattle.move_choice.specs.Choice.{target};

use crate::aim::{Aim, AimedRay};
use crate::choice::steps_of;
use crate::men_frame::frame_of_men;
use crate::ray_pick::{along_ray, capture, least_hit, serves_moves};
use crate::ray_way::{way_along, way_of};
use auto_core::Auto;
use auto_search::{Few, Search};
use chess_game::{Move, Place, Way};
use mask_sets::coordinates;

/// The moves along a ray that lead into the sets: their number on the whole board, and the least distance of those to a
/// square of the frame.
#[derive(Clone, Copy, PartialEq, Eq)]
pub struct RayMoves {
    pub few: Few,
    pub least: Option<u128>,
}

/// How many of the distances from 1 to the last lead to coordinates in the set.
fn count_to(search: &mut Search, set: &Auto, along: &AimedRay, last: u128) -> Few
    requires suits { IsSetFor along.now.aim.now.position.now set.now }
    requires room { length set.now.accept ≤ search.old }
    requires last { last ≤ 2 ^ 64 }
    ensures few { HasFew result (λ t. (1 ≤ t) × (t ≤ last) × Hits set.now along.now t) }
    ensures kept { search.new ≡ search.old }
{
    let all = Way {
        near: 1,
        far: last,
        hits: None,
    };
    let Some(first) = least_hit(search, set, along, all) else {
        return Few::Zero;
    };
    let rest = Way {
        near: first + 1,
        far: last,
        hits: None,
    };
    match least_hit(search, set, along, rest) {
        Some(_) => Few::More,
        None => Few::One,
    }
}

/// How many of all distances lead to coordinates in the set.
fn count_all(search: &mut Search, set: &Auto, along: &AimedRay) -> Few
    requires suits { IsSetFor along.now.aim.now.position.now set.now }
    requires room { length set.now.accept ≤ search.old }
    ensures few { HasFew result (λ t. (1 ≤ t) × Hits set.now along.now t) }
    ensures kept { search.new ≡ search.old }
{
    let tuple = coordinates(along.aim.position);
    let searched = way_along(along, tuple.as_slice());
    search.count_on_ray(set, &searched)
}

/// Returns how far the man may go before the square of the move, on which he meets the first man on the ray.
fn steps_before(along: &AimedRay, mv: Move) -> u128
    requires met { MeetsOn along.now (target mv) }
    ensures clear { MayGoTo along.now result }
    ensures few { result ≤ 2 ^ 64 }
{
    steps_of(along, mv) - 1
}

/// How far the man may go before he meets this one.
fn last_before(along: &AimedRay, hit: u8) -> u128
    requires hit { Meets along.now hit }
    ensures clear { MayGoTo along.now result }
    ensures few { result ≤ 2 ^ 64 }
{
    match along.aim.position.man(hit).place {
        Place::At { x, y } => steps_before(
            along,
            Move {
                man: along.his.man,
                x,
                y,
            },
        ),
        Place::Gone => unreachable!(),
    }
}

/// Returns how far the man may go over empty squares, or `None` if there is no bound. All men stand in the frame of the
/// aim, so a man who is met on the board is met in it.
fn last_clear(along: &AimedRay, hits: Option<u8>) -> Option<u128>
    requires holds { HoldsMen along.now.aim.now.frame along.now.aim.now.position.now }
    requires met { MeetsFirst along.now hits }
    ensures last { IfSome result (MayGoTo along.now) }
    ensures few { IfSome result (λ last. last ≤ 2 ^ 64) }
    ensures all { IfNone result (MayGoOn along.now) }
{
    let his = along.his;
    match hits {
        Some(hit) => Some(last_before(along, hit)),
        None => { if his.ray.far { None } else { Some(1) } }
    }
}

/// Returns the number of the man's moves along the ray to an empty square that lead into the sets, if the ray serves
/// such moves.
fn count_served(search: &mut Search, along: &AimedRay, last: Option<u128>) -> Few
    requires serves { ServesMoves along.now }
    requires few { HaveAtMost search.old along.now.aim.now.sets.now }
    requires last { IfSome last (MayGoTo along.now) }
    requires bound { IfSome last (λ last. last ≤ 2 ^ 64) }
    requires all { IfNone last (MayGoOn along.now) }
    ensures few { HasFew result (QuietInto along.now) }
    ensures kept { search.new ≡ search.old }
{
    let Some(set) = along.aim.sets.get(along.aim.position.mask()) else {
        return Few::Zero;
    };
    match last {
        Some(last) => count_to(search, set, along, last),
        None => count_all(search, set, along),
    }
}

/// How many of the man's moves along the ray to an empty square lead into the sets.
fn count_quiet(search: &mut Search, along: &AimedRay, hits: Option<u8>) -> Few
    requires few { HaveAtMost search.old along.now.aim.now.sets.now }
    requires holds { HoldsMen along.now.aim.now.frame along.now.aim.now.position.now }
    requires met { MeetsFirst along.now hits }
    ensures few { HasFew result (QuietInto along.now) }
    ensures kept { search.new ≡ search.old }
{
    let kind = along.aim.position.man(along.his.man).kind;
    if !serves_moves(kind, along.his.number) {
        return Few::Zero;
    }
    let last = last_clear(along, hits);
    count_served(search, along, last)
}

/// How many of the man's captures along the ray lead into the sets: one at most, of the first man whom he meets.
fn count_captures(along: &AimedRay, hits: Option<u8>) -> Few
    requires holds { HoldsMen along.now.aim.now.frame along.now.aim.now.position.now }
    requires met { MeetsFirst along.now hits }
    ensures few { HasFew result (CaptureInto along.now) }
{
    match capture(along, hits) {
        Some(_) => Few::One,
        None => Few::Zero,
    }
}

/// Returns the number of the man's moves along the ray that lead into the sets; captures are included. It does not look
/// for the nearest of them. A failed allocation only makes it slower.
pub fn count_along(search: &mut Search, along: &AimedRay) -> Few
    requires few { HaveAtMost search.old along.now.aim.now.sets.now }
    ensures few { HasFew result (MoveInto along.now) }
    ensures kept { search.new ≡ search.old }
{
    let aim = Aim {
        position: along.aim.position,
        frame: frame_of_men(along.aim.position),
        sets: along.aim.sets,
    };
    let wide = AimedRay {
        aim: &aim,
        his: along.his,
    };
    let way = way_of(&wide);
    let quiet = count_quiet(search, &wide, way.hits);
    quiet.plus(count_captures(&wide, way.hits))
}

/// The least distance at which a move along the ray leads to a square of the frame and into the sets.
fn least_along(search: &mut Search, along: &AimedRay) -> Option<u128>
    requires few { HaveAtMost search.old along.now.aim.now.sets.now }
    ensures least { IsLeastOrNone (LeadsAsAimed along.now) result }
    ensures kept { search.new ≡ search.old }
{
    match along_ray(search, along) {
        Some(choice) => Some(choice.distance),
        None => None,
    }
}

/// Returns the number of the man's moves along the ray that lead into the sets, captures included, and the least
/// distance of those to a square of the frame. A failed allocation only makes it slower.
pub fn moves_along(search: &mut Search, along: &AimedRay) -> RayMoves
    requires few { HaveAtMost search.old along.now.aim.now.sets.now }
    ensures few { HasFew result.few (MoveInto along.now) }
    ensures least { IsLeastOrNone (LeadsAsAimed along.now) result.least }
    ensures kept { search.new ≡ search.old }
{
    RayMoves {
        few: count_along(search, along),
        least: least_along(search, along),
    }
}
