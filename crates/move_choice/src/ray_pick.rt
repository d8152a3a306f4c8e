//! The first move along one ray that leads into the sets.
ghost use Rattle.std.specs.Prelude.{◌≡◌, ◌≤◌, ◌^◌, length};
ghost use Rattle.game_rules.specs.Rays.{serves_moves as serving};
ghost use Rattle.mask_sets.specs.Sets.{HaveAtMost, IsSetFor};
ghost use Rattle.move_choice.specs.Aimed.{FirstCapture, FirstMove, FirstQuiet, Hits, MayGoBetween, MeetsFirst, MeetsOn, ServesMoves};
ghost use Rattle.move_choice.specs.Aims.{IsLeastFound};
ghost use Rattle.move_choice.specs.Choice.{target};

use crate::aim::AimedRay;
use crate::choice::{Choice, choice_along, steps_of};
use crate::ray_way::{way_along, way_of};
use auto_core::Auto;
use auto_search::Search;
use chess_game::{Kind, Move, Place, Way, try_move};
use mask_sets::coordinates;

/// Returns the least distance of the way at which the man's move along the ray leads to coordinates in the set.
pub(crate) fn least_hit(search: &mut Search, set: &Auto, along: &AimedRay, way: Way) -> Option<u128>
    requires suits { IsSetFor along.now.aim.now.position.now set.now }
    requires room { length set.now.accept ≤ search.old }
    requires far { way.far ≤ 2 ^ 64 }
    ensures least { IsLeastFound (Hits set.now along.now) way.near way.far result }
    ensures kept { search.new ≡ search.old }
{
    let tuple = coordinates(along.aim.position);
    let searched = way_along(along, tuple.as_slice());
    search.least_on_ray(set, &searched, way.near, way.far)
}

/// Of the man's moves along the ray to an empty square, the first that leads into the sets.
fn quiet(search: &mut Search, along: &AimedRay, way: Way) -> Option<Choice>
    requires serves { ServesMoves along.now }
    requires few { HaveAtMost search.old along.now.aim.now.sets.now }
    requires free { MayGoBetween along.now way.near way.far }
    requires far { way.far ≤ 2 ^ 64 }
    ensures first { FirstQuiet along.now result }
    ensures kept { search.new ≡ search.old }
{
    let Some(set) = along.aim.sets.get(along.aim.position.mask()) else {
        return None;
    };
    match least_hit(search, set, along, way) {
        Some(distance) => Some(choice_along(along, along.aim.frame, distance)),
        None => None,
    }
}

/// Returns whether the ray of this number serves moves onto an empty square.
pub(crate) fn serves_moves(kind: Kind, number: u8) -> bool
    ensures { result ≡ serving kind number }
{
    match kind {
        Kind::Pawn => number == 0,
        _ => true,
    }
}

/// Of the man's moves along the ray to an empty square, if the ray serves such moves, the first that leads into the sets.
fn quiet_if_served(search: &mut Search, along: &AimedRay, way: Way) -> Option<Choice>
    requires few { HaveAtMost search.old along.now.aim.now.sets.now }
    requires free { MayGoBetween along.now way.near way.far }
    requires far { way.far ≤ 2 ^ 64 }
    ensures first { FirstQuiet along.now result }
    ensures kept { search.new ≡ search.old }
{
    let kind = along.aim.position.man(along.his.man).kind;
    if !serves_moves(kind, along.his.number) {
        return None;
    }
    quiet(search, along, way)
}

/// The man's move along the ray onto the square of the first man whom he meets, if it is legal and leads into the sets.
fn take(along: &AimedRay, mv: Move) -> Option<Choice>
    requires man { mv.man ≡ along.now.his.man }
    requires met { MeetsOn along.now (target mv) }
    ensures first { FirstCapture along.now result }
{
    let Ok(after) = try_move(along.aim.position, mv) else {
        return None;
    };
    if !along.aim.sets.contains(&after) {
        return None;
    }
    Some(Choice {
        mv,
        ray: along.his.number,
        distance: steps_of(along, mv),
    })
}

/// Returns the man's capture along the ray if it leads into the sets. There is at most one capture.
pub(crate) fn capture(along: &AimedRay, hits: Option<u8>) -> Option<Choice>
    requires met { MeetsFirst along.now hits }
    ensures first { FirstCapture along.now result }
{
    let Some(hit) = hits else {
        return None;
    };
    match along.aim.position.man(hit).place {
        Place::At { x, y } => take(
            along,
            Move {
                man: along.his.man,
                x,
                y,
            },
        ),
        Place::Gone => unreachable!(),
    }
}

/// Returns the first of the man's moves along the ray that leads into the sets. A capture comes after all moves to an
/// empty square.
pub(crate) fn along_ray(search: &mut Search, along: &AimedRay) -> Option<Choice>
    requires few { HaveAtMost search.old along.now.aim.now.sets.now }
    ensures first { FirstMove along.now result }
    ensures kept { search.new ≡ search.old }
{
    let way = way_of(along);
    match quiet_if_served(search, along, way) {
        Some(choice) => Some(choice),
        None => capture(along, way.hits),
    }
}
