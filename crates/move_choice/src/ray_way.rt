//! A man's ray as the way that he may go, and as a line of coordinates that is searched.
ghost use Rattle.std.specs.Prelude.{◌≡◌, ◌≤◌, ◌^◌};
ghost use Rattle.auto_search.specs.TupleRay.{IsTupleRay};
ghost use Rattle.mask_sets.specs.Tuple.{tuple_of};
ghost use Rattle.move_choice.specs.Aimed.{MayGoBetween, MeetsFirst};
ghost use Rattle.move_choice.specs.Aims.{IsAlong};

use crate::aim::AimedRay;
use auto_search::TupleRay;
use chess_game::{Way, free_way};
use mask_sets::place_of_man;

/// Returns how far the man may go along the ray inside the frame over empty squares, and the first man that he meets
/// there.
pub(crate) fn way_of(along: &AimedRay) -> Way
    ensures free { MayGoBetween along.now result.near result.far }
    ensures far { result.far ≤ 2 ^ 64 }
    ensures met { MeetsFirst along.now result.hits }
{
    free_way(
        along.aim.position,
        along.his.man,
        along.his.ray,
        along.aim.frame,
    )
}

/// Returns the line of coordinates of the man's moves along his ray, from the coordinates of the position.
pub(crate) fn way_along<'a>(along: &AimedRay, tuple: &'a [i64]) -> TupleRay<'a>
    requires tuple { tuple.now ≡ tuple_of along.now.aim.now.position.now }
    ensures along { IsAlong along.now.aim.now.position.now along.now.his.man along.now.his.ray result }
    ensures way { IsTupleRay result }
{
    let aim = along.aim;
    let his = along.his;
    let _man = aim.position.man(his.man);
    let place = place_of_man(aim.position, his.man);
    TupleRay {
        fixed: tuple,
        x_track: place,
        y_track: place + 1,
        dx: his.ray.dx,
        dy: his.ray.dy,
    }
}
