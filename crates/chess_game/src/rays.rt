//! The table of rays.

ghost use Rattle.std.specs.Prelude.{◌≡◌, ◌≤◌, false, length, map, slice_get, true};
ghost use Rattle.std.specs.Option.{option_map};
ghost use Rattle.game_rules.specs.Rays.{ray_of, rays_of};
ghost use Rattle.chess_game.specs.RayTable.{far_rays, near_rays, ray_by};
ghost use Rattle.game_rules.specs.declared.men.Side.{Side};

use game_rules::{Kind, Ray, Side};

/// The greatest number of rays of a kind.
pub const MOST_RAYS: u8 = 16;

const ALL_ROUND: [(i8, i8); 8] = [
    (1, 0),
    (1, 1),
    (0, 1),
    (-1, 1),
    (-1, 0),
    (-1, -1),
    (0, -1),
    (1, -1),
];

const STRAIGHT: [(i8, i8); 4] = [(1, 0), (0, 1), (-1, 0), (0, -1)];

const DIAGONAL: [(i8, i8); 4] = [(1, 1), (-1, 1), (-1, -1), (1, -1)];

const KNIGHT: [(i8, i8); 8] = [
    (2, 1),
    (1, 2),
    (-1, 2),
    (-2, 1),
    (-2, -1),
    (-1, -2),
    (1, -2),
    (2, -1),
];

const WHITE_PAWN: [(i8, i8); 3] = [(0, 1), (-1, 1), (1, 1)];

const BLACK_PAWN: [(i8, i8); 3] = [(0, -1), (-1, -1), (1, -1)];

/// The steps of a kind's far rays, in order. They come before the others in the table.
fn far_steps(kind: Kind) -> &'static [(i8, i8)]
    ensures steps { (s : Side) → map (ray_by true) result.now ≡ far_rays kind s }
    ensures few { length result.now ≤ 8 }
{
    match kind {
        Kind::Queen | Kind::Amazon => &ALL_ROUND,
        Kind::Rook | Kind::Chancellor => &STRAIGHT,
        Kind::Bishop | Kind::Archbishop => &DIAGONAL,
        Kind::Nightrider => &KNIGHT,
        Kind::King | Kind::Knight | Kind::Pawn => &[],
    }
}

/// The steps of a kind's rays of one step, in order.
fn near_steps(kind: Kind, side: Side) -> &'static [(i8, i8)]
    ensures steps { map (ray_by false) result.now ≡ near_rays kind side }
    ensures few { length result.now ≤ 8 }
{
    match kind {
        Kind::King => &ALL_ROUND,
        Kind::Knight | Kind::Chancellor | Kind::Archbishop | Kind::Amazon => &KNIGHT,
        Kind::Pawn => match side {
            Side::White => &WHITE_PAWN,
            Side::Black => &BLACK_PAWN,
        },
        Kind::Queen | Kind::Rook | Kind::Bishop | Kind::Nightrider => &[],
    }
}

/// The step at the index.
fn nth(steps: &[(i8, i8)], index: usize) -> Option<(i8, i8)>
    ensures { result ≡ slice_get steps.now index }
{
    steps.get(index).copied()
}

/// The ray with the step at the index.
fn nth_ray(steps: &[(i8, i8)], far: bool, index: usize) -> Option<Ray>
    ensures { result ≡ option_map (ray_by far) (slice_get steps.now index) }
{
    let (dx, dy) = nth(steps, index)?;
    Some(Ray { dx, dy, far })
}

/// Returns the number of rays of a kind: 3 to 16.
pub fn ray_count(kind: Kind, side: Side) -> u8
    ensures { result ≡ length (rays_of kind side) }
{
    let far = far_steps(kind);
    let near = near_steps(kind, side);
    (far.len() + near.len()) as u8
}

/// Returns the ray of this number, counted from 0, or `None` if there is none. Only the rays of pawns depend on the
/// side. A pawn's ray 0 serves moves onto an empty square only and bears on nothing; his other two serve captures only.
/// All other rays serve both, and the man bears along them.
pub fn ray(kind: Kind, side: Side, index: u8) -> Option<Ray>
    ensures { result ≡ ray_of kind side index }
{
    let index = index as usize;
    let far = far_steps(kind);
    if index < far.len() {
        return nth_ray(far, true, index);
    }
    let near = near_steps(kind, side);
    nth_ray(near, false, index - far.len())
}
