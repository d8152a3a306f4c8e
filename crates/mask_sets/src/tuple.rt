//! The coordinates of a position, and the index of a man's coordinates.
ghost use Rattle.std.specs.Prelude.{◌≡◌, ◌≤◌, ◌+◌, ◌++◌, length};
ghost use Rattle.game_rules.specs.Game.{place_square};
ghost use Rattle.mask_sets.specs.Tuple.{coordinates_of, tuple_of};
ghost use Rattle.mask_sets.specs.Places.{coordinates_before};

use arrayvec::ArrayVec;
use chess_game::{Place, Position};

/// Two numbers for each of at most eight men.
pub type Coordinates = ArrayVec<i64, 16>;

/// Appends the coordinates of a man's place.
fn push_place(tuple: &mut Coordinates, place: Place)
    requires { length tuple.old.items ≤ 14 }
    ensures items { tuple.new.items ≡ tuple.old.items ++ coordinates_of (place_square place) }
    ensures few { length tuple.new.items ≤ length tuple.old.items + 2 }
{
    match place {
        Place::Gone => {}
        Place::At { x, y } => {
            tuple.push(x);
            tuple.push(y);
        }
    }
}

/// Returns the coordinates of the live men, in the order of their numbers, x before y.
pub fn coordinates(p: &Position) -> Coordinates
    ensures { result.items ≡ tuple_of p.now }
{
    let mut tuple = ArrayVec::new();
    for n in 0..p.count() {
        push_place(&mut tuple, p.man(n + 1).place);
    }
    tuple
}

/// Returns the number of coordinates of a place: 2 for a live man, 0 for a captured one.
fn width_of(place: Place) -> u8
    ensures width { result ≡ length (coordinates_of (place_square place)) }
    ensures few { result ≤ 2 }
{
    match place {
        Place::Gone => 0,
        Place::At { .. } => 2,
    }
}

/// Returns the number of coordinates that precede those of a man. If he is live, this is the index of his x, which is followed by
/// his y.
pub fn place_of_man(p: &Position, man: u8) -> u8
    requires first { 1 ≤ man }
    requires last { man ≤ length p.now.men }
    ensures place { result ≡ coordinates_before p.now man }
    ensures few { result ≤ 14 }
{
    let _count = p.count();
    let mut place = 0;
    for n in 0..man - 1 {
        place += width_of(p.man(n + 1).place);
    }
    place
}
