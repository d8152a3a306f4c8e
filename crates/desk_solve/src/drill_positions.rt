//! Positions that follow from a seed: White has a king and two rooks against a king.

ghost use Rattle.std.specs.Prelude.{◌≡◌};
ghost use Rattle.game_rules.specs.declared.men.Place.TheVariants as places;
ghost use Rattle.game_laws.specs.Symmetry.{mapped_place, shift};
ghost use Rattle.desk_solve.specs.Drill.{next_state};
ghost use Rattle.desk_solve.specs.Drill as specs;

use chess_game::{Kind, Man, Place, Position, Side};
use desk_text::Problem;

const MULTIPLIER: u64 = 6_364_136_223_846_793_005;

const INCREMENT: u64 = 1_442_695_040_888_963_407;

/// The number of cases. In each case but the first, one white man stands on another square.
const CASES: u64 = 8;

/// How many offsets there are in each direction.
const OFFSETS: u64 = 4096;

/// A linear congruential generator.
#[derive(Drop)]
pub struct Generator {
    pub state: u64,
}

impl Generator {
    /// Advances to the next state and returns it.
    pub fn next(&mut self) -> u64
        ensures next { result ≡ next_state self.old.state }
        ensures state { self.new.state ≡ result }
    {
        self.state = self.state.wrapping_mul(MULTIPLIER).wrapping_add(INCREMENT);
        self.state
    }
}

/// How far the board is moved, to the right and up.
#[derive(Clone, Copy)]
struct Displacement {
    x: i16,
    y: i16,
}

impl Displacement {
    /// Returns the square, moved by the displacement.
    fn moved(self, x: i8, y: i8) -> Place
        ensures { result ≡ mapped_place (shift self.x self.y) (places.At x y) }
    {
        Place::At {
            x: i64::from(x) + i64::from(self.x),
            y: i64::from(y) + i64::from(self.y),
        }
    }
}

/// Returns the problem of a state of the generator.
pub(crate) fn problem_of(state: u64) -> Problem
    ensures { result ≡ specs.problem_of state }
{
    let case = state % CASES;
    let by = Displacement {
        x: offset(state >> 16),
        y: offset(state >> 32),
    };
    let men = [
        man(Side::White, Kind::King, white_king(case, by)),
        man(Side::White, Kind::Rook, first_rook(case, by)),
        man(Side::White, Kind::Rook, second_rook(case, by)),
        man(Side::Black, Kind::King, by.moved(0, 0)),
    ];
    match Position::new(&men, Side::White) {
        Some(position) => Problem {
            position,
            winner: Side::White,
            lines: 0,
        },
        None => unreachable!(),
    }
}

fn man(side: Side, kind: Kind, place: Place) -> Man
    ensures { result ≡ record { side = side; kind = kind; place = place } }
{
    Man { side, kind, place }
}

/// How far the bits move the board: by less than half of the offsets back, or by more on.
fn offset(bits: u64) -> i16
    ensures { result ≡ specs.offset bits }
{
    (bits % OFFSETS) as i16 - 2048
}

/// Returns the place of White's king.
fn white_king(case: u64, by: Displacement) -> Place
    ensures { result ≡ mapped_place (shift by.x by.y) (specs.white_king case) }
{
    match case {
        1 => by.moved(100, 98),
        _ => by.moved(0, -2),
    }
}

/// Returns the place of White's first rook.
fn first_rook(case: u64, by: Displacement) -> Place
    ensures { result ≡ mapped_place (shift by.x by.y) (specs.first_rook case) }
{
    match case {
        2 => by.moved(10, 2),
        4 => by.moved(5, 1),
        6 => by.moved(-10, 1),
        _ => by.moved(10, 1),
    }
}

/// Returns the place of White's second rook.
fn second_rook(case: u64, by: Displacement) -> Place
    ensures { result ≡ mapped_place (shift by.x by.y) (specs.second_rook case) }
{
    match case {
        3 => by.moved(-5, 7),
        5 => by.moved(5, -7),
        7 => by.moved(1, 7),
        _ => by.moved(5, 7),
    }
}
