//! Mate: whether some legal move answers a check.

ghost use Rattle.std.specs.Prelude.{◌≡◌, ◌↔◌, ◌≤◌, ◌<◌, ◌*◌, ◌+◌, ◌+ℤ◌, ◌*ℤ◌, ◌-ℤ◌, ◌^◌, pos, unsigned_abs, IsTrue, MatchOption, ℕ};
ghost use Rattle.std.specs.List.{Any};
ghost use Rattle.game_rules.specs.Game.{Attacked, InCheck, Mate, Sound, other};
ghost use Rattle.game_rules.specs.Rays.{rays_of};
ghost use Rattle.game_laws.specs.Answer.{HasAnswer, answer_square, answer_steps, cross, distance, off_line, steps_to, toward_x, toward_y};
ghost use Rattle.chess_game.specs.Along.{IsStepwise};
ghost use Rattle.chess_game.specs.Near.{IsNarrowPosition, IsNear};
ghost use Rattle.chess_game.specs.Check.{AnswersAlong, AnswersAlongNth, HasNoKing, IsCheckOf, IsCheckedFrom, IsClose, IsCloseCheck, IsKingOn, IsUnanswered};

use crate::attack::attacks;
use crate::board::Board;
use crate::geometry::{Offset, offset_between, steps_of, unit_toward};
use crate::moves::can_go;
use crate::piece::Piece;
use crate::rays::{MOST_RAYS, ray};
use game_rules::{Kind, Ray, Side, Square};

/// A check: the man on `from` bears on the king.
#[derive(Clone, Copy, PartialEq, Eq)]
pub(crate) struct Check {
    pub(crate) from: Square,
    pub(crate) king: Square,
}

/// The number of a live man and his square.
#[derive(Clone, Copy, PartialEq, Eq)]
pub(crate) struct PlacedMan {
    pub(crate) number: usize,
    pub(crate) square: Square,
}

/// The step from one square toward another.
fn step_toward(from: Square, to: Square) -> Offset
    requires from { IsClose from }
    requires to { IsClose to }
    ensures right { result.x ≡ toward_x from to }
    ensures up { result.y ≡ toward_y from to }
    ensures small_x { unsigned_abs result.x ≤ 2 }
    ensures small_y { unsigned_abs result.y ≤ 2 }
{
    unit_toward(offset_between(from, to))
}

/// Multiplies one coordinate of a direction by a number.
#[tactic(auto, using(crate::proofs::AnswerBounds::small_product))]
fn scaled(number: i128, by: i128) -> i128
    requires number { unsigned_abs number ≤ 2 ^ 64 }
    requires by { unsigned_abs by ≤ 2 }
    ensures product { result ≡ number *ℤ by }
    ensures bound { unsigned_abs result ≤ 2 ^ 65 }
{
    number * by
}

/// Returns how far an offset lies off a line in this direction.
fn off_by(offset: Offset, direction: Offset) -> u128
    requires x { unsigned_abs offset.x ≤ 2 ^ 64 }
    requires y { unsigned_abs offset.y ≤ 2 ^ 64 }
    requires direction_x { unsigned_abs direction.x ≤ 2 }
    requires direction_y { unsigned_abs direction.y ≤ 2 }
    ensures far { result ≡ unsigned_abs (cross offset.x offset.y direction.x direction.y) }
    ensures bound { result ≤ 2 ^ 66 }
{
    scaled(offset.x, direction.y).abs_diff(scaled(offset.y, direction.x))
}

/// Returns after how many steps a ray meets a line, if each step brings it `each` nearer and it starts `off` away; or
/// `direct`, if it goes along the line.
fn steps_until(far: bool, each: u128, off: u128, direct: u128) -> u128
    ensures { result ≡ steps_to far each off direct }
{
    if !far {
        return 1;
    }
    if each == 0 {
        return direct;
    }
    off / each
}

/// Returns after how many steps along the ray a man on the square may answer the check.
fn steps_to_answer(check: Check, from: Square, ray: Ray) -> u128
    requires check { IsCloseCheck check }
    requires from { IsClose from }
    requires ray { IsStepwise ray }
    ensures steps { result ≡ answer_steps ray from check.from check.king }
    ensures bound { result ≤ 2 ^ 66 }
    ensures across { result * unsigned_abs ray.dx ≤ 2 ^ 67 }
    ensures along { result * unsigned_abs ray.dy ≤ 2 ^ 67 }
{
    let direction = step_toward(check.from, check.king);
    let step = Offset {
        x: i128::from(ray.dx),
        y: i128::from(ray.dy),
    };
    let each = off_by(step, direction);
    let off = off_by(offset_between(check.from, from), direction);
    let direct = steps_of(offset_between(from, check.from));
    steps_until(ray.far, each, off, direct)
}

/// Adds a number of equal steps to a coordinate.
#[tactic(auto, using(crate::proofs::AnswerBounds::times_abs))]
fn advanced(from: i128, steps: u128, step: i128) -> i128
    requires from { unsigned_abs from ≤ 2 ^ 63 }
    requires steps { steps ≤ 2 ^ 66 }
    requires way { steps * unsigned_abs step ≤ 2 ^ 67 }
    ensures number { result ≡ from +ℤ (pos steps *ℤ step) }
    ensures near { unsigned_abs result ≤ 2 ^ 68 }
{
    from + steps as i128 * step
}

/// Returns the only square on the ray where a man on the square may answer the check.
fn square_to_answer(check: Check, from: Square, ray: Ray) -> Square
    requires check { IsCloseCheck check }
    requires from { IsClose from }
    requires ray { IsStepwise ray }
    ensures square { result ≡ answer_square check.from check.king from ray }
    ensures near { IsNear result }
{
    let steps = steps_to_answer(check, from, ray);
    Square {
        x: advanced(from.x, steps, i128::from(ray.dx)),
        y: advanced(from.y, steps, i128::from(ray.dy)),
    }
}

/// Whether the man can answer the check along the ray.
fn answers_along(board: &Board, check: Check, standing: PlacedMan, ray: Ray) -> bool
    requires check { IsCloseCheck check }
    requires from { IsClose standing.square }
    requires ray { IsStepwise ray }
    ensures { IsTrue result ↔ AnswersAlong board.now check standing ray }
{
    let to = square_to_answer(check, standing.square, ray);
    can_go(board, standing.number, to)
}

/// Whether the man can answer the check along his ray of this number, if he has one.
#[tactic(auto, using(crate::proofs::AnswerBounds::ray_stepwise))]
fn answers_along_nth(
    board: &Board,
    check: Check,
    man: &Piece,
    standing: PlacedMan,
    index: u8,
) -> bool
    requires check { IsCloseCheck check }
    requires from { IsClose standing.square }
    ensures { IsTrue result ↔ AnswersAlongNth board.now check man.now standing index }
{
    match ray(man.kind(), man.side(), index) {
        None => false,
        Some(ray) => answers_along(board, check, standing, ray),
    }
}

/// Whether the man can answer the check along one of his rays.
fn answers_along_one(board: &Board, check: Check, man: &Piece, standing: PlacedMan) -> bool
    requires check { IsCloseCheck check }
    requires from { IsClose standing.square }
    ensures { IsTrue result ↔ Any (AnswersAlong board.now check standing) (rays_of man.now.kind man.now.side) }
{
    for index in 0..MOST_RAYS {
        if answers_along_nth(board, check, man, standing, index) {
            return true;
        }
    }
    false
}

/// Whether the man of this number can answer the check.
fn has_answer(board: &Board, number: usize, check: Check) -> bool
    requires narrow { IsNarrowPosition board.now }
    requires check { IsCloseCheck check }
    ensures { IsTrue result ↔ HasAnswer board.now check.from check.king number }
{
    let Some(man) = board.man(number) else {
        return false;
    };
    match man.square() {
        None => false,
        Some(square) => answers_along_one(board, check, &man, PlacedMan { number, square }),
    }
}

/// Whether no man can answer the check.
fn is_unanswered(board: &Board, check: Check) -> bool
    requires narrow { IsNarrowPosition board.now }
    requires check { IsCloseCheck check }
    ensures { IsTrue result ↔ IsUnanswered board.now check.from check.king }
{
    for number in 1..=board.count() as usize {
        if has_answer(board, number, check) {
            return false;
        }
    }
    true
}

/// Whether the man is a king of the side.
fn is_king_of(man: &Piece, side: Side) -> bool
    ensures { IsTrue result ↔ ((man.now.side ≡ side) × (man.now.kind ≡ Kind.King)) }
{
    man.side() == side && man.kind() == Kind::King
}

/// The square of the king of the side to move, if it has one.
fn king_square(board: &Board) -> Option<Square>
    requires { Sound board.now }
    ensures { MatchOption result (HasNoKing board.now board.now.turn) (λ k. Any (IsKingOn board.now.turn k) board.now.men) }
{
    for man in board.men() {
        if is_king_of(man, board.turn()) {
            return man.square();
        }
    }
    None
}

/// The square of the first man who bears on the king of the side to move.
fn checker_square(board: &Board, king: Square) -> Option<Square>
    requires { IsNear king }
    ensures { MatchOption result (Attacked board.now (other board.now.turn) king → ⊥) (IsCheckedFrom board.now king) }
{
    let setup = board.setup();
    for man in board.men() {
        if attacks(&setup, man, board.turn().other(), king) {
            return man.square();
        }
    }
    None
}

/// The check of the king of the side to move, if he is in check.
fn check_of(board: &Board) -> Option<Check>
    requires narrow { IsNarrowPosition board.now }
    requires sound { Sound board.now }
    ensures { MatchOption result (InCheck board.now board.now.turn → ⊥) (IsCheckOf board.now) }
{
    let king = king_square(board)?;
    let from = checker_square(board, king)?;
    Some(Check { from, king })
}

/// Returns whether the side to move is mated.
pub(crate) fn is_mated(board: &Board) -> bool
    requires narrow { IsNarrowPosition board.now }
    requires sound { Sound board.now }
    ensures { IsTrue result ↔ Mate board.now }
{
    match check_of(board) {
        None => false,
        Some(check) => is_unanswered(board, check),
    }
}
