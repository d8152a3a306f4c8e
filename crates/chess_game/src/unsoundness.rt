//! Soundness of positions, and the first reason against it.

ghost use Rattle.std.specs.Prelude.{◌≡◌, ◌↔◌, ◌<◌, ℕ, IfErr, IfNone, IfOk, IfSome, IsTrue, OnOk};
ghost use Rattle.game_rules.specs.Game.{SoundWithKings};
ghost use Rattle.game_rules.specs.declared.men.Square.{Square};
ghost use Rattle.chess_game.specs.Unsoundness.{AreTwins, IsUnsoundFor, IsFirstUnsoundness, IsFirstPair, IsGoneAt, IsKingAt, StandsAt};

use crate::attack::in_check;
use crate::setup::Setup;
use game_rules::{Kind, Side, Square};

/// Why a position is not sound, in the order in which reasons are reported; White's come before Black's.
#[derive(Clone, Copy, PartialEq, Eq)]
pub enum Unsound {
    /// No man of the side is a king.
    NoKing(Side),
    /// Two or more men of the side are kings, captured ones included.
    ManyKings(Side),
    /// The king of the side is captured.
    KingGone(Side),
    /// These two men, the lesser number first, stand on one square.
    SameSquare(u8, u8),
    /// The king of the side that is not to move is attacked.
    OtherInCheck,
}

/// Whether the man of this number is a king of the side.
fn is_king_at(setup: &Setup, side: Side, number: usize) -> bool
    ensures { IsTrue result ↔ IsKingAt setup.now side number }
{
    match setup.man(number) {
        Some(man) => man.side() == side && man.kind() == Kind::King,
        None => false,
    }
}

/// The first king of the side past a number.
fn king_after(setup: &Setup, side: Side, number: usize) -> Option<usize>
    requires { number < 256 }
    ensures after { IfSome result (λ i. number < i) }
    ensures small { IfSome result (λ i. i < 256) }
    ensures king { IfSome result (IsKingAt setup.now side) }
    ensures first { IfSome result (λ i. (k : ℕ) → number < k → k < i → IsKingAt setup.now side k → ⊥) }
    ensures none { IfNone result ((k : ℕ) → number < k → IsKingAt setup.now side k → ⊥) }
{
    for i in number + 1..setup.count() as usize + 1 {
        if is_king_at(setup, side, i) {
            return Some(i);
        }
    }
    None
}

/// Whether the man of this number stands on the square.
fn stands_at(setup: &Setup, number: usize, square: Square) -> bool
    ensures { IsTrue result ↔ StandsAt setup.now number square }
{
    match setup.man(number) {
        Some(man) => man.square() == Some(square),
        None => false,
    }
}

/// The first man past a number who stands on the square.
fn next_at(setup: &Setup, number: usize, square: Square) -> Option<usize>
    requires { number < 256 }
    ensures after { IfSome result (λ i. number < i) }
    ensures small { IfSome result (λ i. i < 256) }
    ensures at { IfSome result (λ i. StandsAt setup.now i square) }
    ensures first { IfSome result (λ i. (k : ℕ) → number < k → k < i → StandsAt setup.now k square → ⊥) }
    ensures none { IfNone result ((k : ℕ) → number < k → StandsAt setup.now k square → ⊥) }
{
    for i in number + 1..setup.count() as usize + 1 {
        if stands_at(setup, i, square) {
            return Some(i);
        }
    }
    None
}

/// The square of the man of this number, if he is live.
fn square_at_number(setup: &Setup, number: usize) -> Option<Square>
    ensures at { IfSome result (StandsAt setup.now number) }
    ensures only { IfSome result (λ z. (w : Square) → StandsAt setup.now number w → w ≡ z) }
    ensures none { IfNone result ((w : Square) → StandsAt setup.now number w → ⊥) }
{
    match setup.man(number) {
        Some(man) => man.square(),
        None => None,
    }
}

/// The first man past this one who stands on the square of this one.
fn twin_of(setup: &Setup, number: usize) -> Option<usize>
    requires { number < 256 }
    ensures after { IfSome result (λ i. number < i) }
    ensures small { IfSome result (λ i. i < 256) }
    ensures twin { IfSome result (AreTwins setup.now number) }
    ensures first { IfSome result (λ i. (k : ℕ) → number < k → k < i → AreTwins setup.now number k → ⊥) }
    ensures none { IfNone result ((k : ℕ) → number < k → AreTwins setup.now number k → ⊥) }
{
    match square_at_number(setup, number) {
        Some(square) => next_at(setup, number, square),
        None => None,
    }
}

/// The first two men who stand on one square.
fn first_twins(setup: &Setup) -> Option<(usize, usize)>
    ensures some { IfSome result (λ pair. (pair.0 < pair.1) × AreTwins setup.now pair.0 pair.1) }
    ensures small { IfSome result (λ pair. (pair.0 < 256) × (pair.1 < 256)) }
    ensures first { IfSome result (λ pair. (i k : ℕ) → i < pair.0 → i < k → AreTwins setup.now i k → ⊥) }
    ensures second { IfSome result (λ pair. (k : ℕ) → pair.0 < k → k < pair.1 → AreTwins setup.now pair.0 k → ⊥) }
    ensures none { IfNone result ((i k : ℕ) → i < k → AreTwins setup.now i k → ⊥) }
{
    for i in 1..setup.count() as usize + 1 {
        if let Some(k) = twin_of(setup, i) {
            return Some((i, k));
        }
    }
    None
}

/// Whether the man of this number is captured.
fn is_gone(setup: &Setup, number: usize) -> bool
    ensures { IsTrue result ↔ IsGoneAt setup.now number }
{
    match setup.man(number) {
        Some(man) => man.square().is_none(),
        None => false,
    }
}

/// The number of the first king of the side.
fn first_king(setup: &Setup, side: Side) -> Result<usize, Unsound>
    ensures small { IfOk result (λ i. i < 256) }
    ensures king { IfOk result (IsKingAt setup.now side) }
    ensures first { IfOk result (λ i. (k : ℕ) → k < i → IsKingAt setup.now side k → ⊥) }
    ensures none { IfErr result (λ e. (e ≡ Unsound.NoKing side) × IsUnsoundFor setup.now (Unsound.NoKing side)) }
{
    match king_after(setup, side, 0) {
        Some(king) => Ok(king),
        None => Err(Unsound::NoKing(side)),
    }
}

/// Refuses a second king of the side.
fn check_only(setup: &Setup, side: Side, king: usize) -> Result<(), Unsound>
    requires small { king < 256 }
    requires king { IsKingAt setup.now side king }
    ensures only { OnOk result ((k : ℕ) → king < k → IsKingAt setup.now side k → ⊥) }
    ensures many { IfErr result (λ e. (e ≡ Unsound.ManyKings side) × IsUnsoundFor setup.now (Unsound.ManyKings side)) }
{
    match king_after(setup, side, king) {
        Some(_) => Err(Unsound::ManyKings(side)),
        None => Ok(()),
    }
}

/// Refuses a captured king.
fn check_live(setup: &Setup, side: Side, king: usize) -> Result<(), Unsound>
    requires { IsKingAt setup.now side king }
    ensures live { OnOk result (IsGoneAt setup.now king → ⊥) }
    ensures gone { IfErr result (λ e. (e ≡ Unsound.KingGone side) × IsUnsoundFor setup.now (Unsound.KingGone side)) }
{
    if is_gone(setup, king) {
        return Err(Unsound::KingGone(side));
    }
    Ok(())
}

/// Refuses two men on one square.
fn check_apart(setup: &Setup) -> Result<(), Unsound>
    ensures apart { OnOk result ((i k : ℕ) → i < k → AreTwins setup.now i k → ⊥) }
    ensures twins { IfErr result (IsFirstPair setup.now) }
{
    match first_twins(setup) {
        Some((first, second)) => Err(Unsound::SameSquare(first as u8, second as u8)),
        None => Ok(()),
    }
}

/// Returns whether the position is sound with a king on each side. The error is the first reason why not.
pub(crate) fn check_setup(setup: &Setup) -> Result<(), Unsound>
    ensures ok { OnOk result (SoundWithKings setup.now) }
    ensures reason { IfErr result (IsFirstUnsoundness setup.now) }
{
    let white = first_king(setup, Side::White)?;
    let black = first_king(setup, Side::Black)?;
    check_only(setup, Side::White, white)?;
    check_only(setup, Side::Black, black)?;
    check_live(setup, Side::White, white)?;
    check_live(setup, Side::Black, black)?;
    check_apart(setup)?;
    if in_check(setup, setup.turn().other()) {
        return Err(Unsound::OtherInCheck);
    }
    Ok(())
}
