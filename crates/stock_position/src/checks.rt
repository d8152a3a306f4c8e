//! Soundness of positions whose winner may have no king, and the first reason against it.

ghost use Rattle.std.specs.Prelude.{◌≡◌, ◌↔◌, ◌<◌, ℕ, IfErr, IfNone, IfOk, IfSome, IsOk, IsTrue, OnOk};
ghost use Rattle.game_rules.specs.Game.{InCheck, man_at};
ghost use Rattle.chess_game.specs.Unsoundness.{AreTwins, IsFirstPair, IsGoneAt, IsKingAt, IsUnsoundFor};
ghost use Rattle.stock_position.specs.Soundness.{IsAttackedKing, IsFirstUnsoundnessFor, IsSoundFor};

use chess_game::{Kind, Man, Place, Position, Side, Unsound, attacked};

/// Returns the man of this number, if there is one.
fn man_of(p: &Position, number: usize) -> Option<Man>
    ensures { result ≡ man_at p.now number }
{
    if number == 0 || number > p.count() as usize {
        return None;
    }
    Some(p.man(number as u8))
}

/// Returns whether the man of this number is a king of the side.
fn is_king_at(p: &Position, side: Side, number: usize) -> bool
    ensures { IsTrue result ↔ IsKingAt p.now side number }
{
    match man_of(p, number) {
        Some(man) => man.side == side && man.kind == Kind::King,
        None => false,
    }
}

/// Returns whether the man of this number is captured.
fn is_gone(p: &Position, number: usize) -> bool
    ensures { IsTrue result ↔ IsGoneAt p.now number }
{
    match man_of(p, number) {
        Some(man) => man.place == Place::Gone,
        None => false,
    }
}

/// Returns the first king of the side after a number.
fn king_after(p: &Position, side: Side, number: usize) -> Option<usize>
    requires { number < 256 }
    ensures after { IfSome result (λ i. number < i) }
    ensures small { IfSome result (λ i. i < 256) }
    ensures king { IfSome result (IsKingAt p.now side) }
    ensures first { IfSome result (λ i. (k : ℕ) → number < k → k < i → IsKingAt p.now side k → ⊥) }
    ensures none { IfNone result ((k : ℕ) → number < k → IsKingAt p.now side k → ⊥) }
{
    for i in number + 1..p.count() as usize + 1 {
        if is_king_at(p, side, i) {
            return Some(i);
        }
    }
    None
}

/// Returns the number of the first king of the side, and refuses a side without one.
fn first_king(p: &Position, side: Side) -> Result<usize, Unsound>
    ensures king { IfOk result (IsKingAt p.now side) }
    ensures none { IfErr result (λ e. (e ≡ Unsound.NoKing side) × IsUnsoundFor p.now (Unsound.NoKing side)) }
{
    match king_after(p, side, 0) {
        Some(king) => Ok(king),
        None => Err(Unsound::NoKing(side)),
    }
}

/// Refuses two kings of the side.
fn check_few(p: &Position, side: Side) -> Result<(), Unsound>
    ensures few { OnOk result (IsUnsoundFor p.now (Unsound.ManyKings side) → ⊥) }
    ensures many { IfErr result (λ e. (e ≡ Unsound.ManyKings side) × IsUnsoundFor p.now (Unsound.ManyKings side)) }
{
    let Some(king) = king_after(p, side, 0) else {
        return Ok(());
    };
    match king_after(p, side, king) {
        Some(_) => Err(Unsound::ManyKings(side)),
        None => Ok(()),
    }
}

/// Refuses a captured king of the side.
fn check_live(p: &Position, side: Side) -> Result<(), Unsound>
    ensures live { OnOk result (IsUnsoundFor p.now (Unsound.KingGone side) → ⊥) }
    ensures gone { IfErr result (λ e. (e ≡ Unsound.KingGone side) × IsUnsoundFor p.now (Unsound.KingGone side)) }
{
    for i in 1..p.count() as usize + 1 {
        if is_king_at(p, side, i) && is_gone(p, i) {
            return Err(Unsound::KingGone(side));
        }
    }
    Ok(())
}

/// Returns whether both men stand on one square.
fn are_twins(p: &Position, one: usize, other: usize) -> bool
    ensures { IsTrue result ↔ AreTwins p.now one other }
{
    match (man_of(p, one), man_of(p, other)) {
        (Some(one), Some(other)) => one.place != Place::Gone && one.place == other.place,
        _ => false,
    }
}

/// Returns the first man after this one who stands on his square.
fn twin_of(p: &Position, number: usize) -> Option<usize>
    requires { number < 256 }
    ensures after { IfSome result (λ i. number < i) }
    ensures small { IfSome result (λ i. i < 256) }
    ensures twin { IfSome result (AreTwins p.now number) }
    ensures first { IfSome result (λ i. (k : ℕ) → number < k → k < i → AreTwins p.now number k → ⊥) }
    ensures none { IfNone result ((k : ℕ) → number < k → AreTwins p.now number k → ⊥) }
{
    for i in number + 1..p.count() as usize + 1 {
        if are_twins(p, number, i) {
            return Some(i);
        }
    }
    None
}

/// Returns the first two men who stand on one square.
fn first_twins(p: &Position) -> Option<(usize, usize)>
    ensures some { IfSome result (λ pair. (pair.0 < pair.1) × AreTwins p.now pair.0 pair.1) }
    ensures small { IfSome result (λ pair. (pair.0 < 256) × (pair.1 < 256)) }
    ensures first { IfSome result (λ pair. (i k : ℕ) → i < pair.0 → i < k → AreTwins p.now i k → ⊥) }
    ensures second { IfSome result (λ pair. (k : ℕ) → pair.0 < k → k < pair.1 → AreTwins p.now pair.0 k → ⊥) }
    ensures none { IfNone result ((i k : ℕ) → i < k → AreTwins p.now i k → ⊥) }
{
    for i in 1..p.count() as usize + 1 {
        if let Some(k) = twin_of(p, i) {
            return Some((i, k));
        }
    }
    None
}

/// Refuses two men on one square.
fn check_apart(p: &Position) -> Result<(), Unsound>
    ensures apart { OnOk result ((i k : ℕ) → i < k → AreTwins p.now i k → ⊥) }
    ensures twins { IfErr result (IsFirstPair p.now) }
{
    match first_twins(p) {
        Some((first, second)) => Err(Unsound::SameSquare(first as u8, second as u8)),
        None => Ok(()),
    }
}

/// Returns whether the man is a king of the side whom the other side attacks.
fn is_king_attacked(p: &Position, man: Man, side: Side) -> bool
    ensures { IsTrue result ↔ IsAttackedKing p.now side man }
{
    if man.side != side || man.kind != Kind::King {
        return false;
    }
    match man.place {
        Place::Gone => false,
        Place::At { x, y } => attacked(p, side.other(), x, y),
    }
}

/// Returns whether a king of the side is attacked by the other side.
fn is_checked(p: &Position, side: Side) -> bool
    ensures { IsTrue result ↔ InCheck p.now side }
{
    for i in 0..p.count() {
        if is_king_attacked(p, p.man(i + 1), side) {
            return true;
        }
    }
    false
}

/// Refuses a position that is not sound, or whose loser has no king.
fn check_for(p: &Position, winner: Side) -> Result<(), Unsound>
    ensures ok { OnOk result (IsSoundFor winner p.now) }
    ensures reason { IfErr result (IsFirstUnsoundnessFor winner p.now) }
{
    let _king = first_king(p, winner.other())?;
    check_few(p, Side::White)?;
    check_few(p, Side::Black)?;
    check_live(p, Side::White)?;
    check_live(p, Side::Black)?;
    check_apart(p)?;
    if is_checked(p, p.turn().other()) {
        return Err(Unsound::OtherInCheck);
    }
    Ok(())
}

/// Returns whether the position is sound and the loser has a king; the winner has one or none. The error is the first
/// reason why not, in the order of [`Unsound`] and without a missing king of the winner.
pub fn soundness_for(p: &Position, winner: Side) -> Result<(), Unsound>
    ensures ok { IsOk result ↔ IsSoundFor winner p.now }
    ensures reason { IfErr result (IsFirstUnsoundnessFor winner p.now) }
{
    check_for(p, winner)
}
