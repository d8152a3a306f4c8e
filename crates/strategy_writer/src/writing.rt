//! Writes a file.

ghost use Rattle.std.specs.Prelude.{◌≡◌, ◌<◌, ◌≤◌, ◌++◌, ◌∷◌, [], ◌^◌, ℕ, length, map, IfOk, IfErr, OnOk};
ghost use Rattle.auto_core.specs.Automaton.{first_state, next_state, width};
ghost use Rattle.strategy_writer.specs.Written.{coordinate_bytes, start_bytes, flag_byte, square_bytes, man_bytes, row_bytes, state_bytes, table_bytes, set_bytes};
ghost use Rattle.std.specs.List.{flat_map};
ghost use Rattle.strategy_writer.specs.KeptClaims.{as_claim, as_set};
ghost use Rattle.chess_game.specs.Near.{IsNarrowMan, IsNarrowPosition};
ghost use Rattle.game_rules.specs.Game.{HasBothKings};
ghost use Rattle.strategy_file.specs.Fitting.{FitsVersion, HasFileOf};
ghost use Rattle.strategy_writer.specs.ReducedClaims.{IsWriteClaimRefusal, IsWrittenOf};
ghost use Rattle.strategy_file.specs.Claims.{claim_of};
ghost use Rattle.strategy_file.specs.declared.version.Version.{Version as AnyVersion};
ghost use Rattle.strategy_writer.specs.Files.{HasFiledSets};
ghost use Rattle.strategy_writer.specs.SolvedFile.{IsClaimOf, IsFileOf, IsFileRefusal};
ghost use Rattle.winning_sets.specs.Solve.{IsSolution};
ghost use Rattle.strategy_writer.specs.WriteRefusal.{IsWriteRefusal};
ghost use Rattle.strategy_writer.specs.Written.{most_bytes, written_dense};

use crate::kept::{kept_claim, reduced_claim};
use crate::kept_claim::{KeptClaim, KeptSet};
use crate::largest::largest_set;
use crate::writing_shared::write_shared;
use auto_core::Auto;
use chess_game::{Man, Place, Position};
use limits::MOST_FILE_BYTES;
use std::alloc::{AllocError, Global};
use strategy_file::{Claim, MOST_FILED_STATES, Version, kind_number, side_number, turn_number};
use winning_sets::{Origin, Solved};

/// Why a file is not written.
#[derive(Clone, Copy, PartialEq, Eq)]
pub enum WriteFileError {
    /// It would have this many bytes, which is more than a file may have.
    TooLarge { length: u128 },
    /// A set would have this many states, which is more than a set in a file may have.
    SetTooLarge { states: u32 },
    Memory,
}

impl From<AllocError> for WriteFileError {
    ghost use Rattle.strategy_writer.specs.declared.writing.WriteFileError.TheVariants.{Memory};

    ghost from_gives = { λ _ e. e ≡ Memory };

    fn from(_e: AllocError) -> WriteFileError {
        WriteFileError::Memory
    }
}

/// How many letters there are over the tracks of a set.
fn letters_of(set: &Auto) -> u32
    ensures { result ≡ width set.now }
{
    1 << set.tracks().len()
}

/// The first row.
#[tactic(auto, unfolding(crate::specs::Written::row_bytes))]
fn push_first(out: &mut Vec<u8>, set: &Auto) -> Result<(), AllocError>
    ensures { OnOk result (out.new.items ≡ out.old.items ++ row_bytes (width set.now) (first_state set.now)) }
{
    for letter in 0..letters_of(set) {
        let state = set.first_of(letter);
        out.extend_from_slice(&state.to_be_bytes())?;
    }
    Ok(())
}

/// The row of a state.
#[tactic(auto, unfolding(crate::specs::Written::row_bytes))]
fn push_next(out: &mut Vec<u8>, set: &Auto, state: u32) -> Result<(), AllocError>
    requires { state < length set.now.accept }
    ensures { OnOk result (out.new.items ≡ out.old.items ++ row_bytes (width set.now) (next_state set.now state)) }
{
    for letter in 0..letters_of(set) {
        let next = set.next_of(state, letter);
        out.extend_from_slice(&next.to_be_bytes())?;
    }
    Ok(())
}

pub(crate) fn flag_of(accepts: bool) -> u8
    ensures { result ≡ flag_byte accepts }
{
    if accepts { 1 } else { 0 }
}

/// The flag and the row of a state.
#[tactic(auto, unfolding(crate::specs::Written::state_bytes))]
fn push_state(out: &mut Vec<u8>, set: &Auto, state: u32) -> Result<(), AllocError>
    requires { state < length set.now.accept }
    ensures { OnOk result (out.new.items ≡ out.old.items ++ state_bytes set.now state) }
{
    out.push(flag_of(set.accept_of(state)))?;
    push_next(out, set, state)?;
    Ok(())
}

/// The table of a set.
#[tactic(auto, unfolding(crate::specs::Written::table_bytes))]
fn push_table(out: &mut Vec<u8>, set: &Auto) -> Result<(), AllocError>
    ensures { OnOk result (out.new.items ≡ out.old.items ++ table_bytes set.now) }
{
    let states = set.states();
    out.extend_from_slice(&states.to_be_bytes())?;
    push_first(out, set)?;
    for state in 0..states {
        push_state(out, set, state)?;
    }
    Ok(())
}

/// The set of a ply and a mask.
#[tactic(auto, unfolding(crate::specs::Written::set_bytes))]
fn push_set(out: &mut Vec<u8>, kept: &KeptSet) -> Result<(), AllocError>
    ensures { OnOk result (out.new.items ≡ out.old.items ++ set_bytes (as_set kept.now)) }
{
    out.push(kept.ply)?;
    out.push(kept.mask)?;
    push_table(out, &kept.set)?;
    Ok(())
}

/// The number of bytes of a set.
fn set_length(kept: &KeptSet) -> u128
    ensures length { result ≡ length (set_bytes (as_set kept.now)) }
    ensures bound { result < 2 ^ 60 }
{
    let row = 4 * letters_of(&kept.set) as u128;
    let states = kept.set.states() as u128;
    6 + row + states * (1 + row)
}

/// The number of bytes of some sets.
fn sets_length(sets: &[KeptSet]) -> u128
    ensures length { result ≡ length (flat_map set_bytes (map as_set sets.now)) }
    ensures bound { result < 2 ^ 125 }
{
    let mut total = 0;
    for kept in sets {
        total += set_length(kept);
    }
    total
}

/// The sets, one after another.
fn push_sets(out: &mut Vec<u8>, sets: &[KeptSet]) -> Result<(), AllocError>
    ensures { OnOk result (out.new.items ≡ out.old.items ++ flat_map set_bytes (map as_set sets.now)) }
{
    for kept in sets {
        push_set(out, kept)?;
    }
    Ok(())
}

/// One man.
#[tactic(auto, unfolding(crate::specs::Written::man_bytes))]
fn push_man(out: &mut Vec<u8>, man: Man) -> Result<(), AllocError>
    ensures { OnOk result (out.new.items ≡ out.old.items ++ man_bytes man) }
{
    out.push(side_number(man.side))?;
    out.push(kind_number(man.kind))?;
    match man.place {
        Place::Gone => out.push(0)?,
        Place::At { x, y } => push_square(out, x, y)?,
    }
    Ok(())
}

/// Appends the square of a live man after its tag.
#[tactic(auto, unfolding(crate::specs::Written::square_bytes))]
fn push_square(out: &mut Vec<u8>, x: i64, y: i64) -> Result<(), AllocError>
    ensures { OnOk result (out.new.items ≡ out.old.items ++ square_bytes x y) }
{
    out.push(1)?;
    push_coordinate(out, x)?;
    push_coordinate(out, y)?;
    Ok(())
}

#[tactic(auto, unfolding(crate::specs::Written::coordinate_bytes))]
fn push_coordinate(out: &mut Vec<u8>, x: i64) -> Result<(), AllocError>
    ensures { OnOk result (out.new.items ≡ out.old.items ++ coordinate_bytes x) }
{
    out.extend_from_slice(&x.to_be_bytes())
}

/// Appends all fields before the sets.
#[tactic(auto, unfolding(crate::specs::Written::start_bytes))]
pub(crate) fn push_start(
    out: &mut Vec<u8>,
    version: Version,
    claim: &KeptClaim,
) -> Result<(), AllocError>
    ensures { OnOk result (out.new.items ≡ out.old.items ++ start_bytes version claim.now.winner claim.now.position claim.now.moves) }
{
    let position = &claim.position;
    out.extend_from_slice(b"ICSF")?;
    out.push(version.byte())?;
    out.push(claim.moves)?;
    out.push(turn_number(claim.winner, position.turn()))?;
    out.push(position.count())?;
    push_men(out, position)?;
    Ok(())
}

/// The men.
fn push_men(out: &mut Vec<u8>, position: &Position) -> Result<(), AllocError>
    ensures { OnOk result (out.new.items ≡ out.old.items ++ flat_map man_bytes position.now.men) }
{
    for n in 0..position.count() {
        push_man(out, position.man(n + 1))?;
    }
    Ok(())
}

/// The number of bytes of a man. His coordinates fit, since they are of that type.
#[tactic(auto, unfolding(crate::specs::Written::man_bytes, crate::specs::Written::square_bytes, crate::specs::Written::coordinate_bytes))]
fn man_length(man: Man) -> u128
    ensures length { result ≡ length (man_bytes man) }
    ensures bound { result ≤ 19 }
    ensures narrow { IsNarrowMan man }
{
    match man.place {
        Place::Gone => 3,
        Place::At { .. } => 19,
    }
}

/// Returns the number of bytes of the men.
pub(crate) fn men_length(position: &Position) -> u128
    ensures length { result ≡ length (flat_map man_bytes position.now.men) }
    ensures bound { result < 2 ^ 20 }
    ensures narrow { IsNarrowPosition position.now }
{
    let mut total = 0;
    for n in 0..position.count() {
        total += man_length(position.man(n + 1));
    }
    total
}

/// The bytes of the file of a claim, if there are not too many. How many there are is known before the first is made,
/// and room for them is taken once.
#[tactic(auto, unfolding(crate::specs::Written::written_dense))]
fn write_dense(alloc: Global, claim: &KeptClaim) -> Result<Vec<u8>, WriteFileError>
    ensures written { IfOk result (λ bytes. bytes.items ≡ written_dense (as_claim claim.now)) }
    ensures small { OnOk result (length (written_dense (as_claim claim.now)) ≤ most_bytes) }
    ensures narrow { OnOk result (IsNarrowPosition claim.now.position) }
    ensures refused { IfErr result (IsWriteRefusal Version.Dense (as_claim claim.now)) }
{
    let length = length_of(claim);
    if length > MOST_FILE_BYTES as u128 {
        return Err(WriteFileError::TooLarge { length });
    }
    let mut out = Vec::with_capacity(alloc, length as usize)?;
    push_start(&mut out, Version::Dense, claim)?;
    push_sets(&mut out, claim.sets.as_slice())?;
    Ok(out)
}

/// Returns the claim of a solved position, if a file has room for each of its sets. The error is that a set is too
/// large, or that an allocation failed.
fn filed_claim(alloc: Global, solved: &Solved) -> Result<KeptClaim, WriteFileError>
    requires plan { solved.now.origin ≡ Origin.Plan }
    ensures claim { IfOk result (λ c. IsClaimOf solved.now (as_claim c)) }
    ensures valid { OnOk result (IsSolution solved.now) }
    ensures few { IfOk result (λ c. HasFiledSets (as_claim c)) }
    ensures refused { (version : AnyVersion) → IfErr result (IsFileRefusal version solved.now) }
{
    let claim = kept_claim(alloc, solved)?;
    let states = largest_set(&claim);
    if states > MOST_FILED_STATES {
        return Err(WriteFileError::SetTooLarge { states });
    }
    Ok(claim)
}

/// Returns the file, of version 2, of a position solved by the plan. If the winner does not mate in time, it is the
/// file of a claim that is not won.
///
/// Errors: a set would have too many states, the file would have too many bytes, or an allocation failed.
pub fn write_file(alloc: Global, solved: &Solved) -> Result<Vec<u8>, WriteFileError>
    requires plan { solved.now.origin ≡ Origin.Plan }
    requires kings { HasBothKings solved.now.position }
    ensures file { IfOk result (λ bytes. IsFileOf Version.Shared solved.now bytes.items) }
    ensures small { IfOk result (λ bytes. length bytes.items ≤ most_bytes) }
    ensures refused { IfErr result (IsFileRefusal Version.Shared solved.now) }
{
    let claim = filed_claim(alloc, solved)?;
    let bytes = write_shared(alloc, &claim)?;
    Ok(bytes)
}

/// Returns the file, of version 1, of a position solved by the plan. `Version::Dense` must fit the winner and the
/// position. Errors as in `write_file`.
pub fn write_file_1(alloc: Global, solved: &Solved) -> Result<Vec<u8>, WriteFileError>
    requires plan { solved.now.origin ≡ Origin.Plan }
    requires kings { HasBothKings solved.now.position }
    requires fits { FitsVersion Version.Dense solved.now.winner solved.now.position }
    ensures file { IfOk result (λ bytes. IsFileOf Version.Dense solved.now bytes.items) }
    ensures small { IfOk result (λ bytes. length bytes.items ≤ most_bytes) }
    ensures refused { IfErr result (IsFileRefusal Version.Dense solved.now) }
{
    let claim = filed_claim(alloc, solved)?;
    let bytes = write_dense(alloc, &claim)?;
    Ok(bytes)
}

/// Returns the file, of version 2, of a claim that was read from a file of either version. Its sets are reduced.
///
/// Errors: the file would have too many bytes, or an allocation failed. A set is never too large, since it was read.
pub fn write_claim(alloc: Global, claim: &Claim) -> Result<Vec<u8>, WriteFileError>
    requires { HasFileOf (claim_of claim.now) }
    ensures file { IfOk result (λ bytes. IsWrittenOf (claim_of claim.now) bytes.items) }
    ensures small { IfOk result (λ bytes. length bytes.items ≤ most_bytes) }
    ensures refused { IfErr result (IsWriteClaimRefusal (claim_of claim.now)) }
{
    let reduced = reduced_claim(alloc, claim)?;
    let bytes = write_shared(alloc, &reduced)?;
    Ok(bytes)
}

/// The number of bytes of the file of a claim.
fn length_of(claim: &KeptClaim) -> u128
    ensures length { result ≡ length (written_dense (as_claim claim.now)) }
    ensures narrow { IsNarrowPosition claim.now.position }
{
    8 + men_length(&claim.position) + sets_length(claim.sets.as_slice())
}
