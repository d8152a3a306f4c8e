//! The rows, each a call of `strategy_file` or `strategy_writer`.

ghost use Rattle.std.specs.Prelude.{◌≡◌, IfOk};
ghost use Rattle.game_rules.specs.Game.{HasBothKings};
ghost use Rattle.winning_sets.specs.declared.origin.Origin.TheVariants.{Plan};
ghost use Rattle.strategy_file.specs.Claims.{claim_of};
ghost use Rattle.strategy_file.specs.Fitting.{HasFileOf};

use crate::outcome::write_read;
use crate::spelling::spelled;
use auto_core::Auto;
use limits::Budget;
use std::alloc::Global;
use strategy_file::{Claim, FileError, Version, read_file};
use strategy_writer::{WriteFileError, write_claim, write_file, write_file_1};
use trial_rows::{Named, Row, RowError};
use winning_sets::{SolveError, Solved, solve};

/// Runs `file NAME WORDS`: names a file.
pub fn file_row(files: &mut Named<Vec<u8>>, row: &mut Row) -> Result<(), RowError> {
    let name = row.word()?;
    let bytes = spelled(row.alloc, row.rest())?;
    files.put(row.alloc, name, bytes)
}

/// Runs `KIND NAME ..`: writes the result of a row of this kind for the file of a name.
pub fn of_file(files: &Named<Vec<u8>>, kind: &str, row: &mut Row) -> Result<(), RowError> {
    let bytes = files.next(row)?.as_slice();
    match kind {
        "read" => write_read(row, bytes),
        "change" => change_row(bytes, row),
        "more" => more_row(bytes, row),
        "cuts" => cuts_row(bytes, row),
        "accepts" => accepts_row(bytes, row),
        _ => {
            let other = files.next(row)?.as_slice();
            of_two_files(bytes, other, kind, row)
        }
    }
}

/// `KIND NAME OTHER`: writes how many bytes there are of what a row of this kind makes of a file, and whether they are those of the other.
fn of_two_files(bytes: &[u8], other: &[u8], kind: &str, row: &mut Row) -> Result<(), RowError> {
    match kind {
        "write" => write_row(bytes, other, row),
        "write_1" => write_1_row(bytes, other, row),
        "migrate" => migrate_row(bytes, other, row),
        _ => Err(RowError::Kind),
    }
}

/// The bytes with others from a place on.
fn changed(alloc: Global, bytes: &[u8], at: usize, piece: &[u8]) -> Result<Vec<u8>, RowError> {
    if at > bytes.len() || piece.len() > bytes.len() - at {
        return Err(RowError::Number);
    }
    let mut changed = Vec::from_slice(alloc, &bytes[..at])?;
    changed.extend_from_slice(piece)?;
    changed.extend_from_slice(&bytes[at + piece.len()..])?;
    Ok(changed)
}

/// `change NAME AT WORDS`: what comes of a file whose bytes from a place on are others.
fn change_row(bytes: &[u8], row: &mut Row) -> Result<(), RowError> {
    let at = row.number::<usize>()?;
    let piece = spelled(row.alloc, row.rest())?;
    let changed = changed(row.alloc, bytes, at, piece.as_slice())?;
    write_read(row, changed.as_slice())
}

/// Runs `more NAME WORDS`: the outcome of reading a file with more bytes after it.
fn more_row(bytes: &[u8], row: &mut Row) -> Result<(), RowError> {
    let piece = spelled(row.alloc, row.rest())?;
    let mut longer = Vec::from_slice(row.alloc, bytes)?;
    longer.extend_from_slice(piece.as_slice())?;
    write_read(row, longer.as_slice())
}

/// Returns whether the outcome of the first bytes of a file is that they end too early.
fn is_cut_at(alloc: Global, bytes: &[u8], length: usize) -> Result<bool, RowError> {
    if length > bytes.len() {
        return Err(RowError::Number);
    }
    match read_file(alloc, &bytes[..length]) {
        Err(FileError::Cut { at }) => Ok(at == length as u64),
        Err(FileError::Memory) => Err(RowError::Memory),
        _ => Ok(false),
    }
}

/// Runs `cuts NAME FROM TO`: how many of the cuts to a length from FROM on and below TO are reported as that cut.
fn cuts_row(bytes: &[u8], row: &mut Row) -> Result<(), RowError> {
    let (first, last) = row.two_numbers::<u32, u32>()?;
    let mut told = 0u32;
    for length in first..last {
        if is_cut_at(row.alloc, bytes, length as usize)? {
            told = told.saturating_add(1);
        }
    }
    row.write_number(told);
    Ok(())
}

/// The claim of a file that is one.
fn claim_in(alloc: Global, bytes: &[u8]) -> Result<Claim, RowError>
    ensures { IfOk result (λ claim. HasFileOf (claim_of claim)) }
{
    match read_file(alloc, bytes) {
        Ok(claim) => Ok(claim),
        Err(_) => Err(RowError::Condition),
    }
}

/// The set of a ply and a mask.
fn set_of(alloc: Global, claim: &Claim, ply: u8, mask: u8) -> Result<Auto, RowError> {
    for claimed in claim.sets.as_slice() {
        if claimed.ply == ply && claimed.mask == mask {
            return Ok(claimed.set.to_auto(alloc)?);
        }
    }
    Err(RowError::Number)
}

/// Writes whether the set accepts the word of these letters.
fn write_accepts(row: &mut Row, set: &Auto, word: &[u32]) -> Result<(), RowError> {
    let letters = 1u32 << set.tracks().len();
    if word.is_empty() || word.iter().any(|letter| *letter >= letters) {
        return Err(RowError::Condition);
    }
    row.write_truth(set.accepts(word));
    Ok(())
}

/// `accepts NAME PLY MASK LETTERS`: whether a set of the claim that is read accepts a word.
fn accepts_row(bytes: &[u8], row: &mut Row) -> Result<(), RowError> {
    let (ply, mask) = row.two_numbers::<u8, u8>()?;
    let word = row.numbers::<u32>()?;
    let claim = claim_in(row.alloc, bytes)?;
    let set = set_of(row.alloc, &claim, ply, mask)?;
    write_accepts(row, &set, word.as_slice())
}

/// What is solved for the position, the winner and the number of moves of a claim.
fn solved_of(alloc: Global, claim: &Claim) -> Result<Solved, RowError>
    requires { HasFileOf (claim_of claim.now) }
    ensures plan { IfOk result (λ solved. solved.origin ≡ Plan) }
    ensures kings { IfOk result (λ solved. HasBothKings solved.position) }
{
    match solve(
        alloc,
        &claim.position,
        claim.winner,
        claim.moves,
        Budget::new(50_000),
    ) {
        Ok(solved) => Ok(solved),
        Err(SolveError::Over(_)) => Err(RowError::Condition),
        Err(SolveError::Memory) => Err(RowError::Memory),
    }
}

/// The same for the claim of a file that is one.
fn solved_in(alloc: Global, bytes: &[u8]) -> Result<Solved, RowError>
    ensures plan { IfOk result (λ solved. solved.origin ≡ Plan) }
    ensures kings { IfOk result (λ solved. HasBothKings solved.position) }
{
    let claim = claim_in(alloc, bytes)?;
    solved_of(alloc, &claim)
}

/// Writes how many bytes there are, and whether they are those of the other file.
fn write_sameness(row: &mut Row, bytes: &[u8], other: &[u8]) {
    row.write_number(bytes.len());
    row.write(if bytes == other { " same" } else { " other" });
}

/// Writes what comes of writing a file, and whether that is the other.
fn write_result(
    row: &mut Row,
    file: Result<Vec<u8>, WriteFileError>,
    other: &[u8],
) -> Result<(), RowError> {
    match file {
        Ok(bytes) => write_sameness(row, bytes.as_slice(), other),
        Err(WriteFileError::TooLarge { length }) => row.write_labelled("too large ", length),
        Err(WriteFileError::SetTooLarge { states }) => {
            row.write_labelled("set too large ", states);
        }
        Err(WriteFileError::Memory) => return Err(RowError::Memory),
    }
    Ok(())
}

/// Runs `write NAME OTHER`: how many bytes version 2 has for the position, the winner and the number of moves of a
/// file, solved again, and whether they are those of the other file.
fn write_row(bytes: &[u8], other: &[u8], row: &mut Row) -> Result<(), RowError> {
    let solved = solved_in(row.alloc, bytes)?;
    write_result(row, write_file(row.alloc, &solved), other)
}

/// `write_1 NAME OTHER`: the same of version 1.
fn write_1_row(bytes: &[u8], other: &[u8], row: &mut Row) -> Result<(), RowError> {
    let solved = solved_in(row.alloc, bytes)?;
    if !Version::Dense.fits(solved.winner(), &solved.position()) {
        return Err(RowError::Condition);
    }
    write_result(row, write_file_1(row.alloc, &solved), other)
}

/// `migrate NAME OTHER`: how many bytes version 2 has for the claim of a file, and whether they are those of the other.
fn migrate_row(bytes: &[u8], other: &[u8], row: &mut Row) -> Result<(), RowError> {
    let claim = claim_in(row.alloc, bytes)?;
    write_result(row, write_claim(row.alloc, &claim), other)
}

/// Appends `states` states, each a flag 0 and a row of entries that are drawn.
fn push_noise(bytes: &mut Vec<u8>, states: u32, letters: u32, seed: u64) -> Result<(), RowError> {
    if states == 0 {
        return Err(RowError::Number);
    }
    let mut drawn = seed;
    for _ in 0..states {
        bytes.push(0)?;
        for _ in 0..letters {
            drawn = drawn
                .wrapping_mul(6364136223846793005)
                .wrapping_add(1442695040888963407);
            let entry = (drawn >> 33) as u32 % states;
            bytes.extend_from_slice(&entry.to_be_bytes())?;
        }
    }
    Ok(())
}

/// Runs `noise NAME STATES LETTERS SEED WORDS`: names a file: the bytes of the words, followed by this number of
/// states, each a flag 0 and a row of entries that are drawn.
pub fn noise_row(files: &mut Named<Vec<u8>>, row: &mut Row) -> Result<(), RowError> {
    let name = row.word()?;
    let (states, letters, seed) = row.three_numbers::<u32, u32, u64>()?;
    let mut bytes = spelled(row.alloc, row.rest())?;
    push_noise(&mut bytes, states, letters, seed)?;
    files.put(row.alloc, name, bytes)
}
