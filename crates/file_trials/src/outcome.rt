//! The outcome of reading a file, in words.

use chess_game::{Position, Side};
use strategy_file::{ByteWhy, Claim, FileError, read_file};
use trial_rows::{Row, RowError};

fn why_word(why: ByteWhy) -> &'static str {
    match why {
        ByteWhy::Magic => "magic",
        ByteWhy::Version => "version",
        ByteWhy::Moves => "moves",
        ByteWhy::Turn => "turn",
        ByteWhy::Count => "count",
        ByteWhy::Side => "side",
        ByteWhy::Kind => "kind",
        ByteWhy::PlaceTag => "place",
        ByteWhy::Unsound => "unsound",
        ByteWhy::Ply => "ply",
        ByteWhy::Men => "men",
        ByteWhy::States => "states",
        ByteWhy::Entry => "entry",
        ByteWhy::Flag => "flag",
        ByteWhy::Nodes => "nodes",
        ByteWhy::Track => "track",
        ByteWhy::Ref => "ref",
    }
}

fn turn_letter(position: &Position) -> char {
    match position.turn() {
        Side::White => 'W',
        Side::Black => 'B',
    }
}

fn winner_word(winner: Side) -> &'static str {
    match winner {
        Side::White => "",
        Side::Black => " for B",
    }
}

/// Writes the number of moves, the side to move, the winner if he is Black, the number of men, and for each set its
/// ply, its mask and its number of states.
fn write_claim(row: &mut Row, claim: &Claim) {
    row.write_labelled("claim ", claim.moves);
    row.write_labelled(" ", turn_letter(&claim.position));
    row.write(winner_word(claim.winner));
    row.write_labelled(" ", claim.position.count());
    for set in claim.sets.as_slice() {
        row.write_labelled(" ", set.ply);
        row.write_labelled("/", set.mask);
        row.write_labelled("/", set.set.states());
    }
}

fn write_error(row: &mut Row, error: FileError) -> Result<(), RowError> {
    match error {
        FileError::Cut { at } => row.write_labelled("cut at ", at),
        FileError::Byte { at, why } => {
            row.write_labelled("byte ", at);
            row.write_labelled(" ", why_word(why));
        }
        FileError::Extra { at } => row.write_labelled("extra at ", at),
        FileError::Memory => return Err(RowError::Memory),
    }
    Ok(())
}

/// Writes the outcome of reading bytes.
pub fn write_read(row: &mut Row, bytes: &[u8]) -> Result<(), RowError> {
    match read_file(row.alloc, bytes) {
        Ok(claim) => {
            write_claim(row, &claim);
            Ok(())
        }
        Err(error) => write_error(row, error),
    }
}
