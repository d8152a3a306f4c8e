//! Rows that query automata.

ghost use Rattle.std.specs.Prelude.{◌≡◌, IsTrue};
ghost use Rattle.auto_core.specs.Reduced.{IsReduced};

use crate::letters::write_vars;
use crate::members::{write_tuples, write_words};
use crate::periods::write_periods;
use crate::rays::write_rays;
use crate::reduced_auto::ReducedAuto;
use crate::spelling::{MOST_DEPTH, automaton};
use crate::table_text::write_table;
use auto_core::Auto;
use auto_reduce::{is_empty, same_set, sign_stable};
use trial_rows::{Named, Row, RowError};

/// Runs `KIND A`: writes a property of the automaton.
pub fn write_told(named: &Named<ReducedAuto>, kind: &str, row: &mut Row) -> Result<(), RowError> {
    let set = automaton(named, MOST_DEPTH, row)?;
    write_of(row, set.auto(), kind)
}

/// Writes what an automaton is.
fn write_of(row: &mut Row, a: &Auto, kind: &str) -> Result<(), RowError>
    requires { IsReduced a.now }
{
    match kind {
        "states" => row.write_number(a.states()),
        "tracks" => write_vars(row, a.tracks()),
        "empty" => row.write_truth(is_empty(a)),
        "stable" => row.write_truth(sign_stable(row.alloc, a)?),
        "table" => write_table(row, a),
        _ => return Err(RowError::Kind),
    }
    Ok(())
}

/// Runs `KIND WORD A`: writes the result of a query on the automaton.
pub fn write_asked(named: &Named<ReducedAuto>, kind: &str, row: &mut Row) -> Result<(), RowError> {
    let word = row.word()?;
    let set = automaton(named, MOST_DEPTH, row)?;
    let a = set.auto();
    match kind {
        "accepts" => write_words(row, a, word),
        "member" => write_tuples(row, a, word),
        "periods" => write_periods(row, a, word),
        _ => write_rays(row, a, word),
    }
}

/// Whether two automata are over the same variables.
fn are_alike(a: &Auto, b: &Auto) -> bool
    ensures { IsTrue result → a.now.tracks ≡ b.now.tracks }
{
    a.tracks() == b.tracks()
}

/// Writes whether two automata accept the same words, if they are over the same variables.
fn write_are_same(row: &mut Row, a: &Auto, b: &Auto) -> Result<(), RowError> {
    if !are_alike(a, b) {
        return Err(RowError::Condition);
    }
    row.write_truth(same_set(row.alloc, a, b)?);
    Ok(())
}

/// Runs `same A A`: whether two automata over the same variables accept the same words.
pub fn write_same(named: &Named<ReducedAuto>, row: &mut Row) -> Result<(), RowError> {
    let one = automaton(named, MOST_DEPTH, row)?;
    let other = automaton(named, MOST_DEPTH, row)?;
    write_are_same(row, one.auto(), other.auto())
}
