//! Automata of tables.

ghost use Rattle.std.specs.Prelude.{◌≡◌, ◌≤◌, ◌<◌, ◌^◌, All, IsTrue};
ghost use Rattle.track_word.specs.Tracks.{IsAscending};
ghost use Rattle.automaton_trials.specs.Tabled.{AreOfAutomaton};

use crate::reduced_auto::{ReducedAuto, made};
use auto_core::Auto;
use limits::{MOST_STATES, MOST_TRACKS};
use std::alloc::Global;
use track_word::Var;
use trial_rows::RowError;

/// Whether the tracks ascend.
fn are_ascending(tracks: &[Var]) -> bool
    ensures { IsTrue result → IsAscending tracks.now }
{
    let Some((track, rest)) = tracks.split_first() else {
        return true;
    };
    let Some(next) = rest.first() else {
        return true;
    };
    if track.0 >= next.0 {
        return false;
    }
    are_ascending(rest)
}

/// Returns the number of letters over `tracks` tracks.
pub fn width_of(tracks: usize) -> usize
    requires { tracks ≤ MOST_TRACKS }
    ensures { result ≡ 2 ^ tracks }
{
    1 << tracks
}

/// Returns whether each number is below a bound.
pub fn are_below(numbers: &[u32], bound: usize) -> bool
    ensures { IsTrue result → All (λ number. number < bound) numbers.now }
{
    numbers.iter().all(|number| (*number as usize) < bound)
}

/// The tables of an automaton: its tracks, a state for each sign letter, a row of states for each state, and their flags.
#[derive(Drop)]
pub struct Tables {
    pub tracks: Vec<Var>,
    pub first: Vec<u32>,
    pub next: Vec<u32>,
    pub accept: Vec<bool>,
}

/// Whether tables are those of an automaton.
fn are_tables(tables: &Tables) -> bool
    ensures { IsTrue result → AreOfAutomaton tables.now }
{
    let states = tables.accept.len();
    if tables.tracks.len() > MOST_TRACKS as usize || states == 0 || states > MOST_STATES as usize {
        return false;
    }
    let width = width_of(tables.tracks.len());
    are_ascending(tables.tracks.as_slice())
        && tables.first.len() == width
        && tables.next.len() == states * width
        && are_below(tables.first.as_slice(), states)
        && are_below(tables.next.as_slice(), states)
}

/// Returns the automaton of some tables, if they are valid.
pub fn tabled(alloc: Global, tables: Tables) -> Result<ReducedAuto, RowError> {
    if !are_tables(&tables) {
        return Err(RowError::Condition);
    }
    let Tables {
        tracks,
        first,
        next,
        accept,
    } = tables;
    made(alloc, Auto::from_rows(alloc, tracks, first, next, accept))
}
