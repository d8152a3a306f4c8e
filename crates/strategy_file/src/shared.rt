//! Automata whose rows share nodes, as they are stored in a file.

ghost use Rattle.std.specs.Prelude.{◌≡◌, ◌<◌, ◌≤◌, ◌^◌, All, length, IfOk};
ghost use Rattle.track_word.specs.Tracks.{IsAscending};
ghost use Rattle.auto_core.specs.Automaton.{IsAutomaton};
ghost use Rattle.auto_core.specs.Rows.{row_of, rows_of};
ghost use Rattle.auto_nodes.specs.Nodes.{CanBeBuilt, named, shared_of};
ghost use Rattle.strategy_file.specs.Reading.{Gives};
ghost use Rattle.strategy_file.specs.Rests.{ReadBy, taken_of};
ghost use Rattle.strategy_file.specs.SharedTables.{shared_states_layout, shared_states_of};
ghost use Rattle.strategy_file.specs.Tables.{shared_layout, table_of};

use crate::fields::Rest;
use crate::most::MOST_FILED_STATES;
use crate::nodes::nodes_at;
use crate::refusal::{ByteWhy, FileError};
use auto_core::Auto;
use auto_nodes::{MOST_NODES, NodeTable, from_nodes};
use limits::MOST_TRACKS;
use std::alloc::{AllocError, Global};
use std::marker::Model;
use track_word::Var;

/// A complete DFA whose nodes and rows are stored in memory as in a file. It is about as large as its bytes in the
/// file.
pub struct SharedAuto {
    tracks: Vec<Var>,
    table: NodeTable,
    accept: Vec<bool>,
}

impl Drop for SharedAuto {
    /// Lets the tables go. Written out, so that a body that lets an automaton go has a call here in place of its fields' drops.
    fn drop(self) {
        let SharedAuto {
            tracks: _,
            table: _,
            accept: _,
        } = self;
    }
}

impl Model for SharedAuto {
    ghost use Rattle.auto_core.specs.Automaton.{Automaton};
    ghost use Rattle.auto_nodes.specs.Nodes.{CanBeBuilt, shared_of};
    ghost use Rattle.strategy_file.specs.SharedTables.{automaton_over};

    ghost Value = { Automaton };

    ghost view = { λ d. automaton_over d.tracks.items (shared_of d.table) d.accept.items };

    ghost invariant = { λ d. CanBeBuilt d.tracks.items (shared_of d.table) d.accept.items };
}

impl SharedAuto {
    /// Creates the automaton of this table.
    pub fn new(tracks: Vec<Var>, table: NodeTable, accept: Vec<bool>) -> SharedAuto
        requires { CanBeBuilt tracks.items (shared_of table) accept.items }
        ensures tracks { result.tracks ≡ tracks.items }
        ensures first { result.first ≡ row_of (named (length accept.items) table.nodes.items) (2 ^ length tracks.items) table.first }
        ensures next { result.next ≡ rows_of (named (length accept.items) table.nodes.items) (2 ^ length tracks.items) table.rows.items }
        ensures accept { result.accept ≡ accept.items }
        ensures valid { IsAutomaton result }
    {
        SharedAuto {
            tracks,
            table,
            accept,
        }
    }

    /// Returns the number of states.
    pub fn states(&self) -> u32
        ensures { result ≡ length self.now.accept }
    {
        self.accept.len() as u32
    }

    /// Converts to an automaton with the same rows.
    pub fn to_auto(&self, alloc: Global) -> Result<Auto, AllocError>
        ensures tracks { IfOk result (λ a. a.tracks ≡ self.now.tracks) }
        ensures first { IfOk result (λ a. a.first ≡ self.now.first) }
        ensures next { IfOk result (λ a. a.next ≡ self.now.next) }
        ensures accept { IfOk result (λ a. a.accept ≡ self.now.accept) }
        ensures valid { IfOk result (λ a. IsAutomaton a) }
    {
        let tracks = self.tracks.as_slice().to_vec(alloc)?;
        let accept = self.accept.as_slice().to_vec(alloc)?;
        from_nodes(alloc, tracks, &self.table, accept)
    }
}

/// Reads the flags and the rows of `count` states; a row is a reference below a bound.
fn shared_states_at<'a>(
    alloc: Global,
    states: u32,
    references: u32,
    rest: Rest<'a>,
) -> Result<(Vec<bool>, Vec<u32>, Rest<'a>), FileError>
    requires some { 1 ≤ references }
    ensures states { Gives shared_states_of result (taken_of (shared_states_layout references states) rest.entry) }
    ensures flags { IfOk result (λ x. length x.0.items ≡ states) }
    ensures rows { IfOk result (λ x. length x.1.items ≡ states) }
    ensures within { IfOk result (λ x. All (λ row. row < references) x.1.items) }
{
    let room = rest.room(states as usize);
    let mut accept = Vec::with_capacity(alloc, room)?;
    let mut rows = Vec::with_capacity(alloc, room)?;
    let mut left = rest;
    for _ in 0..states {
        let (flag, after) = left.byte(0, 1, ByteWhy::Flag)?;
        let (row, after) = after.number(0, references - 1, ByteWhy::Ref)?;
        accept.push(flag == 1)?;
        rows.push(row)?;
        left = after;
    }
    Ok((accept, rows, left))
}

/// Reads an automaton of this number of states over some tracks.
#[tactic(auto, unfolding(crate::specs::Tables::shared_layout))]
pub(crate) fn shared_at(
    alloc: Global,
    tracks: Vec<Var>,
    states: u32,
    rest: Rest,
) -> Result<(SharedAuto, Rest), FileError>
    requires ascending { IsAscending tracks.items }
    requires few { length tracks.items ≤ MOST_TRACKS }
    requires some { 1 ≤ states }
    requires most { states ≤ MOST_FILED_STATES }
    ensures table { ReadBy table_of (shared_layout (length tracks.items) states) rest.entry result }
    ensures tracks { IfOk result (λ x. x.0.tracks ≡ tracks.items) }
    ensures valid { IfOk result (λ x. IsAutomaton x.0) }
    ensures few { IfOk result (λ x. length x.0.accept ≤ MOST_FILED_STATES) }
{
    let (count, rest) = rest.number(0, MOST_NODES as u32, ByteWhy::Nodes)?;
    let (nodes, rest) = nodes_at(alloc, tracks.len() as u8, states, count, rest)?;
    let references = states + count;
    let (first, rest) = rest.number(0, references - 1, ByteWhy::Ref)?;
    let (accept, rows, rest) = shared_states_at(alloc, states, references, rest)?;
    Ok((
        SharedAuto::new(tracks, NodeTable { nodes, first, rows }, accept),
        rest,
    ))
}
