//! The automaton, and its rows as nodes.
ghost use Rattle.std.specs.Prelude.{◌≡◌, ◌<◌, ◌^◌, ℕ, length, slice_get, Some, IfOk};
ghost use Rattle.auto_core.specs.Automaton.{first_state, next_state, IsAutomaton};
ghost use Rattle.auto_core.specs.Rows.{AreRows, IsOverNodes, IsNodeOfRow, all_nodes, row_of, rows_of};
ghost use Rattle.letter_diagram.specs.Diagram.{map_at, LooksBelow, IsDiagram};

use letter_diagram::{Diagrams, Node};
use std::alloc::{AllocError, Global};
use std::marker::Model;
use track_word::Var;

/// A complete deterministic automaton that reads nonempty words, the sign letter first.
/// Has at most 20 tracks. A row is a node of its diagrams: the first row maps sign letters to states, and each state's row maps
/// further letters to states.
pub struct Auto {
    tracks: Vec<Var>,
    diagrams: Diagrams,
    first: Node,
    rows: Vec<Node>,
    accept: Vec<bool>,
}

impl Drop for Auto {
    /// Drops the tables. Written by hand, so that a function that drops an automaton calls this instead of dropping each field.
    fn drop(self) {
        let Auto {
            tracks: _,
            diagrams: _,
            first: _,
            rows: _,
            accept: _,
        } = self;
    }
}

impl Model for Auto {
    ghost use Rattle.auto_core.specs.Automaton.{Automaton};
    ghost use Rattle.auto_core.specs.Rows.{dense, AreRows};

    ghost Value = { Automaton };

    ghost view = { λ a. dense a.tracks.items a.diagrams a.first a.rows.items a.accept.items };

    ghost invariant = { λ a. AreRows a.tracks.items a.diagrams a.first a.rows.items a.accept.items };
}

impl Auto {
    /// Returns the automaton whose first row and state rows are the maps of these nodes.
    pub fn from_diagrams(
        tracks: Vec<Var>,
        diagrams: Diagrams,
        first: Node,
        rows: Vec<Node>,
        accept: Vec<bool>,
    ) -> Auto
        requires { AreRows tracks.items diagrams first rows.items accept.items }
        ensures tracks { result.tracks ≡ tracks.items }
        ensures accept { result.accept ≡ accept.items }
        ensures shapes { result.shapes ≡ diagrams }
        ensures first_node { result.first_node ≡ first }
        ensures row_nodes { result.row_nodes ≡ rows.items }
        ensures first { result.first ≡ row_of diagrams (2 ^ length tracks.items) first }
        ensures next { result.next ≡ rows_of diagrams (2 ^ length tracks.items) rows.items }
        ensures valid { IsAutomaton result }
    {
        Auto {
            tracks,
            diagrams,
            first,
            rows,
            accept,
        }
    }

    /// Returns the diagrams whose nodes are the rows.
    pub fn diagrams(&self) -> &Diagrams
        ensures shapes { result.now ≡ self.now.shapes }
        ensures nodes { IsOverNodes self.now }
    {
        &self.diagrams
    }

    /// Returns the node of the first row, which maps each sign letter to a state.
    pub fn first_node(&self) -> Node
        ensures is { result ≡ self.now.first_node }
        ensures known { result < length self.now.shapes }
        ensures narrow { LooksBelow self.now.shapes result (length self.now.tracks) }
        ensures map { IsNodeOfRow self.now (first_state self.now) result }
        ensures within { (letter : ℕ) → map_at self.now.shapes result letter < length self.now.accept }
    {
        self.first
    }

    /// Returns the node of a state's row, which maps each further letter to a state.
    pub fn row_node(&self, state: u32) -> Node
        requires { state < length self.now.accept }
        ensures is { slice_get self.now.row_nodes state ≡ Some result }
        ensures known { result < length self.now.shapes }
        ensures narrow { LooksBelow self.now.shapes result (length self.now.tracks) }
        ensures map { IsNodeOfRow self.now (next_state self.now state) result }
        ensures within { (letter : ℕ) → map_at self.now.shapes result letter < length self.now.accept }
    {
        self.rows[state as usize]
    }

    /// Returns the nodes of the states' rows, in the order of the states.
    pub fn row_nodes(&self) -> &[Node]
        ensures { result.now ≡ self.now.row_nodes }
    {
        self.rows.as_slice()
    }

    /// Returns the node of the first row, followed by the nodes of the states' rows. Errors: an allocation failed.
    pub fn all_nodes(&self, alloc: Global) -> Result<Vec<Node>, AllocError>
        ensures nodes { IfOk result (λ nodes. nodes.items ≡ all_nodes self.now) }
        ensures over { IsOverNodes self.now }
    {
        let mut nodes = vec![in alloc; self.first]?;
        nodes.extend_from_slice(self.rows.as_slice())?;
        Ok(nodes)
    }

    /// Returns the tracks in ascending order.
    pub fn tracks(&self) -> &[Var]
        ensures tracks { result.now ≡ self.now.tracks }
        ensures valid { IsAutomaton self.now }
    {
        self.tracks.as_slice()
    }

    /// Returns the number of states.
    pub fn states(&self) -> u32
        ensures states { result ≡ length self.now.accept }
        ensures valid { IsAutomaton self.now }
    {
        self.accept.len() as u32
    }

    /// Returns the accept flags, in the order of the states.
    pub fn flags(&self) -> &[bool]
        ensures { result.now ≡ self.now.accept }
    {
        self.accept.as_slice()
    }

    /// Copies the automaton with its nodes.
    pub fn copy(&self) -> Result<Self, AllocError>
        ensures { IfOk result (λ copy. copy ≡ self.now) }
    {
        let alloc = self.diagrams.alloc();
        Ok(Auto {
            tracks: self.tracks.as_slice().to_vec(alloc)?,
            diagrams: self.diagrams.copy()?,
            first: self.first,
            rows: self.rows.as_slice().to_vec(alloc)?,
            accept: self.accept.as_slice().to_vec(alloc)?,
        })
    }
}
