//! Tables of nodes.

use std::alloc::AllocError;

/// A node: the index of the least track that it tests, and the references of its branches at the bits 0 and 1 of that track.
#[derive(Clone, Copy, PartialEq, Eq)]
pub struct RowNode {
    pub track: u8,
    pub low: u32,
    pub high: u32,
}

/// The nodes that rows share, and the rows: a reference for the first row, and one for each state. A reference below the number of
/// states names that state; the number of states plus `i` names the `i`-th node.
pub struct NodeTable {
    pub nodes: Vec<RowNode>,
    pub first: u32,
    pub rows: Vec<u32>,
}

impl Drop for NodeTable {
    /// Drops the lists. Written by hand, so that a function that drops a table calls this instead of dropping each field.
    fn drop(self) {
        let NodeTable {
            nodes: _,
            first: _,
            rows: _,
        } = self;
    }
}

/// Why an automaton has no table.
#[derive(Clone, Copy, PartialEq, Eq)]
pub enum TableError {
    /// It would have more than `MOST_NODES` nodes.
    Nodes,
    Memory,
}

impl From<AllocError> for TableError {
    ghost use Rattle.std.specs.Prelude.{◌≡◌};
    ghost use Rattle.auto_nodes.specs.declared.table.TableError.TheVariants.{Memory};

    ghost from_gives = { λ _ e. e ≡ Memory };

    fn from(_refused: AllocError) -> TableError {
        TableError::Memory
    }
}
