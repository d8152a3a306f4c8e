//! The values that the steps of a row have made.

ghost use Rattle.std.specs.Prelude.{◌<◌, IfOk, length};

use diagram_product::Pairs;
use letter_diagram::{Diagrams, Node, Sets};
use limits::MOST_TRACKS;
use std::alloc::Global;
use trial_rows::{Row, RowError};

/// The nodes that the steps of a row have made, in order, and the numbered values.
#[derive(Drop)]
pub struct Bench {
    pub diagrams: Diagrams,
    pub nodes: Vec<Node>,
    pub pairs: Pairs,
    pub sets: Sets,
}

impl Bench {
    /// Creates a state without nodes.
    pub fn new(alloc: Global) -> Self {
        Bench {
            diagrams: Diagrams::new(alloc),
            nodes: Vec::new(alloc),
            pairs: Pairs::new(alloc),
            sets: Sets::new(alloc),
        }
    }

    /// Returns the node whose number, counted from 0, is the next field.
    pub fn node(&self, row: &mut Row) -> Result<Node, RowError>
        ensures { IfOk result (λ node. node < length self.now.diagrams) }
    {
        let place = row.number::<u32>()? as usize;
        match self.nodes.get(place) {
            Some(node) if node.number() < self.diagrams.len() => Ok(*node),
            Some(_) => Err(RowError::Condition),
            None => Err(RowError::Name),
        }
    }

    /// Returns the nodes whose numbers are the next two fields.
    pub fn two_nodes(&self, row: &mut Row) -> Result<(Node, Node), RowError>
        ensures { IfOk result (λ nodes. (nodes.0 < length self.now.diagrams) × (nodes.1 < length self.now.diagrams)) }
    {
        Ok((self.node(row)?, self.node(row)?))
    }
}

/// Parses a track from the next field.
pub fn track(row: &mut Row) -> Result<u8, RowError>
    ensures { IfOk result (λ track. track < MOST_TRACKS) }
{
    let track = row.number::<u8>()?;
    if track >= MOST_TRACKS {
        return Err(RowError::Condition);
    }
    Ok(track)
}
