//! Reads the nodes that the rows of a set share.

ghost use Rattle.std.specs.Prelude.{◌≡◌, ◌≤◌, ◌<◌, ◌+◌, ◌++◌, ◌^◌, [], length, IfOk};
ghost use Rattle.auto_nodes.specs.Nodes.{AreRowNodes, IsRowNode, named};
ghost use Rattle.letter_diagram.specs.Diagram.{top_track};
ghost use Rattle.strategy_file.specs.Layout.{one};
ghost use Rattle.strategy_file.specs.Rests.{ReadBy};
ghost use Rattle.strategy_file.specs.SharedTables.{CanBePart, IsPart, node_layout, nodes_layout, part_field};

use crate::fields::Rest;
use crate::most::MOST_FILED_STATES;
use crate::refusal::{ByteWhy, FileError};
use auto_nodes::{MOST_NODES, RowNode};
use std::alloc::Global;

/// The bytes of a node.
const NODE_BYTES: usize = 9;

/// Whether a reference names a state or one of these nodes, and what it names looks only at tracks after the track.
#[tactic(auto, using(crate::proofs::NodeReads::part_state, crate::proofs::NodeReads::part_node, crate::proofs::NodeReads::part_none))]
fn can_be_part(states: u32, nodes: &[RowNode], track: u8, part: u32) -> bool
    requires states { states ≤ MOST_FILED_STATES }
    requires track { track < 20 }
    ensures { result ≡ CanBePart states nodes.now track part }
{
    if part < states {
        return true;
    }
    let place = (part - states) as usize;
    if place >= nodes.len() {
        return false;
    }
    track < nodes[place].track
}

/// A part of a node that looks at a track, among states and earlier nodes.
fn part_at<'a>(
    states: u32,
    nodes: &[RowNode],
    track: u8,
    rest: Rest<'a>,
) -> Result<(u32, Rest<'a>), FileError>
    requires states { states ≤ MOST_FILED_STATES }
    requires track { track < 20 }
    ensures part { ReadBy (λ x. x) (one (part_field states nodes.now track)) rest.entry result }
    ensures is { IfOk result (λ x. IsPart states nodes.now track x.0) }
{
    let (part, after) = rest.word()?;
    if !can_be_part(states, nodes, track, part) {
        return Err(FileError::Byte {
            at: rest.at,
            why: ByteWhy::Ref,
        });
    }
    Ok((part, after))
}

/// A node over states and earlier nodes.
#[tactic(auto, unfolding(crate::specs::SharedTables::node_layout))]
fn node_at<'a>(
    tracks: u8,
    states: u32,
    nodes: &[RowNode],
    rest: Rest<'a>,
) -> Result<(RowNode, Rest<'a>), FileError>
    requires few { tracks ≤ 20 }
    requires states { states ≤ MOST_FILED_STATES }
    ensures node { ReadBy (λ x. x) (node_layout tracks states nodes.now) rest.entry result }
    ensures is { IfOk result (λ x. IsRowNode (named states nodes.now) tracks (states + length nodes.now) x.0) }
{
    let (track, rest) = rest.byte_below(tracks, ByteWhy::Track)?;
    let (low, rest) = part_at(states, nodes, track, rest)?;
    let (high, rest) = part_at(states, nodes, track, rest)?;
    Ok((RowNode { track, low, high }, rest))
}

/// Reads `count` nodes.
pub(crate) fn nodes_at<'a>(
    alloc: Global,
    tracks: u8,
    states: u32,
    count: u32,
    rest: Rest<'a>,
) -> Result<(Vec<RowNode>, Rest<'a>), FileError>
    requires few { tracks ≤ 20 }
    requires states { states ≤ MOST_FILED_STATES }
    requires count { count ≤ MOST_NODES }
    ensures nodes { ReadBy (λ x. x.items) (nodes_layout tracks states count []) rest.entry result }
    ensures count { IfOk result (λ x. length x.0.items ≡ count) }
    ensures are { IfOk result (λ x. AreRowNodes tracks states x.0.items) }
{
    let room = (count as usize).min(rest.bytes.len() / NODE_BYTES);
    let mut nodes = Vec::with_capacity(alloc, room)?;
    let mut left = rest;
    for _ in 0..count {
        let (node, after) = node_at(tracks, states, nodes.as_slice(), left)?;
        nodes.push(node)?;
        left = after;
    }
    Ok((nodes, left))
}
