//! Writes a file of version 2.

ghost use Rattle.std.specs.Prelude.{◌≡◌, ◌<◌, ◌≤◌, ◌++◌, ◌^◌, All, length, map, IfOk, IfErr, OnOk};
ghost use Rattle.chess_game.specs.Near.{IsNarrowPosition};
ghost use Rattle.auto_nodes.specs.Nodes.{shared_of};
ghost use Rattle.auto_nodes.specs.declared.numbers.TheConstants.{MOST_NODES};
ghost use Rattle.std.specs.List.{flat_map};
ghost use Rattle.strategy_writer.specs.KeptClaims.{as_claim, as_set};
ghost use Rattle.strategy_writer.specs.SharedWritten.{AddsSharedSets, AddsSharedSet, HasSharedLength, HasFewNodes, HasSharedLengths, IsSharedFile, node_bytes, shared_set_bytes, shared_state_bytes, shared_table_bytes};
ghost use Rattle.strategy_writer.specs.WriteRefusal.{IsWriteRefusal};
ghost use Rattle.strategy_writer.specs.Written.{most_bytes};

use crate::kept_claim::{KeptClaim, KeptSet};
use crate::writing::{WriteFileError, flag_of, men_length, push_start};
use auto_core::Auto;
use auto_nodes::{NodeTable, RowNode, TableError, node_count, node_table};
use limits::MOST_FILE_BYTES;
use std::alloc::{AllocError, Global};
use strategy_file::Version;

/// One node.
#[tactic(auto, unfolding(crate::specs::SharedWritten::node_bytes))]
fn push_node(out: &mut Vec<u8>, node: RowNode) -> Result<(), AllocError>
    ensures { OnOk result (out.new.items ≡ out.old.items ++ node_bytes node) }
{
    out.push(node.track)?;
    out.extend_from_slice(&node.low.to_be_bytes())?;
    out.extend_from_slice(&node.high.to_be_bytes())?;
    Ok(())
}

/// The nodes, one after another.
fn push_nodes(out: &mut Vec<u8>, nodes: &[RowNode]) -> Result<(), AllocError>
    ensures { OnOk result (out.new.items ≡ out.old.items ++ flat_map node_bytes nodes.now) }
{
    for node in nodes {
        push_node(out, *node)?;
    }
    Ok(())
}

/// The flag and the row of a state.
#[tactic(auto, unfolding(crate::specs::SharedWritten::shared_state_bytes))]
fn push_shared_state(out: &mut Vec<u8>, accepts: bool, row: u32) -> Result<(), AllocError>
    ensures { OnOk result (out.new.items ≡ out.old.items ++ shared_state_bytes (accepts, row)) }
{
    out.push(flag_of(accepts))?;
    out.extend_from_slice(&row.to_be_bytes())?;
    Ok(())
}

/// The table of a set.
#[tactic(auto, unfolding(crate::specs::SharedWritten::shared_table_bytes))]
fn push_shared_table(out: &mut Vec<u8>, set: &Auto, table: &NodeTable) -> Result<(), AllocError>
    requires rows { length table.now.rows.items ≡ length set.now.accept }
    requires few { length table.now.nodes.items ≤ MOST_NODES }
    ensures { OnOk result (out.new.items ≡ out.old.items ++ shared_table_bytes set.now.accept (shared_of table.now)) }
{
    out.extend_from_slice(&set.states().to_be_bytes())?;
    out.extend_from_slice(&(table.nodes.len() as u32).to_be_bytes())?;
    push_nodes(out, table.nodes.as_slice())?;
    out.extend_from_slice(&table.first.to_be_bytes())?;
    let rows = table.rows.as_slice();
    for state in 0..set.states() {
        push_shared_state(out, set.accept_of(state), rows[state as usize])?;
    }
    Ok(())
}

/// The set of a ply and a mask, with its table.
#[tactic(auto, unfolding(crate::specs::SharedWritten::shared_set_bytes))]
fn push_set_with(out: &mut Vec<u8>, kept: &KeptSet, table: &NodeTable) -> Result<(), AllocError>
    requires rows { length table.now.rows.items ≡ length kept.now.set.accept }
    requires few { length table.now.nodes.items ≤ MOST_NODES }
    ensures { OnOk result (out.new.items ≡ out.old.items ++ shared_set_bytes (as_set kept.now) (shared_of table.now)) }
{
    out.push(kept.ply)?;
    out.push(kept.mask)?;
    push_shared_table(out, &kept.set, table)?;
    Ok(())
}

/// The set of a ply and a mask. It has a table, since the file is not too large.
fn push_shared_set(alloc: Global, out: &mut Vec<u8>, kept: &KeptSet) -> Result<(), AllocError>
    requires { HasFewNodes (as_set kept.now) }
    ensures { OnOk result (AddsSharedSet (as_set kept.now) out.old.items out.new.items) }
{
    match node_table(alloc, &kept.set) {
        Ok(table) => {
            push_set_with(out, kept, &table)?;
            Ok(())
        }
        Err(TableError::Nodes) => unreachable!(),
        Err(TableError::Memory) => Err(AllocError),
    }
}

/// The sets, one after another.
fn push_shared_sets(alloc: Global, out: &mut Vec<u8>, sets: &[KeptSet]) -> Result<(), AllocError>
    requires { All (λ s. HasFewNodes (as_set s)) sets.now }
    ensures { OnOk result (AddsSharedSets (map as_set sets.now) out.old.items out.new.items) }
{
    for kept in sets {
        push_shared_set(alloc, out, kept)?;
    }
    Ok(())
}

/// The number of bytes of a set.
fn shared_length(alloc: Global, kept: &KeptSet) -> Result<u128, AllocError>
    ensures length { IfOk result (HasSharedLength (as_set kept.now)) }
    ensures bound { IfOk result (λ size. size < 2 ^ 80) }
{
    let nodes = node_count(alloc, &kept.set)?;
    let states = kept.set.states();
    Ok(14 + 9 * nodes as u128 + 5 * states as u128)
}

/// The number of bytes of some sets.
fn shared_lengths(alloc: Global, sets: &[KeptSet]) -> Result<u128, AllocError>
    requires { length sets.now ≤ 2 ^ 16 }
    ensures length { IfOk result (HasSharedLengths (map as_set sets.now)) }
    ensures bound { IfOk result (λ size. size < 2 ^ 100) }
{
    let mut total = 0;
    for kept in sets {
        let size = shared_length(alloc, kept)?;
        total += size;
    }
    Ok(total)
}

/// Returns the file of a claim whose sets are reduced. The number of bytes is computed first, and room for them is
/// allocated once.
pub(crate) fn write_shared(alloc: Global, claim: &KeptClaim) -> Result<Vec<u8>, WriteFileError>
    ensures written { IfOk result (λ bytes. IsSharedFile (as_claim claim.now) bytes.items) }
    ensures small { IfOk result (λ bytes. length bytes.items ≤ most_bytes) }
    ensures narrow { OnOk result (IsNarrowPosition claim.now.position) }
    ensures refused { IfErr result (IsWriteRefusal Version.Shared (as_claim claim.now)) }
{
    let sets = shared_lengths(alloc, claim.sets.as_slice())?;
    let length = 8 + men_length(&claim.position) + sets;
    if length > MOST_FILE_BYTES as u128 {
        return Err(WriteFileError::TooLarge { length });
    }
    let mut out = Vec::with_capacity(alloc, length as usize)?;
    push_start(&mut out, Version::Shared, claim)?;
    push_shared_sets(alloc, &mut out, claim.sets.as_slice())?;
    Ok(out)
}
