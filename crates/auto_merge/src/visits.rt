//! Rows mapped to classes. Places without a class are visited first: each gets one after the places that its row leads to.
ghost use Rattle.std.specs.Prelude.{◌≡◌, ◌<◌, length, None, IfErr, IfOk, OnOk};
ghost use Rattle.auto_merge.specs.Keys.{IsLeafKey};
ghost use Rattle.auto_merge.specs.Merging.{IsMerging, Keeps, IsUnclassedIn, IsSpotKeyIn, IsNoSpotKeyIn, IsRowKeyIn};
ghost use Rattle.auto_merge.specs.Visits.{OnLed};

use crate::keys::{NO_CLASS, NoKey, class_of, leaf_key, test_key};
use crate::merging::{Merging, assign_class, assign_new_class};
use crate::rows::{Key, Look, RowSource};
use std::alloc::AllocError;

/// The maximum depth of nested visits.
const DEPTH: u32 = 200;

/// The parameters of mapping a row.
#[derive(Drop)]
struct Visit<'a, R: RowSource> {
    rows: &'a R,
    /// The number of the place whose row it is, which may have no class; if none, each place must have a class.
    own: Option<u32>,
    /// The remaining depth of nested visits.
    depth: u32,
}

/// Returns whether a place is being visited.
fn is_visited(visited: &[bool], number: u32) -> bool {
    visited.get(number as usize).copied().unwrap_or(false)
}

/// Sets whether a place is being visited.
fn mark(visited: &mut Vec<bool>, number: u32, is_visited: bool) -> Result<(), AllocError> {
    let place = number as usize;
    if place >= visited.len() {
        visited.resize(place + 1, false)?;
    }
    visited[place] = is_visited;
    Ok(())
}

/// Returns the key of a spot: it maps to the class of each place, of which only the visit's own may have none. Other places without
/// a class get one first. There is no key if a path leads back to a place that is being visited, or through more places than the
/// limit. Costs the spots that are not cached.
#[cycle(key_of)]
#[inline(always)]
fn key_of<R: RowSource>(
    visit: &Visit<R>,
    spot: R::Spot,
    merging: &mut Merging<R>,
) -> Result<Key, NoKey>
    requires read { (R.graph visit.now.rows.now).can_read spot }
    requires merging { IsMerging (R.graph visit.now.rows.now) (R.places visit.now.rows.now) R.answers merging.old }
    ensures key { IfOk result (IsSpotKeyIn (R.graph visit.now.rows.now) (R.places visit.now.rows.now) merging.new visit.now.own spot) }
    ensures refused { IfErr result (IsNoSpotKeyIn (R.graph visit.now.rows.now) (R.places visit.now.rows.now) merging.new) }
    ensures merging { OnLed result (IsMerging (R.graph visit.now.rows.now) (R.places visit.now.rows.now) R.answers merging.new) }
    ensures kept { OnLed result (Keeps (R.places visit.now.rows.now) merging.old merging.new) }
{
    match visit.rows.recall(&merging.led.memo, spot, visit.own) {
        Some(key) => Ok(key),
        None => made_key(visit, spot, merging),
    }
}

/// Returns the key of a spot that is not cached, and caches it.
#[cycle(key_of)]
fn made_key<R: RowSource>(
    visit: &Visit<R>,
    spot: R::Spot,
    merging: &mut Merging<R>,
) -> Result<Key, NoKey>
    requires read { (R.graph visit.now.rows.now).can_read spot }
    requires merging { IsMerging (R.graph visit.now.rows.now) (R.places visit.now.rows.now) R.answers merging.old }
    ensures key { IfOk result (IsSpotKeyIn (R.graph visit.now.rows.now) (R.places visit.now.rows.now) merging.new visit.now.own spot) }
    ensures refused { IfErr result (IsNoSpotKeyIn (R.graph visit.now.rows.now) (R.places visit.now.rows.now) merging.new) }
    ensures merging { OnLed result (IsMerging (R.graph visit.now.rows.now) (R.places visit.now.rows.now) R.answers merging.new) }
    ensures kept { OnLed result (Keeps (R.places visit.now.rows.now) merging.old merging.new) }
{
    let key = fresh_key(visit, spot, merging)?;
    visit
        .rows
        .remember(&mut merging.led.memo, spot, visit.own, &key)?;
    Ok(key)
}

/// Returns the key of a spot by what it tests first.
#[cycle(key_of)]
fn fresh_key<R: RowSource>(
    visit: &Visit<R>,
    spot: R::Spot,
    merging: &mut Merging<R>,
) -> Result<Key, NoKey>
    requires read { (R.graph visit.now.rows.now).can_read spot }
    requires merging { IsMerging (R.graph visit.now.rows.now) (R.places visit.now.rows.now) R.answers merging.old }
    ensures key { IfOk result (IsSpotKeyIn (R.graph visit.now.rows.now) (R.places visit.now.rows.now) merging.new visit.now.own spot) }
    ensures refused { IfErr result (IsNoSpotKeyIn (R.graph visit.now.rows.now) (R.places visit.now.rows.now) merging.new) }
    ensures merging { OnLed result (IsMerging (R.graph visit.now.rows.now) (R.places visit.now.rows.now) R.answers merging.new) }
    ensures kept { OnLed result (Keeps (R.places visit.now.rows.now) merging.old merging.new) }
{
    match visit.rows.look(spot, &mut merging.led.seen)? {
        Look::Place(number) => place_key(visit, number, merging),
        Look::Test { track, low, high } => {
            let low = key_of(visit, low, merging)?;
            let high = key_of(visit, high, merging)?;
            let node = merging.led.to.node(track, low.node, high.node)?;
            Ok(test_key(node, &low, &high))
        }
    }
}

/// Returns the key of a spot that leads to the place with this number.
#[cycle(key_of)]
fn place_key<R: RowSource>(
    visit: &Visit<R>,
    number: u32,
    merging: &mut Merging<R>,
) -> Result<Key, NoKey>
    requires known { number < length (R.places visit.now.rows.now merging.old.led.seen) }
    requires merging { IsMerging (R.graph visit.now.rows.now) (R.places visit.now.rows.now) R.answers merging.old }
    ensures key { IfOk result (IsLeafKey merging.new.led.to merging.new.table.items number visit.now.own) }
    ensures refused { IfErr result (IsNoSpotKeyIn (R.graph visit.now.rows.now) (R.places visit.now.rows.now) merging.new) }
    ensures merging { OnLed result (IsMerging (R.graph visit.now.rows.now) (R.places visit.now.rows.now) R.answers merging.new) }
    ensures kept { OnLed result (Keeps (R.places visit.now.rows.now) merging.old merging.new) }
{
    if visit.own != Some(number) && class_of(merging.table.as_slice(), number) == NO_CLASS {
        visit_within(visit, number, merging)?;
    }
    leaf_key(
        merging.table.as_slice(),
        number,
        visit.own,
        &mut merging.led.to,
    )
}

/// Assigns a class to a place after those that its row leads to, within the visit of another. If a path from it leads back to a
/// place that is being visited, it gets a class of its own.
#[cycle(key_of)]
fn visit_within<R: RowSource>(
    visit: &Visit<R>,
    number: u32,
    merging: &mut Merging<R>,
) -> Result<(), NoKey>
    requires merging { IsMerging (R.graph visit.now.rows.now) (R.places visit.now.rows.now) R.answers merging.old }
    requires new { IsUnclassedIn (R.places visit.now.rows.now) merging.old number }
    ensures refused { IfErr result (IsNoSpotKeyIn (R.graph visit.now.rows.now) (R.places visit.now.rows.now) merging.new) }
    ensures merging { OnLed result (IsMerging (R.graph visit.now.rows.now) (R.places visit.now.rows.now) R.answers merging.new) }
    ensures kept { OnLed result (Keeps (R.places visit.now.rows.now) merging.old merging.new) }
{
    if visit.depth == 0 || is_visited(merging.visited.as_slice(), number) {
        return Err(NoKey::Unclassed(number));
    }
    mark(&mut merging.visited, number, true)?;
    let within = Visit {
        rows: visit.rows,
        own: Some(number),
        depth: visit.depth - 1,
    };
    let spot = visit.rows.row(&merging.led.seen, number);
    match made_key(&within, spot, merging) {
        Ok(key) => {
            give_visited(visit.rows, number, &key, merging)?;
            keep_row(&within, number, &key, merging)
        }
        Err(NoKey::Unclassed(next)) => turn_back(visit.rows, number, next, merging),
        Err(why) => Err(why),
    }
}

/// Maps the row of a class's first place again, if its key was not whole, so that the result is cached.
#[cycle(key_of)]
fn keep_row<R: RowSource>(
    within: &Visit<R>,
    number: u32,
    key: &Key,
    merging: &mut Merging<R>,
) -> Result<(), NoKey>
    requires merging { IsMerging (R.graph within.now.rows.now) (R.places within.now.rows.now) R.answers merging.old }
    requires known { number < length (R.places within.now.rows.now merging.old.led.seen) }
    ensures refused { IfErr result (IsNoSpotKeyIn (R.graph within.now.rows.now) (R.places within.now.rows.now) merging.new) }
    ensures merging { OnLed result (IsMerging (R.graph within.now.rows.now) (R.places within.now.rows.now) R.answers merging.new) }
    ensures kept { OnLed result (Keeps (R.places within.now.rows.now) merging.old merging.new) }
{
    if key.whole || merging.owners.as_slice().last().copied() != Some(number) {
        return Ok(());
    }
    let visit = Visit {
        rows: within.rows,
        own: None,
        depth: 0,
    };
    let spot = within.rows.row(&merging.led.seen, number);
    match made_key(&visit, spot, merging) {
        Ok(_) => Ok(()),
        Err(NoKey::Unclassed(_)) => Ok(()),
        Err(why) => Err(why),
    }
}

/// Assigns a class to a place by the key of its row, unless it has one.
fn give_visited<R: RowSource>(
    rows: &R,
    number: u32,
    key: &Key,
    merging: &mut Merging<R>,
) -> Result<(), AllocError>
    requires merging { IsMerging (R.graph rows.now) (R.places rows.now) R.answers merging.old }
    requires key { IsRowKeyIn (R.graph rows.now) (R.places rows.now) merging.old number key.now.node }
    ensures merging { OnOk result (IsMerging (R.graph rows.now) (R.places rows.now) R.answers merging.new) }
    ensures kept { OnOk result (Keeps (R.places rows.now) merging.old merging.new) }
{
    if class_of(merging.table.as_slice(), number) != NO_CLASS {
        return Ok(());
    }
    assign_class(rows, number, key, merging)
}

/// Ends the visit of a place whose row leads to another one without a class. If that one is being visited, the path is a cycle, and
/// the place gets a class of its own, unless it has one.
fn turn_back<R: RowSource>(
    rows: &R,
    number: u32,
    next: u32,
    merging: &mut Merging<R>,
) -> Result<(), NoKey>
    requires merging { IsMerging (R.graph rows.now) (R.places rows.now) R.answers merging.old }
    requires known { number < length (R.places rows.now merging.old.led.seen) }
    requires next { IsUnclassedIn (R.places rows.now) merging.old next }
    ensures refused { IfErr result (IsNoSpotKeyIn (R.graph rows.now) (R.places rows.now) merging.new) }
    ensures merging { OnLed result (IsMerging (R.graph rows.now) (R.places rows.now) R.answers merging.new) }
    ensures kept { OnLed result (Keeps (R.places rows.now) merging.old merging.new) }
{
    if !is_visited(merging.visited.as_slice(), next) {
        mark(&mut merging.visited, number, false)?;
        return Err(NoKey::Unclassed(next));
    }
    if class_of(merging.table.as_slice(), number) == NO_CLASS {
        assign_new_class(rows, number, merging)?;
    }
    Ok(())
}

/// Assigns a class to a place after those that its row leads to, unless one of them has none.
pub fn classify_place<R: RowSource>(
    rows: &R,
    number: u32,
    merging: &mut Merging<R>,
) -> Result<(), NoKey>
    requires merging { IsMerging (R.graph rows.now) (R.places rows.now) R.answers merging.old }
    requires new { IsUnclassedIn (R.places rows.now) merging.old number }
    ensures refused { IfErr result (IsNoSpotKeyIn (R.graph rows.now) (R.places rows.now) merging.new) }
    ensures merging { OnLed result (IsMerging (R.graph rows.now) (R.places rows.now) R.answers merging.new) }
    ensures kept { OnLed result (Keeps (R.places rows.now) merging.old merging.new) }
{
    let visit = Visit {
        rows,
        own: None,
        depth: DEPTH,
    };
    visit_within(&visit, number, merging)
}

/// Returns the key of a spot in which each place has a class; places without one get one first.
pub fn spot_key<R: RowSource>(
    rows: &R,
    spot: R::Spot,
    merging: &mut Merging<R>,
) -> Result<Key, NoKey>
    requires read { (R.graph rows.now).can_read spot }
    requires merging { IsMerging (R.graph rows.now) (R.places rows.now) R.answers merging.old }
    ensures key { IfOk result (IsSpotKeyIn (R.graph rows.now) (R.places rows.now) merging.new None spot) }
    ensures refused { IfErr result (IsNoSpotKeyIn (R.graph rows.now) (R.places rows.now) merging.new) }
    ensures merging { OnLed result (IsMerging (R.graph rows.now) (R.places rows.now) R.answers merging.new) }
    ensures kept { OnLed result (Keeps (R.places rows.now) merging.old merging.new) }
{
    let visit = Visit {
        rows,
        own: None,
        depth: DEPTH,
    };
    key_of(&visit, spot, merging)
}
