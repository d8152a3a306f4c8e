//! The order in which places get their classes: depth first, the successors of a row before its place.
ghost use Rattle.std.specs.Prelude.{◌≡◌, ◌<◌, ◌≤◌, ◌+◌, Err, length, IfOk, OnOk, true, false};
ghost use Rattle.auto_walk.specs.Walker.{MoreThan};
ghost use Rattle.auto_walk.specs.Rows.{Extends};
ghost use Rattle.auto_merge.specs.Merging.{IsMerging, Keeps, IsUnclassedIn, IsClassedIn};
ghost use Rattle.auto_merge.specs.Walk.{IsTrail, IsRoomMade, IsEntered, IsTurned, IsTrailIn, steps_left_in};

use crate::keys::{NO_CLASS, NoKey, class_of};
use crate::merging::{Merging, assign_new_class};
use crate::rows::RowSource;
use crate::visits::classify_place;
use auto_walk::Grown;
use std::alloc::{AllocError, Global};

/// A depth-first traversal of place numbers: those on the stack, and those that were entered.
#[derive(Drop)]
pub struct Trail {
    numbers: Vec<u32>,
    /// Whether each number was entered; numbers after the end were not.
    entered: Vec<bool>,
}

/// Returns an empty traversal.
pub fn no_trail(alloc: Global) -> Trail
    ensures { IsTrail 0 result }
{
    Trail {
        numbers: Vec::new(alloc),
        entered: Vec::new(alloc),
    }
}

/// Extends the table to the numbers below `count`.
fn make_room(entered: &mut Vec<bool>, count: usize) -> Result<(), AllocError>
    ensures { OnOk result (IsRoomMade entered.old.items entered.new.items count) }
{
    if count > entered.len() {
        entered.resize(count, false)?;
    }
    Ok(())
}

/// Enters a number. Returns whether it is new.
fn enter(way: &mut Trail, number: u32) -> Result<bool, AllocError>
    ensures numbers { way.new.numbers ≡ way.old.numbers }
    ensures entered { IfOk result (IsEntered way.old.entered.items way.new.entered.items number) }
{
    make_room(&mut way.entered, number as usize + 1)?;
    let place = number as usize;
    let is_new = !way.entered[place];
    way.entered[place] = true;
    Ok(is_new)
}

/// Pushes a number, and another one that comes first, unless that one was entered. Returns whether that one is new.
fn turn_to(way: &mut Trail, number: u32, next: u32) -> Result<bool, AllocError>
    ensures { OnOk result (IsTurned number next way.old way.new) }
{
    if !enter(way, next)? {
        return Ok(false);
    }
    way.numbers.push(number)?;
    way.numbers.push(next)?;
    Ok(true)
}

/// Postpones a number whose row leads to an unclassified one: that one is classified first, then the row is mapped again. If that
/// one was entered before, the path is a cycle, and the number gets a class of its own.
fn put_off<R: RowSource>(
    rows: &R,
    number: u32,
    next: u32,
    merging: &mut Merging<R>,
    way: &mut Trail,
) -> Result<(), Grown>
    requires merging { IsMerging (R.graph rows.now) (R.places rows.now) R.answers merging.old }
    requires new { IsUnclassedIn (R.places rows.now) merging.old number }
    requires next { next < length (R.places rows.now merging.old.led.seen) }
    requires way { IsTrailIn (R.places rows.now) merging.old way.old }
    ensures merging { OnOk result (IsMerging (R.graph rows.now) (R.places rows.now) R.answers merging.new) }
    ensures kept { OnOk result (Keeps (R.places rows.now) merging.old merging.new) }
    ensures way { OnOk result (IsTrailIn (R.places rows.now) merging.new way.new) }
    ensures left { OnOk result (steps_left_in (R.graph rows.now) way.new ≤ steps_left_in (R.graph rows.now) way.old) }
    ensures memory { ¬ (result ≡ Err Grown.Over) }
{
    if turn_to(way, number, next)? {
        return Ok(());
    }
    assign_new_class(rows, number, merging)?;
    Ok(())
}

/// Assigns a class to a number, unless its row leads to an unclassified one that was not entered.
fn visit<R: RowSource>(
    rows: &R,
    number: u32,
    merging: &mut Merging<R>,
    way: &mut Trail,
) -> Result<(), Grown>
    requires merging { IsMerging (R.graph rows.now) (R.places rows.now) R.answers merging.old }
    requires within { number < length (R.places rows.now merging.old.led.seen) }
    requires way { IsTrailIn (R.places rows.now) merging.old way.old }
    ensures merging { OnOk result (IsMerging (R.graph rows.now) (R.places rows.now) R.answers merging.new) }
    ensures kept { OnOk result (Keeps (R.places rows.now) merging.old merging.new) }
    ensures way { OnOk result (IsTrailIn (R.places rows.now) merging.new way.new) }
    ensures left { OnOk result (steps_left_in (R.graph rows.now) way.new ≤ steps_left_in (R.graph rows.now) way.old) }
    ensures over { result ≡ Err Grown.Over → MoreThan (R.graph rows.now).walker (R.graph rows.now).most }
{
    if class_of(merging.table.as_slice(), number) != NO_CLASS {
        return Ok(());
    }
    match classify_place(rows, number, merging) {
        Ok(()) => Ok(()),
        Err(NoKey::Unclassed(next)) => {
            if class_of(merging.table.as_slice(), number) == NO_CLASS {
                put_off(rows, number, next, merging, way)?;
            }
            Ok(())
        }
        Err(NoKey::Over) => Err(Grown::Over),
        Err(NoKey::Memory) => Err(Grown::Memory),
    }
}

/// Assigns classes to the numbers on the stack and to those that they lead to.
fn follow<R: RowSource>(rows: &R, merging: &mut Merging<R>, way: &mut Trail) -> Result<(), Grown>
    requires merging { IsMerging (R.graph rows.now) (R.places rows.now) R.answers merging.old }
    requires way { IsTrailIn (R.places rows.now) merging.old way.old }
    ensures merging { OnOk result (IsMerging (R.graph rows.now) (R.places rows.now) R.answers merging.new) }
    ensures kept { OnOk result (Keeps (R.places rows.now) merging.old merging.new) }
    ensures way { OnOk result (IsTrailIn (R.places rows.now) merging.new way.new) }
    ensures over { result ≡ Err Grown.Over → MoreThan (R.graph rows.now).walker (R.graph rows.now).most }
{
    while let Some(number) = way.numbers.pop() {
        visit(rows, number, merging, way)?;
    }
    Ok(())
}

/// Starts a traversal at a number that was not entered.
fn start<R: RowSource>(
    rows: &R,
    number: u32,
    merging: &mut Merging<R>,
    way: &mut Trail,
) -> Result<(), Grown>
    requires merging { IsMerging (R.graph rows.now) (R.places rows.now) R.answers merging.old }
    requires within { number < length (R.places rows.now merging.old.led.seen) }
    requires way { IsTrailIn (R.places rows.now) merging.old way.old }
    ensures merging { OnOk result (IsMerging (R.graph rows.now) (R.places rows.now) R.answers merging.new) }
    ensures kept { OnOk result (Keeps (R.places rows.now) merging.old merging.new) }
    ensures way { OnOk result (IsTrailIn (R.places rows.now) merging.new way.new) }
    ensures over { result ≡ Err Grown.Over → MoreThan (R.graph rows.now).walker (R.graph rows.now).most }
{
    if !enter(way, number)? {
        return Ok(());
    }
    way.numbers.push(number)?;
    follow(rows, merging, way)
}

/// Assigns a class to a number, after those that its row leads to, except where a path leads back to it. Only the number of classes
/// depends on that order.
pub fn class_from<R: RowSource>(
    rows: &R,
    number: u32,
    merging: &mut Merging<R>,
    way: &mut Trail,
) -> Result<(), Grown>
    requires merging { IsMerging (R.graph rows.now) (R.places rows.now) R.answers merging.old }
    requires within { number < length (R.places rows.now merging.old.led.seen) }
    requires way { IsTrailIn (R.places rows.now) merging.old way.old }
    ensures merging { OnOk result (IsMerging (R.graph rows.now) (R.places rows.now) R.answers merging.new) }
    ensures kept { OnOk result (Keeps (R.places rows.now) merging.old merging.new) }
    ensures way { OnOk result (IsTrailIn (R.places rows.now) merging.new way.new) }
    ensures given { OnOk result (IsClassedIn merging.new number) }
    ensures over { result ≡ Err Grown.Over → MoreThan (R.graph rows.now).walker (R.graph rows.now).most }
{
    start(rows, number, merging, way)?;
    if class_of(merging.table.as_slice(), number) != NO_CLASS {
        return Ok(());
    }
    assign_new_class(rows, number, merging)?;
    Ok(())
}
