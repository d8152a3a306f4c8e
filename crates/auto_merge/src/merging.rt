//! Classes that are assigned to places one by one.
ghost use Rattle.std.specs.Prelude.{◌≡◌, ◌↔◌, ◌<◌, ◌≤◌, ◌^◌, ◌++◌, ◌∷◌, [], ℕ, Err, length, IfErr, IfOk, IfSome, OnOk, IsTrue, true, false};
ghost use Rattle.auto_merge.specs.declared.keys.TheConstants.{NO_CLASS};
ghost use Rattle.auto_merge.specs.Keys.{class_in};
ghost use Rattle.auto_merge.specs.Merging.{IsRoomMade, IsClassGiven, IsClassOfKey, IsMerging, Keeps, IsUnclassedIn, IsClassedIn, IsKnownClassIn, IsRowKeyIn, IsOwnerRowIn, MayShareIn};

use crate::joining::{agrees, first_class};
use crate::keys::{Led, NO_CLASS, class_of};
use crate::rows::{Key, RowSource};
use letter_diagram::{Diagrams, Node};
use std::alloc::{AllocError, Global};

/// The maximum number of pairs of nodes compared before two places are taken to differ.
const MOST_STEPS: u32 = 1000;

/// The classes assigned so far, and the keys of rows.
#[derive(Drop)]
pub struct Merging<R: RowSource> {
    /// The class of each numbered place, or `NO_CLASS`; places after the end of the table have none.
    pub table: Vec<u32>,
    /// For each class, the number of its first place.
    pub owners: Vec<u32>,
    /// The class of each key of an accepting place's row, by the key's number, or `NO_CLASS`; keys after the end have none.
    keyed_final: Vec<u32>,
    /// The same for places that do not accept.
    keyed: Vec<u32>,
    /// Whether some place got a class of its own without a key. The contracts do not depend on it: if it is wrongly false,
    /// equivalent places may stay separate; if it is wrongly true, a minimization is done for nothing.
    pub has_own: bool,
    pub led: Led<R>,
    /// Whether each place is being visited; places after the end are not.
    pub visited: Vec<bool>,
}

/// Returns tables in which no place has a class.
pub fn no_classes<R: RowSource>(alloc: Global, rows: &R) -> Result<Merging<R>, AllocError>
    ensures { IfOk result (IsMerging (R.graph rows.now) (R.places rows.now) R.answers) }
{
    Ok(Merging {
        table: Vec::new(alloc),
        owners: Vec::new(alloc),
        keyed_final: Vec::new(alloc),
        keyed: Vec::new(alloc),
        has_own: false,
        led: Led {
            seen: rows.new_seen(alloc)?,
            to: Diagrams::with_capacity(alloc, rows.nodes())?,
            memo: rows.new_memo(alloc)?,
        },
        visited: Vec::new(alloc),
    })
}

/// Returns the diagrams whose nodes are the keys.
pub fn into_diagrams<R: RowSource>(merging: Merging<R>) -> Diagrams
    ensures { result ≡ merging.led.to }
{
    let Merging { led, .. } = merging;
    let Led { to, .. } = led;
    to
}

/// Extends the table to the numbers below `count`.
fn make_room(table: &mut Vec<u32>, count: usize) -> Result<(), AllocError>
    ensures same { (number : ℕ) → class_in table.new.items number ≡ class_in table.old.items number }
    ensures room { OnOk result (IsRoomMade table.old.items table.new.items count) }
{
    if count > table.len() {
        table.resize(count, NO_CLASS)?;
    }
    Ok(())
}

/// Assigns a class to a number.
fn give(table: &mut Vec<u32>, number: u32, class: u32) -> Result<(), AllocError>
    requires new { class_in table.old.items number ≡ NO_CLASS }
    requires class { class < 2 ^ 31 }
    ensures { OnOk result (IsClassGiven table.old.items table.new.items number class) }
{
    make_room(table, number as usize + 1)?;
    table[number as usize] = class;
    Ok(())
}

/// Creates a class whose first place has this number.
fn new_class(owners: &mut Vec<u32>, number: u32) -> Result<u32, AllocError>
    requires { length owners.old.items < 2 ^ 31 }
    ensures class { IfOk result (λ class. class ≡ length owners.old.items) }
    ensures owners { OnOk result (owners.new.items ≡ owners.old.items ++ number ∷ []) }
{
    let class = owners.len() as u32;
    owners.push(number)?;
    Ok(class)
}

/// Assigns a new class to a number.
pub fn assign_new_class<R: RowSource>(
    rows: &R,
    number: u32,
    merging: &mut Merging<R>,
) -> Result<(), AllocError>
    requires merging { IsMerging (R.graph rows.now) (R.places rows.now) R.answers merging.old }
    requires new { IsUnclassedIn (R.places rows.now) merging.old number }
    ensures merging { OnOk result (IsMerging (R.graph rows.now) (R.places rows.now) R.answers merging.new) }
    ensures kept { OnOk result (Keeps (R.places rows.now) merging.old merging.new) }
    ensures given { OnOk result (IsClassedIn merging.new number) }
{
    let _ = rows.count(&merging.led.seen);
    let class = new_class(&mut merging.owners, number)?;
    give(&mut merging.table, number, class)?;
    merging.has_own = true;
    Ok(())
}

/// Returns the class of a key, or a new one, whose first place has this number, if the key has none.
fn class_of_key(
    keyed: &mut Vec<u32>,
    key: Node,
    owners: &mut Vec<u32>,
    number: u32,
) -> Result<u32, AllocError>
    requires { length owners.old.items < 2 ^ 31 }
    ensures { IfOk result (IsClassOfKey keyed.old.items keyed.new.items owners.old.items owners.new.items key number) }
{
    let key = key.number() as u32;
    let class = class_of(keyed.as_slice(), key);
    if class != NO_CLASS {
        return Ok(class);
    }
    let class = new_class(owners, number)?;
    give(keyed, key, class)?;
    Ok(class)
}

/// Assigns to a number the class of its key, or a new one if the key is new.
fn give_by_key<R: RowSource>(
    rows: &R,
    number: u32,
    key: Node,
    merging: &mut Merging<R>,
) -> Result<(), AllocError>
    requires merging { IsMerging (R.graph rows.now) (R.places rows.now) R.answers merging.old }
    requires new { IsUnclassedIn (R.places rows.now) merging.old number }
    requires key { IsRowKeyIn (R.graph rows.now) (R.places rows.now) merging.old number key }
    ensures merging { OnOk result (IsMerging (R.graph rows.now) (R.places rows.now) R.answers merging.new) }
    ensures kept { OnOk result (Keeps (R.places rows.now) merging.old merging.new) }
    ensures given { OnOk result (IsClassedIn merging.new number) }
{
    if rows.is_final(&merging.led.seen, number) {
        let class = class_of_key(&mut merging.keyed_final, key, &mut merging.owners, number)?;
        give(&mut merging.table, number, class)?;
        return Ok(());
    }
    let class = class_of_key(&mut merging.keyed, key, &mut merging.owners, number)?;
    give(&mut merging.table, number, class)?;
    Ok(())
}

/// Returns the node that maps the row of a number to classes, if the cache says that each of its places has one.
fn whole_row<R: RowSource>(rows: &R, number: u32, merging: &Merging<R>) -> Option<Node>
    requires merging { IsMerging (R.graph rows.now) (R.places rows.now) R.answers merging.now }
    requires known { number < length (R.places rows.now merging.now.led.seen) }
    ensures { IfSome result (IsOwnerRowIn (R.graph rows.now) (R.places rows.now) merging.now number) }
{
    let spot = rows.row(&merging.led.seen, number);
    let key = rows.recall(&merging.led.memo, spot, None)?;
    Some(key.node)
}

/// Returns whether a number may get a class that its key maps to.
fn can_join<R: RowSource>(
    rows: &R,
    number: u32,
    key: &Key,
    class: u32,
    merging: &Merging<R>,
) -> bool
    requires merging { IsMerging (R.graph rows.now) (R.places rows.now) R.answers merging.now }
    requires key { IsRowKeyIn (R.graph rows.now) (R.places rows.now) merging.now number key.now.node }
    requires known { IsKnownClassIn merging.now class }
    ensures { IsTrue result → MayShareIn (R.graph rows.now) (R.places rows.now) merging.now number class }
{
    let owner = merging.owners[class as usize];
    if rows.is_final(&merging.led.seen, owner) != rows.is_final(&merging.led.seen, number) {
        return false;
    }
    let Some(row) = whole_row(rows, owner, merging) else {
        return false;
    };
    if key.whole {
        return key.node == row;
    }
    let mut steps = MOST_STEPS;
    agrees(&merging.led.to, key.node, row, class, &mut steps)
}

/// Assigns to a number the class of another number with the same row.
fn give_shared<R: RowSource>(
    rows: &R,
    number: u32,
    class: u32,
    merging: &mut Merging<R>,
) -> Result<(), AllocError>
    requires merging { IsMerging (R.graph rows.now) (R.places rows.now) R.answers merging.old }
    requires new { IsUnclassedIn (R.places rows.now) merging.old number }
    requires can { MayShareIn (R.graph rows.now) (R.places rows.now) merging.old number class }
    ensures merging { OnOk result (IsMerging (R.graph rows.now) (R.places rows.now) R.answers merging.new) }
    ensures kept { OnOk result (Keeps (R.places rows.now) merging.old merging.new) }
    ensures given { OnOk result (IsClassedIn merging.new number) }
{
    give(&mut merging.table, number, class)?;
    Ok(())
}

/// Assigns to a number a class that its key maps to, if it may have that of the first such class. Returns whether it may.
fn give_led<R: RowSource>(
    rows: &R,
    number: u32,
    key: &Key,
    merging: &mut Merging<R>,
) -> Result<bool, AllocError>
    requires merging { IsMerging (R.graph rows.now) (R.places rows.now) R.answers merging.old }
    requires new { IsUnclassedIn (R.places rows.now) merging.old number }
    requires key { IsRowKeyIn (R.graph rows.now) (R.places rows.now) merging.old number key.now.node }
    ensures merging { OnOk result (IsMerging (R.graph rows.now) (R.places rows.now) R.answers merging.new) }
    ensures kept { OnOk result (Keeps (R.places rows.now) merging.old merging.new) }
    ensures given { IfOk result (λ given. given ≡ true → IsClassedIn merging.new number) }
    ensures left { IfOk result (λ given. given ≡ false → IsUnclassedIn (R.places rows.now) merging.new number) }
{
    let Some(class) = first_class(&merging.led.to, key.node) else {
        return Ok(false);
    };
    if !can_join(rows, number, key, class, merging) {
        return Ok(false);
    }
    give_shared(rows, number, class, merging)?;
    Ok(true)
}

/// Assigns a class to a number whose row has a key: one that the row maps to, the class of the key, or a new one.
pub fn assign_class<R: RowSource>(
    rows: &R,
    number: u32,
    key: &Key,
    merging: &mut Merging<R>,
) -> Result<(), AllocError>
    requires merging { IsMerging (R.graph rows.now) (R.places rows.now) R.answers merging.old }
    requires new { IsUnclassedIn (R.places rows.now) merging.old number }
    requires key { IsRowKeyIn (R.graph rows.now) (R.places rows.now) merging.old number key.now.node }
    ensures merging { OnOk result (IsMerging (R.graph rows.now) (R.places rows.now) R.answers merging.new) }
    ensures kept { OnOk result (Keeps (R.places rows.now) merging.old merging.new) }
    ensures given { OnOk result (IsClassedIn merging.new number) }
{
    if give_led(rows, number, key, merging)? {
        return Ok(());
    }
    give_by_key(rows, number, key.node, merging)?;
    Ok(())
}
