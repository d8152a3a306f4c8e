//! The keys of spots that are mapped to the classes of places, some of which have no class yet.
ghost use Rattle.std.specs.Prelude.{◌≡◌, IfErr, IfOk};
ghost use Rattle.letter_diagram.specs.Diagram.{Grows};
ghost use Rattle.auto_merge.specs.Keys.{class_in, IsLeafKey, IsLeafRefused, IsTestKey};

use crate::rows::{Key, RowSource};
use auto_walk::Grown;
use letter_diagram::{Diagrams, Node};
use std::alloc::AllocError;

/// The entry of a place without a class. No class is this great, since no automaton has so many states.
pub const NO_CLASS: u32 = 4_294_967_295;

/// Why a spot has no key.
#[derive(Drop)]
pub enum NoKey {
    /// It leads to the place with this number, which has no class.
    Unclassed(u32),
    /// Words reach more places than the limit.
    Over,
    Memory,
}

impl From<AllocError> for NoKey {
    ghost use Rattle.std.specs.Prelude.{◌≡◌};
    ghost use Rattle.auto_merge.specs.declared.keys.NoKey.TheVariants.{Memory};

    ghost from_gives = { λ _ e. e ≡ Memory };

    fn from(_refused: AllocError) -> NoKey {
        NoKey::Memory
    }
}

impl From<Grown> for NoKey {
    ghost use Rattle.std.specs.Prelude.{◌≡◌};
    ghost use Rattle.auto_merge.specs.Keys.{no_key_by};

    ghost from_gives = { λ grown e. e ≡ no_key_by grown };

    fn from(grown: Grown) -> NoKey {
        match grown {
            Grown::Over => NoKey::Over,
            Grown::Memory => NoKey::Memory,
        }
    }
}

/// The tables that grow as spots are mapped.
#[derive(Drop)]
pub struct Led<R: RowSource> {
    /// The numbered places.
    pub seen: R::Seen,
    /// The diagrams whose nodes are keys.
    pub to: Diagrams,
    pub memo: R::Memo,
}

/// Returns the class of a number, or `NO_CLASS` if the table is too short.
pub fn class_of(table: &[u32], number: u32) -> u32
    ensures { result ≡ class_in table.now number }
{
    table.get(number as usize).copied().unwrap_or(NO_CLASS)
}

/// Returns the key of a spot that leads to one place.
pub fn leaf_key(
    table: &[u32],
    number: u32,
    own: Option<u32>,
    to: &mut Diagrams,
) -> Result<Key, NoKey>
    ensures key { IfOk result (IsLeafKey to.new table.now number own) }
    ensures refused { IfErr result (IsLeafRefused table.now number) }
    ensures grows { Grows to.old to.new }
{
    let class = class_of(table, number);
    if class == NO_CLASS && own != Some(number) {
        return Err(NoKey::Unclassed(number));
    }
    let node = to.leaf(class)?;
    Ok(Key {
        node,
        whole: class != NO_CLASS,
    })
}

/// Returns the key of a test of two keys.
pub fn test_key(node: Node, low: &Key, high: &Key) -> Key
    ensures { IsTestKey node low.now high.now result }
{
    Key {
        node,
        whole: low.whole && high.whole,
    }
}
