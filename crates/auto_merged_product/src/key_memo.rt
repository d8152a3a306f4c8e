//! Keys of pairs of nodes.
ghost use Rattle.std.specs.Prelude.{◌≡◌, ◌<◌, ◌≤◌, ◌+◌, ◌*◌, length, IfOk, IfSome, OnOk};
ghost use Rattle.auto_merge.specs.Graph.{AddsKey, AnswersNothing, mark_of};
ghost use Rattle.auto_merged_product.specs.declared.key_memo.TheConstants.{FREE};
ghost use Rattle.auto_merged_product.specs.KeyMemo.{AnswersKey, AreTakenFrom, LearnsSlot, IsRowOf, IsKeyOfSlot};

use auto_merge::Key;
use letter_diagram::Node;
use letter_diagram::probing::{place, scatter, slots_for};
use std::alloc::{AllocError, Global};
use std::marker::Model;

/// The row of a free slot.
const FREE: u32 = 4_294_967_295;

/// The row of a whole key, which is valid in each row. No place has such a great number.
const EACH_ROW: u32 = 4_294_967_294;

/// A pair of nodes, its key's node, and the number of the place in whose row the key is valid.
#[derive(Clone, Copy)]
pub struct KeySlot {
    left: Node,
    right: Node,
    node: Node,
    row: u32,
}

impl KeySlot {
    /// Returns a free slot. Its nodes are arbitrary.
    fn free(any: Node) -> KeySlot
        ensures { result.row ≡ FREE }
    {
        KeySlot {
            left: any,
            right: any,
            node: any,
            row: FREE,
        }
    }

    /// Returns the key in the row of a place, or valid in each row.
    fn key(self, own: Option<u32>) -> Option<Key>
        ensures { IfSome result (IsKeyOfSlot self own) }
    {
        if self.row == EACH_ROW {
            return Some(Key {
                node: self.node,
                whole: true,
            });
        }
        if self.row < EACH_ROW && own == Some(self.row) {
            return Some(Key {
                node: self.node,
                whole: false,
            });
        }
        None
    }
}

/// Returns the row in which a key is valid, if a slot can store it.
fn row_of(key: &Key, own: Option<u32>) -> Option<u32>
    ensures { IfSome result (IsRowOf (mark_of key.now.whole own)) }
{
    if key.whole {
        return Some(EACH_ROW);
    }
    match own {
        Some(number) if number < EACH_ROW => Some(number),
        Some(_) => None,
        None => Some(EACH_ROW),
    }
}

/// Writes a pair of nodes into its slot, or into the first free one. Returns whether that slot was free.
fn put(slots: &mut [KeySlot], new: KeySlot) -> bool
    ensures { LearnsSlot slots.old slots.new new }
{
    let number = scatter(new.left.number(), new.right.number());
    for step in 0..slots.len() {
        let place = place(slots.len(), number, step);
        let is_free = slots[place].row == FREE;
        if is_free || (slots[place].left == new.left && slots[place].right == new.right) {
            slots[place] = new;
            return is_free;
        }
    }
    false
}

/// A cache of keys by pairs of nodes, as an open-addressing hash table: for each pair its last key. It is lossy: it never returns
/// the key of another pair or row, but a stored key may be missing.
#[derive(Drop)]
pub struct KeyMemo {
    slots: Vec<KeySlot>,
    taken: usize,
    ghost half_free: { 2 * taken ≤ length slots.items },
}

impl Model for KeyMemo {
    ghost use Rattle.std.specs.Prelude.{List};
    ghost use Rattle.auto_merged_product.specs.declared.key_memo.KeySlot.{KeySlot};

    ghost Value = { List KeySlot };

    ghost view = { λ m. m.slots.items };
}

impl KeyMemo {
    /// Returns an empty cache with room for `pairs` pairs. Free slots have the node `any`.
    pub fn with_capacity(alloc: Global, pairs: usize, any: Node) -> Result<Self, AllocError>
        ensures { IfOk result (λ memo. AnswersNothing (AnswersKey memo)) }
    {
        Ok(KeyMemo {
            slots: vec![in alloc; KeySlot::free(any); slots_for(pairs)?]?,
            taken: 0,
        })
    }

    /// Returns the key of a pair in the row of a place, or valid in each row, if there is one.
    pub fn get(&self, left: Node, right: Node, own: Option<u32>) -> Option<Key>
        ensures { IfSome result (λ key. AnswersKey self.now (mark_of key.whole own) (left, right) key.node) }
    {
        let number = scatter(left.number(), right.number());
        for step in 0..self.slots.len() {
            let slot = self.slots[place(self.slots.len(), number, step)];
            if slot.row == FREE {
                return None;
            }
            if slot.left == left && slot.right == right {
                return slot.key(own);
            }
        }
        None
    }

    /// Stores the key of a pair, for the row of a place or for each row. Drops it if the place's number is 2^32 - 2 or more.
    pub fn insert(
        &mut self,
        left: Node,
        right: Node,
        own: Option<u32>,
        key: &Key,
    ) -> Result<(), AllocError>
        ensures { AddsKey (AnswersKey self.old) (AnswersKey self.new) (mark_of key.now.whole own) (left, right) key.now.node }
    {
        if let Some(row) = row_of(key, own) {
            self.add(KeySlot {
                left,
                right,
                node: key.node,
                row,
            })?;
        }
        Ok(())
    }

    fn add(&mut self, new: KeySlot) -> Result<(), AllocError>
        ensures { LearnsSlot self.old self.new new }
    {
        let any = new.node;
        if self.taken == self.slots.len() / 2 {
            let slots = self.grown(any)?;
            self.slots = slots;
        }
        let is_new = put(&mut self.slots, new);
        self.taken += usize::from(is_new);
        Ok(())
    }

    /// Returns twice as many slots with the same keys. Free slots have the node `any`.
    fn grown(&self, any: Node) -> Result<Vec<KeySlot>, AllocError>
        ensures only { IfOk result (λ grown. AreTakenFrom self.now grown.items) }
        ensures more { IfOk result (λ grown. length self.now + 2 ≤ length grown.items) }
    {
        let size = slots_for(self.slots.len())?;
        let mut grown = vec![in *self.slots.allocator(); KeySlot::free(any); size]?;
        for slot in &self.slots {
            if slot.row != FREE {
                put(&mut grown, *slot);
            }
        }
        Ok(grown)
    }
}
