//! A cache by pairs of nodes.
ghost use Rattle.std.specs.Prelude.{◌<◌, ◌≤◌, ◌+◌, ◌*◌, length, IfOk, IfSome};
ghost use Rattle.letter_diagram.specs.PairMemo.{Answers, AnswersNothing, AnswersOnly, LearnsPair};

use crate::diagrams::{NO_NODE, Node};
use crate::probing::{place, scatter, slots_for};
use std::alloc::{AllocError, Global};
use std::marker::Model;

/// A slot: a pair of nodes and its result. It is free if the left node is `NO_NODE`.
#[derive(Clone, Copy)]
pub struct PairSlot {
    left: Node,
    right: Node,
    answer: Node,
}

const FREE: PairSlot = PairSlot {
    left: NO_NODE,
    right: NO_NODE,
    answer: NO_NODE,
};

/// Writes a pair and its result into the first free slot of the pair's probe sequence.
fn put(slots: &mut [PairSlot], new: PairSlot)
    ensures { LearnsPair slots.old slots.new new.left new.right new.answer }
{
    let number = scatter(new.left.number(), new.right.number());
    for step in 0..slots.len() {
        let place = place(slots.len(), number, step);
        if slots[place].left == NO_NODE {
            slots[place] = new;
            return;
        }
    }
}

/// A cache from pairs of nodes to nodes, as an open-addressing hash table. It is lossy: it never returns the result of another
/// pair, but a stored result may be missing.
pub struct PairMemo {
    slots: Vec<PairSlot>,
    taken: usize,
    ghost half_free: { 2 * taken ≤ length slots.items },
}

impl Drop for PairMemo {
    /// Drops the slots. Written by hand, so that a function that drops a cache calls this instead of dropping each field.
    fn drop(self) {
        let PairMemo { slots: _, taken: _ } = self;
    }
}

impl Model for PairMemo {
    ghost use Rattle.std.specs.Prelude.{List};
    ghost use Rattle.letter_diagram.specs.declared.pair_memo.PairSlot.{PairSlot};

    ghost Value = { List PairSlot };

    ghost view = { λ m. m.slots.items };
}

impl PairMemo {
    /// Returns an empty cache.
    pub fn new(alloc: Global) -> Self
        ensures { AnswersNothing result }
    {
        PairMemo {
            slots: Vec::new(alloc),
            taken: 0,
        }
    }

    /// Returns an empty cache with room for `pairs` pairs.
    pub fn with_capacity(alloc: Global, pairs: usize) -> Result<Self, AllocError>
        ensures { IfOk result AnswersNothing }
    {
        Ok(PairMemo {
            slots: vec![in alloc; FREE; slots_for(pairs)?]?,
            taken: 0,
        })
    }

    /// Removes all results.
    pub fn clear(&mut self)
        ensures { AnswersNothing self.new }
    {
        self.slots.clear();
        self.taken = 0;
    }

    /// Returns the stored result for a pair, if there is one.
    pub fn get(&self, left: Node, right: Node) -> Option<Node>
        ensures { IfSome result (Answers self.now left right) }
    {
        let number = scatter(left.number(), right.number());
        for step in 0..self.slots.len() {
            let slot = self.slots[place(self.slots.len(), number, step)];
            if slot.left == NO_NODE {
                return None;
            }
            if slot.left == left && slot.right == right {
                return Some(slot.answer);
            }
        }
        None
    }

    /// Stores a result for a pair without one. A pair whose left node has the number 2^32 - 1 is not stored.
    pub fn insert(&mut self, left: Node, right: Node, answer: Node) -> Result<(), AllocError>
        ensures { LearnsPair self.old self.new left right answer }
    {
        if self.taken == self.slots.len() / 2 {
            let slots = self.grown()?;
            self.slots = slots;
        }
        let slot = PairSlot {
            left,
            right,
            answer,
        };
        put(&mut self.slots, slot);
        self.taken += 1;
        Ok(())
    }

    /// Returns twice as many slots with the same pairs and results.
    fn grown(&self) -> Result<Vec<PairSlot>, AllocError>
        ensures only { IfOk result (λ grown. AnswersOnly self.now grown.items) }
        ensures more { IfOk result (λ grown. length self.now + 2 ≤ length grown.items) }
    {
        let size = slots_for(self.slots.len())?;
        let mut grown = vec![in *self.slots.allocator(); FREE; size]?;
        for slot in &self.slots {
            if slot.left != NO_NODE {
                put(&mut grown, *slot);
            }
        }
        Ok(grown)
    }
}
