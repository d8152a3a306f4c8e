//! The values of a map, in the order of the letters.
ghost use Rattle.std.specs.Prelude.{◌≡◌, ◌<◌, ◌+◌, ◌^◌, length, IfOk, OnOk};
ghost use Rattle.std.specs.BTreeMap.{IsOrdered};
ghost use Rattle.std.specs.Map.{values_of};
ghost use Rattle.std.specs.Ordering.{nat_cmp};
ghost use Rattle.letter_diagram.specs.Least.{AreFirsts, Meets};
ghost use Rattle.letter_diagram.specs.Leaves.{AreLeaves};

use crate::diagrams::{Diagrams, Node, Shape};
use limits::MOST_TRACKS;
use std::alloc::{AllocError, Global};
use std::collections::BTreeMap;

/// Returns the values of a map of least letters to values, by ascending letter.
fn values_in_order(alloc: Global, firsts: &BTreeMap<u32, u32>) -> Result<Vec<u32>, AllocError>
    ensures values { IfOk result (λ values. values.items ≡ values_of firsts.now.entries) }
    ensures ordered { IsOrdered nat_cmp firsts.now }
{
    firsts.values().copied().collect(alloc)
}

/// Records that a node is visited at a letter; of several letters the least is kept.
fn meet(met: &mut BTreeMap<Node, u32>, node: Node, letter: u32) -> Result<(), AllocError>
    ensures { OnOk result (Meets met.old met.new node letter) }
{
    if let Some(earlier) = met.get(&node) {
        if *earlier <= letter {
            return Ok(());
        }
    }
    met.insert(node, letter)?;
    Ok(())
}

/// Returns a letter with the bit of `track` set, where `track` follows its other bits.
fn with_bit(letter: u32, track: u8) -> u32
    requires before { letter < 2 ^ track }
    requires track_low { track < MOST_TRACKS }
    ensures { result ≡ letter + 2 ^ track }
{
    letter + (1 << track)
}

impl Diagrams {
    /// Returns the distinct values of a node's map, ordered by the least letter of each. Costs the nodes reachable from `node`.
    pub fn leaves(&self, node: Node) -> Result<Vec<u32>, AllocError>
        requires { node < length self.now }
        ensures { IfOk result (λ values. AreLeaves self.now node values.items) }
    {
        let firsts = self.firsts(node)?;
        let leaves = values_in_order(self.alloc(), &firsts)?;
        Ok(leaves)
    }

    /// Returns each value of a node's map, keyed by its least letter. Visits nodes by descending number, so that each is visited
    /// after all its predecessors.
    fn firsts(&self, root: Node) -> Result<BTreeMap<u32, u32>, AllocError>
        requires { root < length self.now }
        ensures { IfOk result (λ firsts. AreFirsts self.now root firsts) }
    {
        let mut firsts = BTreeMap::new(self.alloc());
        let mut met = BTreeMap::new(self.alloc());
        met.insert(root, 0)?;
        while let Some((node, letter)) = met.pop_last() {
            match self.shape(node) {
                Shape::Leaf(value) => {
                    firsts.insert(letter, value)?;
                }
                Shape::Test { track, low, high } => {
                    meet(&mut met, low, letter)?;
                    meet(&mut met, high, with_bit(letter, track))?;
                }
            }
        }
        Ok(firsts)
    }
}
