//! The map of the pairs of values of two maps that are read in place.
ghost use Rattle.std.specs.Prelude.{◌≡◌, ◌<◌, ◌≤◌, ℕ, length, None, IfOk, IfSome, OnOk};
ghost use Rattle.letter_diagram.specs.Diagram.{Grows};
ghost use Rattle.letter_diagram.specs.Numbering.{PairsKept};
ghost use Rattle.diagram_product.specs.Sided.{together, AreReadPairs, pair_at, pair_top, IsReadSplit, CanBePaired, HasPairRoom, IsPairRoomKept, IsPaired, RemembersPaired};
ghost use Rattle.diagram_product.specs.Shapes.{IsPairTest, IsPairShape};

use crate::absorbing::{Absorbing, absorbs};
use crate::pairs::Pairs;
use crate::side::{Here, NodeReader, constant, split, top};
use letter_diagram::{Diagrams, Node, PairMemo};
use limits::MOST_TRACKS;
use std::alloc::AllocError;
use std::marker::Model;

/// Both maps at the bits 0 and 1 of the least track that one of them depends on.
#[derive(Clone, Copy)]
pub struct PairTest {
    pub track: u8,
    pub low: (Node, Node),
    pub high: (Node, Node),
}

/// What a node of each operand test first.
#[derive(Clone, Copy)]
pub enum PairShape {
    /// The absorbed pair of both values is known to be the same at each letter.
    Pair(u32, u32),
    Test(PairTest),
}

/// Both operands of a product, and their absorbing values.
#[derive(Drop)]
pub struct TwoSides<S: NodeReader> {
    pub(crate) left: S,
    pub(crate) right: S,
    pub(crate) absorbing: Absorbing,
}

impl<S: NodeReader> Model for TwoSides<S> {
    ghost use Rattle.diagram_product.specs.Sided.{Sides};

    ghost Value = { Sides };

    ghost view = { λ s. record { left = S.reading s.left; right = S.reading s.right; absorbing = s.absorbing } };
}

impl TwoSides<Here> {
    /// Returns two operands that are nodes of the `Diagrams` to which nodes are added.
    pub(crate) fn together(absorbing: Absorbing) -> Self
        ensures { result ≡ together absorbing }
    {
        TwoSides {
            left: Here,
            right: Here,
            absorbing,
        }
    }
}

impl<S: NodeReader> TwoSides<S> {
    /// Creates a pair of operands from two readers and their absorbing values.
    pub fn new(left: S, right: S, absorbing: Absorbing) -> Self
        ensures left { result.left ≡ S.reading left }
        ensures right { result.right ≡ S.reading right }
        ensures absorbing { result.absorbing ≡ absorbing }
    {
        TwoSides {
            left,
            right,
            absorbing,
        }
    }

    /// Returns what two nodes test first: the pair if it is known to be constant, and a test otherwise.
    pub fn look(&self, to: &Diagrams, a: Node, b: Node) -> PairShape
        requires { CanBePaired self.now to.now a b }
        ensures { IsPairShape self.now to.now a b result }
    {
        match self.one_pair(to, a, b) {
            Some((left, right)) => PairShape::Pair(left, right),
            None => PairShape::Test(self.test(to, a, b)),
        }
    }

    /// Returns the node in `to` of the map of the absorbed pairs; `memo` is a cache of pairs of nodes of these operands.
    #[cycle(paired)]
    pub(crate) fn paired(
        &self,
        a: Node,
        b: Node,
        to: &mut Diagrams,
        pairs: &mut Pairs,
        memo: &mut PairMemo,
    ) -> Result<Node, AllocError>
        requires read { CanBePaired self.now to.old a b }
        requires room { HasPairRoom self.now to.old pairs.old a b }
        requires remembered { RemembersPaired self.now to.old pairs.old memo.old }
        ensures paired { IfOk result (IsPaired self.now to.new pairs.new a b) }
        ensures remembered { OnOk result (RemembersPaired self.now to.new pairs.new memo.new) }
        ensures room { OnOk result (IsPairRoomKept self.now to.old pairs.old pairs.new a b) }
        ensures answers { OnOk result (AreReadPairs self.now to.old (length pairs.old) pairs.new a b) }
        ensures pairs { PairsKept pairs.old pairs.new }
        ensures grows { Grows to.old to.new }
    {
        if let Some(node) = memo.get(a, b) {
            return Ok(node);
        }
        let node = match self.one_pair(to, a, b) {
            Some((left, right)) => to.leaf(pairs.add(left, right)?)?,
            None => self.paired_sides(a, b, to, pairs, memo)?,
        };
        memo.insert(a, b, node)?;
        Ok(node)
    }

    /// Returns the absorbed pair of both values if it is known to be the same at each letter.
    fn one_pair(&self, to: &Diagrams, a: Node, b: Node) -> Option<(u32, u32)>
        requires { CanBePaired self.now to.now a b }
        ensures one { IfSome result (λ pair. (letter : ℕ) → pair_at self.now to.now a b letter ≡ pair) }
        ensures low { result ≡ None → pair_top self.now to.now a b < MOST_TRACKS }
        ensures small { pair_top self.now to.now a b ≤ MOST_TRACKS }
    {
        let left = constant(&self.left, to, a);
        let right = constant(&self.right, to, b);
        match (left, right) {
            (Some(left), Some(right)) => Some(self.absorbing.of(left, right)),
            (Some(value), None) if absorbs(self.absorbing.left, value) => {
                Some(self.absorbing.stand_in())
            }
            (None, Some(value)) if absorbs(self.absorbing.right, value) => {
                Some(self.absorbing.stand_in())
            }
            _ => None,
        }
    }

    #[cycle(paired)]
    fn paired_sides(
        &self,
        a: Node,
        b: Node,
        to: &mut Diagrams,
        pairs: &mut Pairs,
        memo: &mut PairMemo,
    ) -> Result<Node, AllocError>
        requires read { CanBePaired self.now to.old a b }
        requires low { pair_top self.now to.old a b < MOST_TRACKS }
        requires room { HasPairRoom self.now to.old pairs.old a b }
        requires remembered { RemembersPaired self.now to.old pairs.old memo.old }
        ensures paired { IfOk result (IsPaired self.now to.new pairs.new a b) }
        ensures remembered { OnOk result (RemembersPaired self.now to.new pairs.new memo.new) }
        ensures room { OnOk result (IsPairRoomKept self.now to.old pairs.old pairs.new a b) }
        ensures answers { OnOk result (AreReadPairs self.now to.old (length pairs.old) pairs.new a b) }
        ensures pairs { PairsKept pairs.old pairs.new }
        ensures grows { Grows to.old to.new }
    {
        let test = self.test(to, a, b);
        let low = self.paired(test.low.0, test.low.1, to, pairs, memo)?;
        let high = self.paired(test.high.0, test.high.1, to, pairs, memo)?;
        let node = to.node(test.track, low, high)?;
        Ok(node)
    }

    /// Returns both maps at the bits of the least track that one of them depends on.
    fn test(&self, to: &Diagrams, a: Node, b: Node) -> PairTest
        requires read { CanBePaired self.now to.now a b }
        requires low { pair_top self.now to.now a b < MOST_TRACKS }
        ensures { IsPairTest self.now to.now a b result }
    {
        let track = self.top(to, a, b);
        let (low, high) = self.split(to, a, b, track);
        PairTest { track, low, high }
    }

    /// Returns the least track that one of both maps depends on, or 20 if both are constant.
    fn top(&self, to: &Diagrams, a: Node, b: Node) -> u8
        requires { CanBePaired self.now to.now a b }
        ensures { result ≡ pair_top self.now to.now a b }
    {
        top(&self.left, to, a).min(top(&self.right, to, b))
    }

    /// Returns both maps at the bits 0 and 1 of a track.
    fn split(&self, to: &Diagrams, a: Node, b: Node, track: u8) -> ((Node, Node), (Node, Node))
        requires read { CanBePaired self.now to.now a b }
        requires track_low { track < MOST_TRACKS }
        requires below { track ≤ pair_top self.now to.now a b }
        ensures left { IsReadSplit self.now.left to.now a track result.0.0 result.1.0 }
        ensures right { IsReadSplit self.now.right to.now b track result.0.1 result.1.1 }
    {
        let (a_low, a_high) = split(&self.left, to, a, track);
        let (b_low, b_high) = split(&self.right, to, b, track);
        ((a_low, b_low), (a_high, b_high))
    }
}
