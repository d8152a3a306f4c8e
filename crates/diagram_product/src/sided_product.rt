//! Maps of pairs of two operands that are read in place, with a cache kept between calls.
ghost use Rattle.std.specs.Prelude.{◌≡◌, ◌<◌, ◌≤◌, ◌+◌, ◌^◌, [], length, Some, IfOk, OnOk};
ghost use Rattle.letter_diagram.specs.Diagram.{top_track, Grows};
ghost use Rattle.letter_diagram.specs.Numbering.{PairsKept};
ghost use Rattle.diagram_product.specs.Paired.{NumbersPairs};
ghost use Rattle.diagram_product.specs.Sided.{pair_top, CanBePaired};
ghost use Rattle.diagram_product.specs.Product.{read_pair_at, AddsReadPairs};

use crate::absorbing::Absorbing;
use crate::pairs::Pairs;
use crate::side::LentReader;
use crate::sides::TwoSides;
use letter_diagram::{Diagrams, Node, PairMemo};
use limits::MOST_TRACKS;
use std::alloc::{AllocError, Global};
use std::marker::Model;

/// Two operands, the nodes of maps of pairs of their values, and these pairs, for many calls of `apply`. Results that two calls
/// share are computed once, and no node of an operand is copied.
#[derive(Drop)]
pub struct SidedProduct<'a> {
    sides: TwoSides<LentReader<'a>>,
    diagrams: Diagrams,
    pairs: Pairs,
    memo: PairMemo,
}

impl<'a> Model for SidedProduct<'a> {
    ghost use Rattle.diagram_product.specs.Product.{SidedTables};
    ghost use Rattle.diagram_product.specs.Sided.{RemembersPaired};

    ghost Value = { SidedTables };

    ghost view = { λ p. record { sides = p.sides; shapes = p.diagrams; pairs = p.pairs } };

    ghost invariant = { λ p. RemembersPaired p.sides p.diagrams p.pairs p.memo };
}

impl<'a> SidedProduct<'a> {
    /// Creates a product without nodes over existing pairs. It has room for as many nodes and pairs of nodes as the larger operand
    /// has nodes. Errors: an allocation failed.
    pub fn new(
        alloc: Global,
        left: LentReader<'a>,
        right: LentReader<'a>,
        pairs: Pairs,
        absorbing: Absorbing,
    ) -> Result<Self, AllocError>
        ensures left { IfOk result (λ product. product.sides.left ≡ Some left.entry) }
        ensures right { IfOk result (λ product. product.sides.right ≡ Some right.entry) }
        ensures absorbing { IfOk result (λ product. product.sides.absorbing ≡ absorbing) }
        ensures shapes { IfOk result (λ product. product.shapes ≡ []) }
        ensures pairs { IfOk result (λ product. product.pairs ≡ pairs) }
    {
        let nodes = left.len().max(right.len());
        let diagrams = Diagrams::with_capacity(alloc, nodes)?;
        let memo = PairMemo::with_capacity(alloc, nodes)?;
        let sides = TwoSides {
            left,
            right,
            absorbing,
        };
        Ok(SidedProduct {
            sides,
            diagrams,
            pairs,
            memo,
        })
    }

    /// Returns the numbered pairs.
    pub fn pairs(&self) -> &Pairs
        ensures { result.now ≡ self.now.pairs }
    {
        &self.pairs
    }

    /// Returns the nodes of the maps that were computed.
    pub fn into_diagrams(self) -> Diagrams
        ensures { result ≡ self.entry.shapes }
    {
        self.diagrams
    }

    /// Returns the map from a letter to the number of the absorbed pair of the values of `a`, a node of the left operand, and `b`,
    /// a node of the right one. Otherwise it is as `Product::apply`.
    pub fn apply(&mut self, a: Node, b: Node) -> Result<Node, AllocError>
        requires read { CanBePaired self.old.sides self.old.shapes a b }
        requires room { length self.old.pairs < 2 ^ 31 }
        ensures known { IfOk result (λ node. node < length self.new.shapes) }
        ensures map { IfOk result (NumbersPairs self.new.shapes self.new.pairs (read_pair_at self.old a b)) }
        ensures top { IfOk result (λ r. pair_top self.old.sides self.old.shapes a b ≤ top_track self.new.shapes r) }
        ensures answers { OnOk result (AddsReadPairs self.old self.new.pairs a b) }
        ensures few { OnOk result (length self.new.pairs ≤ length self.old.pairs + 2 ^ MOST_TRACKS) }
        ensures pairs { PairsKept self.old.pairs self.new.pairs }
        ensures grows { Grows self.old.shapes self.new.shapes }
        ensures sides { self.new.sides ≡ self.old.sides }
    {
        match self
            .sides
            .paired(a, b, &mut self.diagrams, &mut self.pairs, &mut self.memo)
        {
            Ok(node) => Ok(node),
            Err(refused) => {
                self.memo.clear();
                Err(refused)
            }
        }
    }
}
