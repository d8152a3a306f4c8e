//! Maps of pairs over one table of nodes, with a cache kept between calls.
ghost use Rattle.std.specs.Prelude.{◌≡◌, ◌<◌, ◌≤◌, ◌+◌, ◌^◌, length, IfOk, OnOk};
ghost use Rattle.letter_diagram.specs.Diagram.{top_track, HasMap, chosen, Grows};
ghost use Rattle.letter_diagram.specs.Numbering.{PairsKept};
ghost use Rattle.letter_diagram.specs.Splits.{top_of_both};
ghost use Rattle.diagram_product.specs.Paired.{NumbersPairs};
ghost use Rattle.diagram_product.specs.Product.{absorbed_at, AddsAbsorbed};

use crate::absorbing::Absorbing;
use crate::pairs::Pairs;
use crate::sides::TwoSides;
use letter_diagram::{Diagrams, Node, PairMemo};
use limits::MOST_TRACKS;
use std::alloc::AllocError;
use std::marker::Model;

/// Diagrams and the numbered pairs of their values, for many calls of `apply`. Results that two calls share are computed once.
#[derive(Drop)]
pub struct Product {
    diagrams: Diagrams,
    pairs: Pairs,
    memo: PairMemo,
    absorbing: Absorbing,
}

impl Model for Product {
    ghost use Rattle.diagram_product.specs.Product.{ProductTables};
    ghost use Rattle.diagram_product.specs.Sided.{together, RemembersPaired};

    ghost Value = { ProductTables };

    ghost view = { λ p. record { shapes = p.diagrams; pairs = p.pairs; absorbing = p.absorbing } };

    ghost invariant = { λ p. RemembersPaired (together p.absorbing) p.diagrams p.pairs p.memo };
}

impl Product {
    /// Creates a product from existing nodes and pairs. The cache has room for as many pairs of nodes as there are nodes. Errors:
    /// an allocation failed.
    pub fn new(diagrams: Diagrams, pairs: Pairs, absorbing: Absorbing) -> Result<Self, AllocError>
        ensures shapes { IfOk result (λ product. product.shapes ≡ diagrams) }
        ensures pairs { IfOk result (λ product. product.pairs ≡ pairs) }
        ensures absorbing { IfOk result (λ product. product.absorbing ≡ absorbing) }
    {
        let memo = PairMemo::with_capacity(diagrams.alloc(), diagrams.len())?;
        Ok(Product {
            diagrams,
            pairs,
            memo,
            absorbing,
        })
    }

    /// Returns the nodes.
    pub fn diagrams(&self) -> &Diagrams
        ensures { result.now ≡ self.now.shapes }
    {
        &self.diagrams
    }

    /// Returns the numbered pairs.
    pub fn pairs(&self) -> &Pairs
        ensures { result.now ≡ self.now.pairs }
    {
        &self.pairs
    }

    /// Returns the nodes and the pairs.
    pub fn into_parts(self) -> (Diagrams, Pairs)
        ensures shapes { result.0 ≡ self.shapes }
        ensures pairs { result.1 ≡ self.pairs }
    {
        let Product {
            diagrams,
            pairs,
            memo: _,
            absorbing: _,
        } = self;
        (diagrams, pairs)
    }

    /// Returns the map from a letter to the number of the absorbed pair of both values; without absorbing values it is that of
    /// `Diagrams::apply2`.
    /// If one map is constantly an absorbing value, the other node is not visited. Pairs of nodes visited by earlier calls are not
    /// visited again.
    /// Errors: on an allocation failure the cache is cleared.
    pub fn apply(&mut self, a: Node, b: Node) -> Result<Node, AllocError>
        requires a_known { a < length self.old.shapes }
        requires b_known { b < length self.old.shapes }
        requires room { length self.old.pairs < 2 ^ 31 }
        ensures known { IfOk result (λ node. node < length self.new.shapes) }
        ensures map { IfOk result (NumbersPairs self.new.shapes self.new.pairs (absorbed_at self.old a b)) }
        ensures top { IfOk result (λ node. top_of_both self.old.shapes a b ≤ top_track self.new.shapes node) }
        ensures answers { OnOk result (AddsAbsorbed self.old self.new.pairs a b) }
        ensures few { OnOk result (length self.new.pairs ≤ length self.old.pairs + 2 ^ MOST_TRACKS) }
        ensures pairs { PairsKept self.old.pairs self.new.pairs }
        ensures grows { Grows self.old.shapes self.new.shapes }
        ensures absorbing { self.new.absorbing ≡ self.old.absorbing }
    {
        let sides = TwoSides::together(self.absorbing);
        match sides.paired(a, b, &mut self.diagrams, &mut self.pairs, &mut self.memo) {
            Ok(node) => Ok(node),
            Err(refused) => {
                self.memo.clear();
                Err(refused)
            }
        }
    }
}

impl Product {
    /// Applies `Diagrams::choose` to nodes of the product.
    pub fn choose(&mut self, track: u8, low: Node, high: Node) -> Result<Node, AllocError>
        requires track_low { track < MOST_TRACKS }
        requires low_known { low < length self.old.shapes }
        requires high_known { high < length self.old.shapes }
        ensures known { IfOk result (λ node. node < length self.new.shapes) }
        ensures map { IfOk result (HasMap self.new.shapes (chosen self.old.shapes track low high)) }
        ensures pairs { self.new.pairs ≡ self.old.pairs }
        ensures absorbing { self.new.absorbing ≡ self.old.absorbing }
        ensures grows { Grows self.old.shapes self.new.shapes }
    {
        let node = self.diagrams.choose(track, low, high)?;
        Ok(node)
    }
}
