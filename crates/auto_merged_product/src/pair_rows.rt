//! The rows of the pairs of states of two automata.
ghost use Rattle.std.specs.Prelude.{◌≡◌, ◌<◌, ◌≤◌, length, slice_get, Some, Err, IfOk, IfSome, Contains};
ghost use Rattle.limits.specs.Budget.{IsBudget};
ghost use Rattle.letter_diagram.specs.Numbering.{Numbers, PairsKept};
ghost use Rattle.auto_core.specs.Automaton.{IsAutomaton};
ghost use Rattle.track_word.specs.Tracks.{with_vars};
ghost use Rattle.auto_walk.specs.Walker.{AreTracks};
ghost use Rattle.auto_bool.specs.Sides.{IsSide};
ghost use Rattle.auto_bool.specs.Absorbed.{AreSinks};

use crate::key_memo::KeyMemo;
use auto_bool::{Connective, both_tracks, side};
use auto_core::Auto;
use auto_merge::{Key, Look, RowSource};
use auto_walk::Grown;
use diagram_product::{Absorbing, LentReader, PairShape, Pairs, TwoSides};
use letter_diagram::{Diagrams, Node};
use limits::{Budget, MOST_TRACKS};
use std::alloc::{AllocError, Global};
use track_word::Var;

/// Two automata, and the connective of their product.
#[derive(Drop)]
pub struct Factors<'a> {
    pub left: &'a Auto,
    pub right: &'a Auto,
    pub connective: Connective,
}

/// Pairs of states of two automata as places, and pairs of nodes as spots. One pair represents all pairs with an absorbing state.
/// Words may reach at most as many pairs as the budget.
#[derive(Drop)]
pub struct PairRows<'a> {
    factors: Factors<'a>,
    tracks: Vec<Var>,
    sides: TwoSides<LentReader<'a>>,
    /// Diagrams without nodes: both operands are read in place.
    none: Diagrams,
    budget: Budget,
    ghost are_tracks: { AreTracks tracks.items },
    ghost left_side: { IsSide tracks.items factors.left.now sides.left },
    ghost right_side: { IsSide tracks.items factors.right.now sides.right },
    ghost deciding_states: { AreSinks factors.left.now factors.right.now factors.connective sides.absorbing },
}

impl<'a> PairRows<'a> {
    /// Creates the rows of the pairs of states of two automata. Errors: an allocation failed.
    pub fn new(
        alloc: Global,
        factors: Factors<'a>,
        absorbing: Absorbing,
        budget: Budget,
    ) -> Result<Self, AllocError>
        requires tracks { length (with_vars factors.left.now.tracks factors.right.now.tracks) ≤ MOST_TRACKS }
        requires deciding_states { AreSinks factors.left.now factors.right.now factors.connective absorbing }
        ensures left { IfOk result (λ rows. rows.factors.left.now ≡ factors.entry.left.now) }
        ensures right { IfOk result (λ rows. rows.factors.right.now ≡ factors.entry.right.now) }
        ensures connective { IfOk result (λ rows. rows.factors.connective ≡ factors.entry.connective) }
        ensures tracks { IfOk result (λ rows. rows.tracks.items ≡ with_vars factors.entry.left.now.tracks factors.entry.right.now.tracks) }
        ensures absorbing { IfOk result (λ rows. rows.sides.absorbing ≡ absorbing) }
        ensures budget { IfOk result (λ rows. rows.budget ≡ budget) }
        ensures left_valid { IsAutomaton factors.entry.left.now }
        ensures right_valid { IsAutomaton factors.entry.right.now }
    {
        let tracks = both_tracks(alloc, factors.left.tracks(), factors.right.tracks())?;
        let left = side(alloc, tracks.as_slice(), factors.left)?;
        let right = side(alloc, tracks.as_slice(), factors.right)?;
        Ok(PairRows {
            factors,
            tracks,
            sides: TwoSides::new(left, right, absorbing),
            none: Diagrams::new(alloc),
            budget,
        })
    }
}

/// Returns the number of a pair, and adds it if it is new. Errors: `Over` if it would exceed the budget, `Memory` if an allocation
/// fails.
fn number_within(pairs: &mut Pairs, left: u32, right: u32, budget: Budget) -> Result<u32, Grown>
    requires { length pairs.old ≤ budget }
    ensures number { IfOk result (λ number. slice_get pairs.new number ≡ Some (left, right)) }
    ensures numbers { Numbers pairs.old pairs.new (left, right) }
    ensures kept { PairsKept pairs.old pairs.new }
    ensures room { length pairs.new ≤ budget }
    ensures full { result ≡ Err Grown.Over → length pairs.old ≡ budget }
    ensures new { result ≡ Err Grown.Over → ¬ Contains pairs.old (left, right) }
{
    if pairs.len() < budget.states() as usize {
        let number = pairs.add(left, right)?;
        return Ok(number);
    }
    match pairs.find(left, right) {
        Some(number) => Ok(number),
        None => Err(Grown::Over),
    }
}

impl<'a> RowSource for PairRows<'a> {
    type Spot = (Node, Node);

    type Seen = Pairs;

    type Memo = KeyMemo;

    ghost use Rattle.std.specs.Prelude.{map};
    ghost use Rattle.auto_bool.specs.Both.{place_of_pair};
    ghost use Rattle.auto_bool.specs.Absorbed.{absorbing_walker};
    ghost use Rattle.auto_merged_product.specs.PairGraph.{pair_graph};
    ghost use Rattle.auto_merged_product.specs.KeyMemo.{AnswersKey};

    ghost graph = { λ s.
        pair_graph s.sides s.none
        (absorbing_walker s.sides.absorbing s.tracks.items s.factors.left.now s.factors.right.now s.factors.connective) s.budget };

    ghost places = { λ _ pairs. map place_of_pair pairs };

    ghost answers = { AnswersKey };

    fn tracks(&self) -> &[Var] {
        self.tracks.as_slice()
    }

    fn new_seen(&self, alloc: Global) -> Result<Pairs, AllocError> {
        let _ = self.budget.states(); // for its invariant
        let states = self.factors.left.states().max(self.factors.right.states());
        let pairs = Pairs::with_capacity(alloc, states as usize)?;
        Ok(pairs)
    }

    fn new_memo(&self, alloc: Global) -> Result<KeyMemo, AllocError> {
        let memo = KeyMemo::with_capacity(alloc, self.nodes(), self.factors.left.first_node())?;
        Ok(memo)
    }

    fn nodes(&self) -> usize {
        let left = self.factors.left.diagrams();
        let right = self.factors.right.diagrams();
        left.len().max(right.len())
    }

    fn count(&self, seen: &Pairs) -> usize {
        seen.len()
    }

    fn first(&self) -> (Node, Node) {
        (
            self.factors.left.first_node(),
            self.factors.right.first_node(),
        )
    }

    fn row(&self, seen: &Pairs, number: u32) -> (Node, Node) {
        let (left, right) = seen.as_slice()[number as usize];
        (
            self.factors.left.row_node(left),
            self.factors.right.row_node(right),
        )
    }

    fn is_final(&self, seen: &Pairs, number: u32) -> bool {
        let (left, right) = seen.as_slice()[number as usize];
        self.factors.connective.of(
            self.factors.left.accept_of(left),
            self.factors.right.accept_of(right),
        )
    }

    #[inline(always)]
    fn look(&self, spot: (Node, Node), seen: &mut Pairs) -> Result<Look<(Node, Node)>, Grown> {
        match self.sides.look(&self.none, spot.0, spot.1) {
            PairShape::Pair(left, right) => {
                let number = number_within(seen, left, right, self.budget)?;
                Ok(Look::Place(number))
            }
            PairShape::Test(test) => Ok(Look::Test {
                track: test.track,
                low: test.low,
                high: test.high,
            }),
        }
    }

    #[inline(always)]
    fn recall(&self, memo: &KeyMemo, spot: (Node, Node), own: Option<u32>) -> Option<Key> {
        memo.get(spot.0, spot.1, own)
    }

    #[inline(always)]
    fn remember(
        &self,
        memo: &mut KeyMemo,
        spot: (Node, Node),
        own: Option<u32>,
        key: &Key,
    ) -> Result<(), AllocError> {
        memo.insert(spot.0, spot.1, own, key)?;
        Ok(())
    }
}
