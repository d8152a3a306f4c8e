//! The walk over the pairs of states of two automata.
ghost use Rattle.std.specs.Prelude.{◌≡◌, ◌<◌, ◌≤◌, [], length, IfOk};
ghost use Rattle.auto_core.specs.Automaton.{IsAutomaton};
ghost use Rattle.track_word.specs.Tracks.{with_vars};
ghost use Rattle.auto_walk.specs.Walker.{AreTracks};
ghost use Rattle.auto_bool.specs.Sides.{IsSide};
ghost use Rattle.auto_bool.specs.Absorbed.{AreSinks};

use crate::connective::Connective;
use crate::one_side::side;
use auto_core::Auto;
use auto_walk::Walk;
use diagram_product::{Absorbing, Pairs, SidedProduct};
use letter_diagram::{Diagrams, Node};
use limits::MOST_TRACKS;
use std::alloc::{AllocError, Global};
use track_word::{Var, insert_tracks};

/// Returns the tracks of both lists in ascending order; `right` is ascending. Errors: an allocation failed.
pub fn both_tracks(alloc: Global, left: &[Var], right: &[Var]) -> Result<Vec<Var>, AllocError>
    ensures { IfOk result (λ tracks. tracks.items ≡ with_vars left.now right.now) }
{
    let mut tracks = right.to_vec(alloc)?;
    insert_tracks(&mut tracks, left)?;
    Ok(tracks)
}

/// Two automata, whose rows are read over the tracks of both. The places are pairs of states; one pair represents all pairs with an
/// absorbing state.
#[derive(Drop)]
pub struct Both<'a> {
    left: &'a Auto,
    right: &'a Auto,
    tracks: Vec<Var>,
    connective: Connective,
    product: SidedProduct<'a>,
    ghost are_tracks: { AreTracks tracks.items },
    ghost left_side: { IsSide tracks.items left.now product.sides.left },
    ghost right_side: { IsSide tracks.items right.now product.sides.right },
    ghost deciding_states: { AreSinks left.now right.now connective product.sides.absorbing },
}

impl<'a> Both<'a> {
    /// Creates the walk over the pairs of states of two automata. Errors: an allocation failed.
    pub fn new(
        alloc: Global,
        left: &'a Auto,
        right: &'a Auto,
        connective: Connective,
        absorbing: Absorbing,
    ) -> Result<Self, AllocError>
        requires tracks { length (with_vars left.now.tracks right.now.tracks) ≤ MOST_TRACKS }
        requires deciding_states { AreSinks left.now right.now connective absorbing }
        ensures left { IfOk result (λ both. both.left.now ≡ left.now) }
        ensures right { IfOk result (λ both. both.right.now ≡ right.now) }
        ensures connective { IfOk result (λ both. both.connective ≡ connective) }
        ensures tracks { IfOk result (λ both. both.tracks.items ≡ with_vars left.now.tracks right.now.tracks) }
        ensures absorbing { IfOk result (λ both. both.product.sides.absorbing ≡ absorbing) }
        ensures fresh { IfOk result (λ both. both.product.pairs ≡ []) }
        ensures left_valid { IsAutomaton left.now }
        ensures right_valid { IsAutomaton right.now }
    {
        let tracks = both_tracks(alloc, left.tracks(), right.tracks())?;
        let left_side = side(alloc, tracks.as_slice(), left)?;
        let right_side = side(alloc, tracks.as_slice(), right)?;
        let pairs = Pairs::with_capacity(alloc, left.states().max(right.states()) as usize)?;
        let product = SidedProduct::new(alloc, left_side, right_side, pairs, absorbing)?;
        Ok(Both {
            left,
            right,
            tracks,
            connective,
            product,
        })
    }
}

impl<'a> Walk for Both<'a> {
    ghost use Rattle.std.specs.Prelude.{map};
    ghost use Rattle.auto_bool.specs.Both.{place_of_pair};
    ghost use Rattle.auto_bool.specs.Absorbed.{absorbing_walker};

    ghost walker = { λ s.
        absorbing_walker s.product.sides.absorbing s.tracks.items s.left.now s.right.now s.connective };

    ghost places = { λ s. map place_of_pair s.product.pairs };

    ghost shapes = { λ s. s.product.shapes };

    fn tracks(&self) -> &[Var] {
        self.tracks.as_slice()
    }

    fn count(&self) -> usize {
        self.product.pairs().len()
    }

    fn first_row(&mut self) -> Result<Node, AllocError> {
        let node = self
            .product
            .apply(self.left.first_node(), self.right.first_node())?;
        let _ = self.product.pairs().len(); // for its invariant
        Ok(node)
    }

    fn next_row(&mut self, number: u32) -> Result<Node, AllocError> {
        let (left, right) = self.product.pairs().as_slice()[number as usize];
        let node = self
            .product
            .apply(self.left.row_node(left), self.right.row_node(right))?;
        let _ = self.product.pairs().len(); // for its invariant
        Ok(node)
    }

    fn is_final(&self, number: u32) -> bool {
        let (left, right) = self.product.pairs().as_slice()[number as usize];
        self.connective
            .of(self.left.accept_of(left), self.right.accept_of(right))
    }

    fn into_diagrams(self) -> Diagrams {
        self.product.into_diagrams()
    }
}
