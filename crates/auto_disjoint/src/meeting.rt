//! Two automata, whose nodes are read together.
ghost use Rattle.std.specs.Prelude.{◌≡◌, ◌≤◌, ◌<◌, ◌↔◌, ◌⊎◌, ◌∷◌, [], length, Some, IsTrue, IfOk};
ghost use Rattle.track_word.specs.Tracks.{with_vars};
ghost use Rattle.diagram_product.specs.Sided.{CanBePaired};
ghost use Rattle.diagram_product.specs.Shapes.{IsPairShape};
ghost use Rattle.auto_core.specs.Automaton.{first_state, next_state};
ghost use Rattle.auto_bool.specs.declared.connective.Connective.TheVariants.{And};
ghost use Rattle.auto_bool.specs.Both.{final_pair};
ghost use Rattle.auto_bool.specs.Sides.{IsSide};
ghost use Rattle.auto_bool.specs.Absorbed.{AreSinks};
ghost use Rattle.auto_disjoint.specs.Rows.{IsRowNode};

use auto_bool::{Connective, both_tracks, deciding_states, side};
use auto_core::Auto;
use diagram_product::{Absorbing, LentReader, PairShape, TwoSides};
use letter_diagram::{Diagrams, Node};
use limits::MOST_TRACKS;
use std::alloc::{AllocError, Global};
use track_word::Var;

/// Two automata, whose nodes are read in place over the tracks of both. A state that rejects every continuation is absorbing.
#[derive(Drop)]
pub(crate) struct Meeting<'a> {
    left: &'a Auto,
    right: &'a Auto,
    tracks: Vec<Var>,
    absorbing: Absorbing,
    sides: TwoSides<LentReader<'a>>,
    none: Diagrams,
    ghost tracks_are: { tracks.items ≡ with_vars left.now.tracks right.now.tracks },
    ghost left_side: { IsSide tracks.items left.now sides.left },
    ghost right_side: { IsSide tracks.items right.now sides.right },
    ghost absorbs: { sides.absorbing ≡ absorbing },
    ghost deciding_states: { AreSinks left.now right.now And absorbing },
}

impl<'a> Meeting<'a> {
    pub(crate) fn new(alloc: Global, left: &'a Auto, right: &'a Auto) -> Result<Self, AllocError>
        requires { length (with_vars left.now.tracks right.now.tracks) ≤ MOST_TRACKS }
        ensures left { IfOk result (λ m. m.left.now ≡ left.now) }
        ensures right { IfOk result (λ m. m.right.now ≡ right.now) }
    {
        let tracks = both_tracks(alloc, left.tracks(), right.tracks())?;
        let left_side = side(alloc, tracks.as_slice(), left)?;
        let right_side = side(alloc, tracks.as_slice(), right)?;
        let absorbing = deciding_states(left, right, Connective::And);
        Ok(Meeting {
            left,
            right,
            tracks,
            absorbing,
            sides: TwoSides::new(left_side, right_side, absorbing),
            none: Diagrams::new(alloc),
        })
    }

    /// Returns what two nodes test first.
    pub(crate) fn look(&self, nodes: (Node, Node)) -> PairShape
        requires { CanBePaired self.now.sides self.now.none nodes.0 nodes.1 }
        ensures { IsPairShape self.now.sides self.now.none nodes.0 nodes.1 result }
    {
        self.sides.look(&self.none, nodes.0, nodes.1)
    }

    /// Returns the nodes of the first rows.
    pub(crate) fn first(&self) -> (Node, Node)
        ensures left { IsRowNode self.now.left.now (first_state self.now.left.now) result.0 }
        ensures right { IsRowNode self.now.right.now (first_state self.now.right.now) result.1 }
    {
        (self.left.first_node(), self.right.first_node())
    }

    /// Returns the nodes of the rows of two states.
    pub(crate) fn rows(&self, left: u32, right: u32) -> (Node, Node)
        requires left { left < length self.now.left.now.accept }
        requires right { right < length self.now.right.now.accept }
        ensures left { IsRowNode self.now.left.now (next_state self.now.left.now left) result.0 }
        ensures right { IsRowNode self.now.right.now (next_state self.now.right.now right) result.1 }
    {
        (self.left.row_node(left), self.right.row_node(right))
    }

    /// Returns whether one of two states rejects every continuation.
    pub(crate) fn rejects(&self, left: u32, right: u32) -> bool
        ensures { IsTrue result ↔ ((self.now.absorbing.left ≡ Some left) ⊎ (self.now.absorbing.right ≡ Some right)) }
    {
        self.absorbing.left == Some(left) || self.absorbing.right == Some(right)
    }

    /// Returns whether both states accept.
    pub(crate) fn accept(&self, left: u32, right: u32) -> bool
        requires left { left < length self.now.left.now.accept }
        requires right { right < length self.now.right.now.accept }
        ensures { result ≡ final_pair self.now.left.now self.now.right.now And (left ∷ right ∷ []) }
    {
        self.left.accept_of(left) && self.right.accept_of(right)
    }
}
