//! The rows of an automaton.
ghost use Rattle.std.specs.Prelude.{◌≡◌, ℕ, IfOk, IfSome};
ghost use Rattle.letter_diagram.specs.Diagram.{Grows};
ghost use Rattle.auto_merge.specs.Graph.{AddsKey, AnswersNothing, mark_of};
ghost use Rattle.auto_merge.specs.StateRows.{RemembersState};

use crate::rows::{Key, Look, RowSource};
use auto_core::Auto;
use auto_walk::Grown;
use letter_diagram::{Node, Shape};
use std::alloc::{AllocError, Global};
use track_word::Var;

/// The states of an automaton as places, and its nodes as spots.
#[derive(Drop)]
pub struct AutomatonRows<'a> {
    pub a: &'a Auto,
}

/// All states, numbered from the start by themselves.
#[derive(Drop)]
pub struct AllStates;

/// The key of a node. One that is not whole is valid in the row of one state only.
#[derive(Clone, Copy)]
struct NodeKey {
    node: Node,
    own: Option<u32>,
}

/// A cache of keys by the numbers of the nodes of one `Diagrams`: for each node its last key.
#[derive(Drop)]
pub struct NodeKeys {
    keys: Vec<Option<NodeKey>>,
}

impl<'a> RowSource for AutomatonRows<'a> {
    type Spot = Node;

    type Seen = AllStates;

    type Memo = NodeKeys;

    ghost use Rattle.std.specs.Prelude.{length};
    ghost use Rattle.auto_merge.specs.StateRows.{state_graph, places_of_states, RemembersState};

    ghost graph = { λ rows. state_graph rows.a.now };

    ghost places = { λ rows _. places_of_states (length rows.a.now.accept) };

    ghost answers = { λ memo. RemembersState memo.keys.items };

    fn tracks(&self) -> &[Var] {
        self.a.tracks()
    }

    fn new_seen(&self, _alloc: Global) -> Result<AllStates, AllocError> {
        let _ = self.a.tracks(); // for its invariant
        Ok(AllStates)
    }

    fn new_memo(&self, alloc: Global) -> Result<NodeKeys, AllocError> {
        Ok(NodeKeys {
            keys: vec![in alloc; None; self.a.diagrams().len()]?,
        })
    }

    fn nodes(&self) -> usize {
        self.a.diagrams().len()
    }

    fn count(&self, _seen: &AllStates) -> usize {
        self.a.states() as usize
    }

    fn first(&self) -> Node {
        self.a.first_node()
    }

    fn row(&self, _seen: &AllStates, number: u32) -> Node {
        self.a.row_node(number)
    }

    fn is_final(&self, _seen: &AllStates, number: u32) -> bool {
        self.a.accept_of(number)
    }

    #[inline(always)]
    fn look(&self, spot: Node, _seen: &mut AllStates) -> Result<Look<Node>, Grown> {
        Ok(match self.a.diagrams().shape(spot) {
            Shape::Leaf(state) => Look::Place(state),
            Shape::Test { track, low, high } => Look::Test { track, low, high },
        })
    }

    #[inline(always)]
    fn recall(&self, memo: &NodeKeys, spot: Node, own: Option<u32>) -> Option<Key> {
        let key = memo.keys.get(spot.number()).copied().flatten()?;
        if key.own.is_some() && key.own != own {
            return None;
        }
        Some(Key {
            node: key.node,
            whole: key.own.is_none(),
        })
    }

    #[inline(always)]
    fn remember(
        &self,
        memo: &mut NodeKeys,
        spot: Node,
        own: Option<u32>,
        key: &Key,
    ) -> Result<(), AllocError> {
        if let Some(place) = memo.keys.get_mut(spot.number()) {
            *place = Some(NodeKey {
                node: key.node,
                own: if key.whole { None } else { own },
            });
        }
        Ok(())
    }
}
