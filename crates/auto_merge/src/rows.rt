//! The source of rows: spots map letters to places, as the nodes of an automaton map them to states.
ghost use Rattle.std.specs.Prelude.{◌≡◌, ◌<◌, List, ℕ, Option, length, IfOk, IfSome};
ghost use Rattle.auto_walk.specs.Walker.{AreTracks, MoreThan};
ghost use Rattle.auto_walk.specs.Rows.{Extends, IsFlagOf};
ghost use Rattle.auto_merge.specs.Graph.{Graph, AreSeen, IsLook, IsRowSpot, IsRowAt, AddsKey, AnswersNothing, mark_of};

use auto_walk::Grown;
use letter_diagram::Node;
use std::alloc::{AllocError, Global};
use track_word::Var;

/// What a spot tests first.
#[derive(Clone, Copy)]
pub enum Look<Spot> {
    /// It maps each letter to the place with this number.
    Place(u32),
    /// A track, and the spots at its bits 0 and 1.
    Test { track: u8, low: Spot, high: Spot },
}

/// A node that maps letters to classes, and to `NO_CLASS` where a row leads to its own place.
#[derive(Clone, Copy)]
pub struct Key {
    pub node: Node,
    /// Whether each value is a class.
    pub whole: bool,
}

/// The rows of places: a first row for sign letters, and a row for each place for further letters. A row is a spot, which maps
/// letters to places by the bits that it tests.
/// The tables that grow are separate: the numbered places, and the cache of keys. Contracts see a place as a list of numbers, such
/// as one state or a pair of states.
pub trait RowSource {
    /// A node, or a pair of nodes.
    type Spot: Copy;

    /// Places, numbered in the order of discovery.
    type Seen: Drop;

    /// A lossy cache of keys by spot.
    type Memo: Drop;

    ghost graph: { Self → Graph Self.Spot };

    ghost places: { Self → Self.Seen → List (List ℕ) };

    ghost answers: { Self.Memo → Option ℕ → Self.Spot → ℕ → Type 0 };

    /// Returns the tracks of the words in ascending order.
    fn tracks(&self) -> &[Var]
        ensures tracks { result.now ≡ (graph self.now).walker.tracks }
        ensures valid { AreTracks (graph self.now).walker.tracks };

    /// Returns the places that are numbered at the start. Errors: an allocation failed.
    fn new_seen(&self, alloc: Global) -> Result<Self::Seen, AllocError>
        ensures { IfOk result (λ seen. AreSeen (graph self.now) (places self.now seen)) };

    /// Returns an empty cache. Errors: an allocation failed.
    fn new_memo(&self, alloc: Global) -> Result<Self::Memo, AllocError>
        ensures { IfOk result (λ memo. AnswersNothing (answers memo)) };

    /// Estimates the number of nodes of the result, to reserve room; any number is correct.
    fn nodes(&self) -> usize;

    /// Returns the number of numbered places.
    fn count(&self, seen: &Self::Seen) -> usize
        ensures { result ≡ length (places self.now seen.now) };

    /// Returns the row of sign letters.
    fn first(&self) -> Self::Spot
        ensures { IsRowSpot (graph self.now) (graph self.now).walker.first result };

    /// Returns the row of a numbered place.
    fn row(&self, seen: &Self::Seen, number: u32) -> Self::Spot
        requires seen { AreSeen (graph self.now) (places self.now seen.now) }
        requires known { number < length (places self.now seen.now) }
        ensures { IsRowAt (graph self.now) (places self.now seen.now) number result };

    /// Returns whether a numbered place accepts.
    fn is_final(&self, seen: &Self::Seen, number: u32) -> bool
        requires seen { AreSeen (graph self.now) (places self.now seen.now) }
        requires known { number < length (places self.now seen.now) }
        ensures { IsFlagOf (graph self.now).walker (places self.now seen.now) number result };

    /// Returns what a spot tests first. Numbers a new place. Errors: `Over` if words reach more places than the limit, `Memory` if
    /// an allocation fails.
    fn look(&self, spot: Self::Spot, seen: &mut Self::Seen) -> Result<Look<Self::Spot>, Grown>
        requires read { (graph self.now).can_read spot }
        requires seen { AreSeen (graph self.now) (places self.now seen.old) }
        ensures look { IfOk result (IsLook (graph self.now) (places self.now seen.new) spot) }
        ensures seen { AreSeen (graph self.now) (places self.now seen.new) }
        ensures kept { Extends (places self.now seen.old) (places self.now seen.new) }
        ensures over { result ≡ Err Grown.Over → MoreThan (graph self.now).walker (graph self.now).most };

    /// Returns the cached key of a spot, in the row of a place or valid in each row.
    fn recall(&self, memo: &Self::Memo, spot: Self::Spot, own: Option<u32>) -> Option<Key>
        ensures { IfSome result (λ key. answers memo.now (mark_of key.whole own) spot key.node) };

    /// Stores a key, for each row if it is whole, and for the row of a place otherwise.
    fn remember(
        &self,
        memo: &mut Self::Memo,
        spot: Self::Spot,
        own: Option<u32>,
        key: &Key,
    ) -> Result<(), AllocError>
        ensures { AddsKey (answers memo.old) (answers memo.new) (mark_of key.now.whole own) spot key.now.node };
}
