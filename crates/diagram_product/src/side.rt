//! One operand of a product: how its nodes are read.
ghost use Rattle.std.specs.Prelude.{◌≡◌, ◌<◌, ◌≤◌, ℕ, length, None, All, IfSome};
ghost use Rattle.std.specs.List.Sorted.{IsStrictlyIncreasing};
ghost use Rattle.limits.specs.declared.numbers.TheConstants.{MOST_TRACKS};
ghost use Rattle.diagram_product.specs.Sided.{Reading, CanBeRead, IsRead, IsReadSplit, LooksFrom, read_at, read_top};

use letter_diagram::{Diagrams, Node, Shape};
use limits::MOST_TRACKS;
use std::marker::Model;

/// A way to read nodes: those of another `Diagrams`, or those of the one to which nodes are added, which is `to`.
pub trait NodeReader: Drop {
    ghost reading: { Self → Reading };

    /// Returns what a node tests first, with the track from which the tested track takes its bit.
    fn shape(&self, to: &Diagrams, node: Node) -> Shape
        requires { CanBeRead (reading self.now) to.now node }
        ensures read { IsRead (reading self.now) to.now node result }
        ensures from { LooksFrom (read_at (reading self.now) to.now node) (read_top (reading self.now) to.now node) };
}

/// Reads nodes of the `Diagrams` to which nodes are added, unchanged.
#[derive(Drop)]
pub struct Here;

impl NodeReader for Here {
    ghost reading = { λ _. None };

    fn shape(&self, to: &Diagrams, node: Node) -> Shape {
        to.shape(node)
    }
}

/// Reads nodes of another `Diagrams`; each track takes its bit from the same track or a later one.
#[derive(Drop)]
pub struct LentReader<'a> {
    from: &'a Diagrams,
    tracks: Vec<u8>,
    ghost ascending: { IsStrictlyIncreasing tracks.items },
    ghost low: { All (λ track. track < MOST_TRACKS) tracks.items },
}

impl<'a> Model for LentReader<'a> {
    ghost use Rattle.diagram_product.specs.Sided.{LentNodes};

    ghost Value = { LentNodes };

    ghost view = { λ s. record { shapes = s.from.now; tracks = s.tracks.items } };
}

impl<'a> LentReader<'a> {
    /// Creates a reader of `from` in which track t takes its bit from `tracks[t]`.
    pub fn new(from: &'a Diagrams, tracks: Vec<u8>) -> Self
        requires ascending { IsStrictlyIncreasing tracks.items }
        requires low { All (λ track. track < MOST_TRACKS) tracks.items }
        ensures shapes { result.shapes ≡ from.now }
        ensures tracks { result.tracks ≡ tracks.items }
    {
        LentReader { from, tracks }
    }

    /// Returns the number of nodes of the other `Diagrams`.
    pub fn len(&self) -> usize
        ensures { result ≡ length self.now.shapes }
    {
        self.from.len()
    }
}

impl<'a> NodeReader for LentReader<'a> {
    ghost use Rattle.std.specs.Prelude.{Some};

    ghost reading = { λ s. Some s };

    fn shape(&self, _to: &Diagrams, node: Node) -> Shape {
        match self.from.shape(node) {
            Shape::Leaf(value) => Shape::Leaf(value),
            Shape::Test { track, low, high } => Shape::Test {
                track: self.tracks[track as usize],
                low,
                high,
            },
        }
    }
}

/// Returns the value of a map if it is constant.
pub(crate) fn constant<S: NodeReader>(side: &S, to: &Diagrams, node: Node) -> Option<u32>
    requires { CanBeRead (S.reading side.now) to.now node }
    ensures constant { IfSome result
        (λ value. (letter : ℕ) → read_at (S.reading side.now) to.now node letter ≡ value) }
    ensures low { result ≡ None → read_top (S.reading side.now) to.now node < MOST_TRACKS }
    ensures small { read_top (S.reading side.now) to.now node ≤ MOST_TRACKS }
{
    match side.shape(to, node) {
        Shape::Leaf(value) => Some(value),
        Shape::Test { .. } => None,
    }
}

/// Returns the least track that a map depends on, or 20 if it is constant.
pub(crate) fn top<S: NodeReader>(side: &S, to: &Diagrams, node: Node) -> u8
    requires { CanBeRead (S.reading side.now) to.now node }
    ensures { result ≡ read_top (S.reading side.now) to.now node }
{
    match side.shape(to, node) {
        Shape::Leaf(_) => MOST_TRACKS,
        Shape::Test { track, .. } => track,
    }
}

/// Returns the maps at the bits 0 and 1 of a track.
pub(crate) fn split<S: NodeReader>(side: &S, to: &Diagrams, node: Node, track: u8) -> (Node, Node)
    requires read { CanBeRead (S.reading side.now) to.now node }
    requires track_low { track < MOST_TRACKS }
    requires below { track ≤ read_top (S.reading side.now) to.now node }
    ensures { IsReadSplit (S.reading side.now) to.now node track result.0 result.1 }
{
    match side.shape(to, node) {
        Shape::Test {
            track: own,
            low,
            high,
        } if own == track => (low, high),
        _ => (node, node),
    }
}
