//! Nodes, numbered in the order of their creation.
ghost use Rattle.std.specs.Prelude.{◌≡◌, ◌<◌, ◌≤◌, ◌^◌, [], List, ℕ, length, IfOk, IsTrue, ◌↔◌};
ghost use Rattle.letter_diagram.specs.Diagram.{map_at, top_track, HasMap, HaveOneMap, Grows, FitsBelow, IsAt, IsDiagram, HasChildren, chosen};
ghost use Rattle.letter_diagram.specs.Splits.{IsSplit};

use crate::shape_table::ShapeTable;
use limits::MOST_TRACKS;
use std::alloc::{AllocError, Global};
use std::marker::Model;

/// A node of a `Diagrams`. It denotes a map from letters to numbers.
#[derive(Clone, Copy, PartialEq, Eq, PartialOrd, Ord, Hash)]
pub struct Node(u32);

impl Model for Node {
    ghost use Rattle.std.specs.Prelude.{ℕ};

    ghost Value = { ℕ };

    ghost view = { λ n. n.0 };

    ghost inverse = { λ i. record { 0 = i } };
}

/// The entry of a free table slot: no node of a `Diagrams` has this number.
pub(crate) const NO_NODE: Node = Node(u32::MAX);

impl Node {
    /// Returns the number of the node, which is the number of nodes created before it.
    pub fn number(self) -> usize
        ensures { result ≡ self }
    {
        self.0 as usize
    }
}

/// What a node tests first.
#[derive(Clone, Copy, PartialEq, Eq)]
pub enum Shape {
    /// A leaf: the map is constant.
    Leaf(u32),
    /// A test: the least track that the map depends on, and its branches at the bits 0 and 1.
    Test { track: u8, low: Node, high: Node },
}

/// A shared, reduced, ordered decision diagram with numbers at its leaves (MTBDD; Bryant 1986): a map is one node, and equal maps
/// are the same node.
/// Contains at most 2^32 - 1 nodes; a further one is refused as an allocation failure.
pub struct Diagrams {
    shapes: ShapeTable,
}

impl Drop for Diagrams {
    /// Drops the nodes. Written by hand, so that a function that drops a `Diagrams` calls this instead of dropping each field.
    fn drop(self) {
        let Diagrams { shapes: _ } = self;
    }
}

impl Model for Diagrams {
    ghost use Rattle.std.specs.Prelude.{List};
    ghost use Rattle.letter_diagram.specs.declared.diagrams.Shape.{Shape};
    ghost use Rattle.letter_diagram.specs.Diagram.{IsDiagram};

    ghost Value = { List Shape };

    ghost view = { λ d. d.shapes };

    ghost invariant = { λ d. IsDiagram d.shapes };
}

impl Diagrams {
    /// Returns diagrams without nodes.
    pub fn new(alloc: Global) -> Self
        ensures { result ≡ [] }
    {
        Diagrams {
            shapes: ShapeTable::new(alloc),
        }
    }

    /// Returns diagrams without nodes, with room for `nodes` of them.
    pub fn with_capacity(alloc: Global, nodes: usize) -> Result<Self, AllocError>
        ensures { IfOk result (λ diagrams. diagrams ≡ []) }
    {
        Ok(Diagrams {
            shapes: ShapeTable::with_capacity(alloc, nodes)?,
        })
    }

    /// Returns the allocator of the nodes.
    pub fn alloc(&self) -> Global
        ensures diagram { IsDiagram self.now }
    {
        self.shapes.alloc()
    }

    /// Returns the number of nodes.
    pub fn len(&self) -> usize
        ensures { result ≡ length self.now }
    {
        self.shapes.as_slice().len()
    }

    /// Returns whether there are no nodes.
    pub fn is_empty(&self) -> bool
        ensures { IsTrue result ↔ (self.now ≡ []) }
    {
        self.shapes.as_slice().is_empty()
    }

    /// Copies all nodes; they keep their numbers and maps.
    pub fn copy(&self) -> Result<Diagrams, AllocError>
        ensures { IfOk result (λ copy. copy ≡ self.now) }
    {
        Ok(Diagrams {
            shapes: self.shapes.copy()?,
        })
    }

    /// Returns the node of a constant map, and adds it if it is new.
    pub fn leaf(&mut self, value: u32) -> Result<Node, AllocError>
        ensures known { IfOk result (λ node. node < length self.new) }
        ensures map { IfOk result (λ node. (letter : ℕ) → map_at self.new node letter ≡ value) }
        ensures top { IfOk result (λ node. top_track self.new node ≡ MOST_TRACKS) }
        ensures grows { Grows self.old self.new }
    {
        self.insert(Shape::Leaf(value))
    }

    /// Returns the node of the map that is `low` at the letters whose bit on `track` is 0, and `high` at the others, and adds it if
    /// it is new. Returns `low` if both are the same node.
    pub fn node(&mut self, track: u8, low: Node, high: Node) -> Result<Node, AllocError>
        requires track_low { track < MOST_TRACKS }
        requires low_known { low < length self.old }
        requires high_known { high < length self.old }
        requires low_above { track < top_track self.old low }
        requires high_above { track < top_track self.old high }
        ensures known { IfOk result (λ node. node < length self.new) }
        ensures map { IfOk result (HasMap self.new (chosen self.old track low high)) }
        ensures top { IfOk result (λ node. track ≤ top_track self.new node) }
        ensures grows { Grows self.old self.new }
    {
        if low == high {
            return Ok(low);
        }
        self.insert(Shape::Test { track, low, high })
    }

    /// Returns what a node tests first.
    pub fn shape(&self, node: Node) -> Shape
        requires { node < length self.now }
        ensures at { IsAt self.now node result }
        ensures fits { FitsBelow self.now node result }
        ensures children { HasChildren self.now node result }
        ensures diagram { IsDiagram self.now }
    {
        self.shapes.as_slice()[node.number()]
    }

    /// Returns the value of a node's map at a letter. Costs at most one step per track.
    pub fn read(&self, node: Node, letter: u32) -> u32
        requires { node < length self.now }
        ensures { result ≡ map_at self.now node letter }
    {
        match self.shape(node) {
            Shape::Leaf(value) => value,
            Shape::Test { track, low, high } => {
                let next = if (letter >> track) & 1 == 0 {
                    low
                } else {
                    high
                };
                self.read(next, letter)
            }
        }
    }

    /// Returns the least track that the node's map depends on, or 20 if the map is constant.
    pub fn top(&self, node: Node) -> u8
        requires { node < length self.now }
        ensures top { result ≡ top_track self.now node }
        ensures small { result ≤ MOST_TRACKS }
        ensures diagram { IsDiagram self.now }
        ensures constant { result ≡ MOST_TRACKS → (letter : ℕ) → map_at self.now node letter ≡ map_at self.now node 0 }
    {
        match self.shape(node) {
            Shape::Leaf(_) => MOST_TRACKS,
            Shape::Test { track, .. } => track,
        }
    }

    /// Returns the node's maps at the bits 0 and 1 of a track that is at or before its top track.
    pub fn split(&self, node: Node, track: u8) -> (Node, Node)
        requires known { node < length self.now }
        requires track_low { track < MOST_TRACKS }
        requires below { track ≤ top_track self.now node }
        ensures sides { IsSplit self.now node track result.0 result.1 }
        ensures diagram { IsDiagram self.now }
    {
        let _ = &self.shapes; // for its invariant
        match self.shape(node) {
            Shape::Test {
                track: own,
                low,
                high,
            } if own == track => (low, high),
            _ => (node, node),
        }
    }

    /// Returns whether two nodes have equal maps, that is, whether they are the same node.
    pub fn same_map(&self, a: Node, b: Node) -> bool
        requires a_known { a < length self.now }
        requires b_known { b < length self.now }
        ensures equal { IsTrue result ↔ (a ≡ b) }
        ensures map { IsTrue result ↔ HaveOneMap self.now a b }
    {
        let _ = &self.shapes; // for its invariant
        a == b
    }

    fn insert(&mut self, shape: Shape) -> Result<Node, AllocError>
        requires { FitsBelow self.old (length self.old) shape }
        ensures at { IfOk result (λ node. IsAt self.new node shape) }
        ensures grows { Grows self.old self.new }
    {
        let number = self.shapes.number(shape)?;
        Ok(Node(number))
    }
}
