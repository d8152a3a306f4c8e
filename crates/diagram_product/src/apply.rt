//! The map of the pairs of two maps' values.
ghost use Rattle.std.specs.Prelude.{◌<◌, ◌≤◌, ◌+◌, ◌^◌, length, IfOk, OnOk};
ghost use Rattle.letter_diagram.specs.Diagram.{top_track, Grows};
ghost use Rattle.letter_diagram.specs.Numbering.{PairsKept};
ghost use Rattle.letter_diagram.specs.Splits.{top_of_both};
ghost use Rattle.diagram_product.specs.Paired.{NumbersPairs, both_at, AreAnswers};

use crate::absorbing::Absorbing;
use crate::pairs::Pairs;
use crate::sides::TwoSides;
use letter_diagram::{Diagrams, Node, PairMemo};
use limits::MOST_TRACKS;
use std::alloc::AllocError;

/// Returns the map from a letter to the number, in `pairs`, of the pair of the values of `a` and `b` (the apply operation of Bryant
/// 1986).
pub fn apply2(
    diagrams: &mut Diagrams,
    a: Node,
    b: Node,
    pairs: &mut Pairs,
) -> Result<Node, AllocError>
    requires a_known { a < length diagrams.old }
    requires b_known { b < length diagrams.old }
    requires room { length pairs.old < 2 ^ 31 }
    ensures known { IfOk result (λ node. node < length diagrams.new) }
    ensures map { IfOk result (NumbersPairs diagrams.new pairs.new (both_at diagrams.old a b)) }
    ensures top { IfOk result (λ node. top_of_both diagrams.old a b ≤ top_track diagrams.new node) }
    ensures answers { OnOk result (AreAnswers diagrams.old (length pairs.old) pairs.new a b) }
    ensures few { OnOk result (length pairs.new ≤ length pairs.old + 2 ^ MOST_TRACKS) }
    ensures pairs { PairsKept pairs.old pairs.new }
    ensures grows { Grows diagrams.old diagrams.new }
{
    let mut memo = PairMemo::new(diagrams.alloc());
    let sides = TwoSides::together(Absorbing::nothing());
    let node = sides.paired(a, b, diagrams, pairs, &mut memo)?;
    Ok(node)
}
