//! Laws of maps and their nodes. They are true of the nodes of each `Diagrams`: a test has two different branches, which are
//! earlier nodes; tracks ascend on each path; no two nodes have equal shapes.
ghost use Rattle.std.specs.Prelude.{List};
ghost use Rattle.letter_diagram.specs.declared.diagrams.Shape.{Shape};
ghost use Rattle.letter_diagram.specs.Diagram.{IsDiagram};
ghost use Rattle.letter_diagram.specs.Laws.{HasEachMapOnce, LookFromTheirTops, LookAtTheirTops};

/// States that two nodes are equal if and only if their maps are equal (canonicity, Bryant 1986).
pub fn equal_maps_are_equal_nodes()
    ensures { (shapes : List Shape) → IsDiagram shapes → HasEachMapOnce shapes }
{}

/// States that a map has equal values at two letters that agree on the tracks from its top track on.
pub fn a_map_looks_from_its_top_track()
    ensures { (shapes : List Shape) → IsDiagram shapes → LookFromTheirTops shapes }
{}

/// States that a map that is not constant depends on its top track.
pub fn a_map_looks_at_its_top_track()
    ensures { (shapes : List Shape) → IsDiagram shapes → LookAtTheirTops shapes }
{}
