//! Whether a place may get the class of a place that its row leads to.
ghost use Rattle.std.specs.Prelude.{◌≡◌, ◌<◌, ◌≤◌, ℕ, None, length, IsTrue, IfSome};
ghost use Rattle.letter_diagram.specs.Diagram.{map_at};
ghost use Rattle.auto_merge.specs.declared.keys.TheConstants.{NO_CLASS};
ghost use Rattle.auto_merge.specs.Merging.{AgreesWith, LeadsToClass};

use crate::keys::NO_CLASS;
use letter_diagram::{Diagrams, Node, Shape};
use limits::MOST_TRACKS;

/// Returns whether the map of `key` equals that of `row`, except that `key` is `NO_CLASS` at letters where `row` has the class.
/// Returns false after `steps` steps.
pub fn agrees(shapes: &Diagrams, key: Node, row: Node, class: u32, steps: &mut u32) -> bool
    requires key_known { key < length shapes.now }
    requires row_known { row < length shapes.now }
    ensures agrees { IsTrue result → AgreesWith shapes.now key row class }
    ensures fewer { steps.new ≤ steps.old }
{
    if key == row {
        return true;
    }
    if *steps == 0 {
        return false;
    }
    *steps -= 1;
    let track = shapes.top(key).min(shapes.top(row));
    if track == MOST_TRACKS {
        return shapes.read(key, 0) == NO_CLASS && shapes.read(row, 0) == class;
    }
    let (key_low, key_high) = shapes.split(key, track);
    let (row_low, row_high) = shapes.split(row, track);
    if !agrees(shapes, key_low, row_low, class, steps) {
        return false;
    }
    agrees(shapes, key_high, row_high, class, steps)
}

/// Returns a class that a key maps to, if there is one.
pub fn first_class(shapes: &Diagrams, key: Node) -> Option<u32>
    requires { key < length shapes.now }
    ensures some { IfSome result (LeadsToClass shapes.now key) }
    ensures none { result ≡ None → (letter : ℕ) → map_at shapes.now key letter ≡ NO_CLASS }
{
    match shapes.shape(key) {
        Shape::Leaf(class) => { if class == NO_CLASS { None } else { Some(class) } }
        Shape::Test { low, high, .. } => match first_class(shapes, low) {
            Some(class) => Some(class),
            None => first_class(shapes, high),
        },
    }
}
