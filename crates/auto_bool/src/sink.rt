//! Absorbing states.
ghost use Rattle.std.specs.Prelude.{◌<◌, ◌↔◌, length, IsTrue};
ghost use Rattle.auto_bool.specs.Absorbed.{IsSink, IsFirstSink, AreSinks, AreFirstSinks};

use crate::connective::Connective;
use auto_core::Auto;
use diagram_product::Absorbing;
use letter_diagram::Shape;

/// Returns for each operand its first absorbing state, if any, at which it decides the connective alone.
pub fn deciding_states(a: &Auto, b: &Auto, connective: Connective) -> Absorbing
    ensures deciding_states { AreSinks a.now b.now connective result }
    ensures first { AreFirstSinks a.now b.now connective result }
{
    Absorbing {
        left: sink(a, connective.left_deciding()),
        right: sink(b, connective.right_deciding()),
    }
}

/// Returns the first state with this flag whose row maps each letter to itself.
fn sink(a: &Auto, flag: bool) -> Option<u32>
    ensures { IsFirstSink a.now flag result }
{
    for state in 0..a.states() {
        if is_sink(a, flag, state) {
            return Some(state);
        }
    }
    None
}

fn is_sink(a: &Auto, flag: bool, state: u32) -> bool
    requires { state < length a.now.accept }
    ensures { IsTrue result ↔ IsSink a.now flag state }
{
    if a.accept_of(state) != flag {
        return false;
    }
    match a.diagrams().shape(a.row_node(state)) {
        Shape::Leaf(value) => value == state,
        Shape::Test { .. } => false,
    }
}
