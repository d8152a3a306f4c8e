//! Writes results.

ghost use Rattle.std.specs.Prelude.{◌<◌, length};

use crate::bench::Bench;
use letter_diagram::{Diagrams, Node};
use trial_rows::{Row, RowError};

/// Writes numbers separated by commas, or `-` if there are none.
pub fn write_numbers(row: &mut Row, numbers: &[u32]) {
    if numbers.is_empty() {
        row.write("-");
    }
    row.write_numbers(numbers, ',');
}

/// Writes the values of a node's map at the letters of the next field.
pub fn write_values(row: &mut Row, diagrams: &Diagrams, node: Node) -> Result<(), RowError>
    requires { node < length diagrams.now }
{
    let letters = row.numbers::<u32>()?;
    for (place, letter) in letters.as_slice().iter().enumerate() {
        row.separate(place, ',');
        row.write_number(diagrams.read(node, *letter));
    }
    Ok(())
}

/// Writes the number of a node, or `?` if no step has made it.
pub fn write_node(row: &mut Row, bench: &Bench, node: Node) {
    for (place, known) in bench.nodes.as_slice().iter().enumerate() {
        if *known == node {
            return row.write_number(place);
        }
    }
    row.write("?");
}
