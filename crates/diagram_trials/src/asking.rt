//! Steps that query nodes and numbers.

ghost use Rattle.std.specs.Prelude.{◌<◌, IsTrue, IfOk, length};
ghost use Rattle.std.specs.List.Sorted.{IsStrictlyIncreasing};

use crate::bench::Bench;
use crate::writing::{write_node, write_numbers, write_values};
use letter_diagram::{Diagrams, Node, NumberingError, Shape};
use trial_rows::{Row, RowError};

/// Performs a step that queries, and writes its result.
pub fn ask(bench: &mut Bench, word: &str, row: &mut Row) -> Result<(), RowError> {
    match word {
        "empty" => empty(bench, row),
        "set" => return set(bench, row),
        "same" => return same(bench, row),
        _ => {
            let node = bench.node(row)?;
            return ask_node(bench, node, word, row);
        }
    }
    Ok(())
}

/// Performs a step that queries a node, and writes its result.
fn ask_node(bench: &Bench, node: Node, word: &str, row: &mut Row) -> Result<(), RowError>
    requires { node < length bench.now.diagrams }
{
    match word {
        "read" => write_values(row, &bench.diagrams, node),
        "copied" => copied(bench, node, row),
        "brought" => brought(bench, node, row),
        "shape" => shape(bench, node, row),
        "leaves" => leaves(bench, node, row),
        "elements" => elements(bench, node, row),
        "pair" => pair(bench, node, row),
        _ => Err(RowError::Word),
    }
}

/// `copied NODE LETTERS`: the values of the same node's map in a copy of the diagrams.
fn copied(bench: &Bench, node: Node, row: &mut Row) -> Result<(), RowError>
    requires { node < length bench.now.diagrams }
{
    let copy = bench.diagrams.copy()?;
    write_values(row, &copy, node)
}

/// The node, as it is brought into new diagrams.
fn brought_node(others: &mut Diagrams, diagrams: &Diagrams, node: Node) -> Result<Node, RowError>
    requires { node < length diagrams.now }
    ensures { IfOk result (λ brought. brought < length others.new) }
{
    let nodes = others.bring(diagrams, &[node])?;
    match nodes.first() {
        Some(brought) if brought.number() < others.len() => Ok(*brought),
        _ => Err(RowError::Condition),
    }
}

/// `brought NODE LETTERS`: the values of the map of the node that is brought into new diagrams.
fn brought(bench: &Bench, node: Node, row: &mut Row) -> Result<(), RowError>
    requires { node < length bench.now.diagrams }
{
    let mut others = Diagrams::new(row.alloc);
    let brought = brought_node(&mut others, &bench.diagrams, node)?;
    write_values(row, &others, brought)
}

/// `shape NODE`: what the node looks at first.
fn shape(bench: &Bench, node: Node, row: &mut Row) -> Result<(), RowError>
    requires { node < length bench.now.diagrams }
{
    match bench.diagrams.shape(node) {
        Shape::Leaf(value) => row.write_labelled("leaf ", value),
        Shape::Test { track, low, high } => {
            row.write_labelled("test ", track);
            row.write(" low ");
            write_node(row, bench, low);
            row.write(" high ");
            write_node(row, bench, high);
        }
    }
    Ok(())
}

/// `same NODE NODE`: whether both have one map.
fn same(bench: &Bench, row: &mut Row) -> Result<(), RowError> {
    let (left, right) = bench.two_nodes(row)?;
    row.write_truth(bench.diagrams.same_map(left, right));
    Ok(())
}

/// `leaves NODE`: the values in the order of the letters.
fn leaves(bench: &Bench, node: Node, row: &mut Row) -> Result<(), RowError>
    requires { node < length bench.now.diagrams }
{
    let values = bench.diagrams.leaves(node)?;
    write_numbers(row, values.as_slice());
    Ok(())
}

/// `empty`: whether no node was made, and whether no set was numbered.
fn empty(bench: &Bench, row: &mut Row) {
    row.write_truth(bench.diagrams.is_empty());
    row.write(" ");
    row.write_truth(bench.sets.is_empty());
}

/// Whether numbers ascend, without repeats.
fn are_increasing(numbers: &[u32]) -> bool
    ensures { IsTrue result → IsStrictlyIncreasing numbers.now }
{
    for place in 1..numbers.len() {
        if numbers[place - 1] >= numbers[place] {
            return false;
        }
    }
    true
}

fn write_numbered(row: &mut Row, answer: Result<u32, NumberingError>) -> Result<(), RowError> {
    match answer {
        Ok(number) => row.write_number(number),
        Err(NumberingError::Full) => row.write("full"),
        Err(NumberingError::Memory) => return Err(RowError::Memory),
    }
    Ok(())
}

/// `set LIST`: the number of a set.
fn set(bench: &mut Bench, row: &mut Row) -> Result<(), RowError> {
    let set = row.numbers::<u32>()?;
    if !are_increasing(set.as_slice()) {
        return Err(RowError::Condition);
    }
    write_numbered(row, bench.sets.number(set.as_slice()))
}

/// `elements NODE LETTER`: the set of the number that the map has at the letter.
fn elements(bench: &Bench, node: Node, row: &mut Row) -> Result<(), RowError>
    requires { node < length bench.now.diagrams }
{
    let number = bench.diagrams.read(node, row.number::<u32>()?);
    match bench.sets.get(number) {
        Some(set) => write_numbers(row, set),
        None => return Err(RowError::Name),
    }
    Ok(())
}

/// `pair NODE LETTER`: the pair of the number that the map has at the letter.
fn pair(bench: &Bench, node: Node, row: &mut Row) -> Result<(), RowError>
    requires { node < length bench.now.diagrams }
{
    let number = bench.diagrams.read(node, row.number::<u32>()?);
    let Some(pair) = bench.pairs.get(number) else {
        return Err(RowError::Name);
    };
    row.write_numbers(&[pair.0, pair.1], ',');
    Ok(())
}
