//! Maps that read a letter twice: to select a row, and in that row.
ghost use Rattle.std.specs.Prelude.{◌<◌, ℕ, All, length, IfOk, OnOk};
ghost use Rattle.letter_diagram.specs.Diagram.{map_at, Grows};
ghost use Rattle.letter_diagram.specs.Composed.{IsComposed, RemembersComposed};

use crate::diagrams::{Diagrams, Node, Shape};
use std::alloc::AllocError;
use std::collections::HashMap;

impl Diagrams {
    /// Returns the map whose value at a letter is that of the row `rows[a(letter)]` at the same letter.
    pub fn compose(&mut self, a: Node, rows: &[Node]) -> Result<Node, AllocError>
        requires known { a < length self.old }
        requires rows { All (λ node. node < length self.old) rows.now }
        requires leaves { (letter : ℕ) → map_at self.old a letter < length rows.now }
        ensures composed { IfOk result (IsComposed self.new rows.now a) }
        ensures grows { Grows self.old self.new }
    {
        let mut memo = HashMap::new(self.alloc());
        self.composed(a, rows, &mut memo)
    }

    fn composed(
        &mut self,
        a: Node,
        rows: &[Node],
        memo: &mut HashMap<Node, Node>,
    ) -> Result<Node, AllocError>
        requires known { a < length self.old }
        requires rows { All (λ node. node < length self.old) rows.now }
        requires leaves { (letter : ℕ) → map_at self.old a letter < length rows.now }
        requires remembered { RemembersComposed self.old rows.now memo.old }
        ensures composed { IfOk result (IsComposed self.new rows.now a) }
        ensures remembered { OnOk result (RemembersComposed self.new rows.now memo.new) }
        ensures grows { Grows self.old self.new }
    {
        if let Some(node) = memo.get(&a) {
            return Ok(*node);
        }
        let node = match self.shape(a) {
            Shape::Leaf(value) => rows[value as usize],
            Shape::Test { track, low, high } => {
                let low = self.composed(low, rows, memo)?;
                let high = self.composed(high, rows, memo)?;
                self.choose(track, low, high)?
            }
        };
        memo.insert(a, node)?;
        Ok(node)
    }
}
