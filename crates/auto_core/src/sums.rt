//! Rows that map a letter to the state of a sum.
ghost use Rattle.std.specs.Prelude.{◌≡◌, ◌≤◌, ◌<◌, ◌+ℤ◌, ◌≤ℤ◌, pos, ℕ, length, All, IfOk, OnOk};
ghost use Rattle.letter_diagram.specs.Diagram.{Grows};
ghost use Rattle.auto_core.specs.Sums.{IsSmall, IsNear, IsSpan, StandsFor, IsSumRow, RemembersSums};

use letter_diagram::{Diagrams, Node};
use std::alloc::AllocError;
use std::collections::HashMap;

/// A range of values, in ascending order, one for each state. The lowest one also represents all lower values, the highest one all
/// higher values.
#[derive(Clone, Copy)]
pub struct ValueRange {
    pub low: i32,
    pub high: i32,
}

impl ValueRange {
    /// Returns the number of states.
    pub fn states(self) -> u32
        requires { IsSpan self }
        ensures { pos result +ℤ self.low ≡ self.high +ℤ pos 1 }
    {
        (self.high - self.low + 1) as u32
    }

    /// Returns the value that a state represents.
    pub fn value_of(self, state: u32) -> i32
        requires span { IsSpan self }
        requires state { (self.low +ℤ pos state) ≤ℤ self.high }
        ensures { result ≡ self.low +ℤ pos state }
    {
        self.low + state as i32
    }

    /// Returns twice the value that a state represents.
    pub fn doubled(self, state: u32) -> i32
        requires span { IsSpan self }
        requires state { (self.low +ℤ pos state) ≤ℤ self.high }
        ensures sum { result ≡ (self.low +ℤ pos state) +ℤ (self.low +ℤ pos state) }
        ensures near { IsNear 0 result }
    {
        2 * self.value_of(state)
    }

    /// Returns the state that represents a sum.
    pub fn state_of(self, sum: i32) -> u32
        requires { IsSpan self }
        ensures { StandsFor self sum result }
    {
        if sum <= self.low {
            0
        } else if sum >= self.high {
            (self.high - self.low) as u32
        } else {
            (sum - self.low) as u32
        }
    }
}

/// Returns the node of the map from a letter to the state of `sum` plus the weights of the letter's bits, by the tracks from
/// `track` on. Results are cached by track and sum.
pub(crate) fn row(
    diagrams: &mut Diagrams,
    memo: &mut HashMap<(u8, i32), Node>,
    weights: &[i32],
    span: ValueRange,
    track: u8,
    sum: i32,
) -> Result<Node, AllocError>
    requires few { length weights.now ≤ 8 }
    requires small { All IsSmall weights.now }
    requires span { IsSpan span }
    requires track { track ≤ length weights.now }
    requires near { IsNear track sum }
    requires remembered { RemembersSums diagrams.old weights.now span memo.old }
    ensures row { IfOk result (λ node. IsSumRow diagrams.new weights.now span track sum node) }
    ensures remembered { OnOk result (RemembersSums diagrams.new weights.now span memo.new) }
    ensures grows { Grows diagrams.old diagrams.new }
{
    if track as usize == weights.len() {
        let node = diagrams.leaf(span.state_of(sum))?;
        return Ok(node);
    }
    if let Some(node) = memo.get(&(track, sum)) {
        return Ok(*node);
    }
    let weight = weights[track as usize];
    let low = row(diagrams, memo, weights, span, track + 1, sum)?;
    let high = row(diagrams, memo, weights, span, track + 1, sum + weight)?;
    let node = diagrams.node(track, low, high)?;
    memo.insert((track, sum), node)?;
    Ok(node)
}
