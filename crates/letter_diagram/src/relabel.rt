//! Maps whose tracks take their bits from other tracks.
ghost use Rattle.std.specs.Prelude.{◌<◌, length, option_copied, All, IfOk, IsTrue};
ghost use Rattle.limits.specs.declared.numbers.TheConstants.{MOST_TRACKS};
ghost use Rattle.letter_diagram.specs.Diagram.{map_at, HasMap, Grows, LooksBelow};
ghost use Rattle.letter_diagram.specs.Relabelled.{relabelled, KeepsTracks, AreRelabelled};

use crate::carry::{Rebuild, rebuilt, rebuilt_all};
use crate::diagrams::{Diagrams, Node, Shape};
use crate::node_memo::NodeMemo;
use std::alloc::AllocError;

/// Rebuilds nodes, of another `Diagrams` or of the same one, with their tests on other tracks.
#[derive(Drop)]
struct Relabelling<'a> {
    from: Option<&'a Diagrams>,
    tracks: &'a [u8],
    ghost tracks_low: { All (λ track. track < MOST_TRACKS) tracks.now },
}

impl<'a> Rebuild for Relabelling<'a> {
    ghost carrier = { λ s.
        record {
          from = option_copied s.from;
          letters = relabelled s.tracks.now;
          values = λ value. value;
          tracks = length s.tracks.now;
        } };

    ghost can = { λ _ _. Unit {0} };

    fn shape(&self, to: &Diagrams, node: Node) -> Shape {
        match self.from {
            Some(from) => from.shape(node),
            None => to.shape(node),
        }
    }

    fn leaf(&self, to: &mut Diagrams, value: u32) -> Result<Node, AllocError> {
        let node = to.leaf(value)?;
        Ok(node)
    }

    fn test(
        &self,
        to: &mut Diagrams,
        track: u8,
        low: Node,
        high: Node,
    ) -> Result<Node, AllocError> {
        let node = to.choose(self.tracks[track as usize], low, high)?;
        Ok(node)
    }
}

/// Returns whether each track takes its own bit.
fn keeps_tracks(tracks: &[u8]) -> bool
    ensures { IsTrue result → KeepsTracks tracks.now }
{
    for (own, track) in tracks.iter().enumerate() {
        if usize::from(*track) != own {
            return false;
        }
    }
    true
}

impl Diagrams {
    /// Returns the map whose value at a letter is that of `a` at the letter whose bit t is bit `tracks[t]` of the first.
    pub fn relabel(&mut self, a: Node, tracks: &[u8]) -> Result<Node, AllocError>
        requires known { a < length self.old }
        requires narrow { LooksBelow self.old a (length tracks.now) }
        requires tracks { All (λ track. track < MOST_TRACKS) tracks.now }
        ensures known { IfOk result (λ node. node < length self.new) }
        ensures map { IfOk result (HasMap self.new (λ letter. map_at self.old a (relabelled tracks.now letter))) }
        ensures grows { Grows self.old self.new }
    {
        let mut memo = NodeMemo::new(self.alloc(), self.len())?;
        let node = rebuilt(&Relabelling { from: None, tracks }, a, self, &mut memo)?;
        Ok(node)
    }

    /// Adds nodes with the maps of `nodes` of `from`, relabelled, and returns them in order: `bring` and `relabel` in one pass. If
    /// there are no nodes yet and each track takes its own bit, all nodes of `from` are copied.
    pub fn bring_relabelled(
        &mut self,
        from: &Diagrams,
        nodes: &[Node],
        tracks: &[u8],
    ) -> Result<Vec<Node>, AllocError>
        requires known { All (λ node. node < length from.now) nodes.now }
        requires narrow { All (λ node. LooksBelow from.now node (length tracks.now)) nodes.now }
        requires tracks { All (λ track. track < MOST_TRACKS) tracks.now }
        ensures brought { IfOk result (λ made. AreRelabelled from.now self.new tracks.now nodes.now made.items) }
        ensures grows { Grows self.old self.new }
    {
        if self.is_empty() && keeps_tracks(tracks) {
            *self = from.copy()?;
            return Ok(nodes.to_vec(self.alloc())?);
        }
        let mut memo = NodeMemo::new(self.alloc(), from.len())?;
        let relabelling = Relabelling {
            from: Some(from),
            tracks,
        };
        let made = rebuilt_all(&relabelling, nodes, self, &mut memo)?;
        Ok(made)
    }
}
