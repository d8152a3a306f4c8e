//! Paths of options, with the men after them.

ghost use Rattle.line_engine.specs.Nodes.{IsAfterPath, position_of};
ghost use Rattle.line_formula.specs.Paths.{leg_of};
ghost use Rattle.rule_formula.specs.Options.{is_side};
ghost use Rattle.std.specs.Prelude.{◌≡◌, ◌∷◌, length};

use crate::crowd::Crowd;
use line_formula::{Force, Leg, Scene};
use rule_formula::Opt;

/// A path of options, the last one first, with its legs, and the live men and the side to move after it.
#[derive(Clone, Copy)]
pub(crate) struct PathNode<'a> {
    pub(crate) crowd: Crowd<'a>,
    pub(crate) path: &'a [Opt],
    pub(crate) legs: &'a [Leg],
    pub(crate) force: Force,
    ghost is: { IsAfterPath (position_of crowd) path.now legs.now force },
}

/// A further move of a path: the men before and after it, and its option.
#[derive(Clone, Copy)]
pub(crate) struct PathStep<'a> {
    pub(crate) before: PathNode<'a>,
    pub(crate) after: PathNode<'a>,
    pub(crate) option: Opt,
    pub(crate) leg: Leg,
    ghost men: { after.crowd.men.now ≡ before.crowd.men.now },
    ghost turn: { after.crowd.turn ≡ before.crowd.turn },
    ghost path: { after.path.now ≡ option ∷ before.path.now },
    ghost leg_is: { leg ≡ leg_of before.crowd.men.now option },
}

impl<'a> PathNode<'a> {
    /// Returns the number of moves of the path.
    pub(crate) fn count(&self) -> u8
        ensures { result ≡ length self.now.path.now }
    {
        self.legs.len() as u8
    }

    /// Returns the men on their initial squares with the legs of the path.
    pub(crate) fn scene(&self) -> Scene<'a>
        ensures men { result.men.now ≡ self.now.crowd.men.now }
        ensures legs { result.legs.now ≡ self.now.legs.now }
    {
        Scene {
            men: self.crowd.men,
            legs: self.legs,
        }
    }

    /// Returns whether it is the winner's turn.
    pub(crate) fn is_winners(&self) -> bool
        ensures { result ≡ is_side self.now.force.side self.now.crowd.winner }
    {
        self.force.side == self.crowd.winner
    }
}
