//! The place in a plan where a set is computed or a question is asked.
ghost use Rattle.std.specs.Prelude.{◌≡◌};
ghost use Rattle.mate_plan.specs.Plan as plan;

use crate::level::LevelNames;
use crate::names::{Part, PartName};
use game_rules::Side;
use lin_formula::SetId;

/// A mask at a ply, and the side to move.
#[derive(Clone, Copy)]
pub struct Stage {
    pub side: Side,
    /// The number of moves made since the starting position.
    pub ply: u8,
    /// The live men: bit `i - 1` is 1 if and only if man `i` is live.
    pub mask: u8,
}

impl Stage {
    /// Returns the name of a part of this stage.
    pub(crate) fn part(self, part: Part) -> PartName
        ensures { result ≡ plan.name self.ply self.mask part }
    {
        PartName {
            ply: self.ply,
            mask: self.mask,
            part,
        }
    }
}

/// The set of a mask.
#[derive(Clone, Copy)]
pub(crate) struct MaskSet {
    pub(crate) mask: u8,
    pub(crate) set: SetId,
}

/// The set of a part.
#[derive(Clone, Copy)]
pub(crate) struct PartSet {
    pub(crate) part: PartName,
    /// `None` if the set is empty.
    pub(crate) name: Option<SetId>,
}

/// The set of a stage.
#[derive(Clone, Copy)]
pub(crate) struct StageSet {
    pub(crate) stage: Stage,
    /// `None` if the set is empty.
    pub(crate) name: Option<SetId>,
}

/// A stage, and the level that contains its set.
#[derive(Clone, Copy)]
pub struct StageLevel<'a> {
    pub stage: Stage,
    pub level: &'a LevelNames,
}

/// The moves from a set into a level, as a part.
#[derive(Clone, Copy)]
pub(crate) struct PartMoves<'a> {
    pub(crate) part: Part,
    pub(crate) set: StageSet,
    pub(crate) into: &'a LevelNames,
}

/// A stage, the level that contains its set, and the level into which moves from there lead.
#[derive(Clone, Copy)]
pub struct MovesInto<'a> {
    pub stage: Stage,
    pub from: &'a LevelNames,
    pub into: &'a LevelNames,
}
