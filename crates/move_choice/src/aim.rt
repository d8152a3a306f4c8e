//! The aim of a move, and its ray.
ghost use Rattle.game_rules.specs.Game.{Sound};
ghost use Rattle.move_choice.specs.Aims.{AreNext, IsMover};
ghost use Rattle.move_choice.specs.Facts.{AreNext-prop, IsMover-prop};
ghost use Rattle.game_laws.specs.Soundness.{Sound-prop};

use chess_game::{Frame, Position, Ray};
use mask_sets::MaskSets;

/// The aim of a move: it starts in the sound position, goes to a square of the frame, and leads into the sets.
#[derive(Drop)]
pub struct Aim<'a> {
    pub position: &'a Position,
    pub frame: Frame,
    pub sets: &'a MaskSets<'a>,
    pub ghost sound: { Sound position.now } by { Sound-prop position.now },
    pub ghost next: { AreNext position.now sets.now } by { AreNext-prop position.now sets.now },
}

/// One of a man's rays, with the numbers of the man and the ray.
#[derive(Clone, Copy)]
pub struct ManRay {
    pub man: u8,
    pub number: u8,
    pub ray: Ray,
}

/// A ray of a live man of the side to move, with the aim of his moves.
#[derive(Clone, Copy)]
pub struct AimedRay<'a> {
    pub aim: &'a Aim<'a>,
    pub his: ManRay,
    pub ghost mover: { IsMover aim.now.position.now his.man his.number his.ray } by { IsMover-prop aim.now.position.now his.man his.number his.ray },
}
