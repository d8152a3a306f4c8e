//! All first moves of the winner along a ray.
ghost use Rattle.std.specs.Prelude.{◌≡◌, ◌≤◌, IfNone, IfSome};
ghost use Rattle.move_choice.specs.Aims.{HasRay};
ghost use Rattle.winning_sets.specs.declared.origin.Origin.TheVariants.{Plan};
ghost use Rattle.winner_session.specs.Firsts.{IsFirstLine, NoFirsts};
ghost use Rattle.winner_session.specs.Game.{HasRoom};

use auto_search::{Few, Search};
use chess_game::Frame;
use mask_sets::MaskSets;
use move_choice::{Aim, AimedRay, his_ray, moves_along};
use winning_sets::Solved;

/// The winning first moves of a man along a ray: the man, the step of the ray, the least distance of those to a square
/// of the frame, and their number on the whole board.
#[derive(Clone, Copy, PartialEq, Eq)]
pub struct FirstLine {
    pub man: u8,
    pub dx: i8,
    pub dy: i8,
    pub least: Option<u128>,
    pub few: Few,
}

/// Returns the winner's first moves along a ray after which he still mates in time; captures are included. Returns
/// `None` if there is none. A failed allocation only makes it slower.
pub fn first_moves(
    solved: &Solved,
    search: &mut Search,
    frame: Frame,
    man: u8,
    ray: u8,
) -> Option<FirstLine>
    requires plan { solved.now.origin ≡ Plan }
    requires turn { solved.now.position.turn ≡ solved.now.winner }
    requires moves { 1 ≤ solved.now.moves }
    requires mover { HasRay solved.now.position man ray }
    requires room { HasRoom search.old solved.now }
    ensures none { IfNone result (NoFirsts solved.now.winner solved.now.moves solved.now.position man ray) }
    ensures line { IfSome result (IsFirstLine frame solved.now.winner solved.now.moves solved.now.position man ray) }
    ensures kept { search.new ≡ search.old }
{
    let position = solved.position();
    let sets = MaskSets::new(solved.masks(), solved.kept_sets(1));
    let aim = Aim {
        position: &position,
        frame,
        sets: &sets,
    };
    let his = his_ray(&position, man, ray);
    let along = AimedRay { aim: &aim, his };
    let moves = moves_along(search, &along);
    if let Few::Zero = moves.few {
        return None;
    }
    Some(FirstLine {
        man,
        dx: his.ray.dx,
        dy: his.ray.dy,
        least: moves.least,
        few: moves.few,
    })
}
