//! Whether some move leads into sets, to any square of the board.
ghost use Rattle.std.specs.Prelude.{◌≡◌, ◌≤◌, ℕ, length, true, false};
ghost use Rattle.game_rules.specs.Game.{Sound};
ghost use Rattle.mask_sets.specs.Sets.{HaveAtMost, IsIn};
ghost use Rattle.game_laws.specs.Sets.{LeadsInto};
ghost use Rattle.move_choice.specs.Aims.{AreNext};
ghost use Rattle.loser_session.specs.Leading.{LeadsNowhere, LeadsThere};

use auto_search::{Few, Search};
use chess_game::{Frame, MOST_RAYS, Position};
use mask_sets::MaskSets;
use move_choice::{Aim, AimedRay, count_along, has_ray, his_ray};

/// Whether some move of the man along the ray of this number leads into the sets.
fn leads_along(search: &mut Search, aim: &Aim, man: u8, number: u8) -> bool
    requires few { HaveAtMost search.old aim.now.sets.now }
    requires first { 1 ≤ man }
    requires last { man ≤ length aim.now.position.now.men }
    ensures some { result ≡ true → (distance : ℕ) × LeadsThere aim.now man number distance }
    ensures none { result ≡ false → (distance : ℕ) → LeadsThere aim.now man number distance → ⊥ }
    ensures kept { search.new ≡ search.old }
{
    if !has_ray(aim.position, man, number) {
        return false;
    }
    let his = his_ray(aim.position, man, number);
    let along = AimedRay { aim: &*aim, his };
    match count_along(search, &along) {
        Few::Zero => false,
        Few::One | Few::More => true,
    }
}

/// Whether some move of the man leads into the sets.
fn leads_for(search: &mut Search, aim: &Aim, man: u8) -> bool
    requires few { HaveAtMost search.old aim.now.sets.now }
    requires first { 1 ≤ man }
    requires last { man ≤ length aim.now.position.now.men }
    ensures some { result ≡ true → (ray : ℕ) × (distance : ℕ) × LeadsThere aim.now man ray distance }
    ensures none { result ≡ false → (ray : ℕ) → (distance : ℕ) → LeadsThere aim.now man ray distance → ⊥ }
    ensures kept { search.new ≡ search.old }
{
    for number in 0..MOST_RAYS {
        if leads_along(search, aim, man, number) {
            return true;
        }
    }
    false
}

/// Returns whether some legal move leads into the sets, to any square of the board. A failed allocation only
/// makes it slower.
pub(crate) fn has_move_into(search: &mut Search, sets: &MaskSets, p: &Position) -> bool
    requires sound { Sound p.now }
    requires next { AreNext p.now sets.now }
    requires few { HaveAtMost search.old sets.now }
    ensures some { result ≡ true → LeadsInto (IsIn sets.now) p.now }
    ensures none { result ≡ false → LeadsNowhere (IsIn sets.now) p.now }
    ensures kept { search.new ≡ search.old }
{
    let aim = Aim {
        position: p,
        frame: Frame::whole(),
        sets,
    };
    for man in 1..p.count() + 1 {
        if leads_for(search, &aim, man) {
            return true;
        }
    }
    false
}
