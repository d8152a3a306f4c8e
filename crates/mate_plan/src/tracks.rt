//! The variables of the live men.
ghost use Rattle.std.specs.Prelude.{◌≡◌, ◌≤◌, IfOk, OnOk};
ghost use Rattle.rule_formula.specs.Placed.{is_live as live_in};
ghost use Rattle.rule_formula.specs.Trees.{tracks_of};
ghost use Rattle.mate_plan.specs.Bench.{with_man};

use chess_game::Position;
use std::alloc::{AllocError, Global};
use track_word::Var;

/// Returns whether man k is in the mask.
pub(crate) fn is_live(mask: u8, k: u8) -> bool
    requires low { 1 ≤ k }
    requires high { k ≤ 8 }
    ensures { result ≡ live_in mask k }
{
    mask >> (k - 1) & 1 == 1
}

/// Adds the variables of man k, if he is in the mask.
fn push_man(tracks: &mut Vec<Var>, mask: u8, k: u8) -> Result<(), AllocError>
    requires low { 1 ≤ k }
    requires high { k ≤ 8 }
    ensures { OnOk result (tracks.new.items ≡ with_man mask k tracks.old.items) }
{
    if is_live(mask, k) {
        tracks.push(Var(2 * k - 2))?;
        tracks.push(Var(2 * k - 1))?;
    }
    Ok(())
}

/// Returns the tracks of the sets of a mask: two variables for each of its live men. The error is that an allocation
/// failed.
pub fn mask_tracks(alloc: Global, p: &Position, mask: u8) -> Result<Vec<Var>, AllocError>
    ensures { IfOk result (λ tracks. tracks.items ≡ tracks_of p.now.men (live_in mask)) }
{
    let mut tracks = Vec::new(alloc);
    for n in 0..p.count() {
        let k = n + 1;
        push_man(&mut tracks, mask, k)?;
    }
    Ok(tracks)
}
