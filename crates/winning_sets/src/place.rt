//! Access to the sets by ply and mask.
ghost use Rattle.std.specs.Prelude.{◌≡◌, [], option_copied, slice_index_or};
ghost use Rattle.winning_sets.specs.Solve.{sets_at};

use crate::ply_sets::PlySets;
use auto_core::Auto;
use mask_sets::MaskSets;

/// Returns the sets of a ply, and no sets after the last ply.
pub(crate) fn sets_of_ply(plies: &[PlySets], ply: u8) -> &[Auto]
    ensures { result.now ≡ slice_index_or plies.now ply [] }
{
    if (ply as usize) < plies.len() {
        plies[ply as usize].as_slice()
    } else {
        &[]
    }
}

/// Returns the set of a ply and a mask, if each ply has one set for each of the masks. Returns `None` after the last
/// ply.
pub fn set_at<'a>(masks: &'a [u8], plies: &'a [PlySets], ply: u8, mask: u8) -> Option<&'a Auto>
    ensures { option_copied result ≡ sets_at masks.now plies.now ply mask }
{
    MaskSets::new(masks, sets_of_ply(plies, ply)).get(mask)
}
