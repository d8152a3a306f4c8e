//! The claimed sets, one by one and as levels of a plan.
ghost use Rattle.std.specs.Prelude.{◌≡◌, IfOk};
ghost use Rattle.lin_formula.specs.SetOf.{Table};
ghost use Rattle.rule_formula.specs.Fits.{IsGameMask};
ghost use Rattle.rule_formula.specs.Mean.{mask_tracks as tracks_at};
ghost use Rattle.set_plan.specs.Program.{Give};
ghost use Rattle.set_plan.specs.Sets.{IsNameOn, IsSetOn, set_at};
ghost use Rattle.mate_plan.specs.Bench.{IsLater};
ghost use Rattle.mate_plan.specs.Claim.{claimed_level as level_at};
ghost use Rattle.mate_plan.specs.Levels.{AreNamesIn, level_in};
ghost use Rattle.claim_check.specs.Ready.{AreNamesOf, AreSigned, claim_in};

use crate::reduced::ReducedClaim;
use auto_core::Auto;
use lin_formula::SetId;
use mate_plan::{LevelBuilder, LevelNames, PartName, PlanContext, PlanState, level_by, one_level};
use set_plan::PlanError;
use std::alloc::AllocError;

/// Returns the level with a copy of this set for one mask, and no set for the others.
pub(crate) fn lone_level(
    claim: &ReducedClaim,
    work: &mut PlanState,
    mask: u8,
    set: &Auto,
) -> Result<LevelNames, AllocError>
    requires mask { IsGameMask claim.now.position mask }
    requires set { IsSetOn (tracks_at claim.now.position mask) set.now }
    ensures names { IfOk result (AreNamesIn claim.now.position work.new.sets) }
    ensures set { IfOk result (λ level. level_in claim.now.position work.new.sets level mask ≡ Table set.now) }
    ensures later { IsLater work.old work.new }
{
    let bench = claim.bench();
    let name = work.sets.put(set.copy()?)?;
    one_level(&bench, mask, Some(name))
}

/// The name of a copy of the set that is claimed at a ply for a mask.
fn claimed_name(
    claim: &ReducedClaim,
    work: &mut PlanState,
    ply: u8,
    mask: u8,
) -> Result<Option<SetId>, AllocError>
    requires { AreSigned (claim_in claim.now) }
    ensures set { IfOk result (λ name. set_at work.new.sets name ≡ level_at (claim_in claim.now) ply mask) }
    ensures name { IfOk result (IsNameOn (tracks_at claim.now.position mask) work.new.sets) }
    ensures later { IsLater work.old work.new }
{
    let _bench = claim.bench(); // for its invariant
    match claim.set(ply, mask) {
        None => Ok(None),
        Some(set) => Ok(Some(work.sets.put(set.copy()?)?)),
    }
}

/// What is claimed at a ply, mask by mask.
#[derive(Clone, Copy)]
struct ClaimedPly<'a> {
    claim: &'a ReducedClaim,
    ply: u8,
}

impl LevelBuilder for ClaimedPly<'_> {
    ghost program = { λ it _ _ mask. Give (level_at (claim_in it.claim.now) it.ply mask) };

    ghost fits = { λ it p _. AreSigned (claim_in it.claim.now) × (p ≡ it.claim.now.position) };

    fn name(
        &self,
        _bench: &PlanContext,
        work: &mut PlanState,
        mask: u8,
    ) -> Result<Option<SetId>, PlanError<PartName>> {
        Ok(claimed_name(self.claim, work, self.ply, mask)?)
    }
}

/// Returns the claimed level of a ply. It has no sets after the last ply.
pub(crate) fn claimed_level(
    claim: &ReducedClaim,
    work: &mut PlanState,
    ply: u8,
) -> Result<LevelNames, AllocError>
    requires { AreSigned (claim_in claim.now) }
    ensures level { IfOk result (AreNamesOf claim.now ply work.new.sets) }
    ensures names { IfOk result (AreNamesIn claim.now.position work.new.sets) }
    ensures later { IsLater work.old work.new }
{
    let bench = claim.bench();
    match level_by(&bench, work, &ClaimedPly { claim, ply }) {
        Ok(level) => Ok(level),
        Err(PlanError::Over(_)) => unreachable!(),
        Err(PlanError::Memory) => Err(AllocError),
    }
}
