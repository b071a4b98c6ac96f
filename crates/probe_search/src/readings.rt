//! Values that calls have read without a lock: when each has its point.

use crate::effects::{Candidates, is_same, unlocked_amount};
use probe_findings::Amount;
use probe_run::{Claim, PlayRules, Run, RunMove, UnlockedSum, moves_offline};
use std::alloc::AllocError;

/// Whether a call of this CPU has read this sum, and has no point yet: then it changes it later.
fn reads_first(claims: &[Claim], cpu: u32, sum: UnlockedSum) -> bool {
    claims
        .iter()
        .any(|one| one.place.cpu == cpu && is_same(one.sum, sum))
}

/// Whether it is the first of what its CPU has read.
fn is_oldest(claims: &[Claim], index: usize, claim: &Claim) -> bool {
    claims
        .iter()
        .position(|one| one.place.cpu == claim.place.cpu)
        == Some(index)
}

/// The pending effects that may come before this reading.
fn gather(
    run: &Run,
    rules: PlayRules,
    candidates: &mut Candidates,
    sum: UnlockedSum,
) -> Result<(), AllocError> {
    candidates.clear();
    for (place, pending) in run.pending().iter().enumerate() {
        if !reads_first(run.claims(), pending.place.cpu, sum)
            && let Some(amount) = unlocked_amount(run, rules, pending, sum)
        {
            candidates.add(
                place,
                Amount {
                    this_bw: amount,
                    running_bw: 0,
                },
            )?;
        }
    }
    Ok(())
}

/// What brings this reading nearer to its point; none where nothing that is pending does.
fn step_to(
    run: &Run,
    rules: PlayRules,
    candidates: &mut Candidates,
    claim: &Claim,
) -> Result<Option<RunMove>, AllocError> {
    let meet = RunMove::Meet(claim.place.cpu);
    let Some(known) = run.sum(claim.sum) else {
        gather(run, rules, candidates, claim.sum)?;
        // What is pending on an unknown sum is taken to be done before it is shown.
        return Ok(match candidates.first_with_amount() {
            Some(place) => Some(RunMove::Settle(place)),
            None => Some(meet),
        });
    };
    if known == claim.value {
        return Ok(Some(meet));
    }
    if run.pending().is_empty() {
        return Ok(None);
    }
    gather(run, rules, candidates, claim.sum)?;
    let wanted = Amount {
        this_bw: claim.value.wrapping_sub(known),
        running_bw: 0,
    };
    Ok(
        candidates
            .first_of(wanted)
            .map(|place| RunMove::Settle(place)),
    )
}

/// A move towards the point of a reading, if there is one.
pub(crate) fn next_reading(
    run: &Run,
    rules: PlayRules,
    candidates: &mut Candidates,
) -> Result<Option<RunMove>, AllocError> {
    for (index, claim) in run.claims().iter().enumerate() {
        if is_oldest(run.claims(), index, claim) {
            let step = step_to(run, rules, candidates, claim)?;
            if step.is_some() {
                return Ok(step);
            }
        }
    }
    Ok(None)
}

/// The first task whose CPU went that is on its way.
fn first_offline(run: &Run) -> Option<RunMove> {
    run.pending()
        .iter()
        .position(|one| moves_offline(one.effect))
        .map(|place| RunMove::Settle(place))
}

/// What becomes of the first value that a call of this CPU has read, where it has no point yet and the next line of the CPU has come.
pub(crate) fn last_reading(run: &Run, cpu: u32) -> Option<RunMove> {
    let claim = run.claims().iter().find(|one| one.place.cpu == cpu)?;
    let differs = run.sum(claim.sum).is_some_and(|known| known != claim.value);
    let moves_offline = if differs { first_offline(run) } else { None };
    Some(moves_offline.unwrap_or(RunMove::Meet(cpu)))
}
