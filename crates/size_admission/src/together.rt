//! What all proposals come to together, and a processor for each.

ghost use Rattle.std.specs.Prelude.{◌≡◌, ◌-◌, ◌≤◌, ◌<◌, ℕ, All, IfOk, IfSome, IsTrue, map, min};
ghost use Rattle.std.specs.List.{sum_by};
ghost use Rattle.size_admission.specs.Together.{IsPlaced, bandwidth_of, load_on, share_on};

use crate::admission::{Proposal, RootDomain, bandwidth};
use std::alloc::{AllocError, Global};

/// A reservation on a processor.
#[derive(Clone, Copy)]
pub struct Placed {
    /// In 1/2^20, rounded down.
    pub bandwidth: u64,

    /// The number of the processor.
    pub processor: usize,
}

/// What all proposals come to.
#[derive(Drop)]
pub struct Together {
    /// The sum of their bandwidths, in 1/2^20.
    pub sum: u64,

    /// The greatest of them.
    pub greatest: u64,

    /// A processor for each proposal, in their order; none where they do not fit as they were tried.
    pub placed: Option<Vec<Placed>>,
}

/// Sums the proposals, and places the greatest first, each on the first processor on which there is room.
pub fn add_up(
    alloc: Global,
    proposals: &[Proposal],
    machine: RootDomain,
) -> Result<Together, AllocError>
    ensures sum { IfOk result (λ t. t.sum ≡ min (sum_by bandwidth_of proposals.now) 18446744073709551615) }
    ensures greatest { IfOk result (λ t. All (λ p. bandwidth_of p ≤ t.greatest) proposals.now) }
    ensures placed { IfOk result (λ t. IfSome t.placed (λ v. IsPlaced
        (map bandwidth_of proposals.now) v.items machine.processors (machine.most - machine.fair))) }
{
    let bandwidths = bandwidths_of(alloc, proposals)?;
    let placed = placed_of(alloc, &bandwidths, machine)?;
    Ok(Together {
        sum: total(proposals),
        greatest: greatest(proposals),
        placed,
    })
}

fn total(proposals: &[Proposal]) -> u64
    ensures { result ≡ min (sum_by bandwidth_of proposals.now) 18446744073709551615 }
{
    let mut sum = 0u64;
    for one in proposals {
        sum = sum.saturating_add(bandwidth(one.runtime, one.period));
    }
    sum
}

fn greatest(proposals: &[Proposal]) -> u64
    ensures { All (λ p. bandwidth_of p ≤ result) proposals.now }
{
    let mut most = 0u64;
    for one in proposals {
        most = most.max(bandwidth(one.runtime, one.period));
    }
    most
}

fn bandwidths_of(alloc: Global, proposals: &[Proposal]) -> Result<Vec<u64>, AllocError>
    ensures { IfOk result (λ v. v.items ≡ map bandwidth_of proposals.now) }
{
    let mut bandwidths = Vec::new(alloc);
    for one in proposals {
        bandwidths.push(bandwidth(one.runtime, one.period))?;
    }
    Ok(bandwidths)
}

/// The greatest bandwidth that has no processor yet.
fn next_of(bandwidths: &[u64], chosen: &[Option<usize>]) -> Option<usize> {
    let mut best = None;
    let mut most = 0;
    for (i, u) in bandwidths.iter().enumerate() {
        let is_open = matches!(chosen.get(i), Some(None));
        if is_open && (best.is_none() || *u > most) {
            best = Some(i);
            most = *u;
        }
    }
    best
}

/// The first processor on which a bandwidth has room.
fn first_fit(used: &[u64], bandwidth: u64, room: u64) -> Option<usize> {
    used.iter()
        .position(|u| u.saturating_add(bandwidth) <= room)
}

/// Chooses processors: the greatest bandwidth first, each on the first on which there is room. What has none keeps none.
fn choose(
    alloc: Global,
    bandwidths: &[u64],
    processors: u32,
    room: u64,
) -> Result<Vec<Option<usize>>, AllocError> {
    let mut used = Vec::new(alloc);
    for _ in 0..processors {
        used.push(0u64)?;
    }
    let mut chosen: Vec<Option<usize>> = Vec::new(alloc);
    for _ in bandwidths {
        chosen.push(None)?;
    }
    for _ in 0..bandwidths.len() {
        let Some(i) = next_of(bandwidths, &chosen) else {
            return Ok(chosen);
        };
        let u = bandwidths.get(i).copied().unwrap_or(0);
        let Some(processor) = first_fit(&used, u, room) else {
            return Ok(chosen);
        };
        if processor < used.len() {
            used[processor] = used[processor].saturating_add(u);
        }
        if i < chosen.len() {
            chosen[i] = Some(processor);
        }
    }
    Ok(chosen)
}

/// The bandwidths on the chosen processors; what has none is on one that does not exist.
fn on_processors(
    alloc: Global,
    bandwidths: &[u64],
    chosen: &[Option<usize>],
) -> Result<Vec<Placed>, AllocError>
    ensures { IfOk result (λ v. map (λ one. one.bandwidth) v.items ≡ bandwidths.now) }
{
    let mut placed = Vec::new(alloc);
    for (i, u) in bandwidths.iter().enumerate() {
        let processor = chosen.get(i).copied().flatten().unwrap_or(usize::MAX);
        placed.push(Placed {
            bandwidth: *u,
            processor,
        })?;
    }
    Ok(placed)
}

/// What the reservations on a processor come to.
pub(crate) fn load(placed: &[Placed], processor: usize) -> u64
    ensures { result ≡ min (load_on processor placed.now) 18446744073709551615 }
{
    let mut sum = 0u64;
    for one in placed {
        sum = sum.saturating_add(share(one, processor));
    }
    sum
}

fn share(one: &Placed, processor: usize) -> u64
    ensures { result ≡ share_on processor one.now }
{
    if one.processor == processor {
        one.bandwidth
    } else {
        0
    }
}

/// Whether each reservation is on a processor, and no processor has more than its room.
fn is_within(placed: &[Placed], processors: u32, room: u32) -> bool
    ensures { IsTrue result → IsPlaced (map (λ one. one.bandwidth) placed.now) placed.now processors room }
{
    are_on_processors(placed, processors) && have_room(placed, processors, room)
}

fn are_on_processors(placed: &[Placed], processors: u32) -> bool
    ensures { IsTrue result → All (λ one. one.processor < processors) placed.now }
{
    for one in placed {
        if one.processor >= processors as usize {
            return false;
        }
    }
    true
}

fn have_room(placed: &[Placed], processors: u32, room: u32) -> bool
    ensures { IsTrue result → ((p : ℕ) → p < processors → load_on p placed.now ≤ room) }
{
    for processor in 0..processors as usize {
        if load(placed, processor) > u64::from(room) {
            return false;
        }
    }
    true
}

fn placed_of(
    alloc: Global,
    bandwidths: &[u64],
    machine: RootDomain,
) -> Result<Option<Vec<Placed>>, AllocError>
    ensures { IfOk result (λ o. IfSome o
        (λ v. IsPlaced bandwidths.now v.items machine.processors (machine.most - machine.fair))) }
{
    let room = machine.most.saturating_sub(machine.fair);
    let chosen = choose(alloc, bandwidths, machine.processors, u64::from(room))?;
    let placed = on_processors(alloc, bandwidths, &chosen)?;
    if is_within(&placed, machine.processors, room) {
        Ok(Some(placed))
    } else {
        Ok(None)
    }
}
