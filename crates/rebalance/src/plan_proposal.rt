ghost use Rattle.std.specs.Prelude.{◌≡◌, ◌++◌, ◌<◌, ◌≤◌, ◌^◌, IfOk, length, sum};
ghost use Rattle.net_file.specs.Net.{IsNet};
ghost use Rattle.partition.specs.Plan.{IsPartitionPlan};
ghost use Rattle.rebalance.specs.Proposals.{IsRebalanceProposalFoundFor, RebalanceProposesFor, rebalance_peaks_text, rebalance_partition_targets};
ghost use Rattle.rebalance.specs.Spread.{IsRebalanceProposal};

use crate::laws::rebalance_spread_laws;
use crate::peaks::{bound, peak};
use crate::proposing::proposed;
use crate::spreading::spread;
use crate::weighing::weights;
use base::Failure;
use controller::{Plan, parts_of, rooms_of, sizes_of};
use journal::Journal;
use net_file::Net;
use policy_rules::{Partition, Targets};
use show_text::compile_text;
use std::alloc::{AllocError, Global};
use std::fmt::Write;

/// The plan with the targets that are proposed, and the peaks of its own targets and of these.
#[derive(Drop)]
pub struct Proposal {
    plan: Plan,
    /// The peak of the plan's own targets.
    old_peak: u64,
    /// The peak of the targets that are proposed.
    new_peak: u64,
    /// No placement that fits has a lower peak.
    bound: u64,
}

/// The text of the proposal for a plan, by the weights of its partitions in the journal: the peaks
/// of the old and of the new targets, the bound, and the plan with the new targets.
///
/// # Errors
/// Only out of memory.
pub fn rebalance_proposal_text(
    alloc: Global,
    journal: &Journal,
    plan: &Plan,
    net: &Net,
) -> Result<Vec<u8>, AllocError>
    requires net { IsNet net.now }
    requires plan { IsPartitionPlan plan.now.policy net.now plan.now.hosted }
    ensures { IfOk result (λ text. RebalanceProposesFor plan.now.policy plan.now.hosted net.now journal.now
        (λ whole. text.items ≡ whole)) }
{
    let found = find_proposal(alloc, journal, plan, net)?;
    let text = compile_text(alloc, &found.plan, net)?;
    rebalance_headed_text(alloc, found.old_peak, found.new_peak, found.bound, &text)
}

// The two peaks and the bound of a proposal, and then this text.
fn rebalance_headed_text(
    alloc: Global,
    old_peak: u64,
    new_peak: u64,
    bound: u64,
    text: &[u8],
) -> Result<Vec<u8>, AllocError>
    ensures { IfOk result (λ whole.
        whole.items ≡ rebalance_peaks_text old_peak new_peak bound ++ text.now) }
{
    let mut head = String::new(alloc);
    writeln!(head, "peak {old_peak} {new_peak}\nbound {bound}")?;
    let mut whole = head.into_bytes();
    whole.extend_from_slice(text)?;
    Ok(whole)
}

// The proposal for the plan, by the weights of its partitions in the journal.
fn find_proposal(
    alloc: Global,
    journal: &Journal,
    plan: &Plan,
    net: &Net,
) -> Result<Proposal, AllocError>
    requires net { IsNet net.now }
    requires plan { IsPartitionPlan plan.now.policy net.now plan.now.hosted }
    ensures { IfOk result (IsRebalanceProposalFoundFor plan.now.policy plan.now.hosted net.now journal.now) }
{
    rebalance_spread_laws();
    let hosted = plan.hosted();
    let weights = weights(alloc, journal, hosted.len() as u32)?;
    let parts = parts_of(alloc, hosted)?;
    let sizes = sizes_of(alloc, &parts)?;
    let rooms = rooms_of(alloc, net)?;
    let old = rebalance_targets_of(alloc, hosted)?;
    let old_peak = peak(&weights, &old);
    let new = proposed_targets(alloc, &sizes, &weights, &rooms, net.backups, old)?;
    let new_peak = peak(&weights, &new);
    let bound = bound(&weights, &rooms);
    let copy = plan.clone()?;
    let plan = copy.with_targets(alloc, new)?;
    Ok(Proposal {
        plan,
        old_peak,
        new_peak,
        bound,
    })
}

// The targets that are proposed for partitions of these sizes and weights in place of the old ones.
fn proposed_targets(
    alloc: Global,
    sizes: &[u32],
    weights: &[u64],
    rooms: &[u32],
    backups: u32,
    old: Vec<Targets>,
) -> Result<Vec<Targets>, AllocError>
    requires each { length sizes.now ≡ length weights.now }
    requires old { length old.items ≡ length weights.now }
    requires partitions { length weights.now < 2 ^ 32 }
    requires switches { length rooms.now ≤ 64 }
    requires backups { backups ≤ 3 }
    requires small { sum weights.now < 2 ^ 64 }
    ensures { IfOk result (λ new.
        IsRebalanceProposal sizes.now weights.now rooms.now backups old.items new.items) }
{
    match spread(alloc, sizes, weights, rooms, backups) {
        Ok(new) => Ok(proposed(weights, Some(new), old)),
        Err(Failure::Refused(_)) => Ok(proposed(weights, None, old)),
        Err(Failure::NoMemory) => Err(AllocError),
    }
}

// The targets of each partition.
fn rebalance_targets_of(
    alloc: Global,
    hosted: &[(Partition, Targets)],
) -> Result<Vec<Targets>, AllocError>
    ensures { IfOk result (λ targets. targets.items ≡ rebalance_partition_targets hosted.now) }
{
    let mut all = Vec::with_capacity(alloc, hosted.len())?;
    for (_, targets) in hosted {
        all.push(*targets)?;
    }
    Ok(all)
}
