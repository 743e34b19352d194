ghost use Rattle.std.specs.Prelude.{◌≡◌, ◌≤◌, All, IfOk};
ghost use Rattle.schedule.specs.Case.{IsPlayableLoadCase, load_case_seen, load_case};
ghost use Rattle.policy_rules.specs.Policy.{IsPolicy};

use crate::case_events::events;
use crate::case_net::net;
use crate::case_policies::policy;
use crate::draws::CaseDraws;
use net_file::Net;
use policy_rules::Policy;
use std::alloc::{AllocError, Global};
use steps::Event;

/// A network, its policies and what happens on it.
#[derive(Drop)]
pub struct Case {
    pub net: Net,
    /// The policies by their files; an update names one of them by its place, from 1.
    pub policies: Vec<Policy>,
    pub events: Vec<Event>,
}

/// The load case of this number, from 1 to 1,000. Its network is sound, its policies name only
/// ports of that network, and its events may happen on it.
///
/// # Errors
/// Only out of memory.
pub fn load_case(alloc: Global, n: u32) -> Result<Case, AllocError>
    requires { (1 ≤ n) × (n ≤ 1000) }
    ensures case { IfOk result (λ case. load_case_seen case ≡ load_case n) }
    ensures playable { IfOk result (λ case. IsPlayableLoadCase (load_case_seen case)) }
    ensures policies { IfOk result (λ case. All IsPolicy case.policies.items) }
{
    let case = draw_case(alloc, n)?;
    Ok(case)
}

fn draw_case(alloc: Global, n: u32) -> Result<Case, AllocError>
    requires { n ≤ 1000 }
    ensures case { IfOk result (λ case. load_case_seen case ≡ load_case n) }
    ensures policies { IfOk result (λ case. All IsPolicy case.policies.items) }
{
    let net = net(alloc)?;
    let mut draws = CaseDraws { state: n };
    let first = policy(alloc, &mut draws, n)?;
    let second = policy(alloc, &mut draws, n)?;
    let events = events(alloc, &mut draws, 2 * n)?;
    let mut policies = Vec::new(alloc);
    policies.push(first)?;
    policies.push(second)?;
    Ok(Case {
        net,
        policies,
        events,
    })
}
