ghost use Rattle.std.specs.Prelude.{◌≡◌, IfOk};
ghost use Rattle.schedule.specs.Case.{load_case_action_at, load_case_action_ends, load_case_row_at, load_case_row_ends, load_case_rows_drawn};
ghost use Rattle.policy_rules.specs.Policy.{IsPolicy};

use crate::draws::{CaseDraws, address};
use base::Failure;
use five_tuple::{PortRange, Prefix, Proto};
use policy_rules::{Action, Policy, Row};
use std::alloc::{AllocError, Global};

/// A drawn policy of this many rows, whose priorities are their places from 1.
///
/// # Errors
/// Only out of memory.
pub fn policy(alloc: Global, draws: &mut CaseDraws, rows: u32) -> Result<Policy, AllocError>
    ensures drawn { IfOk result (λ policy.
        (policy ≡ (load_case_rows_drawn rows draws.old.state).0)
        × (draws.new.state ≡ (load_case_rows_drawn rows draws.old.state).1)) }
    ensures sound { IfOk result IsPolicy }
{
    let rows = draw_rows(alloc, draws, rows)?;
    match Policy::new(alloc, rows) {
        Ok(policy) => Ok(policy),
        Err(Failure::NoMemory) => Err(AllocError),
        Err(Failure::Refused(_)) => unreachable!(),
    }
}

#[tactic(auto, using(crate::proofs::LoadCaseDraws::rows_more))]
fn draw_rows(alloc: Global, draws: &mut CaseDraws, count: u32) -> Result<Vec<Row>, AllocError>
    ensures { IfOk result (λ rows.
        (rows.items ≡ (load_case_rows_drawn count draws.old.state).0)
        × (draws.new.state ≡ (load_case_rows_drawn count draws.old.state).1)) }
{
    let mut rows = Vec::new(alloc);
    for k in 0..count {
        rows.push(draw_row(draws, k + 1))?;
    }
    Ok(rows)
}

fn draw_row(draws: &mut CaseDraws, priority: u32) -> Row
    ensures row { result ≡ load_case_row_at priority draws.old.state }
    ensures state { draws.new.state ≡ load_case_row_ends draws.old.state }
{
    let b = draws.below(4);
    let c = draws.below(256);
    let e = draws.below(4);
    let port = draws.below(1024) as u16;
    let action = draw_action(draws);
    Row {
        priority,
        src: Prefix::new(address(10, b, c, 0), 24),
        dst: Prefix::new(address(10, e, 0, 0), 16),
        sport: PortRange {
            low: 0,
            high: 65_535,
        },
        dport: PortRange {
            low: port,
            high: port,
        },
        proto: Proto::Is(6),
        action,
    }
}

fn draw_action(draws: &mut CaseDraws) -> Action
    ensures action { result ≡ load_case_action_at draws.old.state }
    ensures state { draws.new.state ≡ load_case_action_ends draws.old.state }
{
    if draws.below(4) == 0 {
        Action::Drop
    } else {
        Action::Out(draws.below(8))
    }
}
