ghost use Rattle.std.specs.Prelude.{◌≡◌, ◌≤◌, Ok, IfOk, IfErr, All, length};
ghost use Rattle.policy_rules.specs.Exports.{HasSmallPolicyActionPort, IsPolicy};
ghost use Rattle.policy_file.specs.Reading.{policy_file_policy_of};
ghost use Rattle.base.specs.Refusals.{IsCallRefusal};

use crate::error::{PolicyError, PolicyRefusal};
use crate::file_rows::{Reading, read_policy_rows};
use base::{Failure, InRow};
use policy_rules::Policy;
use std::alloc::Global;

/// Reads the policy that the text states.
///
/// The text's records are those of the crate `csv` with its presets, of any width: the heading
/// `priority,src,dst,sport,dport,proto,action`, and then one for each of at most 2,000 rows. So a
/// byte-order mark, quotes, line ends and blank lines are as that crate reads them.
///
/// # Errors
/// The first refusal in the text, or out of memory. The rows are checked in order: first a row's
/// width, then its fields from left to right, and last whether an earlier row has its priority.
#[tactic(auto, unfolding(crate::specs::Reading::policy_file_policy_of))]
pub fn read_policy(alloc: Global, bytes: &[u8]) -> Result<Policy, PolicyError>
    ensures policy { IfOk result (λ policy. policy_file_policy_of bytes.now ≡ Ok policy) }
    ensures sound { IfOk result IsPolicy }
    ensures few { IfOk result (λ policy. length policy ≤ 2000) }
    ensures small_ports { IfOk result (All (λ row. HasSmallPolicyActionPort row.action)) }
    ensures refused { IfErr result (IsCallRefusal (policy_file_policy_of bytes.now)) }
{
    let Reading { rows, refusal } = read_policy_rows(alloc, bytes)?;
    let number = rows.len() as u32;
    let policy = match Policy::new(alloc, rows) {
        Ok(policy) => policy,
        Err(Failure::Refused(same)) => {
            return Err(PolicyError::Refused(InRow {
                refusal: PolicyRefusal::SamePriority,
                row: same.row,
            }));
        }
        Err(Failure::NoMemory) => return Err(Failure::NoMemory),
    };
    match refusal {
        None => Ok(policy),
        Some(refusal) => Err(PolicyError::Refused(InRow {
            refusal,
            row: number + 1,
        })),
    }
}
