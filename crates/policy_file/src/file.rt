ghost use Rattle.std.specs.Prelude.{◌≡◌, ◌≤◌, Ok, IfOk, IfErr, All, length};
ghost use Rattle.policy_rules.specs.Exports.{PolicyEditAddsOnly, PolicyFileRowsAre, HasSmallPolicyActionPort, IsPolicyAmendment, IsSoundPolicyFile};
ghost use Rattle.policy_file.specs.Changes.{csv_change_of, policy_file_length, is_policy_file_change_text, policy_file_of};
ghost use Rattle.base.specs.Refusals.{IsCallRefusal};

use crate::edit::is_change_heading;
use crate::error::{PolicyError, PolicyRefusal};
use crate::file_rows::{Reading, read_policy_rows};
use crate::read::read_policy;
use base::{Failure, InRow};
use csv_records::{ByteRecord, Records};
use policy_rules::{Amendment, PolicyFile};
use std::alloc::{AllocError, Global};

/// Whether the text is that of a change: whether its first record is the heading of one.
///
/// # Errors
/// Only out of memory.
#[tactic(auto, unfolding(crate::specs::Changes::is_policy_file_change_text))]
pub fn is_change(alloc: Global, bytes: &[u8]) -> Result<bool, AllocError>
    ensures { IfOk result (λ is. is ≡ is_policy_file_change_text bytes.now) }
{
    let mut records = Records::new(alloc, bytes);
    let mut fields = ByteRecord::new(alloc);
    if !records.read_next(&mut fields)? {
        return Ok(false);
    }
    Ok(is_change_heading(&fields))
}

/// Reads the change that the text states.
///
/// The text's records are read like those of a policy: the heading
/// `op,priority,src,dst,sport,dport,proto,action`, and then one for each of at most 2,000 edits,
/// `remove` with the priority of a row, or `add` with the seven fields of one.
///
/// # Errors
/// The first refusal in the text, or out of memory. The rows are checked in order: first what a
/// row does, then its width, then its fields from left to right, and last whether an earlier row
/// does the same to its priority.
#[tactic(auto, unfolding(crate::specs::Changes::csv_change_of))]
pub fn read_change(alloc: Global, bytes: &[u8]) -> Result<Amendment, PolicyError>
    ensures change { IfOk result (λ change. csv_change_of bytes.now ≡ Ok change) }
    ensures sound { IfOk result IsPolicyAmendment }
    ensures few { IfOk result (λ change. length change ≤ 2000) }
    ensures small_ports { IfOk result (All (PolicyEditAddsOnly (λ row. HasSmallPolicyActionPort row.action))) }
    ensures refused { IfErr result (IsCallRefusal (csv_change_of bytes.now)) }
{
    let Reading { rows, refusal } = read_policy_rows(alloc, bytes)?;
    let number = rows.len() as u32;
    let change = match Amendment::of_edits(alloc, rows) {
        Ok(change) => change,
        Err(Failure::Refused(repeated)) => {
            return Err(PolicyError::Refused(InRow {
                refusal: PolicyRefusal::SamePriority,
                row: repeated.edit,
            }));
        }
        Err(Failure::NoMemory) => return Err(Failure::NoMemory),
    };
    match refusal {
        None => Ok(change),
        Some(refusal) => Err(PolicyError::Refused(InRow {
            refusal,
            row: number + 1,
        })),
    }
}

/// Reads what the text states: a change if its first record is the heading of one, or a policy.
///
/// # Errors
/// Those of `read_change` or of `read_policy`: `Header` exactly if the first record is
/// absent or neither of the two headings.
#[tactic(auto, unfolding(crate::specs::Changes::policy_file_of))]
pub fn read_file(alloc: Global, bytes: &[u8]) -> Result<PolicyFile, PolicyError>
    ensures file { IfOk result (λ file. policy_file_of bytes.now ≡ Ok file) }
    ensures sound { IfOk result IsSoundPolicyFile }
    ensures few { IfOk result (λ file. policy_file_length file ≤ 2000) }
    ensures small_ports { IfOk result (PolicyFileRowsAre (λ row. HasSmallPolicyActionPort row.action)) }
    ensures refused { IfErr result (IsCallRefusal (policy_file_of bytes.now)) }
{
    let is_change = is_change(alloc, bytes)?;
    if is_change {
        return Ok(PolicyFile::Change(read_change(alloc, bytes)?));
    }
    Ok(PolicyFile::Whole(read_policy(alloc, bytes)?))
}
