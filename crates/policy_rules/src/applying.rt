ghost use Rattle.std.specs.Prelude.{◌≡◌, ◌≤◌, ◌==◌, ℕ, Ok, IfOk, IfErr, filter, length, map, not};
ghost use Rattle.std.specs.List.{list_any};
ghost use Rattle.std.specs.BTreeSet.{contains};
ghost use Rattle.std.specs.Ordering.{nat_cmp};
ghost use Rattle.policy_rules.specs.Exports.{IsPolicy, policy_change_applied};
ghost use Rattle.base.specs.Refusals.{IsCallRefusal};

use crate::amendment::Amendment;
use crate::policy::{Policy, Row};
use base::Failure;
use std::alloc::{AllocError, Global};
use std::collections::BTreeSet;
use thiserror::Error;

/// The most rows of a policy file, and of a policy that a change makes.
pub const MAX_ROWS: usize = 2000;

/// Why a change can't be applied to a policy.
#[derive(Clone, Copy, Debug, PartialEq, Eq, Error)]
pub enum Inapplicable {
    /// The policy has no row of a priority that is removed.
    #[error("a row that is removed isn't there")]
    Absent,
    /// An added row has the priority of a row that stays.
    #[error("an added row has the priority of one that stays")]
    Taken,
    /// There would be this many rows, which are more than 2,000.
    #[error("there would be {rows} rows")]
    TooManyRows { rows: u64 },
}

/// Why a change isn't applied to a policy: it can't be, or memory ran out.
pub type ApplyError = Failure<Inapplicable>;

/// The policy with the change applied to it: its rows whose priorities aren't removed, in order,
/// and then the added ones.
///
/// # Errors
/// The first of these: `Absent` exactly if a removed priority belongs to no row, `Taken`
/// exactly if an added row has the priority of one that stays, `TooManyRows` exactly if there
/// would be more than 2,000 rows. Otherwise only out of memory.
pub fn apply(alloc: Global, policy: &Policy, change: &Amendment) -> Result<Policy, ApplyError>
    ensures applied { IfOk result (λ amended. policy_change_applied policy.now change.now ≡ Ok amended) }
    ensures policy { IfOk result IsPolicy }
    ensures few { IfOk result (λ amended. length amended ≤ 2000) }
    ensures refused { IfErr result (IsCallRefusal (policy_change_applied policy.now change.now)) }
{
    let rows = policy.rows();
    let removed = change.removed();
    let added = change.added();
    let mut amended = rows_after_removal(alloc, rows, removed)?;
    // Neither list has a priority twice, so each removed priority belongs to one row or to none.
    if rows.len() < amended.len() + removed.len() {
        return Err(ApplyError::Refused(Inapplicable::Absent));
    }
    let new = row_priorities_of(alloc, added)?;
    if some_policy_row_has_priority(&amended, &new) {
        return Err(ApplyError::Refused(Inapplicable::Taken));
    }
    amended.extend_from_slice(added)?;
    if amended.len() > MAX_ROWS {
        return Err(ApplyError::Refused(Inapplicable::TooManyRows {
            rows: amended.len() as u64,
        }));
    }
    Ok(Policy::from_sound(amended))
}

// The rows whose priorities aren't removed.
fn rows_after_removal(alloc: Global, rows: &[Row], removed: &[u32]) -> Result<Vec<Row>, AllocError>
    ensures { IfOk result (λ staying. staying.items ≡ filter
        (λ row. not (list_any (λ priority. priority == row.priority) removed.now)) rows.now) }
{
    let gone: BTreeSet<u32> = removed.iter().copied().collect(alloc)?;
    let staying = rows.iter().filter(|row| !gone.contains(&row.priority));
    staying.copied().collect(alloc)
}

// The set of the rows' priorities.
fn row_priorities_of(alloc: Global, rows: &[Row]) -> Result<BTreeSet<u32>, AllocError>
    ensures { IfOk result (λ set. (q : ℕ) → contains nat_cmp set q
        ≡ list_any (λ priority. priority == q) (map (λ row. row.priority) rows.now)) }
{
    rows.iter().map(|row| row.priority).collect(alloc)
}

// Whether one of the rows has a priority of the set.
fn some_policy_row_has_priority(rows: &[Row], priorities: &BTreeSet<u32>) -> bool
    ensures { result ≡ list_any (λ row. contains nat_cmp priorities.now row.priority) rows.now }
{
    rows.iter().any(|row| priorities.contains(&row.priority))
}
