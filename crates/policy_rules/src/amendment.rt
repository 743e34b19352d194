ghost use Rattle.std.specs.Prelude.{◌≡◌, ◌+◌, ◌<◌, ◌^◌, ◌++◌, ◌∷◌, [], List, IfOk, IfErr, OnOk, length, vec_len, not};
ghost use Rattle.std.specs.BTreeSet.{contains};
ghost use Rattle.std.specs.Ordering.{nat_cmp};
ghost use Rattle.policy_rules.specs.Exports.{ArePolicyEditsSeen, IsPolicyAmendment, IsSoundPolicyEdit, RefusesPolicyEdits, policy_addition, policy_additions, policy_edits_of, policy_edit_removes, policy_removals, policy_edit_repeats};
ghost use Rattle.policy_rules.specs.declared.amendment.Edit.{Edit};
ghost use Rattle.base.specs.Refusals.{IfRefused};

use crate::policy::{Row, row_is_sound};
use base::Failure;
use std::alloc::{AllocError, Global};
use std::collections::BTreeSet;
use std::marker::Model;
use thiserror::Error;

/// A row of a change: it removes the row of a priority, or adds a row.
#[derive(Clone, Copy, Debug, PartialEq, Eq)]
pub enum Edit {
    /// Removes the policy's row of this priority.
    Remove(u32),
    /// Adds this row.
    Add(Row),
}

/// Why edits are no amendment: this one, counted from 1, is the first that repeats an earlier one.
/// Both remove the row of the same priority, or both add one.
#[derive(Clone, Copy, Debug, PartialEq, Eq, Error)]
#[error("edit {edit} repeats an earlier one")]
pub struct Repeated {
    pub edit: u32,
}

/// A change of a policy, as an operator gives it: edits, of which no two remove the row of the same
/// priority, and no two add one. Contracts see the list of edits, which meets `IsPolicyAmendment`.
///
/// A priority may be removed and added again, which replaces its row.
#[derive(Drop)]
pub struct Amendment {
    edits: Vec<Edit>,
    // What the edits remove and add.
    removed: Vec<u32>,
    added: Vec<Row>,
}

impl Model for Amendment {
    ghost use Rattle.std.specs.Prelude.{List};
    ghost use Rattle.policy_rules.specs.declared.amendment.Edit.{Edit};
    ghost use Rattle.policy_rules.specs.Edits.{ArePolicyEditsHeld};

    ghost Value = { List Edit };

    ghost view = { λ a. a.edits.items };

    ghost invariant = { λ a. ArePolicyEditsHeld a.edits.items a.removed.items a.added.items };
}

impl Amendment {
    /// The amendment that removes the rows of these priorities and then adds these rows.
    ///
    /// # Errors
    /// `Repeated` exactly if a priority occurs twice in one of the lists. The count of
    /// edits runs over the removed priorities and then over the added rows: a number greater than
    /// the count of removed priorities names an added row. Otherwise only out of memory.
    pub fn new(
        alloc: Global,
        removed: Vec<u32>,
        added: Vec<Row>,
    ) -> Result<Amendment, Failure<Repeated>>
        requires { vec_len removed + vec_len added < 2 ^ 32 }
        ensures edits { IfOk result (λ change. change ≡ policy_edits_of removed.items added.items) }
        ensures removed { IfOk result (λ change. policy_removals change ≡ removed.items) }
        ensures added { IfOk result (λ change. policy_additions change ≡ added.items) }
        ensures amendment { OnOk result (IsPolicyAmendment (policy_edits_of removed.items added.items)) }
        ensures refused { IfErr result
            (IfRefused (RefusesPolicyEdits (policy_edits_of removed.items added.items))) }
    {
        let edits = list_edits(alloc, &removed, &added)?;
        check_edits(alloc, &edits)?;
        Ok(Amendment {
            edits,
            removed,
            added,
        })
    }

    /// The amendment of these edits.
    ///
    /// # Errors
    /// `Repeated` exactly if an edit repeats an earlier one; otherwise only out of memory.
    pub fn of_edits(alloc: Global, edits: Vec<Edit>) -> Result<Amendment, Failure<Repeated>>
        requires { vec_len edits < 2 ^ 32 }
        ensures edits { IfOk result (λ change. change ≡ edits.items) }
        ensures amendment { OnOk result (IsPolicyAmendment edits.items) }
        ensures refused { IfErr result (IfRefused (RefusesPolicyEdits edits.items)) }
    {
        check_edits(alloc, &edits)?;
        let removed = list_removals(alloc, &edits)?;
        let added = list_additions(alloc, &edits)?;
        Ok(Amendment {
            edits,
            removed,
            added,
        })
    }

    /// The edits, in the order in which they were given.
    pub fn edits(&self) -> &[Edit]
        ensures edits { result.now ≡ self.now }
        ensures amendment { IsPolicyAmendment self.now }
    {
        &self.edits
    }

    /// The priorities of the rows that are removed, in the order of the edits.
    pub fn removed(&self) -> &[u32]
        ensures { result.now ≡ policy_removals self.now }
    {
        &self.removed
    }

    /// The rows that are added, in the order of the edits.
    pub fn added(&self) -> &[Row]
        ensures rows { result.now ≡ policy_additions self.now }
        ensures amendment { IsPolicyAmendment self.now }
    {
        &self.added
    }
}

// The edits that remove the rows of these priorities and then add these rows.
fn list_edits(alloc: Global, removed: &[u32], added: &[Row]) -> Result<Vec<Edit>, AllocError>
    ensures { IfOk result (λ edits. edits.items ≡ policy_edits_of removed.now added.now) }
{
    let removals = removed.iter().map(|priority| Edit::Remove(*priority));
    let additions = added.iter().map(|row| Edit::Add(*row));
    removals.chain(additions).collect(alloc)
}

fn policy_edit_removes(edit: &Edit) -> Option<u32>
    ensures { result ≡ policy_edit_removes edit.now }
{
    match edit {
        Edit::Remove(priority) => Some(*priority),
        Edit::Add(_) => None,
    }
}

fn policy_addition(edit: &Edit) -> Option<Row>
    ensures { result ≡ policy_addition edit.now }
{
    match edit {
        Edit::Remove(_) => None,
        Edit::Add(row) => Some(*row),
    }
}

fn list_removals(alloc: Global, edits: &[Edit]) -> Result<Vec<u32>, AllocError>
    ensures { IfOk result (λ removed. removed.items ≡ policy_removals edits.now) }
{
    edits.iter().filter_map(policy_edit_removes).collect(alloc)
}

fn list_additions(alloc: Global, edits: &[Edit]) -> Result<Vec<Row>, AllocError>
    ensures { IfOk result (λ added. added.items ≡ policy_additions edits.now) }
{
    edits.iter().filter_map(policy_addition).collect(alloc)
}

// Finds the first edit that repeats an earlier one.
fn check_edits(alloc: Global, edits: &[Edit]) -> Result<(), Failure<Repeated>>
    requires { length edits.now < 2 ^ 32 }
    ensures amendment { OnOk result (IsPolicyAmendment edits.now) }
    ensures refused { IfErr result (IfRefused (RefusesPolicyEdits edits.now)) }
{
    let mut removed: BTreeSet<u32> = BTreeSet::new(alloc);
    let mut added: BTreeSet<u32> = BTreeSet::new(alloc);
    let mut number = 0u32;
    for edit in edits {
        number += 1;
        // For the proof: the fields of an edit satisfy the invariants of their types.
        policy_edit_is_sound(edit);
        if !is_policy_edit_new(&mut removed, &mut added, edit)? {
            return Err(Failure::Refused(Repeated { edit: number }));
        }
    }
    Ok(())
}

// Whether no earlier edit did the same at this edit's priority. The sets have the priorities of the
// rows that earlier edits removed and added; afterwards they have this edit's, too.
fn is_policy_edit_new(
    removed: &mut BTreeSet<u32>,
    added: &mut BTreeSet<u32>,
    edit: &Edit,
) -> Result<bool, AllocError>
    ensures new { IfOk result (λ new. (earlier : List Edit)
        → ArePolicyEditsSeen (contains nat_cmp removed.old) (contains nat_cmp added.old) earlier
        → new ≡ not (policy_edit_repeats earlier edit.now)) }
    ensures seen { OnOk result ((earlier : List Edit)
        → ArePolicyEditsSeen (contains nat_cmp removed.old) (contains nat_cmp added.old) earlier
        → ArePolicyEditsSeen (contains nat_cmp removed.new) (contains nat_cmp added.new)
        (earlier ++ edit.now ∷ [])) }
{
    match edit {
        Edit::Remove(priority) => Ok(removed.insert(*priority)?),
        Edit::Add(row) => Ok(added.insert(row.priority)?),
    }
}

// Each field of an edit satisfies the invariant of its type.
fn policy_edit_is_sound(edit: &Edit)
    ensures { IsSoundPolicyEdit edit.now }
{
    match edit {
        Edit::Remove(priority) => {
            let _priority = *priority;
        }
        Edit::Add(row) => row_is_sound(row),
    }
}
