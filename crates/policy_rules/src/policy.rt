ghost use Rattle.std.specs.Prelude.{◌≡◌, ◌<◌, ◌^◌, nat_lt, true, IfOk, IfErr, IsTrue, OnOk, vec_len, length, Some};
ghost use Rattle.std.specs.Option.{option_map_or};
ghost use Rattle.five_tuple.specs.SoundFields.{IsPortRange, IsProtocol};
ghost use Rattle.policy_rules.specs.Exports.{IsFirstPolicyMatch, IsHighestPolicyMatch, IsPolicy, IsSoundPolicyRow, RefusesSamePriorityPolicyRows, policy_hit_of, policy_row_matches, scan};
ghost use Rattle.base.specs.Refusals.{IfRefused};

use base::Failure;
use five_tuple::{Fields, Header, PortRange, Prefix, Proto};
use std::alloc::{AllocError, Global};
use std::collections::BTreeSet;
use std::marker::Model;
use thiserror::Error;

/// What a policy row does with a packet that it decides.
#[derive(Clone, Copy, Debug, PartialEq, Eq)]
pub enum Action {
    Drop,
    /// Forward by the port of this number.
    Out(u32),
}

/// A row of a policy: the headers that it matches by their five fields, and what becomes of them.
///
/// Of two rows that match a header, the one of the greater priority decides.
#[derive(Clone, Copy, Debug, PartialEq, Eq)]
pub struct Row {
    pub priority: u32,
    pub src: Prefix,
    pub dst: Prefix,
    pub sport: PortRange,
    pub dport: PortRange,
    pub proto: Proto,
    pub action: Action,
}

/// The first match of a header: the row's priority, or `None` for the default, and the action.
#[derive(Clone, Copy, Debug, PartialEq, Eq)]
pub struct Hit {
    pub rule: Option<u32>,
    pub action: Action,
}

/// Why rows are no policy: this one, counted from 1, is the first with an earlier row's priority.
#[derive(Clone, Copy, Debug, PartialEq, Eq, Error)]
#[error("row {row} has the priority of an earlier row")]
pub struct SamePriority {
    pub row: u32,
}

/// Rows of distinct priorities, in the order in which they were given. Contracts see the list of
/// the rows, for which `IsPolicy` is true. A clone equals its policy.
#[derive(Drop)]
pub struct Policy {
    rows: Vec<Row>,
}

impl Model for Policy {
    ghost use Rattle.std.specs.Prelude.{List};
    ghost use Rattle.policy_rules.specs.declared.policy.Row.{Row};
    ghost use Rattle.policy_rules.specs.SoundPolicies.{IsPolicy};

    ghost Value = { List Row };

    ghost view = { λ p. p.rows.items };

    ghost invariant = { λ p. IsPolicy p.rows.items };
}

impl Row {
    /// Whether each of the five fields matches.
    pub fn matches(&self, fields: &Fields) -> bool
        ensures { result ≡ policy_row_matches self.now fields.now }
    {
        self.src.matches(fields.src)
            && self.dst.matches(fields.dst)
            && self.sport.matches(fields.sport)
            && self.dport.matches(fields.dport)
            && self.proto.matches(fields.proto)
    }
}

impl Hit {
    /// What becomes of a header that no row matches.
    pub const DEFAULT: Hit = Hit {
        rule: None,
        action: Action::Drop,
    };

    /// The first match of a header that this row decides.
    pub fn of(row: &Row) -> Hit
        ensures { result ≡ policy_hit_of (Some row.now) }
    {
        Hit {
            rule: Some(row.priority),
            action: row.action,
        }
    }
}

impl Policy {
    /// The policy of these rows.
    ///
    /// # Errors
    /// `SamePriority` exactly if two rows have the same priority; otherwise only out of memory.
    pub fn new(alloc: Global, rows: Vec<Row>) -> Result<Policy, Failure<SamePriority>>
        requires { vec_len rows < 2 ^ 32 }
        ensures rows { IfOk result (λ policy. policy ≡ rows.items) }
        ensures policy { OnOk result (IsPolicy rows.items) }
        ensures refused { IfErr result (IfRefused (RefusesSamePriorityPolicyRows rows.items)) }
    {
        check_policy_row_priorities(alloc, &rows)?;
        Ok(Policy { rows })
    }

    /// The policy of rows for which `IsPolicy` is known to be true.
    pub(crate) fn from_sound(rows: Vec<Row>) -> Policy
        requires { IsPolicy rows.items }
        ensures rows { result ≡ rows.items }
        ensures policy { IsPolicy result }
    {
        Policy { rows }
    }

    /// The rows as they were given.
    pub fn rows(&self) -> &[Row]
        ensures rows { result.now ≡ self.now }
        ensures policy { IsPolicy self.now }
    {
        &self.rows
    }

    /// The first match of the header: of the rows that match, the one of greatest priority decides.
    pub fn scan(&self, header: &Header) -> Hit
        ensures value { result ≡ scan self.now header.now }
        ensures first_match { IsFirstPolicyMatch self.now header.now result }
    {
        match highest_match(self.rows(), &header.fields()) {
            None => Hit::DEFAULT,
            Some(row) => Hit::of(row),
        }
    }
}

impl Clone for Policy {
    ghost is_clone = { λ policy copy. copy ≡ policy };

    fn clone(&self) -> Result<Policy, AllocError> {
        let rows = Vec::from_slice(*self.rows.allocator(), self.rows())?;
        Ok(Policy { rows })
    }
}

// Of the rows that match, the one of the greatest priority; `None` if no row matches.
fn highest_match<'a>(rows: &'a [Row], fields: &Fields) -> Option<&'a Row>
    ensures { IsHighestPolicyMatch rows.now fields.now result }
{
    let mut best: Option<&Row> = None;
    for row in rows {
        if row.matches(fields) && exceeds(row, best) {
            best = Some(row);
        }
    }
    best
}

// Whether the row exceeds the other in priority, or there is no other.
fn exceeds(row: &Row, other: Option<&Row>) -> bool
    ensures { result ≡
        option_map_or (λ other. nat_lt other.now.priority row.now.priority) other.entry true }
{
    match other {
        None => true,
        Some(other) => other.priority < row.priority,
    }
}

// Finds the first row that has an earlier row's priority.
fn check_policy_row_priorities(alloc: Global, rows: &[Row]) -> Result<(), Failure<SamePriority>>
    requires { length rows.now < 2 ^ 32 }
    ensures policy { OnOk result (IsPolicy rows.now) }
    ensures refused { IfErr result (IfRefused (RefusesSamePriorityPolicyRows rows.now)) }
{
    // No priority needs to be remembered if each row has a lower one than the row before.
    let falling = are_priorities_falling(rows);
    if falling {
        return Ok(());
    }
    let mut seen: BTreeSet<u32> = BTreeSet::new(alloc);
    let mut number = 0u32;
    for row in rows {
        number += 1;
        // For the proof: the fields of a row satisfy the invariants of their types.
        row_is_sound(row);
        if !seen.insert(row.priority)? {
            return Err(Failure::Refused(SamePriority { row: number }));
        }
    }
    Ok(())
}

// Whether the priorities fall from row to row, so that no two are equal.
fn are_priorities_falling(rows: &[Row]) -> bool
    requires { length rows.now < 2 ^ 32 }
    ensures { IsTrue result → IsPolicy rows.now }
{
    let mut above = 1u64 << 32;
    for row in rows {
        // For the proof: the fields of a row satisfy the invariants of their types.
        row_is_sound(row);
        let priority = u64::from(row.priority);
        if priority >= above {
            return false;
        }
        above = priority;
    }
    true
}

/// Each field of a row satisfies the invariant of its type. The body reads the fields, because a
/// proof gets the invariant of a field when the field is read.
pub fn row_is_sound(row: &Row)
    ensures { IsSoundPolicyRow row.now }
{
    let _priority = row.priority;
    let _ = (row.src.len, row.dst.len);
    row_range_is_sound(&row.sport);
    row_range_is_sound(&row.dport);
    row_proto_is_sound(&row.proto);
}

fn row_range_is_sound(range: &PortRange)
    ensures { IsPortRange range.now }
{
    let PortRange {
        low: _low,
        high: _high,
    } = *range;
}

fn row_proto_is_sound(proto: &Proto)
    ensures { IsProtocol proto.now }
{
    if let Proto::Is(number) = proto {
        let _number = *number;
    }
}
