ghost use Rattle.std.specs.Prelude.{◌≡◌, ◌<◌, All, IfNone, IfSome, IsTrue, OnOk, length, not, position};
ghost use Rattle.std.specs.Result.{result_err};
ghost use Rattle.policy_rules.specs.Exports.{PolicyEditAddsOnly, PolicyFileRowsAre};
ghost use Rattle.policy_file.specs.Ports.{policy_edit_fits_ports, first_in_policy_change_file, first_in_policy_file, policy_file_first_row_without_port, action_names_only_ports};

use base::has;
use policy_rules::{Action, Amendment, Edit, Policy, PolicyFile, Row};
use thiserror::Error;

/// A row, counted from 1, whose action names a port that doesn't exist.
#[derive(Clone, Copy, Debug, PartialEq, Eq, Error)]
#[error("row {row} names a port that doesn't exist")]
pub struct NoPort {
    pub row: u32,
}

// Whether the action names no port, or one of the mask.
fn action_names_only_ports(ports: u64, action: Action) -> bool
    ensures { result ≡ action_names_only_ports ports action }
{
    match action {
        Action::Drop => true,
        Action::Out(port) => port < 64 && has(ports, port),
    }
}

// The place of the first row whose action names a port outside the mask.
fn policy_file_row_without_port(ports: u64, rows: &[Row]) -> Option<usize>
    ensures place { result ≡ position (λ row. not (action_names_only_ports ports row.action)) rows.now }
    ensures there { IfSome result (λ place. place < length rows.now) }
    ensures all { IfNone result (All (λ row. IsTrue (action_names_only_ports ports row.action)) rows.now) }
{
    rows.iter()
        .position(|row| !action_names_only_ports(ports, row.action))
}

/// Checks that each action names no port, or one of the mask, in which bit p is for port p.
///
/// # Errors
/// The first row whose action names another port; a port of 64 or more is in no mask.
pub fn check_ports(policy: &Policy, ports: u64) -> Result<(), NoPort>
    ensures first { result_err result ≡ policy_file_first_row_without_port ports policy.now }
    ensures all { OnOk result (All (λ row. IsTrue (action_names_only_ports ports row.action)) policy.now) }
{
    match policy_file_row_without_port(ports, policy.rows()) {
        None => Ok(()),
        Some(place) => Err(NoPort {
            row: place as u32 + 1,
        }),
    }
}

// Whether the edit adds no row, or one whose action names no port or one of the mask.
fn policy_edit_fits_ports(ports: u64, edit: &Edit) -> bool
    ensures { result ≡ policy_edit_fits_ports ports edit.now }
{
    match edit {
        Edit::Remove(_) => true,
        Edit::Add(row) => action_names_only_ports(ports, row.action),
    }
}

// The place of the first edit that adds a row whose action names a port outside the mask.
fn policy_file_edit_without_port(ports: u64, edits: &[Edit]) -> Option<usize>
    ensures place { result ≡ position (λ edit. not (policy_edit_fits_ports ports edit)) edits.now }
    ensures there { IfSome result (λ place. place < length edits.now) }
    ensures all { IfNone result (All (λ edit. IsTrue (policy_edit_fits_ports ports edit)) edits.now) }
{
    edits
        .iter()
        .position(|edit| !policy_edit_fits_ports(ports, edit))
}

/// Checks that the action of each row that the file states names a port of the mask, or none: the
/// rows of a policy, or those that a change adds.
///
/// # Errors
/// The first row of the file whose action names another port.
pub fn check_policy_file_ports(file: &PolicyFile, ports: u64) -> Result<(), NoPort>
    ensures first { result_err result ≡ first_in_policy_file ports file.now }
    ensures all { OnOk result
        (PolicyFileRowsAre (λ row. IsTrue (action_names_only_ports ports row.action)) file.now) }
{
    match file {
        PolicyFile::Whole(policy) => check_ports(policy, ports),
        PolicyFile::Change(change) => check_change_ports(change, ports),
    }
}

fn check_change_ports(change: &Amendment, ports: u64) -> Result<(), NoPort>
    ensures first { result_err result ≡ first_in_policy_change_file ports change.now }
    ensures all { OnOk result
        (All (PolicyEditAddsOnly (λ row. IsTrue (action_names_only_ports ports row.action))) change.now) }
{
    match policy_file_edit_without_port(ports, change.edits()) {
        None => Ok(()),
        Some(place) => Err(NoPort {
            row: place as u32 + 1,
        }),
    }
}
