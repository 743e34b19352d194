ghost use Rattle.std.specs.Prelude.{ℕ, ◌≡◌, ◌<◌, ◌≤◌, ◌^◌, ◌++◌, Ok, Some, All, IfOk, List, OnOk, decimal, length};
ghost use Rattle.std.specs.List.{join_with_byte};
ghost use Rattle.std.specs.String.{string_bytes};
ghost use Rattle.five_tuple.specs.Texts.{tuple_number_up_to};
ghost use Rattle.policy_rules.specs.Exports.{PolicyEditAddsOnly, HasSmallPolicyActionPort, IsPolicyAmendment, IsPolicy, IsSoundPolicyRow};
ghost use Rattle.policy_rules.specs.declared.amendment.Edit.{Edit};
ghost use Rattle.policy_rules.specs.declared.file.PolicyFile.TheVariants.{Whole, Change};
ghost use Rattle.policy_rules.specs.declared.policy.Row.{Row};
ghost use Rattle.policy_file.specs.Changes.{policy_file_change_heading, csv_change_of, policy_file_of};
ghost use Rattle.policy_file.specs.Printing.{policy_file_change_text, policy_file_edit_fields, policy_file_fields_line, policy_file_text, policy_file_row_fields, policy_file_rows_text};
ghost use Rattle.policy_file.specs.Reading.{policy_file_heading, policy_file_policy_of, csv_policy_row_read};

use crate::edit::{ADD, REMOVE};
use five_tuple::{tuple_fields_print_plain, tuple_fields_read_back};
use policy_rules::{Amendment, Edit, Policy, Row, printed_rule_actions_read_back};
use std::alloc::{AllocError, Global};
use std::fmt;
use std::fmt::Write;

/// The policy's text: the heading and a record for each row, each with a line feed at its end.
///
/// # Errors
/// Only out of memory.
pub fn write_policy(alloc: Global, policy: &Policy) -> Result<Vec<u8>, AllocError>
    ensures text { IfOk result (λ bytes. bytes.items ≡ policy_file_text policy.now) }
    ensures read_back { IfOk result (λ bytes. length policy.now ≤ 2000
        → All (λ row. HasSmallPolicyActionPort row.action) policy.now → policy_file_policy_of bytes.items ≡ Ok policy.now) }
{
    policy_texts_are_read_back();
    Ok(policy_csv_text_of(alloc, policy.rows())?)
}

/// The change's text: the heading and a record for each edit, each with a line feed at its end.
///
/// # Errors
/// Only out of memory.
pub fn write_change(alloc: Global, change: &Amendment) -> Result<Vec<u8>, AllocError>
    ensures text { IfOk result (λ bytes. bytes.items ≡ policy_file_change_text change.now) }
    ensures read_back { IfOk result (λ bytes. length change.now ≤ 2000
        → All (PolicyEditAddsOnly (λ row. HasSmallPolicyActionPort row.action)) change.now
        → policy_file_of bytes.items ≡ Ok (Change change.now)) }
{
    change_texts_are_read_back();
    Ok(policy_csv_text_of(alloc, change.edits())?)
}

/// The text of a policy is read back to the policy, for at most 2,000 rows with ports below 64: a
/// law about the texts only.
pub fn policy_texts_are_read_back()
    ensures policy { (rows : List Row) → IsPolicy rows → length rows ≤ 2000
        → All (λ row. HasSmallPolicyActionPort row.action) rows → policy_file_policy_of (policy_file_text rows) ≡ Ok rows }
    ensures file { (rows : List Row) → IsPolicy rows → length rows ≤ 2000
        → All (λ row. HasSmallPolicyActionPort row.action) rows
        → policy_file_of (policy_file_text rows) ≡ Ok (Whole rows) }
{
    row_fields_state_the_row();
    tuple_fields_print_plain();
}

/// The text of a change is read back to the change, for at most 2,000 edits that add rows with
/// ports below 64: a law about the texts only.
pub fn change_texts_are_read_back()
    ensures change { (edits : List Edit) → IsPolicyAmendment edits → length edits ≤ 2000
        → All (PolicyEditAddsOnly (λ row. HasSmallPolicyActionPort row.action)) edits
        → csv_change_of (policy_file_change_text edits) ≡ Ok edits }
    ensures file { (edits : List Edit) → IsPolicyAmendment edits → length edits ≤ 2000
        → All (PolicyEditAddsOnly (λ row. HasSmallPolicyActionPort row.action)) edits
        → policy_file_of (policy_file_change_text edits) ≡ Ok (Change edits) }
{
    row_fields_state_the_row();
    priorities_are_read_back();
    tuple_fields_print_plain();
}

// The printed fields of a row whose port is below 64 state the row: a law about the texts only.
fn row_fields_state_the_row()
    ensures { (row : Row) → IsSoundPolicyRow row → HasSmallPolicyActionPort row.action
        → csv_policy_row_read (policy_file_row_fields row) ≡ Ok row }
{
    priorities_are_read_back();
    tuple_fields_read_back();
    printed_rule_actions_read_back();
}

// A priority is read back from its digits: a law about the texts only.
fn priorities_are_read_back()
    ensures { (priority : ℕ) → priority < 2 ^ 32
        → tuple_number_up_to 4294967295 (decimal priority) ≡ Some priority }
{
    tuple_fields_read_back();
}

// A row that is written as a CSV record.
trait PolicyFileRecord {
    /// The heading of such records.
    ghost heading: { List (List ℕ) };

    /// The printed forms of the record's fields.
    ghost fields: { Self → List (List ℕ) };

    /// Appends the heading's line.
    fn write_heading(text: &mut String) -> Result<(), AllocError>
        ensures { OnOk result
            (string_bytes text.new ≡ string_bytes text.old ++ policy_file_fields_line heading) };

    /// Appends the record's line.
    fn write(&self, text: &mut String) -> Result<(), AllocError>
        ensures { OnOk result
            (string_bytes text.new ≡ string_bytes text.old ++ policy_file_fields_line (fields self.now)) };
}

impl PolicyFileRecord for Row {
    ghost heading = { policy_file_heading };

    ghost fields = { policy_file_row_fields };

    fn write_heading(text: &mut String) -> Result<(), AllocError> {
        text.push_str("priority,src,dst,sport,dport,proto,action\n")
    }

    fn write(&self, text: &mut String) -> Result<(), AllocError> {
        let record = RowRecord(*self);
        writeln!(text, "{record}")?;
        Ok(())
    }
}

impl PolicyFileRecord for Edit {
    ghost heading = { policy_file_change_heading };

    ghost fields = { policy_file_edit_fields };

    fn write_heading(text: &mut String) -> Result<(), AllocError> {
        text.push_str("op,priority,src,dst,sport,dport,proto,action\n")
    }

    fn write(&self, text: &mut String) -> Result<(), AllocError> {
        match self {
            Edit::Remove(priority) => writeln!(text, "{REMOVE},{priority}")?,
            Edit::Add(row) => {
                let record = RowRecord(*row);
                writeln!(text, "{ADD},{record}")?
            }
        }
        Ok(())
    }
}

// The heading's line, and then a line for each row.
fn policy_csv_text_of<R: PolicyFileRecord>(alloc: Global, rows: &[R]) -> Result<Vec<u8>, AllocError>
    ensures { IfOk result (λ bytes.
        bytes.items ≡ policy_file_fields_line R.heading ++ policy_file_rows_text R.fields rows.now) }
{
    let mut text = String::new(alloc);
    R::write_heading(&mut text)?;
    write_policy_csv_rows(&mut text, rows)?;
    Ok(text.into_bytes())
}

// Appends a line for each row.
fn write_policy_csv_rows<R: PolicyFileRecord>(
    text: &mut String,
    rows: &[R],
) -> Result<(), AllocError>
    ensures { OnOk result
        (string_bytes text.new ≡ string_bytes text.old ++ policy_file_rows_text R.fields rows.now) }
{
    for row in rows {
        row.write(text)?;
    }
    Ok(())
}

// A row, printed as the fields of its record, joined by commas.
#[derive(Clone, Copy)]
struct RowRecord(Row);

impl fmt::Display for RowRecord {
    ghost output = { λ r. Some (join_with_byte 44 (policy_file_row_fields r.0)) };

    fn fmt<W: fmt::Write>(&self, f: &mut fmt::Formatter<W>) -> fmt::Result {
        let Row {
            priority,
            src,
            dst,
            sport,
            dport,
            proto,
            action,
        } = self.0;
        write!(f, "{priority},{src},{dst},{sport},{dport},{proto},{action}")
    }
}
