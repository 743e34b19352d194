ghost use Rattle.std.specs.Prelude.{◌≡◌, drop, IfOk};
ghost use Rattle.csv.specs.Records.{fields_of};
ghost use Rattle.csv_records.specs.Texts.{is_csv_heading};
ghost use Rattle.policy_rules.specs.Exports.{PolicyEditAddsOnly, HasSmallPolicyActionPort};
ghost use Rattle.policy_file.specs.Changes.{policy_file_change_heading, csv_policy_edit_read, csv_policy_removal_read};

use crate::error::PolicyRefusal;
use crate::row::{is_heading, read_policy_file_row, read_priority};
use csv_records::{ByteRecord, csv_field_has_text, field};
use policy_rules::Edit;

// The name of an edit's first field, and the keywords of that field.
pub const OP: &str = "op";

pub const REMOVE: &str = "remove";

pub const ADD: &str = "add";

/// Whether the record is the heading of a change.
#[tactic(auto, using(crate::proofs::PolicyFileEdits::edits))]
pub fn is_change_heading(fields: &ByteRecord) -> bool
    ensures { result ≡ is_csv_heading policy_file_change_heading (fields_of fields.now) }
{
    csv_field_has_text(fields, 0, OP) && is_heading(fields, 1)
}

/// The edit that the record states: after `remove` the priority of a row, and after `add` the
/// fields of one.
///
/// # Errors
/// `Op` if the first field is neither, `Width` if the wrong number of fields follows it; otherwise
/// the refusal of the first field that can't be read.
#[tactic(auto, using(crate::proofs::PolicyFileEdits::edits))]
pub fn read_edit(fields: &ByteRecord) -> Result<Edit, PolicyRefusal>
    ensures edit { result ≡ csv_policy_edit_read (fields_of fields.now) }
    ensures small_port { IfOk result (PolicyEditAddsOnly (λ row. HasSmallPolicyActionPort row.action)) }
{
    if csv_field_has_text(fields, 0, REMOVE) {
        return read_removal(fields);
    }
    if csv_field_has_text(fields, 0, ADD) {
        return Ok(Edit::Add(read_policy_file_row(fields, 1)?));
    }
    Err(PolicyRefusal::Op)
}

// The edit that removes the row of a priority, which is the second and last field.
#[tactic(auto, using(crate::proofs::PolicyFileEdits::edits))]
fn read_removal(fields: &ByteRecord) -> Result<Edit, PolicyRefusal>
    ensures edit { result ≡ csv_policy_removal_read (drop 1 (fields_of fields.now)) }
    ensures small_port { IfOk result (PolicyEditAddsOnly (λ row. HasSmallPolicyActionPort row.action)) }
{
    if fields.len() != 2 {
        return Err(PolicyRefusal::Width);
    }
    let priority = read_priority(field(fields, 1)).ok_or(PolicyRefusal::Priority)?;
    Ok(Edit::Remove(priority))
}
