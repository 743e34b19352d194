ghost use Rattle.std.specs.Prelude.{◌≡◌, ◌<◌, ◌+◌, ◌^◌, ◌&&◌, [], ◌∷◌, drop, IfOk, bytes_eq};
ghost use Rattle.csv.specs.Records.{fields_of};
ghost use Rattle.csv_records.specs.Texts.{csv_field_or_empty, is_csv_heading};
ghost use Rattle.five_tuple.specs.Texts.{tuple_number_up_to};
ghost use Rattle.policy_rules.specs.Read.{HasSmallPolicyActionPort};
ghost use Rattle.policy_file.specs.Reading.{policy_file_heading, csv_policy_row_read};

use crate::error::PolicyRefusal;
use csv_records::{ByteRecord, csv_field_has_text, field};
use five_tuple::{read_number, read_prefix, read_proto, read_range};
use policy_rules::{Row, read_policy_rule_action};

/// How many fields a row has.
const WIDTH: usize = 7;

// The names of a row's fields, in their order: those of the heading.
pub const PRIORITY: &str = "priority";

pub const SRC: &str = "src";

pub const DST: &str = "dst";

pub const SPORT: &str = "sport";

pub const DPORT: &str = "dport";

pub const PROTO: &str = "proto";

pub const ACTION: &str = "action";

// Whether the fields at this place and the next are these texts.
fn policy_csv_fields_are(fields: &ByteRecord, place: usize, one: &str, next: &str) -> bool
    requires { place + 1 < 2 ^ 64 }
    ensures { result ≡ (bytes_eq (csv_field_or_empty (fields_of fields.now) place) one.now
        && bytes_eq (csv_field_or_empty (fields_of fields.now) (place + 1)) next.now) }
{
    csv_field_has_text(fields, place, one) && csv_field_has_text(fields, place + 1, next)
}

/// Whether the record's fields from this place on are the names of a row's fields; from place 0,
/// whether the record is the heading of a policy.
#[tactic(auto, using(crate::proofs::PolicyFileRowFields::sevens))]
pub fn is_heading(fields: &ByteRecord, from: usize) -> bool
    ensures { result ≡ is_csv_heading policy_file_heading (drop from (fields_of fields.now)) }
{
    if fields.len() < from || fields.len() - from != WIDTH {
        return false;
    }
    csv_field_has_text(fields, from, PRIORITY)
        && policy_csv_fields_are(fields, from + 1, SRC, DST)
        && policy_csv_fields_are(fields, from + 3, SPORT, DPORT)
        && policy_csv_fields_are(fields, from + 5, PROTO, ACTION)
}

/// The priority that the field states, up to 4294967295; `None` if it states none.
pub fn read_priority(text: &[u8]) -> Option<u32>
    ensures { result ≡ tuple_number_up_to 4294967295 text.now }
{
    let priority = read_number(text, 4294967295)?;
    Some(priority as u32)
}

/// The row that the record's fields from this place on state.
///
/// # Errors
/// `Width` if there aren't seven fields from there on; otherwise the refusal of the first
/// field that can't be read.
#[tactic(auto, using(crate::proofs::PolicyFileRowFields::sevens))]
pub fn read_policy_file_row(fields: &ByteRecord, from: usize) -> Result<Row, PolicyRefusal>
    ensures row { result ≡ csv_policy_row_read (drop from (fields_of fields.now)) }
    ensures small_port { IfOk result (λ row. HasSmallPolicyActionPort row.action) }
{
    if fields.len() < from || fields.len() - from != WIDTH {
        return Err(PolicyRefusal::Width);
    }
    read_row_fields(fields, from)
}

// The row that the seven fields from this place on state.
fn read_row_fields(fields: &ByteRecord, from: usize) -> Result<Row, PolicyRefusal>
    requires { from + 6 < 2 ^ 64 }
    ensures row { let all = fields_of fields.now in
        result ≡ csv_policy_row_read (csv_field_or_empty all from ∷ csv_field_or_empty all (from + 1)
        ∷ csv_field_or_empty all (from + 2) ∷ csv_field_or_empty all (from + 3)
        ∷ csv_field_or_empty all (from + 4) ∷ csv_field_or_empty all (from + 5)
        ∷ csv_field_or_empty all (from + 6) ∷ []) }
    ensures small_port { IfOk result (λ row. HasSmallPolicyActionPort row.action) }
{
    Ok(Row {
        priority: read_priority(field(fields, from)).ok_or(PolicyRefusal::Priority)?,
        src: read_prefix(field(fields, from + 1)).ok_or(PolicyRefusal::Src)?,
        dst: read_prefix(field(fields, from + 2)).ok_or(PolicyRefusal::Dst)?,
        sport: read_range(field(fields, from + 3)).ok_or(PolicyRefusal::Sport)?,
        dport: read_range(field(fields, from + 4)).ok_or(PolicyRefusal::Dport)?,
        proto: read_proto(field(fields, from + 5)).ok_or(PolicyRefusal::Proto)?,
        action: read_policy_rule_action(field(fields, from + 6)).ok_or(PolicyRefusal::Action)?,
    })
}
