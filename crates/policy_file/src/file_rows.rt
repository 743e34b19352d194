ghost use Rattle.std.specs.Prelude.{◌≡◌, ◌≤◌, All, IfErr, IfOk, length};
ghost use Rattle.csv.specs.Records.{fields_of};
ghost use Rattle.csv_records.specs.Texts.{is_csv_heading};
ghost use Rattle.policy_rules.specs.Exports.{PolicyEditAddsOnly, HasSmallPolicyActionPort};
ghost use Rattle.policy_file.specs.Changes.{policy_file_change_rows};
ghost use Rattle.policy_file.specs.Reading.{IsPolicyReadFrom, IsPolicyReadUpTo, PolicyFileRowFormat, policy_file_rows, csv_policy_rows_in};
ghost use Rattle.base.specs.Refusals.{IsCallRefusal};

use crate::edit::{is_change_heading, read_edit};
use crate::error::{PolicyError, PolicyRefusal};
use crate::row::{is_heading, read_policy_file_row};
use base::InRow;
use csv_records::{ByteRecord, Records};
use policy_rules::{Edit, MAX_ROWS, Row};
use std::alloc::{AllocError, Global};

/// A row of a file, of one kind.
pub trait FileRow: Drop {
    /// How a file states rows of this kind.
    ghost format: { PolicyFileRowFormat Self };

    /// True of a row that names a port below 64, or none.
    ghost has_small_port: { Self → Type 0 };

    /// Whether the record is the heading of rows of this kind.
    fn is_heading(fields: &ByteRecord) -> bool
        ensures { result ≡ is_csv_heading format.heading (fields_of fields.now) };

    /// The row that the record states, or why it states none.
    fn read(fields: &ByteRecord) -> Result<Self, PolicyRefusal>
        ensures row { result ≡ format.read (fields_of fields.now) }
        ensures small_port { IfOk result has_small_port };
}

impl FileRow for Row {
    ghost format = { policy_file_rows };

    ghost has_small_port = { λ row. HasSmallPolicyActionPort row.action };

    fn is_heading(fields: &ByteRecord) -> bool {
        is_heading(fields, 0)
    }

    fn read(fields: &ByteRecord) -> Result<Row, PolicyRefusal> {
        read_policy_file_row(fields, 0)
    }
}

impl FileRow for Edit {
    ghost format = { policy_file_change_rows };

    ghost has_small_port = { PolicyEditAddsOnly (λ row. HasSmallPolicyActionPort row.action) };

    fn is_heading(fields: &ByteRecord) -> bool {
        is_change_heading(fields)
    }

    fn read(fields: &ByteRecord) -> Result<Edit, PolicyRefusal> {
        read_edit(fields)
    }
}

/// The rows that a text states, up to its end or to the first refused record, with the reason.
#[derive(Drop)]
pub struct Reading<R> {
    pub rows: Vec<R>,
    pub refusal: Option<PolicyRefusal>,
}

/// Reads the rows under the text's heading, until it ends, a record states no row, or there are too
/// many. An error is `Header` in row 0 if that heading is missing, or out of memory.
pub fn read_policy_rows<R: FileRow>(alloc: Global, bytes: &[u8]) -> Result<Reading<R>, PolicyError>
    ensures read { IfOk result (λ reading.
        IsPolicyReadFrom R.format bytes.now reading.rows.items reading.refusal) }
    ensures few { IfOk result (λ reading. length reading.rows.items ≤ 2000) }
    ensures small_ports { IfOk result (λ reading. All R.has_small_port reading.rows.items) }
    ensures refused { IfErr result (IsCallRefusal (csv_policy_rows_in R.format bytes.now)) }
{
    let mut records = Records::new(alloc, bytes);
    let mut fields = ByteRecord::new(alloc);
    if !records.read_next(&mut fields)? || !R::is_heading(&fields) {
        let refusal = PolicyRefusal::Header;
        return Err(PolicyError::Refused(InRow { refusal, row: 0 }));
    }
    Ok(read_policy_row_records(alloc, &mut records, &mut fields)?)
}

// Reads rows until the records end, one states no row, or there are more than 2,000.
fn read_policy_row_records<R: FileRow>(
    alloc: Global,
    records: &mut Records<'_>,
    fields: &mut ByteRecord,
) -> Result<Reading<R>, AllocError>
    ensures read { IfOk result (λ reading.
        IsPolicyReadUpTo R.format records.old reading.rows.items reading.refusal) }
    ensures small_ports { IfOk result (λ reading. All R.has_small_port reading.rows.items) }
{
    let mut rows = Vec::new(alloc);
    while rows.len() < MAX_ROWS {
        if !records.read_next(fields)? {
            return Ok(Reading {
                rows,
                refusal: None,
            });
        }
        match R::read(fields) {
            Ok(row) => rows.push(row)?,
            Err(refusal) => {
                return Ok(Reading {
                    rows,
                    refusal: Some(refusal),
                });
            }
        }
    }
    if !records.read_next(fields)? {
        return Ok(Reading {
            rows,
            refusal: None,
        });
    }
    Ok(Reading {
        rows,
        refusal: Some(PolicyRefusal::TooManyRows),
    })
}
