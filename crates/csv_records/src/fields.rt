ghost use Rattle.std.specs.Prelude.{◌≡◌, bytes_eq};
ghost use Rattle.csv.specs.Records.{fields_of};
ghost use Rattle.csv_records.specs.Texts.{csv_field_or_empty};

use csv::ByteRecord;

/// The field at this place, or an empty one if the record ends before it.
pub fn field(fields: &ByteRecord, place: usize) -> &[u8]
    ensures { result.now ≡ csv_field_or_empty (fields_of fields.now) place }
{
    fields.get(place).unwrap_or(b"")
}

/// Whether the field at this place is this text.
pub fn csv_field_has_text(fields: &ByteRecord, place: usize, text: &str) -> bool
    ensures { result ≡ bytes_eq (csv_field_or_empty (fields_of fields.now) place) text.now }
{
    field(fields, place) == text.as_bytes()
}
