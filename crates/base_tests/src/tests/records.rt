//! A text with quotes, line ends of both kinds and blank lines.
use csv_records::{ByteRecord, Records, csv_field_has_text, field};

const TEXT: &[u8] = b"\xef\xbb\xbfa,\"b\"\"c\"\r\n\r\n\n1,,3";

// Reads the next record, and returns whether there is one.
fn reads(records: &mut Records<'_>, record: &mut ByteRecord) -> Option<bool> {
    records.read_next(record).ok()
}

// Whether the record has this width, and these two fields first.
fn begins(record: &ByteRecord, width: usize, first: &[u8], second: &[u8]) -> bool {
    record.len() == width && record.get(0) == Some(first) && record.get(1) == Some(second)
}

fn ends(record: &ByteRecord) -> bool {
    csv_field_has_text(record, 2, "3")
        && !csv_field_has_text(record, 2, "1")
        && field(record, 3).is_empty()
}

// Whether both records of the text are read, and no third one.
fn are_read(records: &mut Records<'_>, record: &mut ByteRecord) -> bool {
    reads(records, record) == Some(true)
        && begins(record, 2, b"a", b"b\"c")
        && reads(records, record) == Some(true)
        && begins(record, 3, b"1", b"")
        && ends(record)
        && reads(records, record) == Some(false)
        && reads(records, record) == Some(false)
}

#[test]
fn reads_quotes_line_ends_and_blank_lines(rt: HostRuntime) {
    let mut records = Records::new(rt.alloc(), TEXT);
    let mut record = ByteRecord::new(rt.alloc());
    assert!(rt; are_read(&mut records, &mut record));
}
