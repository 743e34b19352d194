ghost use Rattle.std.specs.Prelude.{◌≡◌, [], IfOk, OnErr};
ghost use Rattle.csv.specs.Records.{fields_of};
ghost use Rattle.csv_records.specs.Texts.{TakesCsvRecord, csv_records_of};

use csv::{ByteRecord, ErrorKind, Reader, ReaderBuilder};
use std::alloc::{AllocError, Global};
use std::marker::Model;

/// The records of a text that are yet to be read. Contracts see their list.
#[derive(Drop)]
pub struct Records<'a> {
    reader: Reader<&'a [u8]>,
    // The text has ended, or a read has failed: no record remains.
    is_over: bool,
}

impl<'a> Model for Records<'a> {
    ghost use Rattle.std.specs.Prelude.{List, ℕ, [], if◌then◌else◌, ◌≡◌, false};
    ghost use Rattle.csv_records.specs.Readers.{csv_records_left, IsCsvReading};

    ghost Value = { List (List (List ℕ)) };

    ghost view = { λ r. if r.is_over then [] else csv_records_left r.reader };

    ghost invariant = { λ r. r.is_over ≡ false → IsCsvReading r.reader };
}

impl<'a> Records<'a> {
    /// All records of the text.
    pub fn new(alloc: Global, text: &'a [u8]) -> Records<'a>
        ensures { result ≡ csv_records_of text.now }
    {
        let reader = ReaderBuilder::new()
            .has_headers(false)
            .flexible(true)
            .from_reader(alloc, text);
        Records {
            reader,
            is_over: false,
        }
    }

    /// Reads the next record into `fields`, and returns whether there was one.
    ///
    /// # Errors
    /// Only out of memory; then no record remains.
    pub fn read_next(&mut self, fields: &mut ByteRecord) -> Result<bool, AllocError>
        ensures takes { IfOk result (λ found.
            TakesCsvRecord self.old found (fields_of fields.new) self.new) }
        ensures over { OnErr result (self.new ≡ []) }
    {
        if self.is_over {
            return Ok(false);
        }
        self.is_over = true;
        match self.reader.read_byte_record(fields) {
            Ok(found) => {
                self.is_over = !found;
                Ok(found)
            }
            Err(error) => match error.into_kind() {
                // Reading a slice can't fail, but the contract of `csv` doesn't exclude `Io`.
                ErrorKind::OutOfMemory | ErrorKind::Io(_) => Err(AllocError),
                _ => unreachable!(),
            },
        }
    }
}
