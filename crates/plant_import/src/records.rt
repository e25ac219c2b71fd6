//! Reads a file's records one after another through the `csv` crate, and the fields of a record.

ghost use Rattle.std.specs.Prelude.{◌≡◌, [], IfOk, List, ℕ};
ghost use Rattle.csv.specs.Records.{fields_of};
ghost use Rattle.plant_types.specs.Results.{OnlyMemory};
ghost use Rattle.plant_import.specs.Records.{HasRead, ReadsOne};
ghost use Rattle.plant_import.specs.Fields as fields;

use csv::{ByteRecord, Reader, ReaderBuilder};
use plant_types::Fault;
use std::alloc::Global;

/// A reader of a file's records, which may have any number of fields. It skips a byte order mark at the start.
pub fn reader_of(alloc: Global, bytes: &[u8]) -> Reader<&[u8]>
    ensures { HasRead result bytes.now [] }
{
    ReaderBuilder::new()
        .has_headers(false)
        .flexible(true)
        .from_reader(alloc, bytes)
}

/// Reads the next record into `row`. False if there are no more.
pub fn next_record(reader: &mut Reader<&[u8]>, row: &mut ByteRecord) -> Result<bool, Fault>
    ensures value { IfOk result (λ found. (text : List ℕ) → (rows : List (List (List ℕ)))
        → HasRead reader.old text rows
        → ReadsOne reader.new text rows found (fields_of row.new)) }
    ensures err { OnlyMemory result }
{
    let Ok(found) = reader.read_byte_record(row) else {
        return Err(Fault::Memory);
    };
    Ok(found)
}

/// A field of a record, empty past the last.
#[tactic(auto, using(crate::proofs::Places::field_at_is))]
pub fn field(row: &ByteRecord, place: usize) -> &[u8]
    ensures { result.now ≡ fields.field (fields_of row.now) place }
{
    match row.get(place) {
        Some(field) => field,
        None => b"",
    }
}
