//! Reads an import file, which is comma-separated values, into events. It stops at the first faulty line and
//! reports why that line is faulty.

ghost use Rattle.std.specs.{List.{list_all}, Prelude.{◌≡◌, ◌∷◌, [], IfOk, List, ℕ}, Str.{is_utf8}};
ghost use Rattle.csv.specs.Records.{fields_of};
ghost use Rattle.plant_types.specs.Results.{OnlyMemory};
ghost use Rattle.plant_import.specs.{Reading.{row_read, file_read}, Records.{HasRead, AreRowsRead}};
ghost use Rattle.plant_import.specs.Reading as reading;

use crate::fields::{kind_of, number_of};
use crate::records::{field, next_record, reader_of};
use crate::{BadFile, Cause};
use csv::{ByteRecord, Reader};
use plant_alarm::Event;
use plant_types::limits::MAX_FILE_ROWS;
use plant_types::{Fault, List, Moment, Tag};
use std::alloc::Global;

/// The length of the shortest row in bytes, with the end of its line.
const SHORTEST_ROW: usize = 29;

/// The rows of a file, or its first fault.
pub type FileRead = Result<List<Event>, BadFile>;

/// The events of a file, or its first faulty line with the first cause of that line.
///
/// A file is comma-separated values, after one byte order mark if it has one. Its first record is
/// `seq,moment,tag,event`, and at most 10,000 rows follow. Blank lines are ignored.
pub fn read_file(alloc: Global, bytes: &[u8]) -> Result<FileRead, Fault>
    ensures value { IfOk result (λ read. read ≡ file_read bytes.now) }
    ensures err { OnlyMemory result }
{
    let no_header = BadFile {
        line: 1,
        cause: Cause::Header,
    };
    let mut reader = reader_of(alloc, bytes);
    let mut first = ByteRecord::new(alloc);
    if !next_record(&mut reader, &mut first)? {
        return Ok(Err(no_header));
    }
    if !is_header(&first) {
        return Ok(Err(no_header));
    }
    read_rows(alloc, reader, most_rows(bytes))
}

/// For how many rows room is made at first: as many as bytes of this number can hold, and at most `MAX_FILE_ROWS`.
fn most_rows(bytes: &[u8]) -> usize {
    (bytes.len() / SHORTEST_ROW).min(MAX_FILE_ROWS as usize)
}

fn is_header(row: &ByteRecord) -> bool
    ensures { result ≡ reading.is_header (fields_of row.now) }
{
    row.len() == 4
        && field(row, 0) == b"seq".as_slice()
        && field(row, 1) == b"moment".as_slice()
        && field(row, 2) == b"tag".as_slice()
        && field(row, 3) == b"event".as_slice()
}

/// The events of the rows below the header, or their first fault, where reading stops. Room for `capacity` events is
/// made at first.
fn read_rows(alloc: Global, mut reader: Reader<&[u8]>, capacity: usize) -> Result<FileRead, Fault>
    ensures value { IfOk result (λ read. (text : List ℕ) → (header : List (List ℕ))
        → HasRead reader.entry text (header ∷ []) → AreRowsRead text header read) }
    ensures err { OnlyMemory result }
{
    let mut events = List::with_capacity(alloc, capacity)?;
    let mut row = ByteRecord::new(alloc);
    let mut place = 1;
    while next_record(&mut reader, &mut row)? {
        match read_row(alloc, place, &row)? {
            Ok(event) => events.push(event)?,
            Err(cause) => {
                return Ok(Err(BadFile {
                    line: place + 1,
                    cause,
                }));
            }
        }
        place += 1;
    }
    Ok(Ok(events))
}

/// The event of a row, or the row's first fault. `place` is the row's number, counted from 1.
#[tactic(auto, unfolding(crate::specs::Fields::row_fault, crate::specs::Fields::event_in))]
fn read_row(alloc: Global, place: u64, row: &ByteRecord) -> Result<Result<Event, Cause>, Fault>
    ensures value { IfOk result (λ read. read ≡ row_read place (fields_of row.now)) }
    ensures err { OnlyMemory result }
{
    if row.len() != 4 {
        return Ok(Err(Cause::FieldCount));
    }
    if !all_text(row) {
        return Ok(Err(Cause::NotUtf8));
    }
    let Some(seq) = number_of(field(row, 0)) else {
        return Ok(Err(Cause::BadNumber));
    };
    let Some(moment) = Moment::read(field(row, 1)) else {
        return Ok(Err(Cause::BadMoment));
    };
    let Some(tag) = Tag::read(alloc, field(row, 2))? else {
        return Ok(Err(Cause::BadTag));
    };
    let Some(kind) = kind_of(field(row, 3)) else {
        return Ok(Err(Cause::BadEvent));
    };
    if place > MAX_FILE_ROWS {
        return Ok(Err(Cause::TooLong));
    }
    Ok(Ok(Event {
        seq,
        moment,
        tag,
        kind,
    }))
}

fn all_text(row: &ByteRecord) -> bool
    ensures { result ≡ list_all is_utf8 (fields_of row.now) }
{
    if row.as_slice().is_ascii() {
        return true;
    }
    for place in 0..row.len() {
        if !is_text(field(row, place)) {
            return false;
        }
    }
    true
}

fn is_text(bytes: &[u8]) -> bool
    ensures { result ≡ is_utf8 bytes.now }
{
    std::str::from_utf8(bytes).is_ok()
}
