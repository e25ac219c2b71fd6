//! Reads typed rows from the rows that a query returns. A value that is not valid in its column is an error other than
//! out of memory.

ghost use Rattle.std.specs.Prelude.{◌≡◌, ℕ, map, IfErr, IfOk, IsTrue};
ghost use Rattle.sqlite_value.specs.{Order.{column, Row as SqlRow}, declared.value.Value.TheVariants.{Text as TextValue}};
ghost use Rattle.plant_store_columns.specs.{Causes.{IsNoMemory, MemoryIsOfText}, Codes.{ReadsColumn}, Shown.{columns}};
ghost use Rattle.plant_store_columns.specs.Tables.{unit_shape, grant_shape, alarm_shape, shelf_shape, band_shape, cell_shape, event_shape, record_shape, change_shape};
ghost use Rattle.plant_types.specs.Text.{is_text};
ghost use Rattle.plant_store_columns.specs.Codes as codes;

use crate::codes::Coded;
use plant_alarm::{Event, Number};
use plant_model::{
    AlarmRow, BandRow, CellRow, ChangeEntry, GrantRow, RecordEntry, ShelfRow, UnitRow,
};
use plant_types::{Alphabet, List, Moment, Person, Quota, Seconds, Tag, Text, Words};
use sqlite::types::{Type, ValueRef};
use sqlite::{Error, ErrorCode, Row};
use std::alloc::Global;

fn text_of<C: Alphabet>(alloc: Global, bytes: &[u8], at: usize) -> Result<Text<C>, Error>
    ensures value { IfOk result (λ t. t ≡ bytes.now) }
    ensures cause { IfErr result (λ e. e ≡ Error.SqliteFailure ErrorCode.OutOfMemory
        → IsTrue (is_text C.admits C.longest bytes.now)) }
{
    match Text::read(alloc, bytes) {
        Ok(Some(text)) => Ok(text),
        Ok(None) => Err(Error::InvalidColumnType(at, Type::Text)),
        Err(_) => Err(Error::SqliteFailure(ErrorCode::OutOfMemory)),
    }
}

pub fn text<C: Alphabet>(alloc: Global, row: &Row, at: usize) -> Result<Text<C>, Error>
    ensures value { ReadsColumn TextValue row.now at result }
    ensures cause { IfErr result (MemoryIsOfText C.admits C.longest (column row.now at)) }
{
    match row.get_ref(at)? {
        ValueRef::Text(bytes) => text_of(alloc, bytes, at),
        other => Err(Error::InvalidColumnType(at, Type::of(other))),
    }
}

fn open_text<C: Alphabet>(alloc: Global, row: &Row, at: usize) -> Result<Option<Text<C>>, Error>
    ensures value { ReadsColumn codes.open_text row.now at result }
    ensures cause { IfErr result (MemoryIsOfText C.admits C.longest (column row.now at)) }
{
    if let ValueRef::Null = row.get_ref(at)? {
        return Ok(None);
    }
    Ok(Some(text(alloc, row, at)?))
}

pub fn wide(row: &Row, at: usize) -> Result<u64, Error>
    ensures value { ReadsColumn codes.number row.now at result }
    ensures cause { IfErr result IsNoMemory }
{
    match row.get_ref(at)? {
        ValueRef::Int(found) => u64::try_from(found).map_err(|_| Error::IntegralValueOutOfRange(
            at,
        )),
        other => Err(Error::InvalidColumnType(at, Type::of(other))),
    }
}

pub fn number(row: &Row, at: usize) -> Result<u32, Error>
    ensures value { ReadsColumn codes.number row.now at result }
    ensures cause { IfErr result IsNoMemory }
{
    u32::try_from(wide(row, at)?).map_err(|_| Error::IntegralValueOutOfRange(at))
}

fn small(row: &Row, at: usize) -> Result<u8, Error>
    ensures value { ReadsColumn codes.number row.now at result }
    ensures cause { IfErr result IsNoMemory }
{
    u8::try_from(number(row, at)?).map_err(|_| Error::IntegralValueOutOfRange(at))
}

fn moment_of(seconds: u64, at: usize) -> Result<Moment, Error>
    ensures value { IfOk result (λ m. m ≡ seconds) }
    ensures cause { IfErr result IsNoMemory }
{
    Moment::of_seconds(seconds).ok_or(Error::IntegralValueOutOfRange(at))
}

pub fn moment(row: &Row, at: usize) -> Result<Moment, Error>
    ensures value { ReadsColumn codes.number row.now at result }
    ensures cause { IfErr result IsNoMemory }
{
    moment_of(wide(row, at)?, at)
}

pub fn open_moment(row: &Row, at: usize) -> Result<Option<Moment>, Error>
    ensures value { ReadsColumn codes.open_number row.now at result }
    ensures cause { IfErr result IsNoMemory }
{
    match row.get_ref(at)? {
        ValueRef::Null => Ok(None),
        _ => Ok(Some(moment(row, at)?)),
    }
}

fn seconds(row: &Row, at: usize) -> Result<Seconds, Error>
    ensures value { ReadsColumn codes.number row.now at result }
    ensures cause { IfErr result IsNoMemory }
{
    Seconds::new(wide(row, at)?).ok_or(Error::IntegralValueOutOfRange(at))
}

fn open_small(row: &Row, at: usize) -> Result<Option<u8>, Error>
    ensures value { ReadsColumn codes.open_number row.now at result }
    ensures cause { IfErr result IsNoMemory }
{
    if let ValueRef::Null = row.get_ref(at)? {
        return Ok(None);
    }
    Ok(Some(small(row, at)?))
}

fn open_seconds(row: &Row, at: usize) -> Result<Option<Seconds>, Error>
    ensures value { ReadsColumn codes.open_number row.now at result }
    ensures cause { IfErr result IsNoMemory }
{
    if let ValueRef::Null = row.get_ref(at)? {
        return Ok(None);
    }
    Ok(Some(seconds(row, at)?))
}

fn quota(row: &Row, at: usize) -> Result<Quota, Error>
    ensures value { ReadsColumn codes.number row.now at result }
    ensures cause { IfErr result IsNoMemory }
{
    Quota::new(wide(row, at)?).ok_or(Error::IntegralValueOutOfRange(at))
}

pub fn flag(row: &Row, at: usize) -> Result<bool, Error>
    ensures value { ReadsColumn codes.flag row.now at result }
    ensures cause { IfErr result IsNoMemory }
{
    match number(row, at)? {
        0 => Ok(false),
        1 => Ok(true),
        _ => Err(Error::IntegralValueOutOfRange(at)),
    }
}

/// The value whose number is in the column.
pub fn coded<T: Coded>(row: &Row, at: usize) -> Result<T, Error>
    ensures value { ReadsColumn (λ x. codes.number (T.no x)) row.now at result }
    ensures cause { IfErr result IsNoMemory }
{
    let found = number(row, at)?;
    match T::all().iter().find(|value| value.number() == found) {
        Some(value) => Ok(*value),
        None => Err(Error::IntegralValueOutOfRange(at)),
    }
}

fn event_number(row: &Row, at: usize) -> Result<Number, Error>
    ensures value { ReadsColumn codes.number row.now at result }
    ensures cause { IfErr result IsNoMemory }
{
    Number::new(wide(row, at)?).ok_or(Error::IntegralValueOutOfRange(at))
}

/// A type that is read from a whole row of a query.
pub trait Shown: Sized + Drop {
    /// How many columns the row has, and what they hold.
    ghost width: { ℕ };

    ghost cells: { Self → SqlRow };

    /// The value read from the columns of a row.
    fn from_row(alloc: Global, row: &Row) -> Result<Self, Error>
        ensures { IfOk result (λ x. columns width row.now ≡ cells x) };
}

impl Shown for UnitRow {
    ghost width = { 4 };

    ghost cells = { unit_shape.cells };

    fn from_row(_alloc: Global, row: &Row) -> Result<UnitRow, Error> {
        Ok(UnitRow {
            last_s: moment(row, 0)?,
            matrix_no: number(row, 1)?,
            matrix_rev: number(row, 2)?,
            quota: quota(row, 3)?,
        })
    }
}

impl Shown for GrantRow {
    ghost width = { 3 };

    ghost cells = { grant_shape.cells };

    fn from_row(alloc: Global, row: &Row) -> Result<GrantRow, Error> {
        Ok(GrantRow {
            person: text(alloc, row, 0)?,
            role_no: coded(row, 1)?,
            end_s: open_moment(row, 2)?,
        })
    }
}

impl Shown for AlarmRow {
    ghost width = { 11 };

    ghost cells = { alarm_shape.cells };

    fn from_row(alloc: Global, row: &Row) -> Result<AlarmRow, Error> {
        Ok(AlarmRow {
            latching: flag(row, 1)?,
            max_s: seconds(row, 2)?,
            max_rev: number(row, 3)?,
            state_no: coded(row, 4)?,
            suppressed: flag(row, 5)?,
            active_s: open_moment(row, 6)?,
            return_s: open_moment(row, 7)?,
            out_s: open_moment(row, 8)?,
            tag: text(alloc, row, 0)?,
            out_by: open_text(alloc, row, 9)?,
            out_words: open_text(alloc, row, 10)?,
        })
    }
}

impl Shown for ShelfRow {
    ghost width = { 6 };

    ghost cells = { shelf_shape.cells };

    fn from_row(alloc: Global, row: &Row) -> Result<ShelfRow, Error> {
        Ok(ShelfRow {
            one_shot: flag(row, 1)?,
            start_s: moment(row, 2)?,
            until_s: wide(row, 3)?,
            tag: text(alloc, row, 0)?,
            person: text(alloc, row, 4)?,
            words: text(alloc, row, 5)?,
        })
    }
}

impl Shown for BandRow {
    ghost width = { 3 };

    ghost cells = { band_shape.cells };

    fn from_row(_alloc: Global, row: &Row) -> Result<BandRow, Error> {
        Ok(BandRow {
            matrix_no: number(row, 0)?,
            band_no: small(row, 1)?,
            limit_s: wide(row, 2)?,
        })
    }
}

impl Shown for CellRow {
    ghost width = { 4 };

    ghost cells = { cell_shape.cells };

    fn from_row(_alloc: Global, row: &Row) -> Result<CellRow, Error> {
        Ok(CellRow {
            matrix_no: number(row, 0)?,
            severity: small(row, 1)?,
            band_no: small(row, 2)?,
            cell_no: coded(row, 3)?,
        })
    }
}

impl Shown for Event {
    ghost width = { 4 };

    ghost cells = { event_shape.cells };

    fn from_row(alloc: Global, row: &Row) -> Result<Event, Error> {
        Ok(Event {
            seq: event_number(row, 0)?,
            moment: moment(row, 1)?,
            tag: text(alloc, row, 2)?,
            kind: coded(row, 3)?,
        })
    }
}

impl Shown for RecordEntry {
    ghost width = { 4 };

    ghost cells = { record_shape.cells };

    fn from_row(alloc: Global, row: &Row) -> Result<RecordEntry, Error> {
        Ok(RecordEntry {
            tag: text(alloc, row, 0)?,
            change_no: number(row, 1)?,
            rev: number(row, 2)?,
            cell_no: coded(row, 3)?,
        })
    }
}

/// Who proposed a change, the alarm that it concerns, and who decided it.
fn names_of_change(alloc: Global, row: &Row) -> Result<(Person, Option<Tag>, Option<Person>), Error>
    ensures { IfOk result (λ names. (column row.now 1 ≡ TextValue names.0)
        × (column row.now 4 ≡ codes.open_text names.1)
        × (column row.now 13 ≡ codes.open_text names.2)) }
{
    Ok((
        text(alloc, row, 1)?,
        open_text(alloc, row, 4)?,
        open_text(alloc, row, 13)?,
    ))
}

/// The cause, the consequence and the corrective action that a change states.
fn words_of_change(
    alloc: Global,
    row: &Row,
) -> Result<(Option<Words>, Option<Words>, Option<Words>), Error>
    ensures { IfOk result (λ words. (column row.now 6 ≡ codes.open_text words.0)
        × (column row.now 7 ≡ codes.open_text words.1)
        × (column row.now 8 ≡ codes.open_text words.2)) }
{
    Ok((
        open_text(alloc, row, 6)?,
        open_text(alloc, row, 7)?,
        open_text(alloc, row, 8)?,
    ))
}

impl Shown for ChangeEntry {
    ghost width = { 15 };

    ghost cells = { change_shape.cells };

    fn from_row(alloc: Global, row: &Row) -> Result<ChangeEntry, Error> {
        // The texts are read last: after an error the values read so far must be dropped, and numbers need no drop.
        let base = number(row, 5)?;
        let number = number(row, 0)?;
        let proposed_s = moment(row, 2)?;
        let kind_no = coded(row, 3)?;
        let severity = open_small(row, 9)?;
        let response_s = open_seconds(row, 10)?;
        let max_s = open_seconds(row, 11)?;
        let state_no = coded(row, 12)?;
        let decided_s = open_moment(row, 14)?;
        let (proposer, tag, decider) = names_of_change(alloc, row)?;
        let (cause, consequence, remedy) = words_of_change(alloc, row)?;
        Ok(ChangeEntry {
            number,
            proposer,
            proposed_s,
            kind_no,
            tag,
            base,
            cause,
            consequence,
            remedy,
            severity,
            response_s,
            max_s,
            state_no,
            decider,
            decided_s,
        })
    }
}

/// All rows that a query returned, decoded.
pub fn read_all<T: Shown>(alloc: Global, rows: &[Row]) -> Result<List<T>, Error>
    ensures { IfOk result (λ t. map (columns T.width) rows.now ≡ map T.cells t) }
{
    let mut table = List::new(alloc);
    for row in rows {
        let read = T::from_row(alloc, row)?;
        table
            .push(read)
            .map_err(|_| Error::SqliteFailure(ErrorCode::OutOfMemory))?;
    }
    Ok(table)
}
