//! Writes typed rows as the values of columns.

ghost use Rattle.std.specs.Prelude.{◌≡◌, ◌≤◌, ◌^◌, ◌∷◌, [], IfErr, IfOk};
ghost use Rattle.sqlite.specs.Values.{bound, bound_value};
ghost use Rattle.sqlite_value.specs.{Value.{owned}, declared.value.Value.TheVariants.{Text as TextValue}};
ghost use Rattle.plant_store_columns.specs.Tables.{unit_shape, grant_shape, alarm_shape, shelf_shape, band_shape, cell_shape, event_shape, record_shape, change_shape};
ghost use Rattle.plant_store_columns.specs.Codes as codes;

use crate::codes::Coded;
use plant_alarm::{Event, Number};
use plant_model::{
    AlarmRow, BandRow, CellRow, ChangeEntry, GrantRow, RecordEntry, ShelfRow, UnitRow,
};
use plant_types::{Alphabet, Moment, Person, Quota, Role, Seconds, Text, UnitCode};
use sqlite::Error;
use sqlite::types::ValueRef;

/// A text.
fn text<C: Alphabet>(text: &Text<C>) -> ValueRef<'_>
    ensures { bound_value (owned result) ≡ TextValue text.now }
{
    ValueRef::Text(text.as_bytes())
}

/// A small number.
fn number(number: u32) -> ValueRef<'static>
    ensures { bound_value (owned result) ≡ codes.number number }
{
    ValueRef::Int(i64::from(number))
}

/// A number, if a column can hold it: it must be below 2^63.
pub fn wide(number: u64) -> Result<ValueRef<'static>, Error>
    ensures value { IfOk result (λ v. bound_value (owned v) ≡ codes.number number) }
    ensures refused { IfErr result (λ e. (2 ^ 63 ≤ number) × (e ≡ Error.InvalidQuery)) }
{
    match i64::try_from(number) {
        Ok(number) => Ok(ValueRef::Int(number)),
        Err(_) => Err(Error::InvalidQuery),
    }
}

fn moment(moment: Moment) -> ValueRef<'static>
    ensures { bound_value (owned result) ≡ codes.number moment }
{
    ValueRef::Int(moment.seconds() as i64)
}

fn flag(flag: bool) -> ValueRef<'static>
    ensures { bound_value (owned result) ≡ codes.flag flag }
{
    number(if flag { 1 } else { 0 })
}

fn coded<T: Coded>(value: T) -> ValueRef<'static>
    ensures { bound_value (owned result) ≡ codes.number (T.no value) }
{
    number(value.number())
}

fn event_number(number: Number) -> ValueRef<'static>
    ensures { bound_value (owned result) ≡ codes.number number }
{
    ValueRef::Int(number.get() as i64)
}

fn seconds(seconds: Seconds) -> ValueRef<'static>
    ensures { bound_value (owned result) ≡ codes.number seconds }
{
    ValueRef::Int(seconds.get() as i64)
}

fn quota(quota: Quota) -> ValueRef<'static>
    ensures { bound_value (owned result) ≡ codes.number quota }
{
    ValueRef::Int(quota.get() as i64)
}

fn open_moment(moment_at: Option<Moment>) -> ValueRef<'static>
    ensures { bound_value (owned result) ≡ codes.open_number moment_at }
{
    moment_at.map_or(ValueRef::Null, moment)
}

fn open_small(small: Option<u8>) -> ValueRef<'static>
    ensures { bound_value (owned result) ≡ codes.open_number small }
{
    small.map_or(ValueRef::Null, |small| number(u32::from(small)))
}

fn open_seconds(length: Option<Seconds>) -> ValueRef<'static>
    ensures { bound_value (owned result) ≡ codes.open_number length }
{
    length.map_or(ValueRef::Null, seconds)
}

fn open_text<C: Alphabet>(words: &Option<Text<C>>) -> ValueRef<'_>
    ensures { bound_value (owned result) ≡ codes.open_text words.now }
{
    words.as_ref().map_or(ValueRef::Null, text)
}

/// The columns of a unit's own row.
pub fn unit_cells<'a>(unit: &'a UnitCode, row: &UnitRow) -> [ValueRef<'a>; 5]
    ensures { bound result ≡ TextValue unit.now ∷ unit_shape.cells row.now }
{
    [
        text(unit),
        moment(row.last_s),
        number(row.matrix_no),
        number(row.matrix_rev),
        quota(row.quota),
    ]
}

/// The columns of a grant.
pub fn grant_cells<'a>(unit: &'a UnitCode, row: &'a GrantRow) -> [ValueRef<'a>; 4]
    ensures { bound result ≡ TextValue unit.now ∷ grant_shape.cells row.now }
{
    [
        text(unit),
        text(&row.person),
        coded(row.role_no),
        open_moment(row.end_s),
    ]
}

/// The columns of an alarm.
pub fn alarm_cells<'a>(unit: &'a UnitCode, row: &'a AlarmRow) -> [ValueRef<'a>; 12]
    ensures { bound result ≡ TextValue unit.now ∷ alarm_shape.cells row.now }
{
    [
        text(unit),
        text(&row.tag),
        flag(row.latching),
        seconds(row.max_s),
        number(row.max_rev),
        coded(row.state_no),
        flag(row.suppressed),
        open_moment(row.active_s),
        open_moment(row.return_s),
        open_moment(row.out_s),
        open_text(&row.out_by),
        open_text(&row.out_words),
    ]
}

/// The columns of a shelf.
pub fn shelf_cells<'a>(
    unit: &'a UnitCode,
    row: &'a ShelfRow,
    until: ValueRef<'static>,
) -> [ValueRef<'a>; 7]
    requires { bound_value (owned until) ≡ codes.number row.now.until_s }
    ensures { bound result ≡ TextValue unit.now ∷ shelf_shape.cells row.now }
{
    [
        text(unit),
        text(&row.tag),
        flag(row.one_shot),
        moment(row.start_s),
        until,
        text(&row.person),
        text(&row.words),
    ]
}

/// The columns of a matrix's limit.
pub fn band_cells<'a>(
    unit: &'a UnitCode,
    row: &BandRow,
    limit: ValueRef<'static>,
) -> [ValueRef<'a>; 4]
    requires { bound_value (owned limit) ≡ codes.number row.now.limit_s }
    ensures { bound result ≡ TextValue unit.now ∷ band_shape.cells row.now }
{
    [
        text(unit),
        number(row.matrix_no),
        number(u32::from(row.band_no)),
        limit,
    ]
}

/// The columns of a matrix's cell.
pub fn cell_cells<'a>(unit: &'a UnitCode, row: &CellRow) -> [ValueRef<'a>; 5]
    ensures { bound result ≡ TextValue unit.now ∷ cell_shape.cells row.now }
{
    [
        text(unit),
        number(row.matrix_no),
        number(u32::from(row.severity)),
        number(u32::from(row.band_no)),
        coded(row.cell_no),
    ]
}

/// The columns of an event.
pub fn event_cells<'a>(unit: &'a UnitCode, event: &'a Event) -> [ValueRef<'a>; 5]
    ensures { bound result ≡ TextValue unit.now ∷ event_shape.cells event.now }
{
    [
        text(unit),
        event_number(event.seq),
        moment(event.moment),
        text(&event.tag),
        coded(event.kind),
    ]
}

/// The columns of a record.
pub fn record_cells<'a>(unit: &'a UnitCode, entry: &'a RecordEntry) -> [ValueRef<'a>; 5]
    ensures { bound result ≡ TextValue unit.now ∷ record_shape.cells entry.now }
{
    [
        text(unit),
        text(&entry.tag),
        number(entry.change_no),
        number(entry.rev),
        coded(entry.cell_no),
    ]
}

/// The columns of a change.
pub fn change_cells<'a>(unit: &'a UnitCode, change: &'a ChangeEntry) -> [ValueRef<'a>; 16]
    ensures { bound result ≡ TextValue unit.now ∷ change_shape.cells change.now }
{
    [
        text(unit),
        number(change.number),
        text(&change.proposer),
        moment(change.proposed_s),
        coded(change.kind_no),
        open_text(&change.tag),
        number(change.base),
        open_text(&change.cause),
        open_text(&change.consequence),
        open_text(&change.remedy),
        open_small(change.severity),
        open_seconds(change.response_s),
        open_seconds(change.max_s),
        coded(change.state_no),
        open_text(&change.decider),
        open_moment(change.decided_s),
    ]
}

/// The columns of a grant's key.
pub fn grant_key<'a>(unit: &'a UnitCode, person: &'a Person, held: Role) -> [ValueRef<'a>; 3]
    ensures { bound result ≡ TextValue unit.now ∷ TextValue person.now ∷ codes.role held ∷ [] }
{
    [text(unit), text(person), coded(held)]
}

/// A unit's code and a second name.
pub fn pair<'a, C: Alphabet>(unit: &'a UnitCode, name: &'a Text<C>) -> [ValueRef<'a>; 2]
    ensures { bound result ≡ TextValue unit.now ∷ TextValue name.now ∷ [] }
{
    [text(unit), text(name)]
}

/// A unit's code and a number.
pub fn numbered<'a>(unit: &'a UnitCode, at: u32) -> [ValueRef<'a>; 2]
    ensures { bound result ≡ TextValue unit.now ∷ codes.number at ∷ [] }
{
    [text(unit), number(at)]
}

/// A name alone.
pub fn single<C: Alphabet>(name: &Text<C>) -> [ValueRef<'_>; 1]
    ensures { bound result ≡ TextValue name.now ∷ [] }
{
    [text(name)]
}
