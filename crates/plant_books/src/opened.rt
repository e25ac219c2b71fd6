//! A list of opened units with their rows: reading from it, the units and shelves of one person, and changing the
//! rows of a unit. `Plain` is built on it.

ghost use Rattle.std.specs.Prelude.{◌≡◌, ◌↔◌, IfOk, IsTrue, OnErr, OnOk, is_some, option_map, unwrap_or};
ghost use Rattle.plant_books.specs.Contents.{AddsShelves, without_history};
ghost use Rattle.plant_books.specs.Listed.{AreCountable, IsCountable, listed_after, listed_codes, listed_shelves, listed_units, rows_at};
ghost use Rattle.plant_model.specs.steps.{Parts.{part_of as the_part}, RowChanges.{no_rows}, RowFacts.{unit_read}};
ghost use Rattle.plant_types.specs.Results.{Gives, OnlyMemory};
ghost use Rattle.plant_model.specs.steps.RowFacts as facts;

use crate::books::{MineRow, MineUnit};
use crate::changes::after_changes;
use crate::grants::{holds_role, roles_held};
use crate::parts::{part_of, rows_but_history};
use plant_alarm::Event;
use plant_model::{AlarmRow, Call, RowEdit, UnitPart, UnitRows};
use plant_types::{Fault, Keyed, List, Moment, Person, Sorted, Tag, TryCopy, UnitCode};
use std::alloc::Global;
use std::cmp::Ordering;

/// A unit with its rows.
#[derive(Drop)]
pub struct OpenedUnit {
    pub unit: UnitCode,
    pub rows: UnitRows,
}

impl Keyed for OpenedUnit {
    ghost use Rattle.plant_types.{specs.Names.{name_cmp}, proofs.public.Orders.{name_total, same_names}};

    type Key = UnitCode;

    ghost order = { name_cmp };

    ghost key = { λ o. o.unit };

    ghost total = { name_total };

    ghost only = { same_names };

    fn key_cmp(&self, other: &UnitCode) -> Ordering {
        self.unit.cmp(other)
    }

    fn row_cmp(&self, other: &OpenedUnit) -> Ordering {
        self.unit.cmp(&other.unit)
    }
}

/// The rows of a unit, if it was opened.
pub fn rows_of<'a>(units: &'a Sorted<OpenedUnit>, unit: &UnitCode) -> Option<&'a UnitRows>
    ensures { option_map (λ rows. rows.now) result ≡ rows_at units.now unit.now }
{
    units
        .as_slice()
        .iter()
        .find(|opened| *unit == opened.unit)
        .map(|opened| &opened.rows)
}

/// Whether the unit was opened.
pub fn is_opened(units: &Sorted<OpenedUnit>, unit: &UnitCode) -> bool
    ensures { result ≡ is_some (rows_at units.now unit.now) }
{
    rows_of(units, unit).is_some()
}

/// A copy of the rows of a unit, if it was opened.
pub fn copy_of(
    alloc: Global,
    units: &Sorted<OpenedUnit>,
    unit: &UnitCode,
) -> Result<Option<UnitRows>, Fault>
    ensures value { IfOk result (λ rows. rows ≡ rows_at units.now unit.now) }
    ensures memory { OnlyMemory result }
{
    match rows_of(units, unit) {
        None => Ok(None),
        Some(rows) => Ok(Some(rows.copy(alloc)?)),
    }
}

/// A copy of the rows of a unit except its history, if it was opened.
pub fn copy_but_history(
    alloc: Global,
    units: &Sorted<OpenedUnit>,
    unit: &UnitCode,
) -> Result<Option<UnitRows>, Fault>
    ensures value { Gives result (option_map without_history (rows_at units.now unit.now)) }
    ensures memory { OnlyMemory result }
{
    match rows_of(units, unit) {
        None => Ok(None),
        Some(rows) => Ok(Some(rows_but_history(alloc, rows)?)),
    }
}

/// A copy of the events of a unit. Empty if it was never opened.
pub fn events_of(
    alloc: Global,
    units: &Sorted<OpenedUnit>,
    unit: &UnitCode,
) -> Result<Sorted<Event>, Fault>
    ensures value { Gives result (unwrap_or (rows_at units.now unit.now) no_rows).events }
    ensures memory { OnlyMemory result }
{
    match rows_of(units, unit) {
        None => Ok(Sorted::new(alloc)),
        Some(rows) => rows.events.copy(alloc),
    }
}

/// The part of a unit's rows that the call looks at, if the unit was opened.
pub fn part_at(
    alloc: Global,
    units: &Sorted<OpenedUnit>,
    unit: &UnitCode,
    call: &Call,
) -> Result<Option<UnitPart>, Fault>
    ensures value { Gives result (option_map (the_part call.now) (rows_at units.now unit.now)) }
    ensures memory { AreCountable units.now → OnlyMemory result }
{
    match rows_of(units, unit) {
        None => Ok(None),
        Some(rows) => Ok(Some(part_of(alloc, rows, call)?)),
    }
}

/// The unit's last moment.
fn last_moment(rows: &UnitRows) -> Moment
    ensures { result ≡ (unit_read rows.now).last_s }
{
    match rows.units.as_slice().first() {
        Some(row) => row.last_s,
        None => Moment::of_seconds(0).unwrap(),
    }
}

/// The codes of the units in which the person holds a role at the moment.
pub fn codes_held(
    alloc: Global,
    units: &Sorted<OpenedUnit>,
    person: &Person,
    now: Moment,
) -> Result<List<UnitCode>, Fault>
    ensures value { Gives result (listed_codes units.now now person.now) }
    ensures memory { OnlyMemory result }
{
    let mut codes = List::new(alloc);
    for opened in units.as_slice() {
        if holds_role(&opened.rows, person, now) {
            codes.push(opened.unit.copy(alloc)?)?;
        }
    }
    Ok(codes)
}

/// The units in which the person holds a role at the moment, with the roles.
pub fn units_held(
    alloc: Global,
    units: &Sorted<OpenedUnit>,
    person: &Person,
    now: Moment,
) -> Result<List<MineUnit>, Fault>
    ensures value { Gives result (listed_units units.now now person.now) }
    ensures memory { OnlyMemory result }
{
    let mut mine = List::new(alloc);
    for opened in units.as_slice() {
        if holds_role(&opened.rows, person, now) {
            mine.push(MineUnit {
                unit: opened.unit.copy(alloc)?,
                roles: roles_held(alloc, &opened.rows, person, now)?,
                last: last_moment(&opened.rows),
            })?;
        }
    }
    Ok(mine)
}

/// When the alarm with the tag last returned to normal, if ever.
fn return_of(alarms: &Sorted<AlarmRow>, tag: &Tag) -> Option<Moment>
    ensures { result ≡ facts.last_return_in alarms.now tag.now }
{
    alarms.get(tag).and_then(|alarm| alarm.return_s)
}

/// Appends the shelves of a unit.
pub fn push_shelves(
    alloc: Global,
    mine: &mut List<MineRow>,
    unit: &UnitCode,
    rows: &UnitRows,
) -> Result<(), Fault>
    ensures pushed { AddsShelves unit.now rows.now mine.old mine.new result }
    ensures memory { OnlyMemory result }
{
    for shelf in rows.shelves.as_slice() {
        mine.push(MineRow {
            unit: unit.copy(alloc)?,
            shelf: shelf.copy(alloc)?,
            last_return: return_of(&rows.alarms, &shelf.tag),
        })?;
    }
    Ok(())
}

/// The shelves of the units in which the person holds a role at the moment.
pub fn shelves_held(
    alloc: Global,
    units: &Sorted<OpenedUnit>,
    person: &Person,
    now: Moment,
) -> Result<List<MineRow>, Fault>
    ensures value { Gives result (listed_shelves units.now now person.now) }
    ensures memory { OnlyMemory result }
{
    let mut mine = List::new(alloc);
    for opened in units.as_slice() {
        if holds_role(&opened.rows, person, now) {
            push_shelves(alloc, &mut mine, &opened.unit, &opened.rows)?;
        }
    }
    Ok(mine)
}

/// Whether a part can count the rows.
fn is_countable(rows: &UnitRows) -> bool
    ensures { IsTrue result ↔ IsCountable rows.now }
{
    u32::try_from(rows.alarms.len()).is_ok() && u32::try_from(rows.events.len()).is_ok()
}

/// The rows, if a part can count them. To keep more than that is refused, as if memory had run out.
fn if_countable(rows: UnitRows) -> Result<UnitRows, Fault>
    ensures value { Gives result rows }
    ensures countable { IfOk result IsCountable }
    ensures memory { OnlyMemory result }
{
    if is_countable(&rows) {
        Ok(rows)
    } else {
        Err(Fault::Memory)
    }
}

/// Makes the changes to the rows of a unit. If it was never opened, it is added to the list. If
/// memory runs out, nothing changes.
pub fn change_unit(
    alloc: Global,
    units: &mut Sorted<OpenedUnit>,
    unit: &UnitCode,
    changes: &List<RowEdit>,
) -> Result<(), Fault>
    ensures made { OnOk result (units.new ≡ listed_after units.old unit.now changes.now) }
    ensures unchanged { OnErr result (units.new ≡ units.old) }
    ensures countable { AreCountable units.old → AreCountable units.new }
    ensures memory { OnlyMemory result }
{
    let rows = copy_of(alloc, units, unit)?.unwrap_or(UnitRows::none(alloc));
    let opened = OpenedUnit {
        unit: unit.copy(alloc)?,
        rows: if_countable(after_changes(alloc, rows, changes.copy(alloc)?)?)?,
    };
    units.put(opened)
}
