//! Shelving and unshelving an alarm. The rules of `plant_alarm` decide first, and then the unit's quota.

ghost use Rattle.std.specs.Prelude.{◌≡◌};
ghost use Rattle.plant_types.specs.{Names.{Name}, Results.{Gives, OnlyMemory}};
ghost use Rattle.plant_model.specs.declared.call.Request.TheVariants.{OneShotShelve, TimedShelve, Unshelve};
ghost use Rattle.plant_model.specs.steps.RowFacts.{unit_read};
ghost use Rattle.plant_unit.specs.{Additions.{AreKept}, FromFacts.{DecidesAs, DecidesFrom, GivesOne}, Shelving.{shelf_decision}};
ghost use Rattle.plant_unit.specs.Shelving as shelving;

use crate::facts::{alarm_of, others_shelved, shelf_left, shelf_of};
use plant_alarm::{Shelf, ShelfRefused, one_shot, timed, unshelve};
use plant_model::{Call, Key, Refused, Row, RowEdit, ShelfRow, UnitPart, UnitRow};
use plant_types::{Fault, Moment, Person, Seconds, Tag, Words};
use std::alloc::Global;

/// What a call that shelves states: the tag of the alarm, and the words.
#[derive(Clone, Copy)]
pub struct Shelving<'a> {
    pub tag: &'a Tag,
    pub words: &'a Words,
}

fn refusal_of(refused: ShelfRefused) -> Refused
    ensures { result ≡ shelving.refusal_of refused }
{
    match refused {
        ShelfRefused::ShelvingTimeOutOfRange(max) => Refused::ShelvingTimeOutOfRange(max),
        ShelfRefused::ConditionAlreadyShelved => Refused::ConditionAlreadyShelved,
        ShelfRefused::ConditionNotShelved => Refused::ConditionNotShelved,
    }
}

/// The change that puts a shelf's row, or removes it if there is no shelf.
fn shelf_change(
    alloc: Global,
    tag: &Tag,
    person: &Person,
    words: &Words,
    shelf: Shelf,
) -> Result<RowEdit, Fault>
    ensures value { Gives result (shelving.shelf_change tag.now person.now words.now shelf) }
    ensures err { OnlyMemory result }
{
    let tag = tag.copy(alloc)?;
    let (one_shot, start_s, until_s) = match shelf {
        Shelf::Clear => return Ok(RowEdit::Remove(Key::Shelf(tag))),
        Shelf::Timed { start, until } => (false, start, until),
        Shelf::OneShot { start, until } => (true, start, until),
    };
    Ok(RowEdit::Put(Row::Shelf(ShelfRow {
        tag,
        one_shot,
        start_s,
        until_s,
        person: person.copy(alloc)?,
        words: words.copy(alloc)?,
    })))
}

/// Puts this shelf of an alarm, if the unit's quota has room for one more.
fn shelve(
    alloc: Global,
    unit: &UnitRow,
    part: &UnitPart,
    call: &Call,
    shelving: Shelving<'_>,
    shelf: Shelf,
) -> Result<Result<RowEdit, Refused>, Fault>
    requires { unit_read part.now.rows ≡ unit.now }
    ensures value { AreKept part.now
        → GivesOne result (shelf_decision part.now call.now shelving.entry.tag.now shelving.entry.words.now shelf) }
    ensures err { OnlyMemory result }
{
    let Shelving { tag, words } = shelving;
    if others_shelved(part, tag, call.moment) as u64 >= unit.quota.get() {
        return Ok(Err(Refused::ShelfQuota(unit.quota)));
    }
    Ok(Ok(shelf_change(alloc, tag, &call.person, words, shelf)?))
}

/// Shelves an alarm for a time.
pub fn shelve_for(
    alloc: Global,
    unit: &UnitRow,
    part: &UnitPart,
    call: &Call,
    shelving: Shelving<'_>,
    seconds: Seconds,
) -> Result<Result<RowEdit, Refused>, Fault>
    requires { unit_read part.now.rows ≡ unit.now }
    ensures value { DecidesFrom part.now call.now
        (λ u. TimedShelve u shelving.entry.tag.now seconds shelving.entry.words.now) result }
    ensures err { OnlyMemory result }
{
    let Some(alarm) = alarm_of(part, shelving.tag) else {
        return Ok(Err(Refused::AlarmUnknown));
    };
    let left = shelf_left(shelf_of(part, shelving.tag));
    match timed(&left, alarm.return_s, call.moment, seconds, alarm.max_s) {
        Err(refused) => Ok(Err(refusal_of(refused))),
        Ok(shelf) => shelve(alloc, unit, part, call, shelving, shelf),
    }
}

/// Shelves an alarm until it returns to normal.
pub fn shelve_once(
    alloc: Global,
    unit: &UnitRow,
    part: &UnitPart,
    call: &Call,
    shelving: Shelving<'_>,
) -> Result<Result<RowEdit, Refused>, Fault>
    requires { unit_read part.now.rows ≡ unit.now }
    ensures value { DecidesFrom part.now call.now
        (λ u. OneShotShelve u shelving.entry.tag.now shelving.entry.words.now) result }
    ensures err { OnlyMemory result }
{
    let Some(alarm) = alarm_of(part, shelving.tag) else {
        return Ok(Err(Refused::AlarmUnknown));
    };
    let left = shelf_left(shelf_of(part, shelving.tag));
    match one_shot(&left, alarm.return_s, call.moment, alarm.max_s) {
        Err(refused) => Ok(Err(refusal_of(refused))),
        Ok(shelf) => shelve(alloc, unit, part, call, shelving, shelf),
    }
}

/// Ends the shelf of an alarm.
pub fn end_shelf(
    alloc: Global,
    part: &UnitPart,
    now: Moment,
    tag: &Tag,
) -> Result<Result<RowEdit, Refused>, Fault>
    ensures value { (p u : Name) → DecidesAs part.now p now (Unshelve u tag.now) result }
    ensures err { OnlyMemory result }
{
    let Some(alarm) = alarm_of(part, tag) else {
        return Ok(Err(Refused::AlarmUnknown));
    };
    let left = shelf_left(shelf_of(part, tag));
    match unshelve(&left, alarm.return_s, now) {
        Err(refused) => Ok(Err(refusal_of(refused))),
        Ok(_) => Ok(Ok(RowEdit::Remove(Key::Shelf(tag.copy(alloc)?)))),
    }
}
