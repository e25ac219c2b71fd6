//! Registering alarms, and taking them out of service and back.

ghost use Rattle.std.specs.Prelude.{◌≡◌, IfOk};
ghost use Rattle.plant_types.specs.Results.{Gives, OnlyMemory};
ghost use Rattle.plant_model.specs.steps.RowChanges.{placed_in, taken_out};
ghost use Rattle.plant_model.specs.declared.call.Request.TheVariants.{PlaceInService, Register, RemoveFromService};
ghost use Rattle.plant_unit.specs.FromFacts.{Decides, DecidesAlways};

use crate::facts::alarm_of;
use plant_model::{AlarmRow, Call, Full, Refused, Row, RowEdit, UnitPart};
use plant_types::limits::MAX_ALARMS;
use plant_types::{Fault, Seconds, Tag, TryCopy, Words};
use std::alloc::Global;

/// The alarm's row, out of service.
fn row_out_of_service(
    alloc: Global,
    alarm: &AlarmRow,
    call: &Call,
    words: &Words,
) -> Result<AlarmRow, Fault>
    ensures value { Gives result (taken_out call.now.person call.now.moment words.now alarm.now) }
    ensures err { OnlyMemory result }
{
    let mut row = alarm.copy(alloc)?;
    row.out_s = Some(call.moment);
    row.out_by = Some(call.person.copy(alloc)?);
    row.out_words = Some(words.copy(alloc)?);
    Ok(row)
}

/// The alarm's row, in service.
fn row_in_service(alloc: Global, alarm: &AlarmRow) -> Result<AlarmRow, Fault>
    ensures value { IfOk result (λ row. row ≡ placed_in alarm.now) }
    ensures err { OnlyMemory result }
{
    let mut row = alarm.copy(alloc)?;
    row.out_s = None;
    row.out_by = None;
    row.out_words = None;
    Ok(row)
}

/// Registers an alarm.
pub fn register(
    alloc: Global,
    part: &UnitPart,
    tag: &Tag,
    latching: bool,
    max: Seconds,
) -> Result<Result<RowEdit, Refused>, Fault>
    ensures value { DecidesAlways part.now (λ u. Register u tag.now latching max) result }
    ensures err { OnlyMemory result }
{
    if u64::from(part.count) >= MAX_ALARMS {
        return Ok(Err(Refused::UnitFull(Full::Alarms)));
    }
    if alarm_of(part, tag).is_some() {
        return Ok(Err(Refused::AlarmTaken));
    }
    let alarm = AlarmRow::new(alloc, tag, latching, max)?;
    Ok(Ok(RowEdit::Put(Row::Alarm(alarm))))
}

/// Takes an alarm out of service.
pub fn remove_from_service(
    alloc: Global,
    part: &UnitPart,
    call: &Call,
    tag: &Tag,
    words: &Words,
) -> Result<Result<RowEdit, Refused>, Fault>
    ensures value { Decides part.now call.now (λ u. RemoveFromService u tag.now words.now) result }
    ensures err { OnlyMemory result }
{
    let Some(alarm) = alarm_of(part, tag) else {
        return Ok(Err(Refused::AlarmUnknown));
    };
    if alarm.out_s.is_some() {
        return Ok(Err(Refused::AlreadyOutOfService));
    }
    let row = row_out_of_service(alloc, alarm, call, words)?;
    Ok(Ok(RowEdit::Put(Row::Alarm(row))))
}

/// Places an alarm in service again.
pub fn place_in_service(
    alloc: Global,
    part: &UnitPart,
    tag: &Tag,
) -> Result<Result<RowEdit, Refused>, Fault>
    ensures value { DecidesAlways part.now (λ u. PlaceInService u tag.now) result }
    ensures err { OnlyMemory result }
{
    let Some(alarm) = alarm_of(part, tag) else {
        return Ok(Err(Refused::AlarmUnknown));
    };
    if alarm.out_s.is_none() {
        return Ok(Err(Refused::NotOutOfService));
    }
    let row = row_in_service(alloc, alarm)?;
    Ok(Ok(RowEdit::Put(Row::Alarm(row))))
}
