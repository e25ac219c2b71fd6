//! The answers to reads.

ghost use Rattle.std.specs.Prelude.{◌≡◌, IfOk, Ok, ℕ};
ghost use Rattle.plant_types.specs.{Names.{Name}, Results.{Gives, OnlyMemory}};
ghost use Rattle.plant_model.specs.steps.RowFacts.{facts_in};
ghost use Rattle.plant_model.specs.declared.call.Request.TheVariants.{Alarms as AlarmsCall, ChangeOf as ChangeCall, Floods as FloodsCall, RecordOf as RecordCall, Shelves as ShelvesCall, Standing as StandingCall, Status as StatusCall};
ghost use Rattle.plant_model.specs.declared.reply.Reply.TheVariants.{Shelves as ShelvesReply};
ghost use Rattle.plant_unit.specs.{Additions.{AreCountable, AreKept}, FromFacts.{Answers, AnswersAlways, AnswersAnyone, GivesFrom}};
ghost use Rattle.plant_unit.specs.Shelving.{is_shelved, line_at, lines_among};
ghost use Rattle.plant_model.specs.Replies as replies;

use crate::facts::{alarm_of, returned_next, state_now, state_of};
use crate::flood_list::{flood_lines, is_aligned};
use crate::reading::{change_of, priority_next, rationale_of};
use plant_alarm::ShelfState;
use plant_model::{
    AlarmLine, AlarmRow, Refused, Reply, ShelfLine, ShelfRow, StandingLine, StatusRow, UnitPart,
};
use plant_types::{Fault, List, Moment, Sorted, Tag, TryCopy, UnitCode};
use std::alloc::Global;
use std::mem;

/// The status of an alarm.
pub fn status(
    alloc: Global,
    part: &UnitPart,
    now: Moment,
    tag: &Tag,
) -> Result<Result<Reply, Refused>, Fault>
    ensures value { (p u : Name) → Answers part.now p now (StatusCall u tag.now) result }
    ensures err { OnlyMemory result }
{
    let Some(alarm) = alarm_of(part, tag) else {
        return Ok(Err(Refused::AlarmUnknown));
    };
    let shelf = state_now(part, tag, now);
    let shelved = !matches!(shelf, ShelfState::Unshelved);
    let out_of_service = alarm.out_s.is_some();
    Ok(Ok(Reply::Status(StatusRow {
        tag: alarm.tag.copy(alloc)?,
        limit: alarm.max_s,
        limit_revision: alarm.limit_revision(),
        state: alarm.state_no,
        shelf,
        suppressed: alarm.suppressed,
        out_of_service,
        suppressed_or_shelved: shelved || alarm.suppressed || out_of_service,
    })))
}

/// The line of a shelf whose alarm last returned to normal at this moment. `None` if the shelf has ended.
pub fn shelf_line(row: ShelfRow, returned: Option<Moment>, now: Moment) -> Option<ShelfLine>
    ensures { result ≡ line_at row returned now }
{
    let (one_shot, left) = match state_of(Some(&row), returned, now) {
        ShelfState::Unshelved => return None,
        ShelfState::TimedShelved(left) => (false, left),
        ShelfState::OneShotShelved(left) => (true, left),
    };
    let ShelfRow {
        tag,
        one_shot: _,
        start_s,
        until_s: _,
        person,
        words,
    } = row;
    Some(ShelfLine {
        tag,
        one_shot,
        start: start_s,
        left,
        person,
        words,
    })
}

/// The lines of those shelves that hold, which are most of them. The alarms give the returns to normal.
fn lines(
    alloc: Global,
    alarms: &Sorted<AlarmRow>,
    shelves: Sorted<ShelfRow>,
    now: Moment,
) -> Result<List<ShelfLine>, Fault>
    ensures value { IfOk result (λ lines. lines ≡ lines_among alarms.now shelves now) }
    ensures err { OnlyMemory result }
{
    let mut lines = List::new(alloc);
    let mut next = 0;
    for row in shelves.into_list().into_vec() {
        let returned = returned_next(alarms, &mut next, &row.tag);
        if let Some(line) = shelf_line(row, returned, now) {
            lines.push(line)?;
        }
    }
    Ok(lines)
}

/// The list of those shelves that hold at the moment.
fn shelves_reply(
    alloc: Global,
    alarms: &Sorted<AlarmRow>,
    shelves: Sorted<ShelfRow>,
    now: Moment,
    unit: &UnitCode,
) -> Result<Reply, Fault>
    ensures value { Gives result (ShelvesReply unit.now now (lines_among alarms.now shelves now)) }
    ensures err { OnlyMemory result }
{
    Ok(Reply::Shelves {
        unit: unit.copy(alloc)?,
        at: now,
        lines: lines(alloc, alarms, shelves, now)?,
    })
}

/// The shelves that hold at the moment.
pub fn shelves(
    alloc: Global,
    part: &UnitPart,
    now: Moment,
    unit: &UnitCode,
) -> Result<Result<Reply, Refused>, Fault>
    ensures value { AnswersAnyone part.now now (ShelvesCall unit.now) result }
    ensures err { OnlyMemory result }
{
    let shelves = part.rows.shelves.copy(alloc)?;
    Ok(Ok(shelves_reply(alloc, &part.rows.alarms, shelves, now, unit)?))
}

/// The same, but takes the shelves out of the part, so that their words need not be copied again.
pub fn take_shelves(
    alloc: Global,
    part: &mut UnitPart,
    now: Moment,
    unit: &UnitCode,
) -> Result<Result<Reply, Refused>, Fault>
    ensures value { AnswersAnyone part.old now (ShelvesCall unit.now) result }
    ensures err { OnlyMemory result }
{
    let shelves = mem::replace(&mut part.rows.shelves, Sorted::new(alloc));
    Ok(Ok(shelves_reply(alloc, &part.rows.alarms, shelves, now, unit)?))
}

/// The places at which the shelf and the record of the next alarm are looked for first.
#[derive(Drop)]
struct Next {
    shelf: usize,
    record: usize,
}

impl Next {
    /// The places for the first alarm.
    fn first() -> Next {
        Next {
            shelf: 0,
            record: 0,
        }
    }
}

fn is_shelved(part: &UnitPart, next: &mut usize, alarm: &AlarmRow, now: Moment) -> bool
    ensures { result ≡ is_shelved (facts_in part.now) alarm.now now }
{
    let shelf = part.rows.shelves.get_next(next, &alarm.tag);
    !matches!(state_of(shelf, alarm.return_s, now), ShelfState::Unshelved)
}

fn alarm_line(
    alloc: Global,
    part: &UnitPart,
    next: &mut Next,
    alarm: &AlarmRow,
    now: Moment,
) -> Result<AlarmLine, Fault>
    ensures value { GivesFrom part.now result (λ f. replies.alarm_line f now alarm.now) }
    ensures err { OnlyMemory result }
{
    Ok(AlarmLine {
        tag: alarm.tag.copy(alloc)?,
        state: alarm.state_no,
        priority: priority_next(part, &mut next.record, &alarm.tag),
        shelved: is_shelved(part, &mut next.shelf, alarm, now),
        by_design: alarm.suppressed,
        out_of_service: alarm.out_s.is_some(),
        limit: alarm.max_s,
    })
}

/// The line of an alarm, if it is active.
fn standing_line(
    alloc: Global,
    part: &UnitPart,
    next: &mut Next,
    alarm: &AlarmRow,
    now: Moment,
) -> Result<Option<StandingLine>, Fault>
    ensures value { GivesFrom part.now result (λ f. replies.standing_line f now alarm.now) }
    ensures err { OnlyMemory result }
{
    let Some(since) = alarm.active_s else {
        return Ok(None);
    };
    let line = alarm_line(alloc, part, next, alarm, now)?;
    Ok(Some(StandingLine {
        tag: line.tag,
        state: line.state,
        priority: line.priority,
        since,
        shelved: line.shelved,
        by_design: line.by_design,
        out_of_service: line.out_of_service,
    }))
}

fn alarm_lines(alloc: Global, part: &UnitPart, now: Moment) -> Result<List<AlarmLine>, Fault>
    ensures value { GivesFrom part.now result (λ f. replies.alarm_lines f now) }
    ensures err { OnlyMemory result }
{
    let alarms = part.rows.alarms.as_slice();
    let mut lines = List::new(alloc);
    let mut next = Next::first();
    for alarm in alarms {
        lines.push(alarm_line(alloc, part, &mut next, alarm, now)?)?;
    }
    Ok(lines)
}

fn standing_lines(alloc: Global, part: &UnitPart, now: Moment) -> Result<List<StandingLine>, Fault>
    ensures value { GivesFrom part.now result (λ f. replies.standing_lines f now) }
    ensures err { OnlyMemory result }
{
    let alarms = part.rows.alarms.as_slice();
    let mut lines = List::new(alloc);
    let mut next = Next::first();
    for alarm in alarms {
        if let Some(found) = standing_line(alloc, part, &mut next, alarm, now)? {
            lines.push(found)?;
        }
    }
    Ok(lines)
}

/// All alarms.
pub fn alarms(
    alloc: Global,
    part: &UnitPart,
    now: Moment,
    unit: &UnitCode,
) -> Result<Result<Reply, Refused>, Fault>
    ensures value { AreKept part.now → AnswersAnyone part.now now (AlarmsCall unit.now) result }
    ensures err { OnlyMemory result }
{
    Ok(Ok(Reply::Alarms {
        unit: unit.copy(alloc)?,
        at: now,
        lines: alarm_lines(alloc, part, now)?,
    }))
}

/// The alarms that are active.
pub fn standing(
    alloc: Global,
    part: &UnitPart,
    now: Moment,
    unit: &UnitCode,
) -> Result<Result<Reply, Refused>, Fault>
    ensures value { AreKept part.now → AnswersAnyone part.now now (StandingCall unit.now) result }
    ensures err { OnlyMemory result }
{
    Ok(Ok(Reply::Standing {
        unit: unit.copy(alloc)?,
        at: now,
        lines: standing_lines(alloc, part, now)?,
    }))
}

/// The floods in a range.
pub fn floods(
    alloc: Global,
    part: &UnitPart,
    unit: &UnitCode,
    begin: Moment,
    until: Moment,
) -> Result<Result<Reply, Refused>, Fault>
    ensures value { AreCountable part.now.rows.events
        → (t : ℕ) (p : Name) → Answers part.now p t (FloodsCall unit.now begin until) result }
    ensures err { OnlyMemory result }
{
    if !is_aligned(begin, until) {
        return Ok(Err(Refused::RangeNotAligned));
    }
    let events = part.rows.events.as_slice();
    Ok(Ok(Reply::Floods {
        unit: unit.copy(alloc)?,
        begin,
        until,
        lines: flood_lines(alloc, events, begin, until)?,
    }))
}

/// The record of an alarm.
pub fn record(alloc: Global, part: &UnitPart, tag: &Tag) -> Result<Result<Reply, Refused>, Fault>
    ensures value { AreKept part.now → AnswersAlways part.now (λ u. RecordCall u tag.now) result }
    ensures err { OnlyMemory result }
{
    if alarm_of(part, tag).is_none() {
        return Ok(Err(Refused::AlarmUnknown));
    }
    match rationale_of(alloc, part, tag)? {
        None => Ok(Err(Refused::RecordUnknown)),
        Some(row) => Ok(Ok(Reply::RecordOf(row))),
    }
}

/// The change with a number.
pub fn change(alloc: Global, part: &UnitPart, number: u32) -> Result<Result<Reply, Refused>, Fault>
    ensures value { AreKept part.now → AnswersAlways part.now (λ u. ChangeCall u number) result }
    ensures err { OnlyMemory result }
{
    match change_of(alloc, part, number)? {
        None => Ok(Err(Refused::ChangeUnknown)),
        Some(change) => Ok(Ok(Reply::ChangeOf(change))),
    }
}
