//! Judges an import whose caller may make it: which rows are new, and what they change.

ghost use Rattle.std.specs.Prelude.{◌≡◌, ◌≤◌, ◌+◌, IfOk, nat_lt};
ghost use Rattle.plant_types.specs.Results.{OnlyMemory};
ghost use Rattle.plant_model.specs.declared.reply.Reply.TheVariants.{Imported};
ghost use Rattle.plant_model.specs.steps.RowFacts.{unit_read};
ghost use Rattle.plant_unit.specs.{Additions.{GivesAddition, GivesImport, TellsFull}, FromFacts.{JudgesImport}};

use crate::alarms::push_alarms;
use plant_alarm::Event;
use plant_import::{FileRead, Merged, count_new, in_rising_number, merge};
use plant_model::{Call, Full, Refused, Reply, Row, RowEdit, UnitPart, UnitRow, Verdict};
use plant_types::limits::MAX_EVENTS;
use plant_types::{Fault, List, Moment};
use std::alloc::Global;

/// Whether this number of events is too many for a unit.
fn is_full(kept: u32, new: usize) -> bool
    ensures { result ≡ nat_lt MAX_EVENTS (kept + new) }
{
    let kept = u64::from(kept);
    kept > MAX_EVENTS || new as u64 > MAX_EVENTS - kept
}

/// Whether a file's new events are too many for a unit. They are counted only if the unit does not have room for all
/// rows of the file.
fn has_too_many(alloc: Global, part: &UnitPart, rows: &[Event]) -> Result<bool, Fault>
    ensures value { TellsFull part.now rows.now result }
    ensures err { OnlyMemory result }
{
    if !is_full(part.count, rows.len()) {
        return Ok(false);
    }
    let new = count_new(alloc, &part.rows.events, rows)?;
    Ok(is_full(part.count, new))
}

/// The new rows of a file and the number of its repeated ones. Refused, in this order: a file with too many new events,
/// and the first faulty row.
fn merge_file(
    alloc: Global,
    part: &UnitPart,
    now: Moment,
    rows: &[Event],
) -> Result<Result<Merged, Refused>, Fault>
    ensures value { GivesAddition part.now now rows.now result }
    ensures err { OnlyMemory result }
{
    if has_too_many(alloc, part, rows)? {
        return Ok(Err(Refused::UnitFull(Full::Events)));
    }
    let kept = &part.rows.events;
    match merge(alloc, kept, rows, &part.rows.alarms, now)? {
        Ok(merged) => Ok(Ok(merged)),
        Err(fault) => Ok(Err(Refused::BadFile(fault))),
    }
}

/// The reply to an import with the numbers of its new and repeated rows. More than 4,294,967,295 new rows are reported
/// as that number.
fn import_reply(fresh: usize, repeated: u64) -> Reply
    ensures { fresh ≤ 4294967295 → result ≡ Imported fresh repeated }
{
    Reply::Imported {
        fresh: u32::try_from(fresh).unwrap_or(u32::MAX),
        repeated,
    }
}

/// The changes of an import that adds these rows of its file. The events are put ordered by number, whatever their
/// order in the file: a table whose new rows come last moves no row.
fn import_changes(
    alloc: Global,
    unit: &UnitRow,
    part: &UnitPart,
    now: Moment,
    rows: &[Event],
    added: List<Event>,
) -> Result<List<RowEdit>, Fault>
    requires { unit_read part.now.rows ≡ unit.now }
    ensures value { GivesImport part.now now rows.now added result }
    ensures err { OnlyMemory result }
{
    let mut changes = List::new(alloc);
    let mut row = *unit;
    row.last_s = now;
    changes.push(RowEdit::Put(Row::Unit(row)))?;
    let (alarms, kept) = (&part.rows.alarms, &part.rows.events);
    let rising = in_rising_number(alloc, added)?;
    push_alarms(alloc, &mut changes, alarms, kept, rows, &rising)?;
    changes.push(RowEdit::PutEvents(rising.into_list()))?;
    Ok(changes)
}

/// The verdict on an import whose caller may make it.
pub fn judge_import(
    alloc: Global,
    unit: &UnitRow,
    part: &UnitPart,
    call: &Call,
    file: &FileRead,
) -> Result<Verdict, Fault>
    requires { unit_read part.now.rows ≡ unit.now }
    ensures value { JudgesImport part.now call.now file.now result }
    ensures err { OnlyMemory result }
{
    let rows = match file {
        Ok(rows) => rows.as_slice(),
        Err(fault) => return Ok(Verdict::Refused(Refused::BadFile(*fault))),
    };
    match merge_file(alloc, part, call.moment, rows)? {
        Err(refused) => Ok(Verdict::Refused(refused)),
        Ok(merged) => {
            let count = merged.fresh.len();
            let changes = import_changes(alloc, unit, part, call.moment, rows, merged.fresh)?;
            Ok(Verdict::Accepted(import_reply(count, merged.repeated), changes))
        }
    }
}
