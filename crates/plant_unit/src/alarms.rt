//! Computes the states of alarms after an import: from the events of the alarms that the file names, or continued from
//! the alarms' rows if no new event comes late.

ghost use Rattle.std.specs.Prelude.{◌≡◌, ◌++◌, ◌∷◌, [], IfOk, OnOk, length, map};
ghost use Rattle.plant_types.specs.Results.{Gives, OnlyMemory};
ghost use Rattle.plant_unit.specs.Alarms.{AddsAt, AddsEvents, ForImport, GivesAnew, GivesNamed, GivesOn, HaveStates, PushesNamed, brought, in_columns, states_after};
ghost use Rattle.plant_import.specs.Numbers.{with_events};
ghost use Rattle.plant_unit.specs.Summaries as states;

use plant_alarm::{Event, Summary};
use plant_import::{events_after, has_late};
use plant_model::{AlarmRow, Row, RowEdit};
use plant_types::{Fault, List, Sorted, TryCopy};
use std::alloc::Global;

/// The summaries of alarms by their events, and which of the alarms the new events name. Both lists have one element
/// for each alarm, in the order of the alarms.
#[derive(Drop)]
struct Brought {
    summaries: List<Summary>,
    named: List<bool>,
}

/// Updates the summary at a place with one more event of its alarm.
fn add_at(summaries: &mut List<Summary>, place: usize, event: &Event, latching: bool)
    ensures length { length summaries.new ≡ length summaries.old }
    ensures value { AddsAt place event.now latching summaries.old summaries.new }
{
    if let Some(summary) = summaries.as_slice().get(place) {
        let mut next = *summary;
        next.add(event, latching);
        summaries.replace_at(place, next);
    }
}

/// Updates the summaries with one new event.
fn add_event(all: &mut Brought, alarms: &Sorted<AlarmRow>, next: &mut usize, event: &Event)
    ensures summaries { length all.new.summaries ≡ length all.old.summaries }
    ensures named { length all.new.named ≡ length all.old.named }
    ensures value { AddsEvents alarms.now (event.now ∷ []) all.old all.new }
{
    if let Some(place) = alarms.place_next(next, &event.tag) {
        if let Some(alarm) = alarms.as_slice().get(place) {
            add_at(&mut all.summaries, place, event, alarm.latching);
            all.named.replace_at(place, true);
        }
    }
}

/// Updates the summaries with new events.
fn add_events(all: &mut Brought, alarms: &Sorted<AlarmRow>, events: &[Event])
    ensures summaries { length all.new.summaries ≡ length all.old.summaries }
    ensures named { length all.new.named ≡ length all.old.named }
    ensures value { AddsEvents alarms.now events.now all.old all.new }
{
    let mut next = 0;
    for event in events {
        add_event(all, alarms, &mut next, event);
    }
}

/// The summaries of alarms without events.
fn without_events(alloc: Global, alarms: &[AlarmRow]) -> Result<Brought, Fault>
    ensures value { IfOk result (λ all. all ≡ brought alarms.now [] []) }
    ensures err { OnlyMemory result }
{
    let mut summaries = List::new(alloc);
    let mut named = List::new(alloc);
    for alarm in alarms {
        summaries.push(Summary::of(&[], alarm.latching))?;
        named.push(false)?;
    }
    Ok(Brought { summaries, named })
}

/// The summaries in the columns of the alarms' rows, before new events.
fn from_columns(alloc: Global, alarms: &[AlarmRow]) -> Result<Brought, Fault>
    ensures value { IfOk result (λ all. all ≡ in_columns alarms.now) }
    ensures err { OnlyMemory result }
{
    let mut summaries = List::new(alloc);
    let mut named = List::new(alloc);
    for alarm in alarms {
        summaries.push(Summary {
            state: alarm.state_no,
            suppressed: alarm.suppressed,
            active_since: alarm.active_s,
            last_return: alarm.return_s,
        })?;
        named.push(false)?;
    }
    Ok(Brought { summaries, named })
}

/// The summaries after new events, computed from kept and new events.
fn from_events(
    alloc: Global,
    alarms: &Sorted<AlarmRow>,
    kept: &Sorted<Event>,
    fresh: &Sorted<Event>,
) -> Result<Brought, Fault>
    ensures summaries { IfOk result (λ all. length all.summaries ≡ length alarms.now) }
    ensures named { IfOk result (λ all. length all.named ≡ length alarms.now) }
    ensures value { GivesAnew alarms.now kept.now fresh.now result }
    ensures err { OnlyMemory result }
{
    let all_events = events_after(alloc, kept, fresh.as_slice())?;
    let mut all = without_events(alloc, alarms.as_slice())?;
    add_events(&mut all, alarms, all_events.as_slice());
    let mut new = without_events(alloc, alarms.as_slice())?;
    add_events(&mut new, alarms, fresh.as_slice());
    Ok(Brought {
        summaries: all.summaries,
        named: new.named,
    })
}

/// The summaries in the alarms' rows, updated with new events that come after all other events of their alarms.
fn from_rows(
    alloc: Global,
    alarms: &Sorted<AlarmRow>,
    fresh: &Sorted<Event>,
) -> Result<Brought, Fault>
    ensures summaries { IfOk result (λ all. length all.summaries ≡ length alarms.now) }
    ensures named { IfOk result (λ all. length all.named ≡ length alarms.now) }
    ensures value { GivesOn alarms.now fresh.now result }
    ensures err { OnlyMemory result }
{
    let mut all = from_columns(alloc, alarms.as_slice())?;
    add_events(&mut all, alarms, fresh.as_slice());
    Ok(all)
}

/// The alarm's row with the state of a summary.
fn with_summary(alloc: Global, alarm: &AlarmRow, summary: &Summary) -> Result<AlarmRow, Fault>
    ensures value { IfOk result (λ row. row ≡ states.with_summary alarm.now summary.now) }
    ensures err { OnlyMemory result }
{
    let mut row = alarm.copy(alloc)?;
    row.state_no = summary.state;
    row.suppressed = summary.suppressed;
    row.active_s = summary.active_since;
    row.return_s = summary.last_return;
    Ok(row)
}

/// The change of an alarm's row, if the alarm is named.
#[tactic(auto, using(crate::proofs::AlarmLists::summary_state))]
fn alarm_change(
    alloc: Global,
    is_named: bool,
    alarm: &AlarmRow,
    summary: &Summary,
) -> Result<Option<RowEdit>, Fault>
    ensures value { GivesNamed is_named alarm.now summary.now result }
    ensures err { OnlyMemory result }
{
    if !is_named {
        return Ok(None);
    }
    Ok(Some(RowEdit::Put(Row::Alarm(with_summary(alloc, alarm, summary)?))))
}

/// Appends the changes of the named alarms' rows.
fn push_named(
    alloc: Global,
    changes: &mut List<RowEdit>,
    alarms: &[AlarmRow],
    all: &Brought,
) -> Result<(), Fault>
    requires summaries { length all.now.summaries ≡ length alarms.now }
    requires named { length all.now.named ≡ length alarms.now }
    ensures value { PushesNamed alarms.now all.now changes.old changes.new result }
    ensures err { OnlyMemory result }
{
    let (summaries, named) = (all.summaries.as_slice(), all.named.as_slice());
    for (i, alarm) in alarms.iter().enumerate() {
        if let Some(change) = alarm_change(alloc, named[i], alarm, &summaries[i])? {
            changes.push(change)?;
        }
    }
    Ok(())
}

/// The summaries after the new ones of these rows of a file, `fresh`. They are continued from the alarms' rows; or, if a
/// row comes late, computed from `kept`, which then has all events of the alarms that the file names.
fn after_file(
    alloc: Global,
    alarms: &Sorted<AlarmRow>,
    kept: &Sorted<Event>,
    rows: &[Event],
    fresh: &Sorted<Event>,
) -> Result<Brought, Fault>
    ensures summaries { IfOk result (λ all. length all.summaries ≡ length alarms.now) }
    ensures named { IfOk result (λ all. length all.named ≡ length alarms.now) }
    ensures value { ForImport alarms.now kept.now rows.now fresh.now
        (λ es added. IfOk result (HaveStates alarms.now es added)) }
    ensures err { OnlyMemory result }
{
    if has_late(alloc, kept, rows)? {
        from_events(alloc, alarms, kept, fresh)
    } else {
        from_rows(alloc, alarms, fresh)
    }
}

/// Appends the changes of the alarms that the new ones of these rows of a file name; the new ones are ordered by number
/// here. `kept` are the events that the file needs.
pub fn push_alarms(
    alloc: Global,
    changes: &mut List<RowEdit>,
    alarms: &Sorted<AlarmRow>,
    kept: &Sorted<Event>,
    rows: &[Event],
    fresh: &Sorted<Event>,
) -> Result<(), Fault>
    ensures value { ForImport alarms.now kept.now rows.now fresh.now
        (λ es added. OnOk result (changes.new ≡ changes.old ++ states_after es added alarms.now)) }
    ensures err { OnlyMemory result }
{
    let all = after_file(alloc, alarms, kept, rows, fresh)?;
    push_named(alloc, changes, alarms.as_slice(), &all)
}
