//! Events compared and merged by their numbers: how many numbers of a file are new, and the kept events with new
//! ones added.

ghost use Rattle.std.specs.List.{list_any};
ghost use Rattle.std.specs.Prelude.{◌≡◌, ◌↔◌, ◌++◌, [], IfOk, IsTrue, List, OnOk, false, filter, length, option_map, slice_get, unwrap_or};
ghost use Rattle.plant_alarm.specs.declared.event.Event.{Event as TheEvent};
ghost use Rattle.plant_types.specs.Results.{OnlyMemory};
ghost use Rattle.plant_import.specs.Numbers.{AreByNumber, AreNumbered, is_other, new_numbers, with_event, with_events};
ghost use Rattle.plant_import.specs.Numbers as numbers;

use crate::needs::count_before;
use crate::relation::place_of;
use plant_alarm::{Event, Number};
use plant_types::{Fault, List, Sorted, copy_all};
use std::alloc::Global;
use std::collections::BTreeMap;

/// Whether the event at a place has this number. False past the end.
fn is_at(events: &[Event], place: usize, number: Number) -> bool
    ensures { result ≡ unwrap_or
        (option_map (numbers.has_number number) (slice_get events.now place)) false }
{
    events.get(place).is_some_and(|event| event.seq == number)
}

/// Whether one of the events has this number.
pub fn has_number(events: &Sorted<Event>, number: Number) -> bool
    ensures { result ≡ list_any (numbers.has_number number) events.now }
{
    events.has(&number)
}

/// Whether the numbers of the events rise.
pub fn rise(events: &[Event]) -> bool
    ensures { IsTrue result ↔ AreNumbered events.now }
{
    events.is_sorted_by(|event, next| event.seq < next.seq)
}

/// How many rows have a number that no kept event has.
fn count_others(kept: &Sorted<Event>, rows: &[Event]) -> usize
    ensures { result ≡ length (filter (is_other kept.now) rows.now) }
{
    let mut count = 0;
    for event in rows {
        if !has_number(kept, event.seq) {
            count += 1;
        }
    }
    count
}

/// How many numbers the file has that no kept event has, each counted once.
pub fn count_new(alloc: Global, kept: &Sorted<Event>, file: &[Event]) -> Result<usize, Fault>
    ensures value { IfOk result (λ count. count ≡ length (new_numbers kept.now file.now)) }
    ensures err { OnlyMemory result }
{
    if rise(file) {
        return Ok(count_others(kept, file));
    }
    let rising = in_rising_number(alloc, copy_all(alloc, file)?)?;
    Ok(count_others(kept, rising.as_slice()))
}

/// Puts an event into a map by number. It replaces the event with the same number, if any.
pub fn put(events: &mut BTreeMap<Number, Event>, event: Event) -> Result<(), Fault>
    ensures value { (es : List TheEvent) → AreByNumber events.old es
        → OnOk result (AreByNumber events.new (with_event event es)) }
    ensures err { OnlyMemory result }
{
    events.insert(event.seq, event)?;
    Ok(())
}

/// The events in a map by number. Of events with the same number the last is kept.
fn by_number(alloc: Global, events: List<Event>) -> Result<BTreeMap<Number, Event>, Fault>
    ensures value { IfOk result (λ rising. AreByNumber rising (with_events [] events)) }
    ensures err { OnlyMemory result }
{
    let mut rising = BTreeMap::new(alloc);
    for event in events.into_vec() {
        put(&mut rising, event)?;
    }
    Ok(rising)
}

/// The events ordered by number, and of events with the same number the last. A list that is in order is kept as it is.
pub fn in_rising_number(alloc: Global, events: List<Event>) -> Result<Sorted<Event>, Fault>
    ensures value { IfOk result (λ rising. rising ≡ with_events [] events) }
    ensures err { OnlyMemory result }
{
    match Sorted::from_list(events) {
        Ok(rising) => Ok(rising),
        Err(events) => in_order(alloc, events),
    }
}

/// The events ordered by number, and of events with the same number the last, through a map.
fn in_order(alloc: Global, events: List<Event>) -> Result<Sorted<Event>, Fault>
    ensures value { IfOk result (λ rising. rising ≡ with_events [] events) }
    ensures err { OnlyMemory result }
{
    let mut rising = List::new(alloc);
    for event in by_number(alloc, events)?.into_values() {
        rising.push(event)?;
    }
    Ok(Sorted::of(rising))
}

/// Appends copies of the events.
fn push_all(alloc: Global, all: &mut List<Event>, events: &[Event]) -> Result<(), Fault>
    ensures value { OnOk result (all.new ≡ all.old ++ events.now) }
    ensures err { OnlyMemory result }
{
    for event in events {
        all.push(event.copy(alloc)?)?;
    }
    Ok(())
}

/// The events, without the first if it has this number.
fn without_first(events: &[Event], number: Number) -> &[Event]
    ensures { result.now ≡ numbers.behind_number number events.now }
{
    if is_at(events, 0, number) {
        &events[1..]
    } else {
        events
    }
}

/// The kept events and more, merged into one list. Of two events with the same number the one in `more` is kept.
fn joined(alloc: Global, kept: &Sorted<Event>, more: &Sorted<Event>) -> Result<Sorted<Event>, Fault>
    ensures value { IfOk result (λ all. all ≡ with_events kept.now more.now) }
    ensures err { OnlyMemory result }
{
    let mut all = List::new(alloc);
    let mut rest = kept.as_slice();
    let events = more.as_slice();
    for event in events {
        let (below, above) = rest.split_at(place_of(rest, event.seq));
        push_all(alloc, &mut all, below)?;
        all.push(event.copy(alloc)?)?;
        rest = without_first(above, event.seq);
    }
    push_all(alloc, &mut all, rest)?;
    Ok(Sorted::of(all))
}

/// The kept events together with more, which may be in any order. The result is ordered by number.
pub fn events_after(
    alloc: Global,
    kept: &Sorted<Event>,
    more: &[Event],
) -> Result<Sorted<Event>, Fault>
    ensures value { IfOk result (λ all. all ≡ with_events kept.now more.now) }
    ensures err { OnlyMemory result }
{
    let rising = in_rising_number(alloc, copy_all(alloc, more)?)?;
    if kept.as_slice().is_empty() {
        return Ok(rising);
    }
    joined(alloc, kept, &rising)
}

/// Puts events one by one where their numbers belong.
fn put_each(kept: &mut Sorted<Event>, more: List<Event>) -> Result<(), Fault>
    ensures value { OnOk result (kept.new ≡ with_events kept.old more) }
    ensures err { OnlyMemory result }
{
    for event in more.into_vec() {
        kept.put(event)?;
    }
    Ok(())
}

/// For how many moved events one is copied in the same time.
const MOVES: usize = 16;

/// Whether it takes less time to move the kept events behind the least of these once for each of these than to copy all
/// kept ones.
fn is_cheaper_to_move(kept: &Sorted<Event>, events: &[Event]) -> bool {
    let behind = kept.len() - count_before(kept, events);
    events.len().saturating_mul(behind) <= kept.len().saturating_mul(MOVES)
}

/// Adds events, in any order, to the kept ones. If the new events are in order and come after all kept ones, the kept
/// ones are not touched. A few events are put one by one, which moves the kept ones behind them. Otherwise each of the
/// kept ones is copied once.
pub fn put_events(alloc: Global, kept: &mut Sorted<Event>, more: List<Event>) -> Result<(), Fault>
    ensures value { OnOk result (kept.new ≡ with_events kept.old more) }
    ensures err { OnlyMemory result }
{
    let events = more.as_slice();
    if rise(events) && count_before(kept, events) == kept.as_slice().len() {
        return kept.append(more);
    }
    if is_cheaper_to_move(kept, events) {
        return put_each(kept, more);
    }
    *kept = events_after(alloc, kept, events)?;
    Ok(())
}
