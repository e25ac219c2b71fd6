//! Which kept events an import needs. If a row comes late for its alarm, these are the events of the rows' alarms and
//! those around the rows' numbers; otherwise those from the last one that comes before all rows.

ghost use Rattle.std.specs.BTreeMap.{get};
ghost use Rattle.std.specs.Prelude.{◌≡◌, ◌≤◌, ◌∷◌, ◌++◌, [], IfOk, List, OnOk, false, filter, length, nat_le, nat_lt, option_map, true, unwrap_or};
ghost use Rattle.plant_alarm.specs.declared.event.Event.{Event as TheEvent};
ghost use Rattle.plant_types.specs.{Names.{name_cmp}, Results.{OnlyMemory}};
ghost use Rattle.plant_import.specs.{Numbers.{AreNumbered}, Reached.{AreFirst, is_passed}};
ghost use Rattle.plant_import.specs.Needed as needs;

use crate::beside::beside;
use crate::event_numbers::has_number;
use plant_alarm::{Event, Number};
use plant_types::{Fault, Sorted, Tag, copy_all};
use std::alloc::Global;
use std::collections::BTreeMap;

/// The least number of the rows. `None` without rows.
fn least_number(rows: &[Event]) -> Option<Number>
    ensures { (k : TheEvent) → needs.is_before_all rows.now k
        ≡ unwrap_or (option_map (λ least. nat_lt k.seq least) result) true }
{
    let mut least: Option<Number> = None;
    for row in rows {
        least = match least {
            Some(number) if number < row.seq => Some(number),
            _ => Some(row.seq),
        };
    }
    least
}

/// How many kept events have a smaller number than every row.
pub fn count_before(kept: &Sorted<Event>, rows: &[Event]) -> usize
    ensures bound { result ≤ length kept.now }
    ensures value { result ≡ length (filter (needs.is_before_all rows.now) kept.now) }
{
    match least_number(rows) {
        Some(least) => kept.place(&least),
        None => kept.len(),
    }
}

/// The kept events from the last one that comes before every row. If none does, all of them.
fn from_last_before<'a>(kept: &'a Sorted<Event>, rows: &[Event]) -> &'a [Event]
    ensures value { result.now ≡ needs.from_last_before kept.now rows.now }
    ensures order { AreNumbered result.now }
{
    let before = count_before(kept, rows).saturating_sub(1);
    let (_, near) = kept.as_slice().split_at(before);
    near
}

/// Whether the first new number of the event's alarm is the event's or a smaller one.
fn is_reached(firsts: &BTreeMap<Tag, Number>, event: &Event) -> bool
    ensures { result ≡ unwrap_or
        (option_map (λ m. nat_le m event.now.seq) (get name_cmp firsts.now event.now.tag)) false }
{
    match firsts.get(&event.tag) {
        Some(first) => *first <= event.seq,
        None => false,
    }
}

/// Takes one more row into the first new numbers.
fn put_first(
    alloc: Global,
    firsts: &mut BTreeMap<Tag, Number>,
    kept: &Sorted<Event>,
    row: &Event,
) -> Result<(), Fault>
    ensures value { (rows : List TheEvent) → AreFirst firsts.old kept.now rows
        → OnOk result (AreFirst firsts.new kept.now (rows ++ row.now ∷ [])) }
    ensures err { OnlyMemory result }
{
    if has_number(kept, row.seq) {
        return Ok(());
    }
    if is_reached(firsts, row) {
        return Ok(());
    }
    firsts.insert(row.tag.copy(alloc)?, row.seq)?;
    Ok(())
}

/// The first number of each alarm that a row has and no kept event.
fn first_numbers(
    alloc: Global,
    kept: &Sorted<Event>,
    rows: &[Event],
) -> Result<BTreeMap<Tag, Number>, Fault>
    ensures value { IfOk result (λ firsts. AreFirst firsts kept.now rows.now) }
    ensures err { OnlyMemory result }
{
    let mut firsts = BTreeMap::new(alloc);
    for row in rows {
        put_first(alloc, &mut firsts, kept, row)?;
    }
    Ok(firsts)
}

/// Whether a new row of the event's alarm has a smaller number.
fn is_overtaking(firsts: &BTreeMap<Tag, Number>, event: &Event) -> bool
    ensures { (kept rows : List TheEvent) → AreFirst firsts.now kept rows
        → result ≡ is_passed kept rows event.now.tag event.now.seq }
{
    match firsts.get(&event.tag) {
        Some(first) => *first < event.seq,
        None => false,
    }
}

/// Whether some row has a new number while a kept event of its alarm has a greater one.
pub fn has_late(alloc: Global, kept: &Sorted<Event>, rows: &[Event]) -> Result<bool, Fault>
    ensures value { IfOk result (λ late. late ≡ needs.has_late kept.now rows.now) }
    ensures err { OnlyMemory result }
{
    // Gives the proof the order of the events; checks nothing at run time.
    let _events = kept.as_slice();
    if count_before(kept, rows) == kept.len() {
        return Ok(false);
    }
    let firsts = first_numbers(alloc, kept, rows)?;
    let near = from_last_before(kept, rows);
    for event in near {
        if is_overtaking(&firsts, event) {
            return Ok(true);
        }
    }
    Ok(false)
}

/// Copies of the kept events that are needed to import these rows: if a row comes late, those of the rows' alarms and
/// those around the rows' numbers; otherwise those from the last one that comes before every row.
pub fn needed(alloc: Global, kept: &Sorted<Event>, rows: &[Event]) -> Result<Sorted<Event>, Fault>
    ensures value { IfOk result (λ some. some ≡ needs.needed kept.now rows.now) }
    ensures err { OnlyMemory result }
{
    if has_late(alloc, kept, rows)? {
        return beside(alloc, kept, rows);
    }
    Ok(Sorted::of(copy_all(alloc, from_last_before(kept, rows))?))
}
