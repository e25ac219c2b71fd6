//! The activations of all alarms, found in their events, and how many of them lie in each period of ten minutes.

ghost use Rattle.std.specs.List.{range_with_len};
ghost use Rattle.std.specs.Prelude.{◌≡◌, ◌≤◌, ◌<◌, ◌+◌, ◌-◌, ◌*◌, ◌/◌, ◌++◌, ◌∷◌, [], ℕ, List, IfOk, OnOk, count_by, if◌then◌else◌, length, map, nat_le, slice_index};
ghost use Rattle.plant_types.specs.{Options.{when}, Results.{OnlyMemory}};
ghost use Rattle.plant_alarm.specs.declared.event.Event.{Event as TheEvent};
ghost use Rattle.plant_floods.specs.Activations.{AreActive, activations_of_all, is_activation_of, is_in_period};
ghost use Rattle.plant_floods.specs.Activations as activations;

use plant_alarm::{Event, EventKind};
use plant_types::{Fault, List, Moment, Tag};
use std::alloc::Global;
use std::collections::BTreeSet;

/// Whether the event is an activation. Before the call `active` has the tags of the alarms that are active before the
/// event, and afterwards those of the alarms that are active after it.
fn is_activation(alloc: Global, active: &mut BTreeSet<Tag>, event: &Event) -> Result<bool, Fault>
    ensures value { (before : List TheEvent) → AreActive active.old before
        → IfOk result (λ b. b ≡ is_activation_of before event.now) }
    ensures active { (before : List TheEvent) → AreActive active.old before
        → OnOk result (AreActive active.new (before ++ event.now ∷ [])) }
    ensures err { OnlyMemory result }
{
    match event.kind {
        EventKind::Act => {
            if active.contains(&event.tag) {
                return Ok(false);
            }
            let tag = event.tag.copy(alloc)?;
            active.insert(tag)?;
            Ok(true)
        }
        EventKind::Rtn => {
            active.remove(&event.tag);
            Ok(false)
        }
        _ => Ok(false),
    }
}

/// The moments of the activations of all alarms. The events are ordered by number.
pub fn activations(alloc: Global, events: &[Event]) -> Result<List<Moment>, Fault>
    ensures value { IfOk result (λ moments. moments
        ≡ map (λ e. e.moment) (activations_of_all events.now)) }
    ensures err { OnlyMemory result }
{
    let mut active = BTreeSet::new(alloc);
    let mut moments = List::new(alloc);
    for event in events {
        if is_activation(alloc, &mut active, event)? {
            moments.push(event.moment)?;
        }
    }
    Ok(moments)
}

/// The number of the ten-minute period in which the moment lies, counted from 0. The first period begins at the second
/// `start`; `None` for an earlier moment.
fn period_of(start: u64, moment: Moment) -> Option<u64>
    ensures { result ≡ when (nat_le start moment) ((moment - start) / 600) }
{
    let after = moment.seconds().checked_sub(start)?;
    Some(after / 600)
}

/// Adds 1 to the count of the moment's period, if that is one of the counted periods.
fn count_in(counts: &mut Vec<u32>, start: u64, moment: Moment)
    ensures len { length counts.new.items ≡ length counts.old.items }
    ensures counted { (i : ℕ) → i < length counts.old.items
        → slice_index counts.old.items i < 4294967295
        → slice_index counts.new.items i ≡ slice_index counts.old.items i + (if is_in_period
        (start + 600 * i) moment then 1 else 0) }
{
    if let Some(period) = period_of(start, moment) {
        if period < counts.len() as u64 {
            counts[period as usize] = counts[period as usize].saturating_add(1);
        }
    }
}

/// How many of the moments lie in each of `periods` ten-minute periods, the first of which begins at the second
/// `start`.
fn counts_from(
    alloc: Global,
    moments: &[Moment],
    start: u64,
    periods: u64,
) -> Result<Vec<u32>, Fault>
    ensures value { length moments.now ≤ 4294967295 → IfOk result (λ counts. counts.items
        ≡ map (λ i. count_by (λ m. is_in_period (start + 600 * i) m) moments.now)
        (range_with_len 0 periods)) }
    ensures err { OnlyMemory result }
{
    let mut counts = vec![in alloc; 0u32; periods as usize]?;
    for moment in moments {
        count_in(&mut counts, start, *moment);
    }
    Ok(counts)
}

/// The number of activations in each whole ten-minute period of a range, oldest period first. The events are ordered by
/// number.
pub fn period_counts(
    alloc: Global,
    events: &[Event],
    begin: Moment,
    until: Moment,
) -> Result<Vec<u32>, Fault>
    ensures value { length events.now ≤ 4294967295
        → IfOk result (λ counts. counts.items ≡ activations.period_counts events.now begin until) }
    ensures err { OnlyMemory result }
{
    let moments = activations(alloc, events)?;
    let start = begin.seconds();
    let periods = until.seconds().saturating_sub(start) / 600;
    counts_from(alloc, moments.as_slice(), start, periods)
}
