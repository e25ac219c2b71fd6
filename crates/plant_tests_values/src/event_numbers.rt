//! The order of events by their numbers, and what putting them in order costs.

use crate::fixtures::{event, sorted};
use plant_alarm::{Event, EventKind};
use plant_import::{count_new, events_after};
use plant_types::Sorted;
use std::alloc::Global;
use std::process::Abort;

/// The event with this number: PT-101 becomes active, this many seconds after the first moment.
pub(crate) fn active(rt: &impl Abort, alloc: Global, number: u64) -> Event {
    event(rt, alloc, number, number, b"PT-101", EventKind::Act)
}

fn events(rt: &impl Abort, alloc: Global, numbers: &[u64]) -> Vec<Event> {
    let mut events = Vec::new(alloc);
    for number in numbers {
        events.push(active(rt, alloc, *number)).expect(rt, "memory");
    }
    events
}

fn have_numbers(events: &[Event], numbers: &[u64]) -> bool {
    if events.len() != numbers.len() {
        return false;
    }
    for (event, number) in events.iter().zip(numbers) {
        if event.seq.get() != *number {
            return false;
        }
    }
    true
}

#[test]
fn puts_events_in_rising_number(rt: HostRuntime) {
    let kept = sorted(&rt, events(&rt, rt.alloc(), &[2, 4, 6]));
    let more = events(&rt, rt.alloc(), &[7, 5, 1, 3, 9]);
    let all = events_after(rt.alloc(), &kept, &more).expect(&rt, "memory");
    assert!(rt; have_numbers(all.as_slice(), &[1, 2, 3, 4, 5, 6, 7, 9]));
}

/// A hundred thousand events with even numbers.
pub(crate) fn many_kept(rt: &impl Abort, alloc: Global) -> Sorted<Event> {
    let mut kept = Vec::new(alloc);
    for i in 1..=100_000 {
        kept.push(active(rt, alloc, 2 * i)).expect(rt, "memory");
    }
    sorted(rt, kept)
}

/// Ten thousand events with odd numbers that fall.
pub(crate) fn many_new(rt: &impl Abort, alloc: Global) -> Vec<Event> {
    let mut file = Vec::new(alloc);
    for i in 0..10_000 {
        let number = 200_001u64.saturating_sub(20 * i);
        file.push(active(rt, alloc, number)).expect(rt, "memory");
    }
    file
}

/// Ten thousand rows in falling order between a hundred thousand kept events. A cost that grows with the product of the
/// two would take minutes.
#[test]
fn puts_many_events(rt: HostRuntime) {
    let kept = many_kept(&rt, rt.alloc());
    let file = many_new(&rt, rt.alloc());
    assert!(rt; count_new(rt.alloc(), &kept, &file).expect(&rt, "memory") == 10_000);
    let all = events_after(rt.alloc(), &kept, &file).expect(&rt, "memory");
    assert!(rt; all.len() == 110_000);
}
