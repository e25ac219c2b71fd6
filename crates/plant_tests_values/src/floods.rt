//! Floods of alarms, and how the activations of a period are counted.

use crate::fixtures::{event, moment};
use plant_alarm::{Event, EventKind};
use plant_floods::{floods, period_counts};
use std::alloc::Global;
use std::process::Abort;

#[test]
fn finds_none_in_no_periods(rt: HostRuntime) {
    let runs = floods(rt.alloc(), &[]).expect(&rt, "memory");
    assert!(rt; runs.is_empty());
}

/// Events of two alarms, each with its number and its seconds after 2000-01-01.
const EVENTS: [(u64, &[u8], u64, EventKind); 7] = [
    (1, b"PT-101", 600, EventKind::Act),
    (2, b"PT-101", 700, EventKind::Act),
    (3, b"LT-2", 1199, EventKind::Act),
    (4, b"PT-101", 1200, EventKind::Rtn),
    (5, b"PT-101", 1200, EventKind::Act),
    (6, b"LT-2", 1300, EventKind::Ack),
    (7, b"LT-2", 1800, EventKind::Act),
];

/// An alarm that annunciates again while it is active is not activated again; after a return it is. Each alarm is
/// counted separately.
#[test]
fn counts_activations_by_periods(rt: HostRuntime) {
    let alloc = rt.alloc();
    let mut events = Vec::new(alloc);
    for (number, name, second, kind) in EVENTS.iter() {
        let event = event(&rt, alloc, *number, *second, name, *kind);
        events.push(event).expect(&rt, "memory");
    }
    let begin = moment(&rt, 0);
    let until = moment(&rt, 2400);
    let counts = period_counts(alloc, &events, begin, until).expect(&rt, "memory");
    assert!(rt; counts.as_slice() == [0, 2, 1, 0].as_slice());
    let none = period_counts(alloc, &events, until, begin).expect(&rt, "memory");
    assert!(rt; none.is_empty());
}

/// How many events the unit of a large range keeps.
const MANY: u64 = 100_000;

/// The alarm of the i-th of many events, and whether it is an ACT or an RTN, in one of three mixes.
fn nth(mix: u8, i: u64) -> (u64, EventKind) {
    let (alarm, comes) = match mix {
        // one alarm annunciates again and again, and then another comes and goes
        0 => (u64::from(i >= MANY / 2), i < MANY / 2 || i % 2 == 0),
        // 2,000 alarms annunciate again and again
        1 => (i % 2000, true),
        // 2,000 alarms come one after another, and go one after another
        _ => (i % 2000, i / 2000 % 2 == 0),
    };
    (
        alarm,
        if comes {
            EventKind::Act
        } else {
            EventKind::Rtn
        },
    )
}

fn digit(number: u64) -> u8 {
    b'0' + (number % 10) as u8
}

fn many(rt: &impl Abort, alloc: Global, mix: u8) -> Vec<Event> {
    let mut events = Vec::new(alloc);
    for i in 0..MANY {
        let (alarm, kind) = nth(mix, i);
        let name = [
            digit(alarm / 1000),
            digit(alarm / 100),
            digit(alarm / 10),
            digit(alarm),
        ];
        let event = event(rt, alloc, i + 1, i, &name, kind);
        events.push(event).expect(rt, "memory");
    }
    events
}

/// A week of periods over as many events as a unit keeps, one event a second.
#[test]
fn counts_a_week_of_events(rt: HostRuntime) {
    let alloc = rt.alloc();
    let begin = moment(&rt, 0);
    let until = moment(&rt, 604_800);
    for (mix, activations) in [(0, 25_001), (1, 2_000), (2, 50_000)] {
        let events = many(&rt, alloc, mix);
        let counts = period_counts(alloc, &events, begin, until).expect(&rt, "memory");
        let sum = counts
            .iter()
            .fold(0u32, |sum, count| sum.wrapping_add(*count));
        assert!(rt; sum == activations, "mix {mix}");
        assert!(rt; counts.len() == 1008);
    }
}
