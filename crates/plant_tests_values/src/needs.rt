//! Which of the kept events are needed to check a file.

use crate::fixtures::{event, sorted};
use plant_alarm::{Event, EventKind};
use plant_import::needed;
use std::alloc::Global;
use std::process::Abort;

/// Events with these numbers, in turn, each of its alarm.
fn events(rt: &impl Abort, alloc: Global, rows: &[(u64, &[u8])]) -> Vec<Event> {
    let mut events = Vec::new(alloc);
    for (number, tag) in rows {
        let event = event(rt, alloc, *number, 825_638_400, tag, EventKind::Act);
        events.push(event).expect(rt, "memory");
    }
    events
}

const KEPT: [(u64, &[u8]); 4] = [
    (10, b"PT-101"),
    (20, b"LT-2"),
    (30, b"PT-101"),
    (40, b"LT-2"),
];

/// How many of the kept events a file of these rows needs.
fn count(rt: &(impl Abort + AllocGlobal), rows: &[(u64, &[u8])]) -> usize {
    let kept = sorted(rt, events(rt, rt.alloc(), &KEPT));
    let rows = events(rt, rt.alloc(), rows);
    needed(rt.alloc(), &kept, &rows).expect(rt, "memory").len()
}

#[test]
fn needs_the_last_event_before_a_file(rt: HostRuntime) {
    assert_eq!(rt; count(&rt, &[(41, b"PT-101")]), 1);
    assert_eq!(rt; count(&rt, &[(50, b"LT-2"), (51, b"PT-101")]), 1);
    assert_eq!(rt; count(&rt, &[]), 1);
}

#[test]
fn needs_what_comes_after_a_row_of_another_alarm(rt: HostRuntime) {
    assert_eq!(rt; count(&rt, &[(35, b"PT-101")]), 2);
    assert_eq!(rt; count(&rt, &[(50, b"LT-2"), (32, b"PT-101")]), 2);
    assert_eq!(rt; count(&rt, &[(5, b"FT-7")]), 4);
}

#[test]
fn needs_no_more_for_repeated_rows(rt: HostRuntime) {
    assert_eq!(rt; count(&rt, &[(40, b"LT-2")]), 2);
    assert_eq!(rt;
        count(&rt, &[(30, b"PT-101"), (40, b"LT-2"), (41, b"LT-2")]),
        3
    );
}

#[test]
fn needs_the_events_of_its_alarms_for_a_late_row(rt: HostRuntime) {
    assert_eq!(rt; count(&rt, &[(35, b"LT-2")]), 3);
    assert_eq!(rt; count(&rt, &[(41, b"PT-101"), (29, b"PT-101")]), 4);
    assert_eq!(rt; count(&rt, &[(15, b"PT-101")]), 3);
}
