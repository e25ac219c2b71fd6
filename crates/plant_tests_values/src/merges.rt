//! What a file adds to the kept events.

use crate::event_numbers::{many_kept, many_new};
use crate::fixtures::{event, moment, tag};
use plant_alarm::{Event, EventKind};
use plant_import::merge;
use plant_types::{Sorted, Tag};
use std::alloc::Global;
use std::process::Abort;

type Row = (u64, u64, EventKind);

/// Events of PT-101, their moments in seconds of 2026-03-01.
fn events(rt: &impl Abort, alloc: Global, rows: &[Row]) -> Vec<Event> {
    let mut events = Vec::new(alloc);
    for (seq, second, kind) in rows {
        let second = 825_638_400 + second % 86_400;
        let event = event(rt, alloc, *seq, second, b"PT-101", *kind);
        events.push(event).expect(rt, "memory");
    }
    events
}

/// LT-2 and PT-101.
fn two_tags(rt: &impl Abort, alloc: Global) -> Sorted<Tag> {
    let mut tags = Sorted::new(alloc);
    tags.put(tag(rt, alloc, b"LT-2")).expect(rt, "memory");
    tags.put(tag(rt, alloc, b"PT-101")).expect(rt, "memory");
    tags
}

/// Rows whose numbers are not in rising order.
const ROWS: [Row; 3] = [
    (2, 32700, EventKind::Rtn),
    (1, 32400, EventKind::Act),
    (3, 32760, EventKind::Ack),
];

#[test]
fn adds_new_rows_in_the_order_of_the_file(rt: HostRuntime) {
    let file = events(&rt, rt.alloc(), &ROWS);
    let tags = two_tags(&rt, rt.alloc());
    let now = moment(&rt, 825_672_600);
    let merged = merge(rt.alloc(), &Sorted::new(rt.alloc()), &file, &tags, now)
        .expect(&rt, "memory")
        .expect(&rt, "no fault");
    assert!(rt; merged.fresh.as_slice() == file.as_slice());
}

/// Two thousand tags, PT-101 among them.
fn many_tags(rt: &impl Abort, alloc: Global) -> Sorted<Tag> {
    let mut tags = two_tags(rt, alloc);
    for number in 1000..2998 {
        let name = format!(in alloc; "FT-{number}").expect(rt, "memory");
        let tag = tag(rt, alloc, name.as_bytes());
        tags.put(tag).expect(rt, "memory");
    }
    tags
}

/// Ten thousand rows in falling order between a hundred thousand kept events, with two thousand tags. A cost that grows
/// with the product of the two would take minutes.
#[test]
fn merges_many_rows(rt: HostRuntime) {
    let kept = many_kept(&rt, rt.alloc());
    let file = many_new(&rt, rt.alloc());
    let tags = many_tags(&rt, rt.alloc());
    let now = moment(&rt, 1_000_000);
    let merged = merge(rt.alloc(), &kept, &file, &tags, now)
        .expect(&rt, "memory")
        .expect(&rt, "no fault");
    assert!(rt; merged.fresh.len() == 10_000);
    assert!(rt; merged.repeated == 0);
}
