//! Values built from numbers and bytes. The test fails if a value is invalid or memory runs out.

use plant_alarm::{Event, EventKind, Number};
use plant_types::{List, Moment, Seconds, Sorted, Tag, Words};
use std::alloc::Global;
use std::process::Abort;

pub(crate) fn tag(rt: &impl Abort, alloc: Global, bytes: &[u8]) -> Tag {
    Tag::read(alloc, bytes)
        .expect(rt, "memory")
        .expect(rt, "a tag")
}

pub(crate) fn words(rt: &impl Abort, alloc: Global, bytes: &[u8]) -> Words {
    Words::read(alloc, bytes)
        .expect(rt, "memory")
        .expect(rt, "words")
}

pub(crate) fn moment(rt: &impl Abort, seconds: u64) -> Moment {
    Moment::of_seconds(seconds).expect(rt, "a moment")
}

pub(crate) fn seconds(rt: &impl Abort, seconds: u64) -> Seconds {
    Seconds::new(seconds).expect(rt, "a length of time")
}

/// An event of an alarm, this many seconds after the first moment.
pub(crate) fn event(
    rt: &impl Abort,
    alloc: Global,
    number: u64,
    second: u64,
    name: &[u8],
    kind: EventKind,
) -> Event {
    Event {
        seq: Number::new(number).expect(rt, "a number"),
        moment: moment(rt, second),
        tag: tag(rt, alloc, name),
        kind,
    }
}

/// The events, which must be in rising order of their numbers.
pub(crate) fn sorted(rt: &impl Abort, events: Vec<Event>) -> Sorted<Event> {
    Sorted::from_list(List::from_vec(events)).expect(rt, "events in rising number")
}
