//! The text of a list with two shelves of one tag, which no unit has.

use crate::written::{is_written, moment, person, tag, unit, words};
use plant_model::ShelfLine;
use plant_report::shelf_text;
use std::alloc::Global;
use std::process::Abort;

/// A shelf of PT-101 by ann, for a pump test.
fn line(rt: &impl Abort, alloc: Global, one_shot: bool, start: &[u8], left: u64) -> ShelfLine {
    ShelfLine {
        tag: tag(rt, alloc, b"PT-101"),
        one_shot,
        start: moment(rt, start),
        left,
        person: person(rt, alloc, b"ann"),
        words: words(rt, alloc, b"pump test"),
    }
}

fn two_shelves(rt: &impl Abort, alloc: Global) -> Vec<ShelfLine> {
    let mut lines = Vec::new(alloc);
    let timed = line(rt, alloc, false, b"2026-03-01T10:00:00Z", 1);
    lines.push(timed).expect(rt, "memory");
    let one_shot = line(rt, alloc, true, b"2000-01-01T00:00:00Z", 604800);
    lines.push(one_shot).expect(rt, "memory");
    lines
}

#[test]
fn prints_two_shelves(rt: HostRuntime) {
    let lines = two_shelves(&rt, rt.alloc());
    let unit = unit(&rt, rt.alloc(), b"U1");
    let at = moment(&rt, b"2026-03-01T11:00:00Z");
    let text = shelf_text(rt.alloc(), &unit, at, &lines).expect(&rt, "memory");
    is_written(
        &rt,
        &text,
        b"SHELVES U1 AT 2026-03-01T11:00:00Z COUNT 2\n\
        PT-101                   timed    2026-03-01T10:00:00Z      1 ann                              pump test\n\
        PT-101                   one-shot 2000-01-01T00:00:00Z 604800 ann                              pump test\n",
    );
}
