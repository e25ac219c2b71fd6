//! Values built from numbers and bytes. The test fails if a value is invalid or memory runs out.

use plant_types::{Moment, Person, Tag, UnitCode, Words};
use std::alloc::Global;
use std::process::Abort;

pub(crate) fn unit(rt: &impl Abort, alloc: Global, bytes: &[u8]) -> UnitCode {
    UnitCode::read(alloc, bytes)
        .expect(rt, "memory")
        .expect(rt, "a unit")
}

pub(crate) fn tag(rt: &impl Abort, alloc: Global, bytes: &[u8]) -> Tag {
    Tag::read(alloc, bytes)
        .expect(rt, "memory")
        .expect(rt, "a tag")
}

pub(crate) fn person(rt: &impl Abort, alloc: Global, bytes: &[u8]) -> Person {
    Person::read(alloc, bytes)
        .expect(rt, "memory")
        .expect(rt, "a person")
}

pub(crate) fn words(rt: &impl Abort, alloc: Global, bytes: &[u8]) -> Words {
    Words::read(alloc, bytes)
        .expect(rt, "memory")
        .expect(rt, "words")
}

/// The moment of a text, as 2026-03-01T10:00:00Z.
pub(crate) fn moment(rt: &impl Abort, text: &[u8]) -> Moment {
    Moment::read(text).expect(rt, "a moment")
}

/// The bytes are as expected, or the test ends and shows them.
pub(crate) fn is_written(rt: &impl Abort, found: &[u8], wanted: &[u8]) {
    assert!(rt;
        found == wanted,
        "{}",
        str::from_utf8(found).unwrap_or("no text")
    );
}
