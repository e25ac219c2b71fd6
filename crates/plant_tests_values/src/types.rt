//! Moments, tables, roles, and the printed forms of faults and names.

use crate::fixtures::tag;
use plant_types::{Fault, List, Moment, Role};
use std::alloc::Global;

const NO_MOMENTS: [&[u8]; 7] = [
    b"2026-02-29T00:00:00Z",
    b"2026-03-01T00:00:60Z",
    b"2100-01-01T00:00:00Z",
    b"1999-12-31T23:59:59Z",
    b"2026-03-01T24:00:00Z",
    b"2026-03-01 00:00:00Z",
    b"2026-03-01T00:00:00",
];

const MOMENTS: [(&[u8], u64); 4] = [
    (b"2000-01-01T00:00:00Z", 0),
    (b"2000-02-29T00:00:00Z", 5_097_600),
    (b"2026-03-01T10:59:59Z", 825_677_999),
    (b"2099-12-31T23:59:59Z", 3_155_759_999),
];

/// The text is read as this moment, and the moment is written as the text.
fn is_moment(text: &[u8], seconds: u64) -> bool {
    let Some(moment) = Moment::read(text) else {
        return false;
    };
    moment.seconds() == seconds
        && Moment::of_seconds(seconds) == Some(moment)
        && moment.write().as_slice() == text
}

#[test]
fn reads_and_writes_moments(rt: HostRuntime) {
    for text in NO_MOMENTS.iter() {
        assert!(rt; Moment::read(text).is_none(), "{text:?}");
    }
    for (text, seconds) in MOMENTS.iter() {
        assert!(rt; is_moment(text, *seconds), "{seconds}");
    }
    assert!(rt; Moment::of_seconds(3_155_760_000).is_none());
}

/// 10, 21, 30 and 40, put in out of order.
fn filled(alloc: Global) -> Result<List<u64>, Fault> {
    let mut table = List::new(alloc);
    table.push(20)?;
    table.push(30)?;
    table.insert_at(0, 10)?;
    table.insert_at(9, 40)?;
    table.replace_at(1, 21);
    Ok(table)
}

#[test]
fn keeps_tables(rt: HostRuntime) {
    assert!(rt; List::<u64>::new(rt.alloc()).is_empty());
    let mut table = filled(rt.alloc()).expect(&rt, "memory");
    assert!(rt; table.as_slice() == [10, 21, 30, 40].as_slice());
    assert!(rt; table.remove_at(2) == Some(30));
    assert!(rt; table.remove_at(3).is_none());
    assert!(rt; table.len() == 3);
    let rows = table.into_vec();
    assert!(rt; List::from_vec(rows).as_slice() == [10, 21, 40].as_slice());
}

const ROLES: [(Role, u8); 6] = [
    (Role::Viewer, 1),
    (Role::Operator, 2),
    (Role::Maintainer, 3),
    (Role::Engineer, 4),
    (Role::Approver, 5),
    (Role::Steward, 6),
];

#[test]
fn numbers_roles(rt: HostRuntime) {
    for (role, number) in ROLES.iter() {
        assert!(rt; role.number() == *number, "{number}");
        assert!(rt; role.is(*role), "{number}");
    }
    assert!(rt; !Role::Steward.is(Role::Approver));
}

#[test]
fn prints_faults_and_names(rt: HostRuntime) {
    let alloc = rt.alloc();
    let memory = format!(in alloc; "{}", Fault::Memory).expect(&rt, "memory");
    assert!(rt; memory.as_str() == "out of memory");
    let store = format!(in alloc; "{}", Fault::Store).expect(&rt, "memory");
    assert!(rt; store.as_str() == "the store failed");
    let name = format!(in alloc; "{:?}", tag(&rt, alloc, b"PT-101")).expect(&rt, "memory");
    assert!(rt; name.as_str() == "\"PT-101\"");
}
