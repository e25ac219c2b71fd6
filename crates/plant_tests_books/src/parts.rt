//! What a call looks at.

use crate::fixtures::{
    at, code, later, opened, opening, person, plain, put, rationale, small_quota, tag, words,
};
use plant_books::{Books, Plain};
use plant_model::{Call, Request, UnitPart};
use plant_ration::{ChangeKind, Proposal};
use plant_types::{Fault, Role, Seconds};
use std::alloc::Global;
use std::process::Abort;

/// Books with U1 and U2, where U1 was changed.
fn changed(rt: &impl Abort, alloc: Global) -> Plain {
    let mut books = opened(rt, alloc);
    let later = later(rt, alloc).expect(rt, "memory");
    put(rt, alloc, &mut books, b"U1", &later);
    books
}

/// What a call at 200 looks at, if its unit was opened.
fn part(
    rt: &impl Abort,
    alloc: Global,
    books: &mut Plain,
    name: &[u8],
    request: Result<Request, Fault>,
) -> Option<UnitPart> {
    let call = Call {
        person: person(rt, alloc, name).expect(rt, "memory"),
        moment: at(rt, 200),
        request: request.expect(rt, "memory"),
    };
    let part = books.part(&call).expect(rt, "memory");
    drop(call);
    part
}

/// How many grants, alarms and shelves the part has, and the number of alarms in it.
fn sizes(part: Option<UnitPart>) -> Option<[usize; 4]> {
    let sizes = match &part {
        None => None,
        Some(part) => Some([
            part.rows.grants.len(),
            part.rows.alarms.len(),
            part.rows.shelves.len(),
            part.count as usize,
        ]),
    };
    drop(part);
    sizes
}

fn status(rt: &impl Abort, alloc: Global) -> Result<Request, Fault> {
    let unit = code(rt, alloc, b"U1")?;
    let tag = tag(rt, alloc, b"PT-101")?;
    Ok(Request::Status { unit, tag })
}

fn register(rt: &impl Abort, alloc: Global) -> Result<Request, Fault> {
    let unit = code(rt, alloc, b"U1")?;
    let tag = tag(rt, alloc, b"FT-7")?;
    Ok(Request::Register {
        unit,
        tag,
        latching: false,
        max: Seconds::new(60).expect(rt, "a length of time"),
    })
}

fn shelving(rt: &impl Abort, alloc: Global) -> Result<Request, Fault> {
    let unit = code(rt, alloc, b"U1")?;
    let tag = tag(rt, alloc, b"PT-101")?;
    let words = words(rt, alloc, b"pump test")?;
    Ok(Request::OneShotShelve { unit, tag, words })
}

fn withdrawal(rt: &impl Abort, alloc: Global) -> Result<Request, Fault> {
    let unit = code(rt, alloc, b"U2")?;
    let person = person(rt, alloc, b"ann")?;
    let role = Role::Operator;
    Ok(Request::Withdraw { unit, person, role })
}

fn elsewhere(rt: &impl Abort, alloc: Global) -> Result<Request, Fault> {
    let unit = code(rt, alloc, b"U9")?;
    Ok(Request::Shelves { unit })
}

#[test]
fn gives_the_part_that_a_call_looks_at(rt: HostRuntime) {
    let alloc = rt.alloc();
    let mut books = changed(&rt, alloc);
    let one = sizes(part(&rt, alloc, &mut books, b"ste", status(&rt, alloc)));
    assert!(rt; one == Some([1, 1, 1, 0]));
    let number = sizes(part(&rt, alloc, &mut books, b"ste", register(&rt, alloc)));
    assert!(rt; number == Some([1, 0, 0, 2]));
    let own = sizes(part(&rt, alloc, &mut books, b"ste", shelving(&rt, alloc)));
    assert!(rt; own == Some([1, 1, 1, 0]));
}

#[test]
fn gives_a_stranger_nothing(rt: HostRuntime) {
    let alloc = rt.alloc();
    let mut books = changed(&rt, alloc);
    let number = sizes(part(&rt, alloc, &mut books, b"ann", register(&rt, alloc)));
    assert!(rt; number == Some([0, 0, 0, 0]));
    let own = sizes(part(&rt, alloc, &mut books, b"bob", shelving(&rt, alloc)));
    assert!(rt; own == Some([0, 0, 0, 0]));
    let grants = sizes(part(&rt, alloc, &mut books, b"bob", withdrawal(&rt, alloc)));
    assert!(rt; grants == Some([0, 0, 0, 0]));
}

#[test]
fn gives_all_shelves_where_the_quota_may_be_used_up(rt: HostRuntime) {
    let alloc = rt.alloc();
    let mut books = changed(&rt, alloc);
    let quota = small_quota(&rt, alloc).expect(&rt, "memory");
    put(&rt, alloc, &mut books, b"U1", &quota);
    let all = sizes(part(&rt, alloc, &mut books, b"ste", shelving(&rt, alloc)));
    assert!(rt; all == Some([1, 2, 2, 0]));
}

#[test]
fn gives_all_grants_to_a_withdrawal(rt: HostRuntime) {
    let alloc = rt.alloc();
    let mut books = changed(&rt, alloc);
    let grants = sizes(part(&rt, alloc, &mut books, b"ste", withdrawal(&rt, alloc)));
    assert!(rt; grants == Some([2, 0, 0, 0]));
    let none = sizes(part(&rt, alloc, &mut books, b"bob", elsewhere(&rt, alloc)));
    assert!(rt; none.is_none());
}

/// Books with U1, which has changes and records too.
fn rationalised(rt: &impl Abort, alloc: Global) -> Plain {
    let mut books = plain(rt, alloc).expect(rt, "memory");
    let opening = opening(rt, alloc).expect(rt, "memory");
    put(rt, alloc, &mut books, b"U1", &opening);
    let rationale = rationale(rt, alloc).expect(rt, "memory");
    put(rt, alloc, &mut books, b"U1", &rationale);
    books
}

/// How many alarms, bands, records and changes the part has, and the number of changes in it.
fn records_in(part: Option<UnitPart>) -> Option<[usize; 5]> {
    let sizes = match &part {
        None => None,
        Some(part) => Some([
            part.rows.alarms.len(),
            part.rows.bands.len(),
            part.rows.records.len(),
            part.rows.changes.len(),
            part.count as usize,
        ]),
    };
    drop(part);
    sizes
}

fn change_asked(rt: &impl Abort, alloc: Global) -> Result<Request, Fault> {
    let unit = code(rt, alloc, b"U1")?;
    Ok(Request::ChangeOf { unit, number: 3 })
}

fn approval(rt: &impl Abort, alloc: Global) -> Result<Request, Fault> {
    let unit = code(rt, alloc, b"U1")?;
    Ok(Request::Approve { unit, number: 3 })
}

fn record_asked(rt: &impl Abort, alloc: Global) -> Result<Request, Fault> {
    let unit = code(rt, alloc, b"U1")?;
    let tag = tag(rt, alloc, b"LT-2")?;
    Ok(Request::RecordOf { unit, tag })
}

fn proposing(rt: &impl Abort, alloc: Global) -> Result<Request, Fault> {
    let unit = code(rt, alloc, b"U1")?;
    let tag = tag(rt, alloc, b"LT-2")?;
    let max = Seconds::new(60).expect(rt, "a length of time");
    let kind = ChangeKind::Limit(tag, max);
    Ok(Request::Propose {
        unit,
        proposal: Proposal { kind, base: 0 },
    })
}

#[test]
fn gives_changes_with_what_they_are_of(rt: HostRuntime) {
    let alloc = rt.alloc();
    let mut books = rationalised(&rt, alloc);
    let one = records_in(part(&rt, alloc, &mut books, b"ann", change_asked(&rt, alloc)));
    assert!(rt; one == Some([0, 1, 0, 1, 0]));
    let all = records_in(part(&rt, alloc, &mut books, b"ann", approval(&rt, alloc)));
    assert!(rt; all == Some([0, 2, 2, 3, 0]));
}

#[test]
fn gives_a_record_with_its_change(rt: HostRuntime) {
    let alloc = rt.alloc();
    let mut books = rationalised(&rt, alloc);
    let one = records_in(part(&rt, alloc, &mut books, b"ann", record_asked(&rt, alloc)));
    assert!(rt; one == Some([1, 0, 1, 1, 0]));
    let number = records_in(part(&rt, alloc, &mut books, b"ann", proposing(&rt, alloc)));
    assert!(rt; number == Some([1, 1, 1, 0, 4]));
}
