//! The part of the books that a call is given.

use crate::fixtures::{call, counts, opened, push_shelf, put, tag, unit, words};
use plant_books::Books;
use plant_model::{BandRow, ChangeEntry, ChangeTopic, Request, UnitPart};
use plant_store::Tables;
use plant_types::{List, Seconds};
use sqlite::MemStore;
use std::alloc::Global;
use std::process::Abort;

/// The part of these books that a call of this kind is given. The call is dropped explicitly: at the end of a scope the
/// prover goes through every kind of request.
fn part_of(
    rt: &impl Abort,
    alloc: Global,
    books: &mut Tables<MemStore>,
    request: Request,
) -> UnitPart {
    let call = call(rt, alloc, request);
    let part = books.part(&call).expect(rt, "a part");
    drop(call);
    part.expect(rt, "the unit was opened")
}

/// The part for a call of `ann`.
fn part(rt: &impl Abort, alloc: Global, request: Request) -> UnitPart {
    part_of(rt, alloc, &mut opened(rt, alloc), request)
}

/// The part for a shelving of LT-2 by `ann`.
fn shelving_part(rt: &impl Abort, alloc: Global, books: &mut Tables<MemStore>) -> UnitPart {
    let request = Request::OneShotShelve {
        unit: unit(rt, alloc, b"U1"),
        tag: tag(rt, alloc, b"LT-2"),
        words: words(rt, alloc, b"noise"),
    };
    part_of(rt, alloc, books, request)
}

#[test]
fn gives_a_shelving_its_own_shelf_or_all(rt: HostRuntime) {
    let alloc = rt.alloc();
    let mut books = opened(&rt, alloc);
    let own = shelving_part(&rt, alloc, &mut books);
    assert!(rt; counts(&own.rows) == [1, 2, 1, 0, 0, 0, 0, 0, 0]);
    drop(own);
    let mut list = List::new(alloc);
    push_shelf(&rt, alloc, &mut list, b"LT-2");
    put(&rt, alloc, &mut books, b"U1", &list);
    let all = shelving_part(&rt, alloc, &mut books);
    assert!(rt; counts(&all.rows) == [1, 2, 2, 2, 0, 0, 0, 0, 0]);
    drop(all);
}

/// Whether these are the bands of the matrix in force, and of the matrix that is asked for.
fn are_both_bands(bands: &[BandRow]) -> bool {
    let [in_force, wanted] = bands else {
        return false;
    };
    in_force.matrix_no == 0 && wanted.matrix_no == 2
}

/// Whether these are the changes 1 to 3, with what the second and the third propose.
fn are_three_changes(changes: &[ChangeEntry]) -> bool {
    let [first, second, third] = changes else {
        return false;
    };
    first.number == 1
        && second.number == 2
        && third.number == 3
        && third.severity == Some(2)
        && third.response_s == Seconds::new(300)
        && second.tag.is_none()
        && second.kind_no == ChangeTopic::Matrix
}

#[test]
fn gives_an_approval_of_a_matrix_both_matrices_and_the_changes_of_records(rt: HostRuntime) {
    let unit = unit(&rt, rt.alloc(), b"U1");
    let part = part(&rt, rt.alloc(), Request::Approve { unit, number: 2 });
    assert!(rt; counts(&part.rows) == [1, 2, 0, 0, 0, 2, 3, 2, 3]);
    assert!(rt; are_three_changes(part.rows.changes.as_slice()));
    assert!(rt; are_both_bands(part.rows.bands.as_slice()));
    drop(part);
}

#[test]
fn gives_an_approval_of_a_record_and_of_a_limit_their_alarm(rt: HostRuntime) {
    let record = Request::Approve {
        unit: unit(&rt, rt.alloc(), b"U1"),
        number: 3,
    };
    let part_of_record = part(&rt, rt.alloc(), record);
    assert!(rt; counts(&part_of_record.rows) == [1, 2, 1, 0, 0, 1, 2, 1, 1]);
    assert!(rt; is_change(part_of_record.rows.changes.as_slice(), 3));
    drop(part_of_record);
    let limit = Request::Approve {
        unit: unit(&rt, rt.alloc(), b"U1"),
        number: 4,
    };
    let part_of_limit = part(&rt, rt.alloc(), limit);
    assert!(rt; counts(&part_of_limit.rows) == [1, 2, 1, 0, 0, 1, 2, 1, 1]);
    assert!(rt; is_change(part_of_limit.rows.changes.as_slice(), 4));
    drop(part_of_limit);
}

/// Whether there is one change, of this number.
fn is_change(changes: &[ChangeEntry], number: u32) -> bool {
    let [change] = changes else {
        return false;
    };
    change.number == number
}

#[test]
fn gives_a_record_its_change_alone(rt: HostRuntime) {
    let unit = unit(&rt, rt.alloc(), b"U1");
    let tag = tag(&rt, rt.alloc(), b"PT-101");
    let part = part(&rt, rt.alloc(), Request::RecordOf { unit, tag });
    assert!(rt; counts(&part.rows) == [1, 2, 1, 0, 0, 0, 0, 1, 1]);
    assert!(rt; is_change(part.rows.changes.as_slice(), 3));
    assert!(rt; part.count == 0);
    drop(part);
}

#[test]
fn gives_a_change_with_its_matrix(rt: HostRuntime) {
    let unit = unit(&rt, rt.alloc(), b"U1");
    let part = part(&rt, rt.alloc(), Request::ChangeOf { unit, number: 2 });
    assert!(rt; counts(&part.rows) == [1, 2, 0, 0, 0, 1, 1, 0, 1]);
    drop(part);
}
