//! Rows are kept by their keys, unit by unit, and a statement that fails changes none.

use crate::fixtures::{
    at, changes, counts, event, is_last, opened, person, push_alarm, push_band, push_grant,
    push_own, push_shelf, put, rows, tag, unit,
};
use plant_alarm::{Event, EventKind};
use plant_books::{Books, MineRow, MineUnit};
use plant_model::{RowEdit, UnitRows};
use plant_store::Tables;
use plant_types::{Fault, List, Moment, Role, UnitCode};
use sqlite::MemStore;
use std::alloc::Global;
use std::process::Abort;

/// Whether there is one shelf, until this moment.
fn is_shelved_until(rows: &UnitRows, until: u64) -> bool {
    let [shelf] = rows.shelves.as_slice() else {
        return false;
    };
    shelf.until_s == until
}

/// Whether these are the events of `changes`, by their numbers.
fn are_both_events(rt: &impl Abort, alloc: Global, events: &[Event]) -> bool {
    let [first, second] = events else {
        return false;
    };
    *first == event(rt, alloc, 7, 40, b"LT-2", EventKind::Act)
        && *second == event(rt, alloc, 12, 50, b"PT-101", EventKind::Rtn)
}

#[test]
fn keeps_the_rows_of_a_unit(rt: HostRuntime) {
    let alloc = rt.alloc();
    let mut books = opened(&rt, alloc);
    let rows = rows(&rt, alloc, &mut books);
    assert!(rt; counts(&rows) == [1, 3, 2, 1, 2, 2, 3, 2, 4]);
    assert!(rt; is_last(&rows, 80));
    assert!(rt; is_shelved_until(&rows, 3670));
    assert!(rt; are_both_events(&rt, alloc, rows.events.as_slice()));
    drop(rows);
}

/// Books with the same unit twice, as U1 and as U0.
fn opened_twice(rt: &impl Abort, alloc: Global) -> Tables<MemStore> {
    let mut books = opened(rt, alloc);
    put(rt, alloc, &mut books, b"U0", &changes(rt, alloc));
    books
}

/// The units in which `ann` holds a role.
fn held(rt: &impl Abort, alloc: Global, books: &mut Tables<MemStore>, now: u64) -> List<UnitCode> {
    books
        .held(&person(rt, alloc, b"ann"), at(rt, now))
        .expect(rt, "units")
}

/// The units of `ann`.
fn mine(rt: &impl Abort, alloc: Global, books: &mut Tables<MemStore>, now: u64) -> List<MineUnit> {
    books
        .mine_units(&person(rt, alloc, b"ann"), at(rt, now))
        .expect(rt, "units")
}

#[test]
fn finds_what_a_person_holds(rt: HostRuntime) {
    let alloc = rt.alloc();
    let mut books = opened_twice(&rt, alloc);
    assert!(rt; held(&rt, alloc, &mut books, 100).len() == 2);
    let units = mine(&rt, alloc, &mut books, 99);
    let [first, _] = units.as_slice() else {
        rt.panic("two units")
    };
    assert!(rt; first.roles.as_slice() == [Role::Viewer, Role::Operator].as_slice());
    assert!(rt; first.last.seconds() == 80);
    let units = mine(&rt, alloc, &mut books, 100);
    let [first, _] = units.as_slice() else {
        rt.panic("two units")
    };
    assert!(rt; first.roles.as_slice() == [Role::Viewer].as_slice());
}

/// A unit with one shelf, and a grant to ann until this end.
fn shelved_unit(rt: &impl Abort, alloc: Global, end_s: Option<Moment>) -> List<RowEdit> {
    let mut list = List::new(alloc);
    push_own(rt, &mut list, 80);
    push_grant(rt, alloc, &mut list, b"ann", Role::Operator, end_s);
    push_shelf(rt, alloc, &mut list, b"PT-101");
    list
}

/// A second shelf.
fn second_shelf(rt: &impl Abort, alloc: Global) -> List<RowEdit> {
    let mut list = List::new(alloc);
    push_shelf(rt, alloc, &mut list, b"LT-2");
    list
}

/// Books in which ann has two roles in one unit, one in a second, and one that has ended in a third.
fn shelved(rt: &impl Abort, alloc: Global) -> Tables<MemStore> {
    let mut books = opened(rt, alloc);
    put(rt, alloc, &mut books, b"U1", &second_shelf(rt, alloc));
    put(rt, alloc, &mut books, b"U0", &shelved_unit(rt, alloc, None));
    let ended = Some(at(rt, 90));
    put(
        rt,
        alloc,
        &mut books,
        b"U2",
        &shelved_unit(rt, alloc, ended),
    );
    books
}

/// The shelves of a person's units.
fn shelves_of(
    rt: &impl Abort,
    alloc: Global,
    books: &mut Tables<MemStore>,
    name: &[u8],
) -> List<MineRow> {
    books
        .mine_shelves(&person(rt, alloc, name), at(rt, 95))
        .expect(rt, "shelves")
}

fn seconds_of(moment: Option<Moment>) -> Option<u64> {
    match moment {
        Some(moment) => Some(moment.seconds()),
        None => None,
    }
}

/// Whether it is the shelf of this unit and tag, with this return of its alarm.
fn is_shelf_of(
    rt: &impl Abort,
    alloc: Global,
    mine: &MineRow,
    code: &[u8],
    name: &[u8],
    returned: Option<u64>,
) -> bool {
    mine.unit == unit(rt, alloc, code)
        && mine.shelf.tag == tag(rt, alloc, name)
        && mine.shelf.until_s == 3670
        && seconds_of(mine.last_return) == returned
}

#[test]
fn lists_the_shelves_of_a_persons_units_once(rt: HostRuntime) {
    let alloc = rt.alloc();
    let mut books = shelved(&rt, alloc);
    let shelves = shelves_of(&rt, alloc, &mut books, b"ann");
    let [first, second, third] = shelves.as_slice() else {
        rt.panic("three shelves")
    };
    assert!(rt; is_shelf_of(&rt, alloc, first, b"U0", b"PT-101", None));
    assert!(rt; is_shelf_of(&rt, alloc, second, b"U1", b"LT-2", Some(50)));
    assert!(rt; is_shelf_of(&rt, alloc, third, b"U1", b"PT-101", Some(50)));
    assert!(rt; shelves_of(&rt, alloc, &mut books, b"bob").is_empty());
}

/// A later moment, and a limit that no column can hold.
fn too_wide(rt: &impl Abort, alloc: Global) -> List<RowEdit> {
    let mut list = List::new(alloc);
    push_own(rt, &mut list, 95);
    push_band(rt, &mut list, 0, 2, u64::MAX);
    list
}

#[test]
fn changes_nothing_where_a_value_is_too_wide(rt: HostRuntime) {
    let alloc = rt.alloc();
    let mut books = opened(&rt, alloc);
    let unit = unit(&rt, alloc, b"U1");
    books.set_steps(Some(0));
    assert!(rt; matches!(books.taken(&unit).err(), Some(Fault::Store)));
    books.set_steps(None);
    let wide = too_wide(&rt, alloc);
    assert!(rt; matches!(books.apply(&unit, &wide, None).err(), Some(Fault::Store)));
    let rows = rows(&rt, alloc, &mut books);
    assert!(rt; is_last(&rows, 80));
    drop(rows);
}

/// A later moment, and an alarm that is there already.
fn kept_alarm(rt: &impl Abort, alloc: Global) -> List<RowEdit> {
    let mut list = List::new(alloc);
    push_own(rt, &mut list, 95);
    push_alarm(rt, alloc, &mut list, b"PT-101");
    list
}

#[test]
fn puts_over_rows_that_were_seen(rt: HostRuntime) {
    let alloc = rt.alloc();
    let mut books = opened(&rt, alloc);
    let unit = unit(&rt, alloc, b"U1");
    let seen = rows(&rt, alloc, &mut books);
    books
        .apply(&unit, &kept_alarm(&rt, alloc), Some(&seen))
        .expect(&rt, "changes");
    drop(seen);
    let rows = rows(&rt, alloc, &mut books);
    assert!(rt; is_last(&rows, 95));
    assert!(rt; counts(&rows) == [1, 3, 2, 1, 2, 2, 3, 2, 4]);
    drop(rows);
}

#[test]
fn changes_nothing_over_a_row_that_was_not_seen(rt: HostRuntime) {
    let alloc = rt.alloc();
    let mut books = opened(&rt, alloc);
    let unit = unit(&rt, alloc, b"U1");
    let none = UnitRows::none(alloc);
    let list = kept_alarm(&rt, alloc);
    assert!(rt;
        matches!(
            books.apply(&unit, &list, Some(&none)).err(),
            Some(Fault::Store)
        )
    );
    drop(none);
    let rows = rows(&rt, alloc, &mut books);
    assert!(rt; is_last(&rows, 80));
    assert!(rt; counts(&rows) == [1, 3, 2, 1, 2, 2, 3, 2, 4]);
    drop(rows);
}
