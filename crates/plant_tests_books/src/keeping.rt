//! Rows are kept by their keys, unit by unit.

use crate::fixtures::{
    at, code, later, opened, opening, person, plain, push_grant, push_own, put, rationale, rows_in,
    tag,
};
use plant_books::{Books, MineUnit, Plain};
use plant_model::{AlarmRow, CellRow, ChangeEntry, Key, RecordEntry, RowEdit};
use plant_ration::Cell;
use plant_types::{Fault, List, Role, TryCopy, UnitCode};
use std::alloc::Global;
use std::process::Abort;

fn is_taken(rt: &impl Abort, books: &mut Plain, unit: &UnitCode) -> bool {
    books.taken(unit).expect(rt, "memory")
}

fn has_rows(rt: &impl Abort, books: &mut Plain, unit: &UnitCode) -> bool {
    books.rows(unit).expect(rt, "memory").is_some()
}

#[test]
fn opens_units(rt: HostRuntime) {
    let alloc = rt.alloc();
    let mut books = plain(&rt, alloc).expect(&rt, "memory");
    assert!(rt; books.administrator().as_bytes() == b"root".as_slice());
    let unit = code(&rt, alloc, b"U1").expect(&rt, "memory");
    assert!(rt; !is_taken(&rt, &mut books, &unit));
    assert!(rt; !has_rows(&rt, &mut books, &unit));
    let changes = opening(&rt, alloc).expect(&rt, "memory");
    put(&rt, alloc, &mut books, b"U2", &changes);
    put(&rt, alloc, &mut books, b"U1", &changes);
    assert!(rt; is_taken(&rt, &mut books, &unit));
}

fn have_cells(rows: &[CellRow], cells: &[Cell]) -> bool {
    if rows.len() != cells.len() {
        return false;
    }
    for (row, cell) in rows.iter().zip(cells) {
        if row.cell_no != *cell {
            return false;
        }
    }
    true
}

fn have_limits(rows: &[AlarmRow], limits: &[u64]) -> bool {
    if rows.len() != limits.len() {
        return false;
    }
    for (row, limit) in rows.iter().zip(limits) {
        if row.max_s.get() != *limit {
            return false;
        }
    }
    true
}

#[test]
fn keeps_rows_by_their_keys(rt: HostRuntime) {
    let mut books = opened(&rt, rt.alloc());
    let rows = rows_in(&rt, rt.alloc(), &mut books, b"U1");
    assert!(rt; rows.units.len() == 1);
    assert!(rt; rows.bands.len() == 1);
    assert!(rt; rows.grants.len() == 2);
    assert!(rt; have_cells(rows.cells.as_slice(), &[Cell::P3, Cell::P4, Cell::P2]));
    assert!(rt; have_limits(rows.alarms.as_slice(), &[86400, 3600]));
    drop(rows);
}

/// How many grants and shelves a unit has.
fn grants_and_shelves(
    rt: &impl Abort,
    alloc: Global,
    books: &mut Plain,
    unit: &[u8],
) -> (usize, usize) {
    let rows = rows_in(rt, alloc, books, unit);
    let counts = (rows.grants.len(), rows.shelves.len());
    drop(rows);
    counts
}

#[test]
fn changes_the_rows_of_one_unit(rt: HostRuntime) {
    let alloc = rt.alloc();
    let mut books = opened(&rt, alloc);
    let later = later(&rt, alloc).expect(&rt, "memory");
    put(&rt, alloc, &mut books, b"U1", &later);
    assert!(rt; grants_and_shelves(&rt, alloc, &mut books, b"U1") == (1, 2));
    let rows = rows_in(&rt, alloc, &mut books, b"U1");
    assert!(rt; have_limits(rows.alarms.as_slice(), &[60, 3600]));
    drop(rows);
    assert!(rt; grants_and_shelves(&rt, alloc, &mut books, b"U2") == (2, 0));
}

/// The shelf of LT-2 is removed.
fn removal(rt: &impl Abort, alloc: Global) -> Result<List<RowEdit>, Fault> {
    let key = Key::Shelf(tag(rt, alloc, b"LT-2")?);
    let mut changes = List::new(alloc);
    changes.push(RowEdit::Remove(key))?;
    Ok(changes)
}

fn copy(rt: &impl Abort, alloc: Global, changes: &List<RowEdit>) -> List<RowEdit> {
    changes.copy(alloc).expect(rt, "memory")
}

#[test]
fn removes_a_shelf(rt: HostRuntime) {
    let alloc = rt.alloc();
    let mut books = plain(&rt, alloc).expect(&rt, "memory");
    let later = later(&rt, alloc).expect(&rt, "memory");
    put(&rt, alloc, &mut books, b"U1", &copy(&rt, alloc, &later));
    let removal = removal(&rt, alloc).expect(&rt, "memory");
    put(&rt, alloc, &mut books, b"U1", &copy(&rt, alloc, &removal));
    let (_, shelves) = grants_and_shelves(&rt, alloc, &mut books, b"U1");
    assert!(rt; shelves == 1);
}

/// The units in which `ann` holds a role.
fn held_by_ann(rt: &impl Abort, alloc: Global, now: u64) -> List<UnitCode> {
    let mut books = opened(rt, alloc);
    let ann = person(rt, alloc, b"ann").expect(rt, "memory");
    books.held(&ann, at(rt, now)).expect(rt, "memory")
}

#[test]
fn tells_in_which_units_a_person_holds_a_role(rt: HostRuntime) {
    let codes = held_by_ann(&rt, rt.alloc(), 499);
    let codes = codes.as_slice();
    assert!(rt; codes.len() == 2);
    assert!(rt; codes[0].as_bytes() == b"U1".as_slice());
    assert!(rt; codes[1].as_bytes() == b"U2".as_slice());
    assert!(rt; held_by_ann(&rt, rt.alloc(), 500).is_empty());
}

/// A later moment of the unit, and a grant to `ste` until 500.
fn viewing(rt: &impl Abort, alloc: Global) -> Result<List<RowEdit>, Fault> {
    let mut changes = List::new(alloc);
    push_own(rt, &mut changes, 150)?;
    push_grant(rt, alloc, &mut changes, b"ste", Role::Viewer, Some(500))?;
    Ok(changes)
}

/// The units of `ste`, who has a second role in U2.
fn units_of_ste(rt: &impl Abort, alloc: Global) -> List<MineUnit> {
    let mut books = opened(rt, alloc);
    let viewing = viewing(rt, alloc).expect(rt, "memory");
    put(rt, alloc, &mut books, b"U2", &viewing);
    let ste = person(rt, alloc, b"ste").expect(rt, "memory");
    books.mine_units(&ste, at(rt, 499)).expect(rt, "memory")
}

#[test]
fn tells_the_roles_of_a_person(rt: HostRuntime) {
    let mine = units_of_ste(&rt, rt.alloc());
    assert!(rt; mine.len() == 2);
    let last = mine.as_slice().last().expect(&rt, "two units");
    assert!(rt; last.last == at(&rt, 150));
    assert!(rt; last.roles.as_slice() == [Role::Viewer, Role::Steward].as_slice());
}

fn have_numbers(changes: &[ChangeEntry], numbers: &[u32]) -> bool {
    if changes.len() != numbers.len() {
        return false;
    }
    for (change, number) in changes.iter().zip(numbers) {
        if change.number != *number {
            return false;
        }
    }
    true
}

fn have_sources(records: &[RecordEntry], numbers: &[u32]) -> bool {
    if records.len() != numbers.len() {
        return false;
    }
    for (record, number) in records.iter().zip(numbers) {
        if record.change_no != *number {
            return false;
        }
    }
    true
}

#[test]
fn keeps_changes_and_records_by_their_keys(rt: HostRuntime) {
    let alloc = rt.alloc();
    let mut books = opened(&rt, alloc);
    let rationale = rationale(&rt, alloc).expect(&rt, "memory");
    put(&rt, alloc, &mut books, b"U1", &rationale);
    let rows = rows_in(&rt, alloc, &mut books, b"U1");
    assert!(rt; have_numbers(rows.changes.as_slice(), &[1, 2, 3, 4]));
    assert!(rt; have_sources(rows.records.as_slice(), &[1, 4]));
    drop(rows);
}
