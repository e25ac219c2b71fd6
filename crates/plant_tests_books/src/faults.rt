//! A call that runs out of memory leaves the rows as they were.

use crate::fixtures::{code, later, opening, plain, rationale};
use plant_books::{Books, Plain};
use plant_model::{AlarmRow, ChangeEntry, GrantRow, RecordEntry, RowEdit, ShelfRow, UnitRows};
use plant_types::{Fault, List, UnitCode};
use std::alloc::Global;
use std::process::Abort;

/// A row that can be compared with another.
trait Same: Drop {
    fn is_same(&self, other: &Self) -> bool;
}

impl Same for GrantRow {
    fn is_same(&self, other: &GrantRow) -> bool {
        self.person == other.person && self.role_no == other.role_no && self.end_s == other.end_s
    }
}

impl Same for AlarmRow {
    fn is_same(&self, other: &AlarmRow) -> bool {
        self.tag == other.tag
            && self.latching == other.latching
            && self.max_s == other.max_s
            && self.max_rev == other.max_rev
            && self.state_no == other.state_no
            && self.suppressed == other.suppressed
            && self.active_s == other.active_s
            && self.return_s == other.return_s
            && self.out_s == other.out_s
            && self.out_by == other.out_by
            && self.out_words == other.out_words
    }
}

impl Same for ShelfRow {
    fn is_same(&self, other: &ShelfRow) -> bool {
        self.tag == other.tag
            && self.one_shot == other.one_shot
            && self.start_s == other.start_s
            && self.until_s == other.until_s
            && self.person == other.person
            && self.words == other.words
    }
}

impl Same for RecordEntry {
    fn is_same(&self, other: &RecordEntry) -> bool {
        self.tag == other.tag
            && self.change_no == other.change_no
            && self.rev == other.rev
            && self.cell_no == other.cell_no
    }
}

impl Same for ChangeEntry {
    fn is_same(&self, other: &ChangeEntry) -> bool {
        self.number == other.number
            && self.proposer == other.proposer
            && self.proposed_s == other.proposed_s
            && self.kind_no == other.kind_no
            && self.tag == other.tag
            && self.base == other.base
            && self.cause == other.cause
            && self.consequence == other.consequence
            && self.remedy == other.remedy
            && self.severity == other.severity
            && self.response_s == other.response_s
            && self.max_s == other.max_s
            && self.state_no == other.state_no
            && self.decider == other.decider
            && self.decided_s == other.decided_s
    }
}

fn are_same<T: Same>(some: &[T], other: &[T]) -> bool {
    if some.len() != other.len() {
        return false;
    }
    for (row, other) in some.iter().zip(other) {
        if !row.is_same(other) {
            return false;
        }
    }
    true
}

fn are_rows(some: &UnitRows, other: &UnitRows) -> bool {
    some.units.as_slice() == other.units.as_slice()
        && some.bands.as_slice() == other.bands.as_slice()
        && some.cells.as_slice() == other.cells.as_slice()
        && some.events.as_slice() == other.events.as_slice()
        && are_same(some.grants.as_slice(), other.grants.as_slice())
        && are_same(some.alarms.as_slice(), other.alarms.as_slice())
        && are_same(some.shelves.as_slice(), other.shelves.as_slice())
        && are_same(some.records.as_slice(), other.records.as_slice())
        && are_same(some.changes.as_slice(), other.changes.as_slice())
}

/// Whether a unit has the same rows, or none both times.
fn are_same_rows(some: &Option<UnitRows>, other: &Option<UnitRows>) -> bool {
    match some {
        None => other.is_none(),
        Some(some) => match other {
            None => false,
            Some(other) => are_rows(some, other),
        },
    }
}

/// Whether the unit still has these rows.
fn has_kept(books: &mut Plain, unit: &UnitCode, before: &Option<UnitRows>) -> Result<bool, Fault> {
    let rows = books.rows(unit)?;
    let is_same = are_same_rows(&rows, before);
    drop(rows);
    Ok(is_same)
}

/// Makes the changes. If memory runs out, the rows must be as before, and the same call is made again.
fn apply_through_faults(
    rt: &(impl Abort + Eprint),
    books: &mut Plain,
    unit: &UnitCode,
    changes: &List<RowEdit>,
) -> Result<(), Fault> {
    let before = books.rows(unit)?;
    let is_refused = books.apply(unit, changes, None).is_err();
    let is_kept = has_kept(books, unit, &before);
    drop(before);
    if is_refused {
        let _ = rt.eprintln("refused while rows are changed");
        assert!(rt; is_kept?);
        books.apply(unit, changes, None)?;
    }
    Ok(())
}

/// Makes three lists of changes in a unit.
fn change_all(
    rt: &(impl Abort + Eprint),
    alloc: Global,
    books: &mut Plain,
    unit: &UnitCode,
) -> Result<(), Fault> {
    apply_through_faults(rt, books, unit, &opening(rt, alloc)?)?;
    apply_through_faults(rt, books, unit, &later(rt, alloc)?)?;
    apply_through_faults(rt, books, unit, &rationale(rt, alloc)?)
}

/// How many grants and shelves an open unit has.
fn grants_and_shelves(
    rt: &impl Abort,
    books: &mut Plain,
    unit: &UnitCode,
) -> Result<(usize, usize), Fault> {
    let rows = books.rows(unit)?.expect(rt, "the unit was opened");
    let counts = (rows.grants.len(), rows.shelves.len());
    drop(rows);
    Ok(counts)
}

fn change_through_faults(rt: &(impl Abort + Eprint), alloc: Global) -> Result<(), Fault> {
    let mut books = plain(rt, alloc)?;
    let unit = code(rt, alloc, b"U1")?;
    change_all(rt, alloc, &mut books, &unit)?;
    assert!(rt; grants_and_shelves(rt, &mut books, &unit)? == (1, 2));
    Ok(())
}

/// To be run with each allocation refused in turn, until no run meets a refusal. A call that meets one leaves the
/// rows as they were; a refusal outside such a call starts the test again.
#[test]
fn leaves_the_rows_at_a_fault(rt: HostRuntime) {
    let alloc = rt.alloc();
    if change_through_faults(&rt, alloc).is_err() {
        let _ = rt.eprintln("refused");
        change_through_faults(&rt, alloc).expect(&rt, "memory");
    }
}
