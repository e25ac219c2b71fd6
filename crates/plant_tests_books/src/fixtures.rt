//! Names, rows and requests built from numbers and bytes, and books that keep them. The test fails if a value is
//! invalid or memory runs out.

use plant_alarm::AlarmState;
use plant_books::{Books, Plain};
use plant_model::{
    AlarmRow, BandRow, CellRow, ChangeEntry, ChangeTopic, GrantRow, Key, RecordEntry, Row, RowEdit,
    ShelfRow, UnitRow, UnitRows,
};
use plant_ration::{Cell, ChangeState};
use plant_types::{Fault, List, Moment, Person, Quota, Role, Seconds, Tag, UnitCode, Words};
use std::alloc::Global;
use std::process::Abort;

pub(crate) fn code(rt: &impl Abort, alloc: Global, bytes: &[u8]) -> Result<UnitCode, Fault> {
    Ok(UnitCode::read(alloc, bytes)?.expect(rt, "a code"))
}

pub(crate) fn tag(rt: &impl Abort, alloc: Global, bytes: &[u8]) -> Result<Tag, Fault> {
    Ok(Tag::read(alloc, bytes)?.expect(rt, "a tag"))
}

pub(crate) fn person(rt: &impl Abort, alloc: Global, bytes: &[u8]) -> Result<Person, Fault> {
    Ok(Person::read(alloc, bytes)?.expect(rt, "a person"))
}

pub(crate) fn words(rt: &impl Abort, alloc: Global, bytes: &[u8]) -> Result<Words, Fault> {
    Ok(Words::read(alloc, bytes)?.expect(rt, "words"))
}

pub(crate) fn at(rt: &impl Abort, seconds: u64) -> Moment {
    Moment::of_seconds(seconds).expect(rt, "a moment")
}

/// The unit's own row with this last moment and this quota.
pub(crate) fn own_row(rt: &impl Abort, last: u64, quota: u64) -> Row {
    Row::Unit(UnitRow {
        last_s: at(rt, last),
        matrix_no: 0,
        matrix_rev: 0,
        quota: Quota::new(quota).expect(rt, "a quota"),
    })
}

fn end_at(rt: &impl Abort, end: Option<u64>) -> Option<Moment> {
    match end {
        Some(end) => Some(at(rt, end)),
        None => None,
    }
}

pub(crate) fn grant(
    rt: &impl Abort,
    alloc: Global,
    name: &[u8],
    role: Role,
    end: Option<u64>,
) -> Result<Row, Fault> {
    Ok(Row::Grant(GrantRow {
        person: person(rt, alloc, name)?,
        role_no: role,
        end_s: end_at(rt, end),
    }))
}

/// An alarm without events.
fn quiet(rt: &impl Abort, tag: Tag, max: u64, out_words: Words) -> Row {
    Row::Alarm(AlarmRow {
        tag,
        latching: false,
        max_s: Seconds::new(max).expect(rt, "a length of time"),
        max_rev: 0,
        state_no: AlarmState::Normal,
        suppressed: false,
        active_s: None,
        return_s: None,
        out_s: None,
        out_by: None,
        out_words: Some(out_words),
    })
}

fn alarm(rt: &impl Abort, alloc: Global, name: &[u8], max: u64) -> Result<Row, Fault> {
    let tag = tag(rt, alloc, name)?;
    Ok(quiet(rt, tag, max, words(rt, alloc, b"replaced")?))
}

/// A shelf of an hour that ann set.
fn timed(rt: &impl Abort, tag: Tag, person: Person, words: Words) -> Row {
    Row::Shelf(ShelfRow {
        tag,
        one_shot: false,
        start_s: at(rt, 100),
        until_s: 3700,
        person,
        words,
    })
}

fn shelf(rt: &impl Abort, alloc: Global, name: &[u8]) -> Result<Row, Fault> {
    let tag = tag(rt, alloc, name)?;
    let ann = person(rt, alloc, b"ann")?;
    Ok(timed(rt, tag, ann, words(rt, alloc, b"pump test")?))
}

fn push(changes: &mut List<RowEdit>, row: Row) -> Result<(), Fault> {
    changes.push(RowEdit::Put(row))
}

fn push_alarm(
    rt: &impl Abort,
    alloc: Global,
    changes: &mut List<RowEdit>,
    name: &[u8],
    max: u64,
) -> Result<(), Fault> {
    push(changes, alarm(rt, alloc, name, max)?)
}

pub(crate) fn push_grant(
    rt: &impl Abort,
    alloc: Global,
    changes: &mut List<RowEdit>,
    name: &[u8],
    role: Role,
    end: Option<u64>,
) -> Result<(), Fault> {
    push(changes, grant(rt, alloc, name, role, end)?)
}

pub(crate) fn push_own(
    rt: &impl Abort,
    changes: &mut List<RowEdit>,
    last: u64,
) -> Result<(), Fault> {
    push(changes, own_row(rt, last, 20))
}

fn push_band(changes: &mut List<RowEdit>, matrix_no: u32, limit_s: u64) -> Result<(), Fault> {
    let band_no = 1;
    push(
        changes,
        Row::Band(BandRow {
            matrix_no,
            band_no,
            limit_s,
        }),
    )
}

/// Severities and bands with their cells.
const CELLS: [(u8, u8, Cell); 3] = [(1, 1, Cell::P3), (2, 2, Cell::P2), (1, 2, Cell::P4)];

fn push_cells(changes: &mut List<RowEdit>) -> Result<(), Fault> {
    for (severity, band_no, cell_no) in CELLS.iter() {
        let row = CellRow {
            matrix_no: 0,
            severity: *severity,
            band_no: *band_no,
            cell_no: *cell_no,
        };
        push(changes, Row::Cell(row))?;
    }
    Ok(())
}

fn push_opening(rt: &impl Abort, alloc: Global, changes: &mut List<RowEdit>) -> Result<(), Fault> {
    push_own(rt, changes, 100)?;
    push_grant(rt, alloc, changes, b"ste", Role::Steward, None)?;
    push_grant(rt, alloc, changes, b"ann", Role::Operator, Some(500))?;
    push_alarm(rt, alloc, changes, b"PT-101", 3600)?;
    push_alarm(rt, alloc, changes, b"LT-2", 86400)?;
    push_band(changes, 0, 300)?;
    push_cells(changes)
}

/// The rows of an opening: grants to `ste` and, until 500, to `ann`, two alarms, a band and cells.
pub(crate) fn opening(rt: &impl Abort, alloc: Global) -> Result<List<RowEdit>, Fault> {
    let mut changes = List::new(alloc);
    push_opening(rt, alloc, &mut changes)?;
    Ok(changes)
}

fn push_later(rt: &impl Abort, alloc: Global, changes: &mut List<RowEdit>) -> Result<(), Fault> {
    push(changes, shelf(rt, alloc, b"PT-101")?)?;
    push(changes, shelf(rt, alloc, b"LT-2")?)?;
    push_alarm(rt, alloc, changes, b"LT-2", 60)?;
    let ann = person(rt, alloc, b"ann")?;
    changes.push(RowEdit::Remove(Key::Grant(ann, Role::Operator)))
}

/// A shelf of LT-2 and one of PT-101, a new limit of LT-2, and no grant to `ann`.
pub(crate) fn later(rt: &impl Abort, alloc: Global) -> Result<List<RowEdit>, Fault> {
    let mut changes = List::new(alloc);
    push_later(rt, alloc, &mut changes)?;
    Ok(changes)
}

/// A quota of two shelves.
pub(crate) fn small_quota(rt: &impl Abort, alloc: Global) -> Result<List<RowEdit>, Fault> {
    let mut changes = List::new(alloc);
    push(&mut changes, own_row(rt, 150, 2))?;
    Ok(changes)
}

/// A change that this person proposed.
fn entry(rt: &impl Abort, proposer: Person, number: u32, kind_no: ChangeTopic) -> Row {
    Row::Change(ChangeEntry {
        number,
        proposer,
        proposed_s: at(rt, 100),
        kind_no,
        tag: None,
        base: 0,
        cause: None,
        consequence: None,
        remedy: None,
        severity: None,
        response_s: None,
        max_s: None,
        state_no: ChangeState::Proposed,
        decider: None,
        decided_s: None,
    })
}

const TOPICS: [(u32, ChangeTopic); 4] = [
    (4, ChangeTopic::Record),
    (3, ChangeTopic::Matrix),
    (2, ChangeTopic::Limit),
    (1, ChangeTopic::Record),
];

fn push_entries(rt: &impl Abort, alloc: Global, changes: &mut List<RowEdit>) -> Result<(), Fault> {
    for (number, topic) in TOPICS.iter() {
        let ann = person(rt, alloc, b"ann")?;
        push(changes, entry(rt, ann, *number, *topic))?;
    }
    Ok(())
}

/// Pushes the record of an alarm, from a change.
fn push_record(
    rt: &impl Abort,
    alloc: Global,
    changes: &mut List<RowEdit>,
    name: &[u8],
    change_no: u32,
) -> Result<(), Fault> {
    let record = RecordEntry {
        tag: tag(rt, alloc, name)?,
        change_no,
        rev: 1,
        cell_no: Cell::P2,
    };
    push(changes, Row::Record(record))
}

fn push_rationale(
    rt: &impl Abort,
    alloc: Global,
    changes: &mut List<RowEdit>,
) -> Result<(), Fault> {
    push_entries(rt, alloc, changes)?;
    push_record(rt, alloc, changes, b"PT-101", 4)?;
    push_record(rt, alloc, changes, b"LT-2", 1)?;
    push_band(changes, 3, 600)
}

/// Changes 1 to 4 (3 is of the matrix with a limit), and records from 1 and 4.
pub(crate) fn rationale(rt: &impl Abort, alloc: Global) -> Result<List<RowEdit>, Fault> {
    let mut changes = List::new(alloc);
    push_rationale(rt, alloc, &mut changes)?;
    Ok(changes)
}

pub(crate) fn plain(rt: &impl Abort, alloc: Global) -> Result<Plain, Fault> {
    Ok(Plain::new(alloc, person(rt, alloc, b"root")?))
}

/// Puts changes into a unit's rows. If memory runs out, the test ends.
pub(crate) fn put(
    rt: &impl Abort,
    alloc: Global,
    books: &mut Plain,
    unit: &[u8],
    changes: &List<RowEdit>,
) {
    let unit = code(rt, alloc, unit).expect(rt, "memory");
    books.apply(&unit, changes, None).expect(rt, "memory");
}

/// The rows of a unit that was opened.
pub(crate) fn rows_in(rt: &impl Abort, alloc: Global, books: &mut Plain, unit: &[u8]) -> UnitRows {
    let unit = code(rt, alloc, unit).expect(rt, "memory");
    books
        .rows(&unit)
        .expect(rt, "memory")
        .expect(rt, "the unit was opened")
}

/// Books with U2 and U1, which have the same rows.
pub(crate) fn opened(rt: &impl Abort, alloc: Global) -> Plain {
    let mut books = plain(rt, alloc).expect(rt, "memory");
    let changes = opening(rt, alloc).expect(rt, "memory");
    put(rt, alloc, &mut books, b"U2", &changes);
    put(rt, alloc, &mut books, b"U1", &changes);
    books
}
