//! Names, rows and calls built from numbers and bytes, and books that keep them. The test fails if a value is invalid.

ghost use Rattle.std.specs.Prelude.{false};
ghost use Rattle.plant_store_statements.specs.Reading.{HasNoTransaction};

use plant_alarm::{AlarmState, Event, EventKind, Number};
use plant_books::Books;
use plant_model::{
    AlarmRow, BandRow, Call, CellRow, ChangeEntry, ChangeTopic, GrantRow, RecordEntry, Request,
    Row, RowEdit, ShelfRow, UnitRow, UnitRows,
};
use plant_ration::{Cell, ChangeState};
use plant_store::Tables;
use plant_types::{List, Moment, Person, Quota, Role, Seconds, Tag, UnitCode, Words};
use sqlite::{Connection, MemStore};
use std::alloc::Global;
use std::process::Abort;

pub(crate) fn unit(rt: &impl Abort, alloc: Global, bytes: &[u8]) -> UnitCode {
    UnitCode::read(alloc, bytes)
        .expect(rt, "memory")
        .expect(rt, "a code")
}

pub(crate) fn person(rt: &impl Abort, alloc: Global, bytes: &[u8]) -> Person {
    Person::read(alloc, bytes)
        .expect(rt, "memory")
        .expect(rt, "a person")
}

pub(crate) fn tag(rt: &impl Abort, alloc: Global, bytes: &[u8]) -> Tag {
    Tag::read(alloc, bytes)
        .expect(rt, "memory")
        .expect(rt, "a tag")
}

pub(crate) fn words(rt: &impl Abort, alloc: Global, bytes: &[u8]) -> Words {
    Words::read(alloc, bytes)
        .expect(rt, "memory")
        .expect(rt, "words")
}

pub(crate) fn at(rt: &impl Abort, seconds: u64) -> Moment {
    Moment::of_seconds(seconds).expect(rt, "a moment")
}

/// Runs the statements, and leaves no transaction.
pub(crate) fn after(
    rt: &impl Abort,
    mut conn: Connection<MemStore>,
    statements: &str,
) -> Connection<MemStore>
    ensures { HasNoTransaction result }
{
    conn.execute_batch(statements).expect(rt, "statements");
    if conn.is_autocommit() {
        conn
    } else {
        rt.panic("a transaction")
    }
}

/// A database that these statements make.
pub(crate) fn made_by(rt: &impl Abort, alloc: Global, statements: &str) -> Connection<MemStore>
    ensures { HasNoTransaction result }
{
    let conn = Connection::open_in_memory(alloc).expect(rt, "a database");
    after(rt, conn, statements)
}

/// Books without units.
fn new_books(rt: &impl Abort, alloc: Global) -> Tables<MemStore> {
    let conn = Connection::open_in_memory(alloc).expect(rt, "a database");
    let books = Tables::create(alloc, conn, person(rt, alloc, b"root"));
    books.ok().expect(rt, "books")
}

fn push(rt: &impl Abort, list: &mut List<RowEdit>, row: Row) {
    list.push(RowEdit::Put(row)).expect(rt, "memory");
}

/// The unit's own row with this last moment.
pub(crate) fn push_own(rt: &impl Abort, list: &mut List<RowEdit>, last: u64) {
    let row = UnitRow {
        last_s: at(rt, last),
        matrix_no: 0,
        matrix_rev: 0,
        quota: Quota::new(2).expect(rt, "a quota"),
    };
    push(rt, list, Row::Unit(row));
}

pub(crate) fn push_grant(
    rt: &impl Abort,
    alloc: Global,
    list: &mut List<RowEdit>,
    name: &[u8],
    role_no: Role,
    end_s: Option<Moment>,
) {
    let row = GrantRow {
        person: person(rt, alloc, name),
        role_no,
        end_s,
    };
    push(rt, list, Row::Grant(row));
}

pub(crate) fn push_alarm(rt: &impl Abort, alloc: Global, list: &mut List<RowEdit>, name: &[u8]) {
    let row = AlarmRow {
        tag: tag(rt, alloc, name),
        latching: true,
        max_s: Seconds::new(3600).expect(rt, "a length"),
        max_rev: 1,
        state_no: AlarmState::ReturnedUnack,
        suppressed: false,
        active_s: None,
        return_s: Some(at(rt, 50)),
        out_s: Some(at(rt, 60)),
        out_by: Some(person(rt, alloc, b"mat")),
        out_words: Some(words(rt, alloc, b"pump test")),
    };
    push(rt, list, Row::Alarm(row));
}

pub(crate) fn push_shelf(rt: &impl Abort, alloc: Global, list: &mut List<RowEdit>, name: &[u8]) {
    let row = ShelfRow {
        tag: tag(rt, alloc, name),
        one_shot: true,
        start_s: at(rt, 70),
        until_s: 3670,
        person: person(rt, alloc, b"ann"),
        words: words(rt, alloc, b"noise"),
    };
    push(rt, list, Row::Shelf(row));
}

pub(crate) fn event(
    rt: &impl Abort,
    alloc: Global,
    number: u64,
    second: u64,
    name: &[u8],
    kind: EventKind,
) -> Event {
    Event {
        seq: Number::new(number).expect(rt, "a number"),
        moment: at(rt, second),
        tag: tag(rt, alloc, name),
        kind,
    }
}

fn push_record(
    rt: &impl Abort,
    alloc: Global,
    list: &mut List<RowEdit>,
    name: &[u8],
    change_no: u32,
) {
    let row = RecordEntry {
        tag: tag(rt, alloc, name),
        change_no,
        rev: 1,
        cell_no: Cell::P2,
    };
    push(rt, list, Row::Record(row));
}

/// A change of the matrix that is proposed.
fn proposed(rt: &impl Abort, alloc: Global, number: u32) -> ChangeEntry {
    ChangeEntry {
        number,
        proposer: person(rt, alloc, b"eve"),
        proposed_s: at(rt, 75),
        kind_no: ChangeTopic::Matrix,
        tag: None,
        base: 0,
        cause: None,
        consequence: None,
        remedy: None,
        severity: None,
        response_s: None,
        max_s: None,
        state_no: ChangeState::Proposed,
        decider: None,
        decided_s: None,
    }
}

/// A change of an alarm's record that is approved.
fn rationalised(rt: &impl Abort, alloc: Global, number: u32, name: &[u8]) -> ChangeEntry {
    ChangeEntry {
        number,
        proposer: person(rt, alloc, b"eve"),
        proposed_s: at(rt, 75),
        kind_no: ChangeTopic::Record,
        tag: Some(tag(rt, alloc, name)),
        base: 0,
        cause: Some(words(rt, alloc, b"blocked valve")),
        consequence: Some(words(rt, alloc, b"overflow")),
        remedy: Some(words(rt, alloc, b"stop the pump")),
        severity: Some(2),
        response_s: Seconds::new(300),
        max_s: None,
        state_no: ChangeState::Approved,
        decider: Some(person(rt, alloc, b"ann")),
        decided_s: Some(at(rt, 78)),
    }
}

/// A change of an alarm's limit that is proposed.
fn limited(rt: &impl Abort, alloc: Global, number: u32, name: &[u8]) -> ChangeEntry {
    ChangeEntry {
        number,
        proposer: person(rt, alloc, b"eve"),
        proposed_s: at(rt, 75),
        kind_no: ChangeTopic::Limit,
        tag: Some(tag(rt, alloc, name)),
        base: 0,
        cause: None,
        consequence: None,
        remedy: None,
        severity: None,
        response_s: None,
        max_s: Seconds::new(7200),
        state_no: ChangeState::Proposed,
        decider: None,
        decided_s: None,
    }
}

/// The limit of the first band of a matrix.
pub(crate) fn push_band(
    rt: &impl Abort,
    list: &mut List<RowEdit>,
    matrix_no: u32,
    band_no: u8,
    limit_s: u64,
) {
    let row = BandRow {
        matrix_no,
        band_no,
        limit_s,
    };
    push(rt, list, Row::Band(row));
}

/// Matrices and bands with their cells.
const CELLS: [(u32, u8, Cell); 3] = [(0, 2, Cell::P4), (0, 1, Cell::N), (2, 2, Cell::P1)];

fn push_cells(rt: &impl Abort, list: &mut List<RowEdit>) {
    for (matrix_no, band_no, cell_no) in CELLS.iter() {
        let row = CellRow {
            matrix_no: *matrix_no,
            severity: 1,
            band_no: *band_no,
            cell_no: *cell_no,
        };
        push(rt, list, Row::Cell(row));
    }
}

fn push_events(rt: &impl Abort, alloc: Global, list: &mut List<RowEdit>) {
    let returned = event(rt, alloc, 12, 50, b"PT-101", EventKind::Rtn);
    push(rt, list, Row::Event(returned));
    let raised = event(rt, alloc, 7, 40, b"LT-2", EventKind::Act);
    push(rt, list, Row::Event(raised));
}

fn push_grants(rt: &impl Abort, alloc: Global, list: &mut List<RowEdit>) {
    push_grant(rt, alloc, list, b"ste", Role::Steward, None);
    push_grant(rt, alloc, list, b"ann", Role::Operator, Some(at(rt, 100)));
    push_grant(rt, alloc, list, b"ann", Role::Viewer, None);
}

fn push_changes(rt: &impl Abort, alloc: Global, list: &mut List<RowEdit>) {
    push(rt, list, Row::Change(limited(rt, alloc, 4, b"PT-101")));
    push(rt, list, Row::Change(rationalised(rt, alloc, 3, b"PT-101")));
    push(rt, list, Row::Change(proposed(rt, alloc, 2)));
    push(rt, list, Row::Change(rationalised(rt, alloc, 1, b"LT-2")));
}

/// The rows of a unit, in each table some.
pub(crate) fn changes(rt: &impl Abort, alloc: Global) -> List<RowEdit> {
    let mut list = List::new(alloc);
    push_own(rt, &mut list, 80);
    push_grants(rt, alloc, &mut list);
    push_alarm(rt, alloc, &mut list, b"PT-101");
    push_alarm(rt, alloc, &mut list, b"LT-2");
    push_shelf(rt, alloc, &mut list, b"PT-101");
    push_band(rt, &mut list, 2, 1, 300);
    push_band(rt, &mut list, 0, 1, 300);
    push_cells(rt, &mut list);
    push_events(rt, alloc, &mut list);
    push_record(rt, alloc, &mut list, b"PT-101", 3);
    push_record(rt, alloc, &mut list, b"LT-2", 1);
    push_changes(rt, alloc, &mut list);
    list
}

/// How many rows each table has.
pub(crate) fn counts(rows: &UnitRows) -> [usize; 9] {
    [
        rows.units.len(),
        rows.grants.len(),
        rows.alarms.len(),
        rows.shelves.len(),
        rows.events.len(),
        rows.bands.len(),
        rows.cells.len(),
        rows.records.len(),
        rows.changes.len(),
    ]
}

/// Makes changes to the rows of a unit.
pub(crate) fn put<B: Books>(
    rt: &impl Abort,
    alloc: Global,
    books: &mut B,
    code: &[u8],
    changes: &List<RowEdit>,
) {
    let unit = unit(rt, alloc, code);
    books.apply(&unit, changes, None).expect(rt, "changes");
}

/// Books with one unit.
pub(crate) fn opened(rt: &impl Abort, alloc: Global) -> Tables<MemStore> {
    let mut books = new_books(rt, alloc);
    put(rt, alloc, &mut books, b"U1", &changes(rt, alloc));
    books
}

/// The rows of the unit.
pub(crate) fn rows(rt: &impl Abort, alloc: Global, books: &mut impl Books) -> UnitRows {
    books
        .rows(&unit(rt, alloc, b"U1"))
        .expect(rt, "rows")
        .expect(rt, "the unit was opened")
}

/// Whether the unit's last moment is this.
pub(crate) fn is_last(rows: &UnitRows, last: u64) -> bool {
    let [own] = rows.units.as_slice() else {
        return false;
    };
    own.last_s.seconds() == last
}

/// A call of `ann`.
pub(crate) fn call(rt: &impl Abort, alloc: Global, request: Request) -> Call {
    Call {
        person: person(rt, alloc, b"ann"),
        moment: at(rt, 90),
        request,
    }
}
