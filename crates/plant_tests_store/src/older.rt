//! Stores of schema 1, made by statements, and how a store shows its rows.

ghost use Rattle.plant_store_statements.specs.Reading.{HasNoTransaction};

use crate::fixtures::{after, made_by, person};
use plant_store::{MigrateRefused, Tables, migrate};
use sqlite::types::ValueRef;
use sqlite::{Alter, Connection, MemStore};
use std::alloc::Global;
use std::process::Abort;

/// The tables of schema 1.
pub(crate) const SCHEMA: &str =
    r#"CREATE TABLE office (id INTEGER NOT NULL, schema_no INTEGER NOT NULL, admin TEXT NOT NULL, PRIMARY KEY (id)) STRICT;
CREATE TABLE units (unit TEXT NOT NULL, last_s INTEGER NOT NULL, matrix_no INTEGER NOT NULL, matrix_rev INTEGER NOT NULL, PRIMARY KEY (unit)) STRICT;
CREATE TABLE grants (unit TEXT NOT NULL, person TEXT NOT NULL, role_no INTEGER NOT NULL, PRIMARY KEY (unit, person, role_no)) STRICT;
CREATE TABLE alarms (unit TEXT NOT NULL, tag TEXT NOT NULL, latching INTEGER NOT NULL, max_s INTEGER NOT NULL, max_rev INTEGER NOT NULL, state_no INTEGER NOT NULL, suppressed INTEGER NOT NULL, active_s INTEGER, return_s INTEGER, out_s INTEGER, out_by TEXT, out_words TEXT, PRIMARY KEY (unit, tag)) STRICT;
CREATE TABLE shelves (unit TEXT NOT NULL, tag TEXT NOT NULL, one_shot INTEGER NOT NULL, start_s INTEGER NOT NULL, until_s INTEGER NOT NULL, person TEXT NOT NULL, words TEXT NOT NULL, PRIMARY KEY (unit, tag)) STRICT;
CREATE TABLE bands (unit TEXT NOT NULL, matrix_no INTEGER NOT NULL, band_no INTEGER NOT NULL, limit_s INTEGER NOT NULL, PRIMARY KEY (unit, matrix_no, band_no)) STRICT;
CREATE TABLE cells (unit TEXT NOT NULL, matrix_no INTEGER NOT NULL, severity INTEGER NOT NULL, band_no INTEGER NOT NULL, cell_no INTEGER NOT NULL, PRIMARY KEY (unit, matrix_no, severity, band_no)) STRICT;
CREATE TABLE events (unit TEXT NOT NULL, seq INTEGER NOT NULL, moment_s INTEGER NOT NULL, tag TEXT NOT NULL, kind_no INTEGER NOT NULL, PRIMARY KEY (unit, seq)) STRICT;
CREATE TABLE records (unit TEXT NOT NULL, tag TEXT NOT NULL, change_no INTEGER NOT NULL, rev INTEGER NOT NULL, cell_no INTEGER NOT NULL, PRIMARY KEY (unit, tag)) STRICT;
CREATE TABLE changes (unit TEXT NOT NULL, number INTEGER NOT NULL, proposer TEXT NOT NULL, proposed_s INTEGER NOT NULL, kind_no INTEGER NOT NULL, tag TEXT, base INTEGER NOT NULL, cause TEXT, consequence TEXT, remedy TEXT, severity INTEGER, response_s INTEGER, max_s INTEGER, state_no INTEGER NOT NULL, decider TEXT, decided_s INTEGER, PRIMARY KEY (unit, number)) STRICT;
CREATE INDEX grants_by_person ON grants (person, unit)"#;

/// A unit with its staff, two alarms, a shelf that holds and one that is over, a matrix and a proposed one, events, and
/// a record with its change; and a unit with its steward only.
pub(crate) const ROWS: &str = r#"INSERT INTO office VALUES (1, 1, 'root');
INSERT INTO units VALUES ('U1', 825674400, 0, 0), ('U2', 825667200, 0, 0);
INSERT INTO grants VALUES ('U1', 'ste', 6), ('U1', 'ann', 2), ('U1', 'eve', 4), ('U1', 'abe', 5), ('U1', 'moe', 3), ('U1', 'vic', 1), ('U2', 'ste', 6);
INSERT INTO alarms VALUES ('U1', 'PT-101', 0, 3600, 0, 1, 0, NULL, 825667300, NULL, NULL, NULL), ('U1', 'LT-2', 1, 86400, 0, 3, 1, 825667300, NULL, 825667400, 'moe', 'valve');
INSERT INTO shelves VALUES ('U1', 'PT-101', 0, 825674400, 825678000, 'ann', 'pump test'), ('U1', 'LT-2', 1, 825667200, 825670800, 'ann', 'wiring');
INSERT INTO bands VALUES ('U1', 0, 1, 300), ('U1', 2, 1, 60);
INSERT INTO cells VALUES ('U1', 0, 1, 1, 3), ('U1', 0, 1, 2, 4), ('U1', 0, 2, 1, 1), ('U1', 0, 2, 2, 2), ('U1', 2, 1, 1, 1), ('U1', 2, 1, 2, 0);
INSERT INTO events VALUES ('U1', 1, 825667250, 'PT-101', 1), ('U1', 2, 825667300, 'PT-101', 2), ('U1', 3, 825667300, 'LT-2', 1);
INSERT INTO records VALUES ('U1', 'PT-101', 1, 1, 1);
INSERT INTO changes VALUES ('U1', 1, 'eve', 825667200, 1, 'PT-101', 0, 'blocked valve', 'overflow', 'stop the pump', 2, 120, NULL, 2, 'abe', 825667260), ('U1', 2, 'eve', 825667300, 2, NULL, 0, NULL, NULL, NULL, NULL, NULL, NULL, 1, NULL, NULL)"#;

/// Runs these statements.
pub(crate) fn run<S: Alter>(rt: &impl Abort, conn: &mut Connection<S>, statements: &str) {
    conn.execute_batch(statements).expect(rt, "statements");
}

/// A database without tables.
pub(crate) fn blank(rt: &impl Abort, alloc: Global) -> Connection<MemStore>
    ensures { HasNoTransaction result }
{
    made_by(rt, alloc, "")
}

/// A store of schema 1 of `root`, after these statements.
pub(crate) fn older(rt: &impl Abort, alloc: Global, statements: &str) -> Connection<MemStore>
    ensures { HasNoTransaction result }
{
    let conn = after(rt, made_by(rt, alloc, SCHEMA), ROWS);
    after(rt, conn, statements)
}

/// Runs this statement with a number.
fn put(rt: &impl Abort, conn: &mut Connection<MemStore>, statement: &str, number: i64) {
    conn.execute(statement, &[ValueRef::Int(number)])
        .expect(rt, "a row");
}

/// Runs this statement with each number below `count`.
pub(crate) fn with_each(
    rt: &impl Abort,
    mut conn: Connection<MemStore>,
    statement: &str,
    count: i64,
) -> Connection<MemStore>
    ensures { HasNoTransaction result }
{
    for number in 0..count {
        put(rt, &mut conn, statement, number);
    }
    if conn.is_autocommit() {
        conn
    } else {
        rt.panic("a transaction")
    }
}

/// The rows that this statement returns.
fn shown<S: Alter>(
    rt: &impl Abort,
    alloc: Global,
    conn: &mut Connection<S>,
    statement: &str,
) -> String {
    let rows = conn.query_all(statement, &[]).expect(rt, "rows");
    let mut text = String::new(alloc);
    for row in rows.as_slice() {
        write!(text, "{row:?}\n").expect(rt, "memory");
    }
    text
}

/// The number that this statement returns.
pub(crate) fn number<S: Alter>(rt: &impl Abort, conn: &mut Connection<S>, statement: &str) -> i64 {
    let row = conn.query_row(statement, &[]).expect(rt, "a row");
    row.get(0).expect(rt, "a number")
}

/// How each table of units shows its rows in schema 1, and how in schema 2 after a migration.
const ALIKE: [(&str, &str); 9] = [
    (
        "SELECT unit, last_s, matrix_no, matrix_rev, 2000 FROM units ORDER BY unit",
        "SELECT unit, last_s, matrix_no, matrix_rev, quota FROM units ORDER BY unit",
    ),
    (
        "SELECT unit, person, role_no, NULL FROM grants ORDER BY unit, person, role_no",
        "SELECT unit, person, role_no, end_s FROM grants ORDER BY unit, person, role_no",
    ),
    (
        "SELECT unit, tag, latching, max_s, max_rev, state_no, suppressed, active_s, return_s, out_s, out_by, out_words FROM alarms ORDER BY unit, tag",
        "SELECT unit, tag, latching, max_s, max_rev, state_no, suppressed, active_s, return_s, out_s, out_by, out_words FROM alarms ORDER BY unit, tag",
    ),
    (
        "SELECT unit, tag, one_shot, start_s, until_s, person, words FROM shelves ORDER BY unit, tag",
        "SELECT unit, tag, one_shot, start_s, until_s, person, words FROM shelves ORDER BY unit, tag",
    ),
    (
        "SELECT unit, matrix_no, band_no, limit_s FROM bands ORDER BY unit, matrix_no, band_no",
        "SELECT unit, matrix_no, band_no, limit_s FROM bands ORDER BY unit, matrix_no, band_no",
    ),
    (
        "SELECT unit, matrix_no, severity, band_no, cell_no FROM cells ORDER BY unit, matrix_no, severity, band_no",
        "SELECT unit, matrix_no, severity, band_no, cell_no FROM cells ORDER BY unit, matrix_no, severity, band_no",
    ),
    (
        "SELECT unit, seq, moment_s, tag, kind_no FROM events ORDER BY unit, seq",
        "SELECT unit, seq, moment_s, tag, kind_no FROM events ORDER BY unit, seq",
    ),
    (
        "SELECT unit, tag, change_no, rev, cell_no FROM records ORDER BY unit, tag",
        "SELECT unit, tag, change_no, rev, cell_no FROM records ORDER BY unit, tag",
    ),
    (
        "SELECT unit, number, proposer, proposed_s, kind_no, tag, base, cause, consequence, remedy, severity, response_s, max_s, state_no, decider, decided_s FROM changes ORDER BY unit, number",
        "SELECT unit, number, proposer, proposed_s, kind_no, tag, base, cause, consequence, remedy, severity, response_s, max_s, state_no, decider, decided_s FROM changes ORDER BY unit, number",
    ),
];

/// Asserts that the newer store has the rows of the older one, at least one in each table.
pub(crate) fn assert_alike<O: Alter, N: Alter>(
    rt: &impl Abort,
    alloc: Global,
    old: &mut Connection<O>,
    new: &mut Connection<N>,
) {
    for (older, newer) in ALIKE.iter() {
        let wanted = shown(rt, alloc, old, older);
        assert!(rt; !wanted.is_empty(), "{older}");
        assert!(rt; shown(rt, alloc, new, newer) == wanted, "{newer}");
    }
}

/// Migrates a store, for `root`.
pub(crate) fn migrated<O: Alter + Drop, N: Alter + Drop>(
    rt: &impl Abort,
    alloc: Global,
    old: Connection<O>,
    new: Connection<N>,
) -> (Connection<O>, Tables<N>)
    requires older { HasNoTransaction old }
    requires newer { HasNoTransaction new }
{
    match migrate(alloc, old, new, person(rt, alloc, b"root")) {
        Ok(both) => both,
        Err(_) => rt.panic("not migrated"),
    }
}

/// What a migration that is refused hands back.
pub(crate) fn refused(
    rt: &impl Abort,
    alloc: Global,
    old: Connection<MemStore>,
    new: Connection<MemStore>,
    admin: &[u8],
) -> MigrateRefused<MemStore, MemStore>
    requires older { HasNoTransaction old }
    requires newer { HasNoTransaction new }
    ensures { HasNoTransaction result.old × HasNoTransaction result.new }
{
    match migrate(alloc, old, new, person(rt, alloc, admin)) {
        Ok(_) => rt.panic("migrated"),
        Err(refused) => refused,
    }
}

/// How many tables and indexes a database has.
pub(crate) fn count_of_tables<S: Alter>(conn: &Connection<S>) -> usize {
    let schema = conn.schema();
    schema
        .tables
        .as_slice()
        .len()
        .saturating_add(schema.indexes.as_slice().len())
}
