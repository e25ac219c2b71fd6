//! Stores of schema 1 that are migrated, and what is handed back if they are not. `examples/commands/migrations.t` has
//! the files that are refused.

ghost use Rattle.std.specs.Prelude.{false, IfSome};
ghost use Rattle.plant_store_statements.specs.Reading.{HasNoTransaction};

use crate::fixtures::{counts, made_by, opened, person, rows};
use crate::older::{
    ROWS, SCHEMA, assert_alike, blank, count_of_tables, migrated, number, older, refused, run,
    with_each,
};
use plant_model::UnitRows;
use plant_store::{StoreFault, Tables, migrate};
use plant_types::Fault;
use sqlite::{Alter, Connection, FileStore, Files, MemStore, Options};
use sqlite_disk::{Fuse, Memory};
use std::alloc::Global;
use std::process::Abort;

/// An alarm of U2, by its number.
const ALARM: &str =
    "INSERT INTO alarms VALUES ('U2', 'A-' || ?1, 0, 3600, 0, 1, 0, NULL, NULL, NULL, NULL, NULL)";

#[test]
fn copies_the_rows_of_each_table(rt: HostRuntime) {
    let alloc = rt.alloc();
    let full = with_each(&rt, older(&rt, alloc, ""), ALARM, 2_000);
    let (mut old, books) = migrated(&rt, alloc, full, blank(&rt, alloc));
    let mut new = books.close();
    assert_alike(&rt, alloc, &mut old, &mut new);
    assert!(rt; number(&rt, &mut new, "SELECT count(tag) FROM alarms") == 2_002);
}

/// Whether the unit has a quota of 2,000, and no grant of it ends.
fn is_without_ends(rows: &UnitRows) -> bool {
    let [own] = rows.units.as_slice() else {
        return false;
    };
    let mut ends = false;
    for grant in rows.grants.as_slice() {
        ends = ends || grant.end_s.is_some();
    }
    own.quota.get() == 2_000 && !ends
}

#[test]
fn gives_units_a_quota_and_grants_no_end(rt: HostRuntime) {
    let alloc = rt.alloc();
    let (_, mut books) = migrated(&rt, alloc, older(&rt, alloc, ""), blank(&rt, alloc));
    let rows = rows(&rt, alloc, &mut books);
    assert!(rt; counts(&rows) == [1, 6, 2, 2, 3, 2, 6, 1, 2]);
    assert!(rt; is_without_ends(&rows));
    let again = Tables::open(alloc, books.close(), person(&rt, alloc, b"root"));
    assert!(rt; again.is_ok());
}

/// A copy of these bytes.
fn copied(rt: &impl Abort, alloc: Global, bytes: &[u8]) -> Vec<u8> {
    let mut copy = Vec::new(alloc);
    copy.extend_from_slice(bytes).expect(rt, "memory");
    copy
}

/// A connection over files.
fn over(rt: &impl Abort, alloc: Global, files: Files<Memory>) -> Connection<FileStore<Memory>>
    ensures { HasNoTransaction result }
{
    assert!(rt; files.may_be_used());
    let Ok(conn) = Connection::open_files(alloc, files, Options::new(7)) else {
        rt.panic("no connection")
    };
    conn
}

/// A store of schema 1. This function and `migrated_store` are generic over the store: the prover is slow on the
/// concrete one.
fn older_store<S: Alter + Drop>(rt: &impl Abort, mut conn: Connection<S>) -> S {
    run(rt, &mut conn, SCHEMA);
    run(rt, &mut conn, ROWS);
    conn.into_store()
}

/// Files with a store of schema 1 whose rows are still in the log.
fn older_files(rt: &impl Abort, alloc: Global) -> Files<Memory> {
    let files = Files {
        log: Memory::new(alloc),
        db: Memory::new(alloc),
    };
    older_store(rt, over(rt, alloc, files)).close()
}

/// The same with all rows in the database file.
fn closed_files(rt: &impl Abort, alloc: Global) -> Files<Memory> {
    let closed = over(rt, alloc, older_files(rt, alloc)).close_files();
    closed.ok().expect(rt, "closed files")
}

/// A store of schema 1 after its migration.
fn migrated_store<S: Alter + Drop>(rt: &impl Abort, alloc: Global, old: Connection<S>) -> S
    requires { HasNoTransaction old }
{
    let (old, books) = migrated(rt, alloc, old, blank(rt, alloc));
    drop(books);
    old.into_store()
}

/// Files after the migration of their store.
fn migrated_files(rt: &impl Abort, alloc: Global, files: Files<Memory>) -> Files<Memory> {
    migrated_store(rt, alloc, over(rt, alloc, files)).close()
}

/// The bytes of files before a migration and after it, the log's and then the file's.
fn bytes_around(
    rt: &impl Abort,
    alloc: Global,
    files: Files<Memory>,
) -> ((Vec<u8>, Vec<u8>), (Vec<u8>, Vec<u8>)) {
    let log = copied(rt, alloc, files.log.bytes());
    let db = copied(rt, alloc, files.db.bytes());
    let files = migrated_files(rt, alloc, files);
    let new_log = copied(rt, alloc, files.log.bytes());
    let new_db = copied(rt, alloc, files.db.bytes());
    ((log, db), (new_log, new_db))
}

#[test]
fn leaves_the_older_files_as_they_are(rt: HostRuntime) {
    let alloc = rt.alloc();
    let (before, behind) = bytes_around(&rt, alloc, older_files(&rt, alloc));
    assert!(rt; before.0.len() > 4_096);
    assert!(rt; before.0 == behind.0);
    assert!(rt; before.1 == behind.1);
}

/// If there is no log, the engine creates one with a header and no rows.
#[test]
fn leaves_a_closed_file_as_it_is(rt: HostRuntime) {
    let alloc = rt.alloc();
    let (before, behind) = bytes_around(&rt, alloc, closed_files(&rt, alloc));
    assert!(rt; before.1.len() > 4_096);
    assert!(rt; before.1 == behind.1);
    assert!(rt; behind.0.len() < 56);
}

#[test]
fn refuses_another_person_and_hands_all_back(rt: HostRuntime) {
    let alloc = rt.alloc();
    let back = refused(&rt, alloc, older(&rt, alloc, ""), blank(&rt, alloc), b"ste");
    assert!(rt; matches!(back.fault, StoreFault::NotThisStore));
    assert!(rt; back.admin == person(&rt, alloc, b"ste"));
    assert!(rt; count_of_tables(&back.new) == 0);
    let (mut old, books) = migrated(&rt, alloc, back.old, back.new);
    assert_alike(&rt, alloc, &mut old, &mut books.close());
}

/// Whether the books in this database are those of `opened`.
fn are_opened(rt: &impl Abort, alloc: Global, conn: Connection<MemStore>) -> bool
    requires { HasNoTransaction conn }
{
    let Ok(mut books) = Tables::open(alloc, conn, person(rt, alloc, b"root")) else {
        return false;
    };
    counts(&rows(rt, alloc, &mut books)) == [1, 3, 2, 1, 2, 2, 3, 2, 4]
}

/// The older database is checked first: it must be a store of schema 1.
#[test]
fn refuses_a_database_with_books(rt: HostRuntime) {
    let alloc = rt.alloc();
    let books = opened(&rt, alloc).close();
    let back = refused(&rt, alloc, blank(&rt, alloc), books, b"root");
    assert!(rt; matches!(back.fault, StoreFault::NotThisStore));
    let back = refused(&rt, alloc, older(&rt, alloc, ""), back.new, b"root");
    assert!(rt; matches!(back.fault, StoreFault::Fault(Fault::Store)));
    assert!(rt; are_opened(&rt, alloc, back.new));
    let (mut old, books) = migrated(&rt, alloc, back.old, blank(&rt, alloc));
    assert_alike(&rt, alloc, &mut old, &mut books.close());
}

/// Statements that each make one of the tables of a store.
const TABLES: [&str; 10] = [
    "CREATE TABLE office (id INTEGER) STRICT",
    "CREATE TABLE units (id INTEGER) STRICT",
    "CREATE TABLE grants (id INTEGER) STRICT",
    "CREATE TABLE alarms (id INTEGER) STRICT",
    "CREATE TABLE shelves (id INTEGER) STRICT",
    "CREATE TABLE bands (id INTEGER) STRICT",
    "CREATE TABLE cells (id INTEGER) STRICT",
    "CREATE TABLE events (id INTEGER) STRICT",
    "CREATE TABLE records (id INTEGER) STRICT",
    "CREATE TABLE changes (id INTEGER) STRICT",
];

#[test]
fn refuses_a_database_with_one_of_the_tables(rt: HostRuntime) {
    let alloc = rt.alloc();
    for statement in TABLES.iter() {
        let other = made_by(&rt, alloc, statement);
        let back = refused(&rt, alloc, older(&rt, alloc, ""), other, b"root");
        assert!(rt;
            matches!(back.fault, StoreFault::Fault(Fault::Store)),
            "{statement}"
        );
        assert!(rt; count_of_tables(&back.new) == 1, "{statement}");
    }
}

/// Whether this store is migrated if each statement on it may take only this many steps. If not, the answer is a fault
/// of the store, the new database then has no table, and without a limit the same call migrates it.
fn passes(rt: &impl Abort, alloc: Global, mut old: Connection<MemStore>, steps: u64) -> bool
    requires { HasNoTransaction old }
{
    let new = blank(rt, alloc);
    old.set_step_limit(Some(steps));
    let mut back = match migrate(alloc, old, new, person(rt, alloc, b"root")) {
        Ok(_) => return true,
        Err(back) => back,
    };
    assert!(rt; matches!(back.fault, StoreFault::Fault(Fault::Store)));
    assert!(rt; count_of_tables(&back.new) == 0);
    back.old.set_step_limit(None);
    let (mut old, books) = migrated(rt, alloc, back.old, back.new);
    assert_alike(rt, alloc, &mut old, &mut books.close());
    false
}

/// The number of steps of a statement on the older store with which the migration passes.
fn steps_of(rt: &impl Abort, alloc: Global) -> u64 {
    for steps in 0..10_000u64 {
        if passes(rt, alloc, older(rt, alloc, ""), steps) {
            return steps;
        }
    }
    rt.panic("no end")
}

/// A further row of each table, by its number.
const FURTHER: [&str; 9] = [
    "INSERT INTO units VALUES ('N' || ?1, 825667200, 0, 0)",
    "INSERT INTO grants VALUES ('U1', 'p' || ?1, 1)",
    "INSERT INTO alarms VALUES ('U1', 'A-' || ?1, 0, 3600, 0, 1, 0, NULL, NULL, NULL, NULL, NULL)",
    "INSERT INTO shelves VALUES ('U1', 'A-' || ?1, 0, 825667200, 825670800, 'ann', 'wiring')",
    "INSERT INTO bands VALUES ('U1', 10 + ?1, 1, 300)",
    "INSERT INTO cells VALUES ('U1', 10 + ?1, 1, 1, 1)",
    "INSERT INTO events VALUES ('U1', 10 + ?1, 825667300, 'LT-2', 3)",
    "INSERT INTO records VALUES ('U1', 'A-' || ?1, 1, 1, 1)",
    "INSERT INTO changes VALUES ('U1', 10 + ?1, 'eve', 825667300, 2, NULL, 0, NULL, NULL, NULL, NULL, NULL, NULL, 1, NULL, NULL)",
];

/// Each statement that reads the older store is interrupted in turn: its table has more rows than all others.
#[test]
fn copies_nothing_where_a_read_is_interrupted(rt: HostRuntime) {
    let alloc = rt.alloc();
    let steps = steps_of(&rt, alloc);
    assert!(rt; steps > 0 && steps < 100);
    for statement in FURTHER.iter() {
        let longer = with_each(&rt, older(&rt, alloc, ""), statement, 100);
        assert!(rt; !passes(&rt, alloc, longer, steps), "{statement}");
    }
}

/// A new database over a disk that fails after this many calls of each of its files, or `None` if it can't be made.
fn over_a_fuse(alloc: Global, calls: u64) -> Option<Connection<FileStore<Fuse<Memory>>>>
    ensures { IfSome result (λ conn. HasNoTransaction conn) }
{
    let files = Files {
        log: Fuse::new(Memory::new(alloc), calls),
        db: Fuse::new(Memory::new(alloc), calls),
    };
    if !files.may_be_used() {
        return None;
    }
    Connection::open_files(alloc, files, Options::new(7)).ok()
}

/// Whether a store of schema 1 is migrated to this database. If not, the answer is a fault of the store, this database
/// then has no table, and the older one can be migrated to another.
fn passes_to<S: Alter + Drop>(rt: &impl Abort, alloc: Global, new: Connection<S>) -> bool
    requires { HasNoTransaction new }
{
    let old = older(rt, alloc, "");
    let back = match migrate(alloc, old, new, person(rt, alloc, b"root")) {
        Ok(_) => return true,
        Err(back) => back,
    };
    assert!(rt; matches!(back.fault, StoreFault::Fault(Fault::Store)));
    assert!(rt; count_of_tables(&back.new) == 0);
    let (mut old, books) = migrated(rt, alloc, back.old, blank(rt, alloc));
    assert_alike(rt, alloc, &mut old, &mut books.close());
    false
}

/// Each call on the disk of the new database fails in turn, with all calls after it.
#[test]
fn copies_nothing_where_the_new_disk_fails(rt: HostRuntime) {
    let alloc = rt.alloc();
    let mut has_failed = false;
    for calls in 0..10_000u64 {
        let Some(new) = over_a_fuse(alloc, calls) else {
            continue;
        };
        if passes_to(&rt, alloc, new) {
            assert!(rt; has_failed);
            return;
        }
        has_failed = true;
    }
    rt.panic("no end")
}

/// A migration that runs out of memory and is made again: nothing was written the first time. `scripts/refuse-each`
/// runs this test once for each of its allocations, and refuses that one.
#[test]
fn migrates_again_without_memory(rt: HostRuntime) {
    let alloc = rt.alloc();
    let admin = person(&rt, alloc, b"root");
    let (old, new) = (older(&rt, alloc, ""), blank(&rt, alloc));
    let back = match migrate(alloc, old, new, admin) {
        Ok((mut old, books)) => {
            assert_alike(&rt, alloc, &mut old, &mut books.close());
            return;
        }
        Err(back) => back,
    };
    let _ = rt.eprintln("a call answers a fault");
    assert!(rt; matches!(back.fault, StoreFault::Fault(Fault::Memory)));
    assert!(rt; count_of_tables(&back.new) == 0);
    let (mut old, books) = migrated(&rt, alloc, back.old, back.new);
    assert_alike(&rt, alloc, &mut old, &mut books.close());
}
