//! The statements that write, each inside a transaction.

ghost use Rattle.std.specs.Prelude.{[], ◌∷◌, ◌≡◌, IfErr, IsTrue};
ghost use Rattle.sqlite.specs.{Held.{state}, declared.error.{Error.TheVariants.{SqliteFailure}, ErrorCode.TheVariants.{Closed}}};
ghost use Rattle.plant_books.specs.Books.{WasHonest};
ghost use Rattle.plant_model.specs.declared.rows.Key.TheVariants.{Grant as GrantKey, Shelf as ShelfKey};
ghost use Rattle.plant_model.specs.declared.rows.RowEdit.TheVariants.{Put, PutEvents, Remove};
ghost use Rattle.plant_store_statements.specs.{Changes.{IsHonest}, Reading.{HasNoTransaction, IsHonestIn, IsOnlyRead}};
ghost use Rattle.plant_store_statements.specs.Writing.{Commits, CommitsNothing, CrashLoses, IsLeftOpen, IsOpenIfOk, LeavesChanged, LeavesChangedHonestly, RunsCounting, RunsStatement, SameOnErr, SameReference, StaysOpen, Updates, WasOpen, Writes, WritesOpen};

use crate::stored::Stored;
use crate::texts;
use plant_alarm::Event;
use plant_model::{Key, Row, RowEdit, UnitRows};
use plant_store_columns::encode::{grant_key, pair};
use plant_types::{Person, Role, Tag, UnitCode};
use sqlite::types::ValueRef;
use sqlite::{Alter, Connection, Error, ErrorCode, Transaction};

/// Runs one statement.
pub fn run<S: Alter>(
    tx: &mut Transaction<'_, S>,
    sql: &str,
    cells: &[ValueRef<'_>],
) -> Result<(), Error>
    ensures same_reference { SameReference tx.old tx.new }
    ensures made { RunsStatement S.Store tx.old tx.new sql.now cells.now result }
    ensures stays { StaysOpen S.Store tx.old tx.new result }
{
    tx.execute(sql, cells)?;
    Ok(())
}

/// Runs one statement and returns how many rows it wrote.
pub fn run_counting<S: Alter>(
    tx: &mut Transaction<'_, S>,
    sql: &str,
    cells: &[ValueRef<'_>],
) -> Result<usize, Error>
    ensures same_reference { SameReference tx.old tx.new }
    ensures made { RunsCounting S.Store tx.old tx.new sql.now cells.now result }
    ensures stays { StaysOpen S.Store tx.old tx.new result }
{
    tx.execute(sql, cells)
}

/// Updates the row with the same key, and returns how many rows were written. If the rows of the unit that were seen
/// have no such row, nothing is written.
fn put_over<T: Stored, S: Alter>(
    tx: &mut Transaction<'_, S>,
    unit: &UnitCode,
    row: &T,
    seen: Option<&UnitRows>,
) -> Result<usize, Error>
    ensures same_reference { SameReference tx.old tx.new }
    ensures made { Updates S.Store tx.old tx.new unit.now (Put (T.as_row row.now)) result }
    ensures stays { StaysOpen S.Store tx.old tx.new result }
{
    match seen {
        Some(rows) if !row.has_key_in(rows) => Ok(0),
        _ => row.update(tx, unit),
    }
}

/// Puts a row: it replaces the row with its key, or is inserted as a new one. If a row with its key exists, it fails in
/// a table whose rows never change, and also if the rows of the unit that were seen do not have that row.
#[tactic(auto, using(crate::proofs::WritesOver::one_put))]
pub fn put<T: Stored, S: Alter>(
    tx: &mut Transaction<'_, S>,
    unit: &UnitCode,
    row: &T,
    seen: Option<&UnitRows>,
) -> Result<(), Error>
    ensures same_reference { SameReference tx.old tx.new }
    ensures made { Writes S.Store tx.old tx.new unit.now (Put (T.as_row row.now) ∷ []) result }
    ensures stays { StaysOpen S.Store tx.old tx.new result }
{
    let written = put_over(tx, unit, row, seen)?;
    if written != 0 {
        return Ok(());
    }
    row.insert(tx, unit)
}

/// Removes a grant.
pub fn remove_grant<S: Alter>(
    tx: &mut Transaction<'_, S>,
    unit: &UnitCode,
    person: &Person,
    role: Role,
) -> Result<(), Error>
    ensures same_reference { SameReference tx.old tx.new }
    ensures made { Writes S.Store tx.old tx.new unit.now
        (Remove (GrantKey person.now role) ∷ []) result }
    ensures stays { StaysOpen S.Store tx.old tx.new result }
{
    run(tx, texts::DELETE_GRANT, &grant_key(unit, person, role))
}

/// Removes a shelf.
#[tactic(auto, using(crate::proofs::public::Writes::shelf_removed))]
pub fn remove_shelf<S: Alter>(
    tx: &mut Transaction<'_, S>,
    unit: &UnitCode,
    tag: &Tag,
) -> Result<(), Error>
    ensures same_reference { SameReference tx.old tx.new }
    ensures made { Writes S.Store tx.old tx.new unit.now (Remove (ShelfKey tag.now) ∷ []) result }
    ensures stays { StaysOpen S.Store tx.old tx.new result }
{
    run(tx, texts::DELETE_SHELF, &pair(unit, tag))
}

/// Puts a row of one of the tables.
fn put_row<S: Alter>(
    tx: &mut Transaction<'_, S>,
    unit: &UnitCode,
    row: &Row,
    seen: Option<&UnitRows>,
) -> Result<(), Error>
    ensures same_reference { SameReference tx.old tx.new }
    ensures made { Writes S.Store tx.old tx.new unit.now (Put row.now ∷ []) result }
    ensures stays { StaysOpen S.Store tx.old tx.new result }
{
    match row {
        Row::Unit(row) => put(tx, unit, row, seen),
        Row::Grant(row) => put(tx, unit, row, seen),
        Row::Alarm(row) => put(tx, unit, row, seen),
        Row::Shelf(row) => put(tx, unit, row, seen),
        Row::Band(row) => put(tx, unit, row, seen),
        Row::Cell(row) => put(tx, unit, row, seen),
        Row::Event(event) => put(tx, unit, event, seen),
        Row::Record(row) => put(tx, unit, row, seen),
        Row::Change(row) => put(tx, unit, row, seen),
    }
}

/// Inserts events, each as a new row.
fn put_events<S: Alter>(
    tx: &mut Transaction<'_, S>,
    unit: &UnitCode,
    events: &[Event],
) -> Result<(), Error>
    ensures same_reference { SameReference tx.old tx.new }
    ensures made { Writes S.Store tx.old tx.new unit.now (PutEvents events.now ∷ []) result }
    ensures stays { StaysOpen S.Store tx.old tx.new result }
{
    for event in events {
        event.insert(tx, unit)?;
    }
    Ok(())
}

/// Removes the row with a key.
fn remove_row<S: Alter>(
    tx: &mut Transaction<'_, S>,
    unit: &UnitCode,
    key: &Key,
) -> Result<(), Error>
    ensures same_reference { SameReference tx.old tx.new }
    ensures made { Writes S.Store tx.old tx.new unit.now (Remove key.now ∷ []) result }
    ensures stays { StaysOpen S.Store tx.old tx.new result }
{
    match key {
        Key::Grant(person, role) => remove_grant(tx, unit, person, *role),
        Key::Shelf(tag) => remove_shelf(tx, unit, tag),
    }
}

/// Makes one change.
fn change_one<S: Alter>(
    tx: &mut Transaction<'_, S>,
    unit: &UnitCode,
    change: &RowEdit,
    seen: Option<&UnitRows>,
) -> Result<(), Error>
    ensures same_reference { SameReference tx.old tx.new }
    ensures made { Writes S.Store tx.old tx.new unit.now (change.now ∷ []) result }
    ensures stays { StaysOpen S.Store tx.old tx.new result }
{
    match change {
        RowEdit::Put(row) => put_row(tx, unit, row, seen),
        RowEdit::PutEvents(events) => put_events(tx, unit, events.as_slice()),
        RowEdit::Remove(key) => remove_row(tx, unit, key),
    }
}

/// Makes the changes in the order of the list, up to the first that fails.
fn change_all<S: Alter>(
    tx: &mut Transaction<'_, S>,
    unit: &UnitCode,
    changes: &[RowEdit],
    seen: Option<&UnitRows>,
) -> Result<(), Error>
    requires { IsTrue tx.old.conn.now.in_transaction }
    ensures same_reference { SameReference tx.old tx.new }
    ensures made { WritesOpen S.Store tx.old tx.new unit.now changes.now result }
    ensures inside { IsOpenIfOk S.Store tx.new result }
    ensures kept { CommitsNothing S.Store tx.old tx.new }
    ensures survives { CrashLoses S.Store tx.old tx.new }
{
    for change in changes {
        change_one(tx, unit, change, seen)?;
    }
    Ok(())
}

/// Fails if a failure has shut the store, so that nothing is written to a store that is shut. The error `Closed` always
/// means that. Changes nothing.
pub fn find_open<S: Alter>(conn: &mut Connection<S>) -> Result<(), Error>
    requires { HasNoTransaction conn.old }
    ensures mode { HasNoTransaction conn.new }
    ensures reads { IsOnlyRead S.Store conn.old conn.new }
    ensures open { WasOpen S.Store conn.old conn.new result }
    ensures shut { IfErr result (λ e. e ≡ SqliteFailure Closed → ¬ IsHonest (state S.Store conn.new)) }
{
    // Give the proof that no transaction is open, and that there is a database; the values are not used.
    let _settled = conn.is_autocommit();
    let _live = conn.schema();
    if let Err(error) = conn.prepare(texts::SELECT_OFFICE) {
        return Err(error);
    }
    Ok(())
}

/// Makes all the changes of one unit, or none, in one transaction.
fn commit_all<S: Alter>(
    conn: &mut Connection<S>,
    unit: &UnitCode,
    changes: &[RowEdit],
    seen: Option<&UnitRows>,
) -> Result<(), Error>
    requires { HasNoTransaction conn.old }
    ensures mode { HasNoTransaction conn.new }
    ensures made { Commits S.Store conn.old conn.new unit.now changes.now result }
    ensures unchanged { SameOnErr S.Store conn.old conn.new result }
    ensures honest { WasHonest (IsHonestIn S.Store) conn.old conn.new }
    ensures open { IsLeftOpen S.Store conn.new result }
    ensures survives { LeavesChanged S.Store conn.old conn.new unit.now changes.now }
{
    // Gives the proof that no transaction is open; the value is not used.
    let _settled = conn.is_autocommit();
    let mut tx = conn.transaction();
    change_all(&mut tx, unit, changes, seen)?;
    tx.commit()?;
    Ok(())
}

/// Makes all the changes of one unit, or none. A crash, at any moment, leaves all of them or none, and after a success
/// all.
pub fn apply<S: Alter>(
    conn: &mut Connection<S>,
    unit: &UnitCode,
    changes: &[RowEdit],
    seen: Option<&UnitRows>,
) -> Result<(), Error>
    requires { HasNoTransaction conn.old }
    ensures mode { HasNoTransaction conn.new }
    ensures made { Commits S.Store conn.old conn.new unit.now changes.now result }
    ensures unchanged { SameOnErr S.Store conn.old conn.new result }
    ensures honest { WasHonest (IsHonestIn S.Store) conn.old conn.new }
    ensures open { IsLeftOpen S.Store conn.new result }
    ensures survives { LeavesChangedHonestly S.Store conn.old conn.new unit.now changes.now }
{
    find_open(conn)?;
    commit_all(conn, unit, changes, seen)
}
