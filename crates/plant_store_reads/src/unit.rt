//! Reads the rows of one unit: all of them, all except its history, or its events alone.

ghost use Rattle.std.specs.{FinMap.{contains_key, get}, Prelude.{◌≡◌, OnOk}};
ghost use Rattle.sqlite.specs.Held.{state};
ghost use Rattle.plant_books.specs.Contents.{Content, events_in, rows_but_history as all_but_history, rows_in, with_history_of};
ghost use Rattle.plant_store_statements.specs.{Changes.{IsHonest}, Keeping.{HasContent, has_any}, Reading.{HasNoTransaction, IsOnlyRead, LeavesOpen, ReadsContent}};

use plant_alarm::Event;
use plant_model::{UnitRow, UnitRows};
use plant_store_statements::read::{all_rows, sorted_rows};
use plant_types::{List, Sorted, UnitCode};
use sqlite::{Alter, Connection, Error};
use std::alloc::Global;

/// Whether there is a row: a unit was opened exactly if it has a row of its own.
#[tactic(auto, using(plant_store_statements::proofs::public::Contents::any_is))]
pub fn has_row(units: &List<UnitRow>) -> bool
    ensures { result ≡ has_any units.now }
{
    !units.as_slice().is_empty()
}

/// Whether the unit was opened.
pub fn taken<S: Alter>(
    alloc: Global,
    conn: &mut Connection<S>,
    unit: &UnitCode,
) -> Result<bool, Error>
    requires { HasNoTransaction conn.old }
    ensures mode { HasNoTransaction conn.new }
    ensures found { ReadsContent S.Store conn.old conn.new result
        (λ m. contains_key m.units unit.now) }
    ensures reads { IsOnlyRead S.Store conn.old conn.new }
    ensures open { LeavesOpen S.Store conn.old conn.new result }
{
    let units = all_rows(alloc, conn, unit)?;
    Ok(has_row(&units))
}

/// Reads the rows of the unit, except its own row and its history. It owns no list when a query fails: the prover
/// treats each list owned at each query.
fn read_standing<S: Alter>(
    alloc: Global,
    conn: &mut Connection<S>,
    unit: &UnitCode,
    rows: &mut UnitRows,
) -> Result<(), Error>
    requires { HasNoTransaction conn.old }
    ensures mode { HasNoTransaction conn.new }
    ensures found { IsHonest (state S.Store conn.new) → (m : Content)
        → HasContent (state S.Store conn.old) m → OnOk result (rows.new ≡ record rows.old {
          grants = (rows_in m unit.now).grants;
          alarms = (rows_in m unit.now).alarms;
          shelves = (rows_in m unit.now).shelves;
          records = (rows_in m unit.now).records;
        }) }
    ensures reads { IsOnlyRead S.Store conn.old conn.new }
    ensures open { LeavesOpen S.Store conn.old conn.new result }
{
    rows.grants = sorted_rows(alloc, conn, unit)?;
    rows.alarms = sorted_rows(alloc, conn, unit)?;
    rows.shelves = sorted_rows(alloc, conn, unit)?;
    rows.records = sorted_rows(alloc, conn, unit)?;
    Ok(())
}

/// All rows of the unit except its history, if it was opened.
pub fn rows_but_history<S: Alter>(
    alloc: Global,
    conn: &mut Connection<S>,
    unit: &UnitCode,
) -> Result<Option<UnitRows>, Error>
    requires { HasNoTransaction conn.old }
    ensures mode { HasNoTransaction conn.new }
    ensures found { ReadsContent S.Store conn.old conn.new result
        (λ m. all_but_history m unit.now) }
    ensures reads { IsOnlyRead S.Store conn.old conn.new }
    ensures open { LeavesOpen S.Store conn.old conn.new result }
{
    let units = all_rows(alloc, conn, unit)?;
    if !has_row(&units) {
        return Ok(None);
    }
    let mut rows = UnitRows::none(alloc);
    rows.units = units;
    read_standing(alloc, conn, unit, &mut rows)?;
    Ok(Some(rows))
}

/// All events of the unit. Empty if it was never opened.
pub fn events<S: Alter>(
    alloc: Global,
    conn: &mut Connection<S>,
    unit: &UnitCode,
) -> Result<Sorted<Event>, Error>
    requires { HasNoTransaction conn.old }
    ensures mode { HasNoTransaction conn.new }
    ensures found { ReadsContent S.Store conn.old conn.new result (λ m. events_in m unit.now) }
    ensures reads { IsOnlyRead S.Store conn.old conn.new }
    ensures open { LeavesOpen S.Store conn.old conn.new result }
{
    sorted_rows(alloc, conn, unit)
}

/// Reads the unit's history.
fn read_history<S: Alter>(
    alloc: Global,
    conn: &mut Connection<S>,
    unit: &UnitCode,
    rows: &mut UnitRows,
) -> Result<(), Error>
    requires { HasNoTransaction conn.old }
    ensures mode { HasNoTransaction conn.new }
    ensures found { IsHonest (state S.Store conn.new) → (m : Content)
        → HasContent (state S.Store conn.old) m
        → OnOk result (rows.new ≡ with_history_of (rows_in m unit.now) rows.old) }
    ensures reads { IsOnlyRead S.Store conn.old conn.new }
    ensures open { LeavesOpen S.Store conn.old conn.new result }
{
    rows.bands = sorted_rows(alloc, conn, unit)?;
    rows.cells = sorted_rows(alloc, conn, unit)?;
    rows.changes = sorted_rows(alloc, conn, unit)?;
    rows.events = sorted_rows(alloc, conn, unit)?;
    Ok(())
}

/// All rows of the unit, if it was opened.
#[tactic(auto, using(plant_store_statements::proofs::public::Contents::whole_again))]
pub fn rows_of<S: Alter>(
    alloc: Global,
    conn: &mut Connection<S>,
    unit: &UnitCode,
) -> Result<Option<UnitRows>, Error>
    requires { HasNoTransaction conn.old }
    ensures mode { HasNoTransaction conn.new }
    ensures found { ReadsContent S.Store conn.old conn.new result (λ m. get m.units unit.now) }
    ensures reads { IsOnlyRead S.Store conn.old conn.new }
    ensures open { LeavesOpen S.Store conn.old conn.new result }
{
    match rows_but_history(alloc, conn, unit)? {
        None => Ok(None),
        Some(mut rows) => {
            read_history(alloc, conn, unit, &mut rows)?;
            Ok(Some(rows))
        }
    }
}
