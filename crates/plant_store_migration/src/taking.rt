//! Copies a plant's rows from a store of schema 1 into new tables of this schema.

ghost use Rattle.std.specs.Prelude.{◌≡◌, map, IsTrue, OnOk};
ghost use Rattle.sqlite.specs.{Held.{state}, State.{HasCleanDisk, Survives}};
ghost use Rattle.plant_books.specs.Contents.{Content};
ghost use Rattle.plant_model.specs.declared.rows.RowEdit.TheVariants.{Put};
ghost use Rattle.plant_store_statements.specs.{Changes.{IsHonest}, Keeping.{HaveRows}};
ghost use Rattle.plant_store_statements.specs.{Reading.{HasNoTransaction, IsOnlyRead}, Writing.{IsBlank, SameOnErr, SameReference, StaysOpen, Writes}};
ghost use Rattle.plant_store_migration.specs.{OldTables.{AreOldBooks}, TakingOver.{AreTaken, Takes, TakesUnit, TakesUnits}, Upgrading.{HaveOldRows, IsCopyOf}};

use crate::old_rows::{CodeLine, OldGrantRow, OldRow, OldUnitRow, old_codes_of, old_rows_of};
use plant_alarm::Event;
use plant_model::{AlarmRow, BandRow, CellRow, ChangeEntry, RecordEntry, ShelfRow};
use plant_store_statements::make::make_tables;
use plant_types::{Person, UnitCode};
use sqlite::{Alter, Connection, Error, Transaction};
use std::alloc::Global;

/// Inserts the rows of one table.
fn put_rows<T: OldRow, N: Alter>(
    alloc: Global,
    tx: &mut Transaction<'_, N>,
    unit: &UnitCode,
    rows: &[T],
) -> Result<(), Error>
    ensures same_reference { SameReference tx.old tx.new }
    ensures made { Writes N.Store tx.old tx.new unit.now
        (map (λ r. Put (T.becomes r)) rows.now) result }
    ensures stays { StaysOpen N.Store tx.old tx.new result }
{
    for row in rows {
        row.put(alloc, tx, unit)?;
    }
    Ok(())
}

/// Copies a unit's rows of one table.
fn take_rows<T: OldRow, O: Alter, N: Alter>(
    alloc: Global,
    from: &mut Connection<O>,
    tx: &mut Transaction<'_, N>,
    unit: &UnitCode,
) -> Result<(), Error>
    requires reading { HasNoTransaction from.old }
    ensures mode { HasNoTransaction from.new }
    ensures reads { IsOnlyRead O.Store from.old from.new }
    ensures same_reference { SameReference tx.old tx.new }
    ensures made { Takes O.Store from.old from.new N.Store tx.old tx.new unit.now
        T.had T.becomes result }
    ensures stays { StaysOpen N.Store tx.old tx.new result }
{
    let rows = old_rows_of::<T, O>(alloc, from, unit)?;
    put_rows::<T, N>(alloc, tx, unit, rows.as_slice())
}

/// Copies all rows of a unit, table by table.
#[tactic(auto, using(plant_store_statements::proofs::public::ReadsOnly::reads_then, plant_store_statements::proofs::public::StepsInside::stays_then))]
fn take_unit<O: Alter, N: Alter>(
    alloc: Global,
    from: &mut Connection<O>,
    tx: &mut Transaction<'_, N>,
    unit: &UnitCode,
) -> Result<(), Error>
    requires reading { HasNoTransaction from.old }
    ensures mode { HasNoTransaction from.new }
    ensures reads { IsOnlyRead O.Store from.old from.new }
    ensures same_reference { SameReference tx.old tx.new }
    ensures made { TakesUnit O.Store from.old from.new N.Store tx.old tx.new unit.now result }
    ensures stays { StaysOpen N.Store tx.old tx.new result }
{
    take_rows::<OldUnitRow, O, N>(alloc, from, tx, unit)?;
    take_rows::<OldGrantRow, O, N>(alloc, from, tx, unit)?;
    take_rows::<AlarmRow, O, N>(alloc, from, tx, unit)?;
    take_rows::<ShelfRow, O, N>(alloc, from, tx, unit)?;
    take_rows::<BandRow, O, N>(alloc, from, tx, unit)?;
    take_rows::<CellRow, O, N>(alloc, from, tx, unit)?;
    take_rows::<Event, O, N>(alloc, from, tx, unit)?;
    take_rows::<RecordEntry, O, N>(alloc, from, tx, unit)?;
    take_rows::<ChangeEntry, O, N>(alloc, from, tx, unit)?;
    Ok(())
}

/// Copies all rows of some units, one unit after another.
fn take_units<O: Alter, N: Alter>(
    alloc: Global,
    from: &mut Connection<O>,
    tx: &mut Transaction<'_, N>,
    lines: &[CodeLine],
) -> Result<(), Error>
    requires reading { HasNoTransaction from.old }
    ensures mode { HasNoTransaction from.new }
    ensures reads { IsOnlyRead O.Store from.old from.new }
    ensures same_reference { SameReference tx.old tx.new }
    ensures made { TakesUnits O.Store from.old from.new N.Store tx.old tx.new lines.now result }
    ensures stays { StaysOpen N.Store tx.old tx.new result }
{
    for line in lines {
        take_unit(alloc, from, tx, &line.unit)?;
    }
    Ok(())
}

/// Makes the tables and copies all rows.
fn fill<O: Alter, N: Alter>(
    alloc: Global,
    from: &mut Connection<O>,
    tx: &mut Transaction<'_, N>,
    admin: &Person,
) -> Result<(), Error>
    requires reading { HasNoTransaction from.old }
    ensures mode { HasNoTransaction from.new }
    ensures reads { IsOnlyRead O.Store from.old from.new }
    ensures same_reference { SameReference tx.old tx.new }
    ensures made { IsHonest (state O.Store from.new) → HasCleanDisk (state N.Store tx.new.conn.now)
        → IsTrue tx.old.conn.now.in_transaction → IsBlank (state N.Store tx.old.conn.now).now
        → AreOldBooks (state O.Store from.old).now
        → OnOk result (IsCopyOf admin.now (state O.Store from.old).now.trees (state N.Store tx.new.conn.now).now) }
    ensures stays { StaysOpen N.Store tx.old tx.new result }
{
    let lines = old_codes_of(alloc, from)?;
    make_tables(tx, admin)?;
    take_units(alloc, from, tx, lines.as_slice())
}

/// Makes the tables and copies all rows, in one transaction: everything, or nothing.
pub fn take_over<O: Alter, N: Alter>(
    alloc: Global,
    from: &mut Connection<O>,
    into: &mut Connection<N>,
    admin: &Person,
) -> Result<(), Error>
    requires reading { HasNoTransaction from.old }
    requires writing { HasNoTransaction into.old }
    ensures mode { HasNoTransaction from.new }
    ensures reads { IsOnlyRead O.Store from.old from.new }
    ensures outside { HasNoTransaction into.new }
    ensures taken { IsHonest (state O.Store from.new) → IsHonest (state N.Store into.new)
        → IsBlank (state N.Store into.old).now
        → (m : Content) → m.admin ≡ admin.now → HaveOldRows m (state O.Store from.old).now
        → OnOk result (HaveRows m (state N.Store into.new).now) }
    ensures unchanged { SameOnErr N.Store into.old into.new result }
    ensures survives { IsBlank (state N.Store into.old).now
        → Survives (state N.Store into.old) (state N.Store into.new)
        (AreTaken (state O.Store from.old) (state O.Store from.new) admin.now) }
{
    // Gives the proof that no transaction is open; the value is not used.
    let _settled = into.is_autocommit();
    let mut tx = into.transaction();
    fill(alloc, from, &mut tx, admin)?;
    tx.commit()?;
    Ok(())
}
