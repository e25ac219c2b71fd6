//! Reads the rows of the matrices and the changes that a scope takes in.

ghost use Rattle.std.specs.Prelude.{◌≡◌, ◌++◌, OnOk};
ghost use Rattle.plant_store_reads.specs.Parts.{LoadsChanges, LoadsMatrices, LoadsNumbers};
ghost use Rattle.plant_store_statements.specs.Reading.{HasNoTransaction, IsOnlyRead, LeavesOpen};

use plant_books::{change_numbers, matrix_numbers};
use plant_model::{ChangeEntry, RecordEntry, Scope, UnitRow};
use plant_store_statements::read::{in_order, rows_of_number};
use plant_store_statements::stored::StoredByNumber;
use plant_types::{List, Sorted, UnitCode};
use sqlite::{Alter, Connection, Error, ErrorCode};
use std::alloc::Global;
use std::collections::BTreeSet;

/// Appends rows to others.
fn append<T: Drop>(rows: &mut Vec<T>, more: List<T>) -> Result<(), Error>
    ensures { OnOk result (rows.new.items ≡ rows.old.items ++ more) }
{
    let mut more = more.into_vec();
    Ok(rows.append(&mut more)?)
}

/// The unit's rows with these numbers.
fn rows_of_numbers<T: StoredByNumber, S: Alter>(
    alloc: Global,
    conn: &mut Connection<S>,
    unit: &UnitCode,
    numbers: &BTreeSet<u32>,
) -> Result<Sorted<T>, Error>
    requires { HasNoTransaction conn.old }
    ensures mode { HasNoTransaction conn.new }
    ensures rows { LoadsNumbers S.Store conn.old conn.new T.seen unit.now T.number numbers.now result }
    ensures reads { IsOnlyRead S.Store conn.old conn.new }
    ensures open { LeavesOpen S.Store conn.old conn.new result }
{
    let mut rows = Vec::new(alloc);
    for number in numbers {
        let read = rows_of_number(alloc, conn, unit, *number)?;
        append(&mut rows, read.into_list())?;
    }
    in_order(List::from_vec(rows))
}

/// The unit's rows of the matrices that the scope takes in: their limits, or their cells.
pub fn matrix_rows<T: StoredByNumber, S: Alter>(
    alloc: Global,
    conn: &mut Connection<S>,
    unit: &UnitCode,
    units: &List<UnitRow>,
    scope: Scope<'_>,
) -> Result<Sorted<T>, Error>
    requires { HasNoTransaction conn.old }
    ensures mode { HasNoTransaction conn.new }
    ensures rows { LoadsMatrices S.Store conn.old conn.new T.seen unit.now T.number units.now scope.entry result }
    ensures reads { IsOnlyRead S.Store conn.old conn.new }
    ensures open { LeavesOpen S.Store conn.old conn.new result }
{
    let Ok(numbers) = matrix_numbers(alloc, units, scope) else {
        return Err(Error::SqliteFailure(ErrorCode::OutOfMemory));
    };
    rows_of_numbers(alloc, conn, unit, &numbers)
}

/// The unit's changes that the scope takes in. `records` are the unit's records that it takes in.
pub fn some_changes<S: Alter>(
    alloc: Global,
    conn: &mut Connection<S>,
    unit: &UnitCode,
    records: &Sorted<RecordEntry>,
    scope: Scope<'_>,
) -> Result<Sorted<ChangeEntry>, Error>
    requires { HasNoTransaction conn.old }
    ensures mode { HasNoTransaction conn.new }
    ensures rows { LoadsChanges S.Store conn.old conn.new unit.now records.now scope.entry result }
    ensures reads { IsOnlyRead S.Store conn.old conn.new }
    ensures open { LeavesOpen S.Store conn.old conn.new result }
{
    let Ok(numbers) = change_numbers(alloc, records.as_slice(), scope) else {
        return Err(Error::SqliteFailure(ErrorCode::OutOfMemory));
    };
    rows_of_numbers(alloc, conn, unit, &numbers)
}
