//! The statements that read one unit's rows of one table.

ghost use Rattle.std.specs.Prelude.{◌≡◌, ◌↔◌, IfOk, IsOk};
ghost use Rattle.plant_books.specs.Books.{WasHonest};
ghost use Rattle.plant_types.specs.KeyedRows.{IsInOrder};
ghost use Rattle.plant_store_statements.specs.Reading.{Asks, CrashesAsShown, Decodes, HasNoTransaction, IsHonestIn, Loads, LoadsNumber, LoadsTag, IsOnlyRead, LeavesOpen, SameIfPlain};
ghost use Rattle.plant_store_statements.specs.Writing.{IsLeftOpen};

use crate::stored::{Stored, StoredByNumber, StoredByTag};
use plant_store_columns::decode::{Shown, read_all};
use plant_store_columns::encode::{numbered, pair, single};
use plant_types::{Keyed, List, Sorted, Tag, UnitCode};
use sqlite::types::ValueRef;
use sqlite::{Alter, Connection, Error, ErrorCode, Row};
use std::alloc::Global;

/// Runs one query.
pub fn ask<S: Alter>(
    conn: &mut Connection<S>,
    sql: &str,
    cells: &[ValueRef<'_>],
) -> Result<Vec<Row>, Error>
    requires { HasNoTransaction conn.old }
    ensures mode { HasNoTransaction conn.new }
    ensures rows { Asks S.Store conn.old conn.new sql.now cells.now result (λ rows. rows.items) }
    ensures same { SameIfPlain S.Store conn.old conn.new sql.now }
    ensures shows { CrashesAsShown S.Store conn.old conn.new sql.now cells.now }
    ensures honest { WasHonest (IsHonestIn S.Store) conn.old conn.new }
    ensures open { IsLeftOpen S.Store conn.new result }
{
    // Gives the proof that no transaction is open; the value is not used.
    let _settled = conn.is_autocommit();
    conn.query_all(sql, cells)
}

/// Runs one query, and decodes the rows that it returns.
pub fn read_rows<T: Shown, S: Alter>(
    alloc: Global,
    conn: &mut Connection<S>,
    sql: &str,
    cells: &[ValueRef<'_>],
) -> Result<List<T>, Error>
    requires { HasNoTransaction conn.old }
    ensures mode { HasNoTransaction conn.new }
    ensures rows { Decodes S.Store conn.old conn.new sql.now cells.now T.width T.cells result }
    ensures same { SameIfPlain S.Store conn.old conn.new sql.now }
    ensures shows { CrashesAsShown S.Store conn.old conn.new sql.now cells.now }
    ensures honest { WasHonest (IsHonestIn S.Store) conn.old conn.new }
    ensures open { LeavesOpen S.Store conn.old conn.new result }
{
    let rows = ask(conn, sql, cells)?;
    read_all(alloc, rows.as_slice())
}

/// All rows that the unit has in one table.
pub fn all_rows<T: Stored, S: Alter>(
    alloc: Global,
    conn: &mut Connection<S>,
    unit: &UnitCode,
) -> Result<List<T>, Error>
    requires { HasNoTransaction conn.old }
    ensures mode { HasNoTransaction conn.new }
    ensures rows { Loads S.Store conn.old conn.new (T.seen unit.now) result }
    ensures reads { IsOnlyRead S.Store conn.old conn.new }
    ensures open { LeavesOpen S.Store conn.old conn.new result }
{
    read_rows(alloc, conn, T::select(), &single(unit))
}

/// The rows that were read, as a table. If they are not in the order of their keys, the file is damaged.
pub fn in_order<T: Keyed>(rows: List<T>) -> Result<Sorted<T>, Error>
    ensures value { IfOk result (λ sorted. sorted ≡ rows) }
    ensures when { IsOk result ↔ IsInOrder T.order T.key rows }
{
    match Sorted::from_list(rows) {
        Ok(sorted) => Ok(sorted),
        Err(_) => Err(Error::SqliteFailure(ErrorCode::DatabaseCorrupt)),
    }
}

/// All rows that the unit has in one table, in the order of their keys.
pub fn sorted_rows<T: Stored + Keyed, S: Alter>(
    alloc: Global,
    conn: &mut Connection<S>,
    unit: &UnitCode,
) -> Result<Sorted<T>, Error>
    requires { HasNoTransaction conn.old }
    ensures mode { HasNoTransaction conn.new }
    ensures rows { Loads S.Store conn.old conn.new (T.seen unit.now) result }
    ensures reads { IsOnlyRead S.Store conn.old conn.new }
    ensures open { LeavesOpen S.Store conn.old conn.new result }
{
    let rows = all_rows(alloc, conn, unit)?;
    in_order(rows)
}

/// The rows with this tag, as they were read.
fn as_read_of_tag<T: StoredByTag, S: Alter>(
    alloc: Global,
    conn: &mut Connection<S>,
    unit: &UnitCode,
    tag: &Tag,
) -> Result<List<T>, Error>
    requires { HasNoTransaction conn.old }
    ensures mode { HasNoTransaction conn.new }
    ensures rows { LoadsTag S.Store conn.old conn.new T.seen unit.now T.key tag.now result }
    ensures reads { IsOnlyRead S.Store conn.old conn.new }
    ensures open { LeavesOpen S.Store conn.old conn.new result }
{
    read_rows(alloc, conn, T::select_of_tag(), &pair(unit, tag))
}

/// The unit's row with this tag in one table, if any.
pub fn row_of_tag<T: StoredByTag, S: Alter>(
    alloc: Global,
    conn: &mut Connection<S>,
    unit: &UnitCode,
    tag: &Tag,
) -> Result<Sorted<T>, Error>
    requires { HasNoTransaction conn.old }
    ensures mode { HasNoTransaction conn.new }
    ensures rows { LoadsTag S.Store conn.old conn.new T.seen unit.now T.key tag.now result }
    ensures reads { IsOnlyRead S.Store conn.old conn.new }
    ensures open { LeavesOpen S.Store conn.old conn.new result }
{
    let rows = as_read_of_tag(alloc, conn, unit, tag)?;
    in_order(rows)
}

/// The rows with this number, as they were read.
fn as_read_of_number<T: StoredByNumber, S: Alter>(
    alloc: Global,
    conn: &mut Connection<S>,
    unit: &UnitCode,
    number: u32,
) -> Result<List<T>, Error>
    requires { HasNoTransaction conn.old }
    ensures mode { HasNoTransaction conn.new }
    ensures rows { LoadsNumber S.Store conn.old conn.new T.seen unit.now T.number number result }
    ensures reads { IsOnlyRead S.Store conn.old conn.new }
    ensures open { LeavesOpen S.Store conn.old conn.new result }
{
    read_rows(alloc, conn, T::select_of_number(), &numbered(unit, number))
}

/// The unit's rows with this number in one table.
pub fn rows_of_number<T: StoredByNumber, S: Alter>(
    alloc: Global,
    conn: &mut Connection<S>,
    unit: &UnitCode,
    number: u32,
) -> Result<Sorted<T>, Error>
    requires { HasNoTransaction conn.old }
    ensures mode { HasNoTransaction conn.new }
    ensures rows { LoadsNumber S.Store conn.old conn.new T.seen unit.now T.number number result }
    ensures reads { IsOnlyRead S.Store conn.old conn.new }
    ensures open { LeavesOpen S.Store conn.old conn.new result }
{
    let rows = as_read_of_number(alloc, conn, unit, number)?;
    in_order(rows)
}
