//! The queries that are needed only for a part: the caller's grants, how many rows a table has, and the last change's
//! number.

ghost use Rattle.std.specs.Prelude.{◌≡◌, IfOk};
ghost use Rattle.plant_store_columns.specs.declared.tables.TableKind.TheVariants.{Alarms, Shelves};
ghost use Rattle.plant_store_reads.specs.Parts.{count_seen, grants_of, last_change_seen};
ghost use Rattle.plant_store_statements.specs.Reading.{HasNoTransaction, IsOnlyRead, LeavesOpen, Loads};

use plant_model::{AlarmRow, GrantRow};
use plant_store_columns::decode::number;
use plant_store_columns::encode::{pair, single};
use plant_store_statements::read::{ask, in_order, read_rows};
use plant_store_statements::stored::Stored;
use plant_store_statements::texts;
use plant_types::{List, Person, Sorted, UnitCode};
use sqlite::{Alter, Connection, Error};
use std::alloc::Global;

/// The rows that the person has in the table of grants of a unit, as they were read.
#[tactic(auto, using(plant_store_statements::proofs::public::ReadsOnly::reads_plain, plant_store_statements::proofs::public::Meanings::lists_own_grants))]
fn own_as_read<S: Alter>(
    alloc: Global,
    conn: &mut Connection<S>,
    unit: &UnitCode,
    person: &Person,
) -> Result<List<GrantRow>, Error>
    requires { HasNoTransaction conn.old }
    ensures mode { HasNoTransaction conn.new }
    ensures rows { Loads S.Store conn.old conn.new (grants_of person.now unit.now) result }
    ensures reads { IsOnlyRead S.Store conn.old conn.new }
    ensures open { LeavesOpen S.Store conn.old conn.new result }
{
    read_rows(alloc, conn, texts::SELECT_OWN_GRANTS, &pair(unit, person))
}

/// One person's grants in the unit.
pub fn own_grants<S: Alter>(
    alloc: Global,
    conn: &mut Connection<S>,
    unit: &UnitCode,
    person: &Person,
) -> Result<Sorted<GrantRow>, Error>
    requires { HasNoTransaction conn.old }
    ensures mode { HasNoTransaction conn.new }
    ensures rows { Loads S.Store conn.old conn.new (grants_of person.now unit.now) result }
    ensures reads { IsOnlyRead S.Store conn.old conn.new }
    ensures open { LeavesOpen S.Store conn.old conn.new result }
{
    let rows = own_as_read(alloc, conn, unit, person)?;
    in_order(rows)
}

/// A number of rows, as a part counts them. More than a part can count is an error other than out of memory.
pub fn count_of(rows: usize) -> Result<u32, Error>
    ensures { IfOk result (λ count. count ≡ rows) }
{
    u32::try_from(rows).map_err(|_| Error::IntegralValueOutOfRange(0))
}

/// How many alarms the unit has.
pub fn count_of_alarms<S: Alter>(conn: &mut Connection<S>, unit: &UnitCode) -> Result<u32, Error>
    requires { HasNoTransaction conn.old }
    ensures mode { HasNoTransaction conn.new }
    ensures rows { Loads S.Store conn.old conn.new (count_seen unit.now Alarms) result }
    ensures reads { IsOnlyRead S.Store conn.old conn.new }
    ensures open { LeavesOpen S.Store conn.old conn.new result }
{
    let alarms = ask(conn, AlarmRow::select(), &single(unit))?;
    count_of(alarms.as_slice().len())
}

/// How many shelves the unit has.
#[tactic(auto, using(plant_store_statements::proofs::public::Meanings::shelf_tags, plant_store_statements::proofs::public::ReadsOnly::reads_plain))]
pub fn count_of_shelves<S: Alter>(conn: &mut Connection<S>, unit: &UnitCode) -> Result<u64, Error>
    requires { HasNoTransaction conn.old }
    ensures mode { HasNoTransaction conn.new }
    ensures rows { Loads S.Store conn.old conn.new (count_seen unit.now Shelves) result }
    ensures reads { IsOnlyRead S.Store conn.old conn.new }
    ensures open { LeavesOpen S.Store conn.old conn.new result }
{
    let tags = ask(conn, texts::SELECT_SHELF_TAGS, &single(unit))?;
    Ok(tags.as_slice().len() as u64)
}

/// The number of the unit's last change, 0 without changes.
pub fn last_change_number<S: Alter>(conn: &mut Connection<S>, unit: &UnitCode) -> Result<u32, Error>
    requires { HasNoTransaction conn.old }
    ensures mode { HasNoTransaction conn.new }
    ensures rows { Loads S.Store conn.old conn.new (last_change_seen unit.now) result }
    ensures reads { IsOnlyRead S.Store conn.old conn.new }
    ensures open { LeavesOpen S.Store conn.old conn.new result }
{
    let rows = ask(conn, texts::SELECT_LAST_CHANGE, &single(unit))?;
    match rows.as_slice().first() {
        Some(row) => number(row, 0),
        None => Ok(0),
    }
}
