//! The rows of a store of schema 1: how each table is read, and what its rows become in this schema.

ghost use Rattle.std.specs.Prelude.{◌∷◌, [], List};
ghost use Rattle.sqlite.specs.Tree.{Trees};
ghost use Rattle.sqlite_value.specs.declared.value.Value.TheVariants.{Text as TextValue};
ghost use Rattle.plant_store_columns.specs.declared.tables.TableKind.TheVariants.{Alarms, Bands, Cells, Changes, Events, Grants, Records, Shelves, Units};
ghost use Rattle.plant_model.specs.declared.rows.{Row.{Row as AnyRow, TheVariants.{Grant as GrantPut, Unit as UnitPut}}, RowEdit.TheVariants.{Put}};
ghost use Rattle.plant_store_migration.specs.OldTables.{old_grant_shape, old_rows, old_unit_shape};
ghost use Rattle.plant_store_statements.specs.Reading.{HasNoTransaction, IsOnlyRead};
ghost use Rattle.plant_store_migration.specs.OldReading.{LoadsOld, LoadsOldCodes, ReadsOldUnit};
ghost use Rattle.plant_store_migration.specs.Upgrading.{upgraded_grant, upgraded_unit};
ghost use Rattle.plant_store_statements.specs.Writing.{SameReference, StaysOpen, Writes};
ghost use Rattle.plant_types.specs.Names.{Name};

use plant_alarm::Event;
use plant_model::{
    AlarmRow, BandRow, CellRow, ChangeEntry, GrantRow, RecordEntry, ShelfRow, UnitRow,
};
use plant_store_columns::decode::{Shown, coded, moment, number, text};
use plant_store_columns::encode::single;
use plant_store_statements::memory::copy_of;
use plant_store_statements::read::read_rows;
use plant_store_statements::stored::Stored;
use plant_store_statements::texts;
use plant_types::limits::MAX_QUOTA;
use plant_types::{List, Moment, Person, Quota, Role, UnitCode};
use sqlite::{Alter, Connection, Error, Row, Transaction};
use std::alloc::Global;

/// A unit's own row in schema 1, which had no quota.
#[derive(Drop)]
pub struct OldUnitRow {
    pub last_s: Moment,
    pub matrix_no: u32,
    pub matrix_rev: u32,
}

/// A grant in schema 1, which had no end.
#[derive(Drop)]
pub struct OldGrantRow {
    pub person: Person,
    pub role_no: Role,
}

/// The code of a unit.
#[derive(Drop)]
pub struct CodeLine {
    pub unit: UnitCode,
}

impl Shown for OldUnitRow {
    ghost width = { 3 };

    ghost cells = { old_unit_shape.cells };

    fn from_row(_alloc: Global, row: &Row) -> Result<OldUnitRow, Error> {
        Ok(OldUnitRow {
            last_s: moment(row, 0)?,
            matrix_no: number(row, 1)?,
            matrix_rev: number(row, 2)?,
        })
    }
}

impl Shown for OldGrantRow {
    ghost width = { 2 };

    ghost cells = { old_grant_shape.cells };

    fn from_row(alloc: Global, row: &Row) -> Result<OldGrantRow, Error> {
        Ok(OldGrantRow {
            person: text(alloc, row, 0)?,
            role_no: coded(row, 1)?,
        })
    }
}

impl Shown for CodeLine {
    ghost width = { 1 };

    ghost cells = { λ l. TextValue l.unit ∷ [] };

    fn from_row(alloc: Global, row: &Row) -> Result<CodeLine, Error> {
        Ok(CodeLine {
            unit: text(alloc, row, 0)?,
        })
    }
}

/// A row of a store of schema 1.
pub trait OldRow: Shown {
    /// The row that it becomes in this schema.
    ghost becomes: { Self → AnyRow };

    /// The unit's rows in the tables.
    ghost had: { Name → Trees → List Self };

    /// The text that reads all rows of a unit.
    fn old_select() -> &'static str
        ensures { ReadsOldUnit Self.width Self.cells had result.now };

    /// Inserts the row that it becomes, as a new row.
    fn put<N: Alter>(
        &self,
        alloc: Global,
        tx: &mut Transaction<'_, N>,
        unit: &UnitCode,
    ) -> Result<(), Error>
        ensures same_reference { SameReference tx.old tx.new }
        ensures made { Writes N.Store tx.old tx.new unit.now (Put (becomes self.now) ∷ []) result }
        ensures stays { StaysOpen N.Store tx.old tx.new result };
}

/// A row of a table that is the same in schema 1.
pub trait Unchanged: Stored {
    /// The unit's rows in the tables of schema 1.
    ghost had_before: { Name → Trees → List Self };

    /// The text that reads all rows of a unit, in schema 1 too.
    fn same_select() -> &'static str
        ensures { ReadsOldUnit Self.width Self.cells had_before result.now };
}

impl OldRow for OldUnitRow {
    ghost becomes = { λ r. UnitPut (upgraded_unit r) };

    ghost had = { λ unit trees. old_rows unit trees Units };

    fn old_select() -> &'static str {
        texts::SELECT_OLD_UNITS
    }

    fn put<N: Alter>(
        &self,
        _alloc: Global,
        tx: &mut Transaction<'_, N>,
        unit: &UnitCode,
    ) -> Result<(), Error> {
        let row = UnitRow {
            last_s: self.last_s,
            matrix_no: self.matrix_no,
            matrix_rev: self.matrix_rev,
            quota: Quota::new(MAX_QUOTA).unwrap(),
        };
        row.insert(tx, unit)
    }
}

impl OldRow for OldGrantRow {
    ghost becomes = { λ g. GrantPut (upgraded_grant g) };

    ghost had = { λ unit trees. old_rows unit trees Grants };

    fn old_select() -> &'static str {
        texts::SELECT_OLD_GRANTS
    }

    fn put<N: Alter>(
        &self,
        alloc: Global,
        tx: &mut Transaction<'_, N>,
        unit: &UnitCode,
    ) -> Result<(), Error> {
        let row = GrantRow {
            person: copy_of(alloc, &self.person)?,
            role_no: self.role_no,
            end_s: None,
        };
        row.insert(tx, unit)
    }
}

impl<T: Unchanged> OldRow for T {
    ghost becomes = { T.as_row };

    ghost had = { T.had_before };

    fn old_select() -> &'static str {
        T::same_select()
    }

    fn put<N: Alter>(
        &self,
        _alloc: Global,
        tx: &mut Transaction<'_, N>,
        unit: &UnitCode,
    ) -> Result<(), Error> {
        self.insert(tx, unit)
    }
}

impl Unchanged for AlarmRow {
    ghost had_before = { λ unit trees. old_rows unit trees Alarms };

    fn same_select() -> &'static str {
        AlarmRow::select()
    }
}

impl Unchanged for ShelfRow {
    ghost had_before = { λ unit trees. old_rows unit trees Shelves };

    fn same_select() -> &'static str {
        ShelfRow::select()
    }
}

impl Unchanged for Event {
    ghost had_before = { λ unit trees. old_rows unit trees Events };

    fn same_select() -> &'static str {
        Event::select()
    }
}

impl Unchanged for BandRow {
    ghost had_before = { λ unit trees. old_rows unit trees Bands };

    fn same_select() -> &'static str {
        BandRow::select()
    }
}

impl Unchanged for CellRow {
    ghost had_before = { λ unit trees. old_rows unit trees Cells };

    fn same_select() -> &'static str {
        CellRow::select()
    }
}

impl Unchanged for RecordEntry {
    ghost had_before = { λ unit trees. old_rows unit trees Records };

    fn same_select() -> &'static str {
        RecordEntry::select()
    }
}

impl Unchanged for ChangeEntry {
    ghost had_before = { λ unit trees. old_rows unit trees Changes };

    fn same_select() -> &'static str {
        ChangeEntry::select()
    }
}

/// The codes of all units, in order.
pub fn old_codes_of<S: Alter>(
    alloc: Global,
    conn: &mut Connection<S>,
) -> Result<List<CodeLine>, Error>
    requires { HasNoTransaction conn.old }
    ensures mode { HasNoTransaction conn.new }
    ensures rows { LoadsOldCodes S.Store conn.old conn.new result }
    ensures reads { IsOnlyRead S.Store conn.old conn.new }
{
    read_rows(alloc, conn, texts::SELECT_OLD_CODES, &[])
}

/// All rows that the unit has in one table.
pub fn old_rows_of<T: OldRow, S: Alter>(
    alloc: Global,
    conn: &mut Connection<S>,
    unit: &UnitCode,
) -> Result<List<T>, Error>
    requires { HasNoTransaction conn.old }
    ensures mode { HasNoTransaction conn.new }
    ensures rows { LoadsOld S.Store conn.old conn.new (T.had unit.now) result }
    ensures reads { IsOnlyRead S.Store conn.old conn.new }
{
    read_rows(alloc, conn, T::old_select(), &single(unit))
}
