//! The tables, each described once: the statements that read its rows and that write one.

ghost use Rattle.std.specs.Prelude.{◌≡◌, ◌∷◌, [], ℕ, List, true};
ghost use Rattle.sqlite.specs.Tree.{Trees};
ghost use Rattle.plant_store_columns.specs.declared.tables.TableKind.TheVariants.{Alarms, Bands, Cells, Changes, Events, Grants, Records, Shelves, Units};
ghost use Rattle.plant_store_columns.specs.Tables.{rows_seen};
ghost use Rattle.plant_model.specs.declared.rows.Row.{Row as AnyRow};
ghost use Rattle.plant_model.specs.steps.Keys.{has_key};
ghost use Rattle.plant_model.specs.declared.rows.Row.TheVariants.{Alarm as AlarmPut, Band as BandPut, Cell as CellPut, Change as ChangePut, Event as EventPut, Grant as GrantPut, Record as RecordPut, Shelf as ShelfPut, Unit as UnitPut};
ghost use Rattle.plant_model.specs.declared.rows.RowEdit.TheVariants.{Put};
ghost use Rattle.plant_store_statements.specs.{Statements.{ReadsNumber, ReadsTag, ReadsUnit}, Texts.{rows_text}};
ghost use Rattle.plant_store_statements.specs.Writing.{SameReference, StaysOpen, Updates, Writes};
ghost use Rattle.plant_types.specs.Names.{Name};

use crate::texts;
use crate::write::{remove_grant, remove_shelf, run, run_counting};
use plant_alarm::Event;
use plant_books::Numbered;
use plant_model::{
    AlarmRow, BandRow, CellRow, ChangeEntry, GrantRow, RecordEntry, ShelfRow, UnitRow, UnitRows,
    stands,
};
use plant_store_columns::decode::Shown;
use plant_store_columns::encode::{
    alarm_cells, band_cells, cell_cells, change_cells, event_cells, grant_cells, record_cells,
    shelf_cells, unit_cells, wide,
};
use plant_types::{Keyed, Tag, UnitCode};
use sqlite::{Alter, Error, Transaction};

/// A row of a table.
pub trait Stored: Shown {
    /// The unit's rows in the tables.
    ghost seen: { Name → Trees → List Self };

    /// The row in the form in which changes have it.
    ghost as_row: { Self → AnyRow };

    ghost select_text: { List ℕ };

    /// The text that reads all rows of a unit, in the order of their keys.
    fn select() -> &'static str
        ensures reads { ReadsUnit Self.width Self.cells seen result.now }
        ensures text { result.now ≡ select_text };

    /// Whether one of these rows of the unit may have the row's key. False only if none has it.
    fn has_key_in(&self, rows: &UnitRows) -> bool
        ensures { has_key (as_row self.now) rows.now ≡ true → result ≡ true }
    {
        let _rows = rows;
        true
    }

    /// Replaces the row with the same key, if any, and returns how many rows were written. In a table whose rows never
    /// change that is 0.
    #[tactic(auto, using(crate::proofs::public::Writes::applies_none))]
    fn update<S: Alter>(&self, tx: &mut Transaction<'_, S>, unit: &UnitCode) -> Result<usize, Error>
        ensures same_reference { SameReference tx.old tx.new }
        ensures made { Updates S.Store tx.old tx.new unit.now (Put (as_row self.now)) result }
        ensures stays { StaysOpen S.Store tx.old tx.new result }
    {
        Ok(0)
    }

    /// Inserts the row as a new one. Fails if a row with its key exists.
    fn insert<S: Alter>(&self, tx: &mut Transaction<'_, S>, unit: &UnitCode) -> Result<(), Error>
        ensures same_reference { SameReference tx.old tx.new }
        ensures made { Writes S.Store tx.old tx.new unit.now (Put (as_row self.now) ∷ []) result }
        ensures stays { StaysOpen S.Store tx.old tx.new result };
}

/// A row of a table whose key is a tag.
pub trait StoredByTag: Stored + Keyed<Key = Tag> {
    /// The text that reads the unit's row with a tag.
    fn select_of_tag() -> &'static str
        ensures { ReadsTag Self.width Self.cells Self.seen Self.key result.now };
}

/// A row of a table whose key begins with a number: that of a matrix, or of a change.
pub trait StoredByNumber: Stored + Numbered {
    /// The text that reads the unit's rows with a number.
    fn select_of_number() -> &'static str
        ensures { ReadsNumber Self.width Self.cells Self.seen Self.number result.now };
}

impl Stored for UnitRow {
    ghost seen = { λ unit trees. rows_seen unit trees Units };

    ghost as_row = { UnitPut };

    ghost select_text = { rows_text Units };

    fn select() -> &'static str {
        texts::SELECT_UNITS
    }

    fn update<S: Alter>(
        &self,
        tx: &mut Transaction<'_, S>,
        unit: &UnitCode,
    ) -> Result<usize, Error> {
        run_counting(tx, texts::UPDATE_UNIT, &unit_cells(unit, self))
    }

    #[tactic(auto, using(crate::proofs::StoredLaws::unit_new))]
    fn insert<S: Alter>(&self, tx: &mut Transaction<'_, S>, unit: &UnitCode) -> Result<(), Error> {
        run(tx, texts::INSERT_UNIT, &unit_cells(unit, self))
    }
}

impl Stored for GrantRow {
    ghost seen = { λ unit trees. rows_seen unit trees Grants };

    ghost as_row = { GrantPut };

    ghost select_text = { rows_text Grants };

    fn select() -> &'static str {
        texts::SELECT_GRANTS
    }

    fn has_key_in(&self, rows: &UnitRows) -> bool {
        stands(rows.grants.as_slice(), &self.person, self.role_no)
    }

    fn update<S: Alter>(
        &self,
        tx: &mut Transaction<'_, S>,
        unit: &UnitCode,
    ) -> Result<usize, Error> {
        remove_grant(tx, unit, &self.person, self.role_no)?;
        self.insert(tx, unit)?;
        Ok(1)
    }

    #[tactic(auto, using(crate::proofs::StoredLaws::grant_new))]
    fn insert<S: Alter>(&self, tx: &mut Transaction<'_, S>, unit: &UnitCode) -> Result<(), Error> {
        run(tx, texts::INSERT_GRANT, &grant_cells(unit, self))
    }
}

impl Stored for AlarmRow {
    ghost seen = { λ unit trees. rows_seen unit trees Alarms };

    ghost as_row = { AlarmPut };

    ghost select_text = { rows_text Alarms };

    fn select() -> &'static str {
        texts::SELECT_ALARMS
    }

    #[tactic(auto, using(crate::proofs::StoredLaws::found_there))]
    fn has_key_in(&self, rows: &UnitRows) -> bool {
        rows.alarms.get(&self.tag).is_some()
    }

    fn update<S: Alter>(
        &self,
        tx: &mut Transaction<'_, S>,
        unit: &UnitCode,
    ) -> Result<usize, Error> {
        run_counting(tx, texts::UPDATE_ALARM, &alarm_cells(unit, self))
    }

    #[tactic(auto, using(crate::proofs::StoredLaws::alarm_new))]
    fn insert<S: Alter>(&self, tx: &mut Transaction<'_, S>, unit: &UnitCode) -> Result<(), Error> {
        run(tx, texts::INSERT_ALARM, &alarm_cells(unit, self))
    }
}

impl StoredByTag for AlarmRow {
    fn select_of_tag() -> &'static str {
        texts::SELECT_ALARM
    }
}

impl Stored for ShelfRow {
    ghost seen = { λ unit trees. rows_seen unit trees Shelves };

    ghost as_row = { ShelfPut };

    ghost select_text = { rows_text Shelves };

    fn select() -> &'static str {
        texts::SELECT_SHELVES
    }

    #[tactic(auto, using(crate::proofs::StoredLaws::found_there))]
    fn has_key_in(&self, rows: &UnitRows) -> bool {
        rows.shelves.get(&self.tag).is_some()
    }

    fn update<S: Alter>(
        &self,
        tx: &mut Transaction<'_, S>,
        unit: &UnitCode,
    ) -> Result<usize, Error> {
        remove_shelf(tx, unit, &self.tag)?;
        self.insert(tx, unit)?;
        Ok(1)
    }

    #[tactic(auto, using(crate::proofs::StoredLaws::shelf_new))]
    fn insert<S: Alter>(&self, tx: &mut Transaction<'_, S>, unit: &UnitCode) -> Result<(), Error> {
        let until = wide(self.until_s)?;
        run(tx, texts::INSERT_SHELF, &shelf_cells(unit, self, until))
    }
}

impl StoredByTag for ShelfRow {
    fn select_of_tag() -> &'static str {
        texts::SELECT_SHELF
    }
}

impl Stored for BandRow {
    ghost seen = { λ unit trees. rows_seen unit trees Bands };

    ghost as_row = { BandPut };

    ghost select_text = { rows_text Bands };

    fn select() -> &'static str {
        texts::SELECT_BANDS
    }

    #[tactic(auto, using(crate::proofs::StoredLaws::band_new))]
    fn insert<S: Alter>(&self, tx: &mut Transaction<'_, S>, unit: &UnitCode) -> Result<(), Error> {
        let limit = wide(self.limit_s)?;
        run(tx, texts::INSERT_BAND, &band_cells(unit, self, limit))
    }
}

impl StoredByNumber for BandRow {
    fn select_of_number() -> &'static str {
        texts::SELECT_MATRIX_BANDS
    }
}

impl Stored for CellRow {
    ghost seen = { λ unit trees. rows_seen unit trees Cells };

    ghost as_row = { CellPut };

    ghost select_text = { rows_text Cells };

    fn select() -> &'static str {
        texts::SELECT_CELLS
    }

    #[tactic(auto, using(crate::proofs::StoredLaws::cell_new))]
    fn insert<S: Alter>(&self, tx: &mut Transaction<'_, S>, unit: &UnitCode) -> Result<(), Error> {
        run(tx, texts::INSERT_CELL, &cell_cells(unit, self))
    }
}

impl StoredByNumber for CellRow {
    fn select_of_number() -> &'static str {
        texts::SELECT_MATRIX_CELLS
    }
}

impl Stored for Event {
    ghost seen = { λ unit trees. rows_seen unit trees Events };

    ghost as_row = { EventPut };

    ghost select_text = { rows_text Events };

    fn select() -> &'static str {
        texts::SELECT_EVENTS
    }

    #[tactic(auto, using(crate::proofs::StoredLaws::event_new))]
    fn insert<S: Alter>(&self, tx: &mut Transaction<'_, S>, unit: &UnitCode) -> Result<(), Error> {
        run(tx, texts::INSERT_EVENT, &event_cells(unit, self))
    }
}

impl Stored for RecordEntry {
    ghost seen = { λ unit trees. rows_seen unit trees Records };

    ghost as_row = { RecordPut };

    ghost select_text = { rows_text Records };

    fn select() -> &'static str {
        texts::SELECT_RECORDS
    }

    #[tactic(auto, using(crate::proofs::StoredLaws::found_there))]
    fn has_key_in(&self, rows: &UnitRows) -> bool {
        rows.records.get(&self.tag).is_some()
    }

    fn update<S: Alter>(
        &self,
        tx: &mut Transaction<'_, S>,
        unit: &UnitCode,
    ) -> Result<usize, Error> {
        run_counting(tx, texts::UPDATE_RECORD, &record_cells(unit, self))
    }

    #[tactic(auto, using(crate::proofs::StoredLaws::record_new))]
    fn insert<S: Alter>(&self, tx: &mut Transaction<'_, S>, unit: &UnitCode) -> Result<(), Error> {
        run(tx, texts::INSERT_RECORD, &record_cells(unit, self))
    }
}

impl StoredByTag for RecordEntry {
    fn select_of_tag() -> &'static str {
        texts::SELECT_RECORD
    }
}

impl Stored for ChangeEntry {
    ghost seen = { λ unit trees. rows_seen unit trees Changes };

    ghost as_row = { ChangePut };

    ghost select_text = { rows_text Changes };

    fn select() -> &'static str {
        texts::SELECT_CHANGES
    }

    #[tactic(auto, using(crate::proofs::StoredLaws::found_there))]
    fn has_key_in(&self, rows: &UnitRows) -> bool {
        rows.changes.get(&self.number).is_some()
    }

    fn update<S: Alter>(
        &self,
        tx: &mut Transaction<'_, S>,
        unit: &UnitCode,
    ) -> Result<usize, Error> {
        run_counting(tx, texts::UPDATE_CHANGE, &change_cells(unit, self))
    }

    #[tactic(auto, using(crate::proofs::StoredLaws::change_new))]
    fn insert<S: Alter>(&self, tx: &mut Transaction<'_, S>, unit: &UnitCode) -> Result<(), Error> {
        run(tx, texts::INSERT_CHANGE, &change_cells(unit, self))
    }
}

impl StoredByNumber for ChangeEntry {
    fn select_of_number() -> &'static str {
        texts::SELECT_CHANGE
    }
}
