//! Copies of rows, keys and changes, and the rows of a unit that was never opened. A copy fails only when memory
//! runs out.
//!
//! Copies of rows of which a unit has thousands are inlined into copies of whole lists: that halves the instructions,
//! since a row that a function returns is moved several times.

ghost use Rattle.std.specs.Prelude.{◌≡◌, IfOk, OnOk};
ghost use Rattle.plant_model.specs.steps.RowChanges.{no_rows};
ghost use Rattle.plant_types.specs.Results.{OnlyMemory};

use crate::{
    AlarmRow, BandRow, CellRow, ChangeEntry, GrantRow, Key, RecordEntry, Row, RowEdit, ShelfRow,
    UnitRow, UnitRows,
};
use plant_types::{Fault, List, Sorted, TryCopy};
use std::alloc::Global;

impl UnitRows {
    /// Tables without rows, as for a unit before its opening. It takes no memory.
    pub fn none(alloc: Global) -> UnitRows
        ensures { result ≡ no_rows }
    {
        UnitRows {
            units: List::new(alloc),
            grants: Sorted::new(alloc),
            alarms: Sorted::new(alloc),
            shelves: Sorted::new(alloc),
            events: Sorted::new(alloc),
            bands: Sorted::new(alloc),
            cells: Sorted::new(alloc),
            records: Sorted::new(alloc),
            changes: Sorted::new(alloc),
        }
    }
}

/// Copies of three values. The prover treats each value owned at a copy that can fail, so few are owned here.
fn copy_three<A: TryCopy, B: TryCopy, C: TryCopy>(
    alloc: Global,
    first: &A,
    second: &B,
    third: &C,
) -> Result<(A, B, C), Fault>
    ensures value { IfOk result (λ same. (same.0 ≡ first.now)
        × (same.1 ≡ second.now) × (same.2 ≡ third.now)) }
    ensures memory { OnlyMemory result }
{
    Ok((first.copy(alloc)?, second.copy(alloc)?, third.copy(alloc)?))
}

/// Replaces the rows with copies of others, list by list. The prover treats each list owned at a copy that can fail;
/// this function owns none of the nine.
fn copy_over(alloc: Global, rows: &UnitRows, copies: &mut UnitRows) -> Result<(), Fault>
    ensures value { OnOk result (copies.new ≡ rows.now) }
    ensures memory { OnlyMemory result }
{
    copies.units = rows.units.copy(alloc)?;
    copies.grants = rows.grants.copy(alloc)?;
    copies.alarms = rows.alarms.copy(alloc)?;
    copies.shelves = rows.shelves.copy(alloc)?;
    copies.events = rows.events.copy(alloc)?;
    copies.bands = rows.bands.copy(alloc)?;
    copies.cells = rows.cells.copy(alloc)?;
    copies.records = rows.records.copy(alloc)?;
    copies.changes = rows.changes.copy(alloc)?;
    Ok(())
}

impl TryCopy for UnitRows {
    fn copy(&self, alloc: Global) -> Result<UnitRows, Fault> {
        let mut copies = UnitRows::none(alloc);
        copy_over(alloc, self, &mut copies)?;
        Ok(copies)
    }
}

impl TryCopy for UnitRow {
    fn copy(&self, _alloc: Global) -> Result<UnitRow, Fault> {
        Ok(*self)
    }
}

impl TryCopy for GrantRow {
    fn copy(&self, alloc: Global) -> Result<GrantRow, Fault> {
        Ok(GrantRow {
            person: self.person.copy(alloc)?,
            role_no: self.role_no,
            end_s: self.end_s,
        })
    }
}

impl TryCopy for AlarmRow {
    #[inline(always)]
    fn copy(&self, alloc: Global) -> Result<AlarmRow, Fault> {
        Ok(AlarmRow {
            tag: self.tag.copy(alloc)?,
            latching: self.latching,
            max_s: self.max_s,
            max_rev: self.max_rev,
            state_no: self.state_no,
            suppressed: self.suppressed,
            active_s: self.active_s,
            return_s: self.return_s,
            out_s: self.out_s,
            out_by: self.out_by.copy(alloc)?,
            out_words: self.out_words.copy(alloc)?,
        })
    }
}

impl TryCopy for ShelfRow {
    #[inline(always)]
    fn copy(&self, alloc: Global) -> Result<ShelfRow, Fault> {
        Ok(ShelfRow {
            tag: self.tag.copy(alloc)?,
            one_shot: self.one_shot,
            start_s: self.start_s,
            until_s: self.until_s,
            person: self.person.copy(alloc)?,
            words: self.words.copy(alloc)?,
        })
    }
}

impl TryCopy for BandRow {
    fn copy(&self, _alloc: Global) -> Result<BandRow, Fault> {
        Ok(*self)
    }
}

impl TryCopy for CellRow {
    fn copy(&self, _alloc: Global) -> Result<CellRow, Fault> {
        Ok(*self)
    }
}

impl TryCopy for RecordEntry {
    #[inline(always)]
    fn copy(&self, alloc: Global) -> Result<RecordEntry, Fault> {
        Ok(RecordEntry {
            tag: self.tag.copy(alloc)?,
            change_no: self.change_no,
            rev: self.rev,
            cell_no: self.cell_no,
        })
    }
}

impl TryCopy for ChangeEntry {
    fn copy(&self, alloc: Global) -> Result<ChangeEntry, Fault> {
        let (proposer, tag, decider) = copy_three(alloc, &self.proposer, &self.tag, &self.decider)?;
        let (cause, consequence, remedy) = copy_three(
            alloc,
            &self.cause,
            &self.consequence,
            &self.remedy,
        )?;
        Ok(ChangeEntry {
            number: self.number,
            proposer,
            proposed_s: self.proposed_s,
            kind_no: self.kind_no,
            tag,
            base: self.base,
            cause,
            consequence,
            remedy,
            severity: self.severity,
            response_s: self.response_s,
            max_s: self.max_s,
            state_no: self.state_no,
            decider,
            decided_s: self.decided_s,
        })
    }
}

impl TryCopy for Row {
    fn copy(&self, alloc: Global) -> Result<Row, Fault> {
        Ok(match self {
            Row::Unit(row) => Row::Unit(*row),
            Row::Grant(row) => Row::Grant(row.copy(alloc)?),
            Row::Alarm(row) => Row::Alarm(row.copy(alloc)?),
            Row::Shelf(row) => Row::Shelf(row.copy(alloc)?),
            Row::Event(row) => Row::Event(row.copy(alloc)?),
            Row::Band(row) => Row::Band(*row),
            Row::Cell(row) => Row::Cell(*row),
            Row::Record(row) => Row::Record(row.copy(alloc)?),
            Row::Change(row) => Row::Change(row.copy(alloc)?),
        })
    }
}

impl TryCopy for Key {
    fn copy(&self, alloc: Global) -> Result<Key, Fault> {
        Ok(match self {
            Key::Grant(person, role) => Key::Grant(person.copy(alloc)?, *role),
            Key::Shelf(tag) => Key::Shelf(tag.copy(alloc)?),
        })
    }
}

impl TryCopy for RowEdit {
    fn copy(&self, alloc: Global) -> Result<RowEdit, Fault> {
        Ok(match self {
            RowEdit::Put(row) => RowEdit::Put(row.copy(alloc)?),
            RowEdit::PutEvents(events) => RowEdit::PutEvents(events.copy(alloc)?),
            RowEdit::Remove(key) => RowEdit::Remove(key.copy(alloc)?),
        })
    }
}
