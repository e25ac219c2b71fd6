//! Reads records and changes from the rows of a part.

ghost use Rattle.std.specs.Prelude.{◌≡◌, IfOk, option_copied, option_map};
ghost use Rattle.plant_types.specs.{KeyedRows.{row_at}, Names.{name_cmp}, Results.{Gives, OnlyMemory}};
ghost use Rattle.plant_model.specs.steps.RowFacts.{change_found, facts_in, record_from, record_tag};
ghost use Rattle.plant_model.specs.declared.rows.ChangeTopic.TheVariants.{Limit as LimitTopic, Matrix as MatrixTopic, Record as RecordTopic};
ghost use Rattle.plant_model.specs.declared.rows.UnitRows.{UnitRows as TheRows};
ghost use Rattle.plant_unit.specs.{FromFacts.{GivesFrom}, Readings.{change_whole, kind_found, sheet_found, source_found}};

use crate::matrices::matrix_of;
use plant_model::{
    ChangeEntry, ChangeRow, ChangeTopic, RecordEntry, RecordRow, UnitPart, UnitRows,
};
use plant_ration::{Cell, ChangeKind, Sheet};
use plant_types::{Fault, Tag, TryCopy};
use std::alloc::Global;

/// The row of an alarm's record, if any. It searches all rows, in whatever order they are.
pub fn record_of<'a>(part: &'a UnitPart, tag: &Tag) -> Option<&'a RecordEntry>
    ensures { option_copied result ≡ row_at name_cmp record_tag tag.now part.now.rows.records }
{
    part.rows.records.get(tag)
}

/// The row of the change with a number, if any.
pub fn entry_of<'a>(part: &'a UnitPart, number: u32) -> Option<&'a ChangeEntry>
    ensures { option_copied result ≡ change_found part.now.rows number }
{
    part.rows.changes.get(&number)
}

/// The row of the change that a record came from.
pub fn source_of<'a>(part: &'a UnitPart, row: &RecordEntry) -> Option<&'a ChangeEntry>
    ensures { option_copied result ≡ source_found part.now.rows row.now }
{
    part.rows.changes.get(&row.change_no)
}

/// How many changes of an alarm's record were approved.
pub fn revision_of(part: &UnitPart, tag: &Tag) -> u32
    ensures { result ≡ (facts_in part.now).revision tag.now }
{
    record_of(part, tag).map_or(0, |row| row.rev)
}

/// The priority of an alarm, if it has a record. The record is looked for at the place `next` first.
pub fn priority_next(part: &UnitPart, next: &mut usize, tag: &Tag) -> Option<Cell>
    ensures { result ≡ (facts_in part.now).priority tag.now }
{
    part.rows.records.get_next(next, tag).map(|row| row.cell_no)
}

/// The sheet of a change, if none of its columns is missing.
fn sheet_of(alloc: Global, entry: &ChangeEntry) -> Result<Option<Sheet>, Fault>
    ensures value { IfOk result (λ sheet. sheet ≡ sheet_found entry.now) }
    ensures err { OnlyMemory result }
{
    let (Some(cause), Some(consequence), Some(action), Some(severity), Some(response)) = (
        &entry.cause,
        &entry.consequence,
        &entry.remedy,
        entry.severity,
        entry.response_s,
    ) else {
        return Ok(None);
    };
    Ok(Some(Sheet {
        cause: cause.copy(alloc)?,
        consequence: consequence.copy(alloc)?,
        action: action.copy(alloc)?,
        severity,
        response,
    }))
}

/// The record from its row and the change that it came from, if that is a change of a record.
pub fn rationale_from(
    alloc: Global,
    row: &RecordEntry,
    entry: &ChangeEntry,
) -> Result<Option<RecordRow>, Fault>
    ensures value { Gives result (option_map (record_from row.now) (sheet_found entry.now)) }
    ensures err { OnlyMemory result }
{
    let Some(sheet) = sheet_of(alloc, entry)? else {
        return Ok(None);
    };
    Ok(Some(RecordRow {
        tag: row.tag.copy(alloc)?,
        change: row.change_no,
        revision: row.rev,
        cause: sheet.cause,
        consequence: sheet.consequence,
        action: sheet.action,
        severity: sheet.severity,
        response: sheet.response,
        priority: row.cell_no,
    }))
}

/// The record of an alarm.
pub fn rationale_of(alloc: Global, part: &UnitPart, tag: &Tag) -> Result<Option<RecordRow>, Fault>
    ensures value { GivesFrom part.now result (λ f. f.rationale tag.now) }
    ensures err { OnlyMemory result }
{
    let Some(row) = record_of(part, tag) else {
        return Ok(None);
    };
    let Some(entry) = source_of(part, row) else {
        return Ok(None);
    };
    rationale_from(alloc, row, entry)
}

fn record_kind(alloc: Global, entry: &ChangeEntry) -> Result<Option<ChangeKind>, Fault>
    ensures value { (rows : TheRows) → Gives result (kind_found rows entry.now RecordTopic) }
    ensures err { OnlyMemory result }
{
    let Some(tag) = &entry.tag else {
        return Ok(None);
    };
    let Some(sheet) = sheet_of(alloc, entry)? else {
        return Ok(None);
    };
    Ok(Some(ChangeKind::Rationale(tag.copy(alloc)?, sheet)))
}

fn matrix_kind(
    alloc: Global,
    rows: &UnitRows,
    entry: &ChangeEntry,
) -> Result<Option<ChangeKind>, Fault>
    ensures value { Gives result (kind_found rows.now entry.now MatrixTopic) }
    ensures err { OnlyMemory result }
{
    Ok(matrix_of(alloc, rows, entry.number)?.map(ChangeKind::Matrix))
}

fn limit_kind(alloc: Global, entry: &ChangeEntry) -> Result<Option<ChangeKind>, Fault>
    ensures value { (rows : TheRows) → Gives result (kind_found rows entry.now LimitTopic) }
    ensures err { OnlyMemory result }
{
    let (Some(tag), Some(max)) = (&entry.tag, entry.max_s) else {
        return Ok(None);
    };
    Ok(Some(ChangeKind::Limit(tag.copy(alloc)?, max)))
}

/// What a change changes, and to what, if nothing of it is missing.
fn kind_of(alloc: Global, rows: &UnitRows, entry: &ChangeEntry) -> Result<Option<ChangeKind>, Fault>
    ensures value { Gives result (kind_found rows.now entry.now entry.now.kind_no) }
    ensures err { OnlyMemory result }
{
    match entry.kind_no {
        ChangeTopic::Record => record_kind(alloc, entry),
        ChangeTopic::Matrix => matrix_kind(alloc, rows, entry),
        ChangeTopic::Limit => limit_kind(alloc, entry),
    }
}

/// The change from its row, if nothing of it is missing.
pub fn change_from(
    alloc: Global,
    rows: &UnitRows,
    entry: &ChangeEntry,
) -> Result<Option<ChangeRow>, Fault>
    ensures value { IfOk result (λ change. change ≡ change_whole rows.now entry.now) }
    ensures err { OnlyMemory result }
{
    let Some(kind) = kind_of(alloc, rows, entry)? else {
        return Ok(None);
    };
    Ok(Some(ChangeRow {
        number: entry.number,
        kind,
        base: entry.base,
        proposer: entry.proposer.copy(alloc)?,
        proposed: entry.proposed_s,
        state: entry.state_no,
        decider: entry.decider.copy(alloc)?,
        decided: entry.decided_s,
    }))
}

/// The change with a number.
pub fn change_of(alloc: Global, part: &UnitPart, number: u32) -> Result<Option<ChangeRow>, Fault>
    ensures value { GivesFrom part.now result (λ f. f.change number) }
    ensures err { OnlyMemory result }
{
    match entry_of(part, number) {
        None => Ok(None),
        Some(entry) => change_from(alloc, &part.rows, entry),
    }
}
