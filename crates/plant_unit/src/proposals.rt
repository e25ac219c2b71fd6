//! The refusals of calls on changes.

ghost use Rattle.std.specs.Prelude.{◌≡◌, option_copied};
ghost use Rattle.plant_types.specs.Results.{OnlyMemory};
ghost use Rattle.plant_ration.specs.declared.change.ChangeKind.TheVariants.{Matrix as MatrixKind};
ghost use Rattle.plant_model.specs.{Refusals.{first_refusal, kind_unknown}, Rows.{revision_of_limit}};
ghost use Rattle.plant_model.specs.steps.RowFacts.{facts_in, unit_read};
ghost use Rattle.plant_model.specs.declared.call.Request.TheVariants.{Propose};
ghost use Rattle.plant_unit.specs.{Additions.{AreKept}, FromFacts.{GivesFrom, RefusesAlways, RefusesFrom, refusal_of_kind}};
ghost use Rattle.plant_unit.specs.Judged.{IsRefusalOf, base_refusal, if_not_proposer, if_proposer, record_decision, sheet_decision};
ghost use Rattle.plant_model.specs.Refusals as refusals;
ghost use Rattle.plant_unit.specs.Readings as readings;

use crate::facts::alarm_of;
use crate::matrices::matrix_of;
use crate::reading::{revision_of, source_of};
use plant_model::{AlarmRow, ChangeEntry, Full, RecordEntry, Refused, UnitPart, UnitRow};
use plant_ration::{Cell, ChangeKind, ChangeState, Matrix, Proposal, Sheet};
use plant_types::limits::MAX_CHANGES;
use plant_types::{Fault, Person, Seconds, Tag};
use std::alloc::Global;

/// Whether the matrix has a row for the severity.
fn has_row(matrix: &Matrix, severity: u8) -> bool
    ensures { result ≡ refusals.has_row matrix.now severity }
{
    severity != 0 && severity as usize <= matrix.cells().len()
}

/// The priority of a sheet by a matrix. Refused if the matrix has no row for its severity, or if no alarm
/// is needed by it.
fn sheet_priority(matrix: &Matrix, severity: u8, response: Seconds) -> Result<Cell, Refused>
    ensures { result ≡ sheet_decision matrix.now severity response }
{
    match matrix.priority(severity, response) {
        None => Err(Refused::OutsideMatrix),
        Some(Cell::N) => Err(Refused::NotAnAlarm),
        Some(cell) => Ok(cell),
    }
}

/// The priority of a record by the matrix in force, or the first refusal for its base and its sheet.
pub fn record_priority(
    alloc: Global,
    unit: &UnitRow,
    part: &UnitPart,
    base: u32,
    tag: &Tag,
    sheet: &Sheet,
) -> Result<Result<Cell, Refused>, Fault>
    requires { unit_read part.now.rows ≡ unit.now }
    ensures value { GivesFrom part.now result (λ f. record_decision f base tag.now sheet.now) }
    ensures err { OnlyMemory result }
{
    let revision = revision_of(part, tag);
    if base != revision {
        return Ok(Err(Refused::BaseChanged(revision)));
    }
    match matrix_of(alloc, &part.rows, unit.matrix_no)? {
        None => Ok(Err(Refused::OutsideMatrix)),
        Some(matrix) => Ok(sheet_priority(&matrix, sheet.severity, sheet.response)),
    }
}

/// Whether the matrix has no row for the severity of the record.
#[tactic(auto, unfolding(crate::specs::Readings::is_outside))]
fn is_outside(part: &UnitPart, matrix: &Matrix, row: &RecordEntry) -> bool
    ensures { AreKept part.now → result ≡ readings.is_outside matrix.now part.now.rows row.now }
{
    match source_of(part, row) {
        None => false,
        Some(entry) => !has_row(matrix, entry.severity.unwrap_or(0)),
    }
}

/// Whether the matrix lacks a row for the severity of some record.
fn has_outside(part: &UnitPart, matrix: &Matrix) -> bool
    ensures { AreKept part.now → result ≡ readings.has_outside matrix.now (facts_in part.now) }
{
    for row in part.rows.records.as_slice() {
        if is_outside(part, matrix, row) {
            return true;
        }
    }
    false
}

/// The first refusal of a matrix, for its base and the severities in force, if any.
pub fn matrix_refusal(
    unit: &UnitRow,
    part: &UnitPart,
    base: u32,
    matrix: &Matrix,
) -> Option<Refused>
    requires { unit_read part.now.rows ≡ unit.now }
    ensures { AreKept part.now → result ≡ refusal_of_kind part.now base (MatrixKind matrix.now) }
{
    let revision = unit.matrix_rev;
    if base != revision {
        Some(Refused::BaseChanged(revision))
    } else if has_outside(part, matrix) {
        Some(Refused::OutsideMatrix)
    } else {
        None
    }
}

/// The refusal of a change of an alarm's limit, for its base, if any.
pub fn limit_refusal(alarm: Option<&AlarmRow>, base: u32) -> Option<Refused>
    ensures { result ≡ base_refusal base (revision_of_limit (option_copied alarm.entry)) }
{
    let revision = alarm.map_or(0, |alarm| alarm.limit_revision());
    if base != revision {
        Some(Refused::BaseChanged(revision))
    } else {
        None
    }
}

/// The first refusal of a change of this kind, for its base and its content, if any.
fn kind_refusal(
    alloc: Global,
    unit: &UnitRow,
    part: &UnitPart,
    base: u32,
    kind: &ChangeKind,
) -> Result<Option<Refused>, Fault>
    requires { unit_read part.now.rows ≡ unit.now }
    ensures value { RefusesFrom part.now base kind.now result }
    ensures err { OnlyMemory result }
{
    match kind {
        ChangeKind::Rationale(tag, sheet) => {
            Ok(record_priority(alloc, unit, part, base, tag, sheet)?.err())
        }
        ChangeKind::Matrix(matrix) => Ok(matrix_refusal(unit, part, base, matrix)),
        ChangeKind::Limit(tag, _) => {
            let alarm = alarm_of(part, tag);
            Ok(limit_refusal(alarm, base))
        }
    }
}

/// The refusal of a change of an alarm that does not exist, if any.
fn unknown_refusal(part: &UnitPart, kind: &ChangeKind) -> Option<Refused>
    ensures { result ≡ first_refusal (kind_unknown (facts_in part.now) kind.now) }
{
    match kind {
        ChangeKind::Rationale(tag, _) | ChangeKind::Limit(tag, _) => {
            if alarm_of(part, tag).is_some() {
                None
            } else {
                Some(Refused::AlarmUnknown)
            }
        }
        ChangeKind::Matrix(_) => None,
    }
}

/// The first refusal of a proposal, if any.
pub fn proposal_refusal(
    alloc: Global,
    unit: &UnitRow,
    part: &UnitPart,
    proposal: &Proposal,
) -> Result<Option<Refused>, Fault>
    requires { unit_read part.now.rows ≡ unit.now }
    ensures value { RefusesAlways part.now (λ u. Propose u proposal.now) result }
    ensures err { OnlyMemory result }
{
    if u64::from(part.count) >= MAX_CHANGES {
        return Ok(Some(Refused::UnitFull(Full::Changes)));
    }
    if let Some(refused) = unknown_refusal(part, &proposal.kind) {
        return Ok(Some(refused));
    }
    kind_refusal(alloc, unit, part, proposal.base, &proposal.kind)
}

/// The refusal of withdrawing a change, if any.
pub fn withdrawal_refusal(entry: &ChangeEntry, person: &Person) -> Option<Refused>
    ensures { IsRefusalOf entry.now (if_not_proposer person.now) result }
{
    match entry.state_no {
        ChangeState::Proposed if *person == entry.proposer => None,
        ChangeState::Proposed => Some(Refused::NotProposer),
        decided => Some(Refused::NotProposed(decided)),
    }
}

/// The refusal of approving or rejecting a change, if any: it has been decided already, or the caller proposed it.
pub fn decision_refusal(entry: &ChangeEntry, person: &Person) -> Option<Refused>
    ensures { IsRefusalOf entry.now (if_proposer person.now) result }
{
    match entry.state_no {
        ChangeState::Proposed if *person == entry.proposer => Some(Refused::SamePerson),
        ChangeState::Proposed => None,
        decided => Some(Refused::NotProposed(decided)),
    }
}
