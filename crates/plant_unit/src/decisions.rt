//! Proposing changes, and deciding on them: withdrawing, rejecting, and approving, which brings them into force.

ghost use Rattle.std.specs.Prelude.{◌≡◌, ◌<◌, ◌+◌, ◌++◌, IfOk, None};
ghost use Rattle.plant_types.specs.Results.{Gives, OnlyMemory};
ghost use Rattle.plant_ration.specs.declared.change.ChangeKind.TheVariants.{Limit, Matrix as MatrixKind, Rationale};
ghost use Rattle.plant_model.specs.{Changes.{priority_by}, Rows.{change_entry}};
ghost use Rattle.plant_model.specs.steps.{RowChanges.{in_force, kind_row}, RowFacts.{facts_in, unit_read}};
ghost use Rattle.plant_model.specs.declared.call.Request.TheVariants.{Approve, Propose, Reject, WithdrawChange};
ghost use Rattle.plant_unit.specs.{Additions.{AreKept}, Deciding.{GivesRerated, decided_put, rerated_puts}};
ghost use Rattle.plant_unit.specs.FromFacts.{AddsFrom, AddsProposal, ApprovesFrom, DecidesFrom, JudgesFrom, RefusesFrom, refusal_of_kind};
ghost use Rattle.plant_model.specs.Rows as rows;
ghost use Rattle.plant_unit.specs.Deciding as deciding;

use crate::facts::alarm_of;
use crate::matrices::push_matrix;
use crate::proposals::{
    decision_refusal, limit_refusal, matrix_refusal, proposal_refusal, record_priority,
    withdrawal_refusal,
};
use crate::reading::{change_from, entry_of, source_of};
use crate::verdicts::unit_change;
use plant_model::{
    AlarmRow, Call, ChangeEntry, ChangeRow, ChangeTopic, RecordEntry, Refused, Reply, Row, RowEdit,
    UnitPart, UnitRow, Verdict,
};
use plant_ration::{Cell, ChangeKind, ChangeState, Matrix, Proposal, Sheet};
use plant_types::{Fault, List, Moment, Person, Seconds, Tag, TryCopy, Words};
use std::alloc::Global;

fn topic(kind: &ChangeKind) -> ChangeTopic
    ensures { result ≡ rows.topic_of kind.now }
{
    match kind {
        ChangeKind::Rationale(..) => ChangeTopic::Record,
        ChangeKind::Matrix(_) => ChangeTopic::Matrix,
        ChangeKind::Limit(..) => ChangeTopic::Limit,
    }
}

/// The columns of a change's row that depend on its kind. Columns that the kind does not have are `None`.
#[derive(Drop)]
struct KindColumns {
    tag: Option<Tag>,
    cause: Option<Words>,
    consequence: Option<Words>,
    remedy: Option<Words>,
    severity: Option<u8>,
    response_s: Option<Seconds>,
    max_s: Option<Seconds>,
}

fn kind_columns(alloc: Global, kind: &ChangeKind) -> Result<KindColumns, Fault>
    ensures value { Gives result (deciding.kind_columns kind.now) }
    ensures err { OnlyMemory result }
{
    match kind {
        ChangeKind::Rationale(tag, sheet) => Ok(KindColumns {
            tag: Some(tag.copy(alloc)?),
            cause: Some(sheet.cause.copy(alloc)?),
            consequence: Some(sheet.consequence.copy(alloc)?),
            remedy: Some(sheet.action.copy(alloc)?),
            severity: Some(sheet.severity),
            response_s: Some(sheet.response),
            max_s: None,
        }),
        ChangeKind::Matrix(_) => Ok(KindColumns {
            tag: None,
            cause: None,
            consequence: None,
            remedy: None,
            severity: None,
            response_s: None,
            max_s: None,
        }),
        ChangeKind::Limit(tag, max) => Ok(KindColumns {
            tag: Some(tag.copy(alloc)?),
            cause: None,
            consequence: None,
            remedy: None,
            severity: None,
            response_s: None,
            max_s: Some(*max),
        }),
    }
}

/// The row of the change with this number that a call proposes.
fn proposed_entry(
    alloc: Global,
    number: u32,
    call: &Call,
    proposal: &Proposal,
) -> Result<ChangeEntry, Fault>
    ensures value { Gives result (deciding.proposed_entry number call.now proposal.now) }
    ensures err { OnlyMemory result }
{
    let proposer = call.person.copy(alloc)?;
    let columns = kind_columns(alloc, &proposal.kind)?;
    Ok(ChangeEntry {
        number,
        proposer,
        proposed_s: call.moment,
        kind_no: topic(&proposal.kind),
        tag: columns.tag,
        base: proposal.base,
        cause: columns.cause,
        consequence: columns.consequence,
        remedy: columns.remedy,
        severity: columns.severity,
        response_s: columns.response_s,
        max_s: columns.max_s,
        state_no: ChangeState::Proposed,
        decider: None,
        decided_s: None,
    })
}

/// The number of the next change. If there are 4,294,967,295 changes already, it is that number.
fn next_number(part: &UnitPart) -> u32
    ensures { part.now.count < 4294967295 → result ≡ part.now.count + 1 }
{
    part.count.saturating_add(1)
}

/// Appends the changes of a proposal: its row, and the rows of the matrix if it proposes one.
fn push_proposal(
    alloc: Global,
    changes: &mut List<RowEdit>,
    part: &UnitPart,
    call: &Call,
    proposal: &Proposal,
) -> Result<(), Fault>
    ensures value { AddsProposal part.now call.now proposal.now changes.old changes.new result }
    ensures err { OnlyMemory result }
{
    let number = next_number(part);
    let entry = proposed_entry(alloc, number, call, proposal)?;
    changes.push(RowEdit::Put(Row::Change(entry)))?;
    match &proposal.kind {
        ChangeKind::Matrix(matrix) => push_matrix(changes, number, matrix),
        _ => Ok(()),
    }
}

/// The row of a change that the caller decides.
fn decision_put(
    alloc: Global,
    entry: &ChangeEntry,
    state: ChangeState,
    call: &Call,
) -> Result<RowEdit, Fault>
    ensures value { Gives result (decided_put state call.now entry.now) }
    ensures err { OnlyMemory result }
{
    let mut row = entry.copy(alloc)?;
    row.state_no = state;
    row.decider = Some(call.person.copy(alloc)?);
    row.decided_s = Some(call.moment);
    Ok(RowEdit::Put(Row::Change(row)))
}

/// Withdraws a change.
pub fn withdraw_change(
    alloc: Global,
    part: &UnitPart,
    call: &Call,
    number: u32,
) -> Result<Result<RowEdit, Refused>, Fault>
    ensures value { DecidesFrom part.now call.now (λ u. WithdrawChange u number) result }
    ensures err { OnlyMemory result }
{
    let Some(entry) = entry_of(part, number) else {
        return Ok(Err(Refused::ChangeUnknown));
    };
    if let Some(refused) = withdrawal_refusal(entry, &call.person) {
        return Ok(Err(refused));
    }
    Ok(Ok(decision_put(alloc, entry, ChangeState::Withdrawn, call)?))
}

/// Rejects a change.
pub fn reject(
    alloc: Global,
    part: &UnitPart,
    call: &Call,
    number: u32,
) -> Result<Result<RowEdit, Refused>, Fault>
    ensures value { DecidesFrom part.now call.now (λ u. Reject u number) result }
    ensures err { OnlyMemory result }
{
    let Some(entry) = entry_of(part, number) else {
        return Ok(Err(Refused::ChangeUnknown));
    };
    if let Some(refused) = decision_refusal(entry, &call.person) {
        return Ok(Err(refused));
    }
    Ok(Ok(decision_put(alloc, entry, ChangeState::Rejected, call)?))
}

/// The cell of a severity and a time to respond. `N`, which means that no alarm is needed, if the matrix has none.
fn cell_by(matrix: &Matrix, severity: u8, response: Seconds) -> Cell
    ensures { result ≡ priority_by matrix.now severity response }
{
    matrix.priority(severity, response).unwrap_or(Cell::N)
}

/// The record that a change proposes: the tag of its alarm, and its sheet.
#[derive(Clone, Copy)]
struct ProposedRecord<'a> {
    tag: &'a Tag,
    sheet: &'a Sheet,
}

/// Appends the change of a record that comes into force, or returns the first refusal for its base
/// and its sheet.
fn push_record(
    alloc: Global,
    changes: &mut List<RowEdit>,
    unit: &UnitRow,
    part: &UnitPart,
    change: &ChangeRow,
    proposed: ProposedRecord<'_>,
) -> Result<Option<Refused>, Fault>
    requires { unit_read part.now.rows ≡ unit.now }
    ensures refused { RefusesFrom part.now change.now.base
        (Rationale proposed.entry.tag.now proposed.entry.sheet.now) result }
    ensures added { AreKept part.now → IfOk result (λ r. r ≡ None
        → changes.new ≡ changes.old
        ++ in_force (facts_in part.now) change.now.number (Rationale proposed.entry.tag.now proposed.entry.sheet.now)) }
    ensures err { OnlyMemory result }
{
    let ProposedRecord { tag, sheet } = proposed;
    let cell_no = match record_priority(alloc, unit, part, change.base, tag, sheet)? {
        Err(refused) => return Ok(Some(refused)),
        Ok(cell) => cell,
    };
    changes.push(RowEdit::Put(Row::Record(RecordEntry {
        tag: tag.copy(alloc)?,
        change_no: change.number,
        rev: change.base.saturating_add(1),
        cell_no,
    })))?;
    Ok(None)
}

/// The row of a record with its priority by a matrix, if the change that it came from exists.
fn rerate(
    alloc: Global,
    part: &UnitPart,
    matrix: &Matrix,
    row: &RecordEntry,
) -> Result<Option<RecordEntry>, Fault>
    ensures value { GivesRerated part.now matrix.now row.now result }
    ensures err { OnlyMemory result }
{
    let Some(entry) = source_of(part, row) else {
        return Ok(None);
    };
    let (Some(severity), Some(response)) = (entry.severity, entry.response_s) else {
        return Ok(None);
    };
    Ok(Some(RecordEntry {
        tag: row.tag.copy(alloc)?,
        change_no: row.change_no,
        rev: row.rev,
        cell_no: cell_by(matrix, severity, response),
    }))
}

/// Appends the changes of all records, with their priorities by a matrix that comes into force.
fn push_rerated(
    alloc: Global,
    changes: &mut List<RowEdit>,
    part: &UnitPart,
    matrix: &Matrix,
) -> Result<(), Fault>
    ensures value { AddsFrom part.now result changes.old changes.new (rerated_puts matrix.now) }
    ensures err { OnlyMemory result }
{
    for row in part.rows.records.as_slice() {
        let found = rerate(alloc, part, matrix, row)?;
        if let Some(entry) = found {
            changes.push(RowEdit::Put(Row::Record(entry)))?;
        }
    }
    Ok(())
}

/// Appends the changes of all records, with their priorities by a matrix that comes into force, or
/// returns the first refusal for its base and its rows.
fn push_matrix_in_force(
    alloc: Global,
    changes: &mut List<RowEdit>,
    unit: &UnitRow,
    part: &UnitPart,
    change: &ChangeRow,
    matrix: &Matrix,
) -> Result<Option<Refused>, Fault>
    requires { unit_read part.now.rows ≡ unit.now }
    ensures refused { RefusesFrom part.now change.now.base (MatrixKind matrix.now) result }
    ensures added { AreKept part.now → IfOk result (λ r. r ≡ None
        → changes.new ≡ changes.old
        ++ in_force (facts_in part.now) change.now.number (MatrixKind matrix.now)) }
    ensures err { OnlyMemory result }
{
    if let Some(refused) = matrix_refusal(unit, part, change.base, matrix) {
        return Ok(Some(refused));
    }
    push_rerated(alloc, changes, part, matrix)?;
    Ok(None)
}

/// Appends the change of an alarm whose limit comes into force, or returns the refusal for its base.
fn push_limit(
    alloc: Global,
    changes: &mut List<RowEdit>,
    part: &UnitPart,
    change: &ChangeRow,
    tag: &Tag,
    max: Seconds,
) -> Result<Option<Refused>, Fault>
    ensures refused { Gives result (refusal_of_kind part.now change.now.base (Limit tag.now max)) }
    ensures added { AreKept part.now → IfOk result (λ r. r ≡ None
        → changes.new ≡ changes.old
        ++ in_force (facts_in part.now) change.now.number (Limit tag.now max)) }
    ensures err { OnlyMemory result }
{
    let alarm = alarm_of(part, tag);
    if let Some(refused) = limit_refusal(alarm, change.base) {
        return Ok(Some(refused));
    }
    if let Some(alarm) = alarm {
        changes.push(RowEdit::Put(Row::Alarm(alarm.with_limit(alloc, max)?)))?;
    }
    Ok(None)
}

/// Appends the changes that bring an approved change into force, or returns the first refusal for
/// its base and its content.
fn push_in_force(
    alloc: Global,
    changes: &mut List<RowEdit>,
    unit: &UnitRow,
    part: &UnitPart,
    change: &ChangeRow,
) -> Result<Option<Refused>, Fault>
    requires { unit_read part.now.rows ≡ unit.now }
    ensures refused { RefusesFrom part.now change.now.base change.now.kind result }
    ensures added { AreKept part.now → IfOk result (λ r. r ≡ None
        → changes.new ≡ changes.old
        ++ in_force (facts_in part.now) change.now.number change.now.kind) }
    ensures err { OnlyMemory result }
{
    match &change.kind {
        ChangeKind::Rationale(tag, sheet) => {
            let proposed = ProposedRecord { tag, sheet };
            push_record(alloc, changes, unit, part, change, proposed)
        }
        ChangeKind::Matrix(matrix) => {
            push_matrix_in_force(alloc, changes, unit, part, change, matrix)
        }
        ChangeKind::Limit(tag, max) => push_limit(alloc, changes, part, change, tag, *max),
    }
}

/// The unit's row after the approval of a change of this kind.
fn approved_row(unit: &UnitRow, now: Moment, change: &ChangeRow) -> UnitRow
    ensures { unit.now.matrix_rev < 4294967295
        → result ≡ kind_row now unit.now change.now.number change.now.kind }
{
    let row = UnitRow {
        last_s: now,
        ..*unit
    };
    match change.kind {
        ChangeKind::Matrix(_) => UnitRow {
            matrix_no: change.number,
            matrix_rev: unit.matrix_rev.saturating_add(1),
            ..row
        },
        ChangeKind::Rationale(..) | ChangeKind::Limit(..) => row,
    }
}

/// Brings into force a change that the caller may approve, unless it is refused for its base or its content.
fn bring_into_force(
    alloc: Global,
    unit: &UnitRow,
    part: &UnitPart,
    call: &Call,
    entry: &ChangeEntry,
    change: &ChangeRow,
) -> Result<Verdict, Fault>
    requires { unit_read part.now.rows ≡ unit.now }
    ensures value { ApprovesFrom part.now call.now change.now entry.now result }
    ensures err { OnlyMemory result }
{
    let mut changes = List::new(alloc);
    changes.push(RowEdit::Put(Row::Unit(approved_row(unit, call.moment, change))))?;
    changes.push(decision_put(alloc, entry, ChangeState::Approved, call)?)?;
    match push_in_force(alloc, &mut changes, unit, part, change)? {
        Some(refused) => Ok(Verdict::Refused(refused)),
        None => Ok(Verdict::Accepted(Reply::Done, changes)),
    }
}

/// Approves a change.
pub fn approve(
    alloc: Global,
    unit: &UnitRow,
    part: &UnitPart,
    call: &Call,
    number: u32,
) -> Result<Verdict, Fault>
    requires { unit_read part.now.rows ≡ unit.now }
    ensures value { JudgesFrom part.now call.now (λ u. Approve u number) result }
    ensures err { OnlyMemory result }
{
    let Some(entry) = entry_of(part, number) else {
        return Ok(Verdict::Refused(Refused::ChangeUnknown));
    };
    if let Some(refused) = decision_refusal(entry, &call.person) {
        return Ok(Verdict::Refused(refused));
    }
    match change_from(alloc, &part.rows, entry)? {
        None => Ok(Verdict::Refused(Refused::ChangeUnknown)),
        Some(change) => bring_into_force(alloc, unit, part, call, entry, &change),
    }
}

/// Proposes a change.
pub fn propose(
    alloc: Global,
    unit: &UnitRow,
    part: &UnitPart,
    call: &Call,
    proposal: &Proposal,
) -> Result<Verdict, Fault>
    requires { unit_read part.now.rows ≡ unit.now }
    ensures value { JudgesFrom part.now call.now (λ u. Propose u proposal.now) result }
    ensures err { OnlyMemory result }
{
    if let Some(refused) = proposal_refusal(alloc, unit, part, proposal)? {
        return Ok(Verdict::Refused(refused));
    }
    let mut changes = unit_change(alloc, unit, call.moment)?;
    push_proposal(alloc, &mut changes, part, call, proposal)?;
    Ok(Verdict::Accepted(Reply::Number(next_number(part)), changes))
}
