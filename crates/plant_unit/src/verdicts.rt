//! Makes verdicts from the decision on a call.

ghost use Rattle.std.specs.Prelude.{◌≡◌, ◌∷◌, [], IfErr, IfOk, IsOkAnd};
ghost use Rattle.plant_types.specs.{Results.{OnlyMemory}, declared.fault.Fault.TheVariants.{Memory}};
ghost use Rattle.plant_model.specs.declared.rows.{Row.TheVariants.{Unit as UnitPut}, RowEdit.TheVariants.{Put}};
ghost use Rattle.plant_unit.specs.Judged.{IsDone, answered_as};

use plant_model::{Refused, Reply, Row, RowEdit, UnitRow, Verdict};
use plant_types::{Fault, List, Moment};
use std::alloc::Global;

/// The change of the unit's own row: its last moment.
pub fn unit_change(alloc: Global, unit: &UnitRow, now: Moment) -> Result<List<RowEdit>, Fault>
    ensures value { IfOk result (λ cs. cs ≡ Put (UnitPut (record unit.now { last_s = now })) ∷ []) }
    ensures err { OnlyMemory result }
{
    let mut changes = List::new(alloc);
    changes.push(RowEdit::Put(Row::Unit(UnitRow {
        last_s: now,
        ..*unit
    })))?;
    Ok(changes)
}

/// The change of the unit's own row, followed by this one.
fn unit_change_and(
    alloc: Global,
    unit: &UnitRow,
    now: Moment,
    change: RowEdit,
) -> Result<List<RowEdit>, Fault>
    ensures value { IfOk result (λ cs.
        cs ≡ Put (UnitPut (record unit.now { last_s = now })) ∷ change ∷ []) }
    ensures err { OnlyMemory result }
{
    let mut changes = unit_change(alloc, unit, now)?;
    changes.push(change)?;
    Ok(changes)
}

/// The verdict of a decision that makes one change, besides that of the unit's own row.
pub fn verdict_of(
    alloc: Global,
    unit: &UnitRow,
    now: Moment,
    decision: Result<Result<RowEdit, Refused>, Fault>,
) -> Result<Verdict, Fault>
    ensures value { IfOk result (IsDone unit.now now decision) }
    ensures err { IfErr decision (λ e. e ≡ Memory) → OnlyMemory result }
{
    match decision? {
        Err(refused) => Ok(Verdict::Refused(refused)),
        Ok(change) => {
            let changes = unit_change_and(alloc, unit, now, change)?;
            Ok(Verdict::Accepted(Reply::Done, changes))
        }
    }
}

/// The verdict of an answer that changes nothing.
pub fn answer(
    alloc: Global,
    outcome: Result<Result<Reply, Refused>, Fault>,
) -> Result<Verdict, Fault>
    ensures value { IfOk result (λ v. IsOkAnd outcome (λ a. v ≡ answered_as a)) }
    ensures err { IfErr outcome (λ e. e ≡ Memory) → OnlyMemory result }
{
    match outcome? {
        Err(refused) => Ok(Verdict::Refused(refused)),
        Ok(reply) => Ok(Verdict::Accepted(reply, List::new(alloc))),
    }
}
