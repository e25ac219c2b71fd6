//! The changes of an opening, and which requests change nothing.

ghost use Rattle.std.specs.Prelude.{◌≡◌, [], IfOk, true};
ghost use Rattle.plant_model.specs.{Facts.{facts}, Verdicts.{is_opening, is_read}};
ghost use Rattle.plant_model.specs.steps.CallChanges.{changes_for};
ghost use Rattle.plant_types.specs.Results.{OnlyMemory};

use crate::matrices::push_matrix;
use plant_model::{Call, Effect, GrantRow, Request, Row, RowEdit, UnitRow};
use plant_types::{Fault, List, Role};
use std::alloc::Global;

/// Whether the request only reads.
pub fn is_read(request: &Request) -> bool
    ensures { result ≡ is_read request.now }
{
    matches!(request.effect(), Effect::Reads)
}

/// The changes of an opening.
pub fn opening_changes(alloc: Global, call: &Call) -> Result<List<RowEdit>, Fault>
    requires { is_opening call.now.request ≡ true }
    ensures value { IfOk result (λ cs. cs ≡ changes_for (facts []) call.now) }
    ensures err { OnlyMemory result }
{
    let mut changes = List::new(alloc);
    if let Request::OpenUnit {
        steward,
        matrix,
        quota,
        ..
    } = &call.request
    {
        changes.push(RowEdit::Put(Row::Unit(UnitRow {
            last_s: call.moment,
            matrix_no: 0,
            matrix_rev: 0,
            quota: *quota,
        })))?;
        changes.push(RowEdit::Put(Row::Grant(GrantRow {
            person: steward.copy(alloc)?,
            role_no: Role::Steward,
            end_s: None,
        })))?;
        push_matrix(&mut changes, 0, matrix)?;
    }
    Ok(changes)
}
