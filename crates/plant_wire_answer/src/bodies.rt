//! The JSON bodies of faults and of most replies; those of a record and of a change stand in `changes`.

ghost use Rattle.std.specs.Prelude.{◌≡◌, ◌++◌, IfOk};
ghost use Rattle.plant_types.specs.{Adding.{Adds}, Results.{OnlyMemory}};
ghost use Rattle.plant_wire_answer.specs.{Bodies.{unit_object}, Json.{quoted}};
ghost use Rattle.plant_wire_answer.specs.Names as names;
ghost use Rattle.plant_wire_answer.specs.Bodies as spec;

use crate::json::{
    BODY_ROOM, Json, push_listed, push_number, push_quoted, push_string, push_truth,
};
use crate::names::{fault_name, role_name, shelf_left, shelf_name};
use plant_model::{StatusRow, UnitLine};
use plant_report::state_name;
use plant_types::{Fault, Role};
use std::alloc::Global;

/// The body of a reply to Import.
#[tactic(auto, unfolding(crate::specs::Bodies::imported_body))]
pub fn imported_body(alloc: Global, fresh: u32, repeated: u64) -> Result<Vec<u8>, Fault>
    ensures value { IfOk result (λ out. out.items ≡ spec.imported_body fresh repeated) }
    ensures err { OnlyMemory result }
{
    let mut out = Vec::with_capacity(alloc, BODY_ROOM)?;
    push_number(&mut out, b"{\"new\":", u64::from(fresh))?;
    push_number(&mut out, b",\"repeated\":", repeated)?;
    out.push(b'}')?;
    Ok(out)
}

/// The body of a reply to Propose.
#[tactic(auto, unfolding(crate::specs::Bodies::number_body))]
pub fn number_body(alloc: Global, number: u32) -> Result<Vec<u8>, Fault>
    ensures value { IfOk result (λ out. out.items ≡ spec.number_body number) }
    ensures err { OnlyMemory result }
{
    let mut out = Vec::with_capacity(alloc, BODY_ROOM)?;
    push_number(&mut out, b"{\"number\":", u64::from(number))?;
    out.push(b'}')?;
    Ok(out)
}

/// The body of a reply to Status.
#[tactic(auto, unfolding(crate::specs::Bodies::status_body))]
pub fn status_body(alloc: Global, row: &StatusRow) -> Result<Vec<u8>, Fault>
    ensures value { IfOk result (λ out. out.items ≡ spec.status_body row.now) }
    ensures err { OnlyMemory result }
{
    let mut out = Vec::with_capacity(alloc, BODY_ROOM)?;
    push_number(&mut out, b"{\"limit\":", row.limit.get())?;
    push_number(
        &mut out,
        b",\"limit_revision\":",
        u64::from(row.limit_revision),
    )?;
    push_truth(&mut out, b",\"out_of_service\":", row.out_of_service)?;
    push_string(&mut out, b",\"shelf\":", shelf_name(row.shelf))?;
    push_number(&mut out, b",\"shelf_left\":", shelf_left(row.shelf))?;
    push_string(&mut out, b",\"state\":", state_name(row.state))?;
    push_truth(&mut out, b",\"suppressed\":", row.suppressed)?;
    push_truth(
        &mut out,
        b",\"suppressed_or_shelved\":",
        row.suppressed_or_shelved,
    )?;
    push_string(&mut out, b",\"tag\":", row.tag.as_bytes())?;
    out.push(b'}')?;
    Ok(out)
}

impl Json for Role {
    ghost json = { λ r. quoted (names.role_name r) };

    fn push(&self, out: &mut Vec<u8>) -> Result<(), Fault> {
        push_quoted(out, role_name(*self))
    }
}

impl Json for UnitLine {
    ghost json = { unit_object };

    #[tactic(auto, unfolding(crate::specs::Bodies::unit_object))]
    fn push(&self, out: &mut Vec<u8>) -> Result<(), Fault> {
        out.extend_from_slice(b"{\"roles\":")?;
        push_listed(out, self.roles.as_slice())?;
        push_string(out, b",\"unit\":", self.unit.as_bytes())?;
        Ok(out.push(b'}')?)
    }
}

/// The body of a reply to MyUnits.
#[tactic(auto, unfolding(crate::specs::Bodies::units_body))]
pub fn units_body(alloc: Global, lines: &[UnitLine]) -> Result<Vec<u8>, Fault>
    ensures value { IfOk result (λ out. out.items ≡ spec.units_body lines.now) }
    ensures err { OnlyMemory result }
{
    let mut out = Vec::from_slice(alloc, b"{\"units\":")?;
    push_listed(&mut out, lines)?;
    out.push(b'}')?;
    Ok(out)
}

/// The body of a fault.
pub fn fault_body(alloc: Global, fault: &Fault) -> Result<Vec<u8>, Fault>
    ensures value { IfOk result (λ out. out.items ≡ spec.fault_body fault.now) }
    ensures err { OnlyMemory result }
{
    let mut out = Vec::with_capacity(alloc, BODY_ROOM)?;
    push_string(&mut out, b"{\"fault\":", fault_name(fault))?;
    out.push(b'}')?;
    Ok(out)
}
