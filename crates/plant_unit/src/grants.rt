//! Granting roles and withdrawing them.

ghost use Rattle.std.specs.Prelude.{◌≡◌};
ghost use Rattle.plant_types.specs.{Names.{Name}, Results.{OnlyMemory}};
ghost use Rattle.plant_model.specs.declared.call.Request.TheVariants.{Grant, Withdraw};
ghost use Rattle.plant_unit.specs.FromFacts.{DecidesAlways, DecidesAs};

use crate::facts::{is_held, stewards};
use plant_model::{Full, GrantRow, Key, Refused, Row, RowEdit, UnitPart, is_before, stands};
use plant_types::limits::MAX_GRANTS;
use plant_types::{Fault, Moment, Person, Role, Tenure};
use std::alloc::Global;

/// Grants a role.
pub fn grant(
    alloc: Global,
    part: &UnitPart,
    now: Moment,
    person: &Person,
    tenure: Tenure,
) -> Result<Result<RowEdit, Refused>, Fault>
    ensures value { (p u : Name) → DecidesAs part.now p now (Grant u person.now tenure) result }
    ensures err { OnlyMemory result }
{
    if part.rows.grants.as_slice().len() >= MAX_GRANTS {
        return Ok(Err(Refused::UnitFull(Full::Grants)));
    }
    if is_held(part, person, tenure.role(), now) {
        return Ok(Err(Refused::AlreadyHeld));
    }
    if !is_before(now, tenure.until()) {
        return Ok(Err(Refused::EndNotAhead));
    }
    Ok(Ok(RowEdit::Put(Row::Grant(GrantRow {
        person: person.copy(alloc)?,
        role_no: tenure.role(),
        end_s: tenure.until(),
    }))))
}

/// Withdraws a role.
pub fn withdraw(
    alloc: Global,
    part: &UnitPart,
    person: &Person,
    role: Role,
) -> Result<Result<RowEdit, Refused>, Fault>
    ensures value { DecidesAlways part.now (λ u. Withdraw u person.now role) result }
    ensures err { OnlyMemory result }
{
    let grants = part.rows.grants.as_slice();
    if !stands(grants, person, role) {
        return Ok(Err(Refused::NotHeld));
    }
    if role.is(Role::Steward) && stewards(grants) <= 1 {
        return Ok(Err(Refused::LastSteward));
    }
    Ok(Ok(RowEdit::Remove(Key::Grant(person.copy(alloc)?, role))))
}
