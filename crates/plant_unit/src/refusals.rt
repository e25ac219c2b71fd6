//! The refusals of a caller who may not make the call, whatever it asks for.

ghost use Rattle.std.specs.Prelude.{◌≡◌};
ghost use Rattle.plant_model.specs.Refusals.{first_refusal};
ghost use Rattle.plant_model.specs.steps.RowFacts.{facts_in, unit_read};
ghost use Rattle.plant_unit.specs.Judged.{SaysHeld, holder_refusals};

use crate::facts::is_held;
use plant_model::{Call, Refused, UnitPart, UnitRow};

/// The refusal of a caller who may not make the call at its moment, if any.
pub fn holder_refusal(unit: &UnitRow, part: &UnitPart, call: &Call) -> Option<Refused>
    requires { unit_read part.now.rows ≡ unit.now }
    ensures { SaysHeld part.now call.now
        → result ≡ first_refusal (holder_refusals (facts_in part.now) call.now) }
{
    let person = &call.person;
    let now = call.moment;
    if !part.held {
        return Some(Refused::NotGranted);
    }
    if let Some(role) = call.request.role_needed() {
        if !is_held(part, person, role, now) {
            return Some(Refused::RoleLacking(role));
        }
    }
    let last = unit.last_s;
    if now.seconds() < last.seconds() {
        return Some(Refused::MomentBehind(last));
    }
    None
}
