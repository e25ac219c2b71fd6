//! Whether a person holds a role in a unit at a moment, and which roles these are, from the unit's grants.

ghost use Rattle.std.specs.Prelude.{◌≡◌, IfOk, Some};
ghost use Rattle.plant_books.specs.Contents.{is_held_in, roles_in};
ghost use Rattle.plant_types.specs.Results.{OnlyMemory};

use plant_model::{UnitRows, has_held_row, is_held_row};
use plant_types::{Fault, List, Moment, Person, Role};
use std::alloc::Global;

/// Whether the person holds a role in the unit of these rows at the moment.
pub fn holds_role(rows: &UnitRows, person: &Person, now: Moment) -> bool
    ensures { result ≡ is_held_in now person.now (Some rows.now) }
{
    has_held_row(rows.grants.as_slice(), person, now)
}

/// The roles that the person holds in the unit of these rows at the moment, in the order of the grants.
pub fn roles_held(
    alloc: Global,
    rows: &UnitRows,
    person: &Person,
    now: Moment,
) -> Result<List<Role>, Fault>
    ensures value { IfOk result (λ roles. roles ≡ roles_in now person.now rows.now) }
    ensures memory { OnlyMemory result }
{
    let mut roles = List::new(alloc);
    for grant in rows.grants.as_slice() {
        if is_held_row(grant, person, now) {
            roles.push(grant.role_no)?;
        }
    }
    Ok(roles)
}
