//! Which grants hold at a moment: those that stand and have not ended yet.

ghost use Rattle.std.specs.{List.{list_any}, Prelude.{◌≡◌, option_copied}};
ghost use Rattle.plant_model.specs.steps.RowFacts.{held_by, holds_by, pair_of};
ghost use Rattle.plant_types.specs.{KeyedRows.{row_at}, Roles.{pair_cmp, same_pair}};
ghost use Rattle.plant_model.specs.Grants as grants;
ghost use Rattle.plant_model.specs.steps.RowFacts as facts;

use crate::GrantRow;
use plant_types::{Moment, Person, Role, Sorted};

/// Whether the moment lies before the end. True without an end.
pub fn is_before(now: Moment, end: Option<Moment>) -> bool
    ensures { result ≡ grants.is_before now end }
{
    end.is_none_or(|end| now.seconds() < end.seconds())
}

/// Whether the row is the grant for the pair of a person and a role.
pub fn is_pair(row: &GrantRow, person: &Person, role: Role) -> bool
    ensures { result ≡ same_pair (person.now, role) (pair_of row.now) }
{
    *person == row.person && role.is(row.role_no)
}

/// Whether the pair of a person and a role stands: one of the grants is for it, ended or not.
pub fn stands(grants: &[GrantRow], person: &Person, role: Role) -> bool
    ensures { result ≡ list_any (λ g. same_pair (person.now, role) (pair_of g)) grants.now }
{
    grants.iter().any(|row| is_pair(row, person, role))
}

fn grant_of<'a>(grants: &'a [GrantRow], person: &Person, role: Role) -> Option<&'a GrantRow>
    ensures { option_copied result ≡ row_at pair_cmp pair_of (person.now, role) grants.now }
{
    grants.iter().find(|row| is_pair(row, person, role))
}

/// Whether the pair is held at the moment by these grants.
pub fn is_held_by(grants: &[GrantRow], person: &Person, role: Role, now: Moment) -> bool
    ensures { result ≡ held_by grants.now now (person.now, role) }
{
    grant_of(grants, person, role).is_some_and(|row| is_before(now, row.end_s))
}

/// Whether the row is a grant to the person that has not ended.
pub fn is_held_row(row: &GrantRow, person: &Person, now: Moment) -> bool
    ensures { result ≡ facts.is_held_row now person.now row.now }
{
    *person == row.person && is_before(now, row.end_s)
}

/// Whether one of the grants is to the person and has not ended.
pub fn has_held_row(grants: &[GrantRow], person: &Person, now: Moment) -> bool
    ensures { result ≡ list_any (facts.is_held_row now person.now) grants.now }
{
    grants.iter().any(|row| is_held_row(row, person, now))
}

/// Whether the person holds some role at the moment by these grants.
pub fn holds_some_by(grants: &Sorted<GrantRow>, person: &Person, now: Moment) -> bool
    ensures { result ≡ holds_by grants.now now person.now }
{
    has_held_row(grants.as_slice(), person, now)
}
