//! The roles that a person may hold in a unit, and a role together with the moment at which it ends.

ghost use Rattle.std.specs.Prelude.{◌≡◌, if◌then◌else◌, Some, None};
ghost use Rattle.plant_types.specs.{Roles.{role_no, same_role}, Tenure.{is_tenure}};

use crate::Moment;
use std::marker::Model;

/// What a person may do in a unit. No role includes another.
#[derive(Clone, Copy, Debug, PartialEq, Eq, PartialOrd, Ord)]
pub enum Role {
    /// Looks at the unit.
    Viewer = 1,
    /// Shelves alarms and imports their events.
    Operator = 2,
    /// Takes alarms out of service and puts them back.
    Maintainer = 3,
    /// Registers alarms and proposes changes.
    Engineer = 4,
    /// Approves and rejects changes of others.
    Approver = 5,
    /// Grants and withdraws roles.
    Steward = 6,
}

impl Role {
    /// Its number, 1 to 6.
    pub fn number(self) -> u8
        ensures { result ≡ role_no self }
    {
        match self {
            Role::Viewer => 1,
            Role::Operator => 2,
            Role::Maintainer => 3,
            Role::Engineer => 4,
            Role::Approver => 5,
            Role::Steward => 6,
        }
    }

    /// Whether the two are the same role.
    pub fn is(self, other: Role) -> bool
        ensures { result ≡ same_role self other }
    {
        self.number() == other.number()
    }
}

/// A role and the moment at which it ends, if any. A steward's role has no end. Contracts see it
/// as the pair of the two.
#[derive(Clone, Copy, Debug, PartialEq, Eq)]
pub struct Tenure {
    role: Role,
    until: Option<Moment>,
}

impl Model for Tenure {
    ghost use Rattle.std.specs.Prelude.{ℕ, Option, IsTrue};
    ghost use Rattle.plant_types.specs.{Tenure.{is_tenure}, declared.role.Role.{Role}};

    ghost Value = { Role × Option ℕ };

    ghost view = { λ t. (t.role, t.until) };

    ghost invariant = { λ t. IsTrue (is_tenure t.role t.until) };

    ghost inverse = { λ v. record { role = v.0; until = v.1 } };
}

impl Tenure {
    /// The tenure. `None` for a steward's role with an end.
    pub fn new(role: Role, until: Option<Moment>) -> Option<Tenure>
        ensures { result ≡ (if is_tenure role until then Some (role, until) else None) }
    {
        if role == Role::Steward && until.is_some() {
            return None;
        }
        Some(Tenure { role, until })
    }

    /// The role.
    pub fn role(&self) -> Role
        ensures { result ≡ self.now.0 }
    {
        self.role
    }

    /// Its end, if it has one.
    pub fn until(&self) -> Option<Moment>
        ensures { result ≡ self.now.1 }
    {
        self.until
    }
}
