//! The names that answers use, such as those of roles, shelved states, kinds of change and faults. They are part of the
//! interface: clients compare them.

ghost use Rattle.std.specs.Prelude.{◌≡◌};
ghost use Rattle.plant_wire_answer.specs.Names as spec;

use plant_alarm::ShelfState;
use plant_import::Cause;
use plant_model::Full;
use plant_ration::{ChangeKind, ChangeState};
use plant_types::{Fault, Role};

/// The name of a role.
pub fn role_name(role: Role) -> &'static [u8]
    ensures { result.now ≡ spec.role_name role }
{
    match role {
        Role::Viewer => b"Viewer",
        Role::Operator => b"Operator",
        Role::Maintainer => b"Maintainer",
        Role::Engineer => b"Engineer",
        Role::Approver => b"Approver",
        Role::Steward => b"Steward",
    }
}

/// The name of a shelved state.
pub fn shelf_name(shelf: ShelfState) -> &'static [u8]
    ensures { result.now ≡ spec.shelf_name shelf }
{
    match shelf {
        ShelfState::Unshelved => b"Unshelved",
        ShelfState::TimedShelved(_) => b"TimedShelved",
        ShelfState::OneShotShelved(_) => b"OneShotShelved",
    }
}

/// How many seconds of a shelf are left.
pub fn shelf_left(shelf: ShelfState) -> u64
    ensures { result ≡ spec.seconds_left shelf }
{
    match shelf {
        ShelfState::Unshelved => 0,
        ShelfState::TimedShelved(seconds) => seconds,
        ShelfState::OneShotShelved(seconds) => seconds,
    }
}

/// The name of what a full unit has no room for.
pub fn full_name(full: Full) -> &'static [u8]
    ensures { result.now ≡ spec.full_name full }
{
    match full {
        Full::Alarms => b"Alarms",
        Full::Grants => b"Grants",
        Full::Events => b"Events",
        Full::Changes => b"Changes",
    }
}

/// The name of a change's kind.
pub fn kind_name(kind: &ChangeKind) -> &'static [u8]
    ensures { result.now ≡ spec.kind_name kind.now }
{
    match kind {
        ChangeKind::Rationale(_, _) => b"record",
        ChangeKind::Matrix(_) => b"matrix",
        ChangeKind::Limit(_, _) => b"limit",
    }
}

/// The name of a change's state.
pub fn change_state_name(state: ChangeState) -> &'static [u8]
    ensures { result.now ≡ spec.change_state_name state }
{
    match state {
        ChangeState::Proposed => b"Proposed",
        ChangeState::Approved => b"Approved",
        ChangeState::Rejected => b"Rejected",
        ChangeState::Withdrawn => b"Withdrawn",
    }
}

/// The name of the cause for which a row of a file is faulty.
pub fn file_cause_name(cause: Cause) -> &'static [u8]
    ensures { result.now ≡ spec.file_cause_name cause }
{
    match cause {
        Cause::Header => b"Header",
        Cause::FieldCount => b"FieldCount",
        Cause::NotUtf8 => b"NotUtf8",
        Cause::BadNumber => b"BadNumber",
        Cause::BadMoment => b"BadMoment",
        Cause::BadTag => b"BadTag",
        Cause::BadEvent => b"BadEvent",
        Cause::TooLong => b"TooLong",
        Cause::TagUnknown => b"TagUnknown",
        Cause::MomentAhead => b"MomentAhead",
        Cause::SequenceClash => b"SequenceClash",
        Cause::MomentOutOfOrder => b"MomentOutOfOrder",
    }
}

/// The name of a fault.
pub fn fault_name(fault: &Fault) -> &'static [u8]
    ensures { result.now ≡ spec.fault_name fault.now }
{
    match fault {
        Fault::Memory => b"Memory",
        Fault::Store => b"Store",
    }
}
