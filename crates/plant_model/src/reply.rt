//! What the office answers: refusals, replies with their lines, and the answer that is one of these or a fault.

use plant_alarm::{AlarmState, ShelfState};
use plant_import::BadFile;
use plant_ration::{Cell, ChangeKind, ChangeState};
use plant_types::{Fault, List, Moment, Person, Quota, Role, Seconds, Tag, UnitCode, Words};

/// What a unit has no room for.
#[derive(Clone, Copy, Debug, PartialEq, Eq)]
pub enum Full {
    Alarms,
    Grants,
    Events,
    Changes,
}

/// Why a call is refused, with the value that matters. Refusals of shelving have the names of OPC 10000-9.
#[derive(Clone, Copy, Debug, PartialEq, Eq)]
pub enum Refused {
    /// Someone other than the administrator tries to open a unit.
    NotAdministrator,
    /// A unit with this code exists already.
    UnitTaken,
    /// The caller holds no role in the unit at the call's moment, or no unit has this code.
    NotGranted,
    /// The caller holds roles in the unit, but not this one, which the call needs.
    RoleLacking(Role),
    /// The call's moment lies before this one: the unit's last moment, or the latest of those of the caller's units.
    MomentBehind(Moment),
    /// The unit has no room for one more of these.
    UnitFull(Full),
    /// The unit already has an alarm with this tag.
    AlarmTaken,
    /// The unit has no alarm with this tag.
    AlarmUnknown,
    /// The time is longer than this, the limit in force.
    ShelvingTimeOutOfRange(Seconds),
    /// The alarm is shelved in this way already.
    ConditionAlreadyShelved,
    /// The alarm is not shelved, or is no longer shelved.
    ConditionNotShelved,
    /// The alarm is out of service.
    AlreadyOutOfService,
    /// The alarm is in service.
    NotOutOfService,
    /// The person already holds the role.
    AlreadyHeld,
    /// The person has no grant of the role.
    NotHeld,
    /// The unit would be left without a steward.
    LastSteward,
    /// The unit has no change with this number.
    ChangeUnknown,
    /// The change has already been decided, and is in this state.
    NotProposed(ChangeState),
    /// The caller proposed the change, and only others may approve or reject it.
    SamePerson,
    /// The caller did not propose the change, and only its proposer may withdraw it.
    NotProposer,
    /// The proposal's base is not this, the revision in force.
    BaseChanged(u32),
    /// A severity has no row in the matrix.
    OutsideMatrix,
    /// By the matrix in force no alarm is needed.
    NotAnAlarm,
    /// No record of the alarm has been approved.
    RecordUnknown,
    /// The range does not consist of 1 to 1,008 whole periods of ten minutes.
    RangeNotAligned,
    /// The line and the cause of the file's first fault.
    BadFile(BadFile),
    /// The unit's quota, which is this number, is used up by other shelved alarms.
    ShelfQuota(Quota),
    /// A grant's end is not after the call's moment.
    EndNotAhead,
}

/// The state of an alarm, and its shelf at the call's moment.
#[derive(Drop)]
pub struct StatusRow {
    pub tag: Tag,
    /// MaxTimeShelved; `limit_revision` is how many changes of it were approved.
    pub limit: Seconds,
    pub limit_revision: u32,
    pub state: AlarmState,
    pub shelf: ShelfState,
    pub suppressed: bool,
    pub out_of_service: bool,
    pub suppressed_or_shelved: bool,
}

/// A shelf that holds, with the seconds that are left.
#[derive(Drop)]
pub struct ShelfLine {
    pub tag: Tag,
    pub one_shot: bool,
    pub start: Moment,
    pub left: u64,
    pub person: Person,
    pub words: Words,
}

/// An alarm that is active.
#[derive(Drop)]
pub struct StandingLine {
    pub tag: Tag,
    pub state: AlarmState,
    /// Its priority, if it has a record.
    pub priority: Option<Cell>,
    /// The moment of its last activation.
    pub since: Moment,
    pub shelved: bool,
    pub by_design: bool,
    pub out_of_service: bool,
}

/// An alarm.
#[derive(Drop)]
pub struct AlarmLine {
    pub tag: Tag,
    pub state: AlarmState,
    /// Its priority, if it has a record.
    pub priority: Option<Cell>,
    pub shelved: bool,
    pub by_design: bool,
    pub out_of_service: bool,
    /// MaxTimeShelved.
    pub limit: Seconds,
}

/// A flood of alarms, from the start of its first period to the end of its last: the number of activations in it, and
/// the greatest number in one period.
#[derive(Clone, Copy, Debug, PartialEq, Eq)]
pub struct FloodLine {
    pub start: Moment,
    pub until: Moment,
    pub total: u128,
    pub peak: u32,
}

/// A shelf that holds, with the unit of its alarm.
#[derive(Drop)]
pub struct MineLine {
    pub unit: UnitCode,
    pub line: ShelfLine,
}

/// The rationalisation record of an alarm that is in force: the content of the last approved change of it, with that
/// change's number, how many changes of it were approved, and the priority by the matrix in force.
#[derive(Drop)]
pub struct RecordRow {
    pub tag: Tag,
    pub change: u32,
    pub revision: u32,
    pub cause: Words,
    pub consequence: Words,
    /// The operator's corrective action.
    pub action: Words,
    pub severity: u8,
    /// The time to respond, in seconds.
    pub response: Seconds,
    pub priority: Cell,
}

/// A change as it was proposed, with its state.
#[derive(Drop)]
pub struct ChangeRow {
    pub number: u32,
    pub kind: ChangeKind,
    pub base: u32,
    pub proposer: Person,
    pub proposed: Moment,
    pub state: ChangeState,
    /// Who decided it; `decided` is when. For a withdrawn change this is its proposer.
    pub decider: Option<Person>,
    pub decided: Option<Moment>,
}

/// A unit with the roles that the caller holds in it.
#[derive(Drop)]
pub struct UnitLine {
    pub unit: UnitCode,
    pub roles: List<Role>,
}

/// The answer to an accepted call.
#[derive(Drop)]
pub enum Reply {
    Done,
    /// How many rows of a file are new, and how many are repeated.
    Imported {
        fresh: u32,
        repeated: u64,
    },
    /// The number of the change that was proposed.
    Number(u32),
    Status(StatusRow),
    RecordOf(RecordRow),
    ChangeOf(ChangeRow),
    Units(List<UnitLine>),
    Shelves {
        unit: UnitCode,
        at: Moment,
        lines: List<ShelfLine>,
    },
    Standing {
        unit: UnitCode,
        at: Moment,
        lines: List<StandingLine>,
    },
    Alarms {
        unit: UnitCode,
        at: Moment,
        lines: List<AlarmLine>,
    },
    Floods {
        unit: UnitCode,
        begin: Moment,
        until: Moment,
        lines: List<FloodLine>,
    },
    Mine {
        person: Person,
        at: Moment,
        lines: List<MineLine>,
    },
}

/// The answer to a call. After a fault nothing has changed.
#[derive(Drop)]
pub enum Answer {
    Reply(Reply),
    Refused(Refused),
    Fault(Fault),
}
