//! What a person can ask of the office: the requests, and a call, which is a request with its person and moment.

use plant_import::FileRead;
use plant_ration::{Matrix, Proposal};
use plant_types::{Moment, Person, Quota, Role, Seconds, Tag, Tenure, UnitCode, Words};

/// What a person asks for.
#[derive(Drop)]
pub enum Request {
    /// Opens a unit with its priority matrix and its quota of shelves, and grants Steward to one person.
    OpenUnit {
        unit: UnitCode,
        steward: Person,
        matrix: Matrix,
        quota: Quota,
    },
    /// Grants a role to a person, either until a moment or without an end.
    Grant {
        unit: UnitCode,
        person: Person,
        tenure: Tenure,
    },
    /// Withdraws a role from a person.
    Withdraw {
        unit: UnitCode,
        person: Person,
        role: Role,
    },
    /// Registers an alarm with its MaxTimeShelved.
    Register {
        unit: UnitCode,
        tag: Tag,
        latching: bool,
        max: Seconds,
    },
    /// Imports the events of a file. A file that could not be read is carried as its first fault.
    Import {
        unit: UnitCode,
        file: FileRead,
    },
    /// Shelves an alarm for a time.
    TimedShelve {
        unit: UnitCode,
        tag: Tag,
        seconds: Seconds,
        words: Words,
    },
    /// Shelves an alarm until it returns to normal, but no longer than the limit in force.
    OneShotShelve {
        unit: UnitCode,
        tag: Tag,
        words: Words,
    },
    /// Ends a shelf.
    Unshelve {
        unit: UnitCode,
        tag: Tag,
    },
    /// Removes an alarm from service.
    RemoveFromService {
        unit: UnitCode,
        tag: Tag,
        words: Words,
    },
    /// Places an alarm in service again.
    PlaceInService {
        unit: UnitCode,
        tag: Tag,
    },
    /// Proposes a change of an alarm's record, of the unit's matrix or of an alarm's limit.
    Propose {
        unit: UnitCode,
        proposal: Proposal,
    },
    /// Withdraws a proposed change.
    WithdrawChange {
        unit: UnitCode,
        number: u32,
    },
    /// Approves a proposed change, which brings it into force.
    Approve {
        unit: UnitCode,
        number: u32,
    },
    /// Rejects a proposed change.
    Reject {
        unit: UnitCode,
        number: u32,
    },
    /// Asks for an alarm's state and shelf.
    Status {
        unit: UnitCode,
        tag: Tag,
    },
    /// Asks for an alarm's rationalisation record.
    RecordOf {
        unit: UnitCode,
        tag: Tag,
    },
    /// Asks for a change, whatever its state.
    ChangeOf {
        unit: UnitCode,
        number: u32,
    },
    /// Asks for the alarms that are shelved.
    Shelves {
        unit: UnitCode,
    },
    /// Asks for all alarms.
    Alarms {
        unit: UnitCode,
    },
    /// Asks for the alarms that are active.
    Standing {
        unit: UnitCode,
    },
    /// Asks for the floods of alarms from a moment on, to before another.
    Floods {
        unit: UnitCode,
        begin: Moment,
        until: Moment,
    },
    /// Asks for the units in which the caller holds a role.
    MyUnits,
    /// Asks for the alarms that are shelved in all units in which the caller holds a role.
    MyShelves,
}

/// A request with the person who makes it and the moment that the call states.
#[derive(Drop)]
pub struct Call {
    pub person: Person,
    pub moment: Moment,
    pub request: Request,
}
