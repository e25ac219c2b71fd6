//! The rows that a unit's history leaves, table by table; the part of them that one call looks at; and the changes
//! that a call makes to them.

ghost use Rattle.std.specs.Prelude.{◌≡◌, ◌<◌, [], IfOk, None, Some};
ghost use Rattle.plant_model.specs.Rows.{alarm_as, revision_of_limit, with_limit};
ghost use Rattle.plant_types.specs.Results.{Gives, OnlyMemory};

use crate::{Refused, Reply};
use plant_alarm::{AlarmState, Event};
use plant_ration::{Cell, ChangeState};
use plant_types::{Fault, List, Moment, Person, Quota, Role, Seconds, Sorted, Tag, TryCopy, Words};
use std::alloc::Global;

/// The unit's own row: its last moment, the number and the revision of the matrix in force, and its quota of shelves.
#[derive(Clone, Copy, Debug, PartialEq, Eq)]
pub struct UnitRow {
    pub last_s: Moment,
    pub matrix_no: u32,
    pub matrix_rev: u32,
    pub quota: Quota,
}

/// A grant of a role to a person, with its end if any. It may have ended.
#[derive(Drop)]
pub struct GrantRow {
    pub person: Person,
    pub role_no: Role,
    pub end_s: Option<Moment>,
}

/// An alarm: its registration, the limit in force, its state, and its removal from service if it is out of service.
#[derive(Drop)]
pub struct AlarmRow {
    pub tag: Tag,
    pub latching: bool,
    pub max_s: Seconds,
    pub max_rev: u32,
    pub state_no: AlarmState,
    pub suppressed: bool,
    pub active_s: Option<Moment>,
    pub return_s: Option<Moment>,
    pub out_s: Option<Moment>,
    pub out_by: Option<Person>,
    pub out_words: Option<Words>,
}

impl AlarmRow {
    /// An alarm as it is registered: normal, in service, and with a limit that no change has altered.
    pub fn new(alloc: Global, tag: &Tag, latching: bool, max: Seconds) -> Result<AlarmRow, Fault>
        ensures value { IfOk result (λ row. row ≡ alarm_as tag.now max 0 [] None latching) }
        ensures err { OnlyMemory result }
    {
        Ok(AlarmRow {
            tag: tag.copy(alloc)?,
            latching,
            max_s: max,
            max_rev: 0,
            state_no: AlarmState::Normal,
            suppressed: false,
            active_s: None,
            return_s: None,
            out_s: None,
            out_by: None,
            out_words: None,
        })
    }

    /// How many changes of its limit were approved.
    pub fn limit_revision(&self) -> u32
        ensures { result ≡ revision_of_limit (Some self.now) }
    {
        self.max_rev
    }

    /// The alarm with the limit from one more approved change.
    pub fn with_limit(&self, alloc: Global, max: Seconds) -> Result<AlarmRow, Fault>
        ensures value { revision_of_limit (Some self.now) < 4294967295
            → Gives result (with_limit max self.now) }
        ensures err { OnlyMemory result }
    {
        let mut row = self.copy(alloc)?;
        row.max_s = max;
        row.max_rev = self.max_rev.saturating_add(1);
        Ok(row)
    }
}

/// The shelf that the last shelving of an alarm left, even if its time has passed.
#[derive(Drop)]
pub struct ShelfRow {
    pub tag: Tag,
    pub one_shot: bool,
    pub start_s: Moment,
    pub until_s: u64,
    pub person: Person,
    pub words: Words,
}

/// A finite limit between a matrix's time bands, in seconds. Bands are counted from 1.
#[derive(Clone, Copy, Debug, PartialEq, Eq)]
pub struct BandRow {
    pub matrix_no: u32,
    pub band_no: u8,
    pub limit_s: u64,
}

/// A cell of a matrix. Severities and bands are counted from 1.
#[derive(Clone, Copy, Debug, PartialEq, Eq)]
pub struct CellRow {
    pub matrix_no: u32,
    pub severity: u8,
    pub band_no: u8,
    pub cell_no: Cell,
}

/// An alarm's record in force: the change that it came from, its revision, and its priority by the matrix in force.
#[derive(Drop)]
pub struct RecordEntry {
    pub tag: Tag,
    pub change_no: u32,
    pub rev: u32,
    pub cell_no: Cell,
}

/// What a change changes.
#[derive(Clone, Copy, Debug, PartialEq, Eq)]
pub enum ChangeTopic {
    Record,
    Matrix,
    Limit,
}

/// A change: what was proposed, except the bands and cells of a matrix, and how it was decided.
#[derive(Drop)]
pub struct ChangeEntry {
    pub number: u32,
    pub proposer: Person,
    pub proposed_s: Moment,
    pub kind_no: ChangeTopic,
    pub tag: Option<Tag>,
    pub base: u32,
    pub cause: Option<Words>,
    pub consequence: Option<Words>,
    /// The operator's corrective action.
    pub remedy: Option<Words>,
    pub severity: Option<u8>,
    pub response_s: Option<Seconds>,
    pub max_s: Option<Seconds>,
    pub state_no: ChangeState,
    pub decider: Option<Person>,
    pub decided_s: Option<Moment>,
}

/// The rows of one unit, each table in the order of its keys.
#[derive(Drop)]
pub struct UnitRows {
    pub units: List<UnitRow>,
    pub grants: Sorted<GrantRow>,
    pub alarms: Sorted<AlarmRow>,
    pub shelves: Sorted<ShelfRow>,
    pub events: Sorted<Event>,
    pub bands: Sorted<BandRow>,
    pub cells: Sorted<CellRow>,
    pub records: Sorted<RecordEntry>,
    pub changes: Sorted<ChangeEntry>,
}

/// The rows that one call looks at; how many alarms, changes or events the unit has, whichever the call needs; and
/// whether the caller holds a role in the unit. A unit with more of these than `count` can hold has no part; a unit
/// with a legal history never has so many.
#[derive(Drop)]
pub struct UnitPart {
    pub rows: UnitRows,
    pub count: u32,
    pub held: bool,
}

/// A row of one of the tables.
#[derive(Drop)]
pub enum Row {
    Unit(UnitRow),
    Grant(GrantRow),
    Alarm(AlarmRow),
    Shelf(ShelfRow),
    Event(Event),
    Band(BandRow),
    Cell(CellRow),
    Record(RecordEntry),
    Change(ChangeEntry),
}

/// The key of a row that may be removed.
#[derive(Drop)]
pub enum Key {
    Grant(Person, Role),
    Shelf(Tag),
}

/// A change of the tables: a row that is inserted or replaces the row with its key, several events of which each does
/// so, or the key of a row that is removed.
#[derive(Drop)]
pub enum RowEdit {
    Put(Row),
    PutEvents(List<Event>),
    Remove(Key),
}

/// Changes of the tables, made in this order.
pub type Changes = List<RowEdit>;

/// What a unit answers: a refusal, or the reply with the changes that the call makes (none for a read).
#[derive(Drop)]
pub enum Verdict {
    Refused(Refused),
    Accepted(Reply, Changes),
}
