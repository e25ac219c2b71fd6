//! The numbers by which roles, states, kinds, topics and cells are stored: one table each, used for writing and
//! reading.

ghost use Rattle.std.specs.Prelude.{◌≡◌, List, ℕ};
ghost use Rattle.plant_import.specs.Merging.{kind_no};
ghost use Rattle.plant_store_columns.specs.Codes.{all_cells, all_decisions, all_kinds, all_states, all_topics, cell_no, decision_no, state_no, topic_no};
ghost use Rattle.plant_types.specs.Roles.{all_roles, role_no};

use plant_alarm::{AlarmState, EventKind};
use plant_model::ChangeTopic;
use plant_ration::{Cell, ChangeState};
use plant_types::Role;

/// A value that is stored in a column as a number.
pub trait Coded: Clone + Copy + 'static {
    ghost no: { Self → ℕ };

    ghost every: { List Self };

    /// Its number.
    fn number(&self) -> u32
        ensures { result ≡ no self.now };

    /// All values.
    fn all() -> &'static [Self]
        ensures { result.now ≡ every };
}

/// The roles.
const ROLES: [Role; 6] = [
    Role::Viewer,
    Role::Operator,
    Role::Maintainer,
    Role::Engineer,
    Role::Approver,
    Role::Steward,
];

impl Coded for Role {
    ghost no = { role_no };

    ghost every = { all_roles };

    fn number(&self) -> u32 {
        u32::from((*self).number())
    }

    fn all() -> &'static [Role] {
        &ROLES
    }
}

/// The states of an alarm.
const STATES: [AlarmState; 6] = [
    AlarmState::Normal,
    AlarmState::Unacknowledged,
    AlarmState::Acknowledged,
    AlarmState::ReturnedUnack,
    AlarmState::LatchedUnack,
    AlarmState::LatchedAck,
];

impl Coded for AlarmState {
    ghost no = { state_no };

    ghost every = { all_states };

    fn number(&self) -> u32 {
        match self {
            AlarmState::Normal => 1,
            AlarmState::Unacknowledged => 2,
            AlarmState::Acknowledged => 3,
            AlarmState::ReturnedUnack => 4,
            AlarmState::LatchedUnack => 5,
            AlarmState::LatchedAck => 6,
        }
    }

    fn all() -> &'static [AlarmState] {
        &STATES
    }
}

/// The kinds of an event.
const KINDS: [EventKind; 6] = [
    EventKind::Act,
    EventKind::Rtn,
    EventKind::Ack,
    EventKind::Reset,
    EventKind::Sup,
    EventKind::Unsup,
];

impl Coded for EventKind {
    ghost no = { kind_no };

    ghost every = { all_kinds };

    fn number(&self) -> u32 {
        match self {
            EventKind::Act => 1,
            EventKind::Rtn => 2,
            EventKind::Ack => 3,
            EventKind::Reset => 4,
            EventKind::Sup => 5,
            EventKind::Unsup => 6,
        }
    }

    fn all() -> &'static [EventKind] {
        &KINDS
    }
}

/// What changes change.
const TOPICS: [ChangeTopic; 3] = [ChangeTopic::Record, ChangeTopic::Matrix, ChangeTopic::Limit];

impl Coded for ChangeTopic {
    ghost no = { topic_no };

    ghost every = { all_topics };

    fn number(&self) -> u32 {
        match self {
            ChangeTopic::Record => 1,
            ChangeTopic::Matrix => 2,
            ChangeTopic::Limit => 3,
        }
    }

    fn all() -> &'static [ChangeTopic] {
        &TOPICS
    }
}

/// The states of a change.
const DECISIONS: [ChangeState; 4] = [
    ChangeState::Proposed,
    ChangeState::Approved,
    ChangeState::Rejected,
    ChangeState::Withdrawn,
];

impl Coded for ChangeState {
    ghost no = { decision_no };

    ghost every = { all_decisions };

    fn number(&self) -> u32 {
        match self {
            ChangeState::Proposed => 1,
            ChangeState::Approved => 2,
            ChangeState::Rejected => 3,
            ChangeState::Withdrawn => 4,
        }
    }

    fn all() -> &'static [ChangeState] {
        &DECISIONS
    }
}

/// The cells of a matrix.
const CELLS: [Cell; 5] = [Cell::N, Cell::P1, Cell::P2, Cell::P3, Cell::P4];

impl Coded for Cell {
    ghost no = { cell_no };

    ghost every = { all_cells };

    fn number(&self) -> u32 {
        match self {
            Cell::N => 0,
            Cell::P1 => 1,
            Cell::P2 => 2,
            Cell::P3 => 3,
            Cell::P4 => 4,
        }
    }

    fn all() -> &'static [Cell] {
        &CELLS
    }
}
