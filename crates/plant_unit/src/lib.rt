//! The rules of a unit: the verdict on a call and the changes that it makes, from the part of the unit's rows that the
//! call looks at.
#![tactic(auto)]

mod alarms;
mod changes;
mod decisions;
mod facts;
mod flood_list;
mod grants;
mod imports;
mod judgement;
mod matrices;
mod proposals;
mod reading;
mod refusals;
mod replies;
mod service;
mod shelving;
mod verdicts;

pub use changes::is_read;
pub use judgement::{judge, judge_open, judge_taking};
pub use plant_alarm::{AlarmState, Event, EventKind, Shelf, ShelfState};
pub use plant_books::{Books, MineRow, MineUnit, Plain};
pub use plant_floods::{Run, floods};
pub use plant_import::{BadFile, FileRead};
pub use plant_model::{
    AlarmLine, AlarmRow, BandRow, Call, CellRow, ChangeEntry, ChangeRow, ChangeTopic, Changes,
    FloodLine, Full, GrantRow, Key, MineLine, RecordEntry, RecordRow, Refused, Reply, Request, Row,
    RowEdit, ShelfLine, ShelfRow, StandingLine, StatusRow, UnitLine, UnitPart, UnitRow, UnitRows,
    Verdict,
};
pub use plant_ration::{Cell, ChangeKind, ChangeState, Matrix, Proposal, Sheet};
pub use replies::shelf_line;
