//! The calls on a unit, the answers to them, and the rows that they leave: the types that the layers above share,
//! alarms by their tags and the grants held at a moment, and in `specs/` the definitions of what a unit
//! and the whole office answer.
#![tactic(auto)]

mod call;
mod copies;
mod found;
mod held;
mod keyed;
mod kinds;
pub mod laws;
mod reply;
mod rows;

pub use call::{Call, Request};
pub use found::{alarm_of, last_return};
pub use held::{has_held_row, holds_some_by, is_before, is_held_by, is_held_row, is_pair, stands};
pub use kinds::{
    CallKind, Counted, Effect, Scope, is_shelving, looks_at_events, looks_at_reviews,
    number_approved, scope_of,
};
pub use reply::{
    AlarmLine, Answer, ChangeRow, FloodLine, Full, MineLine, RecordRow, Refused, Reply, ShelfLine,
    StandingLine, StatusRow, UnitLine,
};
pub use rows::{
    AlarmRow, BandRow, CellRow, ChangeEntry, ChangeTopic, Changes, GrantRow, Key, RecordEntry, Row,
    RowEdit, ShelfRow, UnitPart, UnitRow, UnitRows, Verdict,
};
