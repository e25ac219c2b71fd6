//! The two printed lists of a unit's alarms, all of them and the active ones only, and the names of an alarm's state
//! and of a priority, which the JSON answers use too.

ghost use Rattle.std.specs.Prelude.{◌≡◌, ◌++◌, IfOk};
ghost use Rattle.plant_types.specs.{Adding.{Adds}, Results.{OnlyMemory}};
ghost use Rattle.plant_report.specs.{Columns.{line as line_of}, Texts.{alarm_columns, standing_columns}};
ghost use Rattle.plant_report.specs.Texts as texts;

use crate::columns::{push_column, push_last, push_last_right, push_left, push_moment};
use crate::heading::{push_heading, room_for};
use itoa::Buffer;
use plant_alarm::AlarmState;
use plant_model::{AlarmLine, StandingLine};
use plant_ration::Cell;
use plant_types::{Fault, Moment, UnitCode};
use std::alloc::{AllocError, Global};

/// The active alarms of a unit at a moment: a heading, and a line for each.
#[tactic(auto, unfolding(crate::specs::Texts::standing_text))]
pub fn standing_text(
    alloc: Global,
    unit: &UnitCode,
    at: Moment,
    lines: &[StandingLine],
) -> Result<Vec<u8>, Fault>
    ensures value { IfOk result (λ text. text.items ≡ texts.standing_text unit.now at lines.now) }
    ensures err { OnlyMemory result }
{
    let mut text = Vec::with_capacity(alloc, room_for(lines.len()))?;
    push_heading(&mut text, b"STANDING", unit.as_bytes(), at, lines.len())?;
    for line in lines {
        push_standing(&mut text, line)?;
    }
    Ok(text)
}

fn push_standing(text: &mut Vec<u8>, line: &StandingLine) -> Result<(), AllocError>
    ensures { Adds result text.old.items text.new.items
        (line_of (standing_columns line.now)) }
{
    push_left(text, 24, line.tag.as_bytes())?;
    push_left(text, 14, state_name(line.state))?;
    push_left(text, 2, priority_name(line.priority))?;
    push_moment(text, line.since)?;
    push_last(
        text,
        &flags(line.shelved, line.by_design, line.out_of_service),
    )
}

/// The alarms of a unit at a moment: a heading, and a line for each.
#[tactic(auto, unfolding(crate::specs::Texts::alarm_text))]
pub fn alarm_text(
    alloc: Global,
    unit: &UnitCode,
    at: Moment,
    lines: &[AlarmLine],
) -> Result<Vec<u8>, Fault>
    ensures value { IfOk result (λ text. text.items ≡ texts.alarm_text unit.now at lines.now) }
    ensures err { OnlyMemory result }
{
    let mut text = Vec::with_capacity(alloc, room_for(lines.len()))?;
    push_heading(&mut text, b"ALARMS", unit.as_bytes(), at, lines.len())?;
    for line in lines {
        push_alarm(&mut text, line)?;
    }
    Ok(text)
}

fn push_alarm(text: &mut Vec<u8>, line: &AlarmLine) -> Result<(), AllocError>
    ensures { Adds result text.old.items text.new.items (line_of (alarm_columns line.now)) }
{
    let mut buffer = Buffer::new();
    push_left(text, 24, line.tag.as_bytes())?;
    push_left(text, 14, state_name(line.state))?;
    push_left(text, 2, priority_name(line.priority))?;
    push_column(
        text,
        &flags(line.shelved, line.by_design, line.out_of_service),
    )?;
    push_last_right(text, 6, buffer.format(line.limit.get()).as_bytes())
}

/// The name of an alarm's state.
pub fn state_name(state: AlarmState) -> &'static [u8]
    ensures { result.now ≡ texts.state_name state }
{
    match state {
        AlarmState::Normal => b"Normal",
        AlarmState::Unacknowledged => b"Unacknowledged",
        AlarmState::Acknowledged => b"Acknowledged",
        AlarmState::ReturnedUnack => b"ReturnedUnack",
        AlarmState::LatchedUnack => b"LatchedUnack",
        AlarmState::LatchedAck => b"LatchedAck",
    }
}

/// The name of a cell of a matrix: a priority, or N if no alarm is needed.
pub fn cell_name(cell: Cell) -> &'static [u8]
    ensures { result.now ≡ texts.cell_name cell }
{
    match cell {
        Cell::P1 => b"P1",
        Cell::P2 => b"P2",
        Cell::P3 => b"P3",
        Cell::P4 => b"P4",
        Cell::N => b"N",
    }
}

fn priority_name(priority: Option<Cell>) -> &'static [u8]
    ensures { result.now ≡ texts.priority_name priority }
{
    match priority {
        Some(cell) => cell_name(cell),
        None => b"-",
    }
}

fn flags(shelved: bool, by_design: bool, out_of_service: bool) -> [u8; 3]
    ensures { result ≡ texts.flags shelved by_design out_of_service }
{
    [
        flag(shelved, b'S'),
        flag(by_design, b'D'),
        flag(out_of_service, b'O'),
    ]
}

fn flag(holds: bool, mark: u8) -> u8
    ensures { result ≡ texts.mark_if holds mark }
{
    if holds { mark } else { b'-' }
}
