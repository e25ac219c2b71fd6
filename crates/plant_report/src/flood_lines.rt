//! The printed list of a unit's alarm floods: for each from when to when it lasted, the number of its alarms, and the
//! most alarms in one period.

ghost use Rattle.std.specs.Prelude.{◌≡◌, ◌++◌, IfOk};
ghost use Rattle.plant_types.specs.{Adding.{Adds}, Results.{OnlyMemory}};
ghost use Rattle.plant_report.specs.{Columns.{line as line_of}, Texts.{flood_columns, flood_heading}};
ghost use Rattle.plant_report.specs.Texts as texts;

use crate::columns::{push_column, push_last, push_last_right, push_moment, push_right};
use crate::heading::room_for;
use itoa::Buffer;
use plant_model::FloodLine;
use plant_types::{Fault, Moment, UnitCode};
use std::alloc::{AllocError, Global};

/// The floods of a unit in a range of time: a heading, and a line for each.
#[tactic(auto, unfolding(crate::specs::Texts::flood_text))]
pub fn flood_text(
    alloc: Global,
    unit: &UnitCode,
    begin: Moment,
    until: Moment,
    lines: &[FloodLine],
) -> Result<Vec<u8>, Fault>
    ensures value { IfOk result (λ text. text.items
        ≡ texts.flood_text unit.now begin until lines.now) }
    ensures err { OnlyMemory result }
{
    let mut text = Vec::with_capacity(alloc, room_for(lines.len()))?;
    push_flood_heading(&mut text, unit, begin, until, lines.len())?;
    for line in lines {
        push_flood(&mut text, line)?;
    }
    Ok(text)
}

fn push_flood_heading(
    text: &mut Vec<u8>,
    unit: &UnitCode,
    begin: Moment,
    until: Moment,
    count: usize,
) -> Result<(), AllocError>
    ensures { Adds result text.old.items text.new.items
        (flood_heading unit.now begin until count) }
{
    let mut buffer = Buffer::new();
    push_column(text, b"FLOODS")?;
    push_column(text, unit.as_bytes())?;
    push_column(text, b"FROM")?;
    push_moment(text, begin)?;
    push_column(text, b"TO")?;
    push_moment(text, until)?;
    push_column(text, b"COUNT")?;
    push_last(text, buffer.format(count).as_bytes())
}

fn push_flood(text: &mut Vec<u8>, line: &FloodLine) -> Result<(), AllocError>
    ensures { Adds result text.old.items text.new.items (line_of (flood_columns line.now)) }
{
    let mut total = Buffer::new();
    let mut peak = Buffer::new();
    push_moment(text, line.start)?;
    push_moment(text, line.until)?;
    push_right(text, 6, total.format(line.total).as_bytes())?;
    push_last_right(text, 6, peak.format(line.peak).as_bytes())
}
