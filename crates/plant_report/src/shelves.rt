//! The two printed lists of shelved alarms: those of one unit, and those of all units in which a person holds a role.

ghost use Rattle.std.specs.Prelude.{◌≡◌, ◌++◌, IfOk};
ghost use Rattle.plant_types.specs.{Adding.{Adds}, Results.{OnlyMemory}};
ghost use Rattle.plant_report.specs.{Columns.{line as line_of}, Texts.{shelf_columns, mine_columns}};
ghost use Rattle.plant_report.specs.Texts as texts;

use crate::columns::{push_last, push_left, push_moment, push_right};
use crate::heading::{push_heading, room_for};
use itoa::Buffer;
use plant_model::{MineLine, ShelfLine};
use plant_types::{Fault, Moment, Person, UnitCode};
use std::alloc::{AllocError, Global};

/// The shelves of a unit at a moment: a heading, and a line for each.
#[tactic(auto, unfolding(crate::specs::Texts::shelf_text))]
pub fn shelf_text(
    alloc: Global,
    unit: &UnitCode,
    at: Moment,
    lines: &[ShelfLine],
) -> Result<Vec<u8>, Fault>
    ensures value { IfOk result (λ text. text.items ≡ texts.shelf_text unit.now at lines.now) }
    ensures err { OnlyMemory result }
{
    let mut text = Vec::with_capacity(alloc, room_for(lines.len()))?;
    push_heading(&mut text, b"SHELVES", unit.as_bytes(), at, lines.len())?;
    for line in lines {
        push_shelf(&mut text, line)?;
    }
    Ok(text)
}

/// The shelves of the units in which a person holds a role, at a moment: a heading, and a line for
/// each.
#[tactic(auto, unfolding(crate::specs::Texts::mine_text))]
pub fn mine_text(
    alloc: Global,
    person: &Person,
    at: Moment,
    lines: &[MineLine],
) -> Result<Vec<u8>, Fault>
    ensures value { IfOk result (λ text. text.items ≡ texts.mine_text person.now at lines.now) }
    ensures err { OnlyMemory result }
{
    let mut text = Vec::with_capacity(alloc, room_for(lines.len()))?;
    push_heading(&mut text, b"MINE", person.as_bytes(), at, lines.len())?;
    for line in lines {
        push_mine(&mut text, line)?;
    }
    Ok(text)
}

fn push_mine(text: &mut Vec<u8>, line: &MineLine) -> Result<(), AllocError>
    ensures { Adds result text.old.items text.new.items (line_of (mine_columns line.now)) }
{
    push_left(text, 8, line.unit.as_bytes())?;
    push_shelf(text, &line.line)
}

fn push_shelf(text: &mut Vec<u8>, line: &ShelfLine) -> Result<(), AllocError>
    ensures { Adds result text.old.items text.new.items (line_of (shelf_columns line.now)) }
{
    let mut buffer = Buffer::new();
    push_left(text, 24, line.tag.as_bytes())?;
    push_left(text, 8, kind_of(line.one_shot))?;
    push_moment(text, line.start)?;
    push_right(text, 6, buffer.format(line.left).as_bytes())?;
    push_left(text, 32, line.person.as_bytes())?;
    push_last(text, line.words.as_bytes())
}

fn kind_of(one_shot: bool) -> &'static [u8]
    ensures { result.now ≡ texts.shelf_kind one_shot }
{
    if one_shot { b"one-shot" } else { b"timed" }
}
