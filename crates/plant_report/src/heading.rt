//! The first line that the lists of alarms and of shelves share, and an estimate of how much memory a printed list
//! takes.

ghost use Rattle.std.specs.Prelude.{◌≡◌, ◌++◌};
ghost use Rattle.plant_types.specs.Adding.{Adds};
ghost use Rattle.plant_report.specs.Texts.{heading};

use crate::columns::{push_column, push_last, push_moment};
use itoa::Buffer;
use plant_types::Moment;
use std::alloc::AllocError;

/// How many bytes are allocated for a line at first; most lines take fewer.
const LINE_ROOM: usize = 128;

/// How many bytes to allocate at first for a list of this many lines and its heading.
pub fn room_for(lines: usize) -> usize {
    lines.saturating_add(1).saturating_mul(LINE_ROOM)
}

/// Adds the heading of a list: what is listed, of which unit or person, at which moment, and how many lines follow.
pub fn push_heading(
    text: &mut Vec<u8>,
    what: &[u8],
    whose: &[u8],
    at: Moment,
    count: usize,
) -> Result<(), AllocError>
    ensures { Adds result text.old.items text.new.items
        (heading what.now whose.now at count) }
{
    let mut buffer = Buffer::new();
    push_column(text, what)?;
    push_column(text, whose)?;
    push_column(text, b"AT")?;
    push_moment(text, at)?;
    push_column(text, b"COUNT")?;
    push_last(text, buffer.format(count).as_bytes())
}
