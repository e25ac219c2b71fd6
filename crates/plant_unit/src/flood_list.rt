//! The floods of alarms in a range of moments.

ghost use Rattle.std.specs.Prelude.{◌≡◌, ◌+◌, ◌*◌, All, IsTrue, map, ℕ};
ghost use Rattle.plant_types.specs.{Moment.{is_moment}, Results.{Gives, OnlyMemory}};
ghost use Rattle.plant_unit.specs.{Additions.{AreCountable}, Floods.{EndsBy, IsLineOf}};
ghost use Rattle.plant_model.specs.Events as flood;

use plant_alarm::Event;
use plant_floods::{Run, floods, period_counts};
use plant_model::FloodLine;
use plant_types::limits::MAX_FLOOD_SECONDS;
use plant_types::{Fault, List, Moment};
use std::alloc::Global;

/// Whether a range consists of 1 to 1,008 whole periods of ten minutes, that is, of up to a week.
pub fn is_aligned(begin: Moment, until: Moment) -> bool
    ensures { result ≡ flood.is_aligned begin until }
{
    let (start, end) = (begin.seconds(), until.seconds());
    start % 600 == 0 && end % 600 == 0 && start < end && end - start <= MAX_FLOOD_SECONDS
}

/// The moment `periods` times ten minutes later. The same moment if that is after the year 2099.
fn later(begin: Moment, periods: usize) -> Moment
    ensures { IsTrue (is_moment (begin + 600 * periods)) → result ≡ begin + 600 * periods }
{
    let seconds = (periods as u64).saturating_mul(600);
    Moment::of_seconds(begin.seconds().saturating_add(seconds)).unwrap_or(begin)
}

fn flood_line(begin: Moment, run: &Run) -> FloodLine
    ensures { IsLineOf begin run.now result }
{
    FloodLine {
        start: later(begin, run.first),
        until: later(begin, run.last.saturating_add(1)),
        total: run.total,
        peak: run.peak,
    }
}

/// The lines of runs. `begin` is the start of period 0.
fn lines_of(alloc: Global, begin: Moment, runs: &[Run]) -> Result<List<FloodLine>, Fault>
    ensures value { (until : ℕ) → IsTrue (is_moment until) → All (EndsBy begin until) runs.now
        → Gives result (map (flood.flood_line begin) runs.now) }
    ensures err { OnlyMemory result }
{
    let mut lines = List::new(alloc);
    for run in runs {
        lines.push(flood_line(begin, run))?;
    }
    Ok(lines)
}

/// The floods in a range, oldest first, from the unit's events, which are ordered by number.
#[tactic(auto, using(crate::proofs::FloodLines::lines_whole))]
pub fn flood_lines(
    alloc: Global,
    events: &[Event],
    begin: Moment,
    until: Moment,
) -> Result<List<FloodLine>, Fault>
    ensures value { AreCountable events.now → Gives result (flood.flood_lines events.now begin until) }
    ensures err { OnlyMemory result }
{
    let counts = period_counts(alloc, events, begin, until)?;
    let runs = floods(alloc, counts.as_slice())?;
    lines_of(alloc, begin, runs.as_slice())
}
