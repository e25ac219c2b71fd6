//! Shelving of one alarm: what a shelf is at a given moment, and the rules for shelving for a time, shelving once
//! and unshelving.

ghost use Rattle.std.specs.Prelude.{◌≡◌, List};
ghost use Rattle.plant_alarm.specs.{Shelves.{shelf_of, shelf_state, timed_answer, one_shot_answer, unshelve_answer}, States.{IsInTime, last_return}};
ghost use Rattle.plant_alarm.specs.declared.event.Event.{Event};
ghost use Rattle.plant_alarm.specs.Shelves as shelves;

use plant_types::{Moment, Seconds};

/// What the last shelving or unshelving of an alarm left. It is not updated when its time has
/// passed: `shelf_at` computes whether it still holds.
#[derive(Clone, Copy, Debug, PartialEq, Eq)]
pub enum Shelf {
    /// No shelf.
    Clear,
    /// A shelf for a time: `until` is the second, from 2000-01-01T00:00:00Z on, at which it ends.
    Timed { start: Moment, until: u64 },
    /// A shelf until the alarm returns to normal, but at most until the second `until`.
    OneShot { start: Moment, until: u64 },
}

/// The state of a shelf at a moment, with the seconds that are left.
#[derive(Clone, Copy, Debug, PartialEq, Eq)]
pub enum ShelfState {
    /// The alarm was never shelved, or its shelf has ended.
    Unshelved,
    /// Shelved for a time. The seconds left are at least 1.
    TimedShelved(u64),
    /// Shelved until the alarm returns to normal, but at most for this many seconds more.
    OneShotShelved(u64),
}

/// Why shelving or unshelving is refused.
#[derive(Clone, Copy, Debug, PartialEq, Eq)]
pub enum ShelfRefused {
    /// The time is above this limit.
    ShelvingTimeOutOfRange(Seconds),
    /// The alarm is shelved in this way already. A running timer is not reset.
    ConditionAlreadyShelved,
    /// The alarm isn't shelved.
    ConditionNotShelved,
}

/// What the shelf is at the moment `now`, where `returned` is the alarm's last return. A shelf of
/// moment `s` and length `d` holds while `now` is below `s + d`; a one-shot shelf ends also with a
/// return whose moment is above `s`.
pub fn shelf_at(shelf: &Shelf, returned: Option<Moment>, now: Moment) -> ShelfState
    ensures state { result ≡ shelf_state shelf.now returned now }

    // If `returned` is the last return of an alarm's events, the state is the one that these events define.
    ensures events { (es : List Event) → IsInTime es → returned ≡ last_return es
        → result ≡ shelf_of shelf.now es now }
{
    match *shelf {
        Shelf::Clear => ShelfState::Unshelved,
        Shelf::Timed { start: _, until } => {
            let t = now.seconds();
            if t < until {
                ShelfState::TimedShelved(until - t)
            } else {
                ShelfState::Unshelved
            }
        }
        Shelf::OneShot { start, until } => {
            let t = now.seconds();
            if t < until && !is_after(start, returned) {
                ShelfState::OneShotShelved(until - t)
            } else {
                ShelfState::Unshelved
            }
        }
    }
}

fn is_after(start: Moment, returned: Option<Moment>) -> bool
    ensures { result ≡ shelves.is_after start returned }
{
    returned.is_some_and(|last| start.seconds() < last.seconds())
}

/// Shelves for a time. Refused, in this order: a time above the limit `max`, and an alarm that is
/// shelved for a time now. A one-shot shelf is replaced.
pub fn timed(
    shelf: &Shelf,
    returned: Option<Moment>,
    now: Moment,
    seconds: Seconds,
    max: Seconds,
) -> Result<Shelf, ShelfRefused>
    ensures { result ≡ timed_answer (shelf_state shelf.now returned now) now seconds max }
{
    if seconds.get() > max.get() {
        return Err(ShelfRefused::ShelvingTimeOutOfRange(max));
    }
    match shelf_at(shelf, returned, now) {
        ShelfState::TimedShelved(_) => Err(ShelfRefused::ConditionAlreadyShelved),
        _ => Ok(Shelf::Timed {
            start: now,
            until: now.seconds() + seconds.get(),
        }),
    }
}

/// Shelves until the alarm returns to normal, but no longer than the limit `max`. Refused if the
/// alarm has a one-shot shelf now. A shelf for a time is replaced.
pub fn one_shot(
    shelf: &Shelf,
    returned: Option<Moment>,
    now: Moment,
    max: Seconds,
) -> Result<Shelf, ShelfRefused>
    ensures { result ≡ one_shot_answer (shelf_state shelf.now returned now) now max }
{
    match shelf_at(shelf, returned, now) {
        ShelfState::OneShotShelved(_) => Err(ShelfRefused::ConditionAlreadyShelved),
        _ => Ok(Shelf::OneShot {
            start: now,
            until: now.seconds() + max.get(),
        }),
    }
}

/// Ends the shelf. Refused if the alarm is not shelved now.
pub fn unshelve(shelf: &Shelf, returned: Option<Moment>, now: Moment) -> Result<Shelf, ShelfRefused>
    ensures { result ≡ unshelve_answer (shelf_state shelf.now returned now) }
{
    match shelf_at(shelf, returned, now) {
        ShelfState::Unshelved => Err(ShelfRefused::ConditionNotShelved),
        _ => Ok(Shelf::Clear),
    }
}
