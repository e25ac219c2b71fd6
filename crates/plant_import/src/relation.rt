//! How one event relates to a list of events: new, already in it, in conflict with one of the same number, or out
//! of order in time. The two events nearest to its number suffice to decide it.

ghost use Rattle.std.specs.{List.{list_any, Sorted.{IsPartitionPoint}}, Prelude.{◌≡◌, ◌≤◌, ◌<◌, List, length, nat_lt}};
ghost use Rattle.plant_alarm.specs.declared.event.Event.{Event as TheEvent};
ghost use Rattle.plant_import.specs.{Merging.{IsRising, same_event}, Numbers.{AreByNumber, AreNumbered}};
ghost use Rattle.plant_import.specs.Relation.{AreNearest, IsFirst, IsLast, IsRelated};
ghost use Rattle.plant_import.specs.Relation as relation;

use plant_alarm::{Event, Number};
use plant_types::Sorted;
use std::collections::BTreeMap;

/// How an event relates to other events, which are ordered by number.
#[derive(Clone, Copy)]
pub enum Relation {
    /// No other event has its number, and its moment is in order.
    New,
    /// It is one of them.
    Known,
    /// One has its number but other content.
    Clash,
    /// No other event has its number. One has a smaller number and a later moment, or a greater number and
    /// an earlier moment.
    OutOfOrder,
}

/// The events on both sides of a number.
#[derive(Clone, Copy)]
pub struct Nearest<'a> {
    /// The last with a smaller number.
    pub below: Option<&'a Event>,
    /// The first with this number or a greater one.
    pub from: Option<&'a Event>,
}

/// The events that are nearest to a number.
pub fn nearest_among<'a>(events: &'a Sorted<Event>, seq: Number) -> Nearest<'a>
    ensures { AreNearest events.now seq result }
{
    let (below, from) = events.split(&seq);
    Nearest {
        below: below.last(),
        from: from.first(),
    }
}

/// The events in a map that are nearest to a number.
pub fn nearest_by_number<'a>(events: &'a BTreeMap<Number, Event>, seq: Number) -> Nearest<'a>
    ensures { (es : List TheEvent) → AreByNumber events.now es → AreNearest es seq result }
{
    Nearest {
        below: last_below(events, seq),
        from: first_from(events, seq),
    }
}

fn last_below(events: &BTreeMap<Number, Event>, seq: Number) -> Option<&Event>
    ensures { (es : List TheEvent) → AreByNumber events.now es
        → IsLast (relation.below seq es) result }
{
    match events.range(..seq).next_back() {
        Some((_, event)) => Some(event),
        None => None,
    }
}

fn first_from(events: &BTreeMap<Number, Event>, seq: Number) -> Option<&Event>
    ensures { (es : List TheEvent) → AreByNumber events.now es
        → IsFirst (relation.from seq es) result }
{
    match events.range(seq..).next() {
        Some((_, event)) => Some(event),
        None => None,
    }
}

/// How an event relates to other events, of which `nearest` are the ones nearest to its number. The other events are
/// ordered by number, and their moments do not fall.
pub fn relation_of(nearest: Nearest<'_>, event: &Event) -> Relation
    ensures { (es : List TheEvent) → IsRising es → AreNearest es event.now.seq nearest.entry
        → IsRelated es event.now result }
{
    if let Some(other) = nearest.from {
        if other.seq == event.seq {
            return if is_same(event, other) {
                Relation::Known
            } else {
                Relation::Clash
            };
        }
    }
    let is_early = is_before_last(event, nearest.below);
    let is_late = is_after_first(event, nearest.from);
    if is_early || is_late {
        Relation::OutOfOrder
    } else {
        Relation::New
    }
}

/// How many events have a smaller number. The events are ordered by number.
pub fn place_of(events: &[Event], seq: Number) -> usize
    ensures bound { result ≤ length events.now }
    ensures place { AreNumbered events.now
        → IsPartitionPoint (λ e. e.seq < seq) (λ e. seq ≤ e.seq) events.now result }
{
    events.partition_point(|event| event.seq < seq)
}

/// Whether an event is earlier than the last of some other events, and so than at least one of them.
#[tactic(auto, using(crate::proofs::public::Risings::last_none))]
fn is_before_last(event: &Event, last: Option<&Event>) -> bool
    ensures { (es : List TheEvent) → IsRising es → IsLast es last.entry
        → result ≡ list_any (λ e. nat_lt event.now.moment e.moment) es }
{
    match last {
        Some(last) => event.moment < last.moment,
        None => false,
    }
}

/// Whether an event is later than the first of some other events, and so than at least one of them.
#[tactic(auto, using(crate::proofs::public::Risings::first_none))]
fn is_after_first(event: &Event, first: Option<&Event>) -> bool
    ensures { (es : List TheEvent) → IsRising es → IsFirst es first.entry
        → result ≡ list_any (λ e. nat_lt e.moment event.now.moment) es }
{
    match first {
        Some(first) => first.moment < event.moment,
        None => false,
    }
}

fn is_same(event: &Event, other: &Event) -> bool
    ensures { result ≡ same_event event.now other.now }
{
    event == other
}
