//! Compares the rows of an import file with the unit's events: which rows are new, how many are repeated, or the
//! first faulty row and why it is faulty.

ghost use Rattle.std.specs.{BTreeMap.{BTreeMap as TheMap}, List.{list_all, list_any}};
ghost use Rattle.std.specs.Prelude.{◌≡◌, ◌+◌, ◌++◌, ◌∷◌, [], IfOk, IsTrue, List, MatchOption, None, OnOk, Some, length, map, nat_lt, ℕ};
ghost use Rattle.plant_alarm.specs.declared.event.Event.{Event as TheEvent};
ghost use Rattle.plant_types.specs.{Names.{Name, same_name}, Results.{OnlyMemory}};
ghost use Rattle.plant_import.specs.{Merging.{IsRising}, Numbers.{AreByNumber, AreNumbered, with_event}, Relation.{AreNearest, JudgesRow}};
ghost use Rattle.plant_import.specs.Merging as merging;
ghost use Rattle.plant_import.specs.Relation as relation;

use crate::event_numbers::{put, rise};
use crate::relation::{Nearest, Relation, nearest_among, nearest_by_number, relation_of};
use crate::{BadFile, Cause};
use plant_alarm::{Event, Number};
use plant_types::{Fault, Keyed, List, Moment, Sorted, Tag};
use std::alloc::Global;
use std::collections::BTreeMap;

/// What a file adds to the events of a unit.
#[derive(Drop)]
pub struct Merged {
    /// The rows that are not kept yet, each once, in the file's order.
    pub fresh: List<Event>,
    /// How many rows are kept already or repeat an earlier line.
    pub repeated: u64,
}

/// What a file adds to the kept events, whose moments do not fall, or its first faulty row with the first cause of that
/// row.
pub fn merge<T: Keyed<Key = Tag>>(
    alloc: Global,
    kept: &Sorted<Event>,
    file: &[Event],
    alarms: &Sorted<T>,
    now: Moment,
) -> Result<Result<Merged, BadFile>, Fault>
    ensures value { IsRising kept.now → IfOk result
        (λ merged. merged ≡ merging.merge kept.now file.now (map T.key alarms.now) now) }
    ensures counted { IfOk result
        (λ merged. IfOk merged (λ m. m.repeated + length m.fresh ≡ length file.now)) }
    ensures err { OnlyMemory result }
{
    let mut fresh = List::with_capacity(alloc, file.len())?;
    let mut rising = tree_for(alloc, file);
    let mut repeated = 0;
    let mut next = 0;
    for (i, event) in file.iter().enumerate() {
        let nearest = nearest_new(fresh.as_slice(), &rising, event.seq);
        let is_known = alarms.get_next(&mut next, &event.tag).is_some();
        let is_new = match judged(kept, nearest, event, is_known, now) {
            Ok(is_new) => is_new,
            Err(cause) => {
                return Ok(Err(BadFile {
                    line: i as u64 + 2,
                    cause,
                }));
            }
        };
        if is_new {
            add(alloc, &mut fresh, &mut rising, event)?;
        } else {
            repeated += 1;
        }
    }
    Ok(Ok(Merged { fresh, repeated }))
}

/// An empty tree for the new rows of a file. `None` if the file's numbers rise: its rows then need no tree.
fn tree_for(alloc: Global, file: &[Event]) -> Option<BTreeMap<Number, Event>>
    ensures { MatchOption result (AreNumbered file.now) (λ m. AreByNumber m []) }
{
    if rise(file) {
        None
    } else {
        Some(BTreeMap::new(alloc))
    }
}

/// Of the new rows before a row, the ones nearest to it by number. Without a tree, all of them have smaller numbers.
fn nearest_new<'a>(
    fresh: &'a [Event],
    rising: &'a Option<BTreeMap<Number, Event>>,
    seq: Number,
) -> Nearest<'a>
    ensures by_number { (m : TheMap ℕ TheEvent) (es : List TheEvent)
        → rising.now ≡ Some m → AreByNumber m es → AreNearest es seq result }
    ensures below { rising.now ≡ None → IsTrue (list_all (λ e. nat_lt e.seq seq) fresh.now)
        → AreNearest fresh.now seq result }
{
    match rising {
        Some(rising) => nearest_by_number(rising, seq),
        None => Nearest {
            below: fresh.last(),
            from: None,
        },
    }
}

/// Adds a new row to the list in the file's order and, if there is a tree, to the tree.
fn add(
    alloc: Global,
    fresh: &mut List<Event>,
    rising: &mut Option<BTreeMap<Number, Event>>,
    event: &Event,
) -> Result<(), Fault>
    ensures fresh { OnOk result (fresh.new ≡ fresh.old ++ event.now ∷ []) }
    ensures none { rising.old ≡ None → OnOk result (rising.new ≡ None) }
    ensures rising { (m : TheMap ℕ TheEvent) (es : List TheEvent)
        → rising.old ≡ Some m → AreByNumber m es
        → OnOk result (MatchOption rising.new ⊥ (λ m. AreByNumber m (with_event event.now es))) }
    ensures err { OnlyMemory result }
{
    fresh.push(event.copy(alloc)?)?;
    if let Some(rising) = rising {
        put(rising, event.copy(alloc)?)?;
    }
    Ok(())
}

/// Whether a row is new, or its first fault. It is compared with the kept events and with the earlier new rows, of
/// which
/// `nearest` are the ones nearest to it by number. `is_known` is whether the unit has the row's alarm.
#[tactic(auto, unfolding(crate::specs::Merging::merge_fault))]
fn judged(
    kept: &Sorted<Event>,
    nearest: Nearest<'_>,
    event: &Event,
    is_known: bool,
    now: Moment,
) -> Result<bool, Cause>
    ensures { (tags : List Name) → is_known ≡ list_any (same_name event.now.tag) tags → IsRising kept.now
        → (seen : List TheEvent) → IsRising seen → AreNearest seen event.now.seq nearest.entry
        → JudgesRow tags now kept.now seen event.now result }
{
    if !is_known {
        return Err(Cause::TagUnknown);
    }
    if now < event.moment {
        return Err(Cause::MomentAhead);
    }
    joined(
        relation_of(nearest_among(kept, event.seq), event),
        relation_of(nearest, event),
    )
}

/// Combines a row's relation to the kept events with its relation to the earlier new rows.
fn joined(kept: Relation, fresh: Relation) -> Result<bool, Cause>
    ensures { result ≡ relation.joined kept fresh }
{
    match (kept, fresh) {
        (Relation::Clash, _) | (_, Relation::Clash) => Err(Cause::SequenceClash),
        (Relation::OutOfOrder, _) | (_, Relation::OutOfOrder) => Err(Cause::MomentOutOfOrder),
        (Relation::New, Relation::New) => Ok(true),
        (Relation::Known, _) | (_, Relation::Known) => Ok(false),
    }
}
