//! Copies of the rows whose tags are wanted, and of the alarms that have a shelf.

ghost use Rattle.std.specs.Prelude.{◌≡◌, IfOk, option_copied, option_to_list};
ghost use Rattle.plant_books.specs.Found.{rows_wanted, shelved};
ghost use Rattle.plant_types.specs.Results.{Gives, OnlyMemory};

use crate::asking::Wanted;
use plant_model::{AlarmRow, ShelfRow};
use plant_types::{Fault, Keyed, List, Sorted, Tag, TryCopy};
use std::alloc::Global;

/// A table with a copy of the row, or without rows if there is none.
fn one_copy<T: Keyed + TryCopy>(alloc: Global, row: Option<&T>) -> Result<Sorted<T>, Fault>
    ensures value { IfOk result (λ rows. rows ≡ option_to_list (option_copied row.entry)) }
    ensures memory { OnlyMemory result }
{
    let mut rows = Sorted::new(alloc);
    if let Some(row) = row {
        rows.put(row.copy(alloc)?)?;
    }
    Ok(rows)
}

/// Copies of the rows whose tags are wanted.
pub fn rows_wanted<T: Keyed<Key = Tag> + TryCopy>(
    alloc: Global,
    rows: &Sorted<T>,
    wanted: &Wanted<'_>,
) -> Result<Sorted<T>, Fault>
    ensures value { Gives result (rows_wanted T.key wanted.now rows.now) }
    ensures memory { OnlyMemory result }
{
    // Gives the proof the order of the rows; checks nothing at run time.
    let _rows = rows.as_slice();
    match wanted {
        Wanted::Nothing => Ok(Sorted::new(alloc)),
        Wanted::One(tag) => one_copy(alloc, rows.get(*tag)),
        Wanted::Every => rows.copy(alloc),
    }
}

/// Copies of the alarms that have one of these shelves.
pub fn shelved_alarms(
    alloc: Global,
    alarms: &Sorted<AlarmRow>,
    shelves: &Sorted<ShelfRow>,
) -> Result<Sorted<AlarmRow>, Fault>
    ensures value { Gives result (shelved shelves.now alarms.now) }
    ensures memory { OnlyMemory result }
{
    // Gives the proof the order of the alarms; checks nothing at run time.
    let _alarms = alarms.as_slice();
    let mut found = List::new(alloc);
    let mut next = 0;
    for shelf in shelves.as_slice() {
        if let Some(alarm) = alarms.get_next(&mut next, &shelf.tag) {
            found.push(alarm.copy(alloc)?)?;
        }
    }
    Ok(Sorted::of(found))
}
