//! The cache: the rows of the units that were used last, up to a limit on the number of rows of all units. The unit
//! that was used least recently is dropped first.

ghost use Rattle.std.specs.{Map.{lookup, lookup_entry}, Prelude.{◌≡◌, ◌≤◌, ◌+◌, [], flat_map, IfOk, IfSome, IsTrue, option_copied, unwrap_or}};
ghost use Rattle.plant_books.specs.Contents.{Content, after_changes, shelves_there};
ghost use Rattle.std.specs.FinMap.{get};
ghost use Rattle.plant_books_cache.specs.Cache.{AreCopies, There, DiffersAt, StayCopies, StayCopiesWith};
ghost use Rattle.plant_model.specs.steps.RowChanges.{no_rows};
ghost use Rattle.plant_types.specs.{Limits.{max_cached_rows}, Names.{same_name}, Results.{OnlyMemory}};
ghost use Rattle.plant_books_cache.specs.Cache as copies;

use crate::cached_unit::CachedUnit;
use lru::LruCache;
use plant_alarm::Event;
use plant_books::{MineRow, push_shelves};
use plant_model::Changes;
use plant_types::limits::MAX_CACHED_ROWS;
use plant_types::{Fault, List, Sorted, UnitCode};
use std::alloc::Global;

/// Cached rows of some units: never more rows than the limit, which is never above `MAX_CACHED_ROWS`.
#[derive(Drop)]
pub struct Cache {
    pub units: LruCache<UnitCode, CachedUnit>,
    rows: u128,
    limit: u128,
    ghost counted: { copies.rows_of_all units.entries ≤ rows },
    ghost within: { rows ≤ limit },
    ghost limited: { limit ≤ max_cached_rows },
}

/// The limit, or the greatest one if it is above that.
fn limit_within(limit: u128) -> u128
    ensures most { result ≤ MAX_CACHED_ROWS }
    ensures same { limit ≤ MAX_CACHED_ROWS → result ≡ limit }
{
    if limit > MAX_CACHED_ROWS {
        MAX_CACHED_ROWS
    } else {
        limit
    }
}

impl Cache {
    /// An empty cache with room for `limit` rows, but for no more than `MAX_CACHED_ROWS`.
    pub fn new(alloc: Global, limit: u128) -> Result<Cache, Fault>
        ensures none { IfOk result (λ c. c.units.entries ≡ []) }
        ensures limit { limit ≤ MAX_CACHED_ROWS → IfOk result (λ c. c.limit ≡ limit) }
        ensures memory { OnlyMemory result }
    {
        let limit = limit_within(limit);
        Ok(Cache {
            units: LruCache::unbounded(alloc)?,
            rows: 0,
            limit,
        })
    }

    /// The limit, which the number of all cached rows does not exceed.
    pub fn row_limit(&self) -> u128
        ensures rows { copies.rows_of_all self.now.units.entries ≤ result }
        ensures limit { result ≤ MAX_CACHED_ROWS }
    {
        self.limit
    }

    /// Makes the unit the one used last, if its rows are cached.
    #[tactic(auto, using(crate::proofs::CopyLaws::count_promoted, crate::proofs::CopyLaws::true_promoted))]
    pub fn touch(&mut self, unit: &UnitCode)
        ensures kept { StayCopies self.old.units.entries self.new.units.entries }
        ensures limit { self.new.limit ≡ self.old.limit }
    {
        self.units.promote(unit);
    }

    /// The unit's cached rows, if any.
    pub fn copy_of(&self, unit: &UnitCode) -> Option<&CachedUnit>
        ensures { option_copied result ≡ lookup (same_name unit.now) self.now.units.entries }
    {
        self.units.peek(unit)
    }

    /// The unit's events, if they are cached.
    pub fn events_of(&self, unit: &UnitCode) -> Option<&Sorted<Event>>
        ensures { (there : There) → AreCopies there self.now.units.entries
            → IfSome result (λ events. events.now ≡ (unwrap_or (there unit.now) no_rows).events) }
    {
        match self.copy_of(unit) {
            Some(copy) if copy.has_events => Some(&copy.rows.events),
            _ => None,
        }
    }

    /// The shelves of these units, one unit after another. `None` unless the rows of each are cached.
    pub fn shelves_of(
        &self,
        alloc: Global,
        units: &[UnitCode],
    ) -> Result<Option<List<MineRow>>, Fault>
        ensures found { (there : There) → AreCopies there self.now.units.entries
            → IfOk result (λ found. IfSome found (λ mine. mine
            ≡ flat_map (λ u. shelves_there u (there u)) units.now)) }
        ensures memory { OnlyMemory result }
    {
        let mut mine = List::new(alloc);
        for unit in units {
            let Some(copy) = self.copy_of(unit) else {
                return Ok(None);
            };
            push_shelves(alloc, &mut mine, unit, &copy.rows)?;
        }
        Ok(Some(mine))
    }

    /// Removes and returns the unit's rows, with the code under which they were cached.
    #[tactic(auto, using(crate::proofs::CopyLaws::count_removed, crate::proofs::CopyLaws::count_rest, crate::proofs::CopyLaws::true_without))]
    pub fn take(&mut self, unit: &UnitCode) -> Option<(UnitCode, CachedUnit)>
        ensures taken { result ≡ lookup_entry (same_name unit.now) self.old.units.entries }
        ensures rest { (there after : There) → DiffersAt unit.now there after
            → AreCopies there self.old.units.entries → AreCopies after self.new.units.entries }
        ensures limit { self.new.limit ≡ self.old.limit }
    {
        let _count = self.units.len();
        let (unit, copy) = self.units.pop_entry(unit)?;
        self.rows -= copy.row_count();
        Some((unit, copy))
    }

    /// Drops the rows of all units.
    pub fn clear(&mut self)
        ensures none { self.new.units.entries ≡ [] }
        ensures limit { self.new.limit ≡ self.old.limit }
    {
        self.units.clear();
        self.rows = 0;
    }

    /// Drops the unit that was used least recently.
    #[tactic(auto, using(crate::proofs::CopyLaws::count_last, crate::proofs::CopyLaws::count_taken, crate::proofs::CopyLaws::true_taken))]
    fn drop_last(&mut self)
        ensures kept { StayCopies self.old.units.entries self.new.units.entries }
        ensures limit { self.new.limit ≡ self.old.limit }
    {
        if let Some((_, copy)) = self.units.pop_lru() {
            self.rows -= copy.row_count();
        }
    }

    /// Drops units, those used least recently first, until there is room for `more` rows.
    fn make_room(&mut self, more: u128)
        ensures kept { StayCopies self.old.units.entries self.new.units.entries }
        ensures limit { self.new.limit ≡ self.old.limit }
    {
        for _ in 0..self.units.len() {
            if more <= self.limit - self.rows {
                return;
            }
            self.drop_last();
        }
    }

    /// Makes room for `more` rows, unless they are more than may be cached. Returns whether there is room now.
    fn has_room_for(&mut self, more: u128) -> bool
        ensures kept { StayCopies self.old.units.entries self.new.units.entries }
        ensures limit { self.new.limit ≡ self.old.limit }
        ensures room { IsTrue result → self.new.rows + more ≤ self.new.limit }
    {
        if more > self.limit {
            return false;
        }
        self.make_room(more);
        more <= self.limit - self.rows
    }

    /// Caches a unit's rows, in place of those used least recently. Nothing is cached for a unit that has more rows
    /// than may be cached, or if memory runs out.
    pub fn keep(&mut self, unit: UnitCode, copy: CachedUnit)
        ensures kept { StayCopiesWith (unit, copy) self.old.units.entries self.new.units.entries }
        ensures limit { self.new.limit ≡ self.old.limit }
    {
        let more = copy.row_count();
        if self.has_room_for(more) {
            self.put(unit, copy, more);
        }
    }

    /// Makes the changes, which were made in the books below, to the unit's cached rows too. It takes over the changed
    /// rows.
    pub fn follow(&mut self, alloc: Global, unit: &UnitCode, changes: Changes)
        ensures copied { (m : Content) → AreCopies (get m.units) self.old.units.entries
            → AreCopies (get (after_changes m unit.now changes).units) self.new.units.entries }
        ensures limit { self.new.limit ≡ self.old.limit }
    {
        if let Some((unit, copy)) = self.take(unit) {
            if let Some(copy) = copy.after(alloc, changes) {
                self.keep(unit, copy);
            }
        }
    }

    /// Caches a unit's rows, for which there is room.
    #[tactic(auto, using(crate::proofs::CopyLaws::count_put, crate::proofs::CopyLaws::true_put))]
    fn put(&mut self, unit: UnitCode, copy: CachedUnit, more: u128)
        requires room { self.old.rows + more ≤ self.old.limit }
        requires counted { more ≡ copies.row_count copy.rows }
        ensures kept { StayCopiesWith (unit, copy) self.old.units.entries self.new.units.entries }
        ensures limit { self.new.limit ≡ self.old.limit }
    {
        match self.units.put(unit, copy) {
            Ok(old) => {
                drop(old);
                self.rows += more;
            }
            Err(failed) => drop(failed),
        }
    }
}
