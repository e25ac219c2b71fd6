//! The cached rows of one unit: whether they suffice to serve a call, and what they become after changes.

ghost use Rattle.std.specs.Prelude.{◌≡◌, ◌&&◌, IfSome, IsTrue, not};
ghost use Rattle.plant_books.specs.{Changing.{puts_event}, Contents.{Content, after_changes as content_after, without_reviews as unreviewed}};
ghost use Rattle.plant_books_cache.specs.Cache.{IsCopy, seen};
ghost use Rattle.plant_model.specs.declared.rows.UnitRows.{UnitRows as TheRows};
ghost use Rattle.plant_model.specs.steps.Parts.{part_of};
ghost use Rattle.plant_types.specs.Names.{Name};
ghost use Rattle.std.specs.FinMap as fin;
ghost use Rattle.plant_books_cache.specs.Cache as copies;

use plant_books::{after_changes, puts_event};
use plant_model::{Call, RowEdit, UnitRows, holds_some_by, looks_at_events, looks_at_reviews};
use plant_types::{List, Sorted};
use std::alloc::Global;

/// A unit's cached rows: all except its matrices and changes, with its events or without them.
#[derive(Drop)]
pub struct CachedUnit {
    pub rows: UnitRows,
    pub has_events: bool,
}

/// The rows without the matrices and the changes.
fn without_reviews(alloc: Global, rows: UnitRows) -> UnitRows
    ensures { result ≡ unreviewed rows }
{
    UnitRows {
        bands: Sorted::new(alloc),
        cells: Sorted::new(alloc),
        changes: Sorted::new(alloc),
        ..rows
    }
}

impl CachedUnit {
    /// How many rows are cached.
    pub fn row_count(&self) -> u128
        ensures { result ≡ copies.row_count self.now.rows }
    {
        let rows = &self.rows;
        rows.units.len() as u128
            + rows.grants.len() as u128
            + rows.alarms.len() as u128
            + rows.shelves.len() as u128
            + rows.events.len() as u128
            + rows.bands.len() as u128
            + rows.cells.len() as u128
            + rows.records.len() as u128
            + rows.changes.len() as u128
    }

    /// Whether everything that the call looks at is cached. For a caller who holds no role, no events are needed.
    #[tactic(auto, using(crate::proofs::CopyLaws::part_seen, crate::proofs::CopyLaws::part_with_events, crate::proofs::CopyLaws::part_of_none))]
    pub fn serves(&self, call: &Call) -> bool
        ensures { IsTrue result → (rows : TheRows) → seen self.now.has_events rows ≡ self.now.rows
            → part_of call.now self.now.rows ≡ part_of call.now rows }
    {
        if looks_at_reviews(&call.request) {
            return false;
        }
        if self.has_events {
            return true;
        }
        if !looks_at_events(&call.request) {
            return true;
        }
        !holds_some_by(&self.rows.grants, &call.person, call.moment)
    }

    /// Whether the changes put an event while the unit's events are not cached.
    fn misses(&self, changes: &List<RowEdit>) -> bool
        ensures { result ≡ (not self.now.has_events && puts_event changes.now) }
    {
        !self.has_events && puts_event(changes)
    }

    /// The cached rows after the changes. `None` if an event is put while the unit's events are not cached, or if
    /// memory runs out.
    pub fn after(self, alloc: Global, changes: List<RowEdit>) -> Option<CachedUnit>
        ensures { (m : Content) (u : Name) → IsCopy (fin.get m.units) (u, self)
            → IfSome result (λ after.
            IsCopy (fin.get (content_after m u changes).units) (u, after)) }
    {
        if self.misses(&changes) {
            return None;
        }
        let CachedUnit { rows, has_events } = self;
        match after_changes(alloc, rows, changes) {
            Ok(rows) => Some(CachedUnit {
                rows: without_reviews(alloc, rows),
                has_events,
            }),
            Err(_) => None,
        }
    }
}
