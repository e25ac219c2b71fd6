//! Rows in the order of their keys, each key once. They are found by binary search, or at once where a search
//! continues next to the place of the one before.

ghost use Rattle.std.specs.Prelude.{◌≡◌, ◌↔◌, ◌-◌, ◌≤◌, ◌++◌, [], length, is_some, option_copied, slice_get, IsOk, IsTrue, OnOk, OnErr, IfOk, IfErr};
ghost use Rattle.plant_types.specs.KeyedRows.{IsFound, IsInOrder, IsPlace, IsPlaceFor, IsPlaceOf, cmp_at, put_row, remove_row, row_at, rows_below, rows_from};
ghost use Rattle.std.specs.declared.cmp.Ordering.TheVariants.{Greater};
ghost use Rattle.plant_types.specs.Results.{OnlyMemory};

use crate::{Fault, Keyed, List, TryCopy, copy_all};
use std::alloc::Global;
use std::cmp::Ordering;
use std::marker::Model;

/// Rows in the order of their keys, each key once. Contracts see them as the list of the rows.
#[derive(Drop)]
pub struct Sorted<T: Keyed> {
    rows: List<T>,
}

impl<T: Keyed> Model for Sorted<T> {
    ghost use Rattle.std.specs.Prelude.{List};
    ghost use Rattle.plant_types.specs.KeyedRows.{IsInOrder};

    ghost Value = { List T };

    ghost view = { λ s. s.rows };

    ghost invariant = { λ s. IsInOrder T.order T.key s.rows };
}

/// Whether the rows are in the order of their keys.
fn rise<T: Keyed>(rows: &[T]) -> bool
    ensures { IsTrue result ↔ IsInOrder T.order T.key rows.now }
{
    rows.is_sorted_by(|row, next| row.row_cmp(next).is_lt())
}

impl<T: Keyed> Sorted<T> {
    /// No rows. It takes no memory.
    pub fn new(alloc: Global) -> Self
        ensures { result ≡ [] }
    {
        Sorted {
            rows: List::new(alloc),
        }
    }

    /// The rows, if they are in the order of their keys. Otherwise the list is given back.
    pub fn from_list(list: List<T>) -> Result<Self, List<T>>
        ensures ok { IfOk result (λ s. s ≡ list) }
        ensures err { IfErr result (λ l. l ≡ list) }
        ensures when { IsOk result ↔ IsInOrder T.order T.key list }
    {
        if rise(list.as_slice()) {
            Ok(Sorted { rows: list })
        } else {
            Err(list)
        }
    }

    /// Rows that are known to be in order. Nothing is checked at run time.
    pub fn of(list: List<T>) -> Self
        requires { IsInOrder T.order T.key list }
        ensures { result ≡ list }
    {
        Sorted { rows: list }
    }

    /// The rows.
    pub fn as_slice(&self) -> &[T]
        ensures value { result.now ≡ self.now }
        ensures order { IsInOrder T.order T.key self.now }
    {
        self.rows.as_slice()
    }

    /// The rows, as a list.
    pub fn into_list(self) -> List<T>
        ensures value { result ≡ self }
        ensures order { IsInOrder T.order T.key self }
    {
        self.rows
    }

    /// How many rows there are.
    pub fn len(&self) -> usize
        ensures { result ≡ length self.now }
    {
        self.rows.len()
    }

    /// How many rows have a smaller key, found by binary search.
    pub fn place(&self, key: &T::Key) -> usize
        ensures bound { result ≤ length self.now }
        ensures place { IsPlace T.order T.key key.now self.now result }
    {
        let rows = self.as_slice();
        rows.partition_point(|row| row.key_cmp(key).is_lt())
    }

    /// How many rows have a smaller key than this row: all, if the last row has; otherwise found by binary search.
    fn place_from(&self, row: &T) -> usize
        ensures bound { result ≤ length self.now }
        ensures place { IsPlace T.order T.key (T.key row.now) self.now result }
    {
        let rows = self.as_slice();
        match rows.last() {
            Some(last) if last.row_cmp(row).is_lt() => rows.len(),
            _ => rows.partition_point(|other| other.row_cmp(row).is_lt()),
        }
    }

    /// `Ok` with the place of the row with the same key, or else `Err` with the place where this row belongs.
    fn place_for(&self, row: &T) -> Result<usize, usize>
        ensures { IsPlaceFor T.order T.key row.now self.now result }
    {
        let place = self.place_from(row);
        match self.as_slice().get(place) {
            Some(other) if row.row_cmp(other).is_eq() => Ok(place),
            _ => Err(place),
        }
    }

    /// The row with the key, if any: it is then at the key's place.
    fn row_at(&self, place: usize, key: &T::Key) -> Option<&T>
        requires { IsPlace T.order T.key key.now self.now place }
        ensures { option_copied result ≡ row_at T.order T.key key.now self.now }
    {
        match self.as_slice().get(place) {
            Some(row) if row.key_cmp(key).is_eq() => Some(row),
            _ => None,
        }
    }

    /// The row with the key, if any.
    pub fn get(&self, key: &T::Key) -> Option<&T>
        ensures { option_copied result ≡ row_at T.order T.key key.now self.now }
    {
        self.row_at(self.place(key), key)
    }

    /// How the key of the row at the place compares with this key. Past the end it is greater.
    fn cmp_at(&self, place: usize, key: &T::Key) -> Ordering
        ensures value { result ≡ cmp_at T.order T.key key.now self.now place }
        ensures order { IsInOrder T.order T.key self.now }
    {
        match self.as_slice().get(place) {
            Some(row) => row.key_cmp(key),
            None => Ordering::Greater,
        }
    }

    /// `Ok` with the place of the row with the key, or else `Err` with some place. Found by binary search.
    fn find(&self, key: &T::Key) -> Result<usize, usize>
        ensures { IsFound T.order T.key key.now self.now result }
    {
        let place = self.place(key);
        if self.cmp_at(place, key).is_eq() {
            Ok(place)
        } else {
            Err(place)
        }
    }

    /// As `find`, if the row at the place has a greater key or the place is past the end. Looks first at the row before
    /// it.
    fn find_before(&self, place: usize, key: &T::Key) -> Result<usize, usize>
        requires order { IsInOrder T.order T.key self.now }
        requires place { cmp_at T.order T.key key.now self.now place ≡ Greater }
        ensures { IsFound T.order T.key key.now self.now result }
    {
        if place == 0 {
            return Err(0);
        }
        match self.cmp_at(place - 1, key) {
            Ordering::Less => Err(place),
            Ordering::Equal => Ok(place - 1),
            Ordering::Greater => self.find(key),
        }
    }

    /// As `find`, if the row at the place has a smaller key. Looks first at the row after it.
    fn find_behind(&self, place: usize, key: &T::Key) -> Result<usize, usize>
        ensures { IsFound T.order T.key key.now self.now result }
    {
        let behind = place.saturating_add(1);
        if self.cmp_at(behind, key).is_eq() {
            Ok(behind)
        } else {
            self.find(key)
        }
    }

    /// As `find`. Looks first at the row at the place, and then at the one before or after it.
    fn find_near(&self, place: usize, key: &T::Key) -> Result<usize, usize>
        ensures { IsFound T.order T.key key.now self.now result }
    {
        match self.cmp_at(place, key) {
            Ordering::Less => self.find_behind(place, key),
            Ordering::Equal => Ok(place),
            Ordering::Greater => self.find_before(place, key),
        }
    }

    /// The place of the row with the key, if any. Looks first at the place `next`, and then at the one before or after
    /// it. Then `next` becomes the place after the row, or the row's own place if it lies before `next`; if no row has
    /// the key, the place where it belongs. So rows asked for one after another, or twice, are found without a binary
    /// search.
    pub fn place_next(&self, next: &mut usize, key: &T::Key) -> Option<usize>
        ensures { IsPlaceOf T.order T.key key.now self.now result }
    {
        match self.find_near(*next, key) {
            Ok(place) => {
                *next = place.saturating_add(usize::from(place >= *next));
                Some(place)
            }
            Err(place) => {
                *next = place;
                None
            }
        }
    }

    /// The row with the key, if any, looked for as in `place_next`.
    pub fn get_next(&self, next: &mut usize, key: &T::Key) -> Option<&T>
        ensures { option_copied result ≡ row_at T.order T.key key.now self.now }
    {
        let place = self.place_next(next, key)?;
        self.as_slice().get(place)
    }

    /// Whether some row has the key.
    pub fn has(&self, key: &T::Key) -> bool
        ensures { result ≡ is_some (row_at T.order T.key key.now self.now) }
    {
        self.get(key).is_some()
    }

    /// The last row.
    pub fn last(&self) -> Option<&T>
        ensures { option_copied result ≡ slice_get self.now (length self.now - 1) }
    {
        self.as_slice().last()
    }

    /// The rows with smaller keys, and the others.
    pub fn split(&self, key: &T::Key) -> (&[T], &[T])
        ensures below { result.0.now ≡ rows_below T.order T.key key.now self.now }
        ensures from { result.1.now ≡ rows_from T.order T.key key.now self.now }
    {
        self.as_slice().split_at(self.place(key))
    }

    /// Replaces the row with the same key, or else inserts the row where it belongs. If memory runs out, the rows are
    /// unchanged.
    pub fn put(&mut self, row: T) -> Result<(), Fault>
        ensures ok { OnOk result (self.new ≡ put_row T.order T.key row self.old) }
        ensures err { OnErr result (self.new ≡ self.old) }
        ensures memory { OnlyMemory result }
    {
        match self.place_for(&row) {
            Ok(place) => {
                self.rows.replace_at(place, row);
                Ok(())
            }
            Err(place) => self.rows.insert_at(place, row),
        }
    }

    /// Moves rows to the end. They are known to be in order and to come after all others; nothing is checked at run
    /// time. If memory runs out, the rows are unchanged.
    pub fn append(&mut self, more: List<T>) -> Result<(), Fault>
        requires { IsInOrder T.order T.key (self.old ++ more) }
        ensures ok { OnOk result (self.new ≡ self.old ++ more) }
        ensures err { OnErr result (self.new ≡ self.old) }
        ensures memory { OnlyMemory result }
    {
        self.rows.append(more)
    }

    /// Removes and returns the row with the key, if any.
    pub fn remove(&mut self, key: &T::Key) -> Option<T>
        ensures taken { result ≡ row_at T.order T.key key.now self.old }
        ensures rest { self.new ≡ remove_row T.order T.key key.now self.old }
    {
        match self.find(key) {
            Ok(place) => self.rows.remove_at(place),
            Err(_) => None,
        }
    }
}

impl<T: Keyed + TryCopy> TryCopy for Sorted<T> {
    fn copy(&self, alloc: Global) -> Result<Sorted<T>, Fault> {
        Ok(Sorted::of(copy_all(alloc, self.as_slice())?))
    }
}
