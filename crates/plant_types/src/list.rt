//! A growable list whose operations report running out of memory as a `Fault`. Contracts see only its values.

ghost use Rattle.std.specs.Prelude.{◌≡◌, ◌↔◌, [], ◌∷◌, ◌++◌, length, insert, remove, slice_get, slice_set, IfOk, IsTrue, OnOk, OnErr};
ghost use Rattle.plant_types.specs.Results.{OnlyMemory};

use crate::Fault;
use std::alloc::Global;
use std::marker::Model;

/// A list of rows, lines or changes. Contracts see it as the list of its values.
#[derive(Debug, Drop)]
pub struct List<T: Drop> {
    rows: Vec<T>,
}

impl<T: Drop> Model for List<T> {
    ghost use Rattle.std.specs.Prelude.{List};

    ghost Value = { List T };

    ghost view = { λ t. t.rows.items };
}

impl<T: Drop> List<T> {
    /// The empty list. It takes no memory.
    pub fn new(alloc: Global) -> Self
        ensures { result ≡ [] }
    {
        List {
            rows: Vec::new(alloc),
        }
    }

    /// The empty list, with room for `capacity` values.
    pub fn with_capacity(alloc: Global, capacity: usize) -> Result<Self, Fault>
        ensures none { IfOk result (λ list. list ≡ []) }
        ensures memory { OnlyMemory result }
    {
        Ok(List {
            rows: Vec::with_capacity(alloc, capacity)?,
        })
    }

    /// The list of these values.
    pub fn from_vec(rows: Vec<T>) -> Self
        ensures { result ≡ rows.items }
    {
        List { rows }
    }

    /// Its values, as a vector.
    pub fn into_vec(self) -> Vec<T>
        ensures { result.items ≡ self }
    {
        self.rows
    }

    /// Its values.
    pub fn as_slice(&self) -> &[T]
        ensures { result.now ≡ self.now }
    {
        self.rows.as_slice()
    }

    /// How many values it has.
    pub fn len(&self) -> usize
        ensures { result ≡ length self.now }
    {
        self.rows.len()
    }

    /// Whether it has no value.
    pub fn is_empty(&self) -> bool
        ensures { IsTrue result ↔ (self.now ≡ []) }
    {
        self.rows.is_empty()
    }

    /// Puts a value at the end. If memory runs out, the list is unchanged.
    pub fn push(&mut self, row: T) -> Result<(), Fault>
        ensures ok { OnOk result (self.new ≡ self.old ++ row ∷ []) }
        ensures err { OnErr result (self.new ≡ self.old) }
        ensures memory { OnlyMemory result }
    {
        Ok(self.rows.push(row)?)
    }

    /// Moves the values of another list to the end. If memory runs out, the list is unchanged.
    pub fn append(&mut self, more: List<T>) -> Result<(), Fault>
        ensures ok { OnOk result (self.new ≡ self.old ++ more) }
        ensures err { OnErr result (self.new ≡ self.old) }
        ensures memory { OnlyMemory result }
    {
        let mut more = more.rows;
        Ok(self.rows.append(&mut more)?)
    }

    /// Puts a value before the one at that place, counted from 0; at the end if the place is past it.
    /// If memory runs out, the list is unchanged.
    pub fn insert_at(&mut self, place: usize, row: T) -> Result<(), Fault>
        ensures ok { OnOk result (self.new ≡ insert self.old place row) }
        ensures err { OnErr result (self.new ≡ self.old) }
        ensures memory { OnlyMemory result }
    {
        if place < self.rows.len() {
            Ok(self.rows.insert(place, row)?)
        } else {
            self.push(row)
        }
    }

    /// Replaces the value at that place, counted from 0. Past the end nothing changes.
    pub fn replace_at(&mut self, place: usize, row: T)
        ensures { self.new ≡ slice_set self.old place row }
    {
        if place < self.rows.len() {
            self.rows[place] = row;
        }
    }

    /// Removes and returns the value at that place, counted from 0. Past the end nothing changes.
    pub fn remove_at(&mut self, place: usize) -> Option<T>
        ensures taken { result ≡ slice_get self.old place }
        ensures rest { self.new ≡ remove self.old place }
    {
        if place < self.rows.len() {
            Some(self.rows.remove(place))
        } else {
            None
        }
    }
}
