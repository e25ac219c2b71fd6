//! Reports running out of memory as an error of the database.

ghost use Rattle.std.specs.Prelude.{◌≡◌, ◌++◌, ◌∷◌, [], IfOk, OnOk};

use plant_types::{List, TryCopy};
use sqlite::{Error, ErrorCode};
use std::alloc::Global;

/// Appends a value.
pub fn push<T: Drop>(table: &mut List<T>, row: T) -> Result<(), Error>
    ensures { OnOk result (table.new ≡ table.old ++ row ∷ []) }
{
    table
        .push(row)
        .map_err(|_| Error::SqliteFailure(ErrorCode::OutOfMemory))
}

/// A copy of the value.
pub fn copy_of<T: TryCopy>(alloc: Global, value: &T) -> Result<T, Error>
    ensures { IfOk result (λ copy. copy ≡ value.now) }
{
    value
        .copy(alloc)
        .map_err(|_| Error::SqliteFailure(ErrorCode::OutOfMemory))
}
