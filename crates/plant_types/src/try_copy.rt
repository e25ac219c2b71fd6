//! Copies of values that own memory. A copy fails only when memory runs out.

ghost use Rattle.std.specs.Prelude.{◌≡◌, IfOk};
ghost use Rattle.plant_types.specs.Results.{OnlyMemory};

use crate::{Alphabet, Fault, List, Text};
use std::alloc::Global;

/// Values that can be copied if memory suffices.
pub trait TryCopy: Drop {
    /// A copy of the value. The only error is out of memory.
    fn copy(&self, alloc: Global) -> Result<Self, Fault>
        ensures value { IfOk result (λ x. x ≡ self.now) }
        ensures err { OnlyMemory result };
}

impl<C: Alphabet> TryCopy for Text<C> {
    fn copy(&self, alloc: Global) -> Result<Text<C>, Fault> {
        self.copy(alloc)
    }
}

impl<T: TryCopy> TryCopy for Option<T> {
    fn copy(&self, alloc: Global) -> Result<Option<T>, Fault> {
        match self {
            None => Ok(None),
            Some(value) => Ok(Some(value.copy(alloc)?)),
        }
    }
}

impl<T: TryCopy> TryCopy for List<T> {
    fn copy(&self, alloc: Global) -> Result<List<T>, Fault> {
        copy_all(alloc, self.as_slice())
    }
}

/// A list of copies of the values.
pub fn copy_all<T: TryCopy>(alloc: Global, rows: &[T]) -> Result<List<T>, Fault>
    ensures value { IfOk result (λ t. t ≡ rows.now) }
    ensures err { OnlyMemory result }
{
    let mut copies = Vec::with_capacity(alloc, rows.len())?;
    for row in rows {
        copies.push(row.copy(alloc)?)?;
    }
    Ok(List::from_vec(copies))
}
