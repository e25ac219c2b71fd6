//! Tables whose keys begin with a number. The rows with a number are found by binary search.

ghost use Rattle.std.specs.Prelude.{◌≡◌, ◌++◌, OnOk};
ghost use Rattle.plant_books.specs.Numbered.{of_number, of_numbers};
ghost use Rattle.plant_types.specs.Results.{Gives, OnlyMemory};

use plant_model::{BandRow, CellRow, ChangeEntry};
use plant_types::{Fault, Keyed, List, Sorted, TryCopy};
use std::alloc::Global;
use std::collections::BTreeSet;

/// A row whose key begins with a number: that of its matrix, or that of a change.
pub trait Numbered: Keyed + TryCopy {
    ghost use Rattle.std.specs.Prelude.{List, ℕ};
    ghost use Rattle.plant_books.specs.Numbered.{NumbersRise};
    ghost use Rattle.plant_types.specs.KeyedRows.{IsInOrder};

    ghost number: { Self → ℕ };

    /// Its number.
    fn number(&self) -> u32
        ensures { result ≡ number self.now };

    ghost rises: { (rows : List Self) → IsInOrder Self.order Self.key rows → NumbersRise number rows };
}

impl Numbered for BandRow {
    ghost use Rattle.plant_model.proofs.public.NumberOrders.{bands_rise};

    ghost number = { λ r. r.matrix_no };

    ghost rises = { bands_rise };

    fn number(&self) -> u32 {
        self.matrix_no
    }
}

impl Numbered for CellRow {
    ghost use Rattle.plant_model.proofs.public.NumberOrders.{cells_rise};

    ghost number = { λ r. r.matrix_no };

    ghost rises = { cells_rise };

    fn number(&self) -> u32 {
        self.matrix_no
    }
}

impl Numbered for ChangeEntry {
    ghost use Rattle.plant_model.proofs.public.NumberOrders.{changes_rise};

    ghost number = { λ r. r.number };

    ghost rises = { changes_rise };

    fn number(&self) -> u32 {
        self.number
    }
}

/// The rows with a number.
fn rows_of_number<T: Numbered>(rows: &Sorted<T>, number: u32) -> &[T]
    ensures { result.now ≡ of_number T.number number rows.now }
{
    let all = rows.as_slice();
    let (_, from) = all.split_at(all.partition_point(|row| row.number() < number));
    let (these, _) = from.split_at(from.partition_point(|row| row.number() <= number));
    these
}

/// Appends copies of the rows.
fn push_all<T: TryCopy>(alloc: Global, all: &mut List<T>, rows: &[T]) -> Result<(), Fault>
    ensures ok { OnOk result (all.new ≡ all.old ++ rows.now) }
    ensures memory { OnlyMemory result }
{
    for row in rows {
        all.push(row.copy(alloc)?)?;
    }
    Ok(())
}

/// Copies of the rows with these numbers.
#[tactic(auto, using(crate::proofs::public::NumberRanges::goes_on, crate::proofs::public::NumberRanges::of_none))]
pub fn rows_of_numbers<T: Numbered>(
    alloc: Global,
    rows: &Sorted<T>,
    numbers: &BTreeSet<u32>,
) -> Result<Sorted<T>, Fault>
    ensures value { Gives result (of_numbers T.number numbers.now rows.now) }
    ensures memory { OnlyMemory result }
{
    // Gives the proof the order of the rows; checks nothing at run time.
    let _rows = rows.as_slice();
    let mut found = List::new(alloc);
    for number in numbers {
        push_all(alloc, &mut found, rows_of_number(rows, *number))?;
    }
    Ok(Sorted::of(found))
}
