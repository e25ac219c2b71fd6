//! The numbers of the matrices and of the changes that a scope takes in.

ghost use Rattle.std.specs.Prelude.{◌≡◌, IfOk};
ghost use Rattle.plant_books.specs.Asking.{AreSources, GivesChanges, GivesMatrices, is_wanted};
ghost use Rattle.plant_model.specs.declared.rows.UnitRows.{UnitRows};
ghost use Rattle.plant_model.specs.steps.RowFacts.{unit_read};
ghost use Rattle.plant_types.specs.Results.{OnlyMemory};

use crate::asking::{Wanted, wanted_change, wanted_records, wants_matrix, wants_sources};
use plant_model::{RecordEntry, Scope, UnitRow};
use plant_types::{Fault, List};
use std::alloc::Global;
use std::collections::BTreeSet;

/// The number of the matrix in force.
fn matrix_in_force(units: &List<UnitRow>) -> u32
    ensures { (rows : UnitRows) → rows.units ≡ units.now → result ≡ (unit_read rows).matrix_no }
{
    units.as_slice().first().map_or(0, |unit| unit.matrix_no)
}

/// The numbers of the matrices that the scope takes in, in a unit whose own row is this.
pub fn matrix_numbers(
    alloc: Global,
    units: &List<UnitRow>,
    scope: Scope<'_>,
) -> Result<BTreeSet<u32>, Fault>
    ensures value { GivesMatrices scope.entry units.now result }
    ensures memory { OnlyMemory result }
{
    let mut numbers = BTreeSet::new(alloc);
    if wants_matrix(scope) {
        numbers.insert(matrix_in_force(units))?;
    }
    if let Some(named) = wanted_change(scope) {
        numbers.insert(named)?;
    }
    Ok(numbers)
}

/// The numbers of the changes that the wanted records came from.
fn sources(
    alloc: Global,
    records: &[RecordEntry],
    wanted: &Wanted<'_>,
) -> Result<BTreeSet<u32>, Fault>
    ensures value { IfOk result (λ numbers. AreSources numbers (is_wanted wanted.now) records.now) }
    ensures memory { OnlyMemory result }
{
    let mut numbers = BTreeSet::new(alloc);
    for record in records {
        if wanted.has(&record.tag) {
            numbers.insert(record.change_no)?;
        }
    }
    Ok(numbers)
}

/// The numbers of the changes that the scope takes in, in a unit with these records. Records that the scope does not
/// take in may be missing.
pub fn change_numbers(
    alloc: Global,
    records: &[RecordEntry],
    scope: Scope<'_>,
) -> Result<BTreeSet<u32>, Fault>
    ensures value { GivesChanges scope.entry records.now result }
    ensures memory { OnlyMemory result }
{
    let mut numbers = if wants_sources(scope) {
        sources(alloc, records, &wanted_records(scope))?
    } else {
        BTreeSet::new(alloc)
    };
    if let Some(number) = wanted_change(scope) {
        numbers.insert(number)?;
    }
    Ok(numbers)
}
