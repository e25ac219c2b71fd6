//! Picks the part that a call looks at out of all rows of a unit, with the count that the call needs.

ghost use Rattle.std.specs.Prelude.{◌≡◌, ◌<◌, ◌^◌, IfOk, OnOk, false, filter, option_copied, true};
ghost use Rattle.plant_books.specs.{Asking.{alarms_wanted, IsApprovedBy, changes_by, events_wanted, grants_by, rows_by}, Contents.{without_history}, Listed.{IsCountable}};
ghost use Rattle.plant_model.specs.steps.Parts.{counted_for, is_crowded as is_crowded_in, part_of as the_part, part_of_holder as holders_part, selected};
ghost use Rattle.plant_model.specs.steps.{RowChanges.{no_rows}, RowFacts.{last_number as last_number_of}};
ghost use Rattle.plant_model.specs.steps.Scopes.{is_shelving as is_shelving_by, selection_by};
ghost use Rattle.plant_types.specs.{Names.{Name, same_name}, Results.{Gives, OnlyMemory}};

use crate::asking::{
    Wanted, WantedAlarms, WantedEvents, is_crowded, wanted_alarms, wanted_change, wanted_events,
    wanted_records, wanted_shelves, wants_all_grants, wants_matrix, wants_sources,
};
use crate::found::{rows_wanted, shelved_alarms};
use crate::numbered::rows_of_numbers;
use crate::scope_numbers::{change_numbers, matrix_numbers};
use plant_alarm::Event;
use plant_import::needed;
use plant_model::{
    AlarmRow, BandRow, Call, CellRow, ChangeEntry, Counted, GrantRow, Request, Scope, ShelfRow,
    UnitPart, UnitRow, UnitRows, holds_some_by, is_shelving, number_approved, scope_of,
};
use plant_types::{Fault, List, Person, Sorted, TryCopy};
use std::alloc::Global;

/// A copy of the rows of a unit except its history.
pub fn rows_but_history(alloc: Global, rows: &UnitRows) -> Result<UnitRows, Fault>
    ensures value { IfOk result (λ copy. copy ≡ without_history rows.now) }
    ensures memory { OnlyMemory result }
{
    let mut copies = UnitRows::none(alloc);
    copy_but_history(alloc, rows, &mut copies)?;
    Ok(copies)
}

/// Replaces rows with copies of a unit's rows except its history. Like `put_asked`, it owns no list when a copy fails.
fn copy_but_history(alloc: Global, rows: &UnitRows, copies: &mut UnitRows) -> Result<(), Fault>
    ensures value { OnOk result (copies.new ≡ record copies.old {
      units = rows.now.units;
      grants = rows.now.grants;
      alarms = rows.now.alarms;
      shelves = rows.now.shelves;
      records = rows.now.records;
    }) }
    ensures memory { OnlyMemory result }
{
    copies.units = rows.units.copy(alloc)?;
    copies.grants = rows.grants.copy(alloc)?;
    copies.alarms = rows.alarms.copy(alloc)?;
    copies.shelves = rows.shelves.copy(alloc)?;
    copies.records = rows.records.copy(alloc)?;
    Ok(())
}

/// The grants that the call looks at: those of its caller, or of all persons.
fn grants_asked(
    alloc: Global,
    rows: &UnitRows,
    person: &Person,
    scope: Scope<'_>,
) -> Result<Sorted<GrantRow>, Fault>
    ensures value { Gives result (grants_by person.now rows.now scope.entry) }
    ensures memory { OnlyMemory result }
{
    let all = wants_all_grants(scope);
    let mut asked = List::new(alloc);
    for grant in rows.grants.as_slice() {
        if *person == grant.person || all {
            asked.push(grant.copy(alloc)?)?;
        }
    }
    Ok(Sorted::of(asked))
}

/// Copies of the wanted alarms of a unit that has these alarms and shelves.
fn alarms_asked(
    alloc: Global,
    alarms: &Sorted<AlarmRow>,
    shelves: &Sorted<ShelfRow>,
    wanted: WantedAlarms<'_>,
) -> Result<Sorted<AlarmRow>, Fault>
    ensures value { Gives result (alarms_wanted wanted.entry shelves.now alarms.now) }
    ensures memory { OnlyMemory result }
{
    match wanted {
        WantedAlarms::Those(tags) => rows_wanted(alloc, alarms, &tags),
        WantedAlarms::Shelved => shelved_alarms(alloc, alarms, shelves),
    }
}

/// The events that are wanted.
pub fn events_asked(
    alloc: Global,
    events: &Sorted<Event>,
    wanted: WantedEvents<'_>,
) -> Result<Sorted<Event>, Fault>
    ensures value { Gives result (events_wanted wanted.entry events.now) }
    ensures memory { OnlyMemory result }
{
    match wanted {
        WantedEvents::Nothing => Ok(Sorted::new(alloc)),
        WantedEvents::Beside(rows) => needed(alloc, events, rows),
        WantedEvents::Every => events.copy(alloc),
    }
}

/// The changes that the scope takes in.
#[tactic(auto, using(crate::proofs::PassingLaws::passing_as))]
fn changes_asked(
    alloc: Global,
    rows: &UnitRows,
    scope: Scope<'_>,
) -> Result<Sorted<ChangeEntry>, Fault>
    ensures value { Gives result (changes_by rows.now scope.entry) }
    ensures memory { OnlyMemory result }
{
    let numbers = change_numbers(alloc, rows.records.as_slice(), scope)?;
    rows_of_numbers(alloc, &rows.changes, &numbers)
}

/// The limits and cells of the matrices that the scope takes in.
fn matrices_asked(
    alloc: Global,
    rows: &UnitRows,
    scope: Scope<'_>,
) -> Result<(Sorted<BandRow>, Sorted<CellRow>), Fault>
    ensures value { (p : Name) → IfOk result (λ asked.
        (asked.0 ≡ (rows_by p rows.now scope.entry).bands)
        × (asked.1 ≡ (rows_by p rows.now scope.entry).cells)) }
    ensures memory { OnlyMemory result }
{
    let matrices = matrix_numbers(alloc, &rows.units, scope)?;
    Ok((
        rows_of_numbers(alloc, &rows.bands, &matrices)?,
        rows_of_numbers(alloc, &rows.cells, &matrices)?,
    ))
}

/// Replaces rows with the rows that the scope takes in, list by list. The prover treats each list owned at a copy that
/// can fail; this function owns none of the nine.
fn put_asked(
    alloc: Global,
    asked: &mut UnitRows,
    rows: &UnitRows,
    person: &Person,
    scope: Scope<'_>,
) -> Result<(), Fault>
    ensures value { OnOk result (asked.new ≡ rows_by person.now rows.now scope.entry) }
    ensures memory { OnlyMemory result }
{
    asked.units = rows.units.copy(alloc)?;
    asked.grants = grants_asked(alloc, rows, person, scope)?;
    asked.alarms = alarms_asked(alloc, &rows.alarms, &rows.shelves, wanted_alarms(scope))?;
    asked.shelves = rows_wanted(alloc, &rows.shelves, &wanted_shelves(scope))?;
    asked.events = events_asked(alloc, &rows.events, wanted_events(scope))?;
    asked.records = rows_wanted(alloc, &rows.records, &wanted_records(scope))?;
    (asked.bands, asked.cells) = matrices_asked(alloc, rows, scope)?;
    asked.changes = changes_asked(alloc, rows, scope)?;
    Ok(())
}

/// The rows that the scope takes in.
fn rows_asked(
    alloc: Global,
    rows: &UnitRows,
    person: &Person,
    scope: Scope<'_>,
) -> Result<UnitRows, Fault>
    ensures value { Gives result (rows_by person.now rows.now scope.entry) }
    ensures memory { OnlyMemory result }
{
    let mut asked = UnitRows::none(alloc);
    put_asked(alloc, &mut asked, rows, person, scope)?;
    Ok(asked)
}

/// Whether the request shelves in a crowded unit.
fn is_crowded_by(rows: &UnitRows, request: &Request) -> bool
    ensures { is_shelving_by request.now ≡ true → is_crowded_in rows.now ≡ result }
{
    is_shelving(request) && is_crowded(&rows.units, rows.shelves.len() as u64)
}

/// The change that the request approves, if it exists.
fn approved_by<'a>(rows: &'a UnitRows, request: &Request) -> Option<&'a ChangeEntry>
    ensures { IsApprovedBy rows.now request.now (option_copied result) }
{
    number_approved(request).and_then(|number| rows.changes.get(&number))
}

/// What the request looks at in a unit of these rows.
fn scope_in<'a>(rows: &'a UnitRows, request: &'a Request) -> Scope<'a>
    ensures { selection_by rows.now result ≡ selected rows.now request.now }
{
    scope_of(
        request,
        is_crowded_by(rows, request),
        approved_by(rows, request),
    )
}

/// The number of the last change, 0 without changes.
fn last_number(changes: &[ChangeEntry]) -> u32
    ensures { result ≡ last_number_of changes.now }
{
    changes.last().map_or(0, |change| change.number)
}

/// A number of rows, as a part counts them. More than 32 bits can hold is a fault of the store: no unit with a legal
/// history has so many.
fn count_of(rows: usize) -> Result<u32, Fault>
    ensures value { Gives result rows }
    ensures memory { rows < 2 ^ 32 → OnlyMemory result }
{
    u32::try_from(rows).map_err(|_| Fault::Store)
}

/// How many alarms or events there are, or the number of the last change, for the call that needs it.
fn count_asked(rows: &UnitRows, call: &Call) -> Result<u32, Fault>
    ensures value { Gives result (counted_for rows.now call.now.request) }
    ensures memory { counted_for rows.now call.now.request < 2 ^ 32 → OnlyMemory result }
    ensures countable { IsCountable rows.now → OnlyMemory result }
{
    match call.request.counted() {
        Counted::Nothing => Ok(0),
        Counted::Alarms => count_of(rows.alarms.len()),
        Counted::Events => count_of(rows.events.len()),
        Counted::Changes => Ok(last_number(rows.changes.as_slice())),
    }
}

/// The part for a caller who holds a role.
fn part_of_holder(alloc: Global, rows: &UnitRows, call: &Call) -> Result<UnitPart, Fault>
    ensures value { Gives result (holders_part call.now rows.now) }
    ensures memory { counted_for rows.now call.now.request < 2 ^ 32 → OnlyMemory result }
    ensures countable { IsCountable rows.now → OnlyMemory result }
{
    let count = count_asked(rows, call)?;
    Ok(UnitPart {
        rows: rows_asked(alloc, rows, &call.person, scope_in(rows, &call.request))?,
        count,
        held: true,
    })
}

/// The caller's grants.
fn own_grants(
    alloc: Global,
    grants: &Sorted<GrantRow>,
    person: &Person,
) -> Result<Sorted<GrantRow>, Fault>
    ensures value { Gives result (filter (λ g. same_name person.now g.person) grants.now) }
    ensures memory { OnlyMemory result }
{
    let mut own = List::new(alloc);
    for grant in grants.as_slice() {
        if *person == grant.person {
            own.push(grant.copy(alloc)?)?;
        }
    }
    Ok(Sorted::of(own))
}

/// The part for a caller who holds no role: the unit's own row, the caller's grants, and nothing else.
pub fn part_of_grants(alloc: Global, units: List<UnitRow>, grants: Sorted<GrantRow>) -> UnitPart
    ensures rows { result.rows ≡ record no_rows { units = units; grants = grants } }
    ensures count { result.count ≡ 0 }
    ensures held { result.held ≡ false }
{
    UnitPart {
        rows: UnitRows {
            units,
            grants,
            ..UnitRows::none(alloc)
        },
        count: 0,
        held: false,
    }
}

/// The part of a unit's rows that the call looks at. For a caller who holds no role, that is the unit's own row and the
/// caller's grants alone. It is a fault of the store if the unit has more rows than a part can count.
pub fn part_of(alloc: Global, rows: &UnitRows, call: &Call) -> Result<UnitPart, Fault>
    ensures value { Gives result (the_part call.now rows.now) }
    ensures memory { counted_for rows.now call.now.request < 2 ^ 32 → OnlyMemory result }
    ensures countable { IsCountable rows.now → OnlyMemory result }
{
    if holds_some_by(&rows.grants, &call.person, call.moment) {
        return part_of_holder(alloc, rows, call);
    }
    let units = rows.units.copy(alloc)?;
    let grants = own_grants(alloc, &rows.grants, &call.person)?;
    Ok(part_of_grants(alloc, units, grants))
}
