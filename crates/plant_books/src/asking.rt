//! Which rows of each table a scope takes in, that is, which rows a call looks at.

ghost use Rattle.std.specs.Prelude.{◌≡◌, ◌||◌};
ghost use Rattle.plant_books.specs.Asking.{AreAlarmsWanted, AreEventsWanted, AreWanted, HasTheirShelves, IsCrowdedWith, TakesChanges, TakesMatrix, TakesSources, is_wanted};
ghost use Rattle.plant_model.specs.declared.rows.UnitRows.{UnitRows};
ghost use Rattle.plant_model.specs.steps.Scopes.{of_entry, selection_by};
ghost use Rattle.plant_types.specs.{Names.{Name, same_name}, Roles.{Pair}};
ghost use Rattle.plant_books.specs.Asking as asked;

use plant_alarm::Event;
use plant_model::{ChangeEntry, ChangeTopic, Scope, UnitRow};
use plant_types::{List, Tag};

/// Which rows a call looks at of a table with one row for each tag: shelves, records or alarms.
#[derive(Clone, Copy)]
pub enum Wanted<'a> {
    Nothing,
    /// The row of this tag.
    One(&'a Tag),
    Every,
}

/// Which of a unit's alarms a call looks at.
#[derive(Clone, Copy)]
pub enum WantedAlarms<'a> {
    Those(Wanted<'a>),
    /// Those that have a shelf.
    Shelved,
}

/// Which of a unit's events a call looks at.
#[derive(Clone, Copy)]
pub enum WantedEvents<'a> {
    Nothing,
    /// Those that are needed to import these rows of a file.
    Beside(&'a [Event]),
    Every,
}

impl Wanted<'_> {
    /// Whether the tag is among those that are wanted.
    pub fn has(&self, tag: &Tag) -> bool
        ensures { result ≡ is_wanted self.now tag.now }
    {
        match self {
            Wanted::Nothing => false,
            Wanted::One(one) => **one == *tag,
            Wanted::Every => true,
        }
    }
}

/// Whether a unit with this many shelves is crowded: its quota may be used up.
pub fn is_crowded(units: &List<UnitRow>, shelves: u64) -> bool
    ensures { IsCrowdedWith units.now shelves result }
{
    match units.as_slice().first() {
        Some(unit) => unit.quota.get() <= shelves,
        None => true,
    }
}

/// Whether the scope takes in the grants of all persons, and not of the caller alone.
pub fn wants_all_grants(scope: Scope<'_>) -> bool
    ensures { (rows : UnitRows) (k : Pair) → (selection_by rows scope.entry).pair k ≡ result }
{
    matches!(scope, Scope::AllGrants)
}

/// The row of the tag, or every row in a crowded unit.
fn wanted_in(tag: &Tag, crowded: bool) -> Wanted<'_>
    ensures { (a : Name) → is_wanted result a ≡ (crowded || same_name tag.now a) }
{
    if crowded {
        Wanted::Every
    } else {
        Wanted::One(tag)
    }
}

/// The alarms that a change concerns.
fn alarms_changed(change: &ChangeEntry) -> Wanted<'_>
    ensures { AreWanted (λ rows. (of_entry change.now rows).alarm) result }
{
    match (change.kind_no, &change.tag) {
        (ChangeTopic::Matrix, _) => Wanted::Nothing,
        (ChangeTopic::Record | ChangeTopic::Limit, Some(tag)) => Wanted::One(tag),
        (ChangeTopic::Record | ChangeTopic::Limit, None) => Wanted::Every,
    }
}

/// The records that a change concerns.
fn records_changed(change: &ChangeEntry) -> Wanted<'_>
    ensures { AreWanted (λ rows. (of_entry change.now rows).rationale) result }
{
    match (change.kind_no, &change.tag) {
        (ChangeTopic::Record | ChangeTopic::Limit, Some(tag)) => Wanted::One(tag),
        _ => Wanted::Every,
    }
}

/// Whether a change concerns all records, and so the changes that they came from.
fn changes_sources(change: &ChangeEntry) -> bool
    ensures { TakesSources (of_entry change.now) result }
{
    match (change.kind_no, &change.tag) {
        (ChangeTopic::Matrix, _) | (ChangeTopic::Record | ChangeTopic::Limit, None) => true,
        (ChangeTopic::Record | ChangeTopic::Limit, Some(_)) => false,
    }
}

/// The alarms that the scope takes in.
pub fn wanted_alarms<'a>(scope: Scope<'a>) -> WantedAlarms<'a>
    ensures alarms { AreAlarmsWanted scope.entry result }
    ensures shelves { (rows : UnitRows) → HasTheirShelves (selection_by rows scope.entry) result }
{
    match scope {
        Scope::OneAlarm(tag) | Scope::OneRecord(tag) | Scope::Content(tag) => {
            WantedAlarms::Those(Wanted::One(tag))
        }
        Scope::Shelving(tag, crowded) => WantedAlarms::Those(wanted_in(tag, crowded)),
        Scope::Approval(_, Some(change)) => WantedAlarms::Those(alarms_changed(change)),
        Scope::AllShelves => WantedAlarms::Shelved,
        Scope::File(_) | Scope::AllAlarms => WantedAlarms::Those(Wanted::Every),
        _ => WantedAlarms::Those(Wanted::Nothing),
    }
}

/// The shelves that the scope takes in.
pub fn wanted_shelves<'a>(scope: Scope<'a>) -> Wanted<'a>
    ensures { AreWanted (λ rows. (selection_by rows scope.entry).shelf) result }
{
    match scope {
        Scope::OneAlarm(tag) => Wanted::One(tag),
        Scope::Shelving(tag, crowded) => wanted_in(tag, crowded),
        Scope::AllShelves | Scope::AllAlarms => Wanted::Every,
        _ => Wanted::Nothing,
    }
}

/// The records that the scope takes in.
pub fn wanted_records<'a>(scope: Scope<'a>) -> Wanted<'a>
    ensures { AreWanted (λ rows. (selection_by rows scope.entry).rationale) result }
{
    match scope {
        Scope::OneRecord(tag) | Scope::Content(tag) => Wanted::One(tag),
        Scope::Approval(_, Some(change)) => records_changed(change),
        Scope::AllRecords | Scope::AllAlarms => Wanted::Every,
        _ => Wanted::Nothing,
    }
}

/// The events that the scope takes in.
pub fn wanted_events<'a>(scope: Scope<'a>) -> WantedEvents<'a>
    ensures { AreEventsWanted scope.entry result }
{
    match scope {
        Scope::File(rows) => WantedEvents::Beside(rows),
        Scope::AllEvents => WantedEvents::Every,
        _ => WantedEvents::Nothing,
    }
}

/// The number of the change that the scope takes in with its matrix, if any.
pub fn wanted_change(scope: Scope<'_>) -> Option<u32>
    ensures { result ≡ asked.number_named scope.entry }
{
    match scope {
        Scope::OneChange(number) | Scope::Approval(number, _) => Some(number),
        _ => None,
    }
}

/// Whether the scope takes in the matrix in force.
pub fn wants_matrix(scope: Scope<'_>) -> bool
    ensures { TakesMatrix scope.entry result }
{
    matches!(
        scope,
        Scope::Content(_) | Scope::AllRecords | Scope::Approval(_, Some(_))
    )
}

/// Whether the scope takes in the changes that its records came from.
pub fn wants_sources(scope: Scope<'_>) -> bool
    ensures { TakesChanges scope.entry result }
{
    match scope {
        Scope::OneRecord(_) | Scope::AllRecords => true,
        Scope::Approval(_, Some(change)) => changes_sources(change),
        _ => false,
    }
}
