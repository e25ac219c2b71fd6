//! Reads the part of a unit's rows that a call looks at.

ghost use Rattle.std.specs.Prelude.{◌≡◌, false, filter, IfOk, None, Some};
ghost use Rattle.sqlite.specs.Held.{state};
ghost use Rattle.plant_model.specs.Worlds.{unit_named};
ghost use Rattle.plant_model.specs.steps.{Parts.{counted_for, part_of_holder, selected}, Scopes.{selection_by}};
ghost use Rattle.plant_types.specs.Names.{Name};
ghost use Rattle.plant_books.specs.Contents.{Content, part_in, rows_in};
ghost use Rattle.plant_store_statements.specs.{Changes.{IsHonest}, Keeping.{HasContent}};
ghost use Rattle.plant_store_reads.specs.Parts.{AreAskedBy, LoadsApproved, LoadsCount, LoadsCrowding, LoadsGrants, ReadsSelected, alarms_seen, events_seen, grants_of};
ghost use Rattle.plant_store_statements.specs.Reading.{HasNoTransaction, Loads, IsOnlyRead, LeavesOpen, ReadsContent};
ghost use Rattle.plant_store_reads.specs.Wanted.{alarms_left, rows_with};
ghost use Rattle.plant_store_columns.specs.{Tables.{rows_seen}, declared.tables.TableKind.TheVariants.{Units}};

use crate::queries::{count_of, count_of_alarms, count_of_shelves, last_change_number, own_grants};
use crate::scope_rows::{matrix_rows, some_changes};
use crate::unit::has_row;
use plant_alarm::Event;
use plant_books::{
    Wanted, WantedAlarms, WantedEvents, events_asked, is_crowded, part_of_grants, shelved_alarms,
    wanted_alarms, wanted_events, wanted_records, wanted_shelves, wants_all_grants,
};
use plant_model::{
    AlarmRow, BandRow, Call, CellRow, ChangeEntry, Counted, GrantRow, RecordEntry, Request, Scope,
    ShelfRow, UnitPart, UnitRow, UnitRows, holds_some_by, is_shelving, looks_at_events,
    number_approved, scope_of,
};
use plant_store_statements::read::{all_rows, row_of_tag, rows_of_number, sorted_rows};
use plant_store_statements::stored::StoredByTag;
use plant_types::{List, Sorted, UnitCode};
use sqlite::{Alter, Connection, Error, ErrorCode};
use std::alloc::Global;

/// All grants of the unit if they are wanted, otherwise the caller's own, which were read before.
pub fn some_grants<S: Alter>(
    alloc: Global,
    conn: &mut Connection<S>,
    unit: &UnitCode,
    own: Sorted<GrantRow>,
    all: bool,
) -> Result<Sorted<GrantRow>, Error>
    requires { HasNoTransaction conn.old }
    ensures mode { HasNoTransaction conn.new }
    ensures rows { LoadsGrants S.Store conn.old conn.new unit.now own all result }
    ensures reads { IsOnlyRead S.Store conn.old conn.new }
    ensures open { LeavesOpen S.Store conn.old conn.new result }
{
    if all {
        sorted_rows(alloc, conn, unit)
    } else {
        Ok(own)
    }
}

/// The unit's rows whose tags are wanted.
fn rows_wanted<T: StoredByTag, S: Alter>(
    alloc: Global,
    conn: &mut Connection<S>,
    unit: &UnitCode,
    wanted: Wanted<'_>,
) -> Result<Sorted<T>, Error>
    requires { HasNoTransaction conn.old }
    ensures mode { HasNoTransaction conn.new }
    ensures rows { Loads S.Store conn.old conn.new
        (λ trees. rows_with T.key wanted.entry (T.seen unit.now trees)) result }
    ensures reads { IsOnlyRead S.Store conn.old conn.new }
    ensures open { LeavesOpen S.Store conn.old conn.new result }
{
    match wanted {
        Wanted::Nothing => Ok(Sorted::new(alloc)),
        Wanted::One(tag) => row_of_tag(alloc, conn, unit, tag),
        Wanted::Every => sorted_rows(alloc, conn, unit),
    }
}

/// The unit's alarms that are wanted. All of them, if the shelves determine which are wanted.
pub fn some_alarms<S: Alter>(
    alloc: Global,
    conn: &mut Connection<S>,
    unit: &UnitCode,
    wanted: WantedAlarms<'_>,
) -> Result<Sorted<AlarmRow>, Error>
    requires { HasNoTransaction conn.old }
    ensures mode { HasNoTransaction conn.new }
    ensures rows { Loads S.Store conn.old conn.new (alarms_seen wanted.entry unit.now) result }
    ensures reads { IsOnlyRead S.Store conn.old conn.new }
    ensures open { LeavesOpen S.Store conn.old conn.new result }
{
    match wanted {
        WantedAlarms::Those(wanted) => rows_wanted(alloc, conn, unit, wanted),
        WantedAlarms::Shelved => sorted_rows(alloc, conn, unit),
    }
}

/// Those of the alarms that were read that are wanted, given the unit's shelves.
fn alarms_for(
    alloc: Global,
    read: Sorted<AlarmRow>,
    shelves: &Sorted<ShelfRow>,
    wanted: WantedAlarms<'_>,
) -> Result<Sorted<AlarmRow>, Error>
    ensures { IfOk result (λ alarms. alarms ≡ alarms_left wanted.entry shelves.now read) }
{
    match wanted {
        WantedAlarms::Those(_) => Ok(read),
        WantedAlarms::Shelved => shelved_alarms(alloc, &read, shelves).map_err(
            |_| Error::SqliteFailure(ErrorCode::OutOfMemory),
        ),
    }
}

/// The unit's events, if they are wanted.
pub fn some_events<S: Alter>(
    alloc: Global,
    conn: &mut Connection<S>,
    unit: &UnitCode,
    wanted: bool,
) -> Result<Sorted<Event>, Error>
    requires { HasNoTransaction conn.old }
    ensures mode { HasNoTransaction conn.new }
    ensures rows { Loads S.Store conn.old conn.new (events_seen wanted unit.now) result }
    ensures reads { IsOnlyRead S.Store conn.old conn.new }
    ensures open { LeavesOpen S.Store conn.old conn.new result }
{
    if wanted {
        sorted_rows(alloc, conn, unit)
    } else {
        Ok(Sorted::new(alloc))
    }
}

/// Those of the unit's events that the scope takes in. If these are all events, they are not copied.
fn events_for(
    alloc: Global,
    events: Sorted<Event>,
    scope: Scope<'_>,
) -> Result<Sorted<Event>, Error>
    ensures { IfOk result (AreAskedBy scope.entry events) }
{
    let wanted = wanted_events(scope);
    if matches!(wanted, WantedEvents::Every) {
        return Ok(events);
    }
    events_asked(alloc, &events, wanted).map_err(|_| Error::SqliteFailure(ErrorCode::OutOfMemory))
}

/// How many alarms or events the unit has, or the number of its last change, for a request that needs it. `events` has
/// the unit's events if the request looks at them.
#[tactic(auto, using(crate::proofs::Selected::counts_events))]
fn count_for<S: Alter>(
    conn: &mut Connection<S>,
    unit: &UnitCode,
    request: &Request,
    events: &Sorted<Event>,
) -> Result<u32, Error>
    requires { HasNoTransaction conn.old }
    ensures mode { HasNoTransaction conn.new }
    ensures rows { LoadsCount S.Store conn.old conn.new unit.now request.now events.now result }
    ensures reads { IsOnlyRead S.Store conn.old conn.new }
    ensures open { LeavesOpen S.Store conn.old conn.new result }
{
    match request.counted() {
        Counted::Nothing => Ok(0),
        Counted::Alarms => count_of_alarms(conn, unit),
        Counted::Events => count_of(events.len()),
        Counted::Changes => last_change_number(conn, unit),
    }
}

/// Whether the request shelves an alarm and the unit has so many shelves that its quota may be used up.
fn crowded_for<S: Alter>(
    conn: &mut Connection<S>,
    unit: &UnitCode,
    units: &List<UnitRow>,
    request: &Request,
) -> Result<bool, Error>
    requires { HasNoTransaction conn.old }
    ensures mode { HasNoTransaction conn.new }
    ensures rows { LoadsCrowding S.Store conn.old conn.new unit.now units.now request.now result }
    ensures reads { IsOnlyRead S.Store conn.old conn.new }
    ensures open { LeavesOpen S.Store conn.old conn.new result }
{
    if is_shelving(request) {
        Ok(is_crowded(units, count_of_shelves(conn, unit)?))
    } else {
        Ok(false)
    }
}

/// The change that the request approves, if it approves one and that exists.
fn approved_for<S: Alter>(
    alloc: Global,
    conn: &mut Connection<S>,
    unit: &UnitCode,
    request: &Request,
) -> Result<Sorted<ChangeEntry>, Error>
    requires { HasNoTransaction conn.old }
    ensures mode { HasNoTransaction conn.new }
    ensures rows { LoadsApproved S.Store conn.old conn.new unit.now request.now result }
    ensures reads { IsOnlyRead S.Store conn.old conn.new }
    ensures open { LeavesOpen S.Store conn.old conn.new result }
{
    match number_approved(request) {
        Some(number) => rows_of_number(alloc, conn, unit, number),
        None => Ok(Sorted::new(alloc)),
    }
}

/// The alarms and the shelves that the scope takes in.
fn alarms_and_shelves<S: Alter>(
    alloc: Global,
    conn: &mut Connection<S>,
    unit: &UnitCode,
    scope: Scope<'_>,
) -> Result<(Sorted<AlarmRow>, Sorted<ShelfRow>), Error>
    requires { HasNoTransaction conn.old }
    ensures mode { HasNoTransaction conn.new }
    ensures found { ReadsSelected S.Store conn.old conn.new unit.now scope.entry result (λ rows s.
        (filter (λ r. s.alarm r.tag) rows.alarms, filter (λ r. s.shelf r.tag) rows.shelves)) }
    ensures reads { IsOnlyRead S.Store conn.old conn.new }
    ensures open { LeavesOpen S.Store conn.old conn.new result }
{
    let tags = wanted_alarms(scope);
    let read = some_alarms(alloc, conn, unit, tags)?;
    let shelved = wanted_shelves(scope);
    let shelves = rows_wanted(alloc, conn, unit, shelved)?;
    let alarms = alarms_for(alloc, read, &shelves, tags)?;
    Ok((alarms, shelves))
}

/// The events that the scope takes in, and the count that the request needs. The scope must be that of the request.
fn events_and_count<S: Alter>(
    alloc: Global,
    conn: &mut Connection<S>,
    unit: &UnitCode,
    request: &Request,
    scope: Scope<'_>,
) -> Result<(Sorted<Event>, u32), Error>
    requires { HasNoTransaction conn.old }
    ensures mode { HasNoTransaction conn.new }
    ensures found { IsHonest (state S.Store conn.new) → (m : Content)
        → HasContent (state S.Store conn.old) m
        → selection_by (rows_in m unit.now) scope.entry ≡ selected (rows_in m unit.now) request.now
        → IfOk result (λ found. found ≡ (
          (selected (rows_in m unit.now) request.now).events
              (rows_in m unit.now).events,
          counted_for (rows_in m unit.now) request.now,
        )) }
    ensures reads { IsOnlyRead S.Store conn.old conn.new }
    ensures open { LeavesOpen S.Store conn.old conn.new result }
{
    let looks = looks_at_events(request);
    let all = some_events(alloc, conn, unit, looks)?;
    let count = count_for(conn, unit, request, &all)?;
    let events = events_for(alloc, all, scope)?;
    Ok((events, count))
}

/// The records and the changes that the scope takes in.
fn records_and_changes<S: Alter>(
    alloc: Global,
    conn: &mut Connection<S>,
    unit: &UnitCode,
    scope: Scope<'_>,
) -> Result<(Sorted<RecordEntry>, Sorted<ChangeEntry>), Error>
    requires { HasNoTransaction conn.old }
    ensures mode { HasNoTransaction conn.new }
    ensures found { ReadsSelected S.Store conn.old conn.new unit.now scope.entry result (λ rows s.
        (filter (λ r. s.rationale r.tag) rows.records, filter (λ r. s.change r.number) rows.changes)) }
    ensures reads { IsOnlyRead S.Store conn.old conn.new }
    ensures open { LeavesOpen S.Store conn.old conn.new result }
{
    let recorded = wanted_records(scope);
    let records = rows_wanted(alloc, conn, unit, recorded)?;
    let changes = some_changes(alloc, conn, unit, &records, scope)?;
    Ok((records, changes))
}

/// The limits and the cells of the matrices that the scope takes in, of a unit whose own row is this.
fn matrices<S: Alter>(
    alloc: Global,
    conn: &mut Connection<S>,
    unit: &UnitCode,
    units: &List<UnitRow>,
    scope: Scope<'_>,
) -> Result<(Sorted<BandRow>, Sorted<CellRow>), Error>
    requires { HasNoTransaction conn.old }
    ensures mode { HasNoTransaction conn.new }
    ensures found { IsHonest (state S.Store conn.new) → (m : Content)
        → HasContent (state S.Store conn.old) m → units.now ≡ (rows_in m unit.now).units
        → IfOk result (λ found. found ≡ (
          filter (λ r. (selection_by (rows_in m unit.now) scope.entry).matrix r.matrix_no) (rows_in m unit.now).bands,
          filter (λ r. (selection_by (rows_in m unit.now) scope.entry).matrix r.matrix_no) (rows_in m unit.now).cells,
        )) }
    ensures reads { IsOnlyRead S.Store conn.old conn.new }
    ensures open { LeavesOpen S.Store conn.old conn.new result }
{
    let bands = matrix_rows(alloc, conn, unit, units, scope)?;
    let cells = matrix_rows(alloc, conn, unit, units, scope)?;
    Ok((bands, cells))
}

/// Reads the rows of a part, except the unit's own row and the grants, which were read before. Returns the count that
/// the request needs. It owns no list when a query fails. The scope must be that of the call.
fn read_in_scope<S: Alter>(
    alloc: Global,
    conn: &mut Connection<S>,
    unit: &UnitCode,
    call: &Call,
    scope: Scope<'_>,
    rows: &mut UnitRows,
) -> Result<u32, Error>
    requires { HasNoTransaction conn.old }
    ensures mode { HasNoTransaction conn.new }
    ensures found { IsHonest (state S.Store conn.new) → (m : Content)
        → HasContent (state S.Store conn.old) m
        → selection_by (rows_in m unit.now) scope.entry ≡ selected (rows_in m unit.now) call.now.request
        → rows.old.units ≡ (rows_in m unit.now).units
        → IfOk result (λ count. (count ≡ counted_for (rows_in m unit.now) call.now.request)
        × (rows.new ≡ record (part_of_holder call.now (rows_in m unit.now)).rows {
          units = rows.old.units;
          grants = rows.old.grants;
        })) }
    ensures reads { IsOnlyRead S.Store conn.old conn.new }
    ensures open { LeavesOpen S.Store conn.old conn.new result }
{
    (rows.alarms, rows.shelves) = alarms_and_shelves(alloc, conn, unit, scope)?;
    let (events, count) = events_and_count(alloc, conn, unit, &call.request, scope)?;
    rows.events = events;
    (rows.records, rows.changes) = records_and_changes(alloc, conn, unit, scope)?;
    (rows.bands, rows.cells) = matrices(alloc, conn, unit, &rows.units, scope)?;
    Ok(count)
}

/// The part for a caller who holds a role: the rows have the unit's own row and the part's grants, and the others are
/// read into them. The scope must be that of the call.
fn part_in_scope<S: Alter>(
    alloc: Global,
    conn: &mut Connection<S>,
    unit: &UnitCode,
    call: &Call,
    scope: Scope<'_>,
    rows: UnitRows,
) -> Result<UnitPart, Error>
    requires { HasNoTransaction conn.old }
    ensures mode { HasNoTransaction conn.new }
    ensures found { IsHonest (state S.Store conn.new) → (m : Content)
        → HasContent (state S.Store conn.old) m
        → selection_by (rows_in m unit.now) scope.entry ≡ selected (rows_in m unit.now) call.now.request
        → rows.units ≡ (rows_in m unit.now).units
        → rows.grants ≡ (part_of_holder call.now (rows_in m unit.now)).rows.grants
        → IfOk result (λ part. part ≡ part_of_holder call.now (rows_in m unit.now)) }
    ensures reads { IsOnlyRead S.Store conn.old conn.new }
    ensures open { LeavesOpen S.Store conn.old conn.new result }
{
    let mut rows = rows;
    let count = read_in_scope(alloc, conn, unit, call, scope, &mut rows)?;
    Ok(UnitPart {
        rows,
        count,
        held: true,
    })
}

/// The part for a caller who holds a role, with the unit's own row and the caller's grants, which were read before.
fn holders_part<S: Alter>(
    alloc: Global,
    conn: &mut Connection<S>,
    unit: &UnitCode,
    call: &Call,
    units: List<UnitRow>,
    own: Sorted<GrantRow>,
) -> Result<UnitPart, Error>
    requires { HasNoTransaction conn.old }
    ensures mode { HasNoTransaction conn.new }
    ensures found { IsHonest (state S.Store conn.new) → (m : Content)
        → HasContent (state S.Store conn.old) m
        → units ≡ rows_seen unit.now (state S.Store conn.old).now.trees Units
        → own ≡ grants_of call.now.person unit.now (state S.Store conn.old).now.trees
        → IfOk result (λ part. part ≡ part_of_holder call.now (rows_in m unit.now)) }
    ensures reads { IsOnlyRead S.Store conn.old conn.new }
    ensures open { LeavesOpen S.Store conn.old conn.new result }
{
    let request = &call.request;
    let crowded = crowded_for(conn, unit, &units, request)?;
    let approved = approved_for(alloc, conn, unit, request)?;
    let scope = scope_of(request, crowded, approved.as_slice().first());
    let all = wants_all_grants(scope);
    let grants = some_grants(alloc, conn, unit, own, all)?;
    let rows = UnitRows {
        units,
        grants,
        ..UnitRows::none(alloc)
    };
    part_in_scope(alloc, conn, unit, call, scope, rows)
}

/// The part of the unit's rows that the call looks at, if the unit was opened. For a caller who holds no role, only the
/// unit's own row and the caller's grants are read.
fn unit_part<S: Alter>(
    alloc: Global,
    conn: &mut Connection<S>,
    unit: &UnitCode,
    call: &Call,
) -> Result<Option<UnitPart>, Error>
    requires { HasNoTransaction conn.old }
    ensures mode { HasNoTransaction conn.new }
    ensures found { ReadsContent S.Store conn.old conn.new result
        (λ m. part_in m call.now unit.now) }
    ensures reads { IsOnlyRead S.Store conn.old conn.new }
    ensures open { LeavesOpen S.Store conn.old conn.new result }
{
    let units = all_rows(alloc, conn, unit)?;
    if !has_row(&units) {
        return Ok(None);
    }
    let own = own_grants(alloc, conn, unit, &call.person)?;
    if !holds_some_by(&own, &call.person, call.moment) {
        return Ok(Some(part_of_grants(alloc, units, own)));
    }
    let part = holders_part(alloc, conn, unit, call, units, own)?;
    Ok(Some(part))
}

/// The part of its unit's rows that the call looks at. `None` unless the call names a unit that was opened.
pub fn part_of<S: Alter>(
    alloc: Global,
    conn: &mut Connection<S>,
    call: &Call,
) -> Result<Option<UnitPart>, Error>
    requires { HasNoTransaction conn.old }
    ensures mode { HasNoTransaction conn.new }
    ensures found { IsHonest (state S.Store conn.new) → (m : Content)
        → HasContent (state S.Store conn.old) m → (u : Name) → unit_named call.now.request ≡ Some u
        → IfOk result (λ part. part ≡ part_in m call.now u) }
    ensures none { unit_named call.now.request ≡ None → IfOk result (λ part. part ≡ None) }
    ensures reads { IsOnlyRead S.Store conn.old conn.new }
    ensures open { LeavesOpen S.Store conn.old conn.new result }
{
    match call.request.unit() {
        Some(unit) => unit_part(alloc, conn, unit, call),
        None => Ok(None),
    }
}
