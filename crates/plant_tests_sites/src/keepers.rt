//! Two keepers compared by the rows that they hold.

use crate::sessions::after;
use plant_alarm::Event;
use plant_model::{
    AlarmRow, BandRow, CellRow, ChangeEntry, GrantRow, RecordEntry, ShelfRow, UnitRow, UnitRows,
};
use plant_office::Books;
use plant_tests_examples::{BEGIN, Exchanges, Failure, between};
use plant_types::{Fault, UnitCode};
use std::alloc::Global;

/// A row that can be compared with another.
trait Same: Drop {
    fn is_same(&self, other: &Self) -> bool;
}

impl Same for UnitRow {
    fn is_same(&self, other: &UnitRow) -> bool {
        self == other
    }
}

impl Same for GrantRow {
    fn is_same(&self, other: &GrantRow) -> bool {
        let GrantRow {
            person,
            role_no,
            end_s,
        } = self;
        *person == other.person && *role_no == other.role_no && *end_s == other.end_s
    }
}

impl Same for AlarmRow {
    fn is_same(&self, other: &AlarmRow) -> bool {
        let AlarmRow {
            tag,
            latching,
            max_s,
            max_rev,
            state_no,
            suppressed,
            active_s,
            return_s,
            out_s,
            out_by,
            out_words,
        } = self;
        *tag == other.tag
            && *latching == other.latching
            && *max_s == other.max_s
            && *max_rev == other.max_rev
            && *state_no == other.state_no
            && *suppressed == other.suppressed
            && *active_s == other.active_s
            && *return_s == other.return_s
            && *out_s == other.out_s
            && *out_by == other.out_by
            && *out_words == other.out_words
    }
}

impl Same for ShelfRow {
    fn is_same(&self, other: &ShelfRow) -> bool {
        let ShelfRow {
            tag,
            one_shot,
            start_s,
            until_s,
            person,
            words,
        } = self;
        *tag == other.tag
            && *one_shot == other.one_shot
            && *start_s == other.start_s
            && *until_s == other.until_s
            && *person == other.person
            && *words == other.words
    }
}

impl Same for Event {
    fn is_same(&self, other: &Event) -> bool {
        self == other
    }
}

impl Same for BandRow {
    fn is_same(&self, other: &BandRow) -> bool {
        self == other
    }
}

impl Same for CellRow {
    fn is_same(&self, other: &CellRow) -> bool {
        self == other
    }
}

impl Same for RecordEntry {
    fn is_same(&self, other: &RecordEntry) -> bool {
        let RecordEntry {
            tag,
            change_no,
            rev,
            cell_no,
        } = self;
        *tag == other.tag
            && *change_no == other.change_no
            && *rev == other.rev
            && *cell_no == other.cell_no
    }
}

impl Same for ChangeEntry {
    fn is_same(&self, other: &ChangeEntry) -> bool {
        let ChangeEntry {
            number,
            proposer,
            proposed_s,
            kind_no,
            tag,
            base,
            cause,
            consequence,
            remedy,
            severity,
            response_s,
            max_s,
            state_no,
            decider,
            decided_s,
        } = self;
        *number == other.number
            && *proposer == other.proposer
            && *proposed_s == other.proposed_s
            && *kind_no == other.kind_no
            && *tag == other.tag
            && *base == other.base
            && *cause == other.cause
            && *consequence == other.consequence
            && *remedy == other.remedy
            && *severity == other.severity
            && *response_s == other.response_s
            && *max_s == other.max_s
            && *state_no == other.state_no
            && *decider == other.decider
            && *decided_s == other.decided_s
    }
}

fn are_same<T: Same>(ours: &[T], theirs: &[T]) -> bool {
    if ours.len() != theirs.len() {
        return false;
    }
    for (our, their) in ours.iter().zip(theirs) {
        if !our.is_same(their) {
            return false;
        }
    }
    true
}

/// Whether a unit has the same rows, in the same order, or none on both sides.
fn are_same_rows(ours: &Option<UnitRows>, theirs: &Option<UnitRows>) -> bool {
    let (Some(ours), Some(theirs)) = (ours, theirs) else {
        return ours.is_none() && theirs.is_none();
    };
    let UnitRows {
        units,
        grants,
        alarms,
        shelves,
        events,
        bands,
        cells,
        records,
        changes,
    } = ours;
    are_same(units.as_slice(), theirs.units.as_slice())
        && are_same(grants.as_slice(), theirs.grants.as_slice())
        && are_same(alarms.as_slice(), theirs.alarms.as_slice())
        && are_same(shelves.as_slice(), theirs.shelves.as_slice())
        && are_same(events.as_slice(), theirs.events.as_slice())
        && are_same(bands.as_slice(), theirs.bands.as_slice())
        && are_same(cells.as_slice(), theirs.cells.as_slice())
        && are_same(records.as_slice(), theirs.records.as_slice())
        && are_same(changes.as_slice(), theirs.changes.as_slice())
}

/// Whether a unit has the same rows on both sides, where the second may be a fault. The rows are dropped here, once for
/// all callers.
fn gave_same_rows(
    ours: Option<UnitRows>,
    theirs: Result<Option<UnitRows>, Fault>,
) -> Result<bool, Fault> {
    Ok(are_same_rows(&ours, &theirs?))
}

/// Whether both keepers hold the same rows of this unit, except its history.
fn hold_all_but_history_alike(
    ours: &mut impl Books,
    theirs: &mut impl Books,
    unit: &UnitCode,
) -> Result<bool, Fault> {
    let ours = ours.rows_but_history(unit)?;
    gave_same_rows(ours, theirs.rows_but_history(unit))
}

/// Whether both keepers hold the same events of this unit.
fn hold_events_alike(
    ours: &mut impl Books,
    theirs: &mut impl Books,
    unit: &UnitCode,
) -> Result<bool, Fault> {
    let ours = ours.events(unit)?;
    let theirs = theirs.events(unit)?;
    Ok(are_same(ours.as_slice(), theirs.as_slice()))
}

/// Whether both keepers hold the same rows of this unit: together, and its events apart from the others.
fn hold_unit_alike(
    ours: &mut impl Books,
    theirs: &mut impl Books,
    unit: &UnitCode,
) -> Result<bool, Fault> {
    if !hold_all_but_history_alike(ours, theirs, unit)? || !hold_events_alike(ours, theirs, unit)? {
        return Ok(false);
    }
    let ours = ours.rows(unit)?;
    gave_same_rows(ours, theirs.rows(unit))
}

/// Whether both keepers hold the same rows of each of the units.
pub fn hold_alike(
    ours: &mut impl Books,
    theirs: &mut impl Books,
    units: &[UnitCode],
) -> Result<bool, Fault> {
    for unit in units {
        if !hold_unit_alike(ours, theirs, unit)? {
            return Ok(false);
        }
    }
    Ok(true)
}

/// Both keepers hold the same rows of each of the units.
pub fn check_rows(
    ours: &mut impl Books,
    theirs: &mut impl Books,
    units: &[UnitCode],
) -> Result<(), Failure> {
    if hold_alike(ours, theirs, units)? {
        Ok(())
    } else {
        Err(Failure::Rows)
    }
}

/// After each request both keepers hold the same rows of each unit that the example names.
pub fn check_keepers<A: Books + Drop, B: Books + Drop>(
    alloc: Global,
    mut ours: A,
    mut theirs: B,
    wanted: &Exchanges,
) -> Result<(), Failure> {
    let mut last = BEGIN;
    for mark in &wanted.marks {
        let (request, answer) = between(wanted, last, *mark)?;
        ours = after(alloc, ours, request, answer)?;
        theirs = after(alloc, theirs, request, answer)?;
        check_rows(&mut ours, &mut theirs, &wanted.units)?;
        last = *mark;
    }
    Ok(())
}

/// Whether both keepers hold the same rows, one after these exchanges and the other after those, each answered as
/// expected.
pub fn are_left_alike<A: Books + Drop, B: Books + Drop>(
    alloc: Global,
    ours: A,
    theirs: B,
    these: &Exchanges,
    those: &Exchanges,
) -> Result<bool, Failure> {
    let (first, second) = (these.answers.as_bytes(), those.answers.as_bytes());
    let mut ours = after(alloc, ours, these.requests.as_bytes(), first)?;
    let mut theirs = after(alloc, theirs, those.requests.as_bytes(), second)?;
    Ok(hold_alike(&mut ours, &mut theirs, &these.units)?)
}
