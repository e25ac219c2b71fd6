//! The facts on which a verdict is based, read from the rows of a part.

ghost use Rattle.std.specs.Prelude.{◌≡◌, count_by, option_copied};
ghost use Rattle.plant_types.specs.{KeyedRows.{row_at}, Names.{name_cmp}};
ghost use Rattle.plant_alarm.specs.Shelves.{is_unshelved};
ghost use Rattle.plant_model.specs.Facts.{is_steward_row, others_shelved, returned, shelf_now};
ghost use Rattle.plant_model.specs.steps.RowFacts.{alarm_tag, facts_in, last_return_in, shelf_tag};
ghost use Rattle.plant_model.specs.Shelves as shelves;
ghost use Rattle.plant_unit.specs.Shelving as shelving;

use plant_alarm::{Shelf, ShelfState, shelf_at};
use plant_model::{AlarmRow, GrantRow, ShelfRow, UnitPart, is_held_by, last_return};
use plant_types::{Moment, Person, Role, Sorted, Tag};

/// Whether the pair is held at the moment.
pub fn is_held(part: &UnitPart, person: &Person, role: Role, now: Moment) -> bool
    ensures { result ≡ (facts_in part.now).held now (person.now, role) }
{
    is_held_by(part.rows.grants.as_slice(), person, role, now)
}

/// How many grants of Steward stand.
pub fn stewards(grants: &[GrantRow]) -> usize
    ensures { result ≡ count_by is_steward_row grants.now }
{
    grants
        .iter()
        .filter(|row| row.role_no.is(Role::Steward))
        .count()
}

/// The row of the alarm with the tag.
pub fn alarm_of<'a>(part: &'a UnitPart, tag: &Tag) -> Option<&'a AlarmRow>
    ensures { option_copied result ≡ row_at name_cmp alarm_tag tag.now part.now.rows.alarms }
{
    part.rows.alarms.get(tag)
}

/// The shelf that the last shelving of the alarm with the tag left.
pub fn shelf_of<'a>(part: &'a UnitPart, tag: &Tag) -> Option<&'a ShelfRow>
    ensures { option_copied result ≡ row_at name_cmp shelf_tag tag.now part.now.rows.shelves }
{
    part.rows.shelves.get(tag)
}

/// The shelf that a row describes, or clear where the alarm has none.
pub fn shelf_left(row: Option<&ShelfRow>) -> Shelf
    ensures { result ≡ shelves.shelf_left (option_copied row.entry) }
{
    match row {
        None => Shelf::Clear,
        Some(row) if row.one_shot => Shelf::OneShot {
            start: row.start_s,
            until: row.until_s,
        },
        Some(row) => Shelf::Timed {
            start: row.start_s,
            until: row.until_s,
        },
    }
}

/// The shelved state at the moment, by a shelf's row.
pub fn state_of(row: Option<&ShelfRow>, returned: Option<Moment>, now: Moment) -> ShelfState
    ensures { result ≡ shelves.state_of_shelf (option_copied row.entry) returned now }
{
    shelf_at(&shelf_left(row), returned, now)
}

/// The shelved state at the moment of the alarm with the tag.
pub fn state_now(part: &UnitPart, tag: &Tag, now: Moment) -> ShelfState
    ensures { result ≡ shelf_now (facts_in part.now) tag.now now }
{
    let returned = last_return(part.rows.alarms.as_slice(), tag);
    state_of(shelf_of(part, tag), returned, now)
}

fn is_unshelved(state: ShelfState) -> bool
    ensures { result ≡ is_unshelved state }
{
    matches!(state, ShelfState::Unshelved)
}

/// When the alarm with the tag last returned to normal. The alarm is looked for at the place `next` first.
pub fn returned_next(alarms: &Sorted<AlarmRow>, next: &mut usize, tag: &Tag) -> Option<Moment>
    ensures { result ≡ last_return_in alarms.now tag.now }
{
    alarms.get_next(next, tag).and_then(|alarm| alarm.return_s)
}

/// Whether the shelf is that of another alarm, and shelves it at the moment. The alarm is looked for at the place `next`
/// first.
fn is_other_shelved(
    part: &UnitPart,
    next: &mut usize,
    tag: &Tag,
    row: &ShelfRow,
    now: Moment,
) -> bool
    ensures { result ≡ shelving.is_other_shelved (facts_in part.now) tag.now row.now now }
{
    if *tag == row.tag {
        return false;
    }
    let returned = returned_next(&part.rows.alarms, next, &row.tag);
    !is_unshelved(state_of(Some(row), returned, now))
}

/// How many other alarms are shelved at the moment.
pub fn others_shelved(part: &UnitPart, tag: &Tag, now: Moment) -> usize
    ensures { result ≡ others_shelved (facts_in part.now) tag.now now }
{
    let shelves = part.rows.shelves.as_slice();
    let mut next = 0;
    let mut others = 0;
    for row in shelves {
        if is_other_shelved(part, &mut next, tag, row, now) {
            others += 1;
        }
    }
    others
}
