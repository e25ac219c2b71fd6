//! Reads the units in which a person holds roles, with these roles, by queries over all units.

ghost use Rattle.std.specs.Prelude.{◌≡◌, ◌∷◌, [], IfOk, map};
ghost use Rattle.plant_books.specs.Contents.{codes_held, mine_units as units_held};
ghost use Rattle.plant_store.specs.Mine.{JoinsLine, runs_of, standing_units, started};
ghost use Rattle.plant_store.specs.Mine.{unit_line_cells, own_unit_lines};
ghost use Rattle.plant_store_statements.specs.Reading.{HasNoTransaction, IsOnlyRead, LeavesOpen, ReadsContent};

use crate::texts;
use plant_books::MineUnit;
use plant_model::is_before;
use plant_store_columns::decode::{Shown, coded, moment, open_moment, text};
use plant_store_columns::encode::single;
use plant_store_statements::memory::{copy_of, push};
use plant_store_statements::read::read_rows;
use plant_types::{List, Moment, Person, Role, UnitCode};
use sqlite::{Alter, Connection, Error, Row};
use std::alloc::Global;

/// A grant of the person, with its unit's last moment.
#[derive(Drop)]
pub struct UnitGrant {
    pub unit: UnitCode,
    pub role_no: Role,
    pub end_s: Option<Moment>,
    pub last_s: Moment,
}

impl Shown for UnitGrant {
    ghost width = { 4 };

    ghost cells = { unit_line_cells };

    fn from_row(alloc: Global, row: &Row) -> Result<UnitGrant, Error> {
        Ok(UnitGrant {
            unit: text(alloc, row, 0)?,
            role_no: coded(row, 1)?,
            end_s: open_moment(row, 2)?,
            last_s: moment(row, 3)?,
        })
    }
}

/// The person's grants in all units, each with its unit's last moment.
#[tactic(auto, using(crate::proofs::JoinMeanings::unit_lines, plant_store_statements::proofs::public::ReadsOnly::reads_plain))]
fn unit_lines<S: Alter>(
    alloc: Global,
    conn: &mut Connection<S>,
    person: &Person,
) -> Result<List<UnitGrant>, Error>
    requires { HasNoTransaction conn.old }
    ensures mode { HasNoTransaction conn.new }
    ensures found { ReadsContent S.Store conn.old conn.new result
        (λ m. own_unit_lines m person.now) }
    ensures reads { IsOnlyRead S.Store conn.old conn.new }
    ensures open { LeavesOpen S.Store conn.old conn.new result }
{
    read_rows(alloc, conn, texts::SELECT_UNIT_LINES, &single(person))
}

/// A list of one role.
fn one_role(alloc: Global, role_no: Role) -> Result<List<Role>, Error>
    ensures { IfOk result (λ roles. roles ≡ role_no ∷ []) }
{
    let mut roles = List::new(alloc);
    push(&mut roles, role_no)?;
    Ok(roles)
}

/// The unit of a line, with its role.
fn start(alloc: Global, line: &UnitGrant) -> Result<MineUnit, Error>
    ensures { IfOk result (λ u. u ≡ started line.now) }
{
    Ok(MineUnit {
        unit: copy_of(alloc, &line.unit)?,
        roles: one_role(alloc, line.role_no)?,
        last: line.last_s,
    })
}

/// Adds a line's role to the unit that is still open, or begins a new unit with it.
#[tactic(auto, using(crate::proofs::MineLines::joins_run))]
fn join(
    alloc: Global,
    units: &mut List<MineUnit>,
    current: Option<MineUnit>,
    line: &UnitGrant,
) -> Result<MineUnit, Error>
    ensures { IfOk result (JoinsLine units.old current line.now units.new) }
{
    let Some(mut unit) = current else {
        return start(alloc, line);
    };
    if unit.unit == line.unit {
        push(&mut unit.roles, line.role_no)?;
        return Ok(unit);
    }
    push(units, unit)?;
    let next = start(alloc, line)?;
    Ok(next)
}

/// The lines grouped by unit, without those of grants that have ended.
fn group(alloc: Global, lines: &[UnitGrant], now: Moment) -> Result<List<MineUnit>, Error>
    ensures { IfOk result (λ units. units ≡ runs_of (standing_units now lines.now)) }
{
    let mut units = List::new(alloc);
    let mut current: Option<MineUnit> = None;
    for line in lines {
        if is_before(now, line.end_s) {
            current = Some(join(alloc, &mut units, current, line)?);
        }
    }
    if let Some(unit) = current {
        push(&mut units, unit)?;
    }
    Ok(units)
}

/// The units in which the person holds a role at the moment, with the roles held.
pub fn mine_units<S: Alter>(
    alloc: Global,
    conn: &mut Connection<S>,
    person: &Person,
    now: Moment,
) -> Result<List<MineUnit>, Error>
    requires { HasNoTransaction conn.old }
    ensures mode { HasNoTransaction conn.new }
    ensures found { ReadsContent S.Store conn.old conn.new result
        (λ m. units_held m now person.now) }
    ensures reads { IsOnlyRead S.Store conn.old conn.new }
    ensures open { LeavesOpen S.Store conn.old conn.new result }
{
    let lines = unit_lines(alloc, conn, person)?;
    group(alloc, lines.as_slice(), now)
}

/// The codes of the units.
fn codes_of(alloc: Global, units: List<MineUnit>) -> Result<List<UnitCode>, Error>
    ensures { IfOk result (λ codes. codes ≡ map (λ mine. mine.unit) units) }
{
    let mut codes = List::new(alloc);
    for mine in units.into_vec() {
        push(&mut codes, mine.unit)?;
    }
    Ok(codes)
}

/// The codes of the units in which the person holds a role at the moment.
pub fn held<S: Alter>(
    alloc: Global,
    conn: &mut Connection<S>,
    person: &Person,
    now: Moment,
) -> Result<List<UnitCode>, Error>
    requires { HasNoTransaction conn.old }
    ensures mode { HasNoTransaction conn.new }
    ensures found { ReadsContent S.Store conn.old conn.new result
        (λ m. codes_held m now person.now) }
    ensures reads { IsOnlyRead S.Store conn.old conn.new }
    ensures open { LeavesOpen S.Store conn.old conn.new result }
{
    let units = mine_units(alloc, conn, person, now)?;
    codes_of(alloc, units)
}
