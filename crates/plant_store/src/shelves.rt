//! Reads the shelves of the units in which a person holds roles, by one query over all units.

ghost use Rattle.std.specs.List.{dedup};
ghost use Rattle.std.specs.Prelude.{◌≡◌, IfOk, map};
ghost use Rattle.sqlite_value.specs.{Order.{column}, declared.value.Value.TheVariants.{Text as TextValue}};
ghost use Rattle.plant_books.specs.Contents.{mine_shelves as shelves_held};
ghost use Rattle.plant_store.specs.Mine.{as_mine, line_cmp, repeats, shelf_line_cells};
ghost use Rattle.plant_store.specs.Mine.{own_shelf_lines, standing_shelves};
ghost use Rattle.plant_store_statements.specs.Reading.{HasNoTransaction, IsOnlyRead, LeavesOpen, ReadsContent};

use crate::texts;
use plant_books::MineRow;
use plant_model::{ShelfRow, is_before};
use plant_store_columns::decode::{Shown, coded, flag, moment, open_moment, text, wide};
use plant_store_columns::encode::single;
use plant_store_statements::memory::push;
use plant_store_statements::read::read_rows;
use plant_types::{List, Moment, Person, Role, Tag, UnitCode, Words};
use sqlite::{Alter, Connection, Error, Row};
use std::alloc::Global;
use std::cmp::Ordering;

/// A shelf with a grant of the person in its unit, and with the moment at which its alarm last returned to normal.
#[derive(Drop)]
pub struct ShelfGrant {
    pub unit: UnitCode,
    pub role_no: Role,
    pub end_s: Option<Moment>,
    pub shelf: ShelfRow,
    pub last_return: Option<Moment>,
}

/// The unit of a line, and the tag, the person and the words of its shelf.
fn texts_of_line(alloc: Global, row: &Row) -> Result<(UnitCode, Tag, Person, Words), Error>
    ensures { IfOk result (λ texts. (column row.now 0 ≡ TextValue texts.0)
        × (column row.now 3 ≡ TextValue texts.1)
        × (column row.now 7 ≡ TextValue texts.2)
        × (column row.now 8 ≡ TextValue texts.3)) }
{
    Ok((
        text(alloc, row, 0)?,
        text(alloc, row, 3)?,
        text(alloc, row, 7)?,
        text(alloc, row, 8)?,
    ))
}

impl Shown for ShelfGrant {
    ghost width = { 10 };

    ghost cells = { shelf_line_cells };

    fn from_row(alloc: Global, row: &Row) -> Result<ShelfGrant, Error> {
        // The texts are read last: after an error the values read so far must be dropped, and numbers need no drop.
        let role_no = coded(row, 1)?;
        let end_s = open_moment(row, 2)?;
        let one_shot = flag(row, 4)?;
        let start_s = moment(row, 5)?;
        let until_s = wide(row, 6)?;
        let last_return = open_moment(row, 9)?;
        let (unit, tag, person, words) = texts_of_line(alloc, row)?;
        Ok(ShelfGrant {
            unit,
            role_no,
            end_s,
            shelf: ShelfRow {
                tag,
                one_shot,
                start_s,
                until_s,
                person,
                words,
            },
            last_return,
        })
    }
}

/// Compares two lines by unit, then by role, then by tag.
fn compare_lines(a: &ShelfGrant, b: &ShelfGrant) -> Ordering
    ensures { result ≡ line_cmp a.now b.now }
{
    a.unit
        .cmp(&b.unit)
        .then(a.role_no.number().cmp(&b.role_no.number()))
        .then(a.shelf.tag.cmp(&b.shelf.tag))
}

/// The shelves of the units in which the person has grants, each shelf once for each of these grants, ordered by unit,
/// role and tag. The query usually returns them in this order already, and the sort then only compares.
#[tactic(auto, using(crate::proofs::JoinMeanings::shelf_lines, plant_store_statements::proofs::public::ReadsOnly::reads_plain))]
fn shelf_lines<S: Alter>(
    alloc: Global,
    conn: &mut Connection<S>,
    person: &Person,
) -> Result<List<ShelfGrant>, Error>
    requires { HasNoTransaction conn.old }
    ensures mode { HasNoTransaction conn.new }
    ensures found { ReadsContent S.Store conn.old conn.new result
        (λ m. own_shelf_lines m person.now) }
    ensures reads { IsOnlyRead S.Store conn.old conn.new }
    ensures open { LeavesOpen S.Store conn.old conn.new result }
{
    let found: List<ShelfGrant> = read_rows(
        alloc,
        conn,
        texts::SELECT_SHELF_LINES,
        &single(person),
    )?;
    let mut lines = found.into_vec();
    lines.sort_by(|a, b| compare_lines(a, b))?;
    Ok(List::from_vec(lines))
}

/// Whether the line belongs to another grant than the last one, in the same unit.
fn is_repeated(line: &ShelfGrant, last: &ShelfGrant) -> bool
    ensures { result ≡ repeats line.now last.now }
{
    last.unit == line.unit && !last.role_no.is(line.role_no)
}

/// The lines of one grant in each unit: the first that has not ended.
fn merge(lines: List<ShelfGrant>, now: Moment) -> List<ShelfGrant>
    ensures { result ≡ dedup repeats (standing_shelves now lines) }
{
    let mut lines = lines.into_vec();
    lines.retain(|line| is_before(now, line.end_s));
    lines.dedup_by(|line, last| is_repeated(line, last));
    List::from_vec(lines)
}

/// The shelves of the lines, each with the moment at which its alarm last returned to normal.
fn mine_rows(alloc: Global, lines: List<ShelfGrant>) -> Result<List<MineRow>, Error>
    ensures { IfOk result (λ mine. mine ≡ map as_mine lines) }
{
    let mut mine = List::new(alloc);
    for line in lines.into_vec() {
        let row = MineRow {
            last_return: line.last_return,
            unit: line.unit,
            shelf: line.shelf,
        };
        push(&mut mine, row)?;
    }
    Ok(mine)
}

/// The shelves of the units in which the person holds a role at the moment.
pub fn mine_shelves<S: Alter>(
    alloc: Global,
    conn: &mut Connection<S>,
    person: &Person,
    now: Moment,
) -> Result<List<MineRow>, Error>
    requires { HasNoTransaction conn.old }
    ensures mode { HasNoTransaction conn.new }
    ensures found { ReadsContent S.Store conn.old conn.new result
        (λ m. shelves_held m now person.now) }
    ensures reads { IsOnlyRead S.Store conn.old conn.new }
    ensures open { LeavesOpen S.Store conn.old conn.new result }
{
    let lines = shelf_lines(alloc, conn, person)?;
    mine_rows(alloc, merge(lines, now))
}
