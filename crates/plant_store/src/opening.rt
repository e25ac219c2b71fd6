//! Checks whether a database holds the books of an office with this schema and administrator.

ghost use Rattle.std.specs.Prelude.{◌≡◌, ◌↔◌, [], ◌∷◌, false, map, true, IsTrue, IfOk, Ok};
ghost use Rattle.sqlite.specs.{Held.{state}, State.{HasCleanDisk}, Tree.{Trees}};
ghost use Rattle.sqlite_value.specs.{Order.{column}, declared.value.Value.TheVariants.{Text as TextValue}};
ghost use Rattle.plant_store_statements.specs.Changes.{IsHonest};
ghost use Rattle.plant_store.specs.{Opened.{FindsOffice, HasNoOffice}, Opening.{IsOffice, office_cells}};
ghost use Rattle.plant_store_statements.specs.{Reading.{HasNoTransaction, IsOnlyRead}, Writing.{IsLeftOpen}};
ghost use Rattle.plant_store_columns.specs.Shown.{columns};
ghost use Rattle.plant_store_columns.specs.Codes as codings;
ghost use Rattle.plant_store.specs.Opening as opening;

use plant_store_statements::read::ask;
use plant_store_statements::texts;
use plant_types::Person;
use sqlite::types::ValueRef;
use sqlite::{Alter, Connection, Error, Row};
use sqlite_schema::schema::{Schema, Table};

fn has_column(table: &Table, name: &[u8]) -> bool
    ensures { result ≡ opening.has_column name.now table.now }
{
    table.column_named(name).is_some()
}

fn is_office(table: &Table) -> bool
    ensures { result ≡ opening.is_office table.now }
{
    has_column(table, b"id") && has_column(table, b"schema_no") && has_column(table, b"admin")
}

/// Whether the database has the office's table, with its columns.
fn has_office(schema: &Schema) -> bool
    ensures { result ≡ opening.has_office schema.now }
{
    let Some(at) = schema.table_named(b"office") else {
        return false;
    };
    match schema.tables.as_slice().get(at) {
        Some(table) => is_office(table),
        None => false,
    }
}

fn is_number(row: &Row, at: usize, number: u32) -> bool
    ensures { IsTrue result ↔ (column row.now at ≡ codings.number number) }
{
    matches!(row.get_ref(at), Ok(ValueRef::Int(found)) if found == i64::from(number))
}

fn is_text(row: &Row, at: usize, text: &[u8]) -> bool
    ensures { IsTrue result ↔ (column row.now at ≡ TextValue text.now) }
{
    matches!(row.get_ref(at), Ok(ValueRef::Text(found)) if found == text)
}

/// Whether the row has this schema's number and this person's name.
fn is_row_of(row: &Row, schema: u32, admin: &Person) -> bool
    ensures { IsTrue result ↔ (columns 3 row.now ≡ office_cells schema admin.now) }
{
    is_number(row, 0, 1) && is_number(row, 1, schema) && is_text(row, 2, admin.as_bytes())
}

/// Whether these rows of the office's table are one row, with this schema's number and this person's name.
fn is_office_row(rows: &[Row], schema: u32, admin: &Person) -> bool
    ensures { IsTrue result ↔ (map (columns 3) rows.now ≡ office_cells schema admin.now ∷ []) }
{
    match rows {
        [row] => is_row_of(row, schema, admin),
        _ => false,
    }
}

/// Whether the office's table has one row, with this schema's number and this person's name. The table exists, with its
/// columns.
#[tactic(auto, using(plant_store_statements::proofs::public::Meanings::office_row_plain, plant_store_statements::proofs::public::ReadsOnly::reads_plain))]
fn has_its_row<S: Alter>(
    conn: &mut Connection<S>,
    schema: u32,
    admin: &Person,
) -> Result<bool, Error>
    requires { HasNoTransaction conn.old }
    ensures mode { HasNoTransaction conn.new }
    ensures row { IsHonest (state S.Store conn.new)
        → opening.has_office (state S.Store conn.old).now.schema ≡ true
        → IfOk result (λ is. IsTrue is ↔ IsOffice schema admin.now (state S.Store conn.old).now) }
    ensures reads { IsOnlyRead S.Store conn.old conn.new }
    ensures open { IsLeftOpen S.Store conn.new result }
{
    let rows = ask(conn, texts::SELECT_OFFICE, &[])?;
    Ok(is_office_row(rows.as_slice(), schema, admin))
}

/// Whether the database has the office's table with its columns, and in it one row, with this schema's number and this
/// person's name.
pub fn is_office_of<S: Alter>(
    conn: &mut Connection<S>,
    schema: u32,
    admin: &Person,
) -> Result<bool, Error>
    requires { HasNoTransaction conn.old }
    ensures mode { HasNoTransaction conn.new }
    ensures row { FindsOffice S.Store conn.old conn.new schema admin.now result }
    ensures missing { HasNoOffice S.Store conn.old → result ≡ Ok false }
    ensures reads { IsOnlyRead S.Store conn.old conn.new }
    ensures open { HasCleanDisk (state S.Store conn.new)
        → IfOk result (λ is. IsTrue is → IsTrue (state S.Store conn.new).is_open) }
{
    if !has_office(conn.schema()) {
        return Ok(false);
    }
    has_its_row(conn, schema, admin)
}

/// Gives the proof what a crash leaves of a connection while it is open: what it has committed. Does nothing at run
/// time.
pub fn note_settled<S: Alter>(conn: &Connection<S>)
    ensures { (db : Trees) → IsTrue (state S.Store conn.now).is_open → (state S.Store conn.now).may_leave db
        → db ≡ (state S.Store conn.now).committed.trees }
{
    let _settled = conn.is_autocommit();
}
