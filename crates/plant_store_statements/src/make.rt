//! Makes the tables of new books, in one transaction.

ghost use Rattle.std.specs.Prelude.{◌-◌, ◌≡◌, OnOk};
ghost use Rattle.sqlite.specs.{Held.{state}, State.{Survives}};
ghost use Rattle.plant_books.specs.Books.{WasHonest};
ghost use Rattle.plant_store_statements.specs.{Changes.{IsHonest}, Making.{AreEmpty, AreNew, AreNewTrees}};
ghost use Rattle.plant_store_statements.specs.{Reading.{HasNoTransaction, IsHonestIn}, Writing.{IsBlank, LeadsTo, SameOnErr, SameReference, StaysOpen}};
ghost use Rattle.plant_store_columns.specs.Tables.{no_schema, schema_with, shape, table_count};
ghost use Rattle.plant_store_statements.specs.Texts as texts;

use crate::texts;
use crate::write::run;
use plant_store_columns::encode::single;
use plant_store_columns::tables::TableKind;
use plant_types::Person;
use sqlite::{Alter, Connection, Error, Transaction};

/// Makes the office's table.
fn make_office<S: Alter>(tx: &mut Transaction<'_, S>) -> Result<(), Error>
    ensures same_reference { SameReference tx.old tx.new }
    ensures made { LeadsTo S.Store tx.old tx.new
        (AreEmpty no_schema) (AreEmpty (schema_with 0)) result }
    ensures stays { StaysOpen S.Store tx.old tx.new result }
{
    run(tx, texts::CREATE_OFFICE, &[])
}

/// The text of the statement that makes the table.
fn table_text(kind: &TableKind) -> &'static str
    ensures { result.now ≡ texts.table_text kind.now }
{
    match kind {
        TableKind::Units => texts::CREATE_UNITS,
        TableKind::Grants => texts::CREATE_GRANTS,
        TableKind::Alarms => texts::CREATE_ALARMS,
        TableKind::Shelves => texts::CREATE_SHELVES,
        TableKind::Bands => texts::CREATE_BANDS,
        TableKind::Cells => texts::CREATE_CELLS,
        TableKind::Events => texts::CREATE_EVENTS,
        TableKind::Records => texts::CREATE_RECORDS,
        TableKind::Changes => texts::CREATE_CHANGES,
    }
}

/// Makes a table, after those before it.
#[tactic(auto, using(crate::proofs::Makings::makes_each))]
fn make_table<S: Alter>(tx: &mut Transaction<'_, S>, kind: &TableKind) -> Result<(), Error>
    ensures same_reference { SameReference tx.old tx.new }
    ensures made { LeadsTo S.Store tx.old tx.new
        (AreEmpty (schema_with ((shape kind.now).place - 1)))
        (AreEmpty (schema_with (shape kind.now).place)) result }
    ensures stays { StaysOpen S.Store tx.old tx.new result }
{
    run(tx, table_text(kind), &[])
}

/// Makes the index of grants by person, and the office's row.
fn fill_office<S: Alter>(tx: &mut Transaction<'_, S>, admin: &Person) -> Result<(), Error>
    ensures same_reference { SameReference tx.old tx.new }
    ensures made { LeadsTo S.Store tx.old tx.new
        (AreEmpty (schema_with table_count)) (AreNew admin.now) result }
    ensures stays { StaysOpen S.Store tx.old tx.new result }
{
    run(tx, texts::CREATE_GRANTS_BY_PERSON, &[])?;
    run(tx, texts::INSERT_OFFICE, &single(admin))?;
    Ok(())
}

/// Makes all tables, within a transaction.
pub fn make_tables<S: Alter>(tx: &mut Transaction<'_, S>, admin: &Person) -> Result<(), Error>
    ensures same_reference { SameReference tx.old tx.new }
    ensures made { LeadsTo S.Store tx.old tx.new IsBlank (AreNew admin.now) result }
    ensures stays { StaysOpen S.Store tx.old tx.new result }
{
    make_office(tx)?;
    make_table(tx, &TableKind::Units)?;
    make_table(tx, &TableKind::Grants)?;
    make_table(tx, &TableKind::Alarms)?;
    make_table(tx, &TableKind::Shelves)?;
    make_table(tx, &TableKind::Bands)?;
    make_table(tx, &TableKind::Cells)?;
    make_table(tx, &TableKind::Events)?;
    make_table(tx, &TableKind::Records)?;
    make_table(tx, &TableKind::Changes)?;
    fill_office(tx, admin)
}

/// Makes all tables in a database that has no tables: all of them, or nothing.
pub fn make_all<S: Alter>(conn: &mut Connection<S>, admin: &Person) -> Result<(), Error>
    requires { HasNoTransaction conn.old }
    ensures mode { HasNoTransaction conn.new }
    ensures made { IsHonest (state S.Store conn.new) → IsBlank (state S.Store conn.old).now
        → OnOk result (AreNew admin.now (state S.Store conn.new).now) }
    ensures unchanged { SameOnErr S.Store conn.old conn.new result }
    ensures honest { WasHonest (IsHonestIn S.Store) conn.old conn.new }
    ensures survives { IsBlank (state S.Store conn.old).now
        → Survives (state S.Store conn.old) (state S.Store conn.new) (AreNewTrees admin.now) }
{
    // Gives the proof that no transaction is open; the value is not used.
    let _settled = conn.is_autocommit();
    let mut tx = conn.transaction();
    make_tables(&mut tx, admin)?;
    tx.commit()?;
    Ok(())
}
