//! The books of an office, kept in the tables of a connection.

ghost use Rattle.std.specs.Prelude.{◌≡◌, ◌≢◌, ◌↔◌, ℕ, false, IsTrue, IsErrAnd, IfOk, IfErr, OnOk};
ghost use Rattle.sqlite.specs.{Held.{state}, State.{HasCleanDisk, Survives}};
ghost use Rattle.plant_books.specs.{Books.{WasHonest}, Contents.{Content, no_units}, Counting.{Counts}};
ghost use Rattle.plant_store_statements.specs.{Changes.{IsHonest}, Keeping.{LeavesAlike, LeavesBooks, LeavesContent, Represents}};
ghost use Rattle.plant_store.specs.Counting.{IsWantOfMemory, Names, NamesAgain, SaysAgain};
ghost use Rattle.plant_store_statements.specs.Making.{AreNewTrees};
ghost use Rattle.plant_store.specs.Opened.{HasNoOffice, IsAnothers, KeepsAll, KeepsIfErr, KeepsIfOk, WasOffice};
ghost use Rattle.plant_store_statements.specs.{Reading.{HasNoTransaction, IsHonestIn, IsOnlyRead}, Writing.{IsLeftOpen, SameDatabase}};
ghost use Rattle.plant_store.specs.Standing.{IsSo};
ghost use Rattle.plant_store.specs.declared.tables.StoreFault.TheVariants.{NotThisStore};
ghost use Rattle.plant_store_columns.specs.Tables.{no_schema, schema_no};
ghost use Rattle.plant_types.specs.declared.fault.Fault.TheVariants.{Store};

use crate::opening::is_office_of;
use crate::{mine, shelves};
use plant_alarm::Event;
use plant_books::{Books, MineRow, MineUnit, count_after};
use plant_model::{Call, Changes, UnitPart, UnitRows};
use plant_store_reads::{part, unit};
use plant_store_statements::make::make_all;
use plant_store_statements::write;
use plant_types::{Fault, List, Moment, Person, Sorted, UnitCode};
use sqlite::{Alter, Connection, Error as SqlError, ErrorCode};
use sqlite_schema::schema::Schema;
use std::alloc::Global;
use std::marker::Model;
use thiserror::Error;

/// Whether memory ran out. Files in memory then have no room.
fn is_want_of_memory(error: &SqlError, in_memory: bool) -> bool
    ensures { IsTrue result ↔ IsWantOfMemory in_memory error.now }
{
    match error {
        SqlError::SqliteFailure(ErrorCode::OutOfMemory) => true,
        SqlError::SqliteFailure(ErrorCode::DiskFull) => in_memory,
        _ => false,
    }
}

/// The error as a fault. `in_memory` is whether the store's files lie in memory.
pub fn fault_of(error: &SqlError, in_memory: bool) -> Fault
    ensures { Names in_memory error.now result }
{
    if is_want_of_memory(error, in_memory) {
        Fault::Memory
    } else {
        Fault::Store
    }
}

/// This schema's number.
const SCHEMA: u32 = 2;

/// Whether the database has no table, no index and no view.
pub fn is_blank(schema: &Schema) -> bool
    ensures { IsTrue result ↔ (schema.now ≡ no_schema) }
{
    schema.tables.as_slice().is_empty()
        && schema.indexes.as_slice().is_empty()
        && schema.views.as_slice().is_empty()
}

/// What the books know of their store.
#[derive(Clone, Copy, Debug, PartialEq, Eq)]
enum Standing {
    /// It is open.
    Open,
    /// It was not asked since it was opened, or since a statement failed.
    Unknown,
    /// A failure has shut it.
    Shut,
}

/// Asks the store whether it is open.
fn standing_of<S: Alter>(conn: &mut Connection<S>) -> Standing
    requires { HasNoTransaction conn.old }
    ensures mode { HasNoTransaction conn.new }
    ensures so { IsSo (state S.Store conn.new) result }
    ensures reads { IsOnlyRead S.Store conn.old conn.new }
{
    match write::find_open(conn) {
        Ok(()) => Standing::Open,
        Err(SqlError::SqliteFailure(ErrorCode::Closed)) => Standing::Shut,
        Err(_) => Standing::Unknown,
    }
}

/// Fails unless the store is open.
fn look<S: Alter>(conn: &mut Connection<S>, standing: &mut Standing) -> Result<(), SqlError>
    requires mode { HasNoTransaction conn.old }
    ensures mode { HasNoTransaction conn.new }
    ensures open { IsLeftOpen S.Store conn.new result }
    ensures so { OnOk result (IsSo (state S.Store conn.new) standing.new) }
    ensures reads { IsOnlyRead S.Store conn.old conn.new }
{
    write::find_open(conn)?;
    *standing = Standing::Open;
    Ok(())
}

/// A statement's result, with its error as a fault. A fault of the store is counted, and after an error the store is
/// asked whether it is open.
fn conclude<T: Drop, S: Alter>(
    conn: &mut Connection<S>,
    stores: &mut u64,
    standing: &mut Standing,
    in_memory: bool,
    outcome: Result<T, SqlError>,
) -> Result<T, Fault>
    requires mode { HasNoTransaction conn.old }
    requires so { OnOk outcome (IsSo (state S.Store conn.old) standing.old) }
    ensures mode { HasNoTransaction conn.new }
    ensures so { IsSo (state S.Store conn.new) standing.new }
    ensures reads { IsOnlyRead S.Store conn.old conn.new }
    ensures same { OnOk result (conn.new ≡ conn.old) }
    ensures outcome { SaysAgain outcome result }
    ensures named { NamesAgain in_memory outcome result }
    ensures count { Counts stores.old stores.new result }
{
    match outcome {
        Ok(found) => Ok(found),
        Err(error) => {
            *standing = standing_of(conn);
            let fault = fault_of(&error, in_memory);
            *stores = count_after(*stores, &fault);
            Err(fault)
        }
    }
}

/// Why a connection was not accepted as books.
#[derive(Debug, Drop, Error)]
pub enum StoreFault {
    /// The office's table or a column of it is missing, or its row is not that of this schema and this person.
    #[error("not this store")]
    NotThisStore,
    /// Memory ran out, or the store failed.
    #[error("{0}")]
    Fault(Fault),
}

/// A connection that was not accepted, handed back with the administrator's name.
#[derive(Drop)]
pub struct Unopened<S: Alter> {
    pub conn: Connection<S>,
    pub admin: Person,
    pub fault: StoreFault,
}

/// The books of an office, in the database of one connection. All units share the same tables.
#[derive(Drop)]
pub struct Tables<S: Alter> {
    conn: Connection<S>,
    admin: Person,
    stores: u64,
    standing: Standing,
    in_memory: bool,
    alloc: Global,
}

impl<S: Alter> Model for Tables<S> {
    ghost use Rattle.std.specs.{Coded.{coded×, coded_ℕ, coded_list}, Prelude.{IsTrue, ℕ, List}};
    ghost use Rattle.sqlite.specs.Held.{Held, held_code, state};
    ghost use Rattle.plant_store_statements.specs.Reading.{HasNoTransaction};
    ghost use Rattle.plant_store.specs.Standing.{IsSo};

    ghost Value = { (Held S × List ℕ) × ℕ };

    ghost coded = { coded× (coded× (held_code S.code) (coded_list coded_ℕ)) coded_ℕ };

    ghost view = { λ t. ((t.conn, t.admin), t.stores) };

    ghost invariant = { λ t. HasNoTransaction t.conn × IsSo (state S.Store t.conn) t.standing };
}

impl<S: Alter> Tables<S> {
    /// Makes all tables, without units, in a database that has no tables; otherwise it is a fault of the store. They
    /// are made in one transaction, so a crash leaves either what was there before or all of them.
    pub fn create(
        alloc: Global,
        mut conn: Connection<S>,
        admin: Person,
    ) -> Result<Tables<S>, Unopened<S>>
        requires { HasNoTransaction conn }
        ensures made { IfOk result (λ t. (t.0.1 ≡ admin)
            × Represents (state S.Store t.0.0) (no_units admin)) }
        ensures count { IfOk result (λ t. t.1 ≡ 0) }
        ensures blank { IfOk result (λ t. (state S.Store conn).now.schema ≡ no_schema) }
        ensures refused { (state S.Store conn).now.schema ≢ no_schema
            → IfErr result (λ e. e.fault ≡ StoreFault.Fault Store) }
        ensures fault { IfErr result (λ e. e.fault ≢ StoreFault.NotThisStore) }
        ensures unchanged { IfErr result (λ e. SameDatabase S.Store conn e.conn) }
        ensures crash { IfOk result (λ t. Survives (state S.Store conn) (state S.Store t.0.0)
            (AreNewTrees admin)) }
        ensures crash_unmade { IfErr result (λ e. Survives (state S.Store conn) (state S.Store e.conn)
            (AreNewTrees admin)) }
        ensures back { IfErr result (λ e. (e.admin ≡ admin) × HasNoTransaction e.conn) }
    {
        if !is_blank(conn.schema()) {
            return Err(Unopened {
                conn,
                admin,
                fault: StoreFault::Fault(Fault::Store),
            });
        }
        match make_all(&mut conn, &admin) {
            Ok(()) => Ok(Tables::of(alloc, conn, admin)),
            Err(error) => Err(Unopened {
                conn,
                admin,
                fault: StoreFault::Fault(fault_of(&error, false)),
            }),
        }
    }

    /// Opens a database that `create` made for this administrator. Refused as `NotThisStore` if the office's table or a
    /// column of it is missing, or if it does not have one row, with this schema and this administrator. The database
    /// is only read, whatever it holds.
    #[tactic(auto, using(plant_store_statements::proofs::public::ReadsOnly::keeps_read))]
    pub fn open(
        alloc: Global,
        mut conn: Connection<S>,
        admin: Person,
    ) -> Result<Tables<S>, Unopened<S>>
        requires { HasNoTransaction conn }
        ensures kept { KeepsIfOk S.Store conn result (λ t. t.0.0) }
        ensures crash { (m : Content) → Represents (state S.Store conn) m
            → IfOk result (λ t. LeavesAlike (state S.Store conn) (state S.Store t.0.0) m) }
        ensures fresh { IfOk result (λ t. (t.0.1 ≡ admin) × (t.1 ≡ 0)) }
        ensures honest { IfOk result (λ t. WasHonest (IsHonestIn S.Store) conn t.0.0) }
        ensures open { IfOk result (λ t. HasCleanDisk (state S.Store t.0.0)
            → IsTrue (state S.Store t.0.0).is_open) }
        ensures office { IfOk result (λ t. WasOffice S.Store conn t.0.0 schema_no admin) }
        ensures other { IfErr result (λ e. IsAnothers S.Store conn e.conn schema_no admin e.fault) }
        ensures missing { HasNoOffice S.Store conn → IsErrAnd result (λ e. e.fault ≡ NotThisStore) }
        ensures own { (m : Content) → Represents (state S.Store conn) m → m.admin ≡ admin
            → IfErr result (λ e. IsHonest (state S.Store e.conn) → e.fault ≢ NotThisStore) }
        ensures left { KeepsIfErr S.Store conn result (λ e. e.conn) }
        ensures read { IfOk result (λ t. IsOnlyRead S.Store conn t.0.0) }
        ensures unread { IfErr result (λ e. IsOnlyRead S.Store conn e.conn) }
        ensures back { IfErr result (λ e. (e.admin ≡ admin) × HasNoTransaction e.conn) }
    {
        // Give the proof that there is a database, and that all of it is committed; the values are not used.
        let _settled = conn.is_autocommit();
        let _live = conn.schema();
        let fault = match is_office_of(&mut conn, SCHEMA, &admin) {
            Ok(true) => return Ok(Tables::of(alloc, conn, admin)),
            Ok(false) => StoreFault::NotThisStore,
            Err(error) => StoreFault::Fault(fault_of(&error, false)),
        };
        Err(Unopened { conn, admin, fault })
    }

    /// The books in these tables, which were just made.
    pub(crate) fn of(alloc: Global, conn: Connection<S>, admin: Person) -> Tables<S>
        requires { HasNoTransaction conn }
        ensures same { result.0.0 ≡ conn }
        ensures admin { result.0.1 ≡ admin }
        ensures count { result.1 ≡ 0 }
    {
        Tables {
            conn,
            admin,
            stores: 0,
            standing: Standing::Unknown,
            in_memory: false,
            alloc,
        }
    }

    /// Hands the connection back.
    pub fn close(self) -> Connection<S>
        ensures same { result ≡ self.0.0 }
        ensures mode { HasNoTransaction result }
    {
        let Tables { conn, .. } = self;
        conn
    }

    /// Sets how many steps a statement may take, or removes that limit. A statement that would take more is a fault.
    pub fn set_steps(&mut self, steps: Option<u64>)
        ensures limit { self.new.0.0 ≡ record self.old.0.0 { step_limit = steps } }
        ensures admin { self.new.0.1 ≡ self.old.0.1 }
        ensures count { self.new.1 ≡ self.old.1 }
        ensures kept { KeepsAll S.Store self.old.0.0 self.new.0.0 }
    {
        self.conn.set_step_limit(steps);
    }

    /// Says that the store's files lie in memory: a call for which they have no room is then answered `Fault::Memory`.
    pub fn set_in_memory(&mut self)
        ensures { self.new ≡ self.old }
    {
        self.in_memory = true;
    }
}

impl<S: Alter> Books for Tables<S> {
    ghost is_honest = { λ t. IsHonest (state S.Store t.0.0) };

    ghost represents = { λ t m. (t.0.1 ≡ m.admin) × Represents (state S.Store t.0.0) m };

    ghost stores = { λ t. t.1 };

    ghost is_clean = { λ t. HasCleanDisk (state S.Store t.0.0) };

    ghost may_leave = { λ t m. LeavesContent (state S.Store t.0.0) m };

    ghost leaves_books = { λ t. LeavesBooks (state S.Store t.0.0) };

    fn settle(&self) {
        let _settled = self.conn.is_autocommit();
        let _live = self.conn.schema();
    }

    fn is_shut(&self) -> bool {
        matches!(self.standing, Standing::Shut)
    }

    fn ensure_open(&mut self) -> Result<(), Fault> {
        if let Standing::Open = self.standing {
            return Ok(());
        }
        let outcome = look(&mut self.conn, &mut self.standing);
        conclude(
            &mut self.conn,
            &mut self.stores,
            &mut self.standing,
            self.in_memory,
            outcome,
        )
    }

    fn administrator(&self) -> &Person {
        &self.admin
    }

    fn taken(&mut self, unit: &UnitCode) -> Result<bool, Fault> {
        let outcome = unit::taken(self.alloc, &mut self.conn, unit);
        conclude(
            &mut self.conn,
            &mut self.stores,
            &mut self.standing,
            self.in_memory,
            outcome,
        )
    }

    fn rows(&mut self, unit: &UnitCode) -> Result<Option<UnitRows>, Fault> {
        let outcome = unit::rows_of(self.alloc, &mut self.conn, unit);
        conclude(
            &mut self.conn,
            &mut self.stores,
            &mut self.standing,
            self.in_memory,
            outcome,
        )
    }

    fn rows_but_history(&mut self, unit: &UnitCode) -> Result<Option<UnitRows>, Fault> {
        let outcome = unit::rows_but_history(self.alloc, &mut self.conn, unit);
        conclude(
            &mut self.conn,
            &mut self.stores,
            &mut self.standing,
            self.in_memory,
            outcome,
        )
    }

    fn events(&mut self, unit: &UnitCode) -> Result<Sorted<Event>, Fault> {
        let outcome = unit::events(self.alloc, &mut self.conn, unit);
        conclude(
            &mut self.conn,
            &mut self.stores,
            &mut self.standing,
            self.in_memory,
            outcome,
        )
    }

    fn part(&mut self, call: &Call) -> Result<Option<UnitPart>, Fault> {
        let outcome = part::part_of(self.alloc, &mut self.conn, call);
        conclude(
            &mut self.conn,
            &mut self.stores,
            &mut self.standing,
            self.in_memory,
            outcome,
        )
    }

    fn held(&mut self, person: &Person, now: Moment) -> Result<List<UnitCode>, Fault> {
        let outcome = mine::held(self.alloc, &mut self.conn, person, now);
        conclude(
            &mut self.conn,
            &mut self.stores,
            &mut self.standing,
            self.in_memory,
            outcome,
        )
    }

    fn mine_units(&mut self, person: &Person, now: Moment) -> Result<List<MineUnit>, Fault> {
        let outcome = mine::mine_units(self.alloc, &mut self.conn, person, now);
        conclude(
            &mut self.conn,
            &mut self.stores,
            &mut self.standing,
            self.in_memory,
            outcome,
        )
    }

    fn mine_shelves(&mut self, person: &Person, now: Moment) -> Result<List<MineRow>, Fault> {
        let outcome = shelves::mine_shelves(self.alloc, &mut self.conn, person, now);
        conclude(
            &mut self.conn,
            &mut self.stores,
            &mut self.standing,
            self.in_memory,
            outcome,
        )
    }

    fn apply(
        &mut self,
        unit: &UnitCode,
        changes: &Changes,
        seen: Option<&UnitRows>,
    ) -> Result<(), Fault> {
        let outcome = write::apply(&mut self.conn, unit, changes.as_slice(), seen);
        conclude(
            &mut self.conn,
            &mut self.stores,
            &mut self.standing,
            self.in_memory,
            outcome,
        )
    }
}
