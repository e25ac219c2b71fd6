//! Opens the books that a file keeps, or creates the file if neither it nor its log exists. A new file is made under
//! another name and renamed once it is whole, so that a start that is cut off leaves no half file.

ghost use Rattle.std.specs.Prelude.{◌≡◌, ◌≢◌, false, true, IsTrue, IfErr, IfOk, IfSome, string_bytes};
ghost use Rattle.sqlite.specs.{Effect.{Database}, Files.{file_state, IsBlankAs, IsEmpty, IsOpened}, Start.{FindsIn}};
ghost use Rattle.sqlite.specs.State.{HasCleanDisk};
ghost use Rattle.sqlite_std_file.specs.File.{IsFresh};
ghost use Rattle.sqlite_store.specs.FileStore.{view};
ghost use Rattle.sqlite_wal.specs.Files.{image_at};
ghost use Rattle.sqlite_wal.specs.Reads.{AreClean};
ghost use Rattle.sqlite.specs.{Held.{state}, Tree.{Trees}};
ghost use Rattle.plant_books.specs.{Books.{WasHonest}, Contents.{Content, no_units}};
ghost use Rattle.plant_store_columns.specs.Tables.{schema_no};
ghost use Rattle.plant_server.specs.{Crashes.{AreWholeBooksWith, LeavesOnly}, Files.{AreBooksWith, AreOfDatabase}};
ghost use Rattle.plant_server.specs.OverFiles.{IsRefusal, place_of};
ghost use Rattle.plant_types.specs.Names.{Name};
ghost use Rattle.plant_store_statements.specs.{Changes.{IsHonest}, Keeping.{LeavesAlike, Represents}, OnlyReads.{OnlyReads}, Reading.{HasNoTransaction, IsHonestIn}};
ghost use Rattle.plant_store.specs.{Opened.{IsAnothers, KeepsIfOk, WasOffice}, Opening.{IsThisOffice}};
ghost use Rattle.plant_server.specs.Files as files;

use crate::names::{Empty, Found, beside, is_there, length_of, remove};
use crate::openings::{create_at, open_at};
use crate::places::Located;
use crate::remains::{Left, close_whole};
use plant_server_machine::Machine;
use plant_store::{StoreFault, Tables, note_settled};
use plant_types::{Fault, Person};
use sqlite::{Alter, Connection, Error, ErrorCode, File, FileFrom, FileStore, Start};
use sqlite_disk::{Disk, Files};
use sqlite_trees::error::StoreError;
use std::alloc::Global;

/// A fault of the store.
pub const STORE: StoreFault = StoreFault::Fault(Fault::Store);

/// Memory ran out.
pub const MEMORY: StoreFault = StoreFault::Fault(Fault::Memory);

/// The fault that an error of the engine is reported as.
fn fault_of(error: &Error) -> StoreFault
    ensures { result ≡ files.fault_by_error error.now }
{
    match error {
        Error::SqliteFailure(ErrorCode::NotADatabase) => StoreFault::NotThisStore,
        Error::SqliteFailure(ErrorCode::OutOfMemory) => MEMORY,
        _ => STORE,
    }
}

/// Why no books were opened, and what is left of the file and its log.
pub type NotOpened<S> = (StoreFault, Left<FileFrom<S>, File, S>);

/// Opens the database at this path, which keeps its form. If there is none, the engine makes one of its own, with a
/// checksum in each page, in the form of SQLite's extension cksumvfs. If opening fails, the files are not overwritten: a
/// crash leaves of them what it could leave before (the engine's `LeavesFiles`).
pub fn connect<S: Start + Located>(
    machine: &Machine<'_>,
    path: &str,
    start: S,
) -> Result<Connection<FileStore<FileFrom<S>>>, NotOpened<S>>
    ensures mode { IfOk result (λ conn. HasNoTransaction conn) }
    ensures opened { IfOk result (λ conn. HasCleanDisk (file_state conn) → IsOpened conn) }
    ensures found { IfOk result (λ conn. path.now ≡ S.Located.path → HasCleanDisk (file_state conn)
        → FindsIn (image_at S.Start) (file_state conn)) }
    ensures sums { IfOk result (λ conn. path.now ≡ S.Located.path → HasCleanDisk (file_state conn)
        → IsBlankAs true (image_at S.Start) → (view conn.store).has_sums ≡ true) }
    ensures left { (admin : Name) → IfErr result (λ e. IsRefusal
        (place_of S.Located.path (image_at S.Start) (λ files. IsFresh true files.log × IsFresh false files.db))
        path.now admin e.0 e.1) }
{
    match open_at(machine, path, start) {
        Ok(conn) => Ok(conn),
        Err((error, left)) => Err((fault_of(&error), left)),
    }
}

/// Makes a database without tables in a file that does not exist, with a checksum in each page.
pub fn create(machine: &Machine<'_>, path: &str) -> Result<Connection<FileStore<File>>, StoreFault>
    ensures mode { IfOk result HasNoTransaction }
    ensures opened { IfOk result (λ conn. HasCleanDisk (file_state conn) → IsOpened conn) }
    ensures empty { IfOk result (λ conn. HasCleanDisk (file_state conn) → IsEmpty (file_state conn).committed.trees) }
    ensures sums { IfOk result (λ conn. HasCleanDisk (file_state conn) → (view conn.store).has_sums ≡ true) }
    ensures named { IfErr result (λ e. e ≢ StoreFault.NotThisStore) }
{
    match create_at(machine, path) {
        Ok(conn) => Ok(conn),
        Err(Error::SqliteFailure(ErrorCode::OutOfMemory)) => Err(MEMORY),
        Err(_) => Err(STORE),
    }
}

/// Opens the books of a database. A crash while they are open leaves what had been committed. A database that is
/// refused as books was only read, and is handed back. Generic over the store: the prover is slow on the concrete one.
fn open_books<S: Alter + Drop>(
    alloc: Global,
    conn: Connection<S>,
    admin: Person,
) -> Result<Tables<S>, (StoreFault, Connection<S>)>
    requires { HasNoTransaction conn }
    ensures fresh { IfOk result (λ t. (t.0.1 ≡ admin) × (t.1 ≡ 0)) }
    ensures kept { KeepsIfOk S.Store conn result (λ t. t.0.0) }
    ensures crash { (m : Content) → Represents (state S.Store conn) m
        → IfOk result (λ t. LeavesAlike (state S.Store conn) (state S.Store t.0.0) m) }
    ensures honest { IfOk result (λ t. WasHonest (IsHonestIn S.Store) conn t.0.0) }
    ensures open { IfOk result (λ t. HasCleanDisk (state S.Store t.0.0)
        → IsTrue (state S.Store t.0.0).is_open) }
    ensures office { IfOk result (λ t. WasOffice S.Store conn t.0.0 schema_no admin) }
    ensures other { IfErr result (λ e. IsAnothers S.Store conn e.1 schema_no admin e.0) }
    ensures read { IfErr result (λ e. OnlyReads (state S.Store conn) (state S.Store e.1)) }
    ensures settled { (db : Trees) → IsTrue (state S.Store conn).is_open → (state S.Store conn).may_leave db
        → db ≡ (state S.Store conn).committed.trees }
{
    // Gives the proof what a crash leaves of it; does nothing at run time.
    note_settled(&conn);
    match Tables::open(alloc, conn, admin) {
        Ok(books) => Ok(books),
        Err(refused) => Err((refused.fault, refused.conn)),
    }
}

/// Opens the books of an existing database. If its files held books with some content, that is what these hold; any
/// other database is opened only if it is this person's office. A database that is refused was only read.
fn open_file<S: Start + Located>(
    machine: &Machine<'_>,
    path: &str,
    admin: Person,
    start: S,
) -> Result<Tables<FileStore<FileFrom<S>>>, NotOpened<S>>
    ensures own { IfOk result (λ books. (books.0.1 ≡ admin) × (books.1 ≡ 0)) }
    ensures kept { path.now ≡ S.Located.path → (m : Content) → AreBooksWith (image_at S.Start) m
        → IfOk result (λ books. Represents (file_state books.0.0) m) }
    ensures crash { path.now ≡ S.Located.path → (m : Content) → AreBooksWith (image_at S.Start) m
        → IfOk result (λ books. LeavesOnly (file_state books.0.0) m) }
    ensures office { path.now ≡ S.Located.path → (db : Database) → AreOfDatabase (image_at S.Start) db
        → IfOk result (λ books. HasCleanDisk (file_state books.0.0) → IsThisOffice admin db) }
    ensures left { IfErr result (λ e. IsRefusal
        (place_of S.Located.path (image_at S.Start) (λ files. IsFresh true files.log × IsFresh false files.db))
        path.now admin e.0 e.1) }
{
    let conn = match connect(machine, path, start) {
        Ok(conn) => conn,
        Err((fault, left)) => return Err((fault, left)),
    };
    match open_books(machine.alloc(), conn, admin) {
        Ok(books) => Ok(books),
        Err((fault, conn)) => Err((fault, Left::Refused(conn))),
    }
}

/// Makes new books in a new database. Generic over the store: the prover is slow on the concrete one.
pub(crate) fn create_books<S: Alter + Drop>(
    alloc: Global,
    conn: Connection<S>,
    admin: Person,
) -> Result<Tables<S>, StoreFault>
    requires { HasNoTransaction conn }
    ensures own { IfOk result (λ books. (books.0.1 ≡ admin) × (books.1 ≡ 0)) }
    ensures new { IfOk result (λ books. Represents (state S.Store books.0.0) (no_units admin)) }
    ensures named { IfErr result (λ e. e ≢ StoreFault.NotThisStore) }
{
    match Tables::create(alloc, conn, admin) {
        Ok(books) => Ok(books),
        Err(unopened) => Err(unopened.fault),
    }
}

/// Makes new books in a new database, and closes it.
fn make_over<D: Disk + Drop>(
    alloc: Global,
    conn: Connection<FileStore<D>>,
    admin: Person,
) -> Result<Files<D>, StoreFault>
    requires { HasNoTransaction conn }
    ensures whole { IfOk result (λ files. AreClean D.Disk files.log files.db
        → AreWholeBooksWith D.Disk files (no_units admin)) }
    ensures named { IfErr result (λ e. e ≢ StoreFault.NotThisStore) }
{
    match create_books(alloc, conn, admin) {
        Ok(books) => close_new(books),
        Err(fault) => Err(fault),
    }
}

/// Makes new books in a file that does not exist, and closes it: whatever a crash leaves of it from then on holds the
/// books, also without the log.
fn make_whole(machine: &Machine<'_>, path: &str, admin: Person) -> Result<Files<File>, StoreFault>
    ensures whole { IfOk result (λ files. AreClean ⟦<File as Disk>⟧ files.log files.db
        → AreWholeBooksWith ⟦<File as Disk>⟧ files (no_units admin)) }
    ensures named { IfErr result (λ e. e ≢ StoreFault.NotThisStore) }
{
    match create(machine, path) {
        Ok(conn) => make_over(machine.alloc(), conn, admin),
        Err(fault) => Err(fault),
    }
}

/// Closes a new file, which then holds the books also without its log.
pub fn close_new<D: Disk + Drop>(books: Tables<FileStore<D>>) -> Result<Files<D>, StoreFault>
    ensures whole { (m : Content) → Represents (file_state books.0.0) m
        → IfOk result (λ files. AreClean D.Disk files.log files.db
        → AreWholeBooksWith D.Disk files m) }
    ensures named { IfErr result (λ e. e ≢ StoreFault.NotThisStore) }
{
    match close_whole(books) {
        Ok(files) => Ok(files),
        Err((error, store)) => {
            drop(store.close());
            Err(closing_fault(error))
        }
    }
}

/// The fault that an error of the store on closing is reported as.
fn closing_fault(error: StoreError) -> StoreFault
    ensures { result ≡ files.closing_fault_of error }
{
    match error {
        StoreError::OutOfMemory => MEMORY,
        _ => STORE,
    }
}

/// The name under which a new file is made, and that of its log.
#[derive(Drop)]
pub struct NewNames {
    pub file: String,
    pub log: String,
}

/// The names for a new file at this path.
pub fn new_names(machine: &Machine<'_>, path: &str) -> Result<NewNames, StoreFault>
    ensures { IfErr result (λ e. e ≢ StoreFault.NotThisStore) }
{
    Ok(NewNames {
        file: beside(machine, path, ".new")?,
        log: beside(machine, path, ".new-wal")?,
    })
}

/// Renames a new file, which is whole and closed, to its final name. An existing file of that name is not replaced,
/// unless it appears between the check and the renaming.
pub fn put_in_place(machine: &Machine<'_>, new: &NewNames, path: &str) -> Result<(), StoreFault>
    ensures { IfErr result (λ e. e ≢ StoreFault.NotThisStore) }
{
    remove(machine, &new.log)?;
    if length_of(machine, path)?.is_some() {
        return Err(STORE);
    }
    match machine.rename(&new.file, path) {
        Ok(()) => Ok(()),
        Err(_) => Err(STORE),
    }
}

/// Makes new books in a file of this name: first whole under a temporary name, then renamed. What an interrupted start
/// left under the temporary name is removed first.
fn make_file(machine: &Machine<'_>, path: &str, admin: Person) -> Result<(), StoreFault>
    ensures { IfErr result (λ e. e ≢ StoreFault.NotThisStore) }
{
    let new = new_names(machine, path)?;
    remove(machine, &new.file)?;
    remove(machine, &new.log)?;
    drop(make_whole(machine, &new.file, admin)?);
    put_in_place(machine, &new, path)
}

/// Makes new books in a file of this name, if neither it nor its log exists. If the file is empty, or only its log
/// exists, it returns that.
fn make_if_missing(
    machine: &Machine<'_>,
    path: &str,
    admin: &Person,
) -> Result<Option<Empty>, StoreFault>
    ensures named { IfErr result (λ e. e ≢ StoreFault.NotThisStore) }
    ensures empty { IfOk result (λ found. IfSome found (λ it. string_bytes it.path ≡ path.now)) }
{
    match is_there(machine, path)? {
        Found::Nothing => {
            let Ok(founder) = admin.copy(machine.alloc()) else {
                return Err(MEMORY);
            };
            make_file(machine, path, founder)?;
            Ok(None)
        }
        Found::Empty(it) => Ok(Some(it)),
        Found::File => Ok(None),
    }
}

/// Opens the books of the file at this path, which is created if neither it nor its log exists. An interrupted start
/// leaves nothing under this name, or a file that the next start opens. If no books are opened, the file is as it was.
/// It is refused as not this store if it is empty, if only its log exists, if it holds no database, or if the database
/// is not this administrator's office.
pub fn in_file<S: Start + Located>(
    machine: &Machine<'_>,
    path: &str,
    admin: Person,
    start: S,
) -> Result<Tables<FileStore<FileFrom<S>>>, NotOpened<S>>
    ensures own { IfOk result (λ books. (books.0.1 ≡ admin) × (books.1 ≡ 0)) }
    ensures kept { path.now ≡ S.Located.path → (m : Content) → AreBooksWith (image_at S.Start) m
        → IfOk result (λ books. Represents (file_state books.0.0) m) }
    ensures crash { path.now ≡ S.Located.path → (m : Content) → AreBooksWith (image_at S.Start) m
        → IfOk result (λ books. LeavesOnly (file_state books.0.0) m) }
    ensures office { path.now ≡ S.Located.path → (db : Database) → AreOfDatabase (image_at S.Start) db
        → IfOk result (λ books. HasCleanDisk (file_state books.0.0) → IsThisOffice admin db) }
    ensures left { IfErr result (λ e. IsRefusal
        (place_of S.Located.path (image_at S.Start) (λ files. IsFresh true files.log × IsFresh false files.db))
        path.now admin e.0 e.1) }
{
    match make_if_missing(machine, path, &admin) {
        Ok(None) => open_file(machine, path, admin, start),
        Ok(Some(found)) => Err((StoreFault::NotThisStore, Left::Empty(start, found))),
        Err(fault) => Err((fault, Left::Nothing(start))),
    }
}
