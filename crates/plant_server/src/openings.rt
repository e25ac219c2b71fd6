//! Opens the database engine over the file at a path and its write-ahead log, with a limit of the log's length, or makes
//! a new database there.

ghost use Rattle.std.specs.Prelude.{◌≡◌, ◌≢◌, false, true, IfErr, IfOk, IsTrue};
ghost use Rattle.sqlite.specs.Files.{file_state, IsBlankAs, IsEmpty, IsOpened};
ghost use Rattle.plant_server.specs.{Files.{fault_by_error}, OverFiles.{IsNoDatabase, place_of}};
ghost use Rattle.plant_store.specs.declared.tables.StoreFault.TheVariants.{NotThisStore};
ghost use Rattle.sqlite.specs.{Held.{IsNew}, Opening.{is_open_error}, Start.{FindsIn}, State.{HasCleanDisk}};
ghost use Rattle.sqlite_std_file.specs.File.{file_is_usable, IsFresh};
ghost use Rattle.sqlite_store.specs.FileStore.{view};
ghost use Rattle.sqlite_wal.specs.Files.{image_at};

use crate::places::Located;
use crate::remains::Left;
use plant_server_machine::Machine;
use plant_store_files::{PageSize, create_over, new_page, options_of};
use sqlite::{Connection, Error, ErrorCode, File, FileFrom, FileStore, Start, Unknown};
use sqlite_disk::Files;
use sqlite_std_file::OpenError;
use std::io::ErrorKind;
use std::marker::PhantomData;

/// The bytes of a page of a file whose header names none.
const USUAL_PAGE: usize = 4096;

const CANNOT_OPEN: Error = Error::SqliteFailure(ErrorCode::CannotOpen);

/// The engine's error for a failure to open the files.
fn error_of(error: &OpenError) -> Error
    ensures named { IsTrue (is_open_error result) }
    ensures fault { fault_by_error result ≢ NotThisStore }
{
    match error {
        OpenError::OutOfMemory => Error::SqliteFailure(ErrorCode::OutOfMemory),
        OpenError::Busy => Error::SqliteFailure(ErrorCode::DatabaseBusy),
        OpenError::Io(error) if error.kind() == ErrorKind::OutOfMemory => {
            Error::SqliteFailure(ErrorCode::OutOfMemory)
        }
        _ => CANNOT_OPEN,
    }
}

/// That it was tried to open files with a start of this type, and failed. Only this module makes it, only where that is
/// so; and as there is but one start of a type that the code does not know, no files were opened with it.
#[derive(Drop)]
pub struct Unreached<S> {
    error: Error,
    start: PhantomData<S>,
}

/// What is left where no database was opened.
pub type NoDatabase<S> = (Error, Left<FileFrom<S>, File, S>);

/// Opens the file at this path and its log, each created if missing. The engine's names for a database in memory and
/// for a URI are not paths, and are refused.
fn open_pair<S: Start + Located>(
    machine: &Machine<'_>,
    path: &str,
    start: S,
) -> Result<Files<FileFrom<S>>, Error>
    ensures named { IfErr result (λ e. IsTrue (is_open_error e)) }
    ensures fault { IfErr result (λ e. fault_by_error e ≢ NotThisStore) }
    ensures usable { IfOk result (λ files. IsTrue (file_is_usable S.Start files.log)
        × IsTrue (file_is_usable S.Start files.db)) }
    ensures fresh { IfOk result (λ files. path.now ≡ S.Located.path
        → IsFresh true files.log × IsFresh false files.db) }
{
    if path == ":memory:" || path.starts_with("file:") {
        return Err(CANNOT_OPEN);
    }
    match machine.open(path, start) {
        Ok(files) => Ok(files),
        Err(error) => Err(error_of(&error)),
    }
}

/// A random number for a log.
fn seed(machine: &Machine<'_>) -> Result<u64, Error>
    ensures named { IfErr result (λ e. IsTrue (is_open_error e)) }
    ensures fault { IfErr result (λ e. fault_by_error e ≢ NotThisStore) }
{
    match machine.random() {
        Ok(seed) => Ok(seed),
        Err(_) => Err(CANNOT_OPEN),
    }
}

/// The size of the pages of the file at this path, as its header says. It only chooses the limit of the log's length: the
/// engine reads the header itself, and makes pages of 4,096 bytes where there is none.
fn page_of(machine: &Machine<'_>, path: &str) -> PageSize {
    let named = match machine.head_of(path) {
        Ok(head) => match u16::from_be_bytes([head[16], head[17]]) {
            1 => 65_536,
            bytes => usize::from(bytes),
        },
        Err(_) => USUAL_PAGE,
    };
    match PageSize::new(named) {
        Some(size) => size,
        None => PageSize::new(USUAL_PAGE).unwrap(),
    }
}

/// Opens the database at this path, with pages of the size that it has. If there is none, the engine makes one of its
/// own, with a checksum in each page, in the form of SQLite's extension cksumvfs. If opening fails, what is left of the
/// files is handed back, or the start if it was not used.
pub fn open_at<S: Start + Located>(
    machine: &Machine<'_>,
    path: &str,
    start: S,
) -> Result<Connection<FileStore<FileFrom<S>>>, NoDatabase<S>>
    ensures fresh { IfOk result IsNew }
    ensures opened { IfOk result (λ conn. HasCleanDisk (file_state conn) → IsOpened conn) }
    ensures found { IfOk result (λ conn. path.now ≡ S.Located.path → HasCleanDisk (file_state conn)
        → FindsIn (image_at S.Start) (file_state conn)) }
    ensures sums { IfOk result (λ conn. path.now ≡ S.Located.path → HasCleanDisk (file_state conn)
        → IsBlankAs true (image_at S.Start) → (view conn.store).has_sums ≡ true) }
    ensures named { IfErr result (λ e. IsTrue (is_open_error e.0)) }
    ensures left { IfErr result (λ e. IsNoDatabase
        (place_of S.Located.path (image_at S.Start) (λ files. IsFresh true files.log × IsFresh false files.db))
        path.now e.0 e.1) }
{
    let seed = match seed(machine) {
        Ok(seed) => seed,
        Err(error) => return Err((error, Left::Nothing(start))),
    };
    let options = options_of(seed, page_of(machine, path));
    let files = match open_pair(machine, path, start) {
        Ok(files) => files,
        Err(error) => {
            let start = PhantomData;
            return Err((error, Left::Unreached(Unreached { error, start })));
        }
    };
    match Connection::open_files_with(machine.alloc(), files, options, true) {
        Ok(conn) => Ok(conn),
        Err((error, left)) => Err((error, Left::Unopened(left))),
    }
}

/// Makes a database without tables in the file at this path and its log, which hold none, with a checksum in each page.
pub fn create_at(machine: &Machine<'_>, path: &str) -> Result<Connection<FileStore<File>>, Error>
    ensures fresh { IfOk result IsNew }
    ensures opened { IfOk result (λ conn. HasCleanDisk (file_state conn) → IsOpened conn) }
    ensures empty { IfOk result (λ conn. HasCleanDisk (file_state conn) → IsEmpty (file_state conn).committed.trees) }
    ensures sums { IfOk result (λ conn. HasCleanDisk (file_state conn) → (view conn.store).has_sums ≡ true) }
    ensures named { IfErr result (λ e. IsTrue (is_open_error e)) }
{
    let seed = seed(machine)?;
    let files = open_pair(machine, path, Unknown)?;
    match create_over(machine.alloc(), files, new_page(), seed, true) {
        Ok(conn) => Ok(conn),
        Err((error, _)) => Err(error),
    }
}
