//! Makes a new database in two files, with pages of a size that the caller chooses. The engine makes pages of 4,096
//! bytes where it is left to itself.

ghost use Rattle.std.specs.Prelude.{◌≡◌, ◌/◌, [], IfErr, IfOk, IsTrue};
ghost use Rattle.plant_store_files.specs.Creations.{IsNewStore, FailsToCreate, LeavesBegun};
ghost use Rattle.sqlite.specs.{Files.{faults_of, file_state, IsCleanLeft, IsEmpty, IsOpened}, Held.{IsNew}, Opening.{is_open_error, reported}, State.{HasCleanDisk}};
ghost use Rattle.sqlite_pool.specs.Stored.{used_size};
ghost use Rattle.sqlite_store.specs.{FileStore.{is_shielded, view}, Unopened.{files_of, state_of, wanted_by, AreUsable}};
ghost use Rattle.sqlite_wal.specs.PageSize.{bytes_of};

use sqlite::{Connection, Error, ErrorCode, FileStore, Leftover, Options};
use sqlite_disk::{Disk, Files};
use sqlite_pager::{PageSize, Pager};
use sqlite_store::{OpenError, Unopened};
use std::alloc::{AllocFailed, Global};

/// The bytes of a page of a new file.
const NEW_PAGE: usize = 1024;

/// The bytes of the pages in the log when it is copied into the file. With their heads they stay below 256 KiB, unless a
/// single call writes more.
const BYTES_IN_LOG: usize = 224 * 1024;

const NO_MEMORY: Error = Error::SqliteFailure(ErrorCode::OutOfMemory);

/// The size of a page of a new file.
pub fn new_page() -> PageSize
    ensures { bytes_of result ≡ 1024 }
{
    PageSize::new(NEW_PAGE).unwrap()
}

/// The engine's options for files with pages of this size: a number for the log, and the limit of its length.
pub fn options_of(seed: u64, size: PageSize) -> Options
    ensures seed { result.seed ≡ seed }
    ensures log { result.checkpoint_frames ≡ 229376 / bytes_of size }
{
    let mut options = Options::new(seed);
    options.checkpoint_frames = BYTES_IN_LOG / size.bytes();
    options
}

/// The engine's error for a failure to make a database.
fn error_of(error: OpenError) -> Error
    ensures named { IsTrue (is_open_error result) }
    ensures value { result ≡ reported error }
{
    Error::SqliteFailure(match error {
        OpenError::OutOfMemory => ErrorCode::OutOfMemory,
        OpenError::Io => ErrorCode::SystemIoFailure,
        OpenError::Full => ErrorCode::DiskFull,
        OpenError::Refused => ErrorCode::DatabaseCorrupt,
    })
}

/// The two files, with pages of this size, before anything is read or written.
fn unopened<D: Disk>(
    alloc: Global,
    files: Files<D>,
    size: PageSize,
    options: Options,
    has_sums: bool,
) -> Result<Unopened<D>, Files<D>>
    ensures back { IfErr result (λ left. (left.log ≡ files.log) × (left.db ≡ files.db)) }
    ensures files { IfOk result (λ it. files_of it ≡ (files.log, files.db)) }
    ensures size { IfOk result (λ it. (state_of it).page_size ≡ used_size (bytes_of size) has_sums) }
    ensures none { IfOk result (λ it. wanted_by it ≡ []) }
{
    let pager = match Pager::new(alloc, files, size, options) {
        Ok(pager) => pager,
        Err(AllocFailed { value }) => return Err(value),
    };
    match Unopened::with_sums(alloc, pager, &[], has_sums) {
        Ok(fresh) => Ok(fresh),
        Err(AllocFailed { value }) => Err(value.close()),
    }
}

/// Makes a store without tables.
fn new_store<D: Disk>(
    alloc: Global,
    files: Files<D>,
    size: PageSize,
    options: Options,
    has_sums: bool,
) -> Result<FileStore<D>, (Error, Leftover<D>)>
    requires log { IsTrue (D.Disk.is_usable files.log) }
    requires db { IsTrue (D.Disk.is_usable files.db) }
    ensures made { IfOk result (λ store. IsTrue (view store).is_clean → IsNewStore (faults_of D.Disk files) (bytes_of size) has_sums store) }
    ensures named { IfErr result (λ e. IsTrue (is_open_error e.0)) }
    ensures cause { IfErr result (λ e. IsCleanLeft e.1 → FailsToCreate (used_size (bytes_of size) has_sums) files e.1 e.0) }
    ensures left { IfErr result (λ e. IsCleanLeft e.1 → LeavesBegun (used_size (bytes_of size) has_sums) files e.1) }
{
    let fresh = match unopened(alloc, files, size, options, has_sums) {
        Ok(fresh) => fresh,
        Err(left) => return Err((NO_MEMORY, Leftover::Files(left))),
    };
    match fresh.create() {
        Ok(store) => Ok(store),
        Err((error, left)) => Err((error_of(error), Leftover::Unopened(left))),
    }
}

/// Makes a database without tables in two files that hold none, with pages of this size, and a checksum in each if
/// `has_sums`; `seed` is a number for the log. If that fails, what is left of the files is handed back: a crash leaves of
/// them no database, or one without tables, or what it could leave before. Files that hold a database are refused, and
/// are as they were.
pub fn create_over<D: Disk + Drop>(
    alloc: Global,
    files: Files<D>,
    size: PageSize,
    seed: u64,
    has_sums: bool,
) -> Result<Connection<FileStore<D>>, (Error, Leftover<D>)>
    requires log { IsTrue (D.Disk.is_usable files.log) }
    requires db { IsTrue (D.Disk.is_usable files.db) }
    ensures fresh { IfOk result IsNew }
    ensures opened { IfOk result (λ conn. HasCleanDisk (file_state conn) → IsOpened conn) }
    ensures empty { IfOk result (λ conn. HasCleanDisk (file_state conn) → IsEmpty (file_state conn).committed.trees) }
    ensures sums { IfOk result (λ conn. HasCleanDisk (file_state conn) → (view conn.store).has_sums ≡ has_sums) }
    ensures guarded { IfOk result (λ conn. HasCleanDisk (file_state conn) → (file_state conn).IsShielded) }
    ensures named { IfErr result (λ e. IsTrue (is_open_error e.0)) }
    ensures cause { IfErr result (λ e. IsCleanLeft e.1 → FailsToCreate (used_size (bytes_of size) has_sums) files e.1 e.0) }
    ensures left { IfErr result (λ e. IsCleanLeft e.1 → LeavesBegun (used_size (bytes_of size) has_sums) files e.1) }
{
    let options = options_of(seed, size);
    let store = new_store(alloc, files, size, options, has_sums)?;
    match Connection::over(alloc, store) {
        Ok(conn) => Ok(conn),
        Err((error, store)) => Err((error, Leftover::Store(store))),
    }
}
