//! The migration of a file of the older schema: its tables are copied to a new file, and the older file is only read.

ghost use Rattle.std.specs.Prelude.{◌≡◌, IfErr, IfOk, IfSome, IsErr, IsSomeAnd, Ok, false};
ghost use Rattle.sqlite.specs.{Effect.{Database}, Files.{file_state, IsOpened}, Held.{state}, Start.{FindsIn}};
ghost use Rattle.sqlite.specs.State.{HasCleanDisk};
ghost use Rattle.sqlite_wal.specs.{Files.{image_at}, Reads.{AreClean}};
ghost use Rattle.plant_books.specs.Contents.{Content};
ghost use Rattle.plant_server.specs.{Crashes.{AreWholeBooksWith}, Files.{AreOfDatabase, AreOldBooksWith, StillShows}};
ghost use Rattle.plant_store_statements.specs.{Changes.{IsHonest}, Keeping.{Represents}, OnlyReads.{OnlyReads}};
ghost use Rattle.plant_store_statements.specs.Reading.{HasNoTransaction};
ghost use Rattle.plant_store_migration.specs.Upgrading.{HaveOldRows};

use crate::files::{NewNames, STORE, close_new, connect, create, new_names, put_in_place};
use crate::names::{Found, beside, is_there, length_of, remove};
use crate::places::Located;
use plant_server_machine::Machine;
use plant_store::{StoreFault, Tables, migrate, note_settled};
use plant_types::Person;
use sqlite::{Alter, Connection, File, FileFrom, FileStore, Start};
use sqlite_disk::{Disk, Files};
use std::alloc::Global;

/// Whether a file of this name exists, or a log of it.
fn is_taken(machine: &Machine<'_>, path: &str) -> Result<bool, StoreFault> {
    let log = beside(machine, path, "-wal")?;
    Ok(length_of(machine, path)?.is_some() || length_of(machine, &log)?.is_some())
}

/// Whether the file at this path, which may be a link to it, is the one of this name.
fn is_same_file(machine: &Machine<'_>, path: &str, name: &str) -> Result<bool, StoreFault> {
    machine.is_same_file(path, name).map_err(|_| STORE)
}

/// Removes what an interrupted start or migration left of a new file. If that is the older file itself, nothing is
/// removed, and this fails.
fn clear(machine: &Machine<'_>, old_path: &str, new: &NewNames) -> Result<(), StoreFault> {
    if is_same_file(machine, old_path, &new.file)? || is_same_file(machine, old_path, &new.log)? {
        return Err(STORE);
    }
    remove(machine, &new.file)?;
    remove(machine, &new.log)
}

/// Removes an unfinished new file. What can't be removed is removed by the next attempt.
fn discard(machine: &Machine<'_>, new: &NewNames) {
    let _ = remove(machine, &new.file);
    let _ = remove(machine, &new.log);
}

/// Copies the tables of the older database to the new one, and hands the older one back, which was only read. The new
/// books hold what the older tables held.
fn copy_tables<D: Disk + Drop, N: Alter + Drop>(
    alloc: Global,
    old: Connection<FileStore<D>>,
    new: Connection<N>,
    admin: Person,
) -> (Connection<FileStore<D>>, Result<Tables<N>, StoreFault>)
    requires older { HasNoTransaction old }
    requires newer { HasNoTransaction new }
    ensures taken { (m : Content) → m.admin ≡ admin
        → IfOk result.1 (λ books. IsHonest (file_state result.0)
        → HaveOldRows m (file_state old).now → Represents (state N.Store books.0.0) m) }
    ensures read { OnlyReads (file_state old) (file_state result.0) }
{
    match migrate(alloc, old, new, admin) {
        Ok((old, books)) => (old, Ok(books)),
        Err(refused) => (refused.old, Err(refused.fault)),
    }
}

/// Makes the new file under this name, and hands the older database back, which was only read. The new books hold what
/// the older tables held.
#[tactic(auto, using(crate::proofs::OlderRead::not_read))]
fn copy_to_file<D: Disk + Drop>(
    machine: &Machine<'_>,
    old: Connection<FileStore<D>>,
    path: &str,
    admin: Person,
) -> (
    Connection<FileStore<D>>,
    Result<Tables<FileStore<File>>, StoreFault>,
)
    requires { HasNoTransaction old }
    ensures taken { (m : Content) → m.admin ≡ admin
        → IfOk result.1 (λ books. IsHonest (file_state result.0)
        → HaveOldRows m (file_state old).now → Represents (file_state books.0.0) m) }
    ensures read { OnlyReads (file_state old) (file_state result.0) }
{
    match create(machine, path) {
        Ok(conn) => copy_tables(machine.alloc(), old, conn, admin),
        Err(fault) => (old, Err(fault)),
    }
}

/// Closes the new file, if it was made: whatever a crash leaves of it from then on holds the books, also without the
/// log.
fn close_migrated(
    tables: Result<Tables<FileStore<File>>, StoreFault>,
) -> Result<Files<File>, StoreFault>
    ensures whole { (m : Content) → IfOk tables (λ books. Represents (file_state books.0.0) m
        → IfOk result (λ files. AreClean ⟦<File as Disk>⟧ files.log files.db
        → AreWholeBooksWith ⟦<File as Disk>⟧ files m)) }
    ensures unmade { IfErr tables (λ _. IsErr result) }
{
    match tables {
        Ok(books) => close_new(books),
        Err(fault) => Err(fault),
    }
}

/// The same. If the new file was not made, or closing fails, its remains are removed.
fn finish(
    machine: &Machine<'_>,
    tables: Result<Tables<FileStore<File>>, StoreFault>,
    new: &NewNames,
) -> Result<Files<File>, StoreFault>
    ensures whole { (m : Content) → IfOk tables (λ books. Represents (file_state books.0.0) m
        → IfOk result (λ files. AreClean ⟦<File as Disk>⟧ files.log files.db
        → AreWholeBooksWith ⟦<File as Disk>⟧ files m)) }
    ensures unmade { IfErr tables (λ _. IsErr result) }
{
    let closed = close_migrated(tables);
    if closed.is_err() {
        discard(machine, new);
    }
    closed
}

/// Makes the new file under its temporary name, closes it, and hands the older database back, which was only read. The
/// new file holds what the older tables held. If it can't be made, its remains are removed.
#[tactic(auto, using(crate::proofs::OlderRead::not_read))]
fn make_new<D: Disk + Drop>(
    machine: &Machine<'_>,
    old: Connection<FileStore<D>>,
    old_path: &str,
    new: &NewNames,
    admin: Person,
) -> (Connection<FileStore<D>>, Result<Files<File>, StoreFault>)
    requires { HasNoTransaction old }
    ensures taken { (m : Content) → m.admin ≡ admin
        → IfOk result.1 (λ files. IsHonest (file_state result.0)
        → HaveOldRows m (file_state old).now → AreClean ⟦<File as Disk>⟧ files.log files.db
        → AreWholeBooksWith ⟦<File as Disk>⟧ files m) }
    ensures read { OnlyReads (file_state old) (file_state result.0) }
{
    if let Err(fault) = clear(machine, old_path, new) {
        return (old, Err(fault));
    }
    let (old, tables) = copy_to_file(machine, old, &new.file, admin);
    (old, finish(machine, tables, new))
}

/// The name of the log of the file at this path. If the path is a link, the log is beside the file that it points to.
fn log_of(machine: &Machine<'_>, path: &str) -> Result<String, StoreFault> {
    let Ok(file) = machine.whole_path(path) else {
        return Err(STORE);
    };
    beside(machine, &file, "-wal")
}

/// The older database, if it was opened, and the closed files of the new one, or why there are none.
pub type Migrated<S> = (
    Option<Connection<FileStore<FileFrom<S>>>>,
    Result<Files<File>, StoreFault>,
);

/// Makes the new file from the older database, which is only read.
fn make_from<S: Start + Located>(
    machine: &Machine<'_>,
    old: Connection<FileStore<FileFrom<S>>>,
    old_path: &str,
    new: &NewNames,
    admin: Person,
) -> (
    Connection<FileStore<FileFrom<S>>>,
    Result<Files<File>, StoreFault>,
)
    requires none { HasNoTransaction old }
    requires opened { HasCleanDisk (file_state old) → IsOpened old }
    requires found { old_path.now ≡ S.Located.path → HasCleanDisk (file_state old)
        → FindsIn (image_at S.Start) (file_state old) }
    ensures taken { old_path.now ≡ S.Located.path → (m : Content) → m.admin ≡ admin
        → AreOldBooksWith (image_at S.Start) m
        → IfOk result.1 (λ files. IsHonest (file_state result.0)
        → AreClean ⟦<File as Disk>⟧ files.log files.db
        → AreWholeBooksWith ⟦<File as Disk>⟧ files m) }
    ensures read { old_path.now ≡ S.Located.path → (db : Database)
        → AreOfDatabase (image_at S.Start) db → StillShows (file_state result.0) db }
{
    // Gives the proof what a crash leaves of it; does nothing at run time.
    note_settled(&old);
    make_new(machine, old, old_path, new, admin)
}

/// Opens the older file and makes the new one from it. The older one is only read, and stays locked while its
/// connection exists. The engine makes a log if there is none; that log is removed before the lock is released.
fn open_and_make<S: Start + Located>(
    machine: &Machine<'_>,
    old_path: &str,
    new: &NewNames,
    admin: Person,
    start: S,
) -> Result<
    (
        Connection<FileStore<FileFrom<S>>>,
        Result<Files<File>, StoreFault>,
    ),
    StoreFault,
>
    ensures taken { old_path.now ≡ S.Located.path → (m : Content) → m.admin ≡ admin
        → AreOldBooksWith (image_at S.Start) m → IfOk result (λ r. IfOk r.1 (λ files. IsHonest (file_state r.0)
        → AreClean ⟦<File as Disk>⟧ files.log files.db
        → AreWholeBooksWith ⟦<File as Disk>⟧ files m)) }
    ensures read { IfOk result (λ r. old_path.now ≡ S.Located.path → (db : Database)
        → AreOfDatabase (image_at S.Start) db → StillShows (file_state r.0) db) }
{
    let log = log_of(machine, old_path)?;
    let had_log = length_of(machine, &log)?.is_some();
    let old = match connect(machine, old_path, start) {
        Ok(old) => old,
        Err((fault, _)) => return Err(fault),
    };
    let migrated = make_from(machine, old, old_path, new, admin);
    if !had_log {
        let _ = remove(machine, &log);
    }
    Ok(migrated)
}

/// The names under which the new file is made. Fails if the older file does not exist, or the new file's name is taken.
fn names_for(
    machine: &Machine<'_>,
    old_path: &str,
    new_path: &str,
) -> Result<NewNames, StoreFault> {
    let Found::File = is_there(machine, old_path)? else {
        return Err(StoreFault::NotThisStore);
    };
    if is_taken(machine, new_path)? {
        return Err(STORE);
    }
    new_names(machine, new_path)
}

/// Renames the new file to its final name, if it was made.
fn place(
    machine: &Machine<'_>,
    files: Result<Files<File>, StoreFault>,
    new: &NewNames,
    path: &str,
) -> Result<Files<File>, StoreFault>
    ensures { IfOk result (λ left. files ≡ Ok left) }
{
    let files = files?;
    if let Err(fault) = put_in_place(machine, new, path) {
        discard(machine, new);
        return Err(fault);
    }
    machine.sync_folder_of(path).map_err(|_| STORE)?;
    Ok(files)
}

/// Copies the tables of the older file to a new one, whose name must be free. The older file is only read, whatever it
/// holds: on a disk that returns what was written, it still holds what it held. The new file appears once it is whole,
/// or not at all; if its folder can't be synced, it exists and a fault of the store is returned. The new file holds
/// what the older one held in schema 1.
pub fn migrate_file<S: Start + Located>(
    machine: &Machine<'_>,
    old_path: &str,
    new_path: &str,
    admin: Person,
    start: S,
) -> Migrated<S>
    ensures taken { old_path.now ≡ S.Located.path → (m : Content) → m.admin ≡ admin
        → AreOldBooksWith (image_at S.Start) m → IfOk result.1 (λ files. IsSomeAnd result.0 (λ old. IsHonest (file_state old)
        → AreClean ⟦<File as Disk>⟧ files.log files.db
        → AreWholeBooksWith ⟦<File as Disk>⟧ files m)) }
    ensures read { old_path.now ≡ S.Located.path → IfSome result.0 (λ old. (db : Database)
        → AreOfDatabase (image_at S.Start) db → StillShows (file_state old) db) }
{
    let new = match names_for(machine, old_path, new_path) {
        Ok(new) => new,
        Err(fault) => return (None, Err(fault)),
    };
    match open_and_make(machine, old_path, &new, admin, start) {
        Ok((old, files)) => (Some(old), place(machine, files, &new, new_path)),
        Err(fault) => (None, Err(fault)),
    }
}
