//! Closes the files after serving, with the log copied into the main file, and hands back what is left of them, so that
//! the command's contract can state what they hold.

ghost use Rattle.std.specs.Prelude.{◌≡◌, IfErr, IfOk, IsTrue, List};
ghost use Rattle.sqlite.specs.{Files.{file_state}, Held.{AreDatabases, state}, State.{HasCleanDisk, IsLive}};
ghost use Rattle.sqlite.specs.Tree.{Trees};
ghost use Rattle.sqlite_store.specs.FileStore.{recovers, view};
ghost use Rattle.sqlite_trees.specs.View.{IsClean, IsQuiet, IsRolledBack as IsUndone};
ghost use Rattle.sqlite_wal.specs.Reads.{AreClean};
ghost use Rattle.plant_books.specs.Contents.{Content};
ghost use Rattle.plant_model.specs.{Worlds.{World}, declared.{call.Call.{Call}, reply.Answer.{Answer}}};
ghost use Rattle.plant_office.specs.Outcomes.{IsOutcome};
ghost use Rattle.plant_server.specs.Crashes.{AreAsCommitted, AreWholeBooksWith, AreWholeOutcomeOf, IsWhole, LeavesOutcomes};
ghost use Rattle.plant_store_statements.specs.Keeping.{LeavesBooks, LeavesContent, Represents};

use crate::names::Empty;
use crate::openings::Unreached;
use plant_store::{StoreFault, Tables};
use plant_store_memory::MemoryFile;
use sqlite::{Alter, Connection, FileStore, Leftover};
use sqlite_disk::{Disk, Files};
use sqlite_trees::error::StoreError;
use sqlite_trees::store::Store;

/// What the command leaves of the files, for its contract to refer to.
pub enum Left<D: Disk, N: Disk, F> {
    /// No files were opened: the start that came, unused. Nothing else can stand here, since no code can make a start of
    /// a type that it does not know.
    Nothing(F),
    /// No files were opened: a file of this name is empty, or only its log exists.
    Empty(F, Empty),
    /// No files were opened: it was tried, and failed.
    Unreached(Unreached<F>),
    /// Files that were not opened as a database: what the engine left of them.
    Unopened(Leftover<D>),
    /// A database that was refused as books.
    Refused(Connection<FileStore<D>>),
    /// Files that were served and closed, with the log copied into the file.
    Closed(Files<D>),
    /// Files that were served, but whose log could not be copied.
    Unclosed(FileStore<D>),
    /// No files were opened: the start, and the store of books in memory that were served.
    InMemory(F, FileStore<MemoryFile>),
    /// The older file, if it was opened, and the closed files of the new one, or why there are none.
    Migrated(Option<Connection<FileStore<D>>>, Result<Files<N>, StoreFault>),
}

// Written by hand, so that callers need not prove again how each part is dropped.
impl<D: Disk + Drop, N: Disk + Drop, F: Drop> Drop for Left<D, N, F> {
    fn drop(self) {
        match self {
            Left::Nothing(_start) => {}
            Left::Empty(_start, _found) => {}
            Left::Unreached(_it) => {}
            Left::Unopened(_files) => {}
            Left::Refused(_database) => {}
            Left::Closed(_files) => {}
            Left::Unclosed(_store) => {}
            Left::InMemory(_start, _store) => {}
            Left::Migrated(_old, _made) => {}
        }
    }
}

/// Hands the store of the books back. Generic over the store: the prover is slow on the concrete one.
fn store_of<S: Alter + Drop>(books: Tables<S>) -> S
    ensures numbered { IsClean (S.Store.view result) → IsTrue (S.Store.view result).is_numbered }
    ensures sound { IsClean (S.Store.view result) → AreDatabases (S.Store.recovers result) }
    ensures undone { IsUndone (S.Store.view books.0.0.store) (S.Store.view result) }
    ensures quiet { IsQuiet S.Store.view S.Store.faults S.Store.recovers S.Store.is_shielded
        books.0.0.store result }
    ensures live { IsLive (state S.Store books.0.0) }
    ensures settled { IsTrue (state S.Store books.0.0).is_open
        → (state S.Store books.0.0).now ≡ (state S.Store books.0.0).committed }
{
    let conn = books.close();
    // For the proof only: there is a database, and all of it is committed. The values are not used.
    let _live = conn.schema();
    let _settled = conn.is_autocommit();
    conn.into_store()
}

/// Hands the store of the books back, as serving left it. Whatever a crash now leaves of the store could also be left
/// of the books.
pub fn leave<D: Disk + Drop>(books: Tables<FileStore<D>>) -> FileStore<D>
    ensures clean { IsClean (view result) → HasCleanDisk (file_state books.0.0) }
    ensures whole { IsClean (view result) → IsWhole result }
    ensures open { IsClean (view result) → IsTrue (view result).is_open
        → IsTrue (file_state books.0.0).is_open
        × ((view result).committed ≡ (file_state books.0.0).committed.trees) }
    ensures left { (w : World) (calls : List Call) (answers : List Answer) → IsClean (view result)
        → LeavesBooks (file_state books.0.0)
        → ((x : Content) → LeavesContent (file_state books.0.0) x → IsOutcome w calls answers x)
        → LeavesOutcomes result w calls answers }
    ensures live { IsLive (file_state books.0.0) }
    ensures settled { IsTrue (file_state books.0.0).is_open
        → (file_state books.0.0).now ≡ (file_state books.0.0).committed }
{
    store_of(books)
}

/// Copies the log into the file, and hands the two files back, or the store as it is if that fails.
fn copy_log<D: Disk>(mut store: FileStore<D>) -> Result<Files<D>, (StoreError, FileStore<D>)>
    requires { IsClean (view store) → IsWhole store }
    ensures copied { IfOk result (λ files. AreClean D.Disk files.log files.db
        → AreAsCommitted D.Disk store files) }
    ensures clean { IfErr result (λ e. IsClean (view e.1) → IsClean (view store)) }
    ensures open { IfErr result (λ e. IsClean (view e.1) → IsTrue (view e.1).is_open
        → IsTrue (view store).is_open) }
    ensures fewer { IfErr result (λ e. (db : Trees) → recovers e.1 db → recovers store db) }
{
    // Nothing is uncommitted here. The rollback changes nothing, and gives the proof that fact.
    store.rollback();
    match store.checkpoint() {
        Ok(()) => Ok(store.close()),
        Err(error) => Err((error, store)),
    }
}

/// Closes the files after serving, with the log copied into the file; if copying fails, the log stays beside the file.
/// After success the file alone holds what a crash could leave before.
pub fn close_left<D: Disk>(store: FileStore<D>) -> Result<Files<D>, (StoreError, FileStore<D>)>
    requires { IsClean (view store) → IsWhole store }
    ensures whole { (w : World) (calls : List Call) (answers : List Answer)
        → LeavesOutcomes store w calls answers
        → IfOk result (λ files. AreClean D.Disk files.log files.db
        → AreWholeOutcomeOf D.Disk files w calls answers) }
    ensures was_open { IfOk result (λ files. AreClean D.Disk files.log files.db
        → IsClean (view store) × IsTrue (view store).is_open) }
    ensures clean { IfErr result (λ e. IsClean (view e.1) → IsClean (view store)) }
    ensures open { IfErr result (λ e. IsClean (view e.1) → IsTrue (view e.1).is_open
        → IsTrue (view store).is_open) }
    ensures fewer { IfErr result (λ e. (db : Trees) → recovers e.1 db → recovers store db) }
{
    copy_log(store)
}

/// Closes the files of books, with the log copied into the file: whatever a crash leaves of them from then on holds the
/// books, with the log and without it.
pub fn close_whole<D: Disk + Drop>(
    books: Tables<FileStore<D>>,
) -> Result<Files<D>, (StoreError, FileStore<D>)>
    ensures { (m : Content) → Represents (file_state books.0.0) m
        → IfOk result (λ files. AreClean D.Disk files.log files.db
        → AreWholeBooksWith D.Disk files m) }
{
    copy_log(leave(books))
}
