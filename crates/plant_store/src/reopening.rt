//! Closing and reopening books that are kept in files: they hold what they held before.

ghost use Rattle.std.specs.Prelude.{◌≡◌, IfSome};
ghost use Rattle.sqlite.specs.{Files.{file_state}, Held.{state}};
ghost use Rattle.plant_books.specs.Contents.{Content};
ghost use Rattle.plant_store_statements.specs.{Keeping.{Represents}, Reading.{HasNoTransaction}};

use crate::tables::Tables;
use plant_types::Person;
use sqlite::{Alter, Connection, FileStore, Options};
use sqlite_disk::Disk;
use std::alloc::Global;

/// Closes the files of a connection and opens them again.
fn reopen_files<D: Disk + Drop>(
    alloc: Global,
    conn: Connection<FileStore<D>>,
    options: Options,
) -> Option<Connection<FileStore<D>>>
    requires { HasNoTransaction conn }
    ensures mode { IfSome result (λ again. HasNoTransaction again) }
    ensures kept { (m : Content) → Represents (file_state conn) m
        → IfSome result (λ again. Represents (file_state again) m) }
{
    let _live = conn.schema();
    let _settled = conn.is_autocommit();
    let files = match conn.close_files() {
        Ok(files) => files,
        Err((_, store)) => {
            drop(store.close());
            return None;
        }
    };
    match Connection::open_files(alloc, files, options) {
        Ok(again) => Some(again),
        Err(_) => None,
    }
}

/// Opens the books of a database again. Generic over the store: the prover is slow on the concrete one.
fn open_again<S: Alter + Drop>(
    alloc: Global,
    conn: Connection<S>,
    admin: Person,
) -> Option<Tables<S>>
    requires { HasNoTransaction conn }
    ensures fresh { IfSome result (λ again. (again.0.1 ≡ admin) × (again.1 ≡ 0)) }
    ensures kept { (m : Content) → Represents (state S.Store conn) m → m.admin ≡ admin
        → IfSome result (λ again. (again.0.1 ≡ m.admin) × Represents (state S.Store again.0.0) m) }
{
    match Tables::open(alloc, conn, admin) {
        Ok(again) => Some(again),
        Err(_) => None,
    }
}

/// Closes books that are kept in files, and opens them again for the same administrator. They hold what they held
/// before; the count of faults starts at 0 again. `None` if they cannot be opened.
pub fn reopen<D: Disk + Drop>(
    alloc: Global,
    tables: Tables<FileStore<D>>,
    admin: Person,
    options: Options,
) -> Option<Tables<FileStore<D>>>
    ensures fresh { IfSome result (λ again. (again.0.1 ≡ admin) × (again.1 ≡ 0)) }
    ensures kept { (m : Content) → tables.0.1 ≡ m.admin → Represents (file_state tables.0.0) m
        → m.admin ≡ admin
        → IfSome result (λ again. (again.0.1 ≡ m.admin) × Represents (file_state again.0.0) m) }
{
    let conn = reopen_files(alloc, tables.close(), options)?;
    open_again(alloc, conn, admin)
}
