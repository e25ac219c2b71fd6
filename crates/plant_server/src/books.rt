//! Makes new books in memory, for a service that is not given a file: in the store that files have too, over two files in
//! memory.

ghost use Rattle.std.specs.Prelude.{◌≡◌, ◌≢◌, IsTrue, IfErr, IfOk};
ghost use Rattle.sqlite.specs.Files.{file_state};
ghost use Rattle.plant_books.specs.Contents.{no_units};
ghost use Rattle.plant_store_statements.specs.{Keeping.{Represents}, Reading.{HasNoTransaction}};

use crate::files::create_books;
use plant_store::{StoreFault, Tables};
use plant_store_files::{create_over, new_page};
use plant_store_memory::MemoryFile;
use plant_types::{Fault, Person};
use sqlite::{Connection, FileStore};
use sqlite_disk::{Disk, Files};
use std::alloc::Global;

/// Makes a new database in two empty files that end with the program. Their pages need no checksums, and the log's
/// number need not be random, since nothing but this program ever reads them.
fn open_over<D: Disk + Drop>(
    alloc: Global,
    files: Files<D>,
) -> Result<Connection<FileStore<D>>, StoreFault>
    requires log { IsTrue (D.Disk.is_usable files.log) }
    requires db { IsTrue (D.Disk.is_usable files.db) }
    ensures opened { IfOk result HasNoTransaction }
    ensures named { IfErr result (λ e. e ≢ StoreFault.NotThisStore) }
{
    match create_over(alloc, files, new_page(), 0, false) {
        Ok(conn) => Ok(conn),
        Err(_) => Err(StoreFault::Fault(Fault::Memory)),
    }
}

/// New books in memory.
pub fn in_memory(alloc: Global, admin: Person) -> Result<Tables<FileStore<MemoryFile>>, StoreFault>
    ensures own { IfOk result (λ books. (books.0.1 ≡ admin) × (books.1 ≡ 0)) }
    ensures new { IfOk result (λ books. Represents (file_state books.0.0) (no_units admin)) }
    ensures named { IfErr result (λ e. e ≢ StoreFault.NotThisStore) }
{
    let files = Files {
        log: MemoryFile::new(alloc),
        db: MemoryFile::new(alloc),
    };
    match open_over(alloc, files) {
        Ok(conn) => match create_books(alloc, conn, admin) {
            Ok(mut books) => {
                books.set_in_memory();
                Ok(books)
            }
            // Files in memory fail only if they cannot grow.
            Err(StoreFault::Fault(_)) => Err(StoreFault::Fault(Fault::Memory)),
            Err(fault) => Err(fault),
        },
        Err(fault) => Err(fault),
    }
}
