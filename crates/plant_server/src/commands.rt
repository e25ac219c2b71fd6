//! The program's command in full: reads the command line, opens the books, serves or migrates, closes the files, and
//! returns the exit status.

ghost use Rattle.std.specs.Prelude.{◌≡◌, [], Result, map, true, false, string_bytes};
ghost use Rattle.sqlite_std_file.specs.File.{IsFresh};
ghost use Rattle.sqlite_store.specs.FileStore.{view};
ghost use Rattle.sqlite_trees.specs.View.{IsClean};
ghost use Rattle.sqlite_wal.specs.Files.{image_at};
ghost use Rattle.plant_server_options.specs.{CommandLines.{IsReadAs}, declared.words.{CommandLine.{CommandLine}, CommandLineError.{CommandLineError}}};
ghost use Rattle.plant_books.specs.Contents.{no_units};
ghost use Rattle.plant_office.specs.Enduring.{books_state};
ghost use Rattle.plant_server.specs.{Crashes.{IsWhole}, OverFiles.{IsClosing, closing_text, place_of}, Parts.{BooksServed, IsServedAnew}};
ghost use Rattle.plant_server.specs.Promise.{IsEndOfTask, IsEndInMemory, IsEndOnFile, IsKept, IsKeptOnSome, IsMigration, IsEndOfLine};
ghost use Rattle.sqlite_disk.specs.declared.Unknown.{Unknown as AnyStart};
ghost use Rattle.plant_server.specs.{Nets.{nets_of}, Services.{HasServed}};
ghost use Rattle.plant_server.specs.Streams.{Bytes, IsPrintedOrCut, lines_of, streams_of, within};
ghost use Rattle.plant_store_statements.specs.Keeping.{Represents};
ghost use Rattle.plant_types.specs.Names.{Name};
ghost use Rattle.sqlite.specs.Files.{file_state};
ghost use Rattle.plant_wire.specs.Over.{RanOn};
ghost use Rattle.plant_server.specs.Statuses as statuses;

use crate::books::in_memory;
use crate::files::in_file;
use crate::migrations::migrate_file;
use crate::nets::{HostNet, Net};
use crate::places::Located;
use crate::remains::{Left, close_left, leave};
use crate::reports::{report_command_line_error, report_migration, report_unopened};
use crate::services::serve_office;
use crate::statuses::ExitStatus;
use plant_books_cache::{Cache, CachedBooks};
use plant_office::{Books, Office};
use plant_server_log::say;
use plant_server_machine::Machine;
use plant_server_options::{CommandLine, Service, Task, command_line_of};
use plant_store::Tables;
use plant_types::Person;
use plant_types::limits::MAX_CACHED_ROWS;
use plant_wire::{Inlet, Outlet};
use sqlite::{Alter, File, FileFrom, FileStore, Start, Unknown};
use sqlite_disk::Disk;
use std::alloc::Global;
use std::convert::AsStr;
use std::io::Write;
use std::str::FromStr;

/// Serves the port, or the streams if no service is given, over these books, and returns the status and the books after
/// it.
fn serve_over<B: Books + Drop, P: Net, I: Inlet, O: Outlet + Write, E: Write>(
    alloc: Global,
    net: &mut P,
    books: B,
    service: Option<Service>,
    inlet: &mut I,
    outlet: &mut O,
    errors: &mut E,
) -> (ExitStatus, B)
    ensures { HasServed (RanOn B.Books books result.1) (¬ B.is_honest result.1) service
        (streams_of (nets_of (P.state net.old) (P.state net.new)) I.Inlet O.Outlet O.Write E.Write
        (inlet.old, outlet.old, errors.old) (inlet.new, outlet.new, errors.new))
        result.0 }
{
    let mut office = Office::new(alloc, books);
    let status = serve_office(alloc, net, &mut office, service, inlet, outlet, errors);
    let left = office.into_books();
    (status, left)
}

/// Tables, and the empty cache that is put over them.
#[derive(Drop)]
struct Uncached<S: Alter> {
    books: Tables<S>,
    cache: Cache,
}

/// The same over tables, with cached rows.
fn serve_cached<S: Alter + Drop, P: Net, I: Inlet, O: Outlet + Write, E: Write>(
    alloc: Global,
    net: &mut P,
    tables: Uncached<S>,
    service: Option<Service>,
    inlet: &mut I,
    outlet: &mut O,
    errors: &mut E,
) -> (ExitStatus, Tables<S>)
    requires { tables.cache.units.entries ≡ [] }
    ensures { HasServed (RanOn ⟦<Tables<S> as Books>⟧ tables.books result.1)
        (¬ ⟦<Tables<S> as Books>⟧.is_honest result.1) service
        (streams_of (nets_of (P.state net.old) (P.state net.new)) I.Inlet O.Outlet O.Write E.Write
        (inlet.old, outlet.old, errors.old) (inlet.new, outlet.new, errors.new))
        result.0 }
{
    let Uncached { books, cache } = tables;
    let cached_books = CachedBooks::new(alloc, cache, books);
    let (status, left) = serve_over(alloc, net, cached_books, service, inlet, outlet, errors);
    let below = left.into_books();
    (status, below)
}

/// Serves the port, or the streams if no service is given, over these tables, with cached rows if there is memory for
/// the cache; if there is not, standard error gets a line first. Returns the status and the tables after it.
fn serve_books<S: Alter + Drop, P: Net, I: Inlet, O: Outlet + Write, E: Write>(
    alloc: Global,
    net: &mut P,
    books: Tables<S>,
    service: Option<Service>,
    inlet: &mut I,
    outlet: &mut O,
    errors: &mut E,
) -> (ExitStatus, Tables<S>)
    ensures { let s = streams_of (nets_of (P.state net.old) (P.state net.new)) I.Inlet O.Outlet O.Write E.Write
        (inlet.old, outlet.old, errors.old) (inlet.new, outlet.new, errors.new) in
        (first : Bytes) × IsPrintedOrCut s.lines.reported first statuses.no_rows_text
        × HasServed (RanOn ⟦<Tables<S> as Books>⟧ books result.1) (¬ ⟦<Tables<S> as Books>⟧.is_honest result.1) service
        (within s first s.lines.reported_after) result.0 }
{
    match Cache::new(alloc, MAX_CACHED_ROWS) {
        Ok(cache) => {
            let tables = Uncached { books, cache };
            serve_cached(alloc, net, tables, service, inlet, outlet, errors)
        }
        Err(_) => {
            say(errors, b"memory: no rows at hand\n");
            serve_over(alloc, net, books, service, inlet, outlet, errors)
        }
    }
}

/// Serves the books of two files as `serve_books` does. Generic over the disk: the prover is slow on the concrete one.
/// New books and those of a file share this call of `serve_books`.
fn serve_files<D: Disk + Drop, P: Net, I: Inlet, O: Outlet + Write, E: Write>(
    alloc: Global,
    net: &mut P,
    books: Tables<FileStore<D>>,
    service: Option<Service>,
    inlet: &mut I,
    outlet: &mut O,
    errors: &mut E,
) -> (ExitStatus, Tables<FileStore<D>>)
    ensures { let s = streams_of (nets_of (P.state net.old) (P.state net.new)) I.Inlet O.Outlet O.Write E.Write
        (inlet.old, outlet.old, errors.old) (inlet.new, outlet.new, errors.new) in
        (first : Bytes) × IsPrintedOrCut s.lines.reported first statuses.no_rows_text
        × HasServed (RanOn ⟦<Tables<FileStore<D>> as Books>⟧ books result.1)
        (¬ ⟦<Tables<FileStore<D>> as Books>⟧.is_honest result.1) service
        (within s first s.lines.reported_after) result.0 }
{
    serve_books(alloc, net, books, service, inlet, outlet, errors)
}

/// Serves new books over any two files, and returns the status and the store as serving left it.
fn serve_new<D: Disk + Drop, P: Net, I: Inlet, O: Outlet + Write, E: Write>(
    alloc: Global,
    net: &mut P,
    books: Tables<FileStore<D>>,
    service: Option<Service>,
    inlet: &mut I,
    outlet: &mut O,
    errors: &mut E,
) -> (ExitStatus, FileStore<D>)
    ensures { (admin : Name) → books.0.1 ≡ admin → Represents (file_state books.0.0) (no_units admin)
        → IsServedAnew admin service
        (streams_of (nets_of (P.state net.old) (P.state net.new)) I.Inlet O.Outlet O.Write E.Write
        (inlet.old, outlet.old, errors.old) (inlet.new, outlet.new, errors.new))
        result.0 result.1 }
{
    let (status, served) = serve_files(alloc, net, books, service, inlet, outlet, errors);
    (status, leave(served))
}

/// Serves new books in memory, and returns the status and the store as serving left it, if books could be made.
fn serve_memory<D: Disk, N: Disk, F, P: Net, I: Inlet, O: Outlet + Write, E: Write>(
    alloc: Global,
    net: &mut P,
    admin: Person,
    service: Option<Service>,
    inlet: &mut I,
    outlet: &mut O,
    errors: &mut E,
    start: F,
) -> (ExitStatus, Left<D, N, F>)
    ensures { IsEndInMemory admin service
        (streams_of (nets_of (P.state net.old) (P.state net.new)) I.Inlet O.Outlet O.Write E.Write
        (inlet.old, outlet.old, errors.old) (inlet.new, outlet.new, errors.new))
        result.0 result.1 }
{
    match in_memory(alloc, admin) {
        Ok(books) => {
            let (status, store) = serve_new(alloc, net, books, service, inlet, outlet, errors);
            (status, Left::InMemory(start, store))
        }
        Err(fault) => (report_unopened(errors, &fault), Left::Nothing(start)),
    }
}

/// Closes the files after serving, and reports on standard error if the log could not be copied and stays beside the
/// file. After a copy, the file alone holds what a crash could leave before.
fn close_and_say<D: Disk + Drop, N: Disk + Drop, F, E: Write>(
    store: FileStore<D>,
    errors: &mut E,
) -> Left<D, N, F>
    requires { IsClean (view store) → IsWhole store }
    ensures closed { IsClosing store result }
    ensures said { IsPrintedOrCut (E.contents errors.old) (E.contents errors.new) (closing_text result) }
{
    match close_left(store) {
        Ok(files) => Left::Closed(files),
        Err((_, store)) => {
            say(errors, b"store: log not copied\n");
            Left::Unclosed(store)
        }
    }
}

/// Serves the books of files, closes these, and returns the status and what is left of the files. If the service ended
/// because a failure had shut the store, the store is indeed shut.
fn serve_kept<D: Disk + Drop, N: Disk + Drop, F, P: Net, I: Inlet, O: Outlet + Write, E: Write>(
    alloc: Global,
    net: &mut P,
    books: Tables<FileStore<D>>,
    service: Option<Service>,
    inlet: &mut I,
    outlet: &mut O,
    errors: &mut E,
) -> (ExitStatus, Left<D, N, F>)
    ensures { (admin : Name) → BooksServed (books_state ⟦<Tables<FileStore<D>> as Books>⟧ books) admin service
        (streams_of (nets_of (P.state net.old) (P.state net.new)) I.Inlet O.Outlet O.Write E.Write
        (inlet.old, outlet.old, errors.old) (inlet.new, outlet.new, errors.new))
        result.0 result.1 }
{
    let (status, served) = serve_files(alloc, net, books, service, inlet, outlet, errors);
    let left = close_and_say(leave(served), errors);
    (status, left)
}

/// An office to be served over a file.
#[derive(Drop)]
pub struct FileOffice<'a> {
    /// The file's path.
    pub path: &'a str,
    /// The office's administrator.
    pub admin: Person,
    /// How a port is served; without it, the streams are.
    pub service: Option<Service>,
}

/// Serves the books of a file, and returns the status and what is left of the file. If the file held the rows of a
/// world, and the disk has returned what was written, then whatever a crash now leaves of it is books: those after all
/// confirmed calls, or after these and one that was answered by a fault. The same is true at each moment of the
/// serving, read as the end of the serving over a disk that fails from then on. If no books are opened, no port is
/// listened on, and the file is as it was.
pub fn serve_file<F: Start + Located, P: Net, I: Inlet, O: Outlet + Write, E: Write>(
    machine: &Machine<'_>,
    net: &mut P,
    office: FileOffice<'_>,
    inlet: &mut I,
    outlet: &mut O,
    errors: &mut E,
    start: F,
) -> (ExitStatus, Left<FileFrom<F>, File, F>)
    ensures { IsEndOnFile
        (place_of F.Located.path (image_at F.Start) (λ files. IsFresh true files.log × IsFresh false files.db))
        office.entry.path.now office.entry.admin office.entry.service
        (streams_of (nets_of (P.state net.old) (P.state net.new)) I.Inlet O.Outlet O.Write E.Write
        (inlet.old, outlet.old, errors.old) (inlet.new, outlet.new, errors.new))
        result.0 result.1 }
{
    let FileOffice {
        path,
        admin,
        service,
    } = office;
    match in_file(machine, path, admin, start) {
        Ok(books) => serve_kept(machine.alloc(), net, books, service, inlet, outlet, errors),
        Err((fault, left)) => (report_unopened(errors, &fault), left),
    }
}

/// An older file, and where its rows are to go.
#[derive(Drop)]
struct Migration {
    admin: Person,
    old: String,
    new: String,
}

/// Migrates an older file to a new one, and returns the status and what is left of both.
fn migrate_and_say<F: Start + Located, W: Write, E: Write>(
    machine: &Machine<'_>,
    migration: Migration,
    output: &mut W,
    errors: &mut E,
    start: F,
) -> (ExitStatus, Left<FileFrom<F>, File, F>)
    ensures { IsMigration ⟦<File as Disk>⟧
        (place_of F.Located.path (image_at F.Start) (λ files. IsFresh true files.log × IsFresh false files.db))
        (string_bytes migration.old) migration.admin
        (lines_of W.Write E.Write (output.old, errors.old) (output.new, errors.new))
        result.0 result.1 }
{
    let Migration { admin, old, new } = migration;
    let (old, files) = migrate_file(machine, old.as_str(), new.as_str(), admin, start);
    let status = report_migration(output, errors, &files);
    (status, Left::Migrated(old, files))
}

/// Does what the command line asks for, and returns the status and what is left of the files.
fn run<F: Start + Located, P: Net, I: Inlet, O: Outlet + Write, E: Write>(
    machine: &Machine<'_>,
    net: &mut P,
    line: CommandLine,
    inlet: &mut I,
    outlet: &mut O,
    errors: &mut E,
    start: F,
) -> (ExitStatus, Left<FileFrom<F>, File, F>)
    ensures { IsEndOfTask ⟦<File as Disk>⟧
        (place_of F.Located.path (image_at F.Start) (λ files. IsFresh true files.log × IsFresh false files.db))
        line.admin line.task
        (streams_of (nets_of (P.state net.old) (P.state net.new)) I.Inlet O.Outlet O.Write E.Write
        (inlet.old, outlet.old, errors.old) (inlet.new, outlet.new, errors.new))
        result.0 result.1 }
{
    let CommandLine { admin, task } = line;
    match task {
        Task::Serve { db, service } => match db {
            None => serve_memory(
                machine.alloc(),
                net,
                admin,
                service,
                inlet,
                outlet,
                errors,
                start,
            ),
            Some(path) => {
                let office = FileOffice {
                    path: path.as_str(),
                    admin,
                    service,
                };
                serve_file(machine, net, office, inlet, outlet, errors, start)
            }
        },
        Task::Migrate { old, new } => {
            let migration = Migration { admin, old, new };
            migrate_and_say(machine, migration, outlet, errors, start)
        }
    }
}

/// Reads the command line and does what it asks for, or reports why it is refused. Returns the status and what is left
/// of the files.
fn obey<S: AsStr, F: Start + Located, P: Net, I: Inlet, O: Outlet + Write, E: Write>(
    machine: &Machine<'_>,
    net: &mut P,
    words: &[S],
    inlet: &mut I,
    outlet: &mut O,
    errors: &mut E,
    start: F,
) -> (ExitStatus, Left<FileFrom<F>, File, F>)
    ensures { (line : Result CommandLine CommandLineError)
        × IsReadAs ⟦<u16 as FromStr>⟧.from_str_gives ⟦<u64 as FromStr>⟧.from_str_gives
        (map S.text words.now) line
        × IsEndOfLine ⟦<File as Disk>⟧
        (place_of F.Located.path (image_at F.Start) (λ files. IsFresh true files.log × IsFresh false files.db))
        line
        (streams_of (nets_of (P.state net.old) (P.state net.new)) I.Inlet O.Outlet O.Write E.Write
        (inlet.old, outlet.old, errors.old) (inlet.new, outlet.new, errors.new))
        result.0 result.1 }
{
    match command_line_of(machine.alloc(), words) {
        Ok(line) => run(machine, net, line, inlet, outlet, errors, start),
        Err(error) => (
            report_command_line_error(outlet, errors, &error),
            Left::Nothing(start),
        ),
    }
}

/// Does what the command line asks for over a net and the files of a start, and returns the exit status and what is left
/// of the files. `command` says which status stands for what.
///
/// `Promise` states in full what is answered, and what the files hold then and after a crash at any moment. For that,
/// `start` stands for what the files at a path hold as they are opened, `net` shows what comes and goes over its
/// connections, and what is left of the files is handed back.
pub fn command_over<S: AsStr, F: Start + Located, P: Net, I: Inlet, O: Outlet + Write, E: Write>(
    machine: &Machine<'_>,
    net: &mut P,
    words: &[S],
    inlet: &mut I,
    outlet: &mut O,
    errors: &mut E,
    start: F,
) -> (u8, Left<FileFrom<F>, File, F>)
    ensures { IsKept ⟦<u16 as FromStr>⟧.from_str_gives ⟦<u64 as FromStr>⟧.from_str_gives
        ⟦<File as Disk>⟧
        (place_of F.Located.path (image_at F.Start) (λ files. IsFresh true files.log × IsFresh false files.db))
        (map S.text words.now)
        (streams_of (nets_of (P.state net.old) (P.state net.new)) I.Inlet O.Outlet O.Write E.Write
        (inlet.old, outlet.old, errors.old) (inlet.new, outlet.new, errors.new))
        result.0 result.1 }
{
    let (status, left) = obey(machine, net, words, inlet, outlet, errors, start);
    (status.code(), left)
}

/// Does what the command line asks for, the program's own name first, and returns the exit status: 0 if the input ended
/// and every request was answered, if all connections of the port were served, if the older file was migrated, or for
/// help; 2 if the command line is wrong; 3 if the file keeps no books of this administrator or can't be opened, or
/// can't be migrated, or memory ran out as books were opened, or a failure shut the store of a service that was to
/// serve all connections that come; 4, 5, 6 or 7 if the session over the streams ended by broken input, a failed read,
/// a failed write, or because memory ran out, and 7 also if memory ran out as the command line was read or before any
/// of many connections was accepted; 8 if listening on the port or accepting a connection failed.
///
/// It is `command_over` this machine's net and files, of which no code can show anything: the clause is the same, about
/// some net and some files.
pub fn command<S: AsStr, I: Inlet, O: Outlet + Write, E: Write>(
    rt: &HostRuntime,
    words: &[S],
    inlet: &mut I,
    outlet: &mut O,
    errors: &mut E,
) -> u8
    ensures { IsKeptOnSome AnyStart ⟦<FileFrom<Unknown> as Disk>⟧ ⟦<File as Disk>⟧
        ⟦<u16 as FromStr>⟧.from_str_gives ⟦<u64 as FromStr>⟧.from_str_gives
        (place_of ⟦<Unknown as Located>⟧.path (image_at ⟦<Unknown as Start>⟧) (λ files. IsFresh true files.log × IsFresh false files.db))
        (map S.text words.now)
        (λ nets. streams_of nets I.Inlet O.Outlet O.Write E.Write
        (inlet.old, outlet.old, errors.old) (inlet.new, outlet.new, errors.new))
        result }
{
    let machine = Machine::new(rt);
    let mut net = HostNet::new(machine);
    let (status, _) = command_over(&machine, &mut net, words, inlet, outlet, errors, Unknown);
    status
}
