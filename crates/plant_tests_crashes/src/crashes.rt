//! Disks that stop at some call, as at a power cut: what the next start finds.

ghost use Rattle.plant_store_statements.specs.Reading.{HasNoTransaction};

use plant_office::Books;
use plant_store::Tables;
use plant_store_files::{PageSize, create_over, new_page, options_of};
use plant_tests_examples::{BASE, BEGIN, Exchanges, LOOKED_AT, SHELVED, between};
use plant_tests_sites::{after, cached, hold_alike, lists, replays_on, root, text};
use plant_types::limits::MAX_CACHED_ROWS;
use sqlite::{Alter, Connection, FileStore, Files};
use sqlite_disk::{Crash, Disk, Fuse, Memory};
use std::process::Abort;

/// A call of each other kind that changes something, and refusals between them.
const OTHERS: &str = r#"ann 11:00:00 POST /units/U1/imports
> seq,moment,tag,event
> 1,2026-03-01T09:00:00Z,PT-101,ACT
> 2,2026-03-01T09:30:00Z,PT-101,RTN
200 {"new":2,"repeated":0}

ann 11:00:00 POST /units/U1/alarms/LT-2/one-shot-shelve {"words":"valve"}
200 {"done":true}

ann 11:00:00 POST /units/U1/alarms/LT-2/unshelve
200 {"done":true}

moe 11:00:00 POST /units/U1/alarms/LT-2/remove-from-service {"words":"valve"}
200 {"done":true}

moe 11:00:00 POST /units/U1/alarms/LT-2/remove-from-service {"words":"valve"}
409 {"name":"AlreadyOutOfService","refused":12}

moe 11:00:00 POST /units/U1/alarms/LT-2/place-in-service
200 {"done":true}

eve 11:00:00 POST /units/U1/changes {"kind":"limit","base":0,"tag":"PT-101","max":60}
200 {"number":1}

eve 11:00:00 POST /units/U1/changes {"kind":"matrix","base":0,"bands":[600],"cells":[["P4","P4"],["P1","P2"]]}
200 {"number":2}

abe 11:00:00 POST /units/U1/changes/1/approve
200 {"done":true}

abe 11:00:00 POST /units/U1/changes/2/reject
200 {"done":true}

ste 11:00:00 POST /units/U1/grants {"person":"bob","role":"Viewer"}
200 {"done":true}"#;

/// The answer to a change that was made.
const DONE: &str = r#"{"done":true}"#;

/// Memory as a disk that stops after this many calls.
fn fused(rt: &(impl Abort + AllocGlobal), calls: u64) -> Fuse<Memory> {
    Fuse::new(Memory::new(rt.alloc()), calls)
}

/// New books in this database, or its store if they can't be made. Generic over the store, as the other functions here:
/// the prover is slow on the concrete one.
fn made_in<S: Alter + Drop>(
    rt: &(impl Abort + AllocGlobal),
    conn: Connection<S>,
) -> Result<Tables<S>, S>
    requires { HasNoTransaction conn }
{
    match Tables::create(rt.alloc(), conn, root(rt.alloc()).expect(rt, "a person")) {
        Ok(books) => Ok(books),
        Err(unopened) => Err(unopened.conn.into_store()),
    }
}

/// New books on these disks, with pages of this size, or what a crash leaves of the files if the disk stops before they
/// are made.
fn made_on<D: Crash + Drop>(
    rt: &(impl Abort + AllocGlobal),
    size: PageSize,
    log: D,
    db: D,
) -> Result<Tables<FileStore<D>>, Files<D>> {
    if !log.may_be_used() || !db.may_be_used() {
        rt.panic("no disk")
    }
    let conn = match create_over(rt.alloc(), Files { log, db }, size, 7, true) {
        Ok(conn) => conn,
        Err((_, left)) => return Err(left.into_files()),
    };
    match made_in(rt, conn) {
        Ok(books) => Ok(books),
        Err(store) => Err(store.close()),
    }
}

/// The books of this database, if it has books.
fn opened_in<S: Alter + Drop>(
    rt: &(impl Abort + AllocGlobal),
    conn: Connection<S>,
) -> Option<Tables<S>>
    requires { HasNoTransaction conn }
{
    let root = root(rt.alloc()).expect(rt, "a person");
    Tables::open(rt.alloc(), conn, root).ok()
}

/// The books that the next start finds after a power cut, if it finds any.
fn found_in<D: Crash + Drop>(
    rt: &(impl Abort + AllocGlobal),
    size: PageSize,
    mut files: Files<D>,
) -> Option<Tables<FileStore<D>>> {
    files.log.crash();
    files.db.crash();
    let Ok(conn) = Connection::open_files(rt.alloc(), files, options_of(7, size)) else {
        return None;
    };
    opened_in(rt, conn)
}

/// How many exchanges from the first on were answered as expected, by the bytes that were written. No change after them
/// was confirmed.
fn answered(rt: &(impl Abort + AllocGlobal), wanted: &Exchanges, written: &[u8]) -> usize {
    let mut rest = written;
    let mut count = 0usize;
    let mut last = BEGIN;
    for mark in &wanted.marks {
        let (_, due) = between(wanted, last, *mark).expect(rt, "exchanges");
        let Some(behind) = rest.strip_prefix(due) else {
            break;
        };
        rest = behind;
        count = count.saturating_add(1);
        last = *mark;
    }
    assert_eq!(rt; text(rest).split(DONE).count(), 1, "{}", text(rest));
    count
}

/// Whether the books hold what lists hold after this many of the exchanges.
fn hold_first(
    rt: &(impl Abort + AllocGlobal),
    found: &mut impl Books,
    wanted: &Exchanges,
    count: usize,
) -> bool {
    let mark = wanted
        .marks
        .get(count.wrapping_sub(1))
        .copied()
        .unwrap_or(BEGIN);
    let (requests, answers) = between(wanted, BEGIN, mark).expect(rt, "exchanges");
    let lists = lists(rt.alloc()).expect(rt, "lists");
    let mut lists = after(rt.alloc(), lists, requests, answers).expect(rt, "answers");
    hold_alike(found, &mut lists, &wanted.units).expect(rt, "rows")
}

/// One session over these books, with cached rows: how many exchanges were answered, and the books.
fn served<B: Books + Drop>(
    rt: &(impl Abort + AllocGlobal),
    wanted: &Exchanges,
    books: B,
) -> (usize, B) {
    let books = cached(rt.alloc(), books, MAX_CACHED_ROWS).expect(rt, "books with a cache");
    let (written, _, left) = replays_on(rt.alloc(), books, wanted.requests.as_bytes());
    (answered(rt, wanted, &written), left.into_books())
}

/// The same over tables: the store that is left.
fn served_from<S: Alter + Drop>(
    rt: &(impl Abort + AllocGlobal),
    wanted: &Exchanges,
    books: Tables<S>,
) -> (usize, S) {
    let (count, left) = served(rt, wanted, books);
    (count, left.close().into_store())
}

/// There are books, and they hold what was answered, or that and the call that was being served.
fn check_held<B: Books + Drop>(
    rt: &(impl Abort + AllocGlobal),
    wanted: &Exchanges,
    found: Option<B>,
    count: usize,
) {
    let mut found = found.expect(rt, "books after the cut");
    let is_kept = hold_first(rt, &mut found, wanted, count);
    let is_ahead = !is_kept && hold_first(rt, &mut found, wanted, count.saturating_add(1));
    assert!(rt; is_kept || is_ahead, "after {count} answers");
}

/// If there are books, they have no unit.
fn check_begun<B: Books + Drop>(
    rt: &(impl Abort + AllocGlobal),
    wanted: &Exchanges,
    found: Option<B>,
) {
    if let Some(mut found) = found {
        assert!(rt; hold_first(rt, &mut found, wanted, 0));
    }
}

/// A session over these books, and then a power cut: the next start finds what was answered, or that and the call that
/// was being served. Returns how many exchanges were answered.
fn serves_and_survives<D: Crash + Drop>(
    rt: &(impl Abort + AllocGlobal),
    wanted: &Exchanges,
    size: PageSize,
    books: Tables<FileStore<D>>,
) -> usize {
    let (count, left) = served_from(rt, wanted, books);
    check_held(rt, wanted, found_in(rt, size, left.close()), count);
    count
}

/// One session on these disks, and then a power cut. Returns how many exchanges were answered; nothing was lost if all
/// were. If the books were only begun, the next start finds none or those without a unit.
fn survives<D: Crash + Drop>(
    rt: &(impl Abort + AllocGlobal),
    wanted: &Exchanges,
    size: PageSize,
    log: D,
    db: D,
) -> usize {
    match made_on(rt, size, log, db) {
        Ok(books) => serves_and_survives(rt, wanted, size, books),
        Err(files) => {
            check_begun(rt, wanted, found_in(rt, size, files));
            0
        }
    }
}

/// At how many calls of the log's disk a session is cut off: the disk stops at each in turn, until all exchanges are
/// answered.
fn cut_at_the_log(rt: &(impl Abort + AllocGlobal), wanted: &Exchanges, size: PageSize) -> u64 {
    for calls in 0..10_000u64 {
        let count = survives(rt, wanted, size, fused(rt, calls), fused(rt, u64::MAX));
        if count == wanted.marks.len() {
            return calls;
        }
    }
    rt.panic("no end")
}

/// The same for the file's disk.
fn cut_at_the_file(rt: &(impl Abort + AllocGlobal), wanted: &Exchanges, size: PageSize) -> u64 {
    for calls in 0..10_000u64 {
        let count = survives(rt, wanted, size, fused(rt, u64::MAX), fused(rt, calls));
        if count == wanted.marks.len() {
            return calls;
        }
    }
    rt.panic("no end")
}

/// The size of a page of the files that the engine makes where it is left to itself.
fn older_page(rt: &impl Abort) -> PageSize {
    PageSize::new(4096).expect(rt, "a size")
}

#[test]
fn keeps_what_was_answered_where_the_log_stops(rt: HostRuntime) {
    let wanted = Exchanges::of(rt.alloc(), &[BASE, SHELVED, LOOKED_AT, OTHERS]);
    let calls = cut_at_the_log(&rt, &wanted.expect(&rt, "exchanges"), new_page());
    assert!(rt; calls > 100, "{calls}");
}

#[test]
fn keeps_what_was_answered_where_the_file_stops(rt: HostRuntime) {
    let wanted = Exchanges::of(rt.alloc(), &[BASE, SHELVED, LOOKED_AT, OTHERS]);
    let calls = cut_at_the_file(&rt, &wanted.expect(&rt, "exchanges"), new_page());
    assert!(rt; calls > 0, "{calls}");
}

#[test]
fn keeps_what_was_answered_where_an_older_log_stops(rt: HostRuntime) {
    let wanted = Exchanges::of(rt.alloc(), &[BASE, SHELVED, LOOKED_AT, OTHERS]);
    let calls = cut_at_the_log(&rt, &wanted.expect(&rt, "exchanges"), older_page(&rt));
    assert!(rt; calls > 100, "{calls}");
}

#[test]
fn keeps_what_was_answered_where_an_older_file_stops(rt: HostRuntime) {
    let wanted = Exchanges::of(rt.alloc(), &[BASE, SHELVED, LOOKED_AT, OTHERS]);
    let calls = cut_at_the_file(&rt, &wanted.expect(&rt, "exchanges"), older_page(&rt));
    assert!(rt; calls > 0, "{calls}");
}
