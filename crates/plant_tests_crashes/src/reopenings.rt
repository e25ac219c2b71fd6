//! An office over files that are closed and opened again.

ghost use Rattle.plant_store_statements.specs.Reading.{HasNoTransaction};

use plant_office::Books;
use plant_store::{Tables, reopen};
use plant_store_files::{PageSize, create_over};
use plant_tests_examples::{BASE, Exchanges, LOOKED_AT, SHELVED};
use plant_tests_sites::{after, cached, root};
use plant_types::limits::MAX_CACHED_ROWS;
use sqlite::{Alter, Connection, FileStore, Files, Options};
use sqlite_disk::{Disk, Memory};
use std::process::Abort;

/// The requests once the files are open again: the shelf still stands, and can be ended.
const GOES_ON: &str =
    r#"ann 10:30:00 POST /units/U1/alarms/PT-101/timed-shelve {"seconds":60,"words":"pump test"}
409 {"name":"ConditionAlreadyShelved","refused":10}

ann 10:30:00 POST /units/U1/alarms/PT-101/unshelve
200 {"done":true}

vic 10:30:00 GET /units/U1/alarms/PT-101
200 {"limit":3600,"limit_revision":0,"out_of_service":false,"shelf":"Unshelved","shelf_left":0,"state":"Normal","suppressed":false,"suppressed_or_shelved":false,"tag":"PT-101"}"#;

/// What is read of the alarm after that.
const UNSHELVED: &str = r#"vic 10:59:59 GET /units/U1/alarms/PT-101
200 {"limit":3600,"limit_revision":0,"out_of_service":false,"shelf":"Unshelved","shelf_left":0,"state":"Normal","suppressed":false,"suppressed_or_shelved":false,"tag":"PT-101"}"#;

/// The books after these exchanges, which are answered as expected.
fn after_all<B: Books + Drop>(
    rt: &(impl Abort + AllocGlobal),
    books: B,
    texts: &[&str],
    title: &str,
) -> B {
    let wanted = Exchanges::of(rt.alloc(), texts).expect(rt, "exchanges");
    let (requests, answers) = (wanted.requests.as_bytes(), wanted.answers.as_bytes());
    after(rt.alloc(), books, requests, answers).expect(rt, title)
}

/// The same with cached rows, none of them at first.
fn after_all_cached<B: Books + Drop>(
    rt: &(impl Abort + AllocGlobal),
    below: B,
    texts: &[&str],
    title: &str,
) -> B {
    let books = cached(rt.alloc(), below, MAX_CACHED_ROWS).expect(rt, "books with a cache");
    after_all(rt, books, texts, title).into_books()
}

/// The books of an office with the first shelf, kept in this database. Generic over the store: the prover is slow on
/// the concrete one.
fn shelved<S: Alter + Drop>(rt: &(impl Abort + AllocGlobal), conn: Connection<S>) -> Tables<S>
    requires { HasNoTransaction conn }
{
    let root = root(rt.alloc()).expect(rt, "a person");
    let books = Tables::create(rt.alloc(), conn, root)
        .ok()
        .expect(rt, "books");
    after_all_cached(rt, books, &[BASE, SHELVED, LOOKED_AT], "first")
}

/// The same books, closed and opened again.
fn reopened<D: Disk + Drop>(
    rt: &(impl Abort + AllocGlobal),
    books: Tables<FileStore<D>>,
) -> Tables<FileStore<D>> {
    let root = root(rt.alloc()).expect(rt, "a person");
    let again = reopen(rt.alloc(), books, root, Options::new(7));
    again.expect(rt, "books again")
}

/// The office goes on from the first shelf.
fn goes_on<B: Books + Drop>(rt: &(impl Abort + AllocGlobal), books: B) -> B {
    after_all_cached(rt, books, &[LOOKED_AT, GOES_ON], "again")
}

/// The first shelf has ended, with cached rows and without.
fn has_ended<B: Books + Drop>(rt: &(impl Abort + AllocGlobal), books: B) {
    let books = after_all_cached(rt, books, &[UNSHELVED], "once more");
    drop(after_all(rt, books, &[UNSHELVED], "without rows at hand"));
}

/// In these files the first shelf is found again, twice, and the office goes on from there.
fn finds_the_shelf_again<D: Disk + Drop>(
    rt: &(impl Abort + AllocGlobal),
    conn: Connection<FileStore<D>>,
)
    requires { HasNoTransaction conn }
{
    let books = goes_on(rt, reopened(rt, shelved(rt, conn)));
    has_ended(rt, reopened(rt, books));
}

/// The first shelf is found again in files with pages of this size.
fn finds_it_on_pages(rt: &(impl Abort + AllocGlobal), size: PageSize) {
    let files = Files {
        log: Memory::new(rt.alloc()),
        db: Memory::new(rt.alloc()),
    };
    let Ok(conn) = create_over(rt.alloc(), files, size, 7, true) else {
        rt.panic("no connection")
    };
    finds_the_shelf_again(rt, conn);
}

#[test]
fn finds_the_first_shelf_again(rt: HostRuntime) {
    for bytes in [512, 1024, 2048, 4096] {
        finds_it_on_pages(&rt, PageSize::new(bytes).expect(&rt, "a size"));
    }
}
