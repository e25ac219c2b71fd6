//! A session over an office of its own.

use plant_books::Plain;
use plant_books_cache::{Cache, CachedBooks};
use plant_office::{Books, Office};
use plant_store::{StoreFault, Tables, Unopened};
use plant_tests_examples::{Exchanges, Failure};
use plant_types::Person;
use plant_wire::{End, FromRead, ToWrite, session};
use sqlite::{Connection, MemStore};
use std::alloc::Global;

/// The administrator of every office here.
pub fn root(alloc: Global) -> Result<Person, Failure> {
    Person::read(alloc, b"root")?.ok_or(Failure::Notation)
}

/// Empty lists.
pub fn lists(alloc: Global) -> Result<Plain, Failure> {
    Ok(Plain::new(alloc, root(alloc)?))
}

/// The failure of a trial whose tables could not be made.
fn failure_of(fault: StoreFault) -> Failure {
    match fault {
        StoreFault::NotThisStore => Failure::Store,
        StoreFault::Fault(fault) => Failure::from(fault),
    }
}

/// Empty tables in memory.
pub fn tables(alloc: Global) -> Result<Tables<MemStore>, Failure> {
    let connection = Connection::open_in_memory(alloc)?;
    match Tables::create(alloc, connection, root(alloc)?) {
        Ok(tables) => Ok(tables),
        Err(Unopened { fault, .. }) => Err(failure_of(fault)),
    }
}

/// These books with at most this many cached rows.
pub fn cached<B: Books + Drop>(
    alloc: Global,
    books: B,
    limit: u128,
) -> Result<CachedBooks<B>, Failure> {
    let copies = Cache::new(alloc, limit)?;
    Ok(CachedBooks::new(alloc, copies, books))
}

/// What a session answers to these requests, how it ends, and the books as it leaves them.
pub fn replays_on<B: Books + Drop>(alloc: Global, books: B, requests: &[u8]) -> (Vec<u8>, End, B) {
    let mut office = Office::new(alloc, books);
    let mut answers = Vec::new(alloc);
    let mut inlet = FromRead::new(requests);
    let mut outlet = ToWrite::new(&mut answers);
    let end = session(alloc, &mut inlet, &mut outlet, &mut office);
    drop(outlet);
    (answers, end, office.into_books())
}

/// Bytes as a text, to be printed.
pub fn text(bytes: &[u8]) -> &str {
    str::from_utf8(bytes).unwrap_or("no text")
}

/// A copy of a text.
fn copy(alloc: Global, bytes: &[u8]) -> Result<String, Failure> {
    let mut out = String::new(alloc);
    out.push_str(text(bytes))?;
    Ok(out)
}

/// The answer is the expected one.
pub fn check_answers(alloc: Global, found: &[u8], wanted: &[u8]) -> Result<(), Failure> {
    if found == wanted {
        return Ok(());
    }
    let (found, wanted) = (copy(alloc, found)?, copy(alloc, wanted)?);
    Err(Failure::Answers { found, wanted })
}

/// The session ended with its input.
fn check_end(end: End) -> Result<(), Failure> {
    match end {
        End::Closed => Ok(()),
        End::Fault => Err(Failure::Memory),
        _ => Err(Failure::Ended),
    }
}

/// The books after these requests, which must be answered so.
pub fn after<B: Books + Drop>(
    alloc: Global,
    books: B,
    requests: &[u8],
    wanted: &[u8],
) -> Result<B, Failure> {
    let (answers, end, books) = replays_on(alloc, books, requests);
    check_answers(alloc, &answers, wanted)?;
    check_end(end)?;
    Ok(books)
}

/// The requests are answered as expected, and the session ends with its input.
pub fn check_session<B: Books + Drop>(
    alloc: Global,
    books: B,
    wanted: &Exchanges,
) -> Result<(), Failure> {
    let (requests, answers) = (wanted.requests.as_bytes(), wanted.answers.as_bytes());
    drop(after(alloc, books, requests, answers)?);
    Ok(())
}
