//! A disk on which a sync fails: from then on each call is answered by a fault of the store.

ghost use Rattle.std.specs.Prelude.{◌≡◌, ◌+◌, ◌&&◌, not};
ghost use Rattle.plant_store_statements.specs.Reading.{HasNoTransaction};

use plant_model::{Answer, Call};
use plant_office::{Books, Office};
use plant_store::Tables;
use plant_store_files::{PageSize, create_over, new_page};
use plant_tests_examples::{BASE, BEGIN, Exchanges, LOOKED_AT, Mark, SHELVED, between};
use plant_tests_sites::{Calls, bytes_of, cached, calls_of, root, served, text};
use plant_types::Fault;
use plant_types::limits::MAX_CACHED_ROWS;
use sqlite::{Alter, Connection, FileStore, Files};
use sqlite_disk::{Disk, Memory, Tally};
use std::io;
use std::process::Abort;

/// A disk on which this many syncs succeed. The next one fails.
#[derive(Drop)]
struct FailingDisk<D: Disk> {
    inner: D,
    syncs_left: u64,
    refused: u64,
    has_failed: bool,
}

impl<D: Disk> Disk for FailingDisk<D> {
    ghost seen = { λ f. D.Disk.seen f.inner };

    ghost may_leave = { λ f. D.Disk.may_leave f.inner };

    ghost is_usable = { λ f. D.Disk.is_usable f.inner && not f.has_failed };

    ghost faults = { λ f. D.Disk.faults f.inner + f.refused };

    ghost tally_of = { λ f. D.Disk.tally_of f.inner };

    ghost is_rotten = { λ f. D.Disk.is_rotten f.inner };

    ghost key_of = { λ f. D.Disk.key_of f.inner };

    ghost is_clean = { λ f. D.Disk.is_clean f.inner };

    ghost is_fair = { λ f. D.Disk.is_fair f.inner };

    ghost fair_if_clean = { λ f. D.Disk.fair_if_clean f.inner };

    ghost seen_may_stay = { λ f. D.Disk.seen_may_stay f.inner };

    ghost is_mixing = { λ f. D.Disk.is_mixing f.inner };

    fn mixes(&self) -> bool {
        self.inner.mixes()
    }

    fn key(&self) -> u64 {
        self.inner.key()
    }

    fn tally(&self) -> Tally {
        self.inner.tally()
    }

    fn may_be_used(&self) -> bool {
        self.inner.may_be_used() && !self.has_failed
    }

    fn len(&mut self) -> io::Result<usize> {
        self.inner.len()
    }

    fn read_at(&mut self, at: usize, buf: &mut [u8]) -> io::Result<()> {
        self.inner.read_at(at, buf)
    }

    fn read_checked(&mut self, key: u64, want: u64, at: usize, buf: &mut [u8]) -> io::Result<()> {
        self.inner.read_checked(key, want, at, buf)
    }

    fn write_at(&mut self, at: usize, bytes: &[u8]) -> io::Result<()> {
        self.inner.write_at(at, bytes)
    }

    fn set_len(&mut self, len: usize) -> io::Result<()> {
        self.inner.set_len(len)
    }

    fn sync(&mut self) -> io::Result<()> {
        if self.syncs_left == 0 {
            self.refused = self.refused.saturating_add(1);
            self.has_failed = true;
            return Err(io::Error::other("no sync"));
        }
        self.syncs_left -= 1;
        self.inner.sync()
    }
}

/// Memory as such a disk.
fn failing(rt: &(impl Abort + AllocGlobal), syncs: u64) -> FailingDisk<Memory> {
    FailingDisk {
        inner: Memory::new(rt.alloc()),
        syncs_left: syncs,
        refused: 0,
        has_failed: false,
    }
}

/// Whether the call is answered by a fault of the store. Any other answer is the one that is expected between these
/// marks.
fn is_faulty<B: Books>(
    rt: &(impl Abort + AllocGlobal),
    office: &mut Office<B>,
    wanted: &Exchanges,
    last: Mark,
    next: Mark,
    call: &Call,
) -> bool {
    let (_, due) = between(wanted, last, next).expect(rt, "exchanges");
    let answer = served(office, call);
    let is_fault = matches!(answer, Answer::Fault(Fault::Store));
    let bytes = bytes_of(rt.alloc(), &answer).expect(rt, "memory");
    drop(answer);
    assert!(rt;
        is_fault || bytes.as_slice() == due,
        "{} in place of {}",
        text(&bytes),
        text(due)
    );
    is_fault
}

/// How many of the calls are answered before the first fault. Each call after that one is answered by a fault too.
fn answered<B: Books>(
    rt: &(impl Abort + AllocGlobal),
    office: &mut Office<B>,
    wanted: &Exchanges,
    calls: &[Call],
) -> usize {
    let mut count = 0usize;
    let mut has_failed = false;
    let mut last = BEGIN;
    for (mark, call) in wanted.marks.iter().zip(calls) {
        let is_faulty = is_faulty(rt, office, wanted, last, *mark, call);
        assert!(rt; is_faulty || !has_failed, "answered after a fault");
        has_failed = is_faulty;
        if !is_faulty {
            count = count.saturating_add(1);
        }
        last = *mark;
    }
    count
}

/// The same for an office over these books with cached rows, if there are books.
fn answered_from_cache<B: Books + Drop>(
    rt: &(impl Abort + AllocGlobal),
    below: Option<B>,
    wanted: &Exchanges,
    calls: &[Call],
) -> Option<usize> {
    let below = below?;
    let books = cached(rt.alloc(), below, MAX_CACHED_ROWS).expect(rt, "books with a cache");
    let mut office = Office::new(rt.alloc(), books);
    let count = answered(rt, &mut office, wanted, calls);
    drop(office.into_books());
    Some(count)
}

/// New books in this database, if they can be made. Generic over the store: the prover is slow on the concrete one.
fn made_in<S: Alter + Drop>(
    rt: &(impl Abort + AllocGlobal),
    conn: Connection<S>,
) -> Option<Tables<S>>
    requires { HasNoTransaction conn }
{
    let root = root(rt.alloc()).expect(rt, "a person");
    Tables::create(rt.alloc(), conn, root).ok()
}

/// New books on these disks, with pages of this size, if enough syncs succeed to make them.
fn made_on<D: Disk + Drop>(
    rt: &(impl Abort + AllocGlobal),
    size: PageSize,
    log: D,
    db: D,
) -> Option<Tables<FileStore<D>>> {
    if !log.may_be_used() || !db.may_be_used() {
        rt.panic("no disk")
    }
    match create_over(rt.alloc(), Files { log, db }, size, 7, true) {
        Ok(conn) => made_in(rt, conn),
        Err(_) => None,
    }
}

/// The same for an office on these disks, or `None` if too few syncs succeed to make its books.
fn answered_on<D: Disk + Drop>(
    rt: &(impl Abort + AllocGlobal),
    size: PageSize,
    log: D,
    db: D,
    wanted: &Exchanges,
    calls: &[Call],
) -> Option<usize> {
    answered_from_cache(rt, made_on(rt, size, log, db), wanted, calls)
}

/// How many offices answer a fault, if each sync of the log fails in turn until all calls are answered. Making the
/// books takes nine.
fn faults(
    rt: &(impl Abort + AllocGlobal),
    size: PageSize,
    wanted: &Exchanges,
    calls: &[Call],
) -> u32 {
    let mut faults = 0u32;
    for syncs in 9..1000u64 {
        let (log, db) = (failing(rt, syncs), failing(rt, u64::MAX));
        let count = answered_on(rt, size, log, db, wanted, calls).expect(
            rt,
            "books after nine syncs",
        );
        if count == calls.len() {
            return faults;
        }
        faults = faults.saturating_add(1);
    }
    rt.panic("no end")
}

/// On pages of this size, no call is answered after a sync that failed.
fn answers_nothing_on_pages(rt: &(impl Abort + AllocGlobal), size: PageSize) {
    let wanted = Exchanges::of(rt.alloc(), &[BASE, SHELVED, LOOKED_AT]).expect(rt, "exchanges");
    let Calls { calls, answers: _ } = calls_of(rt.alloc(), &wanted).expect(rt, "calls");
    assert_eq!(rt; calls.len(), wanted.marks.len());
    let (log, db) = (failing(rt, 8), failing(rt, u64::MAX));
    assert_eq!(rt; answered_on(rt, size, log, db, &wanted, &calls), None);
    let faults = faults(rt, size, &wanted, &calls);
    assert!(rt; faults > 8, "{faults}");
}

#[test]
fn answers_nothing_after_a_failed_sync(rt: HostRuntime) {
    answers_nothing_on_pages(&rt, new_page());
    answers_nothing_on_pages(&rt, PageSize::new(4096).expect(&rt, "a size"));
}
