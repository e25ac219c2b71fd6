//! Calls that run out of memory and are made again. `scripts/refuse-each` runs a test here once for each of its
//! allocations, and refuses that one. "Ours" are the books under test; "theirs" are lists that have had every call
//! except the next one of ours.

use plant_books::Plain;
use plant_books_cache::CachedBooks;
use plant_model::{Answer, Call};
use plant_office::{Books, Office};
use plant_store::Tables;
use plant_tests_examples::{
    BASE, Exchanges, IMPORTED_TWICE, RECORDED, REVIEWED, STAFFED, THREE_ROWS,
};
use plant_tests_sites::{
    Calls, alike, all_alike, cached, calls_of, hold_alike, lists, run_all, served, tables,
};
use plant_types::limits::MAX_CACHED_ROWS;
use plant_types::{Fault, UnitCode};
use sqlite::MemStore;
use std::process::Abort;

/// Whether a call ran out of memory.
fn is_fault(answer: &Answer) -> bool {
    matches!(answer, Answer::Fault(Fault::Memory))
}

/// The answer to a call, and the books after it.
fn answer_over<B: Books + Drop>(
    rt: &(impl Abort + AllocGlobal),
    books: B,
    call: &Call,
) -> (Answer, B) {
    let mut office = Office::new(rt.alloc(), books);
    let answer = served(&mut office, call);
    (answer, office.into_books())
}

/// Their answer to a call, and their books after it. If memory runs out for it, the test ends.
fn their_answer(rt: &(impl Abort + AllocGlobal), theirs: Plain, call: &Call) -> (Answer, Plain) {
    let (answer, theirs) = answer_over(rt, theirs, call);
    assert!(rt; !is_fault(&answer), "memory");
    (answer, theirs)
}

/// Both hold the same rows of each of the units.
fn hold_the_same(
    rt: &impl Abort,
    ours: &mut impl Books,
    theirs: &mut impl Books,
    units: &[UnitCode],
    title: &str,
) {
    let is_alike = hold_alike(ours, theirs, units).expect(rt, "rows");
    assert!(rt; is_alike, "{title}");
}

/// Our answer to a call, and our books after it. If memory runs out for it, ours must hold what they held, and the call
/// is made again.
fn our_answer<B: Books + Drop>(
    rt: &(impl Abort + AllocGlobal + Eprint),
    ours: B,
    theirs: &mut Plain,
    call: &Call,
    units: &[UnitCode],
) -> (Answer, B) {
    let (answer, mut ours) = answer_over(rt, ours, call);
    if !is_fault(&answer) {
        return (answer, ours);
    }
    drop(answer);
    let _ = rt.eprintln("a call answers a fault");
    hold_the_same(rt, &mut ours, theirs, units, "changed by a fault");
    answer_over(rt, ours, call)
}

/// Empty lists.
fn empty_lists(rt: &(impl Abort + AllocGlobal)) -> Plain {
    lists(rt.alloc()).expect(rt, "lists")
}

/// Both answers are the same bytes. An answer is then dropped explicitly: at the end of a scope the prover goes through
/// every kind of answer.
fn is_alike(rt: &(impl Abort + AllocGlobal), ours: &Answer, theirs: &Answer) {
    alike(rt.alloc(), ours, theirs).expect(rt, "an answer");
}

/// Our books and theirs after a call that ours get first, and both answer alike.
fn after_one<B: Books + Drop>(
    rt: &(impl Abort + AllocGlobal + Eprint),
    ours: B,
    mut theirs: Plain,
    call: &Call,
    units: &[UnitCode],
) -> (B, Plain) {
    let (answer, ours) = our_answer(rt, ours, &mut theirs, call, units);
    let (due, theirs) = their_answer(rt, theirs, call);
    is_alike(rt, &answer, &due);
    drop(answer);
    drop(due);
    (ours, theirs)
}

/// Ours get each call before theirs; both answer alike, and hold the same rows in the end, as they are given back.
fn serves_through_faults<B: Books + Drop>(
    rt: &(impl Abort + AllocGlobal + Eprint),
    mut ours: B,
    wanted: &Exchanges,
) -> (B, Plain) {
    let mut theirs = empty_lists(rt);
    let Calls { calls, answers: _ } = calls_of(rt.alloc(), wanted).expect(rt, "calls");
    for call in &calls {
        (ours, theirs) = after_one(rt, ours, theirs, call, &wanted.units);
    }
    hold_the_same(rt, &mut ours, &mut theirs, &wanted.units, "in the end");
    (ours, theirs)
}

/// The same over books with cached rows. In the end the books below them must hold the same rows too.
fn serves_cached<B: Books + Drop>(
    rt: &(impl Abort + AllocGlobal + Eprint),
    below: B,
    wanted: &Exchanges,
) {
    let (ours, mut theirs) = serves_through_faults(rt, cached_unit(rt, below), wanted);
    let mut below = ours.into_books();
    hold_the_same(rt, &mut below, &mut theirs, &wanted.units, "below");
}

/// Serves the calls as one run over our books. If memory for the answers runs out, checks that the books are unchanged
/// and serves the calls again.
fn our_run<B: Books + Drop>(
    rt: &(impl Abort + AllocGlobal + Eprint),
    ours: B,
    theirs: &mut Plain,
    calls: &[Call],
    units: &[UnitCode],
) -> (Vec<Answer>, B) {
    let (ran, mut ours) = run_all(rt.alloc(), ours, calls);
    if let Some(answers) = ran {
        return (answers, ours);
    }
    let _ = rt.eprintln("a run answers a fault");
    hold_the_same(rt, &mut ours, theirs, units, "changed by a fault");
    all_answers(rt, ours, calls)
}

/// Makes the calls in one run and gives their answers and the books. The test ends if there is no room for the answers.
fn all_answers<B: Books + Drop>(
    rt: &(impl Abort + AllocGlobal),
    books: B,
    calls: &[Call],
) -> (Vec<Answer>, B) {
    let (answers, books) = run_all(rt.alloc(), books, calls);
    (answers.expect(rt, "memory"), books)
}

/// Their books after each call that ours answered without a fault, which theirs answer alike.
fn after_others(
    rt: &(impl Abort + AllocGlobal),
    mut theirs: Plain,
    calls: &[Call],
    answers: &[Answer],
) -> Plain {
    for (call, answer) in calls.iter().zip(answers) {
        if !is_fault(answer) {
            let (due, left) = their_answer(rt, theirs, call);
            theirs = left;
            is_alike(rt, answer, &due);
            drop(due);
        }
    }
    theirs
}

/// The index of the first call that ran out of memory, or the number of calls if none did.
fn place_of_fault(rt: &impl Eprint, answers: &[Answer]) -> usize {
    for (place, answer) in answers.iter().enumerate() {
        if is_fault(answer) {
            let _ = rt.eprintln("a call answers a fault");
            return place;
        }
    }
    answers.len()
}

/// If a call of a run runs out of memory, the other calls are answered as if it had not been made, and leave the rows
/// that they would leave then. The calls from that one on are then made again.
fn runs_through_faults<B: Books + Drop>(
    rt: &(impl Abort + AllocGlobal + Eprint),
    ours: B,
    wanted: &Exchanges,
) {
    let mut theirs = empty_lists(rt);
    let Calls { calls, answers: _ } = calls_of(rt.alloc(), wanted).expect(rt, "calls");
    let (answers, mut ours) = our_run(rt, ours, &mut theirs, &calls, &wanted.units);
    assert_eq!(rt; answers.len(), calls.len());
    let mut theirs = after_others(rt, theirs, &calls, &answers);
    hold_the_same(rt, &mut ours, &mut theirs, &wanted.units, "after the run");
    let rest = calls.get(place_of_fault(rt, &answers)..);
    runs_alike(rt, ours, theirs, rest.expect(rt, "calls"), &wanted.units);
}

/// Both answer the calls of a run alike, and hold the same rows after it.
fn runs_alike<B: Books + Drop>(
    rt: &(impl Abort + AllocGlobal),
    ours: B,
    theirs: Plain,
    calls: &[Call],
    units: &[UnitCode],
) {
    let (answers, mut ours) = all_answers(rt, ours, calls);
    let (due, mut theirs) = all_answers(rt, theirs, calls);
    all_alike(rt.alloc(), &answers, &due).expect(rt, "answers");
    hold_the_same(rt, &mut ours, &mut theirs, units, "in the end");
}

/// The base office with three proposals of a record and a matrix that turns its priority, each of them decided.
fn review(rt: &(impl Abort + AllocGlobal)) -> Exchanges {
    Exchanges::of(rt.alloc(), &[BASE, STAFFED, REVIEWED, RECORDED]).expect(rt, "exchanges")
}

/// The base office with a file, its rows again, and files that clash with them.
fn imports(rt: &(impl Abort + AllocGlobal)) -> Exchanges {
    Exchanges::of(rt.alloc(), &[BASE, THREE_ROWS, IMPORTED_TWICE]).expect(rt, "exchanges")
}

/// These books with cached rows.
fn cached_unit<B: Books + Drop>(rt: &(impl Abort + AllocGlobal), below: B) -> CachedBooks<B> {
    cached(rt.alloc(), below, MAX_CACHED_ROWS).expect(rt, "books with a cache")
}

/// Empty tables.
fn empty_tables(rt: &(impl Abort + AllocGlobal)) -> Tables<MemStore> {
    tables(rt.alloc()).expect(rt, "tables")
}

#[test]
fn serves_a_review_over_lists(rt: HostRuntime) {
    drop(serves_through_faults(&rt, empty_lists(&rt), &review(&rt)));
}

#[test]
fn serves_a_review_over_tables(rt: HostRuntime) {
    drop(serves_through_faults(&rt, empty_tables(&rt), &review(&rt)));
}

#[test]
fn runs_a_review_over_lists(rt: HostRuntime) {
    runs_through_faults(&rt, empty_lists(&rt), &review(&rt));
}

#[test]
fn runs_a_review_over_tables(rt: HostRuntime) {
    runs_through_faults(&rt, empty_tables(&rt), &review(&rt));
}

#[test]
fn serves_imports_over_lists(rt: HostRuntime) {
    drop(serves_through_faults(&rt, empty_lists(&rt), &imports(&rt)));
}

#[test]
fn serves_imports_over_tables(rt: HostRuntime) {
    drop(serves_through_faults(&rt, empty_tables(&rt), &imports(&rt)));
}

#[test]
fn runs_imports_over_lists(rt: HostRuntime) {
    runs_through_faults(&rt, empty_lists(&rt), &imports(&rt));
}

#[test]
fn runs_imports_over_tables(rt: HostRuntime) {
    runs_through_faults(&rt, empty_tables(&rt), &imports(&rt));
}

#[test]
fn serves_a_review_cached_over_lists(rt: HostRuntime) {
    serves_cached(&rt, empty_lists(&rt), &review(&rt));
}

#[test]
fn serves_a_review_cached_over_tables(rt: HostRuntime) {
    serves_cached(&rt, empty_tables(&rt), &review(&rt));
}

#[test]
fn serves_imports_cached_over_lists(rt: HostRuntime) {
    serves_cached(&rt, empty_lists(&rt), &imports(&rt));
}

#[test]
fn serves_imports_cached_over_tables(rt: HostRuntime) {
    serves_cached(&rt, empty_tables(&rt), &imports(&rt));
}

#[test]
fn runs_a_review_cached_over_tables(rt: HostRuntime) {
    runs_through_faults(&rt, cached_unit(&rt, empty_tables(&rt)), &review(&rt));
}

#[test]
fn runs_imports_cached_over_tables(rt: HostRuntime) {
    runs_through_faults(&rt, cached_unit(&rt, empty_tables(&rt)), &imports(&rt));
}
