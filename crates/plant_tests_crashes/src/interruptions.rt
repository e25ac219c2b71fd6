//! Calls over tables in which a statement may take only a limited number of steps.

use plant_books::Plain;
use plant_model::{Answer, Call};
use plant_office::{Books, Office};
use plant_store::Tables;
use plant_tests_examples::{
    BASE, BEGIN, Exchanges, Failure, IMPORTED_TWICE, Mark, RECORDED, REVIEWED, SHELVED, STAFFED,
    THREE_ROWS, between,
};
use plant_tests_sites::{Calls, after, bytes_of, calls_of, check_rows, lists, tables, text};
use plant_types::Fault;
use sqlite::MemStore;
use std::alloc::Global;
use std::process::Abort;

/// Books that limit how many steps a statement may take. Tests over this trait are proved sooner than tests over the
/// tables themselves.
trait Interruptible: Books + Drop + Sized {
    /// New books, without a limit.
    fn made(alloc: Global) -> Result<Self, Failure>;

    /// Limits each later statement to this many steps, or lifts the limit.
    fn limit(&mut self, steps: Option<u64>);
}

impl Interruptible for Tables<MemStore> {
    fn made(alloc: Global) -> Result<Tables<MemStore>, Failure> {
        tables(alloc)
    }

    fn limit(&mut self, steps: Option<u64>) {
        self.set_steps(steps);
    }
}

/// The bytes of an answer, or `None` if it is a fault of the store.
fn answered(rt: &(impl Abort + AllocGlobal), answer: &Answer) -> Option<Vec<u8>> {
    if matches!(answer, Answer::Fault(Fault::Store)) {
        return None;
    }
    Some(bytes_of(rt.alloc(), answer).expect(rt, "memory"))
}

/// The answer to a call whose statements may each take this many steps, or `None` if it is a fault of the store; and
/// the books after it, without that limit. The answer is dropped explicitly: at the end of a scope the prover goes
/// through every kind of answer.
fn limited<B: Interruptible>(
    rt: &(impl Abort + AllocGlobal),
    mut books: B,
    steps: u64,
    call: &Call,
) -> (Option<Vec<u8>>, B) {
    books.limit(Some(steps));
    let mut office = Office::new(rt.alloc(), books);
    let answer = office.serve(call);
    let bytes = answered(rt, &answer);
    drop(answer);
    let mut books = office.into_books();
    books.limit(None);
    (bytes, books)
}

/// The books after the exchanges between these marks.
fn after_marks<B: Books + Drop>(
    rt: &(impl Abort + AllocGlobal),
    books: B,
    wanted: &Exchanges,
    last: Mark,
    next: Mark,
) -> B {
    let (requests, answers) = between(wanted, last, next).expect(rt, "exchanges");
    after(rt.alloc(), books, requests, answers).expect(rt, "answers")
}

/// New books after the exchanges before this mark.
fn books_before<B: Interruptible>(
    rt: &(impl Abort + AllocGlobal),
    wanted: &Exchanges,
    mark: Mark,
) -> B {
    let books = B::made(rt.alloc()).expect(rt, "books");
    after_marks(rt, books, wanted, BEGIN, mark)
}

/// The calls of these exchanges, none of which is malformed.
fn calls(rt: &(impl Abort + AllocGlobal), wanted: &Exchanges) -> Calls {
    let all = calls_of(rt.alloc(), wanted).expect(rt, "calls");
    assert_eq!(rt; all.calls.len(), wanted.marks.len());
    all
}

/// The answer is the one that is expected between these marks.
fn is_wanted(
    rt: &(impl Abort + AllocGlobal),
    wanted: &Exchanges,
    last: Mark,
    next: Mark,
    answer: &[u8],
) {
    let (_, due) = between(wanted, last, next).expect(rt, "exchanges");
    assert_eq!(rt; text(answer), text(due));
}

/// The books hold what they held before the call between these marks, as lists do; the call is then answered as
/// expected, and leaves the same rows as over lists.
fn goes_on<B: Books + Drop>(
    rt: &(impl Abort + AllocGlobal),
    mut books: B,
    wanted: &Exchanges,
    last: Mark,
    next: Mark,
) {
    let lists = lists(rt.alloc()).expect(rt, "lists");
    let mut ours = after_marks(rt, lists, wanted, BEGIN, last);
    check_rows(&mut ours, &mut books, &wanted.units).expect(rt, "after a fault");
    let mut ours = after_marks(rt, ours, wanted, last, next);
    let mut books = after_marks(rt, books, wanted, last, next);
    check_rows(&mut ours, &mut books, &wanted.units).expect(rt, "after the call");
}

/// Whether the call passes with this many steps, answered as expected. Otherwise it is a fault that leaves the rows as
/// they were, and the same call without a limit is then answered as expected and leaves the same rows as over lists.
fn passes<B: Interruptible>(
    rt: &(impl Abort + AllocGlobal),
    wanted: &Exchanges,
    last: Mark,
    next: Mark,
    call: &Call,
    steps: u64,
) -> bool {
    let books = books_before::<B>(rt, wanted, last);
    let (answer, books) = limited(rt, books, steps, call);
    let Some(answer) = answer else {
        goes_on(rt, books, wanted, last, next);
        return false;
    };
    is_wanted(rt, wanted, last, next, &answer);
    true
}

/// The number of steps with which the call between these marks passes.
fn steps_of<B: Interruptible>(
    rt: &(impl Abort + AllocGlobal),
    wanted: &Exchanges,
    last: Mark,
    next: Mark,
    call: &Call,
) -> u64 {
    for steps in 0..10_000u64 {
        if passes::<B>(rt, wanted, last, next, call, steps) {
            return steps;
        }
    }
    rt.panic("no end")
}

/// Each changing call of the base office, interrupted at each step: with no step at all none passes.
#[test]
fn changes_nothing_where_a_call_is_interrupted(rt: HostRuntime) {
    let wanted = Exchanges::of(rt.alloc(), &[BASE, SHELVED]).expect(&rt, "exchanges");
    let all = calls(&rt, &wanted);
    let mut last = BEGIN;
    for (mark, call) in wanted.marks.iter().zip(&all.calls) {
        assert!(rt; steps_of::<Tables<MemStore>>(&rt, &wanted, last, *mark, call) > 0);
        last = *mark;
    }
}

/// The books after the call between these marks, which is made with no step, with one, and so on until it is answered
/// as expected. Each fault leaves the rows as they were, which are those of the lists.
fn after_interruptions<B: Interruptible>(
    rt: &(impl Abort + AllocGlobal),
    mut books: B,
    theirs: &mut Plain,
    wanted: &Exchanges,
    marks: (Mark, Mark),
    call: &Call,
) -> B {
    let (last, next) = marks;
    for steps in 0..10_000u64 {
        let (answer, mut left) = limited(rt, books, steps, call);
        if let Some(answer) = answer {
            assert!(rt; steps > 0, "not interrupted");
            is_wanted(rt, wanted, last, next, &answer);
            return left;
        }
        check_rows(theirs, &mut left, &wanted.units).expect(rt, "after a fault");
        books = left;
    }
    rt.panic("no end")
}

/// Over the same books each call of these exchanges, interrupted until it passes.
fn passes_in_the_end<B: Interruptible>(rt: &(impl Abort + AllocGlobal), texts: &[&str]) {
    let wanted = Exchanges::of(rt.alloc(), texts).expect(rt, "exchanges");
    let mut books = B::made(rt.alloc()).expect(rt, "books");
    let mut theirs = lists(rt.alloc()).expect(rt, "lists");
    let all = calls(rt, &wanted);
    let mut last = BEGIN;
    for (mark, call) in wanted.marks.iter().zip(&all.calls) {
        books = after_interruptions(rt, books, &mut theirs, &wanted, (last, *mark), call);
        theirs = after_marks(rt, theirs, &wanted, last, *mark);
        check_rows(&mut theirs, &mut books, &wanted.units).expect(rt, "after the call");
        last = *mark;
    }
}

#[test]
fn changes_nothing_where_a_review_is_interrupted(rt: HostRuntime) {
    passes_in_the_end::<Tables<MemStore>>(&rt, &[BASE, STAFFED, REVIEWED, RECORDED]);
}

#[test]
fn changes_nothing_where_imports_are_interrupted(rt: HostRuntime) {
    passes_in_the_end::<Tables<MemStore>>(&rt, &[BASE, THREE_ROWS, IMPORTED_TWICE]);
}
