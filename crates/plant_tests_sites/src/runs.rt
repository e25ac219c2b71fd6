//! The calls of a session, made one by one and all in one run.

use crate::keepers::{check_keepers, check_rows};
use crate::sessions::{cached, check_answers, check_session, lists, tables};
use plant_model::{Answer, Call};
use plant_office::{Books, Office};
use plant_tests_examples::{BEGIN, Exchanges, Failure, between};
use plant_types::limits::MAX_CACHED_ROWS;
use plant_wire::{Cut, next_call, render};
use std::alloc::Global;

/// The call of a request, or `None` if it is malformed.
pub fn call_of(alloc: Global, request: &[u8]) -> Result<Option<Call>, Failure> {
    match next_call(alloc, request) {
        Cut::Call(call, _) => Ok(Some(call)),
        Cut::Malformed(_, _) => Ok(None),
        Cut::Fault => Err(Failure::Memory),
        _ => Err(Failure::Notation),
    }
}

/// The bytes of an answer.
pub fn bytes_of(alloc: Global, answer: &Answer) -> Result<Vec<u8>, Failure> {
    Ok(render(alloc, answer)?)
}

/// The office's answer to one call.
pub fn served<B: Books>(office: &mut Office<B>, call: &Call) -> Answer {
    office.serve(call)
}

/// The calls among some requests, and the answers that are expected, one after another.
#[derive(Drop)]
pub struct Calls {
    pub calls: Vec<Call>,
    pub answers: Vec<u8>,
}

impl Calls {
    /// Adds a call and its answer, unless the request is malformed.
    fn add(&mut self, alloc: Global, request: &[u8], answer: &[u8]) -> Result<(), Failure> {
        if let Some(call) = call_of(alloc, request)? {
            self.calls.push(call)?;
            self.answers.extend_from_slice(answer)?;
        }
        Ok(())
    }
}

/// The calls of these exchanges.
pub fn calls_of(alloc: Global, wanted: &Exchanges) -> Result<Calls, Failure> {
    let mut all = Calls {
        calls: Vec::new(alloc),
        answers: Vec::new(alloc),
    };
    let mut last = BEGIN;
    for mark in &wanted.marks {
        let (request, answer) = between(wanted, last, *mark)?;
        all.add(alloc, request, answer)?;
        last = *mark;
    }
    Ok(all)
}

/// The answers to the calls, made one by one.
fn serve_each<B: Books>(
    alloc: Global,
    office: &mut Office<B>,
    calls: &[Call],
) -> Result<Vec<Answer>, Failure> {
    let mut answers = Vec::new(alloc);
    for call in calls {
        answers.push(served(office, call))?;
    }
    Ok(answers)
}

/// The answers to the calls, made one by one, and the books after them.
fn serve_all<B: Books + Drop>(
    alloc: Global,
    books: B,
    calls: &[Call],
) -> (Result<Vec<Answer>, Failure>, B) {
    let mut office = Office::new(alloc, books);
    let answers = serve_each(alloc, &mut office, calls);
    (answers, office.into_books())
}

/// The answers to the calls, made in one run, or `None` if memory ran out; and the books after them.
pub fn run_all<B: Books + Drop>(
    alloc: Global,
    books: B,
    calls: &[Call],
) -> (Option<Vec<Answer>>, B) {
    let mut office = Office::new(alloc, books);
    let answers = office.run(calls).ok();
    (answers, office.into_books())
}

/// An answer as bytes, the same on both sides.
pub fn alike(alloc: Global, ours: &Answer, theirs: &Answer) -> Result<Vec<u8>, Failure> {
    let bytes = bytes_of(alloc, ours)?;
    check_answers(alloc, &bytes, &bytes_of(alloc, theirs)?)?;
    Ok(bytes)
}

/// The answers as bytes, each of them the same on both sides.
pub fn all_alike(alloc: Global, ran: &[Answer], served: &[Answer]) -> Result<Vec<u8>, Failure> {
    if ran.len() != served.len() {
        return Err(Failure::Ended);
    }
    let mut answers = Vec::new(alloc);
    for (ours, theirs) in ran.iter().zip(served) {
        answers.extend_from_slice(&alike(alloc, ours, theirs)?)?;
    }
    Ok(answers)
}

/// How many of the requests are malformed, by the answers that are expected.
fn malformed(wanted: &Exchanges) -> usize {
    wanted
        .answers
        .as_str()
        .split(r#","malformed":"#)
        .count()
        .saturating_sub(1)
}

/// The calls of these exchanges: all but the malformed requests.
fn all_calls_of(alloc: Global, wanted: &Exchanges) -> Result<Calls, Failure> {
    let found = calls_of(alloc, wanted)?;
    if found.calls.len() == wanted.marks.len().saturating_sub(malformed(wanted)) {
        Ok(found)
    } else {
        Err(Failure::Notation)
    }
}

/// In one run the calls are answered as one by one and as expected, and leave the same rows.
pub fn check_run<B: Books + Drop>(
    alloc: Global,
    ours: B,
    theirs: B,
    wanted: &Exchanges,
) -> Result<(), Failure> {
    let Calls { calls, answers } = all_calls_of(alloc, wanted)?;
    let (ran, mut ours) = run_all(alloc, ours, &calls);
    let ran = ran.ok_or(Failure::Memory)?;
    let (served, mut theirs) = serve_all(alloc, theirs, &calls);
    let found = all_alike(alloc, &ran, &served?)?;
    check_answers(alloc, &found, &answers)?;
    check_rows(&mut ours, &mut theirs, &wanted.units)
}

/// A cache so small that the base office finds no room in it.
const FEW_ROWS: u128 = 12;

/// A cache so small that only one of two units of an example finds room in it at a time.
const SOME_ROWS: u128 = 20;

/// With many, some or few cached rows a keeper answers as expected, and holds what it holds without them.
fn check_cached(alloc: Global, wanted: &Exchanges) -> Result<(), Failure> {
    for limit in [MAX_CACHED_ROWS, SOME_ROWS, FEW_ROWS] {
        let ours = cached(alloc, lists(alloc)?, limit)?;
        check_keepers(alloc, ours, lists(alloc)?, wanted)?;
        let ours = cached(alloc, tables(alloc)?, limit)?;
        check_keepers(alloc, ours, lists(alloc)?, wanted)?;
    }
    Ok(())
}

/// Over each keeper the exchanges are answered as expected, also in one run, and both keep the same rows.
pub fn check_example(alloc: Global, wanted: &Exchanges) -> Result<(), Failure> {
    check_session(alloc, lists(alloc)?, wanted)?;
    check_session(alloc, tables(alloc)?, wanted)?;
    check_keepers(alloc, lists(alloc)?, tables(alloc)?, wanted)?;
    check_run(alloc, lists(alloc)?, lists(alloc)?, wanted)?;
    check_run(alloc, tables(alloc)?, tables(alloc)?, wanted)?;
    check_cached(alloc, wanted)
}
