//! The worked examples, each as bytes.

use plant_office::Books;
use plant_tests_examples::{
    BASE, COUNTED, Example, Exchanges, FLOODS, GRANTS_FULL, OVERLAPPED, OVERLAPPING,
    examples_of_calls, examples_of_changes, examples_of_imports, numbered, push_all,
};
use plant_tests_sites::{are_left_alike, cached, check_example, check_keepers, lists, tables};
use std::ops::Range;
use std::process::Abort;

/// What goes before an example, and its own exchanges.
fn exchanges(rt: &(impl Abort + AllocGlobal), setting: &[&str], example: &str) -> Exchanges {
    let mut wanted = Exchanges::of(rt.alloc(), setting).expect(rt, "exchanges");
    wanted.add_all(example).expect(rt, "exchanges");
    wanted
}

/// Over each keeper the example is answered as expected, also in one run, and both keep the same rows.
fn is_worked(rt: &(impl Abort + AllocGlobal), title: &str, wanted: &Exchanges) {
    check_example(rt.alloc(), wanted).expect(rt, title);
}

/// Each of these examples is answered as expected over each keeper.
fn are_worked(rt: &(impl Abort + AllocGlobal), examples: &[Example]) {
    for (title, setting, example) in examples {
        is_worked(rt, title, &exchanges(rt, setting, example));
    }
}

#[test]
fn worked_examples(rt: HostRuntime) {
    are_worked(&rt, examples_of_calls());
}

#[test]
fn imported_examples(rt: HostRuntime) {
    are_worked(&rt, examples_of_imports());
}

#[test]
fn changed_examples(rt: HostRuntime) {
    are_worked(&rt, examples_of_changes());
}

/// Three files in each of their orders.
const ORDERS: [[usize; 3]; 6] = [
    [0, 1, 2],
    [0, 2, 1],
    [1, 0, 2],
    [1, 2, 0],
    [2, 0, 1],
    [2, 1, 0],
];

/// An import of one of the three files, and its answer.
fn add_import(rt: &(impl Abort + AllocGlobal), wanted: &mut Exchanges, file: &str, counted: &str) {
    let mut exchange = String::new(rt.alloc());
    let line = "ann 09:30:00 POST /units/U1/imports\n";
    push_all(&mut exchange, &[line, file, "\n", counted]).expect(rt, "memory");
    wanted.add(&exchange).expect(rt, "an import");
}

/// The base office, and the three files in this order.
fn imported_in(rt: &(impl Abort + AllocGlobal), order: [usize; 3]) -> Exchanges {
    let mut wanted = exchanges(rt, &[], BASE);
    for (place, counted) in order.iter().zip(COUNTED.iter()) {
        let file = OVERLAPPING.get(*place).expect(rt, "a file");
        add_import(rt, &mut wanted, file, counted);
    }
    wanted.add(OVERLAPPED).expect(rt, "an exchange");
    wanted
}

/// The files leave the same rows in this order as in the first, over each keeper.
fn is_left_alike(rt: &(impl Abort + AllocGlobal), first: &Exchanges, wanted: &Exchanges) {
    let alloc = rt.alloc();
    let (ours, theirs) = (
        lists(alloc).expect(rt, "lists"),
        lists(alloc).expect(rt, "lists"),
    );
    assert!(rt; are_left_alike(alloc, ours, theirs, first, wanted).expect(rt, "rows"));
    let (ours, theirs) = (
        tables(alloc).expect(rt, "tables"),
        tables(alloc).expect(rt, "tables"),
    );
    assert!(rt; are_left_alike(alloc, ours, theirs, first, wanted).expect(rt, "rows"));
}

#[test]
fn three_files_in_each_order(rt: HostRuntime) {
    let first = imported_in(&rt, [0, 1, 2]);
    for order in ORDERS {
        let wanted = imported_in(&rt, order);
        is_worked(&rt, "three files in any order", &wanted);
        is_left_alike(&rt, &first, &wanted);
    }
}

/// A row of a file: its number, its moment's minute and second after ten o'clock, and its event.
fn push_row(
    rt: &impl Abort,
    out: &mut String,
    number: u32,
    minute: usize,
    second: u32,
    kind: &str,
) {
    write!(
        out,
        "> {number},2026-03-01T10:{minute}0:{second}Z,PT-101,{kind}\n"
    )
    .expect(rt, "memory");
}

/// The rows of this many activations in these ten minutes, each with its return, and the number of the last row.
fn push_activations(
    rt: &impl Abort,
    out: &mut String,
    last: u32,
    period: usize,
    count: u32,
) -> u32 {
    let mut number = last;
    for second in 10..count.saturating_add(10) {
        for kind in ["ACT", "RTN"] {
            number = number.saturating_add(1);
            push_row(rt, out, number, period, second, kind);
        }
    }
    number
}

/// An alarm of the base office before its first event.
const LOOKED_AT_BEFORE: &str = r#"vic 10:00:00 GET /units/U1/alarms/PT-101
200 {"limit":3600,"limit_revision":0,"out_of_service":false,"shelf":"Unshelved","shelf_left":0,"state":"Normal","suppressed":false,"suppressed_or_shelved":false,"tag":"PT-101"}"#;

/// The base office, a look at an alarm, and a file of activations from ten on: 11, 5, 4, 10 and 12 in each ten minutes.
fn many_activations(rt: &(impl Abort + AllocGlobal)) -> Exchanges {
    let mut wanted = exchanges(rt, &[BASE], LOOKED_AT_BEFORE);
    let mut exchange = String::new(rt.alloc());
    let heading = "ann 11:00:00 POST /units/U1/imports\n> seq,moment,tag,event\n";
    push_all(&mut exchange, &[heading]).expect(rt, "memory");
    let mut number = 0u32;
    for (period, count) in [11u32, 5, 4, 10, 12].iter().enumerate() {
        number = push_activations(rt, &mut exchange, number, period, *count);
    }
    push_all(&mut exchange, &[r#"200 {"new":84,"repeated":0}"#]).expect(rt, "memory");
    wanted.add(&exchange).expect(rt, "an import");
    wanted
}

#[test]
fn floods_of_a_range(rt: HostRuntime) {
    let mut wanted = many_activations(&rt);
    wanted.add_all(FLOODS).expect(&rt, "exchanges");
    is_worked(&rt, "floods of a range", &wanted);
}

/// A cache that has room for the base office, but not for the events of its floods.
const SOME_ROWS: u128 = 50;

/// Over these books with this many cached rows the exchanges are answered as expected, and leave what they leave in
/// lists.
fn is_worked_with_cache<B: Books + Drop>(
    rt: &(impl Abort + AllocGlobal),
    below: B,
    limit: u128,
    wanted: &Exchanges,
) {
    let ours = cached(rt.alloc(), below, limit).expect(rt, "books with a cache");
    let theirs = lists(rt.alloc()).expect(rt, "lists");
    check_keepers(rt.alloc(), ours, theirs, wanted).expect(rt, "floods");
}

#[test]
fn floods_of_events_that_find_no_room(rt: HostRuntime) {
    let mut wanted = many_activations(&rt);
    wanted.add_all(FLOODS).expect(&rt, "exchanges");
    let lists = lists(rt.alloc()).expect(&rt, "lists");
    is_worked_with_cache(&rt, lists, SOME_ROWS, &wanted);
    let tables = tables(rt.alloc()).expect(&rt, "tables");
    is_worked_with_cache(&rt, tables, SOME_ROWS, &wanted);
}

/// Adds the rows of these numbers, each an activation.
fn push_rows(rt: &impl Abort, out: &mut String, numbers: Range<usize>) {
    for number in numbers {
        write!(out, "> {number},2026-03-01T09:00:00Z,PT-101,ACT\n").expect(rt, "memory");
    }
}

/// The base office, and a file of 10,001 rows.
fn too_many_rows(rt: &(impl Abort + AllocGlobal)) -> Exchanges {
    let mut wanted = exchanges(rt, &[], BASE);
    let mut exchange = String::new(rt.alloc());
    let heading = "ann 10:00:00 POST /units/U1/imports\n> seq,moment,tag,event\n";
    push_all(&mut exchange, &[heading]).expect(rt, "memory");
    push_rows(rt, &mut exchange, 1..10_002);
    let answer = r#"409 {"name":"BadFile","refused":26,"value":{"cause":"TooLong","line":10002}}"#;
    push_all(&mut exchange, &[answer]).expect(rt, "memory");
    wanted.add(&exchange).expect(rt, "an import");
    wanted
}

#[test]
fn no_more_than_10000_rows(rt: HostRuntime) {
    is_worked(&rt, "10,001 rows", &too_many_rows(&rt));
}

/// The base office, and one exchange for each number from the first of these to before the last, with the number
/// between two texts.
fn many(
    rt: &(impl Abort + AllocGlobal),
    numbers: Range<usize>,
    before: &str,
    behind: &str,
) -> Exchanges {
    let mut wanted = exchanges(rt, &[], BASE);
    for number in numbers {
        let exchange = numbered(rt.alloc(), before, number, behind).expect(rt, "memory");
        wanted.add(&exchange).expect(rt, "an exchange");
    }
    wanted
}

/// The base office, grants until it has 500 pairs, and two more.
fn many_grants(rt: &(impl Abort + AllocGlobal)) -> Exchanges {
    let before = r#"ste 08:00:00 POST /units/U1/grants {"person":"p-"#;
    let behind = "\",\"role\":\"Viewer\"}\n200 {\"done\":true}";
    let mut wanted = many(rt, 6..500, before, behind);
    wanted.add_all(GRANTS_FULL).expect(rt, "exchanges");
    wanted
}

#[test]
fn no_more_than_500_pairs(rt: HostRuntime) {
    is_worked(&rt, "500 pairs", &many_grants(&rt));
}
