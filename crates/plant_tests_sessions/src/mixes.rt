//! Weeks of 100,000 events in three mixes, over tables with cached rows: the floods of each are listed within a second,
//! and in under 100 ms once the events are cached.

use plant_office::Books;
use plant_tests_examples::{BASE, Exchanges, add_answer, add_request};
use plant_tests_sites::{after, cached, replays_on, tables, text};
use plant_types::Moment;
use plant_types::limits::MAX_CACHED_ROWS;
use plant_wire::End;
use std::process::Abort;
use std::time::{Clock, Duration, Instant};

/// How events follow one another.
#[derive(Clone, Copy)]
enum Mix {
    /// One alarm that becomes active 50,000 times and never returns, and then another that comes and goes.
    Repeated,
    /// Two alarms that come and go.
    Alternating,
    /// One alarm that comes and goes in 18 bursts of under ten minutes, nine hours apart.
    Bursts,
}

/// An event of a file: its alarm, what happens, and how many seconds after the week's begin.
struct Happening {
    tag: &'static str,
    event: &'static str,
    second: u64,
}

/// The alarm becomes active in the even rows, and returns in the odd ones.
fn turn(row: u32) -> &'static str {
    if row % 2 == 0 { "ACT" } else { "RTN" }
}

impl Mix {
    /// The event in a row, counted from 0.
    fn happening(&self, row: u32) -> Happening {
        let number = u64::from(row);
        match self {
            Mix::Repeated if row < 50_000 => Happening {
                tag: "PT-101",
                event: "ACT",
                second: number * 6,
            },
            Mix::Repeated => Happening {
                tag: "LT-2",
                event: turn(row),
                second: number * 6,
            },
            Mix::Alternating => Happening {
                tag: if row % 4 < 2 { "PT-101" } else { "LT-2" },
                event: turn(row),
                second: number * 6,
            },
            Mix::Bursts => Happening {
                tag: "PT-101",
                event: turn(row),
                second: number / 5_556 * 32_400 + number % 5_556 / 10,
            },
        }
    }
}

/// The moment this many seconds after ten o'clock on the first of March.
fn moment(rt: &impl Abort, second: u64) -> Moment {
    let begin = Moment::read(b"2026-03-01T10:00:00Z").expect(rt, "a moment");
    let seconds = begin.seconds().saturating_add(second);
    Moment::of_seconds(seconds).expect(rt, "a moment")
}

/// Adds a row to a file. Its number is one more than its place among all rows of the week.
fn push_row(rt: &impl Abort, file: &mut String, mix: Mix, row: u32) {
    let Happening { tag, event, second } = mix.happening(row);
    let moment = moment(rt, second).write();
    let (number, moment) = (row.saturating_add(1), text(&moment));
    write!(file, "{number},{moment},{tag},{event}\n").expect(rt, "memory");
}

/// A file of 10,000 rows, after this many files of as many.
fn file(rt: &(impl Abort + AllocGlobal), mix: Mix, before: u32) -> String {
    let mut file = String::new(rt.alloc());
    file.push_str("seq,moment,tag,event\n").expect(rt, "memory");
    let first = before.saturating_mul(10_000);
    for row in first..first.saturating_add(10_000) {
        push_row(rt, &mut file, mix, row);
    }
    file
}

/// The books after one request, in the notation of the examples and with a file, which must be answered so.
fn after_one<B: Books + Drop>(
    rt: &(impl Abort + AllocGlobal),
    books: B,
    line: &str,
    file: &str,
    wanted: &str,
) -> B {
    let mut request = String::new(rt.alloc());
    let mut answer = String::new(rt.alloc());
    add_request(&mut request, line, file).expect(rt, "a request");
    add_answer(&mut answer, wanted).expect(rt, "an answer");
    let (request, answer) = (request.as_bytes(), answer.as_bytes());
    after(rt.alloc(), books, request, answer).expect(rt, line)
}

/// The answer to a file of 10,000 new rows.
const TEN_THOUSAND: &str = r#"200 {"new":10000,"repeated":0}"#;

/// The base office with the events of a week.
fn filled<B: Books + Drop>(rt: &(impl Abort + AllocGlobal), books: B, mix: Mix) -> B {
    let base = Exchanges::of(rt.alloc(), &[BASE]).expect(rt, "exchanges");
    let (requests, answers) = (base.requests.as_bytes(), base.answers.as_bytes());
    let mut books = after(rt.alloc(), books, requests, answers).expect(rt, "the base office");
    for before in 0..10u32 {
        let line = "ann 2026-03-08T10:00:00Z POST /units/U1/imports";
        books = after_one(rt, books, line, &file(rt, mix, before), TEN_THOUSAND);
    }
    books
}

/// The answer to a request for the floods of the week, how long it takes, and the books.
fn floods<B: Books + Drop>(
    rt: &(impl Abort + AllocGlobal + Clock),
    books: B,
) -> (Vec<u8>, Duration, B) {
    let mut request = String::new(rt.alloc());
    let line =
        "vic 2026-03-08T10:00:00Z GET /units/U1/floods/2026-03-01T10:00:00Z/2026-03-08T10:00:00Z";
    add_request(&mut request, line, "").expect(rt, "a request");
    let begin = Instant::now(rt).expect(rt, "a clock");
    let (answers, end, books) = replays_on(rt.alloc(), books, request.as_bytes());
    let taken = begin.elapsed(rt).expect(rt, "a clock");
    assert_eq!(rt; end, End::Closed);
    (answers, taken, books)
}

/// The floods of the week are listed below this heading, and the first has this line. The first answer, which reads the
/// events from the tables, takes less than a second, and the next, from memory, less than 100 ms.
fn lists_floods(
    rt: &(impl Abort + AllocGlobal + Clock + Eprint),
    mix: Mix,
    heading: &str,
    first: &str,
) {
    let books = tables(rt.alloc()).expect(rt, "tables");
    lists_floods_over(rt, books, mix, heading, first);
}

fn lists_floods_over<B: Books + Drop>(
    rt: &(impl Abort + AllocGlobal + Clock + Eprint),
    below: B,
    mix: Mix,
    heading: &str,
    first: &str,
) {
    let below = filled(rt, below, mix);
    let books = cached(rt.alloc(), below, MAX_CACHED_ROWS).expect(rt, "memory");
    let (answers, first_taken, books) = floods(rt, books);
    let (again, next_taken, _) = floods(rt, books);
    let (_, list) = text(&answers).split_once("\r\n\r\n").expect(rt, "a body");
    let mut lines = list.lines();
    assert_eq!(rt; lines.next().expect(rt, "a heading"), heading);
    assert_eq!(rt; lines.next().expect(rt, "a flood"), first);
    assert_eq!(rt; again, answers);
    assert!(rt;
        first_taken < Duration::from_secs(1),
        "the first answer takes too long"
    );
    assert!(rt;
        next_taken < Duration::from_millis(100),
        "the next answer takes too long"
    );
}

#[test]
fn lists_the_floods_of_repeated_alarms(rt: HostRuntime) {
    lists_floods(
        &rt,
        Mix::Repeated,
        "FLOODS U1 FROM 2026-03-01T10:00:00Z TO 2026-03-08T10:00:00Z COUNT 1",
        "2026-03-04T21:20:00Z 2026-03-08T08:40:00Z  25000     50",
    );
}

#[test]
fn lists_the_floods_of_alternating_alarms(rt: HostRuntime) {
    lists_floods(
        &rt,
        Mix::Alternating,
        "FLOODS U1 FROM 2026-03-01T10:00:00Z TO 2026-03-08T10:00:00Z COUNT 1",
        "2026-03-01T10:00:00Z 2026-03-08T08:40:00Z  50000     50",
    );
}

#[test]
fn lists_the_floods_of_bursts(rt: HostRuntime) {
    lists_floods(
        &rt,
        Mix::Bursts,
        "FLOODS U1 FROM 2026-03-01T10:00:00Z TO 2026-03-08T10:00:00Z COUNT 18",
        "2026-03-01T10:00:00Z 2026-03-01T10:10:00Z   2778   2778",
    );
}
