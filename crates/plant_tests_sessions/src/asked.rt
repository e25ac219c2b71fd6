//! What cached rows can answer is answered without the books below, and a change asks these once.

ghost use Rattle.std.specs.Prelude.{◌≡◌};

use plant_alarm::Event;
use plant_books::{Books, MineRow, MineUnit, Plain};
use plant_model::{Call, Changes, UnitPart, UnitRows};
use plant_tests_examples::{BASE, Exchanges, LOOKED_AT, SHELVED};
use plant_tests_sites::{after, cached, lists};
use plant_types::limits::MAX_CACHED_ROWS;
use plant_types::{Fault, List, Moment, Person, Sorted, UnitCode};
use std::process::Abort;

/// A viewer's requests of each kind that reads from a unit, except for its shelves, its floods and its changes and
/// records, and two of a stranger.
const READ: &str = r#"vic 10:30:00 GET /units/U1/alarms/PT-101
200 {"limit":3600,"limit_revision":0,"out_of_service":false,"shelf":"TimedShelved","shelf_left":1800,"state":"Normal","suppressed":false,"suppressed_or_shelved":true,"tag":"PT-101"}

vic 10:30:00 GET /units/U1/alarms
200 ALARMS U1 AT 2026-03-01T10:30:00Z COUNT 2
LT-2                     Normal         -  ---  86400
PT-101                   Normal         -  S--   3600

vic 10:30:00 GET /units/U1/standing
200 STANDING U1 AT 2026-03-01T10:30:00Z COUNT 0

vic 10:30:00 GET /shelves
200 MINE vic AT 2026-03-01T10:30:00Z COUNT 1
U1       PT-101                   timed    2026-03-01T10:00:00Z   1800 ann                              pump test

bob 10:30:00 GET /units/U1/alarms/PT-101
403 {"name":"NotGranted","refused":3}

bob 10:30:00 GET /units/U1/floods/2026-03-01T10:00:00Z/2026-03-01T10:10:00Z
403 {"name":"NotGranted","refused":3}"#;

/// A viewer asks for a record and for a change.
const REVIEWED: &str = r#"vic 10:30:00 GET /units/U1/alarms/PT-101/record
409 {"name":"RecordUnknown","refused":24}

vic 10:30:00 GET /units/U1/changes/1
409 {"name":"ChangeUnknown","refused":17}"#;

/// A stranger asks for an alarm, and then a viewer for the alarms that are active, twice.
const FIRST_ASKED: &str = r#"bob 10:30:00 GET /units/U1/alarms/PT-101
403 {"name":"NotGranted","refused":3}

vic 10:30:00 GET /units/U1/standing
200 STANDING U1 AT 2026-03-01T10:30:00Z COUNT 0

vic 10:30:00 GET /units/U1/standing
200 STANDING U1 AT 2026-03-01T10:30:00Z COUNT 0"#;

/// A viewer asks for the floods of ten minutes, and an operator imports an event.
const LOOKED_AT_EVENTS: &str =
    r#"vic 10:40:00 GET /units/U1/floods/2026-03-01T10:00:00Z/2026-03-01T10:10:00Z
200 FLOODS U1 FROM 2026-03-01T10:00:00Z TO 2026-03-01T10:10:00Z COUNT 0

ann 10:40:00 POST /units/U1/imports
> seq,moment,tag,event
> 1,2026-03-01T10:20:00Z,LT-2,ACT
200 {"new":1,"repeated":0}

vic 10:40:00 GET /units/U1/floods/2026-03-01T10:10:00Z/2026-03-01T10:20:00Z
200 FLOODS U1 FROM 2026-03-01T10:10:00Z TO 2026-03-01T10:20:00Z COUNT 0"#;

/// The shelf is ended, and then none is listed.
const ENDED: &str = r#"ann 10:45:00 POST /units/U1/alarms/PT-101/unshelve
200 {"done":true}

vic 10:45:00 GET /units/U1/shelves
200 SHELVES U1 AT 2026-03-01T10:45:00Z COUNT 0

vic 10:45:00 GET /shelves
200 MINE vic AT 2026-03-01T10:45:00Z COUNT 0"#;

/// Three units with a steward each.
const OPENED: &str =
    r#"root 08:00:00 POST /units/U1 {"steward":"ste","bands":[300],"cells":[["P3","P4"],["P1","P2"]]}
200 {"done":true}

root 08:00:00 POST /units/U2 {"steward":"ste","bands":[300],"cells":[["P3","P4"],["P1","P2"]]}
200 {"done":true}

root 08:00:00 POST /units/U3 {"steward":"ste","bands":[300],"cells":[["P3","P4"],["P1","P2"]]}
200 {"done":true}"#;

/// How many rows of two such units are cached: for each the unit's own row and a grant.
const TWO_UNITS: u128 = 4;

/// The steward asks for two units, a stranger for the first, and the steward for the third and for the second again.
const LAST_USED: &str = r#"ste 09:00:00 GET /units/U1/standing
200 STANDING U1 AT 2026-03-01T09:00:00Z COUNT 0

ste 09:00:00 GET /units/U2/standing
200 STANDING U2 AT 2026-03-01T09:00:00Z COUNT 0

bob 09:00:00 GET /units/U1/standing
403 {"name":"NotGranted","refused":3}

ste 09:00:00 GET /units/U3/standing
200 STANDING U3 AT 2026-03-01T09:00:00Z COUNT 0

ste 09:00:00 GET /units/U2/standing
200 STANDING U2 AT 2026-03-01T09:00:00Z COUNT 0"#;

/// The steward asks for the first unit, for the second, and for the first again.
const IN_TURN: &str = r#"ste 09:00:00 GET /units/U1/standing
200 STANDING U1 AT 2026-03-01T09:00:00Z COUNT 0

ste 09:00:00 GET /units/U2/standing
200 STANDING U2 AT 2026-03-01T09:00:00Z COUNT 0

ste 09:00:00 GET /units/U1/standing
200 STANDING U1 AT 2026-03-01T09:00:00Z COUNT 0"#;

/// How often rows, parts and shelves were asked for, how often all events of a unit among them, and how often these
/// were changed.
#[derive(Clone, Copy, PartialEq, Eq, Debug)]
struct Count {
    asked: u64,
    events: u64,
    changed: u64,
}

/// Books that count what they are asked for, and that run out of memory for the rows of one unit. Questions about a
/// person's grants are not counted.
#[derive(Drop)]
struct Counting<B: Books> {
    books: B,
    count: Count,
    lacking: Option<UnitCode>,
}

impl<B: Books> Counting<B> {
    fn count_asked(&mut self)
        ensures { self.new.books ≡ self.old.books }
    {
        self.count.asked = self.count.asked.saturating_add(1);
    }

    fn count_events(&mut self)
        ensures { self.new.books ≡ self.old.books }
    {
        self.count.events = self.count.events.saturating_add(1);
    }

    /// Whether this is the unit for whose rows memory runs out.
    fn is_lacking(&self, unit: &UnitCode) -> bool {
        match &self.lacking {
            Some(lacking) => *lacking == *unit,
            None => false,
        }
    }

    fn count_change(&mut self)
        ensures { self.new.books ≡ self.old.books }
    {
        self.count.changed = self.count.changed.saturating_add(1);
    }
}

impl<B: Books> Books for Counting<B> {
    ghost represents = { λ t m. B.represents t.books m };

    ghost is_honest = { λ t. B.is_honest t.books };

    ghost stores = { λ t. B.stores t.books };

    ghost is_clean = { λ t. B.is_clean t.books };

    ghost may_leave = { λ t. B.may_leave t.books };

    ghost leaves_books = { λ t. B.leaves_books t.books };

    fn settle(&self) {
        self.books.settle();
    }

    fn is_shut(&self) -> bool {
        self.books.is_shut()
    }

    fn ensure_open(&mut self) -> Result<(), Fault> {
        self.books.ensure_open()
    }

    fn administrator(&self) -> &Person {
        self.books.administrator()
    }

    fn taken(&mut self, unit: &UnitCode) -> Result<bool, Fault> {
        self.count_asked();
        self.books.taken(unit)
    }

    fn rows(&mut self, unit: &UnitCode) -> Result<Option<UnitRows>, Fault> {
        self.count_asked();
        self.count_events();
        self.books.rows(unit)
    }

    fn rows_but_history(&mut self, unit: &UnitCode) -> Result<Option<UnitRows>, Fault> {
        self.count_asked();
        if self.is_lacking(unit) {
            return Err(Fault::Memory);
        }
        self.books.rows_but_history(unit)
    }

    fn events(&mut self, unit: &UnitCode) -> Result<Sorted<Event>, Fault> {
        self.count_asked();
        self.count_events();
        self.books.events(unit)
    }

    fn part(&mut self, call: &Call) -> Result<Option<UnitPart>, Fault> {
        self.count_asked();
        self.books.part(call)
    }

    fn held(&mut self, person: &Person, now: Moment) -> Result<List<UnitCode>, Fault> {
        self.books.held(person, now)
    }

    fn mine_units(&mut self, person: &Person, now: Moment) -> Result<List<MineUnit>, Fault> {
        self.books.mine_units(person, now)
    }

    fn mine_shelves(&mut self, person: &Person, now: Moment) -> Result<List<MineRow>, Fault> {
        self.count_asked();
        self.books.mine_shelves(person, now)
    }

    fn apply(
        &mut self,
        unit: &UnitCode,
        changes: &Changes,
        seen: Option<&UnitRows>,
    ) -> Result<(), Fault> {
        self.count_change();
        self.books.apply(unit, changes, seen)
    }
}

/// Books in lists, with all counts at 0.
fn unasked(rt: &(impl Abort + AllocGlobal)) -> Counting<Plain> {
    Counting {
        books: lists(rt.alloc()).expect(rt, "lists"),
        count: Count {
            asked: 0,
            events: 0,
            changed: 0,
        },
        lacking: None,
    }
}

/// These books after the exchanges, which must be answered as expected, with a cache that is empty at first and holds
/// at most this many rows.
fn asked<B: Books + Drop>(
    rt: &(impl Abort + AllocGlobal),
    below: Counting<B>,
    most: u128,
    texts: &[&str],
) -> Counting<B> {
    let wanted = Exchanges::of(rt.alloc(), texts).expect(rt, "exchanges");
    let books = cached(rt.alloc(), below, most).expect(rt, "books with a cache");
    let (requests, answers) = (wanted.requests.as_bytes(), wanted.answers.as_bytes());
    let books = after(rt.alloc(), books, requests, answers).expect(rt, "answers");
    books.into_books()
}

/// What the books below are asked for while these exchanges are answered as expected.
fn count_of(rt: &(impl Abort + AllocGlobal), texts: &[&str]) -> Count {
    asked(rt, unasked(rt), MAX_CACHED_ROWS, texts).count
}

#[test]
fn reads_of_cached_rows_ask_nothing(rt: HostRuntime) {
    let once = count_of(&rt, &[BASE, SHELVED]);
    assert!(rt; once.asked > 0, "nothing was asked for");
    assert_eq!(rt; count_of(&rt, &[BASE, SHELVED, READ, LOOKED_AT]), once);
}

/// Records and changes are read by their keys, call by call: of each the part of its call.
#[test]
fn what_was_reviewed_is_asked_for_each_time(rt: HostRuntime) {
    let before = count_of(&rt, &[BASE, SHELVED]);
    let after = count_of(&rt, &[BASE, SHELVED, REVIEWED]);
    assert_eq!(rt; after.asked, before.asked.saturating_add(2));
    assert_eq!(rt; after.events, before.events);
}

#[test]
fn a_change_of_cached_rows_asks_once(rt: HostRuntime) {
    let before = count_of(&rt, &[BASE, SHELVED]);
    let after = count_of(&rt, &[BASE, SHELVED, ENDED]);
    assert_eq!(rt; after.asked, before.asked);
    assert_eq!(rt; after.changed, before.changed.saturating_add(1));
}

#[test]
fn events_are_read_at_the_first_call_that_looks_at_them(rt: HostRuntime) {
    let before = count_of(&rt, &[BASE, SHELVED, READ]);
    assert_eq!(rt; before.events, 0);
    let once = count_of(&rt, &[BASE, SHELVED, READ, LOOKED_AT_EVENTS]);
    assert_eq!(rt; once.events, 1);
    assert_eq!(rt; once.asked, before.asked.saturating_add(1));
}

#[test]
fn a_unit_is_read_once_and_for_no_stranger(rt: HostRuntime) {
    let before = asked(&rt, unasked(&rt), MAX_CACHED_ROWS, &[BASE, SHELVED]);
    let count = before.count;
    let after = asked(&rt, before, MAX_CACHED_ROWS, &[FIRST_ASKED]);
    // The part of the stranger's call, and then all rows but the history.
    assert_eq!(rt; after.count.asked, count.asked.saturating_add(2));
    assert_eq!(rt; after.count.events, count.events);
}

/// If there is room for two units, the third replaces the one that was not used for longest, even if a stranger has
/// asked for it since.
#[test]
fn a_strangers_call_uses_no_unit(rt: HostRuntime) {
    let before = asked(&rt, unasked(&rt), TWO_UNITS, &[OPENED]);
    let count = before.count;
    let after = asked(&rt, before, TWO_UNITS, &[LAST_USED]);
    assert_eq!(rt; after.count.asked, count.asked.saturating_add(3));
}

/// If memory runs out for the rows of a unit, its call is answered from the books below, and the rows of other units
/// are dropped.
#[test]
fn a_unit_that_finds_no_memory_is_answered(rt: HostRuntime) {
    let mut before = asked(&rt, unasked(&rt), MAX_CACHED_ROWS, &[OPENED]);
    let count = before.count;
    let code = UnitCode::read(rt.alloc(), b"U2").expect(&rt, "memory");
    before.lacking = Some(code.expect(&rt, "a code"));
    let after = asked(&rt, before, MAX_CACHED_ROWS, &[IN_TURN]);
    // The rows of the first unit, those of the second in vain, the second's part, and the rows of the first again.
    assert_eq!(rt; after.count.asked, count.asked.saturating_add(4));
}
