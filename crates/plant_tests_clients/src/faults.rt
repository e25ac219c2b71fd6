//! A service over books that fail: when it ends, and which faults it reports.

use crate::clients::{Client, Manner};
use crate::failing::Failing;
use crate::scripts::{Script, Served};
use plant_office::Office;
use plant_server_clients::{Halted, Plan, serve_clients};
use plant_types::Person;
use std::alloc::Global;
use std::process::Abort;

/// A request for a list of units.
const UNITS: &str =
    "GET /units HTTP/1.1\r\nX-Person: ann\r\nX-Moment: 2026-03-01T08:00:00Z\r\n\r\n";

/// A request for a list of shelves.
const SHELVES: &str =
    "GET /shelves HTTP/1.1\r\nX-Person: ann\r\nX-Moment: 2026-03-01T08:00:00Z\r\n\r\n";

/// A request of which the books know nothing.
const ALARMS: &str =
    "GET /units/U1/alarms HTTP/1.1\r\nX-Person: ann\r\nX-Moment: 2026-03-01T08:00:00Z\r\n\r\n";

/// A client that sends these requests and reads all its answers.
fn served_of(rt: &impl Abort, alloc: Global, requests: &[&str]) -> Served {
    let mut bytes = Vec::new(alloc);
    for request in requests {
        bytes
            .extend_from_slice(request.as_bytes())
            .expect(rt, "memory");
    }
    Served {
        client: Client {
            bytes,
            manner: Manner::Ends,
            takes: usize::MAX,
        },
        at: 0,
        sent: Vec::new(alloc),
        end: None,
    }
}

/// A script of this many such clients, whose ports take whole answers.
fn script_of(rt: &impl Abort, alloc: Global, requests: &[&str], clients: u64) -> Script {
    let mut served = Vec::new(alloc);
    for _ in 0..clients {
        served
            .push(served_of(rt, alloc, requests))
            .expect(rt, "memory");
    }
    Script {
        served,
        opened: 0,
        seed: 1,
        most: u64::MAX,
        turns: 0,
        most_open: 0,
    }
}

/// How often this text occurs in the bytes.
fn count_of(bytes: &[u8], part: &[u8]) -> u32 {
    let mut count = 0u32;
    for window in bytes.windows(part.len().max(1)) {
        if window == part {
            count = count.saturating_add(1);
        }
    }
    count
}

/// How many faults of the store the first client was answered, after how many lists of units.
fn answers_of(script: &Script) -> (u32, u32) {
    match script.served.first() {
        Some(one) => (
            count_of(&one.sent, b"{\"units\":[]}"),
            count_of(&one.sent, b"{\"fault\":\"Store\"}"),
        ),
        None => (0, 0),
    }
}

/// How a service over failing books ended, what its first client was answered, and what it reported of faults.
#[derive(Drop)]
struct Told {
    over: Result<(), Halted>,
    answers: (u32, u32),
    memory: u32,
    store: u32,
    /// How many bytes it reported in all.
    reported: usize,
}

/// Serves this many clients, each with these requests, over books that shut after this many lists of units.
fn serve_failing(
    rt: &impl Abort,
    alloc: Global,
    requests: &[&str],
    clients: u64,
    lists: u64,
    while_open: bool,
) -> Told {
    let root = Person::read(alloc, b"root")
        .expect(rt, "memory")
        .expect(rt, "a person");
    let mut script = script_of(rt, alloc, requests, clients);
    let mut office = Office::new(alloc, Failing::new(alloc, root, lists));
    let plan = Plan {
        connections: clients,
        while_open,
    };
    let mut log = Vec::new(alloc);
    let mut errors = Vec::new(alloc);
    let over = serve_clients(alloc, &mut script, plan, &mut office, &mut log, &mut errors);
    drop(office.into_books());
    Told {
        over,
        answers: answers_of(&script),
        memory: count_of(&errors, b"fault: Memory\n"),
        store: count_of(&errors, b"fault: Store\n"),
        reported: errors.len(),
    }
}

#[test]
fn ends_once_its_store_has_shut(rt: HostRuntime) {
    let told = serve_failing(&rt, rt.alloc(), &[UNITS, UNITS, UNITS, UNITS], 1, 2, true);
    assert_eq!(rt; told.over, Err(Halted::Shut));
    assert_eq!(rt; told.answers, (2, 1));
    assert_eq!(rt; (told.memory, told.store, told.reported), (0, 1, 13));
}

#[test]
fn goes_on_if_it_is_not_to_end(rt: HostRuntime) {
    let told = serve_failing(&rt, rt.alloc(), &[UNITS, UNITS, UNITS, UNITS], 1, 2, false);
    assert_eq!(rt; told.over, Ok(()));
    assert_eq!(rt; told.answers, (2, 2));
    assert_eq!(rt; told.reported, 0);
}

/// Faults of memory, and of a store that stays open, end nothing.
#[test]
fn reports_each_kind_of_fault_once_for_each_connection(rt: HostRuntime) {
    let requests = [SHELVES, ALARMS, SHELVES, ALARMS];
    let told = serve_failing(&rt, rt.alloc(), &requests, 3, 100, true);
    assert_eq!(rt; told.over, Ok(()));
    assert_eq!(rt; told.answers, (0, 2));
    assert_eq!(rt; (told.memory, told.store), (3, 3));
}
