//! Connections whose calls do not commute: together they are sent what one session writes that gets their requests in
//! the order in which they were answered.

use crate::clients::{Client, Manner, next_number};
use crate::recorded::{Made, Recorded};
use crate::scripts::{Script, Served};
use crate::sessions::{alone, office_of, session_by};
use plant_books::Plain;
use plant_office::Office;
use plant_server_clients::{Plan, serve_clients};
use std::alloc::Global;
use std::ops::Range;
use std::process::Abort;

/// How many requests open the unit and register its alarms.
const OPENING: u64 = 5;

/// One of them, by its person, its connection and its body.
fn opening(number: u64) -> (&'static str, &'static str, &'static str) {
    match number {
        0 => (
            "root",
            "POST /units/U1",
            "{\"steward\":\"ste\",\"bands\":[300],\"cells\":[[\"P3\",\"P4\"],[\"P1\",\"P2\"]]}",
        ),
        1 => (
            "ste",
            "POST /units/U1/grants",
            "{\"person\":\"ann\",\"role\":\"Operator\"}",
        ),
        2 => (
            "ste",
            "POST /units/U1/grants",
            "{\"person\":\"eve\",\"role\":\"Engineer\"}",
        ),
        3 => (
            "eve",
            "POST /units/U1/alarms",
            "{\"tag\":\"PT-101\",\"latching\":false,\"max\":3600}",
        ),
        _ => (
            "eve",
            "POST /units/U1/alarms",
            "{\"tag\":\"LT-2\",\"latching\":false,\"max\":86400}",
        ),
    }
}

/// A request that changes what others are answered, or whose answer others change.
fn shared(number: u64) -> (&'static str, &'static str, &'static str) {
    match number % 12 {
        0 => (
            "ann",
            "POST /units/U1/alarms/PT-101/timed-shelve",
            "{\"seconds\":3600,\"words\":\"pump test\"}",
        ),
        1 => (
            "bob",
            "POST /units/U1/alarms/PT-101/one-shot-shelve",
            "{\"words\":\"wiring\"}",
        ),
        2 => ("ann", "POST /units/U1/alarms/PT-101/unshelve", ""),
        3 => ("bob", "POST /units/U1/alarms/PT-101/unshelve", ""),
        4 => (
            "bob",
            "POST /units/U1/alarms/LT-2/timed-shelve",
            "{\"seconds\":60,\"words\":\"drained\"}",
        ),
        5 => ("ann", "POST /units/U1/alarms/LT-2/unshelve", ""),
        6 => (
            "ste",
            "POST /units/U1/grants",
            "{\"person\":\"bob\",\"role\":\"Operator\"}",
        ),
        7 => (
            "ste",
            "POST /units/U1/withdrawals",
            "{\"person\":\"bob\",\"role\":\"Operator\"}",
        ),
        8 => ("ann", "GET /units/U1/alarms/PT-101", ""),
        9 => ("bob", "GET /units/U1/alarms/LT-2", ""),
        10 => ("ann", "GET /units/U1/shelves", ""),
        _ => ("bob", "GET /units", ""),
    }
}

/// Adds a request. All are made at one moment.
fn add(
    rt: &impl Abort,
    alloc: Global,
    bytes: &mut Vec<u8>,
    request: (&'static str, &'static str, &'static str),
) {
    let (person, connection, body) = request;
    let length = body.len();
    let text = format!(in alloc;
        "{connection} HTTP/1.1\r\nX-Person: {person}\r\nX-Moment: 2026-03-01T09:00:00Z\r\nContent-Length: {length}\r\n\r\n{body}"
    ).expect(rt, "memory");
    bytes
        .extend_from_slice(text.as_bytes())
        .expect(rt, "memory");
}

/// The requests that open the unit.
fn opening_bytes(rt: &impl Abort, alloc: Global) -> Vec<u8> {
    let mut bytes = Vec::new(alloc);
    for number in 0..OPENING {
        add(rt, alloc, &mut bytes, opening(number));
    }
    bytes
}

/// A client that sends these bytes and reads all its answers.
fn client_of(bytes: Vec<u8>) -> Client {
    Client {
        bytes,
        manner: Manner::Ends,
        takes: usize::MAX,
    }
}

/// The random requests of one client: one to eight, the last first.
fn numbers_of(rt: &impl Abort, alloc: Global, seed: &mut u64) -> Vec<u64> {
    let mut numbers = Vec::new(alloc);
    let count = 1u64.saturating_add(next_number(seed) % 8);
    for _ in 0..count {
        numbers.push(next_number(seed)).expect(rt, "memory");
    }
    numbers
}

/// A client with these requests.
fn served_of(rt: &impl Abort, alloc: Global, numbers: &[u64]) -> Served {
    let mut bytes = Vec::new(alloc);
    for number in numbers.iter().rev() {
        add(rt, alloc, &mut bytes, shared(*number));
    }
    Served {
        client: client_of(bytes),
        at: 0,
        sent: Vec::new(alloc),
        end: None,
    }
}

/// Ports of clients with these requests; each sends and takes at most this many bytes at once.
fn recorded_of(
    rt: &impl Abort,
    alloc: Global,
    asked: &[Vec<u64>],
    seed: u64,
    most: u64,
) -> Recorded {
    let mut served = Vec::new(alloc);
    let mut left = Vec::new(alloc);
    for numbers in asked {
        served
            .push(served_of(rt, alloc, numbers))
            .expect(rt, "memory");
        left.push(0).expect(rt, "memory");
    }
    let script = Script {
        served,
        opened: 0,
        seed,
        most,
        turns: 0,
        most_open: 0,
    };
    Recorded {
        script,
        made: Vec::new(alloc),
        left,
    }
}

/// Serves all clients by this office.
fn serve(rt: &impl Abort, alloc: Global, ports: &mut Recorded, office: &mut Office<Plain>) {
    let plan = Plan {
        connections: ports.script.served.len() as u64,
        while_open: false,
    };
    let mut log = Vec::new(alloc);
    let mut errors = Vec::new(alloc);
    let over = serve_clients(alloc, ports, plan, office, &mut log, &mut errors);
    assert!(rt; over.is_ok());
}

/// The same requests in the order in which they were answered, after those that open the unit.
fn in_order(rt: &impl Abort, alloc: Global, asked: &mut Vec<Vec<u64>>, made: &[Made]) -> Vec<u8> {
    let mut bytes = opening_bytes(rt, alloc);
    for it in made {
        if let Some(numbers) = asked.get_mut(it.number as usize) {
            if let Some(number) = numbers.pop() {
                add(rt, alloc, &mut bytes, shared(number));
            }
        }
    }
    bytes
}

/// No client has a request left.
fn are_asked(rt: &impl Abort, asked: &[Vec<u64>], seed: u64) {
    for numbers in asked {
        assert!(rt; numbers.is_empty(), "script {seed}");
    }
}

/// Of these bytes, from a position on, the answers to the connection with this number.
fn answers_to(
    rt: &impl Abort,
    alloc: Global,
    bytes: &[u8],
    begin: usize,
    made: &[Made],
    number: u64,
) -> Vec<u8> {
    let mut answers = Vec::new(alloc);
    let mut at = begin;
    for it in made {
        let end = at.saturating_add(it.length);
        if it.number == number {
            let answer = bytes.get(at..end).expect(rt, "as many bytes");
            answers.extend_from_slice(answer).expect(rt, "memory");
        }
        at = end;
    }
    answers
}

/// How many bytes of answers there were.
fn length_of(made: &[Made]) -> usize {
    let mut length = 0usize;
    for it in made {
        length = length.saturating_add(it.length);
    }
    length
}

/// Each client was sent its part of these bytes, from a position on.
fn are_parts(
    rt: &impl Abort,
    alloc: Global,
    bytes: &[u8],
    begin: usize,
    ports: &Recorded,
    seed: u64,
) {
    let end = begin.saturating_add(length_of(&ports.made));
    assert_eq!(rt; end, bytes.len(), "script {seed}");
    let mut number = 0u64;
    for one in &ports.script.served {
        let answers = answers_to(rt, alloc, bytes, begin, &ports.made, number);
        assert!(rt; one.sent.as_slice() == answers.as_slice(), "script {seed}");
        number = number.saturating_add(1);
    }
}

/// The requests of each client of a script.
fn asked_of(rt: &impl Abort, alloc: Global, seed: &mut u64) -> Vec<Vec<u64>> {
    let mut asked = Vec::new(alloc);
    let clients = 2u64.saturating_add(next_number(seed) % 11);
    for _ in 0..clients {
        let numbers = numbers_of(rt, alloc, seed);
        asked.push(numbers).expect(rt, "memory");
    }
    asked
}

/// Opens the unit and serves all clients. Returns how many bytes the answers to the opening have.
fn serve_all(rt: &impl Abort, alloc: Global, ports: &mut Recorded) -> usize {
    let mut office = office_of(rt, alloc);
    let opening = client_of(opening_bytes(rt, alloc));
    let (opened, _) = session_by(alloc, &opening, &mut office);
    serve(rt, alloc, ports, &mut office);
    drop(office.into_books());
    opened.len()
}

/// One script.
fn try_order(rt: &impl Abort, alloc: Global, seed: u64) {
    let mut numbers = seed;
    let mut asked = asked_of(rt, alloc, &mut numbers);
    let most = if seed % 2 == 0 { 50 } else { 4096 };
    let mut ports = recorded_of(rt, alloc, &asked, next_number(&mut numbers), most);
    let begin = serve_all(rt, alloc, &mut ports);
    let all = client_of(in_order(rt, alloc, &mut asked, &ports.made));
    are_asked(rt, &asked, seed);
    let (bytes, _) = alone(rt, alloc, &all);
    are_parts(rt, alloc, &bytes, begin, &ports, seed);
}

/// These scripts, one after another.
fn try_orders(rt: &impl Abort, alloc: Global, seeds: Range<u64>) {
    for seed in seeds {
        try_order(rt, alloc, seed);
    }
}

#[test]
fn answers_all_as_one_session(rt: HostRuntime) {
    try_orders(&rt, rt.alloc(), 1000..1025);
}

#[test]
fn answers_all_as_one_session_again(rt: HostRuntime) {
    try_orders(&rt, rt.alloc(), 1025..1050);
}
