//! Many connections at once over real sockets. A client sends everything before it is served, so that clients and
//! office run in one thread.

use crate::sockets::{BEGUN, answers, client, exchanges, is_text, whole_client};
use plant_books::Plain;
use plant_office::Office;
use plant_server_clients::{Halted, Plan, serve_clients};
use plant_server_machine::Machine;
use plant_server_sockets::{Limits, Sockets};
use plant_tests_examples::{BASE, LOOKED_AT, SHELVED};
use plant_tests_sites::{after, lists};
use std::io::Write;
use std::net::{Shutdown, SocketAddr, TcpStream};
use std::process::Abort;
use std::time::Duration;

/// A port of this many places, and its address. Its clients may be silent for a second.
fn listening<'a>(
    stop: &impl Abort,
    rt: &'a HostRuntime,
    places: usize,
) -> (Sockets<'a>, SocketAddr) {
    let limits = Limits {
        connections: u64::MAX,
        clients: places,
        idle: Some(Duration::from_secs(1)),
    };
    let sockets = Sockets::listen(Machine::new(rt), 0, limits).expect(stop, "a port");
    let address = sockets.address().expect(stop, "an address");
    (sockets, address)
}

/// Lists of a unit with an alarm that is shelved.
fn shelved(rt: &(impl Abort + AllocGlobal)) -> Plain {
    let wanted = exchanges(rt, &[BASE, SHELVED]);
    let (requests, answers) = (wanted.requests.as_bytes(), wanted.answers.as_bytes());
    let before = lists(rt.alloc()).expect(rt, "lists");
    after(rt.alloc(), before, requests, answers).expect(rt, "lists")
}

/// Serves this many connections over these lists, and returns the log's lines.
fn log_of(
    rt: &HostRuntime,
    sockets: &mut Sockets<'_>,
    books: Plain,
    n: u64,
) -> (Vec<u8>, Result<(), Halted>) {
    let alloc = rt.alloc();
    let mut office = Office::new(alloc, books);
    let plan = Plan {
        connections: n,
        while_open: false,
    };
    let mut log = Vec::new(alloc);
    let mut errors = Vec::new(alloc);
    let outcome = serve_clients(alloc, sockets, plan, &mut office, &mut log, &mut errors);
    sockets.finish();
    drop(office.into_books());
    (log, outcome)
}

/// How many lines a text has.
fn count_of_lines(text: &[u8]) -> u32 {
    let mut lines = 0u32;
    for &byte in text {
        if byte == b'\n' {
            lines = lines.saturating_add(1);
        }
    }
    lines
}

/// Twenty clients at ten places, each of which sends its requests in two parts.
#[test]
fn answers_twenty_at_ten_places(rt: HostRuntime) {
    let asked = exchanges(&rt, &[LOOKED_AT]);
    let bytes = asked.requests.as_bytes();
    let (mut sockets, address) = listening(&rt, &rt, 10);
    let mut clients: Vec<TcpStream> = Vec::new(rt.alloc());
    for at in 0..20usize {
        let stream = client(&rt, &rt, address, &bytes[..at.min(bytes.len())]);
        clients.push(stream).expect(&rt, "memory");
    }
    for (at, stream) in clients.iter_mut().enumerate() {
        let rest = &bytes[at.min(bytes.len())..];
        stream.write_all(rest).expect(&rt, "a write");
        stream.shutdown(Shutdown::Write).expect(&rt, "an end");
    }
    let (log, outcome) = log_of(&rt, &mut sockets, shelved(&rt), 20);
    assert!(rt; outcome.is_ok());
    assert_eq!(rt; count_of_lines(&log), 20);
    for stream in clients {
        assert!(rt; answers(&rt, rt.alloc(), stream).as_slice() == asked.answers.as_bytes());
    }
}

/// A silent client holds no other up, and is given up after a second.
#[test]
fn serves_others_beside_a_silent_client(rt: HostRuntime) {
    let asked = exchanges(&rt, &[LOOKED_AT]);
    let (mut sockets, address) = listening(&rt, &rt, 2);
    let silent = client(&rt, &rt, address, BEGUN);
    let second = whole_client(&rt, &rt, address, asked.requests.as_bytes());
    let third = whole_client(&rt, &rt, address, asked.requests.as_bytes());
    let (log, outcome) = log_of(&rt, &mut sockets, shelved(&rt), 3);
    assert!(rt; outcome.is_ok());
    let lines = "connection 2 Closed\nconnection 3 Closed\nconnection 1 ReadFailed\n";
    assert!(rt; is_text(&log, lines));
    assert!(rt; answers(&rt, rt.alloc(), silent).is_empty());
    for stream in [second, third] {
        assert!(rt; answers(&rt, rt.alloc(), stream).as_slice() == asked.answers.as_bytes());
    }
}

/// A client that has sent nothing gives its place up to one that waits for it.
#[test]
fn closes_a_silent_client_for_one_that_waits(rt: HostRuntime) {
    let asked = exchanges(&rt, &[LOOKED_AT]);
    let (mut sockets, address) = listening(&rt, &rt, 1);
    let silent = client(&rt, &rt, address, b"");
    let next = whole_client(&rt, &rt, address, asked.requests.as_bytes());
    let (log, outcome) = log_of(&rt, &mut sockets, shelved(&rt), 2);
    assert!(rt; outcome.is_ok());
    assert!(rt; is_text(&log, "connection 1 ReadFailed\nconnection 2 Closed\n"));
    assert!(rt; answers(&rt, rt.alloc(), silent).is_empty());
    assert!(rt; answers(&rt, rt.alloc(), next).as_slice() == asked.answers.as_bytes());
}

/// A client whose bytes are not requests is answered with the cause, though it sends more than the office reads.
#[test]
fn answers_the_cause_beside_others(rt: HostRuntime) {
    let asked = exchanges(&rt, &[LOOKED_AT]);
    let (mut sockets, address) = listening(&rt, &rt, 2);
    let broken = whole_client(&rt, &rt, address, b"\0\x01 what is this\r\n\r\n");
    let next = whole_client(&rt, &rt, address, asked.requests.as_bytes());
    let (log, outcome) = log_of(&rt, &mut sockets, shelved(&rt), 2);
    assert!(rt; outcome.is_ok());
    assert!(rt; log.as_slice().starts_with(b"connection 1 BrokenInput\n"));
    assert!(rt; answers(&rt, rt.alloc(), broken).starts_with(b"HTTP/1.1 400 Bad Request\r\n"));
    assert!(rt; answers(&rt, rt.alloc(), next).as_slice() == asked.answers.as_bytes());
}
