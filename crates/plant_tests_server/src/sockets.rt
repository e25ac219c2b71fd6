//! Connections over real sockets. A client sends its whole stream and closes its sending side before it is served, so
//! that client and office run in one thread.

use plant_books::Plain;
use plant_office::{Books, Office};
use plant_server::{Port, serve_connections};
use plant_server_machine::Machine;
use plant_tests_examples::{BASE, Exchanges, LOOKED_AT, SHELVED, add_request, numbered, push_all};
use plant_tests_sites::{after, lists, tables};
use plant_wire::Failed;
use std::alloc::Global;
use std::io::{Read, Write};
use std::net::{Shutdown, SocketAddr, TcpStream};
use std::process::Abort;
use std::time::Duration;

pub(crate) fn is_text(bytes: &Vec<u8>, text: &str) -> bool {
    bytes.as_slice() == text.as_bytes()
}

/// The exchanges of these texts.
pub(crate) fn exchanges(rt: &(impl Abort + AllocGlobal), texts: &[&str]) -> Exchanges {
    Exchanges::of(rt.alloc(), texts).expect(rt, "exchanges")
}

/// A port that listens on a free number, and its address.
fn listening(stop: &impl Abort, rt: &HostRuntime, idle: Option<Duration>) -> (Port, SocketAddr) {
    let port = Port::listen(&Machine::new(rt), 0, idle).expect(stop, "a port");
    let address = port.address().expect(stop, "an address");
    (port, address)
}

/// A client that has sent these bytes.
pub(crate) fn client(
    stop: &impl Abort,
    rt: &HostRuntime,
    address: SocketAddr,
    bytes: &[u8],
) -> TcpStream {
    let mut stream = TcpStream::connect(rt, address).expect(stop, "a connection");
    let patience = Some(Duration::from_secs(60));
    stream.set_write_timeout(patience).expect(stop, "a limit");
    stream.set_read_timeout(patience).expect(stop, "a limit");
    stream.write_all(bytes).expect(stop, "a write");
    stream
}

/// A client that has sent these bytes and sends no more.
pub(crate) fn whole_client(
    stop: &impl Abort,
    rt: &HostRuntime,
    address: SocketAddr,
    bytes: &[u8],
) -> TcpStream {
    let stream = client(stop, rt, address, bytes);
    stream.shutdown(Shutdown::Write).expect(stop, "an end");
    stream
}

/// What a client was answered.
pub(crate) fn answers(stop: &impl Abort, alloc: Global, mut stream: TcpStream) -> Vec<u8> {
    let mut bytes = Vec::new(alloc);
    stream.read_to_end(&mut bytes).expect(stop, "a read");
    bytes
}

/// Serves this many connections over these books. Returns the answers and the log's lines.
fn log_of<B: Books + Drop>(
    rt: &HostRuntime,
    port: &mut Port,
    books: B,
    n: u64,
) -> (Vec<u8>, Result<(), Failed>) {
    let alloc = rt.alloc();
    let mut office = Office::new(alloc, books);
    let mut log = Vec::new(alloc);
    let outcome = serve_connections(alloc, port, n, &mut office, &mut log);
    drop(office.into_books());
    (log, outcome)
}

#[test]
fn answers_the_first_shelf_over_a_socket(rt: HostRuntime) {
    let wanted = exchanges(&rt, &[BASE, SHELVED, LOOKED_AT]);
    let (mut port, address) = listening(&rt, &rt, None);
    let stream = whole_client(&rt, &rt, address, wanted.requests.as_bytes());
    let (log, outcome) = log_of(&rt, &mut port, tables(rt.alloc()).expect(&rt, "tables"), 1);
    assert!(rt; outcome.is_ok());
    assert!(rt; is_text(&log, "connection 1 Closed\n"));
    let answered = answers(&rt, rt.alloc(), stream);
    assert_eq!(rt; answered.len(), 1568);
    assert!(rt; answered.as_slice() == wanted.answers.as_bytes());
}

/// The beginning of a request.
pub(crate) const BEGUN: &[u8] =
    b"POST /units/U1/alarms/PT-101/timed-shelve HTTP/1.1\r\nX-Person: ann\r\n";

#[test]
fn serves_three_though_the_second_hangs_up(rt: HostRuntime) {
    let opened = exchanges(&rt, &[BASE]);
    let shelved = exchanges(&rt, &[SHELVED, LOOKED_AT]);
    let (mut port, address) = listening(&rt, &rt, None);
    let first = whole_client(&rt, &rt, address, opened.requests.as_bytes());
    let second = client(&rt, &rt, address, BEGUN);
    drop(second);
    let third = whole_client(&rt, &rt, address, shelved.requests.as_bytes());
    let (log, outcome) = log_of(&rt, &mut port, lists(rt.alloc()).expect(&rt, "lists"), 3);
    assert!(rt; outcome.is_ok());
    let lines = "connection 1 Closed\nconnection 2 BrokenInput\nconnection 3 Closed\n";
    assert!(rt; is_text(&log, lines));
    assert!(rt; answers(&rt, rt.alloc(), first).as_slice() == opened.answers.as_bytes());
    assert!(rt; answers(&rt, rt.alloc(), third).as_slice() == shelved.answers.as_bytes());
}

/// The answer to a body that is too long.
const TOO_LONG: &str =
    "HTTP/1.1 400 Bad Request\r\nContent-Type: application/json\r\nContent-Length: 37\r\n\r\n{\"cause\":\"BodyTooLong\",\"malformed\":4}";

/// The answer to a body that is sent in chunks.
const CHUNKED: &str =
    "HTTP/1.1 501 Not Implemented\r\nContent-Type: application/json\r\nContent-Length: 33\r\n\r\n{\"cause\":\"Chunked\",\"malformed\":5}";

/// A client that sends more than the office reads gets the cause.
#[test]
fn answers_a_client_that_sends_too_much(rt: HostRuntime) {
    let alloc = rt.alloc();
    let opened = exchanges(&rt, &[BASE]);
    for (head, cause) in [
        ("Content-Length: 2000000", TOO_LONG),
        ("Transfer-Encoding: chunked", CHUNKED),
    ] {
        let mut request = String::new(alloc);
        push_all(
            &mut request,
            &["POST /units/U1 HTTP/1.1\r\n", head, "\r\n\r\n"],
        )
        .expect(&rt, "memory");
        let body = vec![in alloc; b'x'; 70_000].expect(&rt, "memory");
        let (mut port, address) = listening(&rt, &rt, None);
        let mut stream = client(&rt, &rt, address, request.as_bytes());
        stream.write_all(body.as_slice()).expect(&rt, "a write");
        stream.shutdown(Shutdown::Write).expect(&rt, "an end");
        let next = whole_client(&rt, &rt, address, opened.requests.as_bytes());
        let (log, outcome) = log_of(&rt, &mut port, lists(alloc).expect(&rt, "lists"), 2);
        assert!(rt; outcome.is_ok());
        assert!(rt; is_text(&log, "connection 1 BrokenInput\nconnection 2 Closed\n"));
        assert!(rt; is_text(&answers(&rt, alloc, stream), cause), "{head}");
        assert!(rt; answers(&rt, alloc, next).as_slice() == opened.answers.as_bytes());
    }
}

/// A client that is silent after these bytes is given up, and the next one served.
fn is_given_up(stop: &(impl Abort + AllocGlobal), rt: &HostRuntime, bytes: &[u8]) {
    let alloc = rt.alloc();
    let opened = exchanges(stop, &[BASE]);
    let (mut port, address) = listening(stop, rt, Some(Duration::from_secs(1)));
    let silent = client(stop, rt, address, bytes);
    let next = whole_client(stop, rt, address, opened.requests.as_bytes());
    let (log, outcome) = log_of(rt, &mut port, lists(alloc).expect(stop, "lists"), 2);
    assert!(stop; outcome.is_ok());
    assert!(stop; is_text(&log, "connection 1 ReadFailed\nconnection 2 Closed\n"));
    assert!(stop; answers(stop, alloc, silent).is_empty());
    assert!(stop; answers(stop, alloc, next).as_slice() == opened.answers.as_bytes());
}

#[test]
fn gives_a_silent_client_up(rt: HostRuntime) {
    is_given_up(&rt, &rt, b"");
    is_given_up(&rt, &rt, BEGUN);
}

/// Lists of a unit with 402 alarms.
fn alarms(rt: &(impl Abort + AllocGlobal)) -> Plain {
    let mut wanted = exchanges(rt, &[BASE]);
    for number in 100..500usize {
        let before = "eve 09:00:00 POST /units/U1/alarms {\"tag\":\"TT-";
        let behind = "\",\"latching\":false,\"max\":3600}\n200 {\"done\":true}";
        let exchange = numbered(rt.alloc(), before, number, behind).expect(rt, "memory");
        wanted.add(&exchange).expect(rt, "an exchange");
    }
    let (requests, answers) = (wanted.requests.as_bytes(), wanted.answers.as_bytes());
    after(
        rt.alloc(),
        lists(rt.alloc()).expect(rt, "lists"),
        requests,
        answers,
    )
    .expect(rt, "lists")
}

/// A client that asks for some 21 megabytes of answers, more than the buffers of both sockets hold, and takes none is
/// given up, and the next one served.
#[test]
fn gives_up_a_client_that_takes_no_answer(rt: HostRuntime) {
    let mut requests = String::new(rt.alloc());
    for _ in 0..1000u32 {
        let line = "vic 10:00:00 GET /units/U1/alarms";
        add_request(&mut requests, line, "").expect(&rt, "a request");
    }
    let asked = exchanges(&rt, &[SHELVED, LOOKED_AT]);
    let (mut port, address) = listening(&rt, &rt, Some(Duration::from_secs(1)));
    let greedy = whole_client(&rt, &rt, address, requests.as_bytes());
    let next = whole_client(&rt, &rt, address, asked.requests.as_bytes());
    let (log, outcome) = log_of(&rt, &mut port, alarms(&rt), 2);
    assert!(rt; outcome.is_ok());
    assert!(rt; is_text(&log, "connection 1 WriteFailed\nconnection 2 Closed\n"));
    assert!(rt; answers(&rt, rt.alloc(), next).as_slice() == asked.answers.as_bytes());
    drop(greedy);
}
