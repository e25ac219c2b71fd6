//! The command over a port. It writes its lines to a writer that connects the clients at the first line, which has the
//! address of the port: so clients and office run in one thread.

use crate::sockets::is_text;
use plant_office::Office;
use plant_server::{HostNet, Port, command, serve_port};
use plant_server_machine::Machine;
use plant_server_options::Service;
use plant_tests_clients::Failing;
use plant_tests_examples::{BASE, Exchanges, LOOKED_AT, SHELVED, numbered};
use plant_tests_sites::root;
use plant_wire::{FromRead, ToWrite};
use std::alloc::Global;
use std::io;
use std::io::{Read, Write};
use std::net::{Ipv4Addr, Shutdown, SocketAddr, TcpStream};
use std::process::Abort;
use std::time::Duration;

/// What the command printed, and the clients of its port. Each has sent its whole stream; one with nothing to send is
/// silent.
#[derive(Drop)]
struct Clients<'a> {
    rt: &'a HostRuntime,
    port: u16,
    requests: &'a [&'a [u8]],
    said: Vec<u8>,
    streams: Vec<TcpStream>,
}

impl Clients<'_> {
    /// Connects a client that sends these bytes.
    fn connect(&mut self, bytes: &[u8]) -> io::Result<()> {
        let address = SocketAddr::from((Ipv4Addr::LOCALHOST, self.port));
        let mut stream = TcpStream::connect(self.rt, address)?;
        stream.set_read_timeout(Some(Duration::from_secs(60)))?;
        if !bytes.is_empty() {
            stream.write_all(bytes)?;
            stream.shutdown(Shutdown::Write)?;
        }
        match self.streams.push(stream) {
            Ok(()) => Ok(()),
            Err(_) => Err(io::Error::from(io::ErrorKind::OutOfMemory)),
        }
    }

    /// Connects all clients.
    fn connect_all(&mut self) -> io::Result<()> {
        for bytes in self.requests {
            self.connect(bytes)?;
        }
        Ok(())
    }
}

impl Write for Clients<'_> {
    fn write(&mut self, buf: &[u8]) -> io::Result<usize> {
        if self.said.extend_from_slice(buf).is_err() {
            return Err(io::Error::from(io::ErrorKind::OutOfMemory));
        }
        if self.streams.is_empty() {
            self.connect_all()?;
        }
        Ok(buf.len())
    }

    fn flush(&mut self) -> io::Result<()> {
        Ok(())
    }
}

/// The number of a port on which nothing listens.
fn free_port(stop: &impl Abort, rt: &HostRuntime) -> u16 {
    let port = Port::listen(&Machine::new(rt), 0, None).expect(stop, "a port");
    port.address().expect(stop, "an address").port()
}

/// Runs the command over this port with these further arguments and clients. Returns its status, the clients, and what
/// it wrote to standard error.
fn served<'a>(
    stop: &(impl Abort + AllocGlobal),
    rt: &'a HostRuntime,
    port: u16,
    further: &str,
    requests: &'a [&'a [u8]],
) -> (u8, Clients<'a>, Vec<u8>) {
    let alloc: Global = stop.alloc();
    let begin = "shelfoffice --admin root --port ";
    let line = numbered(alloc, begin, usize::from(port), further).expect(stop, "memory");
    let mut words = Vec::new(alloc);
    for word in line.as_str().split(' ') {
        words.push(word).expect(stop, "memory");
    }
    let mut clients = Clients {
        rt,
        port,
        requests,
        said: Vec::new(alloc),
        streams: Vec::new(alloc),
    };
    let mut errors = Vec::new(alloc);
    let nothing: &[u8] = b"";
    let mut input = FromRead::new(nothing);
    let mut output = ToWrite::new(&mut clients);
    let status = command(rt, words.as_slice(), &mut input, &mut output, &mut errors);
    drop(output);
    (status, clients, errors)
}

/// What the command prints for its port: where it listens, and then these lines.
fn log_over(stop: &(impl Abort + AllocGlobal), port: u16, lines: &str) -> String {
    let begin = "listening on 127.0.0.1:";
    numbered(stop.alloc(), begin, usize::from(port), lines).expect(stop, "memory")
}

/// What a client was answered.
fn answered(stop: &(impl Abort + AllocGlobal), stream: Option<&TcpStream>) -> Vec<u8> {
    let mut bytes = Vec::new(stop.alloc());
    let mut stream = stream.expect(stop, "a client");
    stream.read_to_end(&mut bytes).expect(stop, "a read");
    bytes
}

#[test]
fn serves_as_many_connections_as_its_words_say(rt: HostRuntime) {
    let opened = Exchanges::of(rt.alloc(), &[BASE]).expect(&rt, "exchanges");
    let shelved = Exchanges::of(rt.alloc(), &[SHELVED]).expect(&rt, "exchanges");
    let looked = Exchanges::of(rt.alloc(), &[LOOKED_AT]).expect(&rt, "exchanges");
    let all = [&opened, &shelved, &looked];
    let requests = all.map(|it| it.requests.as_bytes());
    let port = free_port(&rt, &rt);
    let (status, clients, errors) = served(&rt, &rt, port, " --connections 3", &requests);
    assert_eq!(rt; status, 0);
    assert!(rt; errors.is_empty());
    let lines = "\nconnection 1 Closed\nconnection 2 Closed\nconnection 3 Closed\n";
    assert!(rt; is_text(&clients.said, log_over(&rt, port, lines).as_str()));
    for (at, wanted) in all.iter().enumerate() {
        let found = answered(&rt, clients.streams.get(at));
        assert!(rt; found.as_slice() == wanted.answers.as_bytes());
    }
}

#[test]
fn gives_a_silent_client_up_after_the_time_that_its_words_say(rt: HostRuntime) {
    let opened = Exchanges::of(rt.alloc(), &[BASE]).expect(&rt, "exchanges");
    let requests: [&[u8]; 2] = [b"", opened.requests.as_bytes()];
    let port = free_port(&rt, &rt);
    let further = " --connections 2 --idle 1";
    let (status, clients, errors) = served(&rt, &rt, port, further, &requests);
    assert_eq!(rt; status, 0);
    assert!(rt; errors.is_empty());
    let lines = "\nconnection 1 ReadFailed\nconnection 2 Closed\n";
    assert!(rt; is_text(&clients.said, log_over(&rt, port, lines).as_str()));
    assert!(rt; answered(&rt, clients.streams.get(0)).is_empty());
    let found = answered(&rt, clients.streams.get(1));
    assert!(rt; found.as_slice() == opened.answers.as_bytes());
}

/// With two at once, a silent client holds nobody up.
#[test]
fn serves_as_many_clients_at_once_as_its_words_say(rt: HostRuntime) {
    let opened = Exchanges::of(rt.alloc(), &[BASE]).expect(&rt, "exchanges");
    let requests: [&[u8]; 2] = [b"", opened.requests.as_bytes()];
    let port = free_port(&rt, &rt);
    let further = " --connections 2 --clients 2 --idle 1";
    let (status, clients, errors) = served(&rt, &rt, port, further, &requests);
    assert_eq!(rt; status, 0);
    assert!(rt; errors.is_empty());
    let lines = "\nconnection 2 Closed\nconnection 1 ReadFailed\n";
    assert!(rt; is_text(&clients.said, log_over(&rt, port, lines).as_str()));
    assert!(rt; answered(&rt, clients.streams.get(0)).is_empty());
    let found = answered(&rt, clients.streams.get(1));
    assert!(rt; found.as_slice() == opened.answers.as_bytes());
}

/// Asks for three lists of units.
const LISTS: &[u8] =
    b"GET /units HTTP/1.1\r\nX-Person: ann\r\nX-Moment: 2026-03-01T08:00:00Z\r\n\r\nGET /units HTTP/1.1\r\nX-Person: ann\r\nX-Moment: 2026-03-01T08:00:00Z\r\n\r\nGET /units HTTP/1.1\r\nX-Person: ann\r\nX-Moment: 2026-03-01T08:00:00Z\r\n\r\n";

/// The answers to the first two, if the store shuts at the second.
const ONE_LIST: &[u8] =
    b"HTTP/1.1 200 OK\r\nContent-Type: application/json\r\nContent-Length: 12\r\n\r\n{\"units\":[]}HTTP/1.1 503 Service Unavailable\r\nContent-Type: application/json\r\nContent-Length: 17\r\n\r\n{\"fault\":\"Store\"}";

/// A service without an end, of this many clients at once, over books whose store shuts at the second list of units:
/// its status, its clients, and what it wrote to standard error.
fn served_until_shut<'a>(
    stop: &(impl Abort + AllocGlobal),
    rt: &'a HostRuntime,
    port: u16,
    at_once: u64,
    requests: &'a [&'a [u8]],
) -> (u8, Clients<'a>, Vec<u8>) {
    let alloc: Global = stop.alloc();
    let books = Failing::new(alloc, root(alloc).expect(stop, "a person"), 1);
    let mut office = Office::new(alloc, books);
    let service = Service {
        port,
        connections: u64::MAX,
        clients: at_once,
        idle: Some(1),
        while_open: true,
    };
    let mut clients = Clients {
        rt,
        port,
        requests,
        said: Vec::new(alloc),
        streams: Vec::new(alloc),
    };
    let mut errors = Vec::new(alloc);
    let mut net = HostNet::new(Machine::new(rt));
    let status = serve_port(
        alloc,
        &mut net,
        &mut office,
        service,
        &mut clients,
        &mut errors,
    );
    drop(office.into_books());
    (status.code(), clients, errors)
}

/// The fault reaches its client, and a silent one holds nobody up.
#[test]
fn ends_by_itself_once_its_store_has_shut(rt: HostRuntime) {
    let requests: [&[u8]; 2] = [b"", LISTS];
    let port = free_port(&rt, &rt);
    let (status, clients, errors) = served_until_shut(&rt, &rt, port, 2, &requests);
    assert_eq!(rt; status, 3);
    assert!(rt; is_text(&errors, "fault: Store\nstore: fault\n"));
    assert!(rt; is_text(&clients.said, log_over(&rt, port, "\n").as_str()));
    assert!(rt; answered(&rt, clients.streams.get(0)).is_empty());
    assert!(rt; answered(&rt, clients.streams.get(1)).as_slice() == ONE_LIST);
}

/// With one client at once it serves the connection to its end.
#[test]
fn ends_behind_the_connection_in_which_its_store_has_shut(rt: HostRuntime) {
    let requests: [&[u8]; 2] = [b"", LISTS];
    let port = free_port(&rt, &rt);
    let (status, clients, errors) = served_until_shut(&rt, &rt, port, 1, &requests);
    assert_eq!(rt; status, 3);
    assert!(rt; is_text(&errors, "fault: Store\nstore: fault\n"));
    let lines = "\nconnection 1 ReadFailed\nconnection 2 Closed\n";
    assert!(rt; is_text(&clients.said, log_over(&rt, port, lines).as_str()));
    assert!(rt; answered(&rt, clients.streams.get(1)).starts_with(ONE_LIST));
}
