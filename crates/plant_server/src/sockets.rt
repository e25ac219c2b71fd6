//! The port of a service of one connection after the other, with blocking sockets and, if given, a limit of silence.

ghost use Rattle.std.specs.Prelude.{false, if◌then◌else◌};
ghost use Rattle.plant_server_listener.specs.Connections.{unseen};

use plant_server_listener::Listener;
use plant_server_machine::Machine;
use plant_wire::{Failed, FromRead, ToWrite};
use std::io;
use std::io::{ErrorKind, Read};
use std::net::{Shutdown, SocketAddr, TcpListener, TcpStream};
use std::time::Duration;

/// How many connections in a row may fail, before they can be served, until the port counts as failed.
const ATTEMPTS: u32 = 100;

/// How many reads at most are made of what a client still sends after its last answer.
const LAST_READS: u32 = 256;

/// How long each of these reads waits at most, in seconds.
const LAST_WAIT: u64 = 1;

/// The size of the buffer of these reads, in bytes.
const LAST_ROOM: usize = 65536;

/// Reads what is still sent and throws it away, until it ends, a read fails or waits too long, or `LAST_READS` were
/// made.
fn read_out(reader: &mut impl Read) {
    let mut chunk = [0u8; LAST_ROOM];
    for _ in 0..LAST_READS {
        match reader.read(&mut chunk) {
            Err(error) if error.kind() == ErrorKind::Interrupted => {}
            Ok(0) | Err(_) => return,
            Ok(_) => {}
        }
    }
}

/// Shuts down the sending side only, and reads what the client still sends.
fn linger(mut stream: TcpStream) {
    let wait = Some(Duration::from_secs(LAST_WAIT));
    if stream.shutdown(Shutdown::Write).is_ok() && stream.set_read_timeout(wait).is_ok() {
        read_out(&mut stream);
    }
}

/// A listening port of 127.0.0.1. Its connections send without delay, and a read or a write fails after `idle`, if
/// given.
#[derive(Drop)]
pub struct Port {
    listener: TcpListener,
    idle: Option<Duration>,
    pub(crate) accepted: u64,
    pub(crate) failed: bool,
}

impl Port {
    /// Listens on the port with this number, or on a free one for 0.
    pub fn listen(
        machine: &Machine<'_>,
        number: u16,
        idle: Option<Duration>,
    ) -> Result<Port, Failed> {
        match machine.listen(number) {
            Ok(listener) => Ok(Port {
                listener,
                idle,
                accepted: 0,
                failed: false,
            }),
            Err(_) => Err(Failed),
        }
    }

    /// The address that clients connect to.
    pub fn address(&self) -> Result<SocketAddr, Failed> {
        self.listener.local_addr().map_err(|_| Failed)
    }

    /// The next connection, as its two directions.
    fn accept_one(&self) -> io::Result<(TcpStream, TcpStream)> {
        let (stream, _) = self.listener.accept()?;
        stream.set_nodelay(true)?;
        stream.set_read_timeout(self.idle)?;
        stream.set_write_timeout(self.idle)?;
        let other = stream.try_clone()?;
        Ok((stream, other))
    }

    /// The next connection that can be served. Those that fail before are skipped, as when the client has already gone;
    /// if a hundred in a row fail, so does this.
    fn next_streams(&self) -> io::Result<(TcpStream, TcpStream)> {
        for _ in 1..ATTEMPTS {
            if let Ok(streams) = self.accept_one() {
                return Ok(streams);
            }
        }
        self.accept_one()
    }
}

impl Listener for Port {
    type Requests = FromRead<TcpStream>;

    type Answers = ToWrite<TcpStream>;

    ghost accepted = { λ s. s.accepted };

    ghost failures = { λ s. if s.failed then 1 else 0 };

    ghost is_seen = { λ _. false };

    ghost traffic = { λ _. unseen };

    fn accept(&mut self) -> Result<(FromRead<TcpStream>, ToWrite<TcpStream>), Failed> {
        if self.failed || self.accepted == u64::MAX {
            self.failed = true;
            return Err(Failed);
        }
        match self.next_streams() {
            Ok((requests, answers)) => {
                self.accepted += 1;
                Ok((FromRead::new(requests), ToWrite::new(answers)))
            }
            Err(_) => {
                self.failed = true;
                Err(Failed)
            }
        }
    }

    /// If it lingers, only the sending side is shut down, and what the client still sends is read: closing a socket
    /// with unread bytes would break the connection, and the client might lose the answers that are on their way.
    fn close(
        &mut self,
        requests: FromRead<TcpStream>,
        _answers: ToWrite<TcpStream>,
        lingers: bool,
    ) {
        if lingers {
            linger(requests.into_reader());
        }
    }
}
