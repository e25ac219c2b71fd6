//! One client's socket, with what is known of its readiness and its deadlines, and how it is closed so that the last
//! answer still arrives.

ghost use Rattle.std.specs.Prelude.{◌≡◌, None, ℕ};
ghost use Rattle.plant_server_clients.specs.PortSteps.{IsSent, IsTaken};

use mio::event::Event;
use mio::net::TcpStream;
use plant_server_clients::{Connection, Sent, Taken};
use plant_wire::{End, may_send};
use std::collections::VecDeque;
use std::io::{ErrorKind, Read, Write};
use std::net::Shutdown;

/// How many reads at most are made of what a client still sends after its last answer.
const LAST_READS: u32 = 256;

/// How many of these at most are made in one turn, before others have theirs.
const READS_A_TURN: u32 = 4;

/// The client of a connection that is open, or one that may still be sending after its last answer. Times are in
/// milliseconds since the port was opened.
#[derive(Drop)]
pub struct Client {
    stream: TcpStream,
    /// The connection's number.
    pub number: u64,
    /// When it will have been silent for too long.
    pub until: u64,
    /// When bytes of it were last read or written.
    pub last_bytes_ms: u64,
    /// When it was accepted, or its last answer was sent.
    pub since: u64,
    /// By when the request that is arriving must be whole, if there is one.
    pub whole: Option<u64>,
    /// Whether bytes, or its end, may wait to be read.
    pub readable: bool,
    /// Whether it was not read because too many bytes of requests are unread.
    pub crowded: bool,
    /// Whether nothing more will arrive than what is already waiting.
    closing: bool,
    /// Whether it may take bytes.
    writable: bool,
    /// Whether it is queued for its turn.
    pub queued: bool,
    /// How many more reads are made of what it still sends after its last answer.
    pub last_reads: u32,
}

impl Client {
    /// A connection that was just accepted.
    pub fn new(stream: TcpStream, number: u64, now: u64, until: u64) -> Client
        ensures { result.number ≡ number }
    {
        Client {
            stream,
            number,
            until,
            last_bytes_ms: now,
            since: now,
            whole: None,
            readable: false,
            crowded: false,
            closing: false,
            writable: false,
            queued: false,
            last_reads: LAST_READS,
        }
    }

    /// Puts it behind the others of this queue, unless it is queued already. If memory runs out, it stays out.
    pub fn queue(&mut self, queue: &mut VecDeque<u64>)
        ensures { self.new.number ≡ self.old.number }
    {
        if !self.queued {
            self.queued = queue.push_back(self.number).is_ok();
        }
    }

    /// Notes what the system reported of it, and puts it behind the others of this queue.
    pub fn note(&mut self, event: &Event, queue: &mut VecDeque<u64>)
        ensures { self.new.number ≡ self.old.number }
    {
        if event.is_read_closed() || event.is_error() {
            self.closing = true;
        }
        if event.is_readable() || event.is_read_closed() || event.is_error() {
            self.readable = true;
        }
        if event.is_writable() || event.is_write_closed() || event.is_error() {
            self.writable = true;
        }
        self.queue(queue);
    }

    /// Reads once, at most `most` bytes. If fewer were read than there is room for, nothing more is waiting.
    pub fn take(&mut self, buf: &mut [u8], most: usize) -> Taken
        ensures taken { (k : ℕ) → IsTaken None None k buf.new result }
        ensures same { self.new.number ≡ self.old.number }
    {
        let room = most.min(buf.len());
        match self.stream.read(&mut buf[..room]) {
            Ok(0) => Taken::Ended,
            Ok(n) => {
                if n < room && !self.closing {
                    self.readable = false;
                }
                Taken::Bytes(n)
            }
            Err(error) if error.kind() == ErrorKind::WouldBlock => {
                self.readable = false;
                Taken::Nothing
            }
            Err(error) if error.kind() == ErrorKind::Interrupted => Taken::Nothing,
            Err(_) => Taken::Failed,
        }
    }

    /// Writes once.
    pub fn put(&mut self, bytes: &[u8]) -> Sent
        ensures sent { (k : ℕ) → IsSent None None k bytes.now result }
        ensures same { self.new.number ≡ self.old.number }
    {
        match self.stream.write(bytes) {
            Ok(0) => Sent::Failed,
            Ok(n) => Sent::Bytes(n),
            Err(error) if error.kind() == ErrorKind::WouldBlock => {
                self.writable = false;
                Sent::Bytes(0)
            }
            Err(error) if error.kind() == ErrorKind::Interrupted => Sent::Bytes(0),
            Err(_) => Sent::Failed,
        }
    }

    /// Shuts down the sending side only, if the client may still be sending: closing a socket with unread bytes would
    /// break the connection, and the client might lose the answers that are on their way. Returns whether what it still
    /// sends is to be read, until it is quiet.
    pub fn linger(&mut self, end: End, quiet: u64) -> bool {
        if !may_send(end) || self.stream.shutdown(Shutdown::Write).is_err() {
            return false;
        }
        self.until = quiet;
        true
    }

    /// Reads some of what a client still sends after its last answer, and throws it away. Returns whether more may be
    /// waiting; if nothing more is to be read, `last_reads` is 0 afterwards.
    pub fn read_out(&mut self, scratch: &mut [u8], quiet: u64) -> bool {
        for _ in 0..READS_A_TURN {
            if self.last_reads == 0 {
                return false;
            }
            match self.stream.read(scratch) {
                Err(error) if error.kind() == ErrorKind::WouldBlock => {
                    self.readable = false;
                    return false;
                }
                Err(error) if error.kind() == ErrorKind::Interrupted => {}
                Ok(0) | Err(_) => {
                    self.last_reads = 0;
                    return false;
                }
                Ok(_) => {
                    self.last_reads -= 1;
                    self.until = quiet;
                }
            }
        }
        true
    }

    /// Moves all its times on by `passed` milliseconds.
    pub fn move_on(&mut self, passed: u64)
        ensures { self.new.number ≡ self.old.number }
    {
        self.until = self.until.saturating_add(passed);
        self.last_bytes_ms = self.last_bytes_ms.saturating_add(passed);
        self.since = self.since.saturating_add(passed);
        self.whole = match self.whole {
            Some(whole) => Some(whole.saturating_add(passed)),
            None => None,
        };
    }

    /// Whether what it still sends after its last answer is still to be read.
    pub fn is_read_out(&self, now: u64) -> bool {
        self.last_reads > 0 && now < self.until
    }

    /// Whether its connection has an answer to send and a write may succeed.
    pub fn may_write(&self, connection: &Connection) -> bool {
        self.writable && !connection.pending.text.is_empty()
    }
}

/// Whether the request that is arriving on a connection may be whole with `more` bytes more.
pub(crate) fn may_finish(connection: &Connection, more: usize) -> bool {
    connection.wanted <= connection.unread.len().saturating_add(more)
}
