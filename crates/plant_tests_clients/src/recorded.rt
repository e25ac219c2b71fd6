//! Random ports that record in which order the answers were made.

ghost use Rattle.std.specs.Prelude.{None};

use crate::scripts::Script;
use plant_server_clients::{Connection, Ports, Ready, Sent, Taken};
use plant_wire::End;

/// An answer: of which connection, and how many bytes.
#[derive(Clone, Copy, Debug)]
pub(crate) struct Made {
    pub(crate) number: u64,
    pub(crate) length: usize,
}

/// Random ports, and the answers in the order in which they were made. An answer is first offered whole, in the turn in
/// which it was made, and only once all of the one before was sent.
#[derive(Drop)]
pub(crate) struct Recorded {
    pub(crate) script: Script,
    pub(crate) made: Vec<Made>,
    /// How much of the last answer of each connection is still to be sent.
    pub(crate) left: Vec<usize>,
}

impl Recorded {
    /// Notes an answer that is offered for the first time.
    fn note(&mut self, number: u64, length: usize) {
        if let Some(left) = self.left.get_mut(number as usize) {
            if *left == 0 {
                *left = length;
                let _ = self.made.push(Made { number, length });
            }
        }
    }

    /// Notes that this many bytes of an answer were sent.
    fn note_left(&mut self, number: u64, n: usize) {
        if let Some(left) = self.left.get_mut(number as usize) {
            *left = left.saturating_sub(n);
        }
    }
}

impl Ports for Recorded {
    type Client = u64;

    ghost seen = { λ _. None };

    ghost number_of = { λ number. number };

    fn next(&mut self, connections: &[Connection], clients: &mut [u64], may_wait: bool) -> Ready {
        self.script.next(connections, clients, may_wait)
    }

    fn place(&self) -> usize {
        self.script.place()
    }

    fn accept(&mut self, number: u64) -> Option<u64> {
        self.script.accept(number)
    }

    fn put_off(&mut self, number: u64) {
        self.script.put_off(number);
    }

    fn take(&mut self, number: &mut u64, buf: &mut [u8]) -> Taken {
        self.script.take(number, buf)
    }

    fn put(&mut self, number: &mut u64, bytes: &[u8]) -> Sent {
        self.note(*number, bytes.len());
        let sent = self.script.put(number, bytes);
        if let Sent::Bytes(n) = sent {
            self.note_left(*number, n);
        }
        sent
    }

    fn close(&mut self, number: u64, end: End) {
        self.script.close(number, end);
    }

    fn take_back(&mut self, number: u64) {
        self.script.take_back(number);
    }
}
