//! Random ports in memory: which connection is ready next, and how many bytes it gives or takes.

ghost use Rattle.std.specs.Prelude.{None};

use crate::clients::{Client, Manner, next_number};
use crate::sessions::portion;
use plant_server_clients::{Connection, Ports, Ready, Sent, Taken};
use plant_wire::End;

/// After this many turns the ports fail, so that a test ends.
const TURNS: u64 = 200_000;

/// A client whose connection is served.
#[derive(Drop)]
pub(crate) struct Served {
    pub(crate) client: Client,
    pub(crate) at: usize,
    pub(crate) sent: Vec<u8>,
    pub(crate) end: Option<End>,
}

impl Served {
    /// Whether its client has fallen silent.
    fn is_silent(&self) -> bool {
        self.client.manner == Manner::Waits && self.at >= self.client.bytes.len()
    }
}

/// Whether the connection with this number is open, and all its answers were sent.
fn has_all(connections: &[Connection], number: u64) -> bool {
    for connection in connections {
        if connection.number == number {
            return connection.pending.text.is_empty();
        }
    }
    false
}

/// Random ports.
#[derive(Drop)]
pub(crate) struct Script {
    pub(crate) served: Vec<Served>,
    pub(crate) opened: u64,
    pub(crate) seed: u64,
    pub(crate) most: u64,
    pub(crate) turns: u64,
    /// How many were open at once at most.
    pub(crate) most_open: usize,
}

impl Script {
    /// A random number of bytes, at most this many.
    fn count(&mut self) -> usize {
        let most = self.most.max(1);
        1usize.saturating_add((next_number(&mut self.seed) % most) as usize)
    }
}

impl Ports for Script {
    type Client = u64;

    ghost seen = { λ _. None };

    ghost number_of = { λ number. number };

    fn next(&mut self, connections: &[Connection], _clients: &mut [u64], _may_wait: bool) -> Ready {
        self.most_open = self.most_open.max(connections.len());
        self.turns = self.turns.saturating_add(1);
        if self.turns > TURNS {
            return Ready::Failed;
        }
        if self.opened < self.served.len() as u64 && next_number(&mut self.seed) % 4 == 0 {
            return Ready::Came;
        }
        let number = next_number(&mut self.seed) % self.opened.max(1);
        match next_number(&mut self.seed) % 8 {
            0 => Ready::Nothing,
            1 | 2 => Ready::Writable(number),
            3 => match self.served.get(number as usize) {
                Some(one) if one.is_silent() && has_all(connections, number) => Ready::Expired(
                    number,
                ),
                _ => Ready::Nothing,
            },
            _ => Ready::Readable(number),
        }
    }

    fn place(&self) -> usize {
        0
    }

    fn accept(&mut self, number: u64) -> Option<u64> {
        self.opened = number.saturating_add(1);
        Some(number)
    }

    fn put_off(&mut self, _number: u64) {}

    fn take(&mut self, number: &mut u64, buf: &mut [u8]) -> Taken {
        let most = self.count();
        let Some(one) = self.served.get_mut(*number as usize) else {
            return Taken::Failed;
        };
        let n = portion(&one.client.bytes, one.at, most, buf);
        one.at = one.at.saturating_add(n);
        if n > 0 {
            return Taken::Bytes(n);
        }
        match one.client.manner {
            Manner::Ends => Taken::Ended,
            Manner::Breaks => Taken::Failed,
            Manner::Waits => Taken::Nothing,
        }
    }

    fn put(&mut self, number: &mut u64, bytes: &[u8]) -> Sent {
        let most = self.count();
        let Some(one) = self.served.get_mut(*number as usize) else {
            return Sent::Failed;
        };
        let left = one.client.takes.saturating_sub(one.sent.len());
        if left == 0 {
            return Sent::Failed;
        }
        let n = bytes.len().min(left).min(most);
        if one.sent.extend_from_slice(&bytes[..n]).is_err() {
            return Sent::Failed;
        }
        Sent::Bytes(n)
    }

    fn close(&mut self, number: u64, end: End) {
        if let Some(one) = self.served.get_mut(number as usize) {
            one.end = Some(end);
        }
    }

    fn take_back(&mut self, _number: u64) {}
}
