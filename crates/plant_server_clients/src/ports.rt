//! The trait between the service and its sockets: what is ready next, and how to accept, read, write and close. The
//! service's proof rests on what the trait claims.

ghost use Rattle.std.specs.Prelude.{◌≡◌, ◌≢◌, ◌≤◌, [], ◌∷◌, length, true, take as first, ℕ, List, map, IfSome, Option, is_some, if◌then◌else◌};
ghost use Rattle.plant_wire.specs.Limits.{least_room};
ghost use Rattle.plant_server_clients.specs.Events.{Event, Logs, accepting, closed, failed, opened, reported};
ghost use Rattle.plant_server_clients.specs.{Paces.{numbers}, PortSteps.{IsTaken, IsSent}, Prompt.{ArePrompt}};

use crate::connections::Connection;
use plant_wire::End;

/// What can be done next.
#[derive(Clone, Copy, Debug)]
pub enum Ready {
    /// A connection waits to be accepted.
    Came,
    /// The connection with this number may have bytes to read, or its end.
    Readable(u64),
    /// The connection with this number may take bytes.
    Writable(u64),
    /// The connection with this number is to be given up: it was silent too long, or took nothing of its answer for too
    /// long.
    Expired(u64),
    /// Nothing.
    Nothing,
    /// Waiting for events has failed.
    Failed,
}

/// How a read went.
#[derive(Clone, Copy, Debug)]
pub enum Taken {
    Bytes(usize),
    Nothing,
    Ended,
    Failed,
}

/// How a write went.
#[derive(Clone, Copy, Debug)]
pub enum Sent {
    Bytes(usize),
    Failed,
}

/// The connections of a port.
pub trait Ports {
    /// What the ports keep of an open connection. The service has it beside the connection, and lends it.
    type Client: Drop;

    /// What happened at them, in order, or `None`, which claims nothing.
    ghost seen: { Self → Option (List Event) };

    /// The number of a client's connection.
    ghost number_of: { Self.Client → ℕ };

    /// What can be done next. It blocks only if `may_wait`, which requires that no connection has a request that can be
    /// answered now.
    fn next(
        &mut self,
        connections: &[Connection],
        clients: &mut [Self::Client],
        may_wait: bool,
    ) -> Ready
        requires prompt { may_wait ≡ true → ArePrompt connections.now }
        requires aligned { map number_of clients.old ≡ numbers connections.now }
        ensures logged { Logs (seen self.old) (seen self.new) (reported result ∷ []) }
        ensures same { map number_of clients.new ≡ map number_of clients.old };

    /// The index at which the service looks first for the connection that was reported last. It searches if another is
    /// there.
    fn place(&self) -> usize;

    /// Accepts a connection and gives it this number. Returns `None` if that fails.
    fn accept(&mut self, number: u64) -> Option<Self::Client>
        ensures logged { Logs (seen self.old) (seen self.new)
            ((if is_some result then opened number else failed number accepting) ∷ []) }
        ensures numbered { IfSome result (λ client. number_of client ≡ number) };

    /// Leaves the connection that waits to be accepted, which would get this number: memory for it ran out.
    fn put_off(&mut self, number: u64)
        ensures { Logs (seen self.old) (seen self.new) (failed number accepting ∷ []) };

    /// Reads what has arrived on a connection to the front of `buf`, which has at least 4,096 bytes.
    fn take(&mut self, client: &mut Self::Client, buf: &mut [u8]) -> Taken
        requires { least_room ≤ length buf.old }
        ensures taken { IsTaken (seen self.old) (seen self.new) (number_of client.old) buf.new result }
        ensures same { number_of client.new ≡ number_of client.old };

    /// Sends some of these bytes, from the front, as many as the connection takes.
    fn put(&mut self, client: &mut Self::Client, bytes: &[u8]) -> Sent
        requires some { bytes.now ≢ [] }
        ensures sent { IsSent (seen self.old) (seen self.new) (number_of client.old) bytes.now result }
        ensures same { number_of client.new ≡ number_of client.old };

    /// Closes a connection that ended in this way. What it was sent must still reach its client, even if the client is
    /// still sending.
    fn close(&mut self, client: Self::Client, end: End)
        ensures { Logs (seen self.old) (seen self.new) (closed (number_of client) end ∷ []) };

    /// Takes back the client of a connection that is still open when the service halts. What it was sent must still reach
    /// it.
    fn take_back(&mut self, client: Self::Client)
        ensures { seen self.new ≡ seen self.old };
}
