//! The net that a port is served over: it listens, lends its connections, and takes them back. The command is generic over
//! it, so that its contract can name what came and went over the port.

ghost use Rattle.std.specs.Prelude.{◌≡◌, None, ◌*◌, OnErr, OnOk, IfOk, true, false, if◌then◌else◌, option_map};
ghost use Rattle.std.specs.Duration.{as_nanos};
ghost use Rattle.plant_server_listener.specs.Connections.{unseen};
ghost use Rattle.plant_server.specs.Nets.{IsAsAsked, NetState, lent, refused, shown};

use crate::sockets::Port;
use plant_server_clients::Ports;
use plant_server_listener::Listener;
use plant_server_machine::Machine;
use plant_server_options::Service;
use plant_server_sockets::{Limits, Sockets};
use plant_wire::Failed;
use std::time::Duration;

/// Where a net listens, since it was asked to last.
#[derive(Clone, Copy, Debug)]
pub enum Standing {
    /// It was never asked to.
    Nowhere,
    /// That was refused.
    Refused,
    /// For this service, at the port of 127.0.0.1 with this number.
    Listens(Service, u16),
}

/// What listens on a port of 127.0.0.1, and has connections.
pub trait Net {
    /// Connections that come one after the other.
    type Turns: Listener + Drop;

    /// Connections that are served many at once.
    type Clients: Ports + Drop;

    /// What it shows.
    ghost state: { Self → NetState };

    /// Listens for a service of one connection after the other, with its limit of silence, and lends the connections.
    /// Returns the port's number too. The connections are counted on from those before. While any are lent, it refuses.
    fn listen_in_turn(&mut self, service: Service) -> Result<(u16, Self::Turns), Failed>
        ensures free { OnOk result ((state self.old).is_lent ≡ false) }
        ensures listens { IfOk result (λ it. state self.new ≡ lent service it.0 (state self.old)) }
        ensures asked { IfOk result (λ it. IsAsAsked service.port it.0) }
        ensures seen { IfOk result (λ it. Self.Turns.is_seen it.1 ≡ (state self.old).turns.is_seen) }
        ensures counted { IfOk result (λ it. Self.Turns.accepted it.1 ≡ (state self.old).turns.accepted) }
        ensures shown { IfOk result (λ it. Self.Turns.traffic it.1 ≡ (state self.old).turns.traffic) }
        ensures refuses { OnErr result (state self.new ≡ refused (state self.old)) };

    /// Takes these connections back, and listens no longer.
    fn end_in_turn(&mut self, turns: Self::Turns)
        ensures { state self.new ≡ record (state self.old) {
          is_lent = false;
          turns = shown (Self.Turns.is_seen turns) (Self.Turns.accepted turns) (Self.Turns.failures turns)
              (Self.Turns.traffic turns);
        } };

    /// The same for a service of many connections at once, with its limits.
    fn listen_at_once(&mut self, service: Service) -> Result<(u16, Self::Clients), Failed>
        ensures free { OnOk result ((state self.old).is_lent ≡ false) }
        ensures listens { IfOk result (λ it. state self.new ≡ lent service it.0 (state self.old)) }
        ensures asked { IfOk result (λ it. IsAsAsked service.port it.0) }
        ensures seen { IfOk result (λ it. Self.Clients.seen it.1 ≡ (state self.old).log) }
        ensures refuses { OnErr result (state self.new ≡ refused (state self.old)) };

    /// Takes these connections back, and listens no longer. What their clients were sent must still reach them.
    fn end_at_once(&mut self, clients: Self::Clients)
        ensures { state self.new ≡ record (state self.old) { is_lent = false; log = Self.Clients.seen clients } };
}

/// How long a client may be silent.
fn idle_time(service: Service) -> Option<Duration>
    ensures { option_map as_nanos result ≡ option_map (λ s. s * 1_000_000_000) service.idle }
{
    match service.idle {
        None => None,
        Some(seconds) => Some(Duration::from_secs(seconds)),
    }
}

/// The limits of a port of many connections at once.
fn limits_of(service: Service) -> Limits
    ensures connections { result.connections ≡ service.connections }
    ensures clients { result.clients ≡ service.clients }
    ensures idle { option_map as_nanos result.idle ≡ option_map (λ s. s * 1_000_000_000) service.idle }
{
    Limits {
        connections: service.connections,
        clients: service.clients as usize,
        idle: idle_time(service),
    }
}

/// The number of a port: the one that was asked for, or the one that it got where 0 was.
fn number_of(asked: u16, got: u16) -> u16
    ensures { IsAsAsked asked result }
{
    if asked == 0 { got } else { asked }
}

/// The net of this machine. It shows where it listens, and nothing of what comes and goes.
#[derive(Drop)]
pub struct HostNet<'a> {
    machine: Machine<'a>,
    standing: Standing,
    is_lent: bool,
    /// How many connections in turn were accepted.
    accepted: u64,
    /// Whether accepting one failed.
    failed: bool,
}

impl<'a> HostNet<'a> {
    pub fn new(machine: Machine<'a>) -> HostNet<'a> {
        HostNet {
            machine,
            standing: Standing::Nowhere,
            is_lent: false,
            accepted: 0,
            failed: false,
        }
    }
}

impl<'a> Net for HostNet<'a> {
    type Turns = Port;

    type Clients = Sockets<'a>;

    ghost state = { λ s. record {
      standing = s.standing;
      is_lent = s.is_lent;
      turns = shown false s.accepted (if s.failed then 1 else 0) unseen;
      log = None;
    } };

    fn listen_in_turn(&mut self, service: Service) -> Result<(u16, Port), Failed> {
        self.standing = Standing::Refused;
        if self.is_lent {
            return Err(Failed);
        }
        let mut port = Port::listen(&self.machine, service.port, idle_time(service))?;
        port.accepted = self.accepted;
        port.failed = self.failed;
        let number = number_of(service.port, port.address()?.port());
        self.standing = Standing::Listens(service, number);
        self.is_lent = true;
        Ok((number, port))
    }

    fn end_in_turn(&mut self, turns: Port) {
        self.is_lent = false;
        self.accepted = turns.accepted;
        self.failed = turns.failed;
    }

    fn listen_at_once(&mut self, service: Service) -> Result<(u16, Sockets<'a>), Failed> {
        self.standing = Standing::Refused;
        if self.is_lent {
            return Err(Failed);
        }
        let limits = limits_of(service);
        let sockets = Sockets::listen(self.machine, service.port, limits).map_err(|_| Failed)?;
        let address = sockets.address().map_err(|_| Failed)?;
        let number = number_of(service.port, address.port());
        self.standing = Standing::Listens(service, number);
        self.is_lent = true;
        Ok((number, sockets))
    }

    fn end_at_once(&mut self, clients: Sockets<'a>) {
        let mut sockets = clients;
        sockets.finish();
        self.is_lent = false;
    }
}
