//! The service loop over many connections on one thread: does what is ready, and answers at most one request of each
//! connection per turn, so that none starves the others.

ghost use Rattle.std.specs.Prelude.{◌≡◌, ◌<◌, ℕ, List, Option, Err, IfSome, IsTrue, length, not, remove, slice_get, None, Some, true, false};
ghost use Rattle.std.specs.Bool.{OnTrue};
ghost use Rattle.plant_books.specs.Books.{WasHonest};
ghost use Rattle.plant_server_log.specs.Log.{TellsFaults};
ghost use Rattle.plant_server_clients.specs.declared.connections.Connection.{Connection};
ghost use Rattle.plant_server_clients.specs.{Accounts.{AreServed}, Causes.{Always, CausedAt, ExpiredAt, HasReported}, Events.{seen_by}, Faults.{IsClear, StayNoted, TellsIf, reported_faults}};
ghost use Rattle.plant_server_clients.specs.Service.{IsAccepting, IsConsistent, IsDueTurn, IsRound, IsTurn, IsTurnAt, MayWait, at_stages, service_state};
ghost use Rattle.plant_server_clients.specs.{Happens.{Passed}, Heeded.{Heeds}, Prompt.{ArePrompt}, Stages.{AreOpenConnections, IsNoneNumbered, MayClose}};

use crate::connections::{Asked, Connection, report_if, turn_connection};
use crate::desk::Desk;
use crate::ports::{Ports, Ready};
use plant_office::{Books, Office};
use plant_server_log::say_end;
use plant_wire::End;
use std::alloc::Global;
use std::io::Write;

/// Why a service served fewer connections than it was asked for.
#[derive(Clone, Copy, Debug, PartialEq, Eq)]
pub enum Halted {
    /// Memory ran out before any could be accepted.
    Memory,
    /// Waiting for events has failed, or 2^64 - 1 turns were made.
    Ports,
    /// A failure shut the store, and the service was to go on only while it is open.
    Shut,
}

/// What a service is to do.
#[derive(Clone, Copy, Debug)]
pub struct Plan {
    /// How many connections it serves in all.
    pub connections: u64,
    /// Whether it goes on only while its store is open. It then also reports which kinds of fault it answers.
    pub while_open: bool,
}

/// A service: what it needs for any connection, the open connections, and how many were accepted so far.
#[derive(Drop)]
pub(crate) struct Service<C> {
    pub desk: Desk,
    /// The open connections, in the order of their numbers.
    pub connections: Vec<Connection>,
    /// What the ports keep of each, in the same order.
    pub clients: Vec<C>,
    /// How many connections were accepted so far.
    pub count: u64,
    pub plan: Plan,
    /// Whether a connection may have a request that can be answered now.
    pub busy: bool,
}

/// A connection that may be read, or that takes bytes.
#[derive(Clone, Copy)]
struct Due {
    number: u64,
    reads: bool,
}

/// A turn of one connection.
#[derive(Clone, Copy)]
pub(crate) struct Turn {
    /// The connection's index.
    pub at: usize,
    pub asked: Asked,
}

/// The index of the connection with this number. It is looked for at `first`, and then among all.
fn place_of(connections: &[Connection], number: u64, first: usize) -> Option<usize>
    ensures within { IfSome result (λ at. at < length connections.now) }
    ensures named { IfSome result (λ at. (connection : Connection) → slice_get connections.now at ≡ Some connection → connection.number ≡ number) }
    ensures missed { result ≡ None → IsNoneNumbered number connections.now }
{
    if first < connections.len() && connections[first].number == number {
        return Some(first);
    }
    'connections: for at in 0..connections.len() {
        if connections[at].number == number {
            return Some(at);
        }
    }
    None
}

/// Closes a connection that ended in this way, and writes that to the log.
fn close_connection<P: Ports, W: Write>(
    service: &mut Service<P::Client>,
    ports: &mut P,
    log: &mut W,
    at: usize,
    end: End,
)
    requires within { at < length service.old.connections.items }
    requires consistent { IsConsistent P.number_of service.old }
    requires may { (connection : Connection) → slice_get service.old.connections.items at ≡ Some connection → MayClose connection end }
    ensures passed { Passed (CausedAt service.old.connections.items at end) false
        (service_state (P.seen ports.old) (W.contents log.old) service.old)
        (service_state (P.seen ports.new) (W.contents log.new) service.new) }
    ensures consistent { IsConsistent P.number_of service.new }
    ensures same { service.new.plan ≡ service.old.plan }
    ensures busy { service.new.busy ≡ service.old.busy }
    ensures count { service.new.count ≡ service.old.count }
    ensures others { service.new.connections.items ≡ remove service.old.connections.items at }
{
    let number = service.connections[at].number;
    let client = service.clients.remove(at);
    ports.close(client, end);
    say_end(service.desk.alloc, log, number + 1, end);
    drop(service.connections.remove(at));
}

/// One turn of the connection at this index, which is closed if it is over.
fn turn_at<P: Ports, B: Books, W: Write, E: Write>(
    service: &mut Service<P::Client>,
    ports: &mut P,
    turn: Turn,
    office: &mut Office<B>,
    log: &mut W,
    errors: &mut E,
)
    requires within { turn.at < length service.old.connections.items }
    requires consistent { IsConsistent P.number_of service.old }
    requires clear { IsClear service.old.plan.while_open office.old.faults }
    ensures turned { (turned : IsTurnAt B.Books office.old.books office.new.books
        (service_state (P.seen ports.old) (W.contents log.old) service.old)
        (service_state (P.seen ports.new) (W.contents log.new) service.new) turn)
        × TellsIf service.old.plan.while_open (service_state (P.seen ports.old) (W.contents log.old) service.old)
        (service_state (P.seen ports.new) (W.contents log.new) service.new) turned.turned.happened.events
        (E.contents errors.old) (E.contents errors.new) }
    ensures clear { IsClear service.old.plan.while_open office.new.faults }
    ensures consistent { IsConsistent P.number_of service.new }
    ensures same { service.new.plan ≡ service.old.plan }
    ensures prompt { MayWait service.old → MayWait service.new }
{
    let reports = service.plan.while_open;
    let client = &mut service.clients[turn.at];
    let connection = &mut service.connections[turn.at];
    let over = turn_connection(
        &mut service.desk,
        ports,
        client,
        connection,
        turn.asked,
        office,
    );
    report_if(reports, errors, connection, office);
    if let Some(end) = over {
        close_connection(service, ports, log, turn.at, end);
        return;
    }
    service.busy |= !service.connections[turn.at].is_prompt();
}

/// Gives up the connection at this index, whose time is over, unless it has a request that can be answered.
fn give_up<P: Ports, W: Write>(
    service: &mut Service<P::Client>,
    ports: &mut P,
    log: &mut W,
    at: usize,
)
    requires within { at < length service.old.connections.items }
    requires consistent { IsConsistent P.number_of service.old }
    ensures passed { Passed (ExpiredAt service.old.connections.items at) false
        (service_state (P.seen ports.old) (W.contents log.old) service.old)
        (service_state (P.seen ports.new) (W.contents log.new) service.new) }
    ensures consistent { IsConsistent P.number_of service.new }
    ensures noted { StayNoted (service_state (P.seen ports.old) (W.contents log.old) service.old)
        (service_state (P.seen ports.new) (W.contents log.new) service.new) }
    ensures same { service.new.plan ≡ service.old.plan }
    ensures prompt { MayWait service.old → MayWait service.new }
{
    if let Some(end) = service.connections[at].given_up() {
        close_connection(service, ports, log, at, end);
    }
}

/// Accepts a connection, and counts it. If memory runs out, the connection goes on waiting.
fn accept<P: Ports>(service: &mut Service<P::Client>, ports: &mut P)
    requires { IsConsistent P.number_of service.old }
    ensures passed { (log : Option (List ℕ)) → IsAccepting service.old.plan.connections
        (service_state (P.seen ports.old) log service.old) (service_state (P.seen ports.new) log service.new) }
    ensures consistent { IsConsistent P.number_of service.new }
    ensures noted { (log : Option (List ℕ)) → StayNoted (service_state (P.seen ports.old) log service.old)
        (service_state (P.seen ports.new) log service.new) }
    ensures same { service.new.plan ≡ service.old.plan }
    ensures prompt { MayWait service.old → MayWait service.new }
{
    let number = service.count;
    if number == service.plan.connections {
        return;
    }
    if service.clients.reserve(1).is_err() {
        ports.put_off(number);
        return;
    }
    let places = service.connections.len();
    if service
        .connections
        .push(Connection::new(service.desk.alloc, number))
        .is_err()
    {
        ports.put_off(number);
        return;
    }
    let Some(client) = ports.accept(number) else {
        service.connections.truncate(places);
        return;
    };
    let _ = service.clients.push(client);
    service.count = number + 1;
}

/// One turn of each connection, from the last to the first: a request is answered, if the connection has one, and what
/// is still to be sent is written.
fn serve_turn<P: Ports, B: Books, W: Write, E: Write>(
    service: &mut Service<P::Client>,
    ports: &mut P,
    office: &mut Office<B>,
    log: &mut W,
    errors: &mut E,
)
    requires consistent { IsConsistent P.number_of service.old }
    requires clear { IsClear service.old.plan.while_open office.old.faults }
    ensures round { (round : IsRound Always service.old.count B.Books office.old.books office.new.books
        (service_state (P.seen ports.old) (W.contents log.old) service.old)
        (service_state (P.seen ports.new) (W.contents log.new) service.new))
        × TellsIf service.old.plan.while_open (service_state (P.seen ports.old) (W.contents log.old) service.old)
        (service_state (P.seen ports.new) (W.contents log.new) service.new) round.happened.events
        (E.contents errors.old) (E.contents errors.new) }
    ensures clear { IsClear service.old.plan.while_open office.new.faults }
    ensures consistent { IsConsistent P.number_of service.new }
    ensures same { service.new.plan ≡ service.old.plan }
{
    let answers = Asked {
        reads: false,
        serves: true,
    };
    let mut at = service.connections.len();
    'turn: while at > 0 {
        at -= 1;
        if at < service.connections.len() {
            let turn = Turn { at, asked: answers };
            turn_at(service, ports, turn, office, log, errors);
        }
    }
}

/// One turn of a connection that may be read or takes bytes. A request of it is answered at once, unless the service is
/// busy: then it waits for its turn, as those of others do.
fn turn_of<P: Ports, B: Books, W: Write, E: Write>(
    service: &mut Service<P::Client>,
    ports: &mut P,
    due: Due,
    office: &mut Office<B>,
    log: &mut W,
    errors: &mut E,
)
    requires consistent { IsConsistent P.number_of service.old }
    requires clear { IsClear service.old.plan.while_open office.old.faults }
    ensures turned { (turned : IsTurn Always B.Books office.old.books office.new.books
        (service_state (P.seen ports.old) (W.contents log.old) service.old)
        (service_state (P.seen ports.new) (W.contents log.new) service.new) (not service.old.busy))
        × TellsIf service.old.plan.while_open (service_state (P.seen ports.old) (W.contents log.old) service.old)
        (service_state (P.seen ports.new) (W.contents log.new) service.new) turned.happened.events
        (E.contents errors.old) (E.contents errors.new)
        × IsDueTurn due (service_state (P.seen ports.old) (W.contents log.old) service.old) turned.happened.events }
    ensures clear { IsClear service.old.plan.while_open office.new.faults }
    ensures consistent { IsConsistent P.number_of service.new }
    ensures same { service.new.plan ≡ service.old.plan }
    ensures prompt { MayWait service.old → MayWait service.new }
{
    if let Some(at) = place_of(&service.connections, due.number, ports.place()) {
        let asked = Asked {
            reads: due.reads,
            serves: !service.busy,
        };
        turn_at(service, ports, Turn { at, asked }, office, log, errors);
    }
}

/// Handles one event.
fn step<P: Ports, B: Books, W: Write, E: Write>(
    service: &mut Service<P::Client>,
    ports: &mut P,
    ready: Ready,
    office: &mut Office<B>,
    log: &mut W,
    errors: &mut E,
)
    requires consistent { IsConsistent P.number_of service.old }
    requires clear { IsClear service.old.plan.while_open office.old.faults }
    ensures turned { (turned : IsTurn (HasReported ready) B.Books office.old.books office.new.books
        (service_state (P.seen ports.old) (W.contents log.old) service.old)
        (service_state (P.seen ports.new) (W.contents log.new) service.new) (not service.old.busy))
        × TellsIf service.old.plan.while_open (service_state (P.seen ports.old) (W.contents log.old) service.old)
        (service_state (P.seen ports.new) (W.contents log.new) service.new) turned.happened.events
        (E.contents errors.old) (E.contents errors.new)
        × Heeds service.old.plan.connections (at_stages (service_state (P.seen ports.old) (W.contents log.old) service.old)) ready
        turned.happened.events }
    ensures clear { IsClear service.old.plan.while_open office.new.faults }
    ensures consistent { IsConsistent P.number_of service.new }
    ensures same { service.new.plan ≡ service.old.plan }
    ensures prompt { MayWait service.old → MayWait service.new }
{
    match ready {
        Ready::Came => accept(service, ports),
        Ready::Readable(number) => {
            let due = Due {
                number,
                reads: true,
            };
            turn_of(service, ports, due, office, log, errors);
        }
        Ready::Writable(number) => {
            let due = Due {
                number,
                reads: false,
            };
            turn_of(service, ports, due, office, log, errors);
        }
        Ready::Expired(number) => {
            if let Some(at) = place_of(&service.connections, number, ports.place()) {
                give_up(service, ports, log, at);
            }
        }
        Ready::Nothing | Ready::Failed => {}
    }
}

/// Whether no connection has a request that can be answered now.
fn all_prompt(connections: &[Connection], count: u64) -> bool
    requires connections { AreOpenConnections count connections.now }
    ensures { OnTrue result (ArePrompt connections.now) }
{
    'connections: for at in 0..connections.len() {
        if !connections[at].is_prompt() {
            return false;
        }
    }
    true
}

/// One turn of the service: handles one event and, if the service was busy, answers a request of each connection that
/// has any.
fn serve_ready<P: Ports, B: Books, W: Write, E: Write>(
    service: &mut Service<P::Client>,
    ports: &mut P,
    ready: Ready,
    office: &mut Office<B>,
    log: &mut W,
    errors: &mut E,
)
    requires consistent { IsConsistent P.number_of service.old }
    requires clear { IsClear service.old.plan.while_open office.old.faults }
    requires prompt { MayWait service.old }
    ensures round { (round : IsRound (HasReported ready) 0 B.Books office.old.books office.new.books
        (service_state (P.seen ports.old) (W.contents log.old) service.old)
        (service_state (P.seen ports.new) (W.contents log.new) service.new))
        × TellsIf service.old.plan.while_open (service_state (P.seen ports.old) (W.contents log.old) service.old)
        (service_state (P.seen ports.new) (W.contents log.new) service.new) round.happened.events
        (E.contents errors.old) (E.contents errors.new)
        × Heeds service.old.plan.connections (at_stages (service_state (P.seen ports.old) (W.contents log.old) service.old)) ready
        round.happened.events }
    ensures clear { IsClear service.old.plan.while_open office.new.faults }
    ensures consistent { IsConsistent P.number_of service.new }
    ensures same { service.new.plan ≡ service.old.plan }
    ensures prompt { MayWait service.new }
{
    let was_busy = service.busy;
    step(service, ports, ready, office, log, errors);
    if was_busy {
        serve_turn(service, ports, office, log, errors);
        service.busy = !all_prompt(&service.connections, service.count);
    }
}

/// Ends the service: gives the clients of the connections that are still open back to the ports.
fn give_back<P: Ports>(ports: &mut P, service: Service<P::Client>)
    ensures { P.seen ports.new ≡ P.seen ports.old }
{
    'clients: for client in service.clients {
        ports.take_back(client);
    }
}

/// Whether the service ends now because it goes on only while its store is open, and the store has shut.
fn is_over<B: Books>(while_open: bool, office: &Office<B>) -> bool
    ensures { IsTrue result → IsTrue while_open × (¬ B.is_honest office.now.books) }
{
    while_open && office.is_shut()
}

/// Serves as many connections as planned, as many at once as the ports accept, and writes to the log how each ended. All
/// calls, whatever their connection, are made one after another. Each connection is sent the answers to its own
/// requests, in their order, and no byte of an answer before its call was made; what one connection sends affects
/// another only through the office. A connection that waits is answered before the ports are asked twice more, and what
/// they report is tried at once. Each answer is offered to its connection at once. A connection is given up only if a
/// read or a write of it has failed, or the ports have just reported that its time is over; and the service halts with
/// `Ports` only after the ports failed.
///
/// If it is to go on only while its store is open, it halts once a failure has shut the store: after the turn in which
/// that was answered, and in which the ports took what they could of the answer. In this mode it also writes to the
/// errors which kinds of fault each connection was answered, each kind once; otherwise it writes nothing there. A failed
/// write to the log or the errors is ignored.
pub fn serve_clients<P: Ports, B: Books, W: Write, E: Write>(
    alloc: Global,
    ports: &mut P,
    plan: Plan,
    office: &mut Office<B>,
    log: &mut W,
    errors: &mut E,
) -> Result<(), Halted>
    ensures served { (served : AreServed B.Books office.old.books office.new.books
        (seen_by (P.seen ports.old) (W.contents log.old)) (seen_by (P.seen ports.new) (W.contents log.new))
        plan.connections result)
        × TellsFaults (E.contents errors.old) (reported_faults plan.while_open served.sent.events) (E.contents errors.new) }
    ensures honest { WasHonest B.is_honest office.old.books office.new.books }
    ensures shut { result ≡ Err Halted.Shut → IsTrue plan.while_open × (¬ B.is_honest office.new.books) }
    ensures quiet { plan.while_open ≡ false → E.contents errors.new ≡ E.contents errors.old }
{
    let Ok(desk) = Desk::new(alloc) else {
        return Err(Halted::Memory);
    };
    drop(office.take_faults());
    let mut service = Service {
        desk,
        connections: Vec::new(alloc),
        clients: Vec::new(alloc),
        count: 0,
        plan,
        busy: false,
    };
    'turns: for count in 0..u64::MAX {
        if service.count == plan.connections && service.connections.is_empty() {
            return Ok(());
        }
        if is_over(plan.while_open, office) {
            give_back(ports, service);
            return Err(Halted::Shut);
        }
        let clients = service.clients.as_mut_slice();
        let ready = ports.next(&service.connections, clients, !service.busy);
        if let Ready::Failed = ready {
            give_back(ports, service);
            return Err(Halted::Ports);
        }
        serve_ready(&mut service, ports, ready, office, log, errors);
    }
    give_back(ports, service);
    Err(Halted::Ports)
}
