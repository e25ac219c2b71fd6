//! How an office is served: by one session over the streams, or over the connections of a port, one after the other or
//! many at once.

ghost use Rattle.std.specs.Prelude.{◌≡◌, ◌+◌, ◌⊎◌, List, length, map};
ghost use Rattle.std.specs.Prelude.{Err, IsTrue, OnOk};
ghost use Rattle.plant_server_clients.specs.{Accounts.{AreSent}, Causes.{HaveFailed}, Events.{Logs, at_ports}, Faults.{reported_faults}};
ghost use Rattle.plant_server_listener.specs.Connections.{AreExchanges, AreSeen, Exchange, answers_over, calls_over};
ghost use Rattle.plant_server_log.specs.Log.{Tells, TellsFaults};
ghost use Rattle.plant_server.specs.Nets.{AreOverNet, HasListened, NetState, nets_of};
ghost use Rattle.plant_server.specs.Services.{AreAsMany, AreOfPort, HasServed, IsLogged, IsStreamed, is_at_once, reported_in_turn};
ghost use Rattle.plant_server.specs.Streams.{Bytes, IsPrintedOrCut, lines_of, streams_of};
ghost use Rattle.plant_wire.specs.Over.{RanOn};
ghost use Rattle.plant_server.specs.Statuses as statuses;

use crate::nets::{Net, Standing};
use crate::reports::{report_end, report_halted, report_stopped, say_address};
use crate::statuses::ExitStatus;
use plant_office::{Books, Office};
use plant_server_clients::{Halted, Plan, serve_clients};
use plant_server_listener::{Listener, Stopped, serve_connections, serve_while_open};
use plant_server_log::say;
use plant_server_options::Service;
use plant_server_sockets::has_few_descriptors;
use plant_wire::{Inlet, Outlet, session};
use std::alloc::Global;
use std::io::Write;

/// Runs one session over the streams. The status shows how it ended.
fn serve_streams<B: Books, I: Inlet, O: Outlet + Write, E: Write>(
    alloc: Global,
    office: &mut Office<B>,
    inlet: &mut I,
    outlet: &mut O,
    errors: &mut E,
) -> ExitStatus
    ensures { (net : NetState) → IsStreamed (RanOn B.Books office.old.books office.new.books)
        (streams_of (nets_of net net) I.Inlet O.Outlet O.Write E.Write (inlet.old, outlet.old, errors.old)
        (inlet.new, outlet.new, errors.new)) result }
{
    let end = session(alloc, inlet, outlet, office);
    report_end(errors, end)
}

/// Serves as many connections of a listener as the service asks for; fewer if accepting fails, or if a failure shuts
/// the store of a service that goes on only while it is open.
fn serve_listener<L: Listener, B: Books, W: Write, E: Write>(
    alloc: Global,
    listener: &mut L,
    office: &mut Office<B>,
    service: Service,
    output: &mut W,
    errors: &mut E,
) -> Result<(), Stopped>
    ensures all { OnOk result
        (L.accepted listener.new ≡ L.accepted listener.old + service.connections) }
    ensures failed { result ≡ Err Stopped.Failed → L.failures listener.new ≡ 1 }
    ensures served { (exchanges : List Exchange) × AreExchanges exchanges
        × RanOn B.Books office.old.books office.new.books (calls_over exchanges) (answers_over exchanges)
        × AreAsMany service.connections (length exchanges) result
        × Tells (W.contents output.old) (map (λ x. x.end) exchanges) (W.contents output.new)
        × TellsFaults (E.contents errors.old) (reported_in_turn service.while_open exchanges) (E.contents errors.new)
        × (L.accepted listener.new ≡ L.accepted listener.old + length exchanges)
        × (IsTrue (L.is_seen listener.old) → AreSeen (L.traffic listener.new) (L.accepted listener.old) exchanges) }
    ensures shut { result ≡ Err Stopped.Shut
        → IsTrue service.while_open × (¬ B.is_honest office.new.books) }
{
    if service.while_open {
        return serve_while_open(alloc, listener, service.connections, office, output, errors);
    }
    match serve_connections(alloc, listener, service.connections, office, output) {
        Ok(()) => Ok(()),
        Err(_) => Err(Stopped::Failed),
    }
}

/// Serves the connections of a port, one after the other.
fn serve_in_turn<P: Net, B: Books, W: Write, E: Write>(
    alloc: Global,
    net: &mut P,
    office: &mut Office<B>,
    service: Service,
    output: &mut W,
    errors: &mut E,
) -> Result<(), Stopped>
    ensures served { (exchanges : List Exchange) × AreExchanges exchanges
        × RanOn B.Books office.old.books office.new.books (calls_over exchanges) (answers_over exchanges)
        × AreAsMany service.connections (length exchanges) result
        × (first : Bytes)
        × IsPrintedOrCut (W.contents output.old) first (statuses.announced (P.state net.new).standing)
        × Tells first (map (λ x. x.end) exchanges) (W.contents output.new)
        × TellsFaults (E.contents errors.old) (reported_in_turn service.while_open exchanges) (E.contents errors.new)
        × AreOverNet exchanges (nets_of (P.state net.old) (P.state net.new)) }
    ensures listened { HasListened service (nets_of (P.state net.old) (P.state net.new)) }
    ensures failed { result ≡ Err Stopped.Failed
        → ((P.state net.new).standing ≡ Standing.Refused) ⊎ ((P.state net.new).turns.failures ≡ 1) }
    ensures shut { result ≡ Err Stopped.Shut
        → IsTrue service.while_open × (¬ B.is_honest office.new.books) }
{
    match net.listen_in_turn(service) {
        Ok((number, mut port)) => {
            say_address(alloc, output, number);
            let outcome = serve_listener(alloc, &mut port, office, service, output, errors);
            net.end_in_turn(port);
            outcome
        }
        Err(_) => Err(Stopped::Failed),
    }
}

/// Says on standard error if the system grants fewer file descriptors than a service of so many clients may need.
fn warn_of_few_descriptors<E: Write>(service: Service, errors: &mut E)
    ensures { IsPrintedOrCut (E.contents errors.old) (E.contents errors.new) statuses.few_descriptors_text }
{
    if has_few_descriptors(service.clients as usize) {
        say(errors, b"net: few file descriptors\n");
    }
}

/// Serves the connections of a port, many at once.
fn serve_at_once<P: Net, B: Books, W: Write, E: Write>(
    alloc: Global,
    net: &mut P,
    office: &mut Office<B>,
    service: Service,
    output: &mut W,
    errors: &mut E,
) -> Result<(), Halted>
    ensures sent { (sent : AreSent (RanOn B.Books office.old.books office.new.books) service.connections result)
        × (first : Bytes)
        × IsPrintedOrCut (W.contents output.old) first (statuses.announced (P.state net.new).standing)
        × IsLogged sent.events first (W.contents output.new)
        × (warned : Bytes) × IsPrintedOrCut (E.contents errors.old) warned statuses.few_descriptors_text
        × TellsFaults warned (reported_faults service.while_open sent.events) (E.contents errors.new)
        × Logs (P.state net.old).log (P.state net.new).log (at_ports sent.events)
        × (result ≡ Err Halted.Ports → ((P.state net.new).standing ≡ Standing.Refused) ⊎ HaveFailed sent.events) }
    ensures listened { HasListened service (nets_of (P.state net.old) (P.state net.new)) }
    ensures shut { result ≡ Err Halted.Shut
        → IsTrue service.while_open × (¬ B.is_honest office.new.books) }
{
    match net.listen_at_once(service) {
        Ok((number, mut ports)) => {
            say_address(alloc, output, number);
            warn_of_few_descriptors(service, errors);
            let plan = Plan {
                connections: service.connections,
                while_open: service.while_open,
            };
            let outcome = serve_clients(alloc, &mut ports, plan, office, output, errors);
            net.end_at_once(ports);
            outcome
        }
        Err(_) => Err(Halted::Ports),
    }
}

/// Serves the connections of a port, many at once if the service asks for it. The status shows whether all of them were
/// served.
pub fn serve_port<P: Net, B: Books, W: Write, E: Write>(
    alloc: Global,
    net: &mut P,
    office: &mut Office<B>,
    service: Service,
    output: &mut W,
    errors: &mut E,
) -> ExitStatus
    ensures { AreOfPort (is_at_once service) (RanOn B.Books office.old.books office.new.books)
        (¬ B.is_honest office.new.books) service (nets_of (P.state net.old) (P.state net.new))
        (lines_of W.Write E.Write (output.old, errors.old) (output.new, errors.new)) result }
{
    if service.clients > 1 {
        let outcome = serve_at_once(alloc, net, office, service, output, errors);
        return report_halted(errors, outcome);
    }
    let outcome = serve_in_turn(alloc, net, office, service, output, errors);
    report_stopped(errors, outcome)
}

/// Serves the port, or the streams if no service is given, by an office, and returns the status.
pub(crate) fn serve_office<P: Net, B: Books, I: Inlet, O: Outlet + Write, E: Write>(
    alloc: Global,
    net: &mut P,
    office: &mut Office<B>,
    service: Option<Service>,
    inlet: &mut I,
    outlet: &mut O,
    errors: &mut E,
) -> ExitStatus
    ensures { HasServed (RanOn B.Books office.old.books office.new.books) (¬ B.is_honest office.new.books) service
        (streams_of (nets_of (P.state net.old) (P.state net.new)) I.Inlet O.Outlet O.Write E.Write (inlet.old, outlet.old, errors.old)
        (inlet.new, outlet.new, errors.new)) result }
{
    match service {
        None => serve_streams(alloc, office, inlet, outlet, errors),
        Some(service) => serve_port(alloc, net, office, service, outlet, errors),
    }
}
