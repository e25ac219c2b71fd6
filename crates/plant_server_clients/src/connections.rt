//! One connection of many: its unread bytes and its unsent answer, and the steps that read, answer and write on it.

ghost use Rattle.std.specs.Prelude.{◌≡◌, ◌≤◌, ◌<◌, [], None, Some, length, false, take, true, IfSome, ℕ};
ghost use Rattle.std.specs.{Bool.{OnTrue}, Io.KnownBytes.{Appends}};
ghost use Rattle.plant_wire_call.specs.{Cut.{WaitsBelow}, Front.{StandsAtFront, waits}};
ghost use Rattle.plant_wire.specs.{Limits.{least_room}, Session.{IsIdle}};
ghost use Rattle.plant_wire.specs.declared.reads.End.TheVariants as ends;
ghost use Rattle.plant_server_log.specs.Log.{fault_lines};
ghost use Rattle.plant_server_clients.specs.Happens.{Made, Moved, Turned, connection_state};
ghost use Rattle.plant_office.specs.Faults.{added, no_faults, noted, without};
ghost use Rattle.plant_server_clients.specs.Faults.{IsClear, reporting};
ghost use Rattle.plant_server_clients.specs.{Events.{all_answers, reading, writing}, Prompt.{AreFew, IsPrompt, IsSettled}};
ghost use Rattle.plant_server_clients.specs.Stages.{IsOpen, MayClose, end_for};

use crate::answers::{Answers, Draft};
use crate::desk::Desk;
use crate::ports::{Ports, Sent, Taken};
use plant_office::{Books, Faults, NO_FAULTS, Office};
use plant_server_log::say_faults;
use plant_wire::{End, Parser, Step, answer_next, drop_front};
use std::alloc::Global;
use std::io::Write;

/// A connection: the received bytes that are not answered yet (`unread`), and how many there must be before they are
/// parsed again; the answer that is still to be sent; how the connection is to end, once nothing more is read or
/// answered; and which of the faults that it was answered were reported.
#[derive(Drop)]
pub struct Connection {
    pub number: u64,
    pub unread: Vec<u8>,
    pub wanted: usize,
    pub pending: Answers,
    pub end: Option<End>,
    pub faults: Faults,
}

impl Connection {
    /// A connection that was just accepted.
    pub fn new(alloc: Global, number: u64) -> Connection
        ensures number { result.number ≡ number }
        ensures unread { result.unread.items ≡ [] }
        ensures pending { result.pending.text.items ≡ [] }
        ensures served { result.end ≡ None }
        ensures wanted { result.wanted ≡ 0 }
        ensures faults { result.faults ≡ no_faults }
    {
        Connection {
            number,
            unread: Vec::new(alloc),
            wanted: 0,
            pending: Answers::new(alloc),
            end: None,
            faults: NO_FAULTS,
        }
    }

    /// Whether it surely holds no whole request: nothing is unread, or fewer bytes than `wanted`.
    pub fn is_idle(&self) -> bool
        ensures idle { WaitsBelow self.now.unread.items self.now.wanted → OnTrue result (IsIdle self.now.unread.items) }
        ensures few { OnTrue result (AreFew self.now.unread.items self.now.wanted) }
        ensures empty { self.now.unread.items ≡ [] → result ≡ true }
    {
        self.unread.is_empty() || self.unread.len() < self.wanted
    }

    /// Whether more may be read: the connection is served, no answer is still to be sent, and no whole request is
    /// unread.
    pub fn is_open(&self) -> bool
        ensures served { result ≡ true → self.now.end ≡ None }
        ensures open { WaitsBelow self.now.unread.items self.now.wanted
            → OnTrue result (IsOpen self.now.unread.items self.now.pending.text.items) }
        ensures free { self.now.end ≡ None → self.now.pending.text.items ≡ [] → self.now.unread.items ≡ [] → result ≡ true }
    {
        if self.end.is_some() {
            return false;
        }
        if !self.pending.text.is_empty() {
            return false;
        }
        self.is_idle()
    }

    /// Whether it has no request that can be answered now.
    pub fn is_prompt(&self) -> bool
        ensures prompt { WaitsBelow self.now.unread.items self.now.wanted → OnTrue result (IsPrompt self.now) }
        ensures settled { OnTrue result (IsSettled self.now) }
        ensures served { result ≡ false → self.now.end ≡ None }
        ensures empty { result ≡ false → self.now.pending.text.items ≡ [] }
    {
        self.end.is_some() || !self.pending.text.is_empty() || self.is_idle()
    }

    /// How it ends, if nothing more is read or answered and all answers were sent; otherwise `None`.
    pub fn over(&self) -> Option<End>
        ensures may { IfSome result (λ end. MayClose self.now end) }
        ensures named { IfSome result (λ end. self.now.end ≡ Some end) }
    {
        if self.pending.text.is_empty() {
            return self.end;
        }
        None
    }

    /// How it ends if it is given up now, or `None` while it has a request that can be answered.
    pub fn given_up(&self) -> Option<End>
        ensures { WaitsBelow self.now.unread.items self.now.wanted → IfSome result (λ end. MayClose self.now end) }
    {
        if !self.pending.text.is_empty() {
            return Some(End::WriteFailed);
        }
        if self.is_open() {
            return Some(End::ReadFailed);
        }
        self.end
    }
}

/// How a connection ends if its input ends with these bytes unread.
fn end_of(unread: &[u8]) -> End
    ensures { result ≡ end_for unread.now }
{
    if unread.is_empty() {
        return End::Closed;
    }
    End::BrokenInput
}

/// One read of a connection, if more may be read of it. Returns false if the read failed.
pub(crate) fn read_connection<P: Ports>(
    ports: &mut P,
    client: &mut P::Client,
    chunk: &mut [u8],
    connection: &mut Connection,
) -> bool
    requires room { least_room ≤ length chunk.old }
    requires own { P.number_of client.old ≡ connection.old.number }
    requires waits { WaitsBelow connection.old.unread.items connection.old.wanted }
    ensures moved { Moved (P.seen ports.old) (P.seen ports.new) connection.old connection.new true reading result }
    ensures same { P.number_of client.new ≡ P.number_of client.old }
    ensures waits { WaitsBelow connection.new.unread.items connection.new.wanted }
    ensures faults { connection.new.faults ≡ connection.old.faults }
    ensures failed { result ≡ false → MayClose connection.new ends.ReadFailed }
    ensures kept { length chunk.new ≡ length chunk.old }
{
    if !connection.is_open() {
        return true;
    }
    match ports.take(client, chunk) {
        Taken::Failed => return false,
        Taken::Nothing => {}
        Taken::Ended => {
            connection.end = Some(end_of(&connection.unread));
        }
        Taken::Bytes(n) => {
            if connection.unread.extend_from_slice(&chunk[..n]).is_err() {
                connection.wanted = 0;
                connection.end = Some(End::Fault);
            }
        }
    }
    true
}

/// One write of the answer that is still to be sent, if any. Returns false if the write failed.
pub(crate) fn write_connection<P: Ports>(
    alloc: Global,
    ports: &mut P,
    client: &mut P::Client,
    connection: &mut Connection,
) -> bool
    requires own { P.number_of client.old ≡ connection.old.number }
    requires waits { WaitsBelow connection.old.unread.items connection.old.wanted }
    ensures moved { Moved (P.seen ports.old) (P.seen ports.new) connection.old connection.new false writing result }
    ensures same { P.number_of client.new ≡ P.number_of client.old }
    ensures waits { WaitsBelow connection.new.unread.items connection.new.wanted }
    ensures faults { connection.new.faults ≡ connection.old.faults }
    ensures failed { result ≡ false → MayClose connection.new ends.WriteFailed }
{
    if connection.pending.text.is_empty() {
        return true;
    }
    match ports.put(client, &connection.pending.text) {
        Sent::Failed => false,
        Sent::Bytes(n) => {
            drop_front(alloc, &mut connection.pending.text, n);
            true
        }
    }
}

/// How many bytes a connection must have before it is parsed again, if these are an incomplete request: at least one
/// more.
fn wanted_next(unread: &[u8], more: usize) -> usize
    requires waiting { StandsAtFront unread.now waits }
    requires below { WaitsBelow unread.now more }
    ensures below { WaitsBelow unread.now result }
    ensures more { length unread.now < result }
{
    if unread.len() < more {
        return more;
    }
    unread.len() + 1
}

/// Answers the request at the front of a connection, if it is whole and no earlier answer is still to be sent. After
/// that, nothing can be answered on the connection before more bytes arrive or the answer was sent. If memory runs out
/// for the answer, nothing of it is sent; this never happens to the answer to a fault, whose memory is allocated before
/// the call.
pub(crate) fn serve_connection<B: Books>(
    alloc: Global,
    parser: &mut Parser,
    connection: &mut Connection,
    office: &mut Office<B>,
)
    requires waits { WaitsBelow connection.old.unread.items connection.old.wanted }
    ensures made { Made B.Books office.old.books office.new.books office.old.faults office.new.faults connection.old connection.new true }
    ensures waits { WaitsBelow connection.new.unread.items connection.new.wanted }
    ensures faults { connection.new.faults ≡ connection.old.faults }
    ensures settled { IsSettled connection.new }
{
    if connection.is_prompt() {
        return;
    }
    let Ok(mut draft) = Draft::new(alloc) else {
        connection.wanted = 0;
        connection.end = Some(End::Fault);
        return;
    };
    match answer_next(alloc, parser, &connection.unread, &mut draft, office) {
        Ok(Step::Waits(more)) => connection.wanted = wanted_next(&connection.unread, more),
        Ok(Step::Took(n)) => {
            drop_front(alloc, &mut connection.unread, n);
            connection.wanted = 0;
            connection.pending = draft.into_answers();
        }
        Ok(Step::Broken) => {
            connection.wanted = 0;
            connection.end = Some(End::BrokenInput);
            connection.pending = draft.into_answers();
        }
        Err(_) => {
            connection.wanted = 0;
            connection.end = Some(End::Fault);
        }
    }
}

/// A read, if it is asked for.
fn read_if<P: Ports>(
    reads: bool,
    ports: &mut P,
    client: &mut P::Client,
    chunk: &mut [u8],
    connection: &mut Connection,
) -> bool
    requires room { least_room ≤ length chunk.old }
    requires own { P.number_of client.old ≡ connection.old.number }
    requires waits { WaitsBelow connection.old.unread.items connection.old.wanted }
    ensures moved { Moved (P.seen ports.old) (P.seen ports.new) connection.old connection.new reads reading result }
    ensures same { P.number_of client.new ≡ P.number_of client.old }
    ensures waits { WaitsBelow connection.new.unread.items connection.new.wanted }
    ensures faults { connection.new.faults ≡ connection.old.faults }
    ensures failed { result ≡ false → MayClose connection.new ends.ReadFailed }
    ensures kept { length chunk.new ≡ length chunk.old }
{
    if reads {
        return read_connection(ports, client, chunk, connection);
    }
    true
}

/// An answer, if it is asked for.
fn serve_if<B: Books>(
    serves: bool,
    alloc: Global,
    parser: &mut Parser,
    connection: &mut Connection,
    office: &mut Office<B>,
)
    requires waits { WaitsBelow connection.old.unread.items connection.old.wanted }
    ensures made { Made B.Books office.old.books office.new.books office.old.faults office.new.faults connection.old connection.new serves }
    ensures waits { WaitsBelow connection.new.unread.items connection.new.wanted }
    ensures faults { connection.new.faults ≡ connection.old.faults }
{
    if serves {
        serve_connection(alloc, parser, connection, office);
    }
}

/// What a turn of a connection does, in addition to writing what is still to be sent.
#[derive(Clone, Copy, Debug)]
pub(crate) struct Asked {
    /// Whether more is read.
    pub reads: bool,
    /// Whether a request is answered.
    pub serves: bool,
}

/// One turn of a connection: a read and an answer, each if it is asked for, and a write of what is still to be sent.
/// Returns how the connection is to be closed, if it is.
pub(crate) fn turn_connection<P: Ports, B: Books>(
    desk: &mut Desk,
    ports: &mut P,
    client: &mut P::Client,
    connection: &mut Connection,
    asked: Asked,
    office: &mut Office<B>,
) -> Option<End>
    requires own { P.number_of client.old ≡ connection.old.number }
    requires waits { WaitsBelow connection.old.unread.items connection.old.wanted }
    ensures turned { (turned : Turned B.Books office.old.books office.new.books
        (connection_state (P.seen ports.old) connection.old) (connection_state (P.seen ports.new) connection.new) asked result)
        × (office.new.faults ≡ noted office.old.faults (all_answers turned.events)) }
    ensures same { P.number_of client.new ≡ P.number_of client.old }
    ensures waits { WaitsBelow connection.new.unread.items connection.new.wanted }
    ensures faults { connection.new.faults ≡ connection.old.faults }
    ensures may { IfSome result (λ end. MayClose connection.new end) }
{
    let alloc = desk.alloc;
    let chunk = desk.chunk.as_mut_slice();
    if !read_if(asked.reads, ports, client, chunk, connection) {
        return Some(End::ReadFailed);
    }
    serve_if(asked.serves, alloc, &mut desk.parser, connection, office);
    if !write_connection(alloc, ports, client, connection) {
        return Some(End::WriteFailed);
    }
    connection.over()
}

/// Those of these faults that are not among those.
fn without(faults: Faults, those: Faults) -> Faults
    ensures { result ≡ without faults those }
{
    Faults {
        memory: faults.memory && !those.memory,
        store: faults.store && !those.store,
    }
}

/// These faults and those.
fn added(faults: Faults, those: Faults) -> Faults
    ensures { result ≡ added faults those }
{
    Faults {
        memory: faults.memory || those.memory,
        store: faults.store || those.store,
    }
}

/// Reports each kind of fault that the office has answered since it was last asked, unless it was already reported for
/// this connection. A failed write is ignored.
fn report_faults<B: Books, E: Write>(
    errors: &mut E,
    connection: &mut Connection,
    office: &mut Office<B>,
)
    ensures noted { connection.new ≡ reporting connection.old (added connection.old.faults office.old.faults) }
    ensures books { office.new.books ≡ office.old.books }
    ensures clear { office.new.faults ≡ no_faults }
    ensures told { (n : ℕ) × Appends (E.contents errors.old) (E.contents errors.new)
        (take n (fault_lines (without office.old.faults connection.old.faults))) }
{
    let faults = office.take_faults();
    say_faults(errors, without(faults, connection.faults));
    connection.faults = added(connection.faults, faults);
}

/// A report of the faults, if it is asked for.
pub(crate) fn report_if<B: Books, E: Write>(
    reports: bool,
    errors: &mut E,
    connection: &mut Connection,
    office: &mut Office<B>,
)
    ensures same { connection.new ≡ reporting connection.old connection.new.faults }
    ensures books { office.new.books ≡ office.old.books }
    ensures clear { IsClear reports office.new.faults }
    ensures noted { reports ≡ true → connection.new.faults ≡ added connection.old.faults office.old.faults }
    ensures told { reports ≡ true → (n : ℕ) × Appends (E.contents errors.old) (E.contents errors.new)
        (take n (fault_lines (without office.old.faults connection.old.faults))) }
    ensures quiet { reports ≡ false → E.contents errors.new ≡ E.contents errors.old }
{
    if reports {
        report_faults(errors, connection, office);
    }
}
