//! The sockets of a port with epoll: which client goes on next, which deadlines have passed, who is given up while
//! others wait for a place, and how much memory unread requests may take.

ghost use Rattle.std.specs.Prelude.{◌≡◌, None, length};
ghost use Rattle.std.specs.List.Sorted.{IsSearchInRange};
ghost use Rattle.plant_server_sockets.specs.Clients.{numbers};

use crate::clients::{Client, may_finish};
use mio::net::{TcpListener, TcpStream};
use mio::{Events, Interest, Poll, Token};
use plant_server_clients::{Connection, Ports, Ready, Sent, Taken};
use plant_server_machine::Machine;
use plant_wire::End;
use std::collections::VecDeque;
use std::io;
use std::io::ErrorKind;
use std::net::SocketAddr;
use std::time::{Duration, Instant};

const LISTENER: Token = Token(usize::MAX);

/// How many events one wait may report.
const EVENTS_A_WAIT: usize = 256;

/// After how many turns at most the system is asked for new events, while no requests are left from turn to turn.
const TURNS: u32 = 64;

/// The same while requests of the only client are left.
const TURNS_OF_ONE: u32 = 16;

/// How many others may go before a client that has more requests to be read, but still has some to be answered.
const MOST_AHEAD: u32 = 16;

/// How many milliseconds a second has.
const SECOND_MS: u64 = 1000;

/// The longest wait, in milliseconds.
const LONGEST_WAIT_MS: u64 = 1000;

/// How often deadlines are looked at, in milliseconds.
const DEADLINES_EVERY_MS: u64 = 1000;

/// For how long no connection is accepted, in milliseconds, after accepting failed or memory ran out.
const PAUSE_MS: u64 = 1000;

/// If more time than this passes between two looks at the clock, in milliseconds, the program was suspended: all
/// deadlines then move on by that time.
const STOPPED_MS: u64 = 3000;

/// How often to look for a client that is to give up its place or its memory, in milliseconds, while others wait for
/// one.
const LOOK_EVERY_MS: u64 = 10;

/// How long a client keeps its place after its last answer, and its memory after its last byte, in milliseconds, while
/// others wait for one.
const KEPT_MS: u64 = 2000;

/// A request may take at most this many times the allowed silence, from its first byte to its last.
const REQUEST_SILENCES: u64 = 4;

/// How many bytes of requests all connections together may have unread before only some are read: 64 MiB.
const UNREAD_BYTES: usize = 67_108_864;

/// How many bytes of a request are read of each connection, even then.
const FREE_BYTES: usize = 65_536;

/// How many bytes are read of a connection, even then, if they may complete its request.
const LAST_BYTES: usize = 4096;

/// The size in bytes of the buffer for what clients send after their last answers.
const SCRATCH_BYTES: usize = 65_536;

/// How long a client may be quiet after its last answer before it is closed, in milliseconds.
const QUIET_MS: u64 = 1000;

/// The same, once the service is over.
const LAST_QUIET_MS: u64 = 50;

/// How many waits at most are made for what clients still send, once the service is over.
const LAST_WAITS: u32 = 25_600;

/// The limits of a port.
#[derive(Clone, Copy, Debug)]
pub struct Limits {
    /// How many connections are accepted in all.
    pub connections: u64,
    /// How many connections may be open at once.
    pub clients: usize,
    /// How long a client may send nothing, or take nothing of its answer; `None` for no limit.
    pub idle: Option<Duration>,
}

/// The connections of a port of 127.0.0.1.
#[derive(Drop)]
pub struct Sockets<'a> {
    machine: Machine<'a>,
    poll: Poll,
    events: Events,
    listener: TcpListener,
    limits: Limits,
    /// How many more connections are to be accepted.
    left: u64,
    /// How many connections were open when it was last asked what can be done.
    open: usize,
    /// Clients whose connections were closed, and who may still be sending, in the order of their numbers. It has room
    /// for the clients of all open connections too, so that closing one needs no memory.
    lingering: Vec<Client>,
    /// Clients that may go on, in the order of their turns.
    ready: VecDeque<u64>,
    /// Clients that may be read, but still have requests to be answered.
    aside: VecDeque<u64>,
    /// How many other clients went on since the last of these.
    ahead: u32,
    /// Clients that are to be given up.
    expired: VecDeque<u64>,
    /// A connection that waits for a place.
    accepted: Option<TcpStream>,
    /// Whether others may wait to be accepted.
    may_accept: bool,
    /// Until when no connection is accepted, after accepting failed.
    paused: u64,
    start: Instant,
    now: u64,
    /// When deadlines are looked at next.
    check: u64,
    /// When a client that is to give up its place or its memory is looked for next.
    look: u64,
    /// Whether the last turn accepted first.
    accepts_first: bool,
    /// Whether the connection that waits for a place was offered to the service.
    offered: bool,
    /// Whether a client was not read because too many bytes of requests are unread.
    crowded: bool,
    /// How long a client may be quiet after its last answer.
    quiet: u64,
    /// How many turns were made since the last wait.
    turns: u32,
    /// How many bytes of requests are unread, estimated from what was read; counted anew when it is above the limit.
    unread_bytes: usize,
    /// How many bytes the next read may take at most.
    most: usize,
    /// The index of the client that was looked at last.
    place: usize,
    scratch: Vec<u8>,
}

/// The milliseconds of a length of time.
fn millis(time: Duration) -> u64 {
    time.as_secs()
        .saturating_mul(SECOND_MS)
        .saturating_add(time.subsec_millis() as u64)
}

/// The index of the connection with this number.
fn index_of(connections: &[Connection], number: u64) -> Option<usize> {
    connections
        .binary_search_by_key(&number, |connection| connection.number)
        .ok()
}

/// The index of the client with this number, or the place where it belongs.
fn search(clients: &[Client], number: u64) -> Result<usize, usize>
    ensures { IsSearchInRange result (length clients.now) }
{
    clients.binary_search_by_key(&number, |client| client.number)
}

/// How many bytes are allocated for requests.
fn bytes_of(connections: &[Connection]) -> usize {
    let mut bytes = 0usize;
    for connection in connections {
        bytes = bytes.saturating_add(connection.unread.capacity());
    }
    bytes
}

/// The connection that has most bytes unread. It is always read, so that at least one can finish.
fn fullest(connections: &[Connection]) -> Option<u64> {
    let mut most = 0;
    let mut number = None;
    for connection in connections {
        if connection.end.is_none() && connection.unread.len() > most {
            most = connection.unread.len();
            number = Some(connection.number);
        }
    }
    number
}

/// How many bytes may be read of this connection's request, freely or while too many are unread.
fn room_of(connection: &Connection, freely: bool) -> usize {
    if freely {
        return usize::MAX;
    }
    let free = FREE_BYTES.saturating_sub(connection.unread.len());
    if free > 0 {
        return free;
    }
    if may_finish(connection, LAST_BYTES) {
        return LAST_BYTES;
    }
    0
}

impl<'a> Sockets<'a> {
    /// Listens on the port with this number, or on a free one for 0.
    pub fn listen(machine: Machine<'a>, number: u16, limits: Limits) -> io::Result<Sockets<'a>> {
        let mut listener = machine.listen_for_many(number)?;
        let poll = machine.poll()?;
        let alloc = machine.alloc();
        poll.registry()
            .register(&mut listener, LISTENER, Interest::READABLE)?;
        Ok(Sockets {
            machine,
            poll,
            events: Events::with_capacity(alloc, EVENTS_A_WAIT)?,
            listener,
            limits,
            left: limits.connections,
            open: 0,
            lingering: Vec::new(alloc),
            ready: VecDeque::new(alloc),
            aside: VecDeque::new(alloc),
            ahead: 0,
            expired: VecDeque::new(alloc),
            accepted: None,
            may_accept: true,
            paused: 0,
            start: machine.now()?,
            now: 0,
            check: DEADLINES_EVERY_MS,
            look: 0,
            accepts_first: false,
            offered: false,
            crowded: false,
            quiet: QUIET_MS,
            turns: 0,
            unread_bytes: 0,
            most: usize::MAX,
            place: 0,
            scratch: vec![in alloc; 0u8; SCRATCH_BYTES]?,
        })
    }

    /// The address that clients connect to.
    pub fn address(&self) -> io::Result<SocketAddr> {
        self.listener.local_addr()
    }

    /// How many places are taken.
    fn places(&self) -> usize {
        self.open.saturating_add(self.lingering.len())
    }

    /// Closes the connection of a client that ended in this way. One that may still be sending stays until it is quiet.
    fn let_go(&mut self, mut client: Client, end: End) {
        let quiet = self.now.saturating_add(self.quiet);
        if !client.linger(end, quiet) {
            return;
        }
        client.queue(&mut self.ready);
        if let Err(at) = search(&self.lingering, client.number) {
            let _ = self.lingering.insert(at, client);
        }
    }

    /// Once the service is over: reads what clients still send after their last answers, so that these reach them,
    /// until each has been quiet for a moment.
    pub fn finish(&mut self) {
        self.quiet = LAST_QUIET_MS;
        let quiet = self.now.saturating_add(self.quiet);
        for client in self.lingering.iter_mut() {
            client.until = client.until.min(quiet);
        }
        for _ in 0..LAST_WAITS {
            let now = self.now;
            self.lingering.retain(|client| client.is_read_out(now));
            if self.lingering.is_empty() || self.wait(LOOK_EVERY_MS, &[], &mut []).is_err() {
                return;
            }
            let _ = self.next_ready(&[], &mut []);
        }
    }

    /// When a client that sends or takes bytes now will have been silent for too long.
    fn until(&self) -> u64 {
        match self.limits.idle {
            Some(idle) => self.now.saturating_add(millis(idle)),
            None => u64::MAX,
        }
    }

    /// By when a request that begins now is to be whole.
    fn whole(&self) -> Option<u64> {
        match self.limits.idle {
            Some(idle) => Some(
                self.now
                    .saturating_add(millis(idle).saturating_mul(REQUEST_SILENCES)),
            ),
            None => None,
        }
    }

    /// Marks the clients that the last wait reported, and queues them. One that can't be queued, because memory ran
    /// out, is queued when deadlines are looked at next.
    fn note_events(&mut self, connections: &[Connection], clients: &mut [Client])
        ensures { numbers clients.new ≡ numbers clients.old }
    {
        'events: for event in &self.events {
            if event.token() == LISTENER {
                self.may_accept = true;
                continue;
            }
            let number = event.token().0 as u64;
            if let Some(at) = index_of(connections, number) {
                if at < clients.len() {
                    clients[at].note(event, &mut self.ready);
                }
            } else if let Ok(at) = search(&self.lingering, number) {
                self.lingering[at].note(event, &mut self.ready);
            }
        }
    }

    /// Looks at the clock. If the program was suspended, all deadlines move on.
    fn tick(&mut self, clients: &mut [Client]) -> io::Result<()>
        ensures { numbers clients.new ≡ numbers clients.old }
    {
        let now = millis(self.machine.elapsed_since(self.start)?);
        let passed = now.saturating_sub(self.now);
        self.now = now;
        if passed > STOPPED_MS {
            'clients: for client in clients.iter_mut() {
                client.move_on(passed);
            }
            for client in self.lingering.iter_mut() {
                client.move_on(passed);
            }
        }
        Ok(())
    }

    /// Waits until something is ready, at most `longest` milliseconds, and marks it.
    fn wait(
        &mut self,
        longest: u64,
        connections: &[Connection],
        clients: &mut [Client],
    ) -> io::Result<()>
        ensures { numbers clients.new ≡ numbers clients.old }
    {
        self.turns = 0;
        self.poll
            .poll(&mut self.events, Some(Duration::from_millis(longest)))?;
        self.tick(clients)?;
        self.note_events(connections, clients);
        Ok(())
    }

    /// How long to wait at most, in milliseconds; 0 if it may not wait.
    fn longest(&self, may_wait: bool) -> u64 {
        if !may_wait {
            return 0;
        }
        if self.accepted.is_some() || self.crowded {
            return LOOK_EVERY_MS;
        }
        LONGEST_WAIT_MS
    }

    /// Accepts the next connection, if one is waiting. Returns whether there is one and a place for it.
    fn has_next(&mut self) -> bool {
        let accepts = self.left > 0;
        if self.accepted.is_none() && accepts && self.may_accept && self.paused <= self.now {
            match self.listener.accept() {
                Ok((stream, _)) => self.accepted = Some(stream),
                Err(error) => match error.kind() {
                    ErrorKind::WouldBlock => self.may_accept = false,
                    ErrorKind::ConnectionAborted | ErrorKind::Interrupted => {}
                    _ => self.paused = self.now.saturating_add(PAUSE_MS),
                },
            }
        }
        let has_one = accepts && self.accepted.is_some() && self.paused <= self.now;
        has_one && self.places() < self.limits.clients
    }

    /// Looks at the deadlines of a client: whether it is silent, takes nothing of an answer, or has not sent its request
    /// whole.
    fn look_at_times(&mut self, connection: &Connection, client: &mut Client)
        ensures { client.new.number ≡ client.old.number }
    {
        if connection.unread.is_empty() {
            client.whole = None;
        } else if client.whole.is_none() {
            client.whole = self.whole();
        }
        if client.crowded {
            client.until = self.until();
            client.whole = self.whole();
        }
        let late = match client.whole {
            Some(whole) => whole <= self.now,
            None => false,
        };
        if client.until <= self.now || late {
            let _ = self.expired.push_back(connection.number);
        }
        client.queue(&mut self.ready);
    }

    /// Looks for connections whose time is over, and for clients that lingered long enough.
    fn look_at_deadlines(&mut self, connections: &[Connection], clients: &mut [Client])
        ensures { numbers clients.new ≡ numbers clients.old }
    {
        if self.now < self.check {
            return;
        }
        self.check = self.now.saturating_add(DEADLINES_EVERY_MS);
        'clients: for (at, client) in clients.iter_mut().enumerate() {
            let Some(connection) = connections.get(at) else {
                break;
            };
            self.look_at_times(connection, client);
        }
        let now = self.now;
        self.lingering.retain(|client| client.is_read_out(now));
    }

    /// Whether all places are taken and a client waits for one.
    fn wants_place(&self) -> bool {
        self.accepted.is_some() && self.places() >= self.limits.clients
    }

    /// The connection that gives its place up: of those that have neither a whole request nor an answer to be sent, the
    /// one whose last answer was sent, or that was accepted, longest ago, if that is at least two seconds.
    fn gives_place(&self, connections: &[Connection], clients: &[Client]) -> Option<u64> {
        let mut first = u64::MAX;
        let mut number = None;
        for (connection, client) in connections.iter().zip(clients.iter()) {
            let kept = client.since.saturating_add(KEPT_MS) > self.now;
            if connection.is_open() && !client.readable && !kept && client.since < first {
                first = client.since;
                number = Some(connection.number);
            }
        }
        number
    }

    /// The connection that gives its memory up: of those that hold more than each may, the one that was silent longest,
    /// if that is at least two seconds and none of its bytes wait unread.
    fn gives_room(&self, connections: &[Connection], clients: &[Client]) -> Option<u64> {
        let mut first = u64::MAX;
        let mut number = None;
        for (connection, client) in connections.iter().zip(clients.iter()) {
            let kept = client.last_bytes_ms.saturating_add(KEPT_MS) > self.now;
            let holds = connection.is_open() && connection.unread.len() > FREE_BYTES;
            if holds && !client.readable && !kept && client.last_bytes_ms < first {
                first = client.last_bytes_ms;
                number = Some(connection.number);
            }
        }
        number
    }

    /// The connection that is closed for others that wait for a place or for memory, if any. Connections that only
    /// linger are closed first.
    fn gives_way(&mut self, connections: &[Connection], clients: &[Client]) -> Option<u64> {
        let wants_place = self.wants_place();
        if !(wants_place || self.crowded) || self.now < self.look {
            return None;
        }
        self.look = self.now.saturating_add(LOOK_EVERY_MS);
        if wants_place {
            if !self.lingering.is_empty() {
                self.lingering.clear();
                return None;
            }
            if let Some(number) = self.gives_place(connections, clients) {
                return Some(number);
            }
        }
        if !self.crowded {
            return None;
        }
        self.gives_room(connections, clients)
    }

    /// Whether more bytes of requests are unread than the limit.
    fn is_full(&mut self, connections: &[Connection]) -> bool {
        if self.unread_bytes <= UNREAD_BYTES {
            self.crowded = false;
            return false;
        }
        self.unread_bytes = bytes_of(connections);
        self.crowded = self.crowded && self.unread_bytes > UNREAD_BYTES;
        self.unread_bytes > UNREAD_BYTES
    }

    /// Reads out a client whose turn it is, and who only lingers.
    fn read_out(&mut self, number: u64) {
        let quiet = self.now.saturating_add(self.quiet);
        let Ok(at) = search(&self.lingering, number) else {
            return;
        };
        let client = &mut self.lingering[at];
        client.queued = false;
        if client.read_out(&mut self.scratch, quiet) {
            client.queue(&mut self.ready);
        } else if client.last_reads == 0 {
            drop(self.lingering.remove(at));
        }
    }

    /// What can be done for a client whose turn it is, if anything. It is queued again if more may be done later: behind
    /// the others if it can go on, and aside while it has requests to be answered. Its request is read freely, or as far
    /// as its room goes.
    fn turn_of(
        &mut self,
        connection: &Connection,
        client: &mut Client,
        freely: bool,
    ) -> Option<Ready>
        ensures { client.new.number ≡ client.old.number }
    {
        client.queued = false;
        if client.may_write(connection) {
            client.queue(&mut self.ready);
            return Some(Ready::Writable(connection.number));
        }
        if !client.readable || connection.end.is_some() || !connection.pending.text.is_empty() {
            return None;
        }
        if !connection.is_open() {
            client.queue(&mut self.aside);
            return None;
        }
        client.queue(&mut self.ready);
        let most = room_of(connection, freely);
        client.crowded = most == 0;
        if most == 0 {
            self.crowded = true;
            return None;
        }
        self.most = most;
        Some(Ready::Readable(connection.number))
    }

    /// Looks at the client whose turn it is: one whose connection is open, or one that only lingers.
    fn look_at(
        &mut self,
        number: u64,
        connections: &[Connection],
        clients: &mut [Client],
        full: bool,
        first: Option<u64>,
    ) -> Option<Ready>
        ensures { numbers clients.new ≡ numbers clients.old }
    {
        let Some(at) = index_of(connections, number) else {
            self.read_out(number);
            return None;
        };
        let connection = connections.get(at)?;
        if at >= clients.len() {
            return None;
        }
        self.place = at;
        let freely = !full || first == Some(number);
        self.turn_of(connection, &mut clients[at], freely)
    }

    /// The next client that can go on, of those that wait for their turns.
    fn next_in_turn(
        &mut self,
        connections: &[Connection],
        clients: &mut [Client],
        full: bool,
        first: Option<u64>,
    ) -> Option<Ready>
        ensures { numbers clients.new ≡ numbers clients.old }
    {
        'turns: for _ in 0..self.ready.len() {
            let number = self.ready.pop_front()?;
            if let Some(ready) = self.look_at(number, connections, clients, full, first) {
                return Some(ready);
            }
        }
        None
    }

    /// The same, of those that still have requests to be answered.
    fn next_aside(
        &mut self,
        connections: &[Connection],
        clients: &mut [Client],
        full: bool,
        first: Option<u64>,
    ) -> Option<Ready>
        ensures { numbers clients.new ≡ numbers clients.old }
    {
        'turns: for _ in 0..self.aside.len() {
            let number = self.aside.pop_front()?;
            if let Some(ready) = self.look_at(number, connections, clients, full, first) {
                return Some(ready);
            }
        }
        None
    }

    /// What can be done next for a client. One that still has requests to be answered is read only if no other can go
    /// on, or after some others.
    fn next_ready(&mut self, connections: &[Connection], clients: &mut [Client]) -> Option<Ready>
        ensures { numbers clients.new ≡ numbers clients.old }
    {
        let full = self.is_full(connections);
        let first = if full { fullest(connections) } else { None };
        if self.ahead < MOST_AHEAD {
            if let Some(ready) = self.next_in_turn(connections, clients, full, first) {
                self.ahead = self.ahead.saturating_add(1);
                return Some(ready);
            }
        }
        self.ahead = 0;
        if let Some(ready) = self.next_aside(connections, clients, full, first) {
            return Some(ready);
        }
        self.next_in_turn(connections, clients, full, first)
    }
}

impl Sockets<'_> {
    /// If a connection was offered and not accepted, memory ran out for it: none is offered for a while.
    fn note_refusal(&mut self) {
        if self.offered {
            self.offered = false;
            self.paused = self.now.saturating_add(PAUSE_MS);
        }
    }

    /// Whether the system is asked for new events before the next turn. While requests are left from turn to turn it is
    /// asked in each, so that one that arrives is read in the next; but less often if there is only one client.
    fn is_to_ask(&self, may_wait: bool) -> bool {
        let most = if may_wait {
            TURNS
        } else if self.places() > 1 {
            1
        } else {
            TURNS_OF_ONE
        };
        self.turns >= most
    }

    /// Looks for connections whose time is over, and for one that gives way to others. Returns the first of these.
    fn given_up(&mut self, connections: &[Connection], clients: &mut [Client]) -> Option<u64>
        ensures { numbers clients.new ≡ numbers clients.old }
    {
        self.look_at_deadlines(connections, clients);
        if let Some(number) = self.expired.pop_front() {
            return Some(number);
        }
        self.gives_way(connections, clients)
    }

    /// What can be done next. Turns alternate: one accepts first, the next reads or writes first.
    fn next_of_all(&mut self, connections: &[Connection], clients: &mut [Client]) -> Option<Ready>
        ensures { numbers clients.new ≡ numbers clients.old }
    {
        self.accepts_first = !self.accepts_first;
        if self.accepts_first && self.has_next() {
            self.offered = true;
            return Some(Ready::Came);
        }
        if let Some(ready) = self.next_ready(connections, clients) {
            return Some(ready);
        }
        if self.has_next() {
            self.offered = true;
            return Some(Ready::Came);
        }
        None
    }
}

impl Ports for Sockets<'_> {
    type Client = Client;

    ghost seen = { λ s. None };

    ghost number_of = { λ client. client.number };

    fn next(
        &mut self,
        connections: &[Connection],
        clients: &mut [Client],
        may_wait: bool,
    ) -> Ready {
        if let Some(number) = self.expired.pop_front() {
            return Ready::Expired(number);
        }
        self.note_refusal();
        self.open = connections.len();
        let asks = self.is_to_ask(may_wait);
        if asks {
            if self.wait(0, connections, clients).is_err() {
                return Ready::Failed;
            }
            if let Some(number) = self.given_up(connections, clients) {
                return Ready::Expired(number);
            }
        }
        self.turns = self.turns.saturating_add(1);
        if let Some(ready) = self.next_of_all(connections, clients) {
            return ready;
        }
        if asks && !may_wait {
            return Ready::Nothing;
        }
        let longest = self.longest(may_wait);
        if self.wait(longest, connections, clients).is_err() {
            return Ready::Failed;
        }
        match self.given_up(connections, clients) {
            Some(number) => Ready::Expired(number),
            None => Ready::Nothing,
        }
    }

    fn place(&self) -> usize {
        self.place
    }

    fn accept(&mut self, number: u64) -> Option<Client> {
        self.offered = false;
        let mut stream = self.accepted.take()?;
        let token = Token(number as usize);
        let both = Interest::READABLE | Interest::WRITABLE;
        if stream.set_nodelay(true).is_err()
            || self
                .poll
                .registry()
                .register(&mut stream, token, both)
                .is_err()
            || self.lingering.reserve(self.open.saturating_add(1)).is_err()
        {
            return None;
        }
        self.left = self.left.saturating_sub(1);
        Some(Client::new(stream, number, self.now, self.until()))
    }

    fn put_off(&mut self, _number: u64) {}

    fn take(&mut self, client: &mut Client, buf: &mut [u8]) -> Taken {
        let taken = client.take(buf, self.most);
        if let Taken::Bytes(n) = taken {
            client.until = self.until();
            client.last_bytes_ms = self.now;
            client.crowded = false;
            if client.whole.is_none() {
                client.whole = self.whole();
            }
            self.unread_bytes = self.unread_bytes.saturating_add(n);
        }
        taken
    }

    fn put(&mut self, client: &mut Client, bytes: &[u8]) -> Sent {
        let sent = client.put(bytes);
        if let Sent::Bytes(n) = sent {
            if n > 0 {
                client.until = self.until();
                client.last_bytes_ms = self.now;
                client.since = self.now;
                client.whole = None;
            }
            client.queue(&mut self.ready);
        }
        sent
    }

    fn close(&mut self, client: Client, end: End) {
        self.let_go(client, end);
    }

    fn take_back(&mut self, client: Client) {
        self.let_go(client, End::Fault);
    }
}
