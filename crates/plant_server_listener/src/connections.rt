//! Serves a given number of connections one after the other. A client that breaks its connection costs that connection
//! only.

ghost use Rattle.std.specs.Prelude.{◌≡◌, ◌⊎◌, ◌+◌, ◌<◌, ℕ, suc, Bool, IsTrue, List, [], Some, length, IfOk, OnOk, OnErr};
ghost use Rattle.plant_books.specs.Books.{WasHonest};
ghost use Rattle.plant_wire.specs.{Over.{RanWith}, declared.reads.End.{End}};
ghost use Rattle.plant_server_listener.specs.Connections.{AreServedInTurn, AreSeen, Exchange, IsNext, IsShownAs, IsWhole, StopsAfter, Traffic};

use plant_office::{Books, Office};
use plant_server_log::say_end;
use plant_wire::{End, Failed, Inlet, Outlet, may_send, session};
use std::alloc::Global;
use std::io::Write;

/// A source of connections, one after the other. After one failure it fails from then on.
pub trait Listener {
    /// Where a connection's requests come from.
    type Requests: Inlet + Drop;

    /// Where its answers go.
    type Answers: Outlet + Drop;

    /// How many connections were accepted.
    ghost accepted: { Self → ℕ };

    /// How many times accepting failed: never, or once.
    ghost failures: { Self → ℕ };

    /// Whether it records what is received and sent over its connections.
    ghost is_seen: { Self → Bool };

    /// What it has recorded.
    ghost traffic: { Self → Traffic };

    /// Waits for the next connection.
    fn accept(&mut self) -> Result<(Self::Requests, Self::Answers), Failed>
        ensures counted { OnOk result (accepted self.new ≡ accepted self.old + 1) }
        ensures ok { OnOk result (failures self.new ≡ failures self.old) }
        ensures uncounted { OnErr result (accepted self.new ≡ accepted self.old) }
        ensures failed { OnErr result (failures self.new ≡ 1) }
        ensures comes { IsTrue (is_seen self.old) → IfOk result (λ streams.
            Self.Requests.remaining streams.0 ≡ Some ((traffic self.old).incoming (accepted self.old))) }
        ensures whole { IsTrue (is_seen self.old) → IfOk result (λ streams.
            (Self.Requests.failures streams.0 ≡ 0) × (Self.Requests.reads streams.0 ≡ 0)) }
        ensures goes { IsTrue (is_seen self.old) → IfOk result (λ streams.
            (Self.Answers.written streams.1 ≡ Some []) × (Self.Answers.failures streams.1 ≡ 0)) }
        ensures seen { is_seen self.new ≡ is_seen self.old }
        ensures shown { traffic self.new ≡ traffic self.old };

    /// Closes the connection that was accepted last. If it lingers, its client may still be sending, and must receive
    /// what it was answered all the same.
    fn close(&mut self, requests: Self::Requests, answers: Self::Answers, lingers: bool)
        ensures counted { accepted self.new ≡ accepted self.old }
        ensures failed { failures self.new ≡ failures self.old }
        ensures goes { IsTrue (is_seen self.old) → (k : ℕ) → suc k ≡ accepted self.old
            → Self.Answers.written answers ≡ Some ((traffic self.new).outgoing k) }
        ensures cause { IsTrue (is_seen self.old) → (k : ℕ) → suc k ≡ accepted self.old
            → IsTrue ((traffic self.new).failed k) ⊎ IsWhole (Self.Requests.failures requests) (Self.Requests.reads requests)
            (Self.Answers.failures answers) }
        ensures seen { is_seen self.new ≡ is_seen self.old }
        ensures incoming { (traffic self.new).incoming ≡ (traffic self.old).incoming }
        ensures others { (k : ℕ) → suc k < accepted self.old → IsShownAs (traffic self.old) (traffic self.new) k };
}

/// Accepts the next connection, runs one session over it, and closes it.
pub(crate) fn serve_next<L: Listener, B: Books>(
    alloc: Global,
    listener: &mut L,
    office: &mut Office<B>,
) -> Result<End, Failed>
    ensures does { IfOk result (IsNext (RanWith B.Books office.old office.new) (L.is_seen listener.old)
        (L.traffic listener.new) (L.accepted listener.old)) }
    ensures seen { L.is_seen listener.new ≡ L.is_seen listener.old }
    ensures others { (k : ℕ) → k < L.accepted listener.old
        → IsShownAs (L.traffic listener.old) (L.traffic listener.new) k }
    ensures honest { OnOk result (WasHonest B.is_honest office.old.books office.new.books) }
    ensures counted { OnOk result (L.accepted listener.new ≡ L.accepted listener.old + 1) }
    ensures ok { OnOk result (L.failures listener.new ≡ L.failures listener.old) }
    ensures unmade { OnErr result (office.new ≡ office.old) }
    ensures uncounted { OnErr result (L.accepted listener.new ≡ L.accepted listener.old) }
    ensures failed { OnErr result (L.failures listener.new ≡ 1) }
{
    let (mut requests, mut answers) = listener.accept()?;
    let end = session(alloc, &mut requests, &mut answers, office);
    listener.close(requests, answers, may_send(end));
    Ok(end)
}

/// Serves `n` connections, one after the other, each by a session of its own, and writes to the log after each how it
/// ended. Whatever a client does costs its own connection only: fewer are served, and `Failed` is returned, only if
/// accepting fails.
pub fn serve_connections<L: Listener, B: Books, W: Write>(
    alloc: Global,
    listener: &mut L,
    n: u64,
    office: &mut Office<B>,
    log: &mut W,
) -> Result<(), Failed>
    ensures served { (exchanges : List Exchange)
        × AreServedInTurn B.Books office.old.books office.new.books (W.contents log.old) (W.contents log.new) exchanges
        × (IsTrue (L.is_seen listener.old) → AreSeen (L.traffic listener.new) (L.accepted listener.old) exchanges)
        × (L.accepted listener.new ≡ L.accepted listener.old + length exchanges)
        × StopsAfter n (L.failures listener.old) (L.failures listener.new) (length exchanges) result }
    ensures honest { WasHonest B.is_honest office.old.books office.new.books }
{
    'connections: for count in 0..n {
        let Ok(end) = serve_next(alloc, listener, office) else {
            return Err(Failed);
        };
        say_end(alloc, log, count + 1, end);
    }
    Ok(())
}
