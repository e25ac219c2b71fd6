//! Serves connections one after the other, as `connections` does, but stops once a failure has shut the store, which
//! stays shut until the program is started again.

ghost use Rattle.std.specs.Prelude.{◌≡◌, ◌+◌, Err, IsTrue, List, length, map};
ghost use Rattle.plant_books.specs.Books.{WasHonest};
ghost use Rattle.plant_server_listener.specs.Connections.{AreServedInTurn, AreSeen, Exchange, HaltsAfter, faults_of};
ghost use Rattle.plant_server_log.specs.Log.{TellsFaults};

use crate::connections::{Listener, serve_next};
use plant_office::{Books, Office};
use plant_server_log::{say_end, say_faults};
use std::alloc::Global;
use std::io::Write;

/// Why a service that goes on only while its store is open served fewer connections than it was asked for.
#[derive(Clone, Copy, Debug, PartialEq, Eq)]
pub enum Stopped {
    /// Accepting failed.
    Failed,
    /// A failure shut the store.
    Shut,
}

/// Serves `n` connections as `serve_connections` does, but only while the store is open: if a failure shuts it, the
/// current connection is served to its end, and none after it. After each connection it also writes to `errors` a line
/// for each kind of fault among the answers on that connection, and nothing else; faults that the office answered
/// before the first connection are not reported.
pub fn serve_while_open<L: Listener, B: Books, W: Write, E: Write>(
    alloc: Global,
    listener: &mut L,
    n: u64,
    office: &mut Office<B>,
    log: &mut W,
    errors: &mut E,
) -> Result<(), Stopped>
    ensures served { (exchanges : List Exchange)
        × AreServedInTurn B.Books office.old.books office.new.books (W.contents log.old) (W.contents log.new) exchanges
        × (IsTrue (L.is_seen listener.old) → AreSeen (L.traffic listener.new) (L.accepted listener.old) exchanges)
        × (L.accepted listener.new ≡ L.accepted listener.old + length exchanges)
        × HaltsAfter n (L.failures listener.old) (L.failures listener.new) (length exchanges) result
        × TellsFaults (E.contents errors.old) (map faults_of exchanges) (E.contents errors.new) }
    ensures honest { WasHonest B.is_honest office.old.books office.new.books }
    ensures shut { result ≡ Err Stopped.Shut → ¬ B.is_honest office.new.books }
{
    drop(office.take_faults());
    'connections: for count in 0..n {
        if office.is_shut() {
            return Err(Stopped::Shut);
        }
        let Ok(end) = serve_next(alloc, listener, office) else {
            return Err(Stopped::Failed);
        };
        say_end(alloc, log, count + 1, end);
        say_faults(errors, office.take_faults());
    }
    Ok(())
}
