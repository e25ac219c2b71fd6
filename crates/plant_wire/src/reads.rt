//! The loop of a session: reads bytes, answers all requests that are complete, and keeps the rest for the next read,
//! until the session ends.

ghost use Rattle.std.specs.Prelude.{◌≡◌, ◌≤◌, length, drop};
ghost use Rattle.plant_books.specs.Books.{WasHonest};
ghost use Rattle.plant_wire.specs.{Limits.{least_room}, Over.{IsSessionOn, RanWith, ReadsOn, StopsOn}, Session.{IsFewReads, IsIdle}};
ghost use Rattle.plant_wire.specs.Session as session;

use crate::step::{Parser, Rest, Stop, answer_all};
use crate::streams::{Inlet, Outlet};
use plant_office::{Books, Office};
use plant_types::limits::MAX_READS;
use std::alloc::Global;

/// How a session ended.
#[derive(Clone, Copy, Debug, PartialEq, Eq)]
pub enum End {
    /// The input ended, and all of it was answered.
    Closed,
    /// The input ended within a request, which is not answered, or can't be read as requests, which is answered with
    /// the cause.
    BrokenInput,
    /// A read failed, or the limit of reads was reached; all whole requests were answered.
    ReadFailed,
    /// A write failed, or took nothing.
    WriteFailed,
    /// Memory ran out. The last call may have been made without its answer being written.
    Fault,
}

/// Whether the client may still be sending after this end: the office ended the session, and not because of a failed
/// read or write.
pub fn may_send(end: End) -> bool
    ensures { result ≡ session.may_send end }
{
    match end {
        End::BrokenInput | End::Fault => true,
        End::Closed | End::ReadFailed | End::WriteFailed => false,
    }
}

/// How a read went.
#[derive(Clone, Copy, Debug)]
pub(crate) enum Read {
    More,
    Finished,
    Failed,
    Fault,
}

/// The size of a read buffer, in bytes.
pub const CHUNK: usize = 65536;

/// One read, appended to the unread bytes. These must not hold a whole request, so that a client that waits for an
/// answer has it before more is read.
fn read_more<I: Inlet>(inlet: &mut I, chunk: &mut [u8], buffer: &mut Vec<u8>) -> Read
    requires room { least_room ≤ length chunk.old }
    requires answered { IsIdle buffer.old.items }
    ensures { ReadsOn I.Inlet inlet.old inlet.new buffer.old.items buffer.new.items result }
{
    match inlet.take(chunk) {
        Err(_) => Read::Failed,
        Ok(0) => Read::Finished,
        Ok(n) => match buffer.extend_from_slice(&chunk[..n]) {
            Ok(()) => Read::More,
            Err(_) => Read::Fault,
        },
    }
}

/// Removes the first `n` bytes. A buffer that becomes empty releases its memory.
pub fn drop_front(alloc: Global, buffer: &mut Vec<u8>, n: usize)
    requires { n ≤ length buffer.old.items }
    ensures { buffer.new.items ≡ drop n buffer.old.items }
{
    if n == buffer.len() {
        *buffer = Vec::new(alloc);
        return;
    }
    let rest = buffer.len() - n;
    buffer.rotate_left(n);
    buffer.truncate(rest);
}

fn run_reads<I: Inlet, O: Outlet, B: Books>(
    alloc: Global,
    parser: &mut Parser,
    chunk: &mut [u8],
    inlet: &mut I,
    outlet: &mut O,
    office: &mut Office<B>,
) -> End
    requires { least_room ≤ length chunk.old }
    ensures does { IsSessionOn I.Inlet O.Outlet inlet.old inlet.new outlet.old outlet.new
        (RanWith B.Books office.old office.new) result }
    ensures honest { WasHonest B.is_honest office.old.books office.new.books }
    ensures stops { StopsOn I.Inlet O.Outlet inlet.old inlet.new outlet.old outlet.new result }
    ensures counted { IsFewReads (I.reads inlet.old) (I.reads inlet.new) }
{
    let mut buffer = Vec::new(alloc);
    let mut wanted = 0;
    'reads: for count in 0..MAX_READS {
        match read_more(inlet, chunk, &mut buffer) {
            Read::Failed => return End::ReadFailed,
            Read::Fault => return End::Fault,
            Read::Finished => {
                if buffer.as_slice().is_empty() {
                    return End::Closed;
                }
                return End::BrokenInput;
            }
            Read::More => {}
        }
        match answer_all(alloc, parser, &buffer, wanted, outlet, office) {
            Err(Stop::WriteFailed) => return End::WriteFailed,
            Err(Stop::Fault) => return End::Fault,
            Ok(Rest::Broken) => return End::BrokenInput,
            Ok(Rest::Waits(n, more)) => {
                drop_front(alloc, &mut buffer, n);
                wanted = more;
            }
        }
    }
    End::ReadFailed
}

/// Reads and answers requests, until the input ends, it can't be read as requests, a read or a write fails, or memory
/// runs out. After each read all whole requests are answered in their order, each answer being written whole before the
/// next call is made. At most 1,000,000 reads are made, each with room for 65,536 bytes.
///
/// The answers to the calls in the bytes received are written, however the reads and the writes are cut. A call that
/// the office answers by a fault is answered 503, which takes no memory, and the session goes on.
pub fn session<I: Inlet, O: Outlet, B: Books>(
    alloc: Global,
    inlet: &mut I,
    outlet: &mut O,
    office: &mut Office<B>,
) -> End
    ensures does { IsSessionOn I.Inlet O.Outlet inlet.old inlet.new outlet.old outlet.new
        (RanWith B.Books office.old office.new) result }
    ensures honest { WasHonest B.is_honest office.old.books office.new.books }
    ensures stops { StopsOn I.Inlet O.Outlet inlet.old inlet.new outlet.old outlet.new result }
    ensures counted { IsFewReads (I.reads inlet.old) (I.reads inlet.new) }
{
    let Ok(mut parser) = Parser::new(alloc) else {
        return End::Fault;
    };
    let Ok(mut bytes) = vec![in alloc; 0u8; CHUNK] else {
        return End::Fault;
    };
    let chunk = bytes.as_mut_slice();
    run_reads(alloc, &mut parser, chunk, inlet, outlet, office)
}
