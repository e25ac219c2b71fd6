//! Adapters from the readers and writers of std to the streams of a session. A call that a signal interrupts is
//! repeated a limited number of times.

ghost use Rattle.std.specs.{Io.{ReadsAtMost, WritesAtMost, KnownBytes.{ReadConsumes, WriteAppends}}, IoError.{error_kind}, Option.{is_some}};
ghost use Rattle.std.specs.Prelude.{◌≡◌, ◌≢◌, ◌<◌, ◌-◌, ◌^◌, if◌then◌else◌, None, Some, IfErr, IsSome, false, true};

use crate::streams::{Failed, Inlet, Outlet};
use std::io;
use std::io::{ErrorKind, Read, Write};

/// How many times a read or write is tried while signals interrupt it, as when the program is stopped and continued.
const TRIES: u32 = 1000;

/// One read, tried again if a signal interrupts it.
fn read_on<R: Read>(reader: &mut R, buf: &mut [u8]) -> io::Result<usize>
    ensures bound { ReadsAtMost result buf.new }
    ensures bytes { ReadConsumes (R.remaining reader.old) (R.remaining reader.new) result buf.new }
    ensures retried { IfErr result (λ e. error_kind e ≢ ErrorKind.Interrupted) }
{
    'tries: for _ in 0..TRIES {
        match reader.read(buf) {
            Err(error) if error.kind() == ErrorKind::Interrupted => {}
            outcome => return outcome,
        }
    }
    Err(ErrorKind::TimedOut.into())
}

/// One write, tried again if a signal interrupts it.
fn write_on<W: Write>(writer: &mut W, bytes: &[u8]) -> io::Result<usize>
    ensures bound { WritesAtMost result bytes.now }
    ensures bytes { WriteAppends (W.contents writer.old) (W.contents writer.new) result bytes.now }
    ensures retried { IfErr result (λ e. error_kind e ≢ ErrorKind.Interrupted) }
{
    'tries: for _ in 0..TRIES {
        match writer.write(bytes) {
            Err(error) if error.kind() == ErrorKind::Interrupted => {}
            outcome => return outcome,
        }
    }
    Err(ErrorKind::TimedOut.into())
}

/// An inlet over a reader of std, which claims of its bytes what the reader claims. It fails with the reader's error,
/// with `TimedOut` if signals interrupted one read a thousand times, or if no more reads can be counted.
#[derive(Drop)]
pub struct FromRead<R: Read> {
    reader: R,
    reads: u64,
    ended: bool,
    failed: bool,
    error: Option<io::Error>,
    ghost caused: { failed ≡ true → reads < 2 ^ 64 - 1 → IsSome error },
}

impl<R: Read> FromRead<R> {
    /// The inlet over this reader, before its first read.
    pub fn new(reader: R) -> FromRead<R>
        ensures reader { result.reader ≡ reader }
        ensures unread { result.reads ≡ 0 }
        ensures going { result.ended ≡ false }
        ensures fresh { result.failed ≡ false }
    {
        FromRead {
            reader,
            reads: 0,
            ended: false,
            failed: false,
            error: None,
        }
    }

    /// The reader, as the reads left it.
    pub fn into_reader(self) -> R
        ensures { result ≡ self.reader }
    {
        self.reader
    }
}

impl<R: Read> Inlet for FromRead<R> {
    ghost remaining = { λ s. R.remaining s.reader };

    ghost failures = { λ s. if s.failed then 1 else 0 };

    ghost ended = { λ s. s.ended };

    ghost reads = { λ s. s.reads };

    fn take(&mut self, buf: &mut [u8]) -> Result<usize, Failed> {
        if self.failed {
            return Err(Failed);
        }
        if self.reads == u64::MAX {
            self.failed = true;
            return Err(Failed);
        }
        match read_on(&mut self.reader, buf) {
            Ok(n) => {
                self.reads += 1;
                if n == 0 && !buf.is_empty() {
                    self.ended = true;
                }
                Ok(n)
            }
            Err(error) => {
                self.error = Some(error);
                self.failed = true;
                Err(Failed)
            }
        }
    }
}

/// An outlet over a writer of std, which claims of its bytes what the writer claims. It fails with the writer's error,
/// with `TimedOut` if signals interrupted one write a thousand times, or with `WriteZero` if the writer took none of
/// some bytes.
#[derive(Drop)]
pub struct ToWrite<W: Write> {
    writer: W,
    error: Option<io::Error>,
}

impl<W: Write> ToWrite<W> {
    /// The outlet over this writer, before any failed write.
    pub fn new(writer: W) -> ToWrite<W>
        ensures writer { result.writer ≡ writer }
        ensures fresh { result.error ≡ None }
    {
        ToWrite {
            writer,
            error: None,
        }
    }
}

impl<W: Write> Outlet for ToWrite<W> {
    ghost written = { λ s. W.contents s.writer };

    ghost failures = { λ s. if is_some s.error then 1 else 0 };

    fn put(&mut self, bytes: &[u8]) -> Result<usize, Failed> {
        if self.error.is_some() {
            return Err(Failed);
        }
        match write_on(&mut self.writer, bytes) {
            Ok(n) => {
                if n == 0 && !bytes.is_empty() {
                    self.error = Some(ErrorKind::WriteZero.into());
                }
                Ok(n)
            }
            Err(error) => {
                self.error = Some(error);
                Err(Failed)
            }
        }
    }
}

/// For what is written in addition to the answers, such as lines of a log: if that fails, it does not count as a failed
/// answer.
impl<W: Write> Write for ToWrite<W> {
    ghost contents = { λ s. W.contents s.writer };

    fn write(&mut self, bytes: &[u8]) -> io::Result<usize> {
        self.writer.write(bytes)
    }

    fn flush(&mut self) -> io::Result<()> {
        self.writer.flush()
    }
}
