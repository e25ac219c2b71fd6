//! Sessions over readers and writers of std.

ghost use Rattle.std.specs.Prelude.{◌≤◌};

use crate::exchanges::{NO_ROUTE, NOT_GRANTED, NOTHING, STATUS};
use crate::streams::{joined, portion, run};
use plant_wire::{End, FromRead, ToWrite};
use std::alloc::Global;
use std::io;
use std::io::{ErrorKind, Read, Write};
use std::process::Abort;
use std::time::{Duration, Instant};

/// A reader that returns one byte per read.
#[derive(Drop)]
struct ByByte {
    bytes: Vec<u8>,
    at: usize,
}

impl Read for ByByte {
    fn read(&mut self, buf: &mut [u8]) -> io::Result<usize> {
        let n = portion(self.bytes.as_slice(), self.at, 1, buf);
        self.at = self.at.saturating_add(n);
        Ok(n)
    }
}

/// A writer that takes at most this many bytes per write.
#[derive(Drop)]
struct Narrow {
    bytes: Vec<u8>,
    most: usize,
}

impl Write for Narrow {
    fn write(&mut self, buf: &[u8]) -> io::Result<usize> {
        let n = buf.len().min(self.most);
        self.bytes.extend_from_slice(&buf[..n])?;
        Ok(n)
    }

    fn flush(&mut self) -> io::Result<()> {
        Ok(())
    }
}

/// What was written to a writer of this many bytes per write, if the input arrives byte by byte, and how the session
/// ended.
fn written(rt: &impl Abort, alloc: Global, bytes: Vec<u8>, most: usize) -> (Vec<u8>, End) {
    let mut inlet = FromRead::new(ByByte { bytes, at: 0 });
    let mut writer = Narrow {
        bytes: Vec::new(alloc),
        most,
    };
    let mut outlet = ToWrite::new(&mut writer);
    let end = run(rt, alloc, &mut inlet, &mut outlet);
    drop(outlet);
    (writer.bytes, end)
}

#[test]
fn stops_where_a_writer_takes_nothing(rt: HostRuntime) {
    let alloc = rt.alloc();
    let (answers, end) = written(&rt, alloc, joined(&rt, alloc, &[STATUS]), 0);
    assert_eq!(rt; end, End::WriteFailed);
    assert!(rt; answers.is_empty());
}

/// A head of 4,000 empty fields, as large as a head can be, and a body of 400,000 bytes.
fn large_head_and_body(rt: &impl Abort, alloc: Global) -> Vec<u8> {
    let mut out = joined(
        rt,
        alloc,
        &[b"POST /nothing HTTP/1.1\r\nContent-Length: 400000\r\n"],
    );
    for _ in 0..4000u32 {
        out.extend_from_slice(b"a:\r\n").expect(rt, "memory");
    }
    out.extend_from_slice(b"\r\n").expect(rt, "memory");
    for _ in 0..400_000u32 {
        out.push(b'b').expect(rt, "memory");
    }
    out
}

/// A body that arrives byte by byte costs no more behind a large head, which is parsed once and not again at each byte.
#[test]
fn reads_a_head_once(rt: HostRuntime) {
    let alloc = rt.alloc();
    let request = large_head_and_body(&rt, alloc);
    let begin = Instant::now(&rt).expect(&rt, "a clock");
    let (answers, end) = written(&rt, alloc, request, 4096);
    let taken = begin.elapsed(&rt).expect(&rt, "a clock");
    assert_eq!(rt; end, End::Closed);
    assert!(rt; answers.as_slice() == NO_ROUTE);
    assert!(rt; taken < Duration::from_secs(5), "too long");
}

/// A stream whose every second read and every second write is interrupted by a signal.
#[derive(Drop)]
struct Interrupted<S> {
    stream: S,
    next: bool,
}

impl<S> Interrupted<S> {
    /// Whether this read or write is made, not interrupted.
    fn is_made(&mut self) -> bool {
        self.next = !self.next;
        !self.next
    }
}

impl<R: Read> Read for Interrupted<R> {
    fn read(&mut self, buf: &mut [u8]) -> io::Result<usize> {
        if self.is_made() {
            self.stream.read(buf)
        } else {
            Err(ErrorKind::Interrupted.into())
        }
    }
}

impl<W: Write> Write for Interrupted<W> {
    fn write(&mut self, buf: &[u8]) -> io::Result<usize> {
        if self.is_made() {
            self.stream.write(buf)
        } else {
            Err(ErrorKind::Interrupted.into())
        }
    }

    fn flush(&mut self) -> io::Result<()> {
        self.stream.flush()
    }
}

/// A signal, as when the program was stopped and continued, ends no session.
#[test]
fn reads_and_writes_again_after_a_signal(rt: HostRuntime) {
    let alloc = rt.alloc();
    let bytes = joined(&rt, alloc, &[STATUS, NOTHING, STATUS]);
    let wanted = joined(&rt, alloc, &[NOT_GRANTED, NO_ROUTE, NOT_GRANTED]);
    let mut inlet = FromRead::new(Interrupted {
        stream: ByByte { bytes, at: 0 },
        next: false,
    });
    let mut writer = Narrow {
        bytes: Vec::new(alloc),
        most: 7,
    };
    let mut outlet = ToWrite::new(Interrupted {
        stream: &mut writer,
        next: false,
    });
    let end = run(&rt, alloc, &mut inlet, &mut outlet);
    drop(outlet);
    assert_eq!(rt; end, End::Closed);
    assert!(rt; writer.bytes.as_slice() == wanted.as_slice());
}
