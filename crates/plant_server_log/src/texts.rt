//! The lines that a service writes to its log and its errors: how a connection ended, and which kinds of fault it was
//! answered. A failed write of such a line is ignored.

ghost use Rattle.std.specs.{Io.KnownBytes.{Appends}, Prelude.{◌≡◌, ℕ, take, IfOk}};
ghost use Rattle.plant_server_log.specs.Log as spec;

use itoa::Buffer;
use plant_office::Faults;
use plant_wire::{End, bytes_from};
use std::alloc::{AllocError, Global};
use std::io::Write;

/// The name of an end, as the log and the program write it.
pub fn end_name(end: End) -> &'static [u8]
    ensures { result.now ≡ spec.end_name end }
{
    match end {
        End::Closed => b"Closed",
        End::BrokenInput => b"BrokenInput",
        End::ReadFailed => b"ReadFailed",
        End::WriteFailed => b"WriteFailed",
        End::Fault => b"Fault",
    }
}

/// Writes a text. A failed write is ignored.
pub fn say<W: Write>(writer: &mut W, text: &[u8])
    ensures { (n : ℕ) × Appends (W.contents writer.old) (W.contents writer.new) (take n text.now) }
{
    let mut at = 0;
    'writes: while at < text.len() {
        match writer.write(bytes_from(text, at)) {
            Ok(0) | Err(_) => return,
            Ok(n) => at += n,
        }
    }
}

/// A line for each kind of these faults.
fn fault_lines(faults: Faults) -> &'static [u8]
    ensures { result.now ≡ spec.fault_lines faults }
{
    match (faults.memory, faults.store) {
        (false, false) => b"",
        (true, false) => b"fault: Memory\n",
        (false, true) => b"fault: Store\n",
        (true, true) => b"fault: Memory\nfault: Store\n",
    }
}

/// Writes a line for each kind of these faults. A failed write is ignored.
pub fn say_faults<W: Write>(errors: &mut W, faults: Faults)
    ensures { (n : ℕ) × Appends (W.contents errors.old) (W.contents errors.new)
        (take n (spec.fault_lines faults)) }
{
    say(errors, fault_lines(faults));
}

#[tactic(auto, unfolding(crate::specs::Log::line_of))]
fn line_of(alloc: Global, count: u64, end: End) -> Result<Vec<u8>, AllocError>
    ensures { IfOk result (λ line. line.items ≡ spec.line_of count end) }
{
    let mut buffer = Buffer::new();
    let mut line = Vec::from_slice(alloc, b"connection ")?;
    line.extend_from_slice(buffer.format(count).as_bytes())?;
    line.extend_from_slice(b" ")?;
    line.extend_from_slice(end_name(end))?;
    line.extend_from_slice(b"\n")?;
    Ok(line)
}

/// Writes to the log how a connection ended. A failed write is ignored.
pub fn say_end<W: Write>(alloc: Global, log: &mut W, count: u64, end: End)
    ensures { (n : ℕ)
        × Appends (W.contents log.old) (W.contents log.new) (take n (spec.line_of count end)) }
{
    if let Ok(line) = line_of(alloc, count, end) {
        say(log, &line);
    }
}
