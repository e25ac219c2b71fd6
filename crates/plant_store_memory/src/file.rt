//! A file in memory that ends with the program.

ghost use Rattle.std.specs.Prelude.{◌≡◌, ◌+◌, ◌≤◌, [], length, false, true, refl, is_err, is_ok, IsOk, OnOk};
ghost use Rattle.sqlite_disk.specs.Disk.{CountsFault, Cut, Holds, Torn};
ghost use Rattle.sqlite_disk.specs.Refusal.{finds_no_room};

use sqlite_disk::{Disk, Tally, digest_of};
use std::alloc::{AllocError, Global};
use std::io;

/// A file in memory. A write or a new size fails only if the file has to grow and memory runs out: as on a full disk,
/// there is no room then, and the file stays usable. A read fails only past the end.
#[derive(Drop)]
pub struct MemoryFile {
    bytes: Vec<u8>,
    /// How many calls have failed.
    faults: u64,
    /// How many of them read bytes of another digest than they were asked for.
    caught: u64,
    /// How many of them found no memory to grow.
    refused: u64,
}

impl MemoryFile {
    /// An empty file.
    pub fn new(alloc: Global) -> MemoryFile
        ensures { result.bytes.items ≡ [] }
    {
        MemoryFile {
            bytes: Vec::new(alloc),
            faults: 0,
            caught: 0,
            refused: 0,
        }
    }
}

/// The outcome of a change of the file, as the engine wants it: if memory ran out, there was no room, and a failed call
/// is counted.
fn counted(outcome: Result<(), AllocError>, faults: &mut u64, refused: &mut u64) -> io::Result<()>
    ensures variant { is_ok result ≡ is_ok outcome }
    ensures kind { finds_no_room result ≡ is_err outcome }
    ensures faults { CountsFault result faults.old faults.new }
    ensures refused { CountsFault result refused.old refused.new }
{
    if outcome.is_err() {
        *faults = faults.saturating_add(1);
        *refused = refused.saturating_add(1);
        return Err(io::Error::from(io::ErrorKind::StorageFull));
    }
    Ok(())
}

/// Gives the file this size; what is added is zero. Only a growth is refused.
fn resize(file: &mut Vec<u8>, size: usize) -> Result<(), AllocError>
    ensures len { OnOk result (length file.new.items ≡ size) }
    ensures others { Cut size file.old.items file.new.items }
    ensures cut { size ≤ length file.old.items → IsOk result }
{
    if size <= file.len() {
        file.truncate(size);
        return Ok(());
    }
    file.resize(size, 0)
}

/// Writes the bytes at this place, past the end if they reach further. Only a growth is refused.
fn overwrite(file: &mut Vec<u8>, at: usize, bytes: &[u8]) -> Result<(), AllocError>
    ensures written { OnOk result (Holds file.new.items at bytes.now) }
    ensures others { Torn at (length bytes.now) file.old.items file.new.items }
    ensures inside { at + length bytes.now ≤ length file.old.items → IsOk result }
{
    let end = at.checked_add(bytes.len()).ok_or(AllocError)?;
    if end > file.len() {
        resize(file, end)?;
    }
    file[at..end].copy_from_slice(bytes);
    Ok(())
}

impl Disk for MemoryFile {
    ghost seen = { λ file. file.bytes.items };

    ghost may_leave = { λ file bytes. bytes ≡ file.bytes.items };

    ghost is_usable = { λ _. true };

    ghost faults = { λ file. file.faults };

    ghost is_clean = { λ _. true };

    ghost tally_of = { λ file. record { caught = file.caught; refused = file.refused } };

    ghost key_of = { λ _. 0 };

    ghost is_fair = { λ _ _. true };

    ghost fair_if_clean = { λ _ _ _. refl };

    ghost seen_may_stay = { λ _. refl };

    fn mixes(&self) -> bool {
        false
    }

    fn key(&self) -> u64 {
        0
    }

    fn tally(&self) -> Tally {
        Tally {
            caught: self.caught,
            refused: self.refused,
        }
    }

    fn may_be_used(&self) -> bool {
        true
    }

    fn len(&mut self) -> io::Result<usize> {
        Ok(self.bytes.len())
    }

    fn read_at(&mut self, at: usize, buf: &mut [u8]) -> io::Result<()> {
        if at > self.bytes.len() || buf.len() > self.bytes.len() - at {
            return Err(io::ErrorKind::UnexpectedEof.into());
        }
        buf.copy_from_slice(&self.bytes[at..at + buf.len()]);
        Ok(())
    }

    fn read_checked(&mut self, key: u64, want: u64, at: usize, buf: &mut [u8]) -> io::Result<()> {
        self.read_at(at, buf)?;
        if digest_of(key, buf) != want {
            self.faults = self.faults.saturating_add(1);
            self.caught = self.caught.saturating_add(1);
            return Err(io::ErrorKind::InvalidData.into());
        }
        Ok(())
    }

    fn write_at(&mut self, at: usize, bytes: &[u8]) -> io::Result<()> {
        let outcome = overwrite(&mut self.bytes, at, bytes);
        counted(outcome, &mut self.faults, &mut self.refused)
    }

    fn set_len(&mut self, size: usize) -> io::Result<()> {
        let outcome = resize(&mut self.bytes, size);
        counted(outcome, &mut self.faults, &mut self.refused)
    }

    fn sync(&mut self) -> io::Result<()> {
        Ok(())
    }
}
