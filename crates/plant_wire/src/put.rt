//! Writes a whole text to an outlet that may take only part of it at a time.

ghost use Rattle.std.specs.{Io.KnownBytes.{Appends}, Prelude.{◌≡◌, ◌≤◌, ◌-◌, ◌+◌, ℕ, length, drop, take as first, OnErr, OnOk}};

use crate::streams::{Failed, Outlet};

/// The bytes from this position on.
pub fn bytes_from(bytes: &[u8], at: usize) -> &[u8]
    requires { at ≤ length bytes.now }
    ensures value { result.now ≡ drop at bytes.now }
    ensures len { length result.now ≡ length bytes.now - at }
{
    &bytes[at..]
}

/// Writes all of the bytes. An outlet that takes none of them has failed.
pub(crate) fn put_all<O: Outlet>(outlet: &mut O, bytes: &[u8]) -> Result<(), Failed>
    ensures ok { OnOk result (Appends (O.written outlet.old) (O.written outlet.new) bytes.now) }
    ensures moved { OnOk result (O.failures outlet.new ≡ O.failures outlet.old) }
    ensures stalled { OnErr result (O.failures outlet.new ≡ 1) }
    ensures err { OnErr result ((n : ℕ)
        × Appends (O.written outlet.old) (O.written outlet.new) (first n bytes.now)) }
{
    let mut at = 0;
    'puts: while at < bytes.len() {
        match outlet.put(bytes_from(bytes, at)) {
            Ok(0) => return Err(Failed),
            Ok(n) => at += n,
            Err(failed) => return Err(failed),
        }
    }
    Ok(())
}
