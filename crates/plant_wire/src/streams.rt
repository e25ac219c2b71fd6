//! The two traits over which a session runs: where its bytes come from and where its answers go. What the traits claim
//! is what the session's theorem rests on.

ghost use Rattle.std.specs.Io.KnownBytes.{ReadConsumes, WriteAppends};
ghost use Rattle.std.specs.Prelude.{◌≡◌, ◌≤◌, ◌<◌, ◌+◌, ℕ, List, Bool, Option, length, IfOk, OnErr, OnOk, IsTrue};
ghost use Rattle.plant_wire.specs.Limits.{least_room};

/// A read or a write failed.
#[derive(Clone, Copy, Debug, PartialEq, Eq)]
pub struct Failed;

/// Where requests come from. After one failure it fails from then on.
pub trait Inlet {
    /// The bytes that are left, or `None`, which claims nothing.
    ghost remaining: { Self → Option (List ℕ) };

    /// How many reads failed: none, or one.
    ghost failures: { Self → ℕ };

    /// Whether the end of the input was seen.
    ghost ended: { Self → Bool };

    /// How many reads were made.
    ghost reads: { Self → ℕ };

    /// Reads the next bytes to the front of `buf`, which has room for at least 4,096, and returns how many; none at the
    /// end of the input.
    fn take(&mut self, buf: &mut [u8]) -> Result<usize, Failed>
        requires { least_room ≤ length buf.old }
        ensures within { IfOk result (λ n. n ≤ length buf.old) }
        ensures bytes { ReadConsumes (remaining self.old) (remaining self.new) result buf.new }
        ensures finished { IfOk result (λ n. 0 < length buf.old → n ≡ 0 → IsTrue (ended self.new)) }
        ensures going { IfOk result (λ n. 0 < n → ended self.new ≡ ended self.old) }
        ensures unended { OnErr result (ended self.new ≡ ended self.old) }
        ensures counted { OnOk result (reads self.new ≡ reads self.old + 1) }
        ensures kept { OnErr result (reads self.old ≤ reads self.new) }
        ensures few { OnErr result (reads self.new ≤ reads self.old + 1) }
        ensures lasting { OnOk result (failures self.old ≡ 0) }
        ensures ok { OnOk result (failures self.new ≡ failures self.old) }
        ensures failed { OnErr result (failures self.new ≡ 1) };
}

/// Where answers go. After one failure it fails from then on.
pub trait Outlet {
    /// The bytes taken so far, or `None`, which claims nothing.
    ghost written: { Self → Option (List ℕ) };

    /// How many writes failed, or took nothing of some bytes: none, or one.
    ghost failures: { Self → ℕ };

    /// Writes some of these bytes, from the front, and returns how many. To take none of some bytes is to fail.
    fn put(&mut self, bytes: &[u8]) -> Result<usize, Failed>
        ensures within { IfOk result (λ n. n ≤ length bytes.now) }
        ensures bytes { WriteAppends (written self.old) (written self.new) result bytes.now }
        ensures lasting { OnOk result (failures self.old ≡ 0) }
        ensures moved { IfOk result (λ n. 0 < n → failures self.new ≡ failures self.old) }
        ensures stopped { IfOk result (λ n. 0 < length bytes.now → n ≡ 0 → failures self.new ≡ 1) }
        ensures failed { OnErr result (failures self.new ≡ 1) };
}
