//! The trait of rows that have a key with a total order. `Sorted` keeps and finds rows by it.

ghost use Rattle.std.specs.Prelude.{◌≡◌};

use std::cmp::Ordering;

/// A row with a key. Keys have a total order, in which two keys compare as equal only if they are the same.
pub trait Keyed: Drop {
    ghost use Rattle.std.specs.declared.cmp.Ordering.{Ordering, TheVariants.{Equal}};
    ghost use Rattle.std.specs.Cmp.{IsTotalOrder};

    /// The key by which a row is found.
    type Key;

    ghost order: { Self.Key → Self.Key → Ordering };

    ghost key: { Self → Self.Key };

    /// Compares the row's key with this key.
    fn key_cmp(&self, other: &Self::Key) -> Ordering
        ensures { result ≡ order (key self.now) other.now };

    /// Compares the row's key with another row's.
    fn row_cmp(&self, other: &Self) -> Ordering
        ensures { result ≡ order (key self.now) (key other.now) };

    ghost total: { IsTotalOrder order };

    ghost only: { (x y : Self.Key) → order x y ≡ Equal → x ≡ y };
}
