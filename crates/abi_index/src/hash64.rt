//! Hashes of 64 bits.

ghost use Rattle.std.specs.Prelude.{◌≡◌, ℕ, ◌+◌, ◌%◌, ◌^◌};

use std::marker::Model;

/// A hash of 64 bits, as a seed for shuffles of fields.
#[derive(Clone, Copy, PartialEq, Eq, PartialOrd, Ord, Hash, Debug, Default)]
pub struct Hash64 {
    inner: u64,
}

impl Model for Hash64 {
    ghost use Rattle.std.specs.Prelude.{ℕ};

    ghost Value = { ℕ };

    ghost view = { λ a. a.inner };

    ghost inverse = { λ n. record { inner = n } };
}

// The hash of nothing has the number 0.
const _: () = prove!(Hash64::ZERO.inner == 0);

impl Hash64 {
    /// The hash of nothing, whose number is 0.
    pub const ZERO: Hash64 = Hash64 { inner: 0 };

    /// The hash with this number.
    pub fn new(n: u64) -> Hash64
        ensures { result ≡ n }
    {
        Hash64 { inner: n }
    }

    /// The number that it was made with.
    pub fn as_u64(self) -> u64
        ensures { result ≡ self }
    {
        self.inner
    }

    /// The sum of both, modulo 2 to the 64.
    pub fn wrapping_add(self, other: Hash64) -> Hash64
        ensures { result ≡ (self + other) % 2 ^ 64 }
    {
        Hash64 {
            inner: self.inner.wrapping_add(other.inner),
        }
    }
}
