//! Numbers of bytes.

ghost use Rattle.std.specs.Prelude.{◌≡◌, ℕ, ◌+◌, ◌-◌, ◌*◌, ◌%◌, ◌^◌, ◌<◌, ◌≤◌, ◌↔◌, IsTrue, codes, ◌++◌, Some, nat_lt, if◌then◌else◌, pos, neg_ℤ, ◌-ℤ◌};
ghost use Rattle.std.specs.Fmt.{decimal};
ghost use Rattle.std.specs.Int.{next_multiple_of, div_ceil, ◌∣◌};
ghost use Rattle.std.specs.Option.{SomeIff};
ghost use Rattle.abi_base.specs.Size.{signed_value};
ghost use Rattle.abi_base.specs.DataLayout.{IsPointerWidth, size_bound};

use crate::align::Align;
use crate::data_layout::HasDataLayout;
use std::fmt;
use std::fmt::Debug;
use std::marker::Model;
use std::ops::{Add, AddAssign, Mul, Sub};

/// A number of bytes, of up to 64 bits: a size or an offset.
#[derive(Clone, Copy, PartialEq, Eq, PartialOrd, Ord, Hash, Default)]
pub struct Size {
    raw: u64,
}

impl Model for Size {
    ghost use Rattle.std.specs.Prelude.{ℕ, ◌<◌, ◌^◌};

    ghost Value = { ℕ };

    ghost view = { λ a. a.raw };

    ghost invariant = { λ a. a.raw < 2 ^ 64 };

    ghost inverse = { λ n. record { raw = n } };
}

// No bytes are 0 of them.
const _: () = prove!(Size::ZERO.raw == 0);

impl Size {
    /// No bytes: the size of a type without data, and the first offset.
    pub const ZERO: Size = Size { raw: 0 };

    /// The size of `bytes` bytes, whatever their number.
    pub fn from_bytes(bytes: u64) -> Size
        ensures { result ≡ bytes }
    {
        Size { raw: bytes }
    }

    /// The size that has room for `bits` bits: whole bytes, rounded up.
    pub fn from_bits(bits: u64) -> Size
        ensures { result ≡ div_ceil bits 8 }
    {
        Size {
            raw: bits.div_ceil(8),
        }
    }

    /// The number of bytes, as a plain integer.
    pub fn bytes(self) -> u64
        ensures { result ≡ self }
    {
        self.raw
    }

    /// The number of bytes, as a `usize`.
    pub fn bytes_usize(self) -> usize
        ensures { result ≡ self }
    {
        self.raw as usize
    }

    /// The number of bits, which has to fit.
    pub fn bits(self) -> u64
        requires { self * 8 < 2 ^ 64 }
        ensures { result ≡ self * 8 }
    {
        self.raw * 8
    }

    /// The number of bits, as a `usize`, which has to fit.
    pub fn bits_usize(self) -> usize
        requires { self * 8 < 2 ^ 64 }
        ensures { result ≡ self * 8 }
    {
        self.bits() as usize
    }

    /// The least multiple of the alignment that is no less.
    pub fn align_to(self, align: Align) -> Size
        requires shift { align < 64 }
        requires fits { next_multiple_of self (2 ^ align) < 2 ^ 64 }
        ensures { result ≡ next_multiple_of self (2 ^ align) }
    {
        Size {
            raw: self.raw.next_multiple_of(align.bytes()),
        }
    }

    /// Whether it is a multiple of the alignment.
    pub fn is_aligned(self, align: Align) -> bool
        requires { align < 64 }
        ensures { IsTrue result ↔ (2 ^ align ∣ self) }
    {
        self.raw % align.bytes() == 0
    }

    /// The number's low bits, as many as the size has: at most 16 bytes.
    pub fn truncate(self, value: u128) -> u128
        requires { self ≤ 16 }
        ensures { result ≡ value % 2 ^ (self * 8) }
    {
        let bits = self.raw * 8;
        if bits == 128 {
            value
        } else {
            value % (1 << bits)
        }
    }

    /// The number that the low bits stand for in two's complement: at most 16 bytes, and 0 for
    /// no bytes.
    pub fn sign_extend(self, value: u128) -> i128
        requires { self ≤ 16 }
        ensures { result ≡ signed_value (self * 8) (value % 2 ^ (self * 8)) }
    {
        if self.raw == 0 {
            return 0;
        }
        twos_complement(self.signed_half(), self.truncate(value))
    }

    /// How many numbers of 1 to 16 bytes are negative.
    fn signed_half(self) -> u128
        requires some { 1 ≤ self }
        requires most { self ≤ 16 }
        ensures value { result ≡ 2 ^ (self * 8 - 1) }
        ensures double { 2 * result ≡ 2 ^ (self * 8) }
        ensures bound { result ≤ 2 ^ 127 }
    {
        1 << (self.raw * 8 - 1)
    }

    /// The least signed number of 1 to 16 bytes.
    pub fn signed_int_min(self) -> i128
        requires some { 1 ≤ self }
        requires most { self ≤ 16 }
        ensures { result ≡ neg_ℤ (pos (2 ^ (self * 8 - 1))) }
    {
        -1 - self.signed_int_max()
    }

    /// The greatest signed number of 1 to 16 bytes.
    pub fn signed_int_max(self) -> i128
        requires some { 1 ≤ self }
        requires most { self ≤ 16 }
        ensures { result ≡ pos (2 ^ (self * 8 - 1) - 1) }
    {
        (self.signed_half() - 1) as i128
    }

    /// The greatest unsigned number of 1 to 16 bytes.
    pub fn unsigned_int_max(self) -> u128
        requires some { 1 ≤ self }
        requires most { self ≤ 16 }
        ensures { result ≡ 2 ^ (self * 8) - 1 }
    {
        let bits = self.raw * 8;
        if bits == 128 {
            u128::MAX
        } else {
            (1 << bits) - 1
        }
    }

    /// The sum of both, if it is below the data layout's bound.
    pub fn checked_add<C: HasDataLayout>(self, offset: Size, cx: &C) -> Option<Size>
        requires { IsPointerWidth
            (C.target cx.now).default_address_space_pointer_spec.pointer_size }
        ensures { SomeIff result (self + offset < size_bound (C.target cx.now)) (self + offset) }
    {
        let bound = cx.data_layout().obj_size_bound();
        self.raw
            .checked_add(offset.raw)
            .filter(|sum| *sum < bound)
            .map(|raw| Size { raw })
    }

    /// `count` times as much; `None` where that isn't below the bound that the data layout has for sizes.
    pub fn checked_mul<C: HasDataLayout>(self, count: u64, cx: &C) -> Option<Size>
        requires { IsPointerWidth
            (C.target cx.now).default_address_space_pointer_spec.pointer_size }
        ensures { SomeIff result (self * count < size_bound (C.target cx.now)) (self * count) }
    {
        let bound = cx.data_layout().obj_size_bound();
        self.raw
            .checked_mul(count)
            .filter(|product| *product < bound)
            .map(|raw| Size { raw })
    }
}

/// What a number below twice `half` stands for, where the upper half is negative.
fn twos_complement(half: u128, low: u128) -> i128
    requires half { half ≤ 2 ^ 127 }
    requires low { low < 2 * half }
    ensures { result ≡ (if nat_lt low half then pos low else (pos low -ℤ pos (2 * half))) }
{
    if low < half {
        low as i128
    } else {
        -1 - (half - 1 - (low - half)) as i128
    }
}

impl Add for Size {
    type Output = Size;

    ghost can_add = { λ a b. a + b < 2 ^ 64 };

    ghost add_gives = { λ a b r. r ≡ a + b };

    fn add(self, other: Size) -> Size {
        Size {
            raw: self.raw + other.raw,
        }
    }
}

impl Sub for Size {
    type Output = Size;

    ghost can_sub = { λ a b. b ≤ a };

    ghost sub_gives = { λ a b r. r ≡ a - b };

    fn sub(self, other: Size) -> Size {
        Size {
            raw: self.raw - other.raw,
        }
    }
}

impl Mul<u64> for Size {
    type Output = Size;

    ghost can_mul = { λ a count. a * count < 2 ^ 64 };

    ghost mul_gives = { λ a count r. r ≡ a * count };

    fn mul(self, count: u64) -> Size {
        Size {
            raw: self.raw * count,
        }
    }
}

impl Mul<Size> for u64 {
    type Output = Size;

    ghost can_mul = { λ count a. count * a < 2 ^ 64 };

    ghost mul_gives = { λ count a r. r ≡ count * a };

    fn mul(self, size: Size) -> Size {
        Size {
            raw: self * size.raw,
        }
    }
}

impl AddAssign for Size {
    ghost can_add_assign = { λ a b. a + b < 2 ^ 64 };

    ghost add_assign_gives = { λ a b r. r ≡ a + b };

    fn add_assign(&mut self, other: Size) {
        self.raw += other.raw;
    }
}

impl Debug for Size {
    ghost debug_output = { λ size. Some (codes "Size(" ++ decimal size ++ codes " bytes)") };

    fn fmt<W: fmt::Write>(&self, f: &mut fmt::Formatter<W>) -> fmt::Result {
        write!(f, "Size({} bytes)", self.raw)
    }
}
