//! Alignments: powers of two, in bytes.

ghost use Rattle.std.specs.Prelude.{◌≡◌, ◌≢◌, ℕ, ◌<◌, ◌≤◌, ◌-◌, ◌*◌, ◌^◌, min, max, ◌↔◌, IsTrue, ◌==◌, nat_le, nat_lt, if◌then◌else◌, codes, ◌++◌, Some};
ghost use Rattle.std.specs.Int.{◌∣◌, div_ceil};
ghost use Rattle.std.specs.Fmt.{decimal};
ghost use Rattle.abi_base.specs.declared.align.AlignFromBytesError.TheVariants.{NotPowerOfTwo, TooLarge};
ghost use Rattle.abi_base.specs.Align.{align_of_bytes, align_error_text, factor_exponent, max_exponent, next_exponent, IsLeastPower};

use crate::data_layout::TargetDataLayout;
use crate::size::Size;
use std::error::Error;
use std::fmt;
use std::fmt::{Debug, Display};
use std::marker::Model;

/// An alignment: a power of two, in bytes. Contracts see its exponent.
#[derive(Clone, Copy, PartialEq, Eq, PartialOrd, Ord, Hash)]
pub struct Align {
    pow2: u8,
}

impl Model for Align {
    ghost use Rattle.std.specs.Prelude.{ℕ, ◌≤◌};

    ghost Value = { ℕ };

    ghost view = { λ a. a.pow2 };

    ghost inverse = { λ n. record { pow2 = n } };

    ghost invariant = { λ a. a.pow2 ≤ 64 };
}

impl Align {
    /// Of one byte: no offset is unfit for it.
    pub const ONE: Align = Align { pow2: 0 };

    /// Of four bytes.
    pub const FOUR: Align = Align { pow2: 2 };

    /// Eight bytes.
    pub const EIGHT: Align = Align { pow2: 3 };

    /// The greatest alignment that a type can ask for: 2^29 bytes.
    pub const MAX: Align = Align { pow2: 29 };

    /// The power of two of this exponent.
    pub(crate) fn exponent(pow2: u8) -> Align
        requires { pow2 ≤ 64 }
        ensures { result ≡ pow2 }
    {
        Align { pow2 }
    }

    /// The least power of two that is no less than the size.
    pub(crate) fn next_power(size: Size) -> Align
        ensures value { result ≡ next_exponent size }
        ensures law { IsLeastPower size result }
    {
        let below = size.bytes().saturating_sub(1);
        Align {
            pow2: (64 - below.leading_zeros()) as u8,
        }
    }

    /// Whether it is no greater than `MAX`.
    pub(crate) fn within_limit(self) -> bool
        ensures { IsTrue result ↔ self ≤ max_exponent }
    {
        self <= Align::MAX
    }

    /// Whether the size has just as many bytes as this alignment, whatever the exponent.
    pub(crate) fn is_size(self, size: Size) -> bool
        ensures { result ≡ (size == 2 ^ self) }
    {
        u128::from(size.bytes()) == self.wide_bytes()
    }

    /// Whether the size has at most as many bytes as this alignment, whatever the exponent.
    pub(crate) fn holds(self, size: Size) -> bool
        ensures { result ≡ nat_le size (2 ^ self) }
    {
        u128::from(size.bytes()) <= self.wide_bytes()
    }

    /// Whether `bytes` bytes are a multiple of it, whatever the exponent.
    pub(crate) fn divides(self, bytes: u64) -> bool
        ensures { IsTrue result ↔ (2 ^ self ∣ bytes) }
    {
        u128::from(bytes) % self.wide_bytes() == 0
    }

    /// Whether the size is a multiple of it, whatever the exponent.
    pub(crate) fn divides_size(self, size: Size) -> bool
        ensures { IsTrue result ↔ (2 ^ self ∣ size) }
    {
        self.divides(size.bytes())
    }

    /// The alignment in bytes, whatever the exponent.
    fn wide_bytes(self) -> u128
        ensures { result ≡ 2 ^ self }
    {
        1 << self.pow2
    }

    /// The greatest alignment for a target: 2^(n - 1) bytes for pointers of n bits, or `MAX` where
    /// that is less. Asks pointers of 8 to 255 bits.
    pub fn max_for_target(tdl: &TargetDataLayout) -> Align
        requires some { 1 ≤ tdl.now.default_address_space_pointer_spec.pointer_size }
        requires most { tdl.now.default_address_space_pointer_spec.pointer_size * 8 ≤ 255 }
        ensures { result
            ≡ min (tdl.now.default_address_space_pointer_spec.pointer_size * 8 - 1) max_exponent }
    {
        let pow2 = (tdl.pointer_size().bits() - 1) as u8;
        if pow2 < Align::MAX.pow2 {
            Align { pow2 }
        } else {
            Align::MAX
        }
    }

    /// The alignment of `bits` bits, rounded up to whole bytes; 0 bits give one byte.
    /// `NotPowerOfTwo` and `TooLarge` as for [`Align::from_bytes`], with the number of bytes.
    pub fn from_bits(bits: u64) -> Result<Align, AlignFromBytesError>
        ensures { result ≡ align_of_bytes (div_ceil bits 8) }
    {
        Align::from_bytes(Size::from_bits(bits).bytes())
    }

    /// The alignment of `bytes` bytes; 0 bytes give one byte. `NotPowerOfTwo` where the number is
    /// no power of two, `TooLarge` where it is one above 2^29.
    pub fn from_bytes(bytes: u64) -> Result<Align, AlignFromBytesError>
        ensures value { result ≡ align_of_bytes bytes }
        ensures zero { bytes ≡ 0 → result ≡ Ok 0 }
        ensures power { (k : ℕ) → bytes ≡ 2 ^ k →
            result ≡ (if nat_lt max_exponent k then Err (TooLarge bytes) else Ok k) }
        ensures not_power { 0 < bytes → ((k : ℕ) → bytes ≢ 2 ^ k) →
            result ≡ Err (NotPowerOfTwo bytes) }
    {
        if bytes == 0 {
            return Ok(Align::ONE);
        }
        let pow2 = bytes.trailing_zeros();
        if 1 << pow2 != bytes {
            return Err(AlignFromBytesError::NotPowerOfTwo(bytes));
        }
        let align = Align { pow2: pow2 as u8 };
        if align.within_limit() {
            Ok(align)
        } else {
            Err(AlignFromBytesError::TooLarge(bytes))
        }
    }

    /// The alignment in bytes, a power of two: what offsets and sizes are multiples of.
    pub fn bytes(self) -> u64
        requires { self < 64 }
        ensures { result ≡ 2 ^ self }
    {
        1 << self.pow2
    }

    /// The alignment in bytes, as a `usize`.
    pub fn bytes_usize(self) -> usize
        requires { self < 64 }
        ensures { result ≡ 2 ^ self }
    {
        self.bytes() as usize
    }

    /// The alignment in bits, 8 for each byte.
    pub fn bits(self) -> u64
        requires { self ≤ 60 }
        ensures { result ≡ 2 ^ self * 8 }
    {
        self.bytes() * 8
    }

    /// The alignment in bits, as a `usize`.
    pub fn bits_usize(self) -> usize
        requires { self ≤ 60 }
        ensures { result ≡ 2 ^ self * 8 }
    {
        self.bits() as usize
    }

    /// The greatest power of two that divides the size: the alignment of what lies at such an
    /// offset from aligned memory. 2^64 for no bytes, which each power divides.
    pub fn max_aligned_factor(size: Size) -> Align
        ensures value { result ≡ factor_exponent size }
        ensures divides { 2 ^ result ∣ size }
        ensures greatest { (k : ℕ) → k ≤ 64 → 2 ^ k ∣ size → k ≤ result }
    {
        Align {
            pow2: size.bytes().trailing_zeros() as u8,
        }
    }

    /// The alignment that is left at this offset from memory so aligned: the greatest power of two
    /// that is no greater and divides the offset.
    pub fn restrict_for_offset(self, offset: Size) -> Align
        ensures { result ≡ min self (factor_exponent offset) }
    {
        let factor = Align::max_aligned_factor(offset);
        if factor.pow2 < self.pow2 {
            factor
        } else {
            self
        }
    }
}

/// Why a number of bytes is no alignment: it has to be a power of two, at most 2^29.
#[derive(Clone, Copy, PartialEq, Eq)]
pub enum AlignFromBytesError {
    /// This many bytes, which are no power of two.
    NotPowerOfTwo(u64),
    /// This many bytes, a power of two above 2^29.
    TooLarge(u64),
}

impl Debug for AlignFromBytesError {
    ghost debug_output = { λ error. Some (align_error_text error) };

    fn fmt<W: fmt::Write>(&self, f: &mut fmt::Formatter<W>) -> fmt::Result {
        match self {
            AlignFromBytesError::NotPowerOfTwo(bytes) => write!(f, "{bytes} is not a power of 2"),
            AlignFromBytesError::TooLarge(bytes) => write!(f, "{bytes} is too large"),
        }
    }
}

impl Display for AlignFromBytesError {
    ghost output = { λ error. Some (align_error_text error) };

    fn fmt<W: fmt::Write>(&self, f: &mut fmt::Formatter<W>) -> fmt::Result {
        write!(f, "{self:?}")
    }
}

impl Error for AlignFromBytesError {}

/// The alignment that an ABI asks of a type.
#[derive(Clone, Copy, PartialEq, Eq, Hash)]
pub struct AbiAlign {
    /// The alignment that the ABI asks for.
    pub abi: Align,
}

impl AbiAlign {
    /// This alignment, as one that an ABI asks for.
    pub fn new(align: Align) -> AbiAlign
        ensures { result.abi ≡ align }
    {
        AbiAlign { abi: align }
    }

    /// The smaller of both, as where a pack cuts an alignment.
    pub fn min(self, other: AbiAlign) -> AbiAlign
        ensures { result.abi ≡ min self.abi other.abi }
    {
        AbiAlign {
            abi: self.abi.min(other.abi),
        }
    }

    /// The greater of both, as that of a type with two fields.
    pub fn max(self, other: AbiAlign) -> AbiAlign
        ensures { result.abi ≡ max self.abi other.abi }
    {
        AbiAlign {
            abi: self.abi.max(other.abi),
        }
    }

    /// The alignment in bytes, a power of two: what offsets and sizes are multiples of.
    pub fn bytes(self) -> u64
        requires { self.abi < 64 }
        ensures { result ≡ 2 ^ self.abi }
    {
        self.abi.bytes()
    }

    /// The alignment in bits, 8 for each byte.
    pub fn bits(self) -> u64
        requires { self.abi ≤ 60 }
        ensures { result ≡ 2 ^ self.abi * 8 }
    {
        self.abi.bits()
    }
}

impl Debug for Align {
    ghost debug_output = { λ align. Some (codes "Align(" ++ decimal (2 ^ align) ++ codes " bytes)") };

    fn fmt<W: fmt::Write>(&self, f: &mut fmt::Formatter<W>) -> fmt::Result {
        write!(f, "Align({} bytes)", 1u128 << self.pow2)
    }
}

impl Debug for AbiAlign {
    ghost debug_output = { λ align. Some (codes "Align(" ++ decimal (2 ^ align.abi) ++ codes " bytes)") };

    fn fmt<W: fmt::Write>(&self, f: &mut fmt::Formatter<W>) -> fmt::Result {
        self.abi.fmt(f)
    }
}
