//! Numbers that name the places of a list.

ghost use Rattle.std.specs.Prelude.{◌≡◌, ℕ, ◌+◌, ◌≤◌};
ghost use Rattle.abi_index.specs.Idx.{greatest_place};
ghost use Rattle.abi_index.specs.InlineVec.{TwoFit};

use std::fmt::Debug;
use std::hash::Hash;
use std::marker::Model;

/// A number type that names the places of a list.
///
/// The two laws say that the numbers from 0 to `MAX_INDEX` and the indices with such a number are
/// the same things in two forms.
pub trait Idx: Copy + Eq + Hash + Debug {
    ghost number: { Self → ℕ };

    ghost at: { ℕ → Self };

    ghost MAX_INDEX: { ℕ };

    /// The greatest place that an index of this type names.
    const MAX_INDEX: usize;

    /// The index of a place.
    fn new(index: usize) -> Self
        requires { index ≤ MAX_INDEX }
        ensures { result ≡ at index };

    /// The place that the index names.
    fn index(self) -> usize
        ensures place { result ≡ number self }
        ensures within { result ≤ MAX_INDEX };

    /// The index of the place that is `amount` places further on.
    fn plus(self, amount: usize) -> Self
        requires { number self + amount ≤ MAX_INDEX }
        ensures { result ≡ at (number self + amount) };

    ghost number_at: { (i : ℕ) → i ≤ MAX_INDEX → number (at i) ≡ i };

    ghost at_number: { (x : Self) → number x ≤ MAX_INDEX → at (number x) ≡ x };

    ghost positive: { 1 ≤ MAX_INDEX };

    ghost small: { MAX_INDEX ≤ 0xFFFF_FFFF };

    ghost in_memory: { TwoFit Self.row };
}

impl Idx for u32 {
    ghost use Rattle.std.specs.Prelude.{refl};
    ghost use Rattle.std.proofs.Common.{rules};

    ghost number = { λ x. x };

    ghost at = { λ i. i };

    ghost MAX_INDEX = { 0xFFFF_FFFF };

    const MAX_INDEX: usize = 0xFFFF_FFFF;

    ghost number_at = { λ i h. refl };

    ghost at_number = { λ x h. refl };

    ghost positive = { Prim.search rules };

    ghost small = { Prim.search rules };

    ghost in_memory = { Prim.search rules };

    fn new(index: usize) -> u32 {
        index as u32
    }

    fn index(self) -> usize {
        self as usize
    }

    fn plus(self, amount: usize) -> u32 {
        (self as usize + amount) as u32
    }
}

/// The place of a field in its list, in source order.
#[derive(Clone, Copy, PartialEq, Eq, PartialOrd, Ord, Hash, Debug)]
pub struct FieldIdx {
    raw: u32,
}

impl Model for FieldIdx {
    ghost use Rattle.std.specs.Prelude.{ℕ, ◌≤◌};
    ghost use Rattle.abi_index.specs.Idx.{greatest_place};

    ghost Value = { ℕ };

    ghost view = { λ a. a.raw };

    ghost invariant = { λ a. a.raw ≤ greatest_place };

    ghost inverse = { λ n. record { raw = n } };
}

impl FieldIdx {
    /// The first place.
    pub const ZERO: FieldIdx = FieldIdx { raw: 0 };

    /// The second place.
    pub const ONE: FieldIdx = FieldIdx { raw: 1 };

    /// The index of a place, at most 0xFFFF_FF00.
    pub fn from_u32(value: u32) -> FieldIdx
        requires { value ≤ greatest_place }
        ensures { result ≡ value }
    {
        FieldIdx { raw: value }
    }

    /// The index of a place, at most 0xFFFF_FF00.
    pub fn from_usize(value: usize) -> FieldIdx
        requires { value ≤ greatest_place }
        ensures { result ≡ value }
    {
        FieldIdx { raw: value as u32 }
    }

    /// The place that it names, as a number of 32 bits.
    pub fn as_u32(self) -> u32
        ensures { result ≡ self }
    {
        self.raw
    }

    /// The place that it names, as slices are indexed.
    pub fn as_usize(self) -> usize
        ensures { result ≡ self }
    {
        self.raw as usize
    }
}

impl Idx for FieldIdx {
    ghost use Rattle.std.specs.Prelude.{refl};
    ghost use Rattle.std.proofs.Common.{rules};

    ghost number = { λ x. x };

    ghost at = { λ i. i };

    ghost MAX_INDEX = { greatest_place };

    const MAX_INDEX: usize = 0xFFFF_FF00;

    ghost number_at = { λ i h. refl };

    ghost at_number = { λ x h. refl };

    ghost positive = { Prim.search rules };

    ghost small = { Prim.search rules };

    ghost in_memory = { Prim.search rules };

    fn new(index: usize) -> FieldIdx {
        FieldIdx { raw: index as u32 }
    }

    fn index(self) -> usize {
        self.raw as usize
    }

    fn plus(self, amount: usize) -> FieldIdx {
        FieldIdx {
            raw: (self.raw as usize + amount) as u32,
        }
    }
}

/// The place of a variant in its enum, in source order.
#[derive(Clone, Copy, PartialEq, Eq, PartialOrd, Ord, Hash, Debug)]
pub struct VariantIdx {
    raw: u32,
}

/// The first variant, which a type without variants of its own has.
pub const FIRST_VARIANT: VariantIdx = VariantIdx { raw: 0 };

impl Model for VariantIdx {
    ghost use Rattle.std.specs.Prelude.{ℕ, ◌≤◌};
    ghost use Rattle.abi_index.specs.Idx.{greatest_place};

    ghost Value = { ℕ };

    ghost view = { λ a. a.raw };

    ghost invariant = { λ a. a.raw ≤ greatest_place };

    ghost inverse = { λ n. record { raw = n } };
}

impl VariantIdx {
    /// The first place.
    pub const ZERO: VariantIdx = VariantIdx { raw: 0 };

    /// The index of a place, at most 0xFFFF_FF00.
    pub fn from_u32(value: u32) -> VariantIdx
        requires { value ≤ greatest_place }
        ensures { result ≡ value }
    {
        VariantIdx { raw: value }
    }

    /// The index of a place, at most 0xFFFF_FF00.
    pub fn from_usize(value: usize) -> VariantIdx
        requires { value ≤ greatest_place }
        ensures { result ≡ value }
    {
        VariantIdx { raw: value as u32 }
    }

    /// The place that it names, as a number of 32 bits.
    pub fn as_u32(self) -> u32
        ensures { result ≡ self }
    {
        self.raw
    }

    /// The place that it names, as slices are indexed.
    pub fn as_usize(self) -> usize
        ensures { result ≡ self }
    {
        self.raw as usize
    }
}

impl Idx for VariantIdx {
    ghost use Rattle.std.specs.Prelude.{refl};
    ghost use Rattle.std.proofs.Common.{rules};

    ghost number = { λ x. x };

    ghost at = { λ i. i };

    ghost MAX_INDEX = { greatest_place };

    const MAX_INDEX: usize = 0xFFFF_FF00;

    ghost number_at = { λ i h. refl };

    ghost at_number = { λ x h. refl };

    ghost positive = { Prim.search rules };

    ghost small = { Prim.search rules };

    ghost in_memory = { Prim.search rules };

    fn new(index: usize) -> VariantIdx {
        VariantIdx { raw: index as u32 }
    }

    fn index(self) -> usize {
        self.raw as usize
    }

    fn plus(self, amount: usize) -> VariantIdx {
        VariantIdx {
            raw: (self.raw as usize + amount) as u32,
        }
    }
}

// Which places the named indices are.
const _: () = prove!(FieldIdx::ZERO.raw == 0);

const _: () = prove!(FieldIdx::ONE.raw == 1);

const _: () = prove!(VariantIdx::ZERO.raw == 0);

const _: () = prove!(FIRST_VARIANT.raw == 0);
