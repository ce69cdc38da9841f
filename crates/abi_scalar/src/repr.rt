//! What a `repr` attribute asks of a type.

ghost use Rattle.std.specs.Prelude.{⊤, ◌≡◌, ◌↔◌, IsTrue, is_some, ◌||◌, ◌&&◌, [], ◌∷◌, codes};
ghost use Rattle.abi_scalar.specs.Repr.{is_c, is_simd, is_scalable, is_transparent, is_linear, is_rust, discr_type_of, has_fixed_order, is_abi_fixed, may_randomize, IsEqualUpToSeed};

use abi_base::{Align, IntegerType, ScalableElt};
use abi_index::Hash64;
use bitflags::parser::to_writer;
use bitflags::{Flag, Flags, bitflag_items};
use std::fmt;
use std::fmt::Debug;

/// The words of a `repr` attribute that are set or not, as a set of bits: bit 0 `IS_C`, 1
/// `IS_SIMD`, 2 `IS_TRANSPARENT`, 3 `IS_LINEAR` (fields stay in source order), 4
/// `RANDOMIZE_LAYOUT`, 5 `PASS_INDIRECTLY_IN_NON_RUSTIC_ABIS`, 6 `IS_SCALABLE`. By default none.
#[derive(Clone, Copy, PartialEq, Eq, Default)]
pub struct ReprFlags(u8);

bitflag_items! {
    impl ReprFlags: u8 {
        const IS_C = 1;
        const IS_SIMD = 2;
        const IS_TRANSPARENT = 4;
        const IS_LINEAR = 8;
        const RANDOMIZE_LAYOUT = 16;
        const PASS_INDIRECTLY_IN_NON_RUSTIC_ABIS = 32;
        const IS_SCALABLE = 64;
        const FIELD_ORDER_UNOPTIMIZABLE = 75;
        const ABI_UNOPTIMIZABLE = 3;
    }
}

impl Flags for ReprFlags {
    type Bits = u8;

    ghost exact = { ⊤ };

    ghost table = { (codes "IS_C", 1) ∷ (codes "IS_SIMD", 2) ∷ (codes "IS_TRANSPARENT", 4) ∷ (codes "IS_LINEAR", 8)
        ∷ (codes "RANDOMIZE_LAYOUT", 16) ∷ (codes "PASS_INDIRECTLY_IN_NON_RUSTIC_ABIS", 32) ∷ (codes "IS_SCALABLE", 64)
        ∷ (codes "FIELD_ORDER_UNOPTIMIZABLE", 75) ∷ (codes "ABI_UNOPTIMIZABLE", 3) ∷ [] };

    ghost set_of = { λ p. p.0 };

    fn flags<'a>() -> &'a [Flag<ReprFlags>] {
        ReprFlags::FLAGS
    }

    fn bits(&self) -> u8 {
        self.0
    }

    fn from_bits_retain(bits: u8) -> ReprFlags {
        ReprFlags(bits)
    }
}

impl Debug for ReprFlags {
    fn fmt<W: fmt::Write>(&self, f: &mut fmt::Formatter<W>) -> fmt::Result {
        to_writer(self, f)
    }
}

/// What a `repr` attribute asks of a type, as the Rust Reference has it under "Type layout". By
/// default it asks for nothing.
#[derive(Clone, Copy, PartialEq, Eq, Debug, Default)]
pub struct ReprOptions {
    /// The integer that is asked for as an enum's tag, as by `repr(u8)`.
    pub int: Option<IntegerType>,
    /// The least alignment of the type, in bytes.
    pub align: Option<Align>,
    /// The greatest alignment of each field, in bytes; the type is packed where there is one.
    pub pack: Option<Align>,
    /// What else is asked for: each of it is there or not.
    pub flags: ReprFlags,
    /// The element of a scalable vector.
    pub scalable: Option<ScalableElt>,
    /// A hash of the type's path, to seed a shuffle of its fields with.
    pub field_shuffle_seed: Hash64,
}

impl ReprOptions {
    /// Whether `repr(simd)` asks for a vector.
    pub fn simd(&self) -> bool
        ensures { result ≡ is_simd self.now }
    {
        self.flags.contains(ReprFlags::IS_SIMD)
    }

    /// Whether a vector is asked for whose length the machine decides.
    pub fn scalable(&self) -> bool
        ensures { result ≡ is_scalable self.now }
    {
        self.flags.contains(ReprFlags::IS_SCALABLE)
    }

    /// Whether it is laid out as in C.
    pub fn c(&self) -> bool
        ensures { result ≡ is_c self.now }
    {
        self.flags.contains(ReprFlags::IS_C)
    }

    /// Whether its layout is Rust's own to choose.
    pub fn rust(&self) -> bool
        ensures { result ≡ is_rust self.now }
    {
        !self.c() & !self.simd() & !self.scalable() & !self.transparent()
    }

    /// Whether the alignment of its fields is limited.
    pub fn packed(&self) -> bool
        ensures { result ≡ is_some self.now.pack }
    {
        self.pack.is_some()
    }

    /// Whether it is laid out as its one field that is not trivial.
    pub fn transparent(&self) -> bool
        ensures { result ≡ is_transparent self.now }
    {
        self.flags.contains(ReprFlags::IS_TRANSPARENT)
    }

    /// Whether its fields stay in source order.
    pub fn linear(&self) -> bool
        ensures { result ≡ is_linear self.now }
    {
        self.flags.contains(ReprFlags::IS_LINEAR)
    }

    /// The type of an enum's discriminants: the one that is named, else `isize`.
    pub fn discr_type(&self) -> IntegerType
        ensures { result ≡ discr_type_of self.now }
    {
        self.int.unwrap_or(IntegerType::Pointer(true))
    }

    /// Whether an enum's layout is that of a tag before the variants, without niches.
    pub fn inhibit_enum_layout_opt(&self) -> bool
        ensures { result ≡ (is_c self.now || is_some self.now.int) }
    {
        self.c() || self.int.is_some()
    }

    /// Whether a struct of one field is not passed as that field.
    pub fn inhibit_newtype_abi_optimization(&self) -> bool
        ensures { result ≡ is_abi_fixed self.now }
    {
        self.flags.intersects(ReprFlags::ABI_UNOPTIMIZABLE)
    }

    /// Whether fields stay in source order, as `repr(C)`, `repr(simd)`, a scalable vector, `linear` and an integer for
    /// the tag ask.
    pub fn inhibit_struct_field_reordering(&self) -> bool
        ensures { result ≡ has_fixed_order self.now }
    {
        self.flags.intersects(ReprFlags::FIELD_ORDER_UNOPTIMIZABLE) || self.int.is_some()
    }

    /// Whether fields may be shuffled: their order is free, and a shuffle is asked for.
    pub fn can_randomize_type_layout(&self) -> bool
        ensures { result ≡ may_randomize self.now }
    {
        !self.inhibit_struct_field_reordering() && self.flags.contains(ReprFlags::RANDOMIZE_LAYOUT)
    }

    /// Whether a union is not passed as its fields are.
    pub fn inhibits_union_abi_opt(&self) -> bool
        ensures { result ≡ is_c self.now }
    {
        self.c()
    }

    /// Whether both ask for the same, whatever the seeds.
    pub fn equal_up_to_seed(&self, other: &ReprOptions) -> bool
        ensures { IsTrue result ↔ IsEqualUpToSeed self.now other.now }
    {
        (self.int == other.int)
            & (self.align == other.align)
            & (self.pack == other.pack)
            & (self.flags == other.flags)
            & (self.scalable == other.scalable)
    }
}
