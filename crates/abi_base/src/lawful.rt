//! When types have layouts under a data layout.

ghost use Rattle.std.specs.Prelude.{◌^◌, ◌≤◌, ◌↔◌, IsTrue};
ghost use Rattle.std.specs.Int.{◌∣◌};
ghost use Rattle.std.specs.List.{All};
ghost use Rattle.abi_base.specs.declared.integer.Integer.{Integer};
ghost use Rattle.abi_base.specs.declared.float.Float.{Float};
ghost use Rattle.abi_base.specs.Align.{max_exponent};
ghost use Rattle.abi_base.specs.Integer.{integer_size, integer_align};
ghost use Rattle.abi_base.specs.Float.{float_size, float_align};
ghost use Rattle.abi_base.specs.DataLayout.{IsPointerWidth, HasLawfulPointer, IsLawfulDataLayout, HasLawfulDefault, alignments_of};

use crate::address_space::AddressSpace;
use crate::align::Align;
use crate::data_layout::{AddressSpaces, TargetDataLayout, VectorAligns};
use crate::size::Size;

impl TargetDataLayout {
    /// Whether types have layouts under it: each integer's and each float's size is a multiple of
    /// its alignment, pointers and indices have 16, 32 or 64 bits, a pointer's size is a multiple
    /// of its alignment, and no alignment is above 2^29 bytes.
    pub fn is_lawful(&self) -> bool
        ensures { IsTrue result ↔ IsLawfulDataLayout self.now }
    {
        self.integers_fit() & self.floats_fit() & self.default_fits() & self.within_limit()
    }

    /// Whether the default space's pointers and indices have 16, 32 or 64 bits, the pointers a
    /// multiple of their alignment.
    fn default_fits(&self) -> bool
        ensures { IsTrue result ↔ HasLawfulDefault self.now }
    {
        let spec = self.default_address_space_pointer_spec;
        is_pointer_width(spec.pointer_size)
            & is_pointer_width(spec.pointer_offset)
            & spec.pointer_align.divides_size(spec.pointer_size)
    }

    /// Whether the space is known, and its pointers have 1 to 16 bytes, a multiple of their
    /// alignment.
    pub fn has_lawful_pointer(&self, space: AddressSpace) -> bool
        ensures { IsTrue result ↔ HasLawfulPointer self.now space }
    {
        match self.spec_in(space) {
            Some(spec) => spec.is_lawful(),
            None => false,
        }
    }

    /// Whether each integer's size is a multiple of its alignment.
    fn integers_fit(&self) -> bool
        ensures { IsTrue result ↔ ((i : Integer) → 2 ^ integer_align self.now i ∣ integer_size i) }
    {
        self.i8_align.divides(1)
            & self.i16_align.divides(2)
            & self.i32_align.divides(4)
            & self.i64_align.divides(8)
            & self.i128_align.divides(16)
    }

    /// Whether each float's size is a multiple of its alignment.
    fn floats_fit(&self) -> bool
        ensures { IsTrue result ↔ ((f : Float) → 2 ^ float_align self.now f ∣ float_size f) }
    {
        self.f16_align.divides(2)
            & self.f32_align.divides(4)
            & self.f64_align.divides(8)
            & self.f128_align.divides(16)
    }

    /// Whether no alignment is above the greatest.
    fn within_limit(&self) -> bool
        ensures { IsTrue result ↔ All (λ a. a ≤ max_exponent) (alignments_of self.now) }
    {
        let scalars = [
            self.i1_align,
            self.i8_align,
            self.i16_align,
            self.i32_align,
            self.i64_align,
            self.i128_align,
            self.f16_align,
            self.f32_align,
            self.f64_align,
            self.f128_align,
            self.aggregate_align,
            self.default_address_space_pointer_spec.pointer_align,
        ];
        all_within_limit(&scalars)
            & vectors_within_limit(&self.vector_align)
            & spaces_within_limit(&self.address_space_info)
    }
}

/// Whether no alignment is above the greatest.
fn all_within_limit(aligns: &[Align]) -> bool
    ensures { IsTrue result ↔ All (λ a. a ≤ max_exponent) aligns.now }
{
    aligns.iter().all(|align| align.within_limit())
}

/// Whether no alignment of vectors is above the greatest.
fn vectors_within_limit(aligns: &VectorAligns) -> bool
    ensures { IsTrue result ↔ All (λ e. e.1 ≤ max_exponent) aligns.now }
{
    aligns.as_slice().iter().all(|entry| entry.1.within_limit())
}

/// Whether no alignment of the spaces' pointers is above the greatest.
fn spaces_within_limit(spaces: &AddressSpaces) -> bool
    ensures { IsTrue result ↔ All (λ e. e.1.pointer_align ≤ max_exponent) spaces.now }
{
    spaces
        .as_slice()
        .iter()
        .all(|entry| entry.1.pointer_align.within_limit())
}

/// Whether it is 16, 32 or 64 bits.
fn is_pointer_width(size: Size) -> bool
    ensures { IsTrue result ↔ IsPointerWidth size }
{
    let bytes = size.bytes();
    bytes == 2 || bytes == 4 || bytes == 8
}
