//! A layout that is lent.

ghost use Rattle.std.specs.Prelude.{◌≡◌};

use abi_base::{Align, Size};
use abi_index::{FieldIdx, VariantIdx};
use abi_scalar::{BackendRepr, FieldsShape, LayoutData, Niche, Variants};
use std::fmt;
use std::fmt::Debug;

/// A layout that is lent. Two are equal where their layouts are.
#[derive(Clone, Copy, PartialEq, Eq, Hash)]
pub struct Layout<'a>(pub &'a LayoutData<FieldIdx, VariantIdx>);

impl<'a> Debug for Layout<'a> {
    /// As the layout itself is written.
    fn fmt<W: fmt::Write>(&self, f: &mut fmt::Formatter<W>) -> fmt::Result {
        self.0.fmt(f)
    }
}

impl<'a> Layout<'a> {
    /// The layout itself, which is lent.
    pub fn data(self) -> &'a LayoutData<FieldIdx, VariantIdx>
        ensures { result.now ≡ self.entry.0.now }
    {
        self.0
    }

    /// Where the fields lie: at their offsets, one after another, or all at 0.
    pub fn fields(self) -> &'a FieldsShape<FieldIdx>
        ensures { result.now ≡ self.entry.0.now.fields }
    {
        &self.0.fields
    }

    /// The variants, and how bytes name one.
    pub fn variants(self) -> &'a Variants<FieldIdx, VariantIdx>
        ensures { result.now ≡ self.entry.0.now.variants }
    {
        &self.0.variants
    }

    /// How a code generator sees the values.
    pub fn backend_repr(self) -> BackendRepr
        ensures { result ≡ self.entry.0.now.backend_repr }
    {
        self.0.backend_repr
    }

    /// The place with the most free numbers.
    pub fn largest_niche(self) -> Option<Niche>
        ensures { result ≡ self.entry.0.now.largest_niche }
    {
        self.0.largest_niche
    }

    /// The alignment of the whole, which its size is a multiple of.
    pub fn align(self) -> Align
        ensures { result ≡ self.entry.0.now.align.abi }
    {
        self.0.align.abi
    }

    /// How many bytes a value has, padding at the end included.
    pub fn size(self) -> Size
        ensures { result ≡ self.entry.0.now.size }
    {
        self.0.size
    }

    /// The greatest alignment that a `repr(align)` in the type asks for.
    pub fn max_repr_align(self) -> Option<Align>
        ensures { result ≡ self.entry.0.now.max_repr_align }
    {
        self.0.max_repr_align
    }

    /// The alignment before `repr(align)` raised it.
    pub fn unadjusted_abi_align(self) -> Align
        ensures { result ≡ self.entry.0.now.unadjusted_abi_align }
    {
        self.0.unadjusted_abi_align
    }
}
