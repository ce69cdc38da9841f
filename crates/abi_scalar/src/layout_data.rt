//! The layout of a type.

use crate::backend_repr::BackendRepr;
use crate::fields_shape::FieldsShape;
use crate::niche::Niche;
use crate::variants::Variants;
use abi_base::{AbiAlign, Align, Size};
use abi_index::{Hash64, Idx, TryClone};
use std::alloc::{AllocError, Global};
use std::fmt;
use std::fmt::Debug;

/// The layout of a type: how large it is, how it is aligned, and where its parts lie.
#[derive(Drop, PartialEq, Eq, Hash)]
pub struct LayoutData<FieldIdx: Idx, VariantIdx: Idx> {
    /// Where the fields lie, without those that one variant alone has.
    pub fields: FieldsShape<FieldIdx>,
    /// The variants that the type has, and what distinguishes them.
    pub variants: Variants<FieldIdx, VariantIdx>,
    /// How a code generator sees the values.
    pub backend_repr: BackendRepr,
    /// The place with the most free numbers.
    pub largest_niche: Option<Niche>,
    /// Whether no value of the type can be.
    pub uninhabited: bool,
    /// The alignment of the whole, which its size is a multiple of.
    pub align: AbiAlign,
    /// How many bytes a value takes, with padding at its end; of an unsized type those before its tail.
    pub size: Size,
    /// The greatest alignment that a `repr(align)` in the type asks for.
    pub max_repr_align: Option<Align>,
    /// The alignment before `repr(align)` raised it.
    pub unadjusted_abi_align: Align,
    /// Whether the fields lie as `repr(C)` has them.
    pub repr_c: bool,
    /// A hash of the parts, to seed a shuffle of fields with.
    pub randomization_seed: Hash64,
}

impl<FieldIdx: Idx, VariantIdx: Idx> TryClone for LayoutData<FieldIdx, VariantIdx> {
    fn try_clone(&self, alloc: Global) -> Result<Self, AllocError> {
        Ok(LayoutData {
            fields: self.fields.try_clone(alloc)?,
            variants: self.variants.try_clone(alloc)?,
            backend_repr: self.backend_repr,
            largest_niche: self.largest_niche,
            uninhabited: self.uninhabited,
            align: self.align,
            size: self.size,
            max_repr_align: self.max_repr_align,
            unadjusted_abi_align: self.unadjusted_abi_align,
            repr_c: self.repr_c,
            randomization_seed: self.randomization_seed,
        })
    }
}

impl<FieldIdx: Idx, VariantIdx: Idx> Debug for LayoutData<FieldIdx, VariantIdx> {
    fn fmt<W: fmt::Write>(&self, f: &mut fmt::Formatter<W>) -> fmt::Result {
        f.debug_struct("Layout")
            .field("size", &self.size)
            .field("align", &self.align)
            .field("backend_repr", &self.backend_repr)
            .field("fields", &self.fields)
            .field("largest_niche", &self.largest_niche)
            .field("uninhabited", &self.uninhabited)
            .field("variants", &self.variants)
            .field("max_repr_align", &self.max_repr_align)
            .field("unadjusted_abi_align", &self.unadjusted_abi_align)
            .field("repr_c", &self.repr_c)
            .field("randomization_seed", &self.randomization_seed)
            .finish()
    }
}
