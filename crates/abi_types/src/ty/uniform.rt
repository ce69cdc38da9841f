//! Types that are uniform: their bytes are those of registers of one kind and size, one after another, or they have
//! none.

ghost use Rattle.std.specs.Prelude.{◌≡◌, Option, IfErr, IfOk, IsOk};
ghost use Rattle.abi_scalar.specs.Shape.{IsListed, listed_offsets};
ghost use Rattle.abi_types.specs.Homogeneous.{AllRun, Answers, AnswersRun, IsUnionShape, register_of};
ghost use Rattle.abi_types.specs.Ty.Typed.{layout_in};
ghost use Rattle.abi_types.specs.Uniform.{FieldsRun, IsUniform};

use crate::homogeneous::{Heterogeneous, HomogeneousAggregate};
use crate::reg::Reg;
use crate::ty::interface::{TyAbiInterface, TyAndLayout};
use crate::ty::one_field::NoBytes;
use crate::ty::walk::{At, Walk};
use abi_base::{RegKind, Size};
use abi_index::VariantIdx;
use abi_scalar::{BackendRepr, FieldsShape, Variants};

/// The register that all bytes of a type are passed in, one after another.
#[inline(always)]
#[cycle(uniform)]
fn uniform<W: Walk>(this: W) -> Result<HomogeneousAggregate, Heterogeneous>
    requires { W.is_valid this }
    ensures { Answers result (IsUniform (W.typed_of this)) }
{
    let layout = this.layout();
    let size = layout.size;
    match layout.backend_repr {
        BackendRepr::Scalar(scalar) => {
            let kind = RegKind::from_primitive(scalar.primitive());
            Ok(HomogeneousAggregate::Homogeneous(Reg { kind, size }))
        }
        BackendRepr::SimdVector { element, count: _ } => {
            let hint_vector_elem = element.primitive();
            let kind = RegKind::Vector { hint_vector_elem };
            Ok(HomogeneousAggregate::Homogeneous(Reg { kind, size }))
        }
        BackendRepr::ScalarPair {
            a: _,
            b: _,
            b_offset: _,
        } => uniform_parts(this),
        BackendRepr::Memory { sized } => {
            if sized {
                uniform_parts(this)
            } else {
                Err(Heterogeneous)
            }
        }
        BackendRepr::SimdScalableVector {
            element: _,
            count: _,
            number_of_vectors: _,
        } => Err(Heterogeneous),
    }
}

/// The register of a type's parts, where they end with it.
#[cycle(uniform)]
fn uniform_parts<W: Walk>(this: W) -> Result<HomogeneousAggregate, Heterogeneous>
    requires { W.is_valid this }
    ensures { Answers result (AllRun (W.typed_of this) (layout_in (W.typed_of this)).size) }
{
    let (found, end) = run_all(this)?;
    if end == this.layout().size.bytes() {
        Ok(found)
    } else {
        Err(Heterogeneous)
    }
}

/// The register of a type's fields, and of its variants where a tag distinguishes several, and where they end: each
/// variant begins where the fields end that all have.
#[cycle(uniform)]
fn run_all<W: Walk>(this: W) -> Result<(HomogeneousAggregate, u64), Heterogeneous>
    requires { W.is_valid this }
    ensures { AnswersRun result (AllRun (W.typed_of this)) }
{
    let (shared, shared_end) = run_fields(this, 0)?;
    match &this.layout().variants {
        Variants::Empty => Err(Heterogeneous),
        Variants::Single { index: _ } => Ok((shared, shared_end)),
        Variants::Multiple { variants, .. } => {
            let mut found = shared;
            let mut end = shared_end;
            for v in 0..variants.len() {
                let variant = this.variant(VariantIdx::from_usize(v));
                let (own, own_end) = run_fields(variant, shared_end)?;
                found = found.merge(own)?;
                end = end.max(own_end);
            }
            Ok((found, end))
        }
    }
}

/// The register of a type's fields, which begin at the start, and where they end.
#[inline(always)]
#[cycle(uniform)]
fn run_fields<W: Walk>(this: W, start: u64) -> Result<(HomogeneousAggregate, u64), Heterogeneous>
    requires { W.is_valid this }
    ensures { AnswersRun result (FieldsRun (W.typed_of this) start) }
{
    match &this.layout().fields {
        FieldsShape::Primitive => Err(Heterogeneous),
        FieldsShape::Union(_) => run_union(this, start),
        FieldsShape::Array { stride: _, count } => {
            if *count == 0 {
                return Ok((HomogeneousAggregate::NoData, start));
            }
            let found = uniform(this.field(0))?;
            Ok((found, this.layout().size.bytes()))
        }
        FieldsShape::Arbitrary {
            offsets,
            in_memory_order: _,
        } => run_listed(this, start, offsets.as_slice().as_raw()),
    }
}

/// The register of fields that are listed one by one at these offsets, the first at the start, each where the last one
/// ended, and where they end. What has no bytes and is aligned to one byte is passed over.
#[inline(always)]
#[cycle(uniform)]
fn run_listed<W: Walk>(
    this: W,
    start: u64,
    offsets: &[Size],
) -> Result<(HomogeneousAggregate, u64), Heterogeneous>
    requires valid { W.is_valid this }
    requires listed { IsListed (layout_in (W.typed_of this)).fields }
    requires offsets { offsets.now ≡ listed_offsets (layout_in (W.typed_of this)).fields }
    ensures { AnswersRun result (FieldsRun (W.typed_of this) start) }
{
    let layout = this.layout();
    // It is a number of 64 bits, and so is the end of each field.
    let _size = layout.size.bytes();
    let mut found = HomogeneousAggregate::NoData;
    let mut end = start;
    for i in 0..offsets.len() {
        let field = this.field(i);
        if NoBytes::OfLeastAlign.holds(field.layout()) {
            continue;
        }
        if offsets[i].bytes() != end {
            return Err(Heterogeneous);
        }
        found = found.merge(uniform(field)?)?;
        end += field.layout().size.bytes();
    }
    Ok((found, end))
}

/// The register of a union's fields, and the greatest of their ends and of the start. What has no bytes and is aligned
/// to one byte is passed over.
#[cycle(uniform)]
fn run_union<W: Walk>(this: W, start: u64) -> Result<(HomogeneousAggregate, u64), Heterogeneous>
    requires valid { W.is_valid this }
    requires union { IsUnionShape (layout_in (W.typed_of this)).fields }
    ensures { AnswersRun result (FieldsRun (W.typed_of this) start) }
{
    let mut found = HomogeneousAggregate::NoData;
    let mut end = start;
    for i in 0..this.layout().fields.count() {
        let field = this.field(i);
        if NoBytes::OfLeastAlign.holds(field.layout()) {
            continue;
        }
        found = found.merge(uniform(field)?)?;
        end = end.max(field.layout().size.bytes());
    }
    Ok((found, end))
}

impl<'a, Ty> TyAndLayout<'a, Ty> {
    /// The register that all bytes of the type are passed in, one after another, where they are all passed in registers
    /// of one kind and size; `NoData` where it has no bytes. `Heterogeneous` where parts differ, where bytes of it
    /// belong to no part, and where it has no value, no known size, or is a vector whose length the machine decides.
    /// The fields of a union, and variants that a tag distinguishes, lie side by side, and each variant behind the tag.
    pub fn homogeneous_aggregate<C>(&self, cx: &C) -> Result<HomogeneousAggregate, Heterogeneous>
    where
        Ty: TyAbiInterface<'a, C> + Copy,
        requires { Ty.is_valid self.now }
        ensures uniform { IfOk result (λ found.
            IsUniform (Ty.typed_of self.now) (register_of found)) }
        ensures heterogeneous { IfErr result (λ _. (r : Option Reg) →
            IsUniform (Ty.typed_of self.now) r → ⊥) }
        ensures only { (r : Option Reg) → IsUniform (Ty.typed_of self.now) r →
            IfOk result (λ found. r ≡ register_of found) × IsOk result }
    {
        uniform(At::new(self, cx))
    }
}
