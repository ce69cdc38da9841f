//! What is written of layouts, alone and beside a type.

ghost use Rattle.abi_base.specs.DataLayout.{IsLawfulDataLayout};

use crate::texts::is_text;
use abi_base::{Integer, Primitive, TargetDataLayout};
use abi_index::{FieldIdx, VariantIdx};
use abi_scalar::{LayoutData, Scalar, WrappingRange};
use abi_types::{Layout, TyAndLayout};
use std::alloc::{AllocError, Global};
use std::test::Fail;

/// A byte that is 0 or 1.
const TRUTH: Scalar = Scalar::Initialized {
    value: Primitive::Int(Integer::I8, false),
    valid_range: WrappingRange { start: 0, end: 1 },
};

/// A union's word of 32 bits.
const WORD: Scalar = Scalar::Union {
    value: Primitive::Int(Integer::I32, false),
};

/// The seed is 1, of its bytes, and twice 2^32, of an unsigned integer, and 1 rotated right by 16.
const OF_TRUTH: &str =
    "Layout { size: Size(1 bytes), align: Align(1 bytes), backend_repr: Scalar(u8 is 0..=1), \
     fields: Primitive, largest_niche: Some(Niche { offset: Size(0 bytes), value: u8, valid_range: 0..=1 }), \
     uninhabited: false, variants: Single { index: VariantIdx { raw: 0 } }, max_repr_align: None, \
     unadjusted_abi_align: Align(1 bytes), repr_c: false, \
     randomization_seed: Hash64 { inner: 281483566645249 } }";

/// The seed is the sum of the sizes.
const OF_PAIR: &str =
    "Layout { size: Size(8 bytes), align: Align(4 bytes), backend_repr: ScalarPair { a: u8 is 0..=1, \
     b: union u32, b_offset: Size(4 bytes) }, fields: Arbitrary { offsets: [Size(0 bytes), Size(4 bytes)], \
     in_memory_order: [FieldIdx { raw: 0 }, FieldIdx { raw: 1 }] }, \
     largest_niche: Some(Niche { offset: Size(0 bytes), value: u8, valid_range: 0..=1 }), \
     uninhabited: false, variants: Single { index: VariantIdx { raw: 0 } }, max_repr_align: None, \
     unadjusted_abi_align: Align(4 bytes), repr_c: false, randomization_seed: Hash64 { inner: 5 } }";

/// Whether the layout is written so, the same where it is lent, and beside a type as its field.
fn is_written(
    alloc: Global,
    layout: &LayoutData<FieldIdx, VariantIdx>,
    text: &str,
) -> Result<bool, AllocError> {
    let lent = Layout(layout);
    let it = TyAndLayout {
        ty: "the_type",
        layout: lent,
    };
    let both = format!(in alloc; "TyAndLayout {{ ty: the_type, layout: {text} }}")?;
    let is_so = is_text(format!(in alloc; "{layout:?}"), text)?
        && is_text(format!(in alloc; "{lent:?}"), text)?;
    Ok(is_so && is_text(format!(in alloc; "{it:?}"), both.as_str())?)
}

/// A truth's, and that of a truth and a word.
fn are_written(alloc: Global, dl: &TargetDataLayout) -> Result<bool, AllocError>
    requires { IsLawfulDataLayout dl.now }
{
    let truth = LayoutData::scalar(&dl, TRUTH);
    let pair = LayoutData::scalar_pair(alloc, &dl, TRUTH, WORD);
    Ok(is_written(alloc, &truth, OF_TRUTH)? && is_written(alloc, &pair, OF_PAIR)?)
}

#[test]
fn layouts_have_texts(rt: HostRuntime) -> Result<(), Fail> {
    let dl = TargetDataLayout::default_in(rt.alloc())?;
    assert!(rt; are_written(rt.alloc(), &dl)?);
    Ok(())
}
