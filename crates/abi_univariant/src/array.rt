//! Arrays and slices.

ghost use Rattle.std.specs.Prelude.{◌≡◌, IfOk};
ghost use Rattle.abi_base.specs.DataLayout.{IsLawfulDataLayout};
ghost use Rattle.abi_scalar.specs.Lawful.{IsLawfulLayout};
ghost use Rattle.abi_univariant.specs.Array.{array_answer};

use abi_base::{AbiAlign, TargetDataLayout};
use abi_index::{Hash64, Idx};
use abi_scalar::{BackendRepr, FieldsShape, LayoutCalculatorError, LayoutData, Variants};

/// The layout of an array of that many elements, one after another; without a count, that of a slice, which has a size
/// of 0.
///
/// Element `n` lies `n` times the element's size from the start (Rust Reference, "Array layout").
///
/// Refused as `SizeOverflow` where the size is not below the data layout's bound.
pub fn layout_of_array<FieldIdx: Idx, VariantIdx: Idx, F>(
    dl: &TargetDataLayout,
    element: &LayoutData<FieldIdx, VariantIdx>,
    count_if_sized: Option<u64>,
) -> Result<LayoutData<FieldIdx, VariantIdx>, LayoutCalculatorError<F>>
    requires data_layout { IsLawfulDataLayout dl.now }
    requires element { IsLawfulLayout dl.now element.now }
    ensures exact { result ≡ array_answer (VariantIdx.at 0) dl.now element.now count_if_sized }
    ensures lawful { IfOk result (IsLawfulLayout dl.now) }
{
    let count = count_if_sized.unwrap_or(0);
    let Some(size) = element.size.checked_mul(count, dl) else {
        return Err(LayoutCalculatorError::SizeOverflow);
    };
    Ok(LayoutData {
        fields: FieldsShape::Array {
            stride: element.size,
            count,
        },
        variants: Variants::Single {
            index: VariantIdx::new(0),
        },
        backend_repr: BackendRepr::Memory {
            sized: count_if_sized.is_some(),
        },
        largest_niche: if count == 0 {
            None
        } else {
            element.largest_niche
        },
        uninhabited: element.uninhabited && count != 0,
        align: element.align,
        size,
        max_repr_align: None,
        unadjusted_abi_align: element.align.abi,
        repr_c: element.repr_c,
        randomization_seed: element.randomization_seed.wrapping_add(Hash64::new(count)),
    })
}
