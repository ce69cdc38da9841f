//! What a calculator of layouts writes into a variant's layout. Nothing else has use for it, and what hands on the names of
//! this crate leaves this module out.

ghost use Rattle.std.specs.Prelude.{◌≡◌, None};

use crate::variants::VariantLayout;
use abi_base::Size;
use abi_index::{Idx, IndexVec};

/// Lays a variant's fields at these offsets, which follow one another in memory in this order.
pub fn set_places<FieldIdx: Idx>(
    variant: &mut VariantLayout<FieldIdx>,
    offsets: IndexVec<FieldIdx, Size>,
    in_memory_order: IndexVec<u32, FieldIdx>,
)
    ensures { variant.new ≡ record variant.old {
      field_offsets = offsets;
      fields_in_memory_order = in_memory_order;
    } }
{
    variant.field_offsets = offsets;
    variant.fields_in_memory_order = in_memory_order;
}

/// Takes the place with the most free numbers away from a variant whose type has another use for it.
pub fn forget_niche<FieldIdx: Idx>(variant: &mut VariantLayout<FieldIdx>)
    ensures { variant.new ≡ record variant.old { largest_niche = None } }
{
    variant.largest_niche = None;
}
