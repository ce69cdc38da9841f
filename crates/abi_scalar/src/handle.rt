//! What lends a layout.

ghost use Rattle.std.specs.Prelude.{◌≡◌};

use crate::layout_data::LayoutData;
use abi_index::Idx;

/// A value that lends a layout, the same each time.
pub trait LayoutHandle<FieldIdx: Idx, VariantIdx: Idx> {
    ghost use Rattle.abi_scalar.specs.declared.layout_data.LayoutData.{LayoutData};

    ghost layout_of: { Self → LayoutData FieldIdx VariantIdx };

    /// The layout.
    fn layout(&self) -> &LayoutData<FieldIdx, VariantIdx>
        ensures { result.now ≡ layout_of self.now };
}

impl<FieldIdx: Idx, VariantIdx: Idx> LayoutHandle<FieldIdx, VariantIdx>
    for &LayoutData<FieldIdx, VariantIdx> {
    ghost layout_of = { λ layout. layout.now };

    fn layout(&self) -> &LayoutData<FieldIdx, VariantIdx> {
        *self
    }
}

impl<FieldIdx: Idx, VariantIdx: Idx> LayoutHandle<FieldIdx, VariantIdx>
    for LayoutData<FieldIdx, VariantIdx> {
    ghost layout_of = { λ layout. layout };

    fn layout(&self) -> &LayoutData<FieldIdx, VariantIdx> {
        self
    }
}
