//! Whether some bytes are padding of some variants and not of others.

ghost use Rattle.std.specs.Prelude.{◌≡◌};
ghost use Rattle.abi_types.specs.Ty.Walks.{has_variant_dependent_padding};

use crate::ty::interface::{TyAbiInterface, TyAndLayout};
use crate::ty::walk::{At, Walk};
use abi_scalar::{FieldsShape, Variants};

/// Whether it has a tag that distinguishes variants, or holds such a type other than in a union.
#[tactic(auto, using(crate::proofs::VariantPaddingLemmas::padding_steps))]
fn walk_variant_padding<W: Walk>(this: W) -> bool
    requires { W.is_valid this }
    ensures { result ≡ has_variant_dependent_padding (W.typed_of this) }
{
    match &this.layout().variants {
        Variants::Multiple { .. } => return true,
        Variants::Empty => return false,
        Variants::Single { index: _ } => {}
    }
    match &this.layout().fields {
        FieldsShape::Primitive => false,
        FieldsShape::Union(_) => false,
        FieldsShape::Array { stride: _, count } => {
            *count > 0 && walk_variant_padding(this.field(0))
        }
        FieldsShape::Arbitrary {
            offsets,
            in_memory_order: _,
        } => {
            for i in 0..offsets.len() {
                if walk_variant_padding(this.field(i)) {
                    return true;
                }
            }
            false
        }
    }
}

impl<'a, Ty> TyAndLayout<'a, Ty> {
    /// Whether it has a tag that distinguishes variants, or a field, also in fields, that has one. What a union holds
    /// doesn't count.
    pub fn has_variant_dependent_padding<C>(&self, cx: &C) -> bool
    where
        Ty: TyAbiInterface<'a, C> + Copy,
        requires { Ty.is_valid self.now }
        ensures { result ≡ has_variant_dependent_padding (Ty.typed_of self.now) }
    {
        walk_variant_padding(At::new(self, cx))
    }
}
