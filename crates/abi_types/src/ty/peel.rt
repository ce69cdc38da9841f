//! What transparent types are wrapped around.

ghost use Rattle.std.specs.Prelude.{◌≡◌};
ghost use Rattle.abi_types.specs.Ty.Walks.{is_passed_indirectly, peel};

use crate::ty::interface::{TyAbiInterface, TyAndLayout};
use crate::ty::one_field::{NoBytes, only_field};
use crate::ty::walk::{At, Walk};

/// What transparent types are wrapped around: the one field that isn't of no bytes and no alignment, as long as there
/// is one.
#[tactic(auto, using(crate::proofs::PeelLemmas::peel_opaque, crate::proofs::PeelLemmas::peel_alone, crate::proofs::PeelLemmas::peel_field))]
pub(crate) fn walk_peel<W: Walk>(this: W) -> W
    requires { W.is_valid this }
    ensures valid { W.is_valid result }
    ensures peeled { W.typed_of result ≡ peel (W.typed_of this) }
{
    let mut at = this;
    'wrappers: while at.is_transparent() {
        match only_field(at, NoBytes::OfLeastAlign) {
            Some(i) => at = at.field(i),
            None => return at,
        }
    }
    at
}

/// Whether it is passed by a pointer where the calling convention isn't Rust's. The mark is that of the peeled type.
#[tactic(auto, using(crate::proofs::PeelLemmas::indirect_decided))]
fn walk_indirect<W: Walk>(this: W) -> bool
    requires { W.is_valid this }
    ensures { result ≡ is_passed_indirectly (W.typed_of this) }
{
    !NoBytes::OfLeastAlign.holds(this.layout()) && walk_peel(this).is_passed_indirectly()
}

impl<'a, Ty> TyAndLayout<'a, Ty> {
    /// What it is wrapped around, where it is transparent: its one field that has bytes or is aligned to more than one,
    /// and so on. Where there is no such field, or several, nothing is peeled away.
    pub fn peel_transparent_wrappers_from_non_1zst<C>(self, cx: &C) -> TyAndLayout<'a, Ty>
    where
        Ty: TyAbiInterface<'a, C> + Copy,
        requires { Ty.is_valid self }
        ensures valid { Ty.is_valid result }
        ensures peeled { Ty.typed_of result ≡ peel (Ty.typed_of self.entry) }
    {
        walk_peel(At::new(&self, cx)).as_ty_and_layout()
    }

    /// Whether it is passed by a pointer where the calling convention isn't Rust's: what it is wrapped around is marked
    /// so. What has no bytes and is aligned to one byte never is.
    pub fn pass_indirectly_in_non_rustic_abis<C>(self, cx: &C) -> bool
    where
        Ty: TyAbiInterface<'a, C> + Copy,
        requires { Ty.is_valid self }
        ensures { result ≡ is_passed_indirectly (Ty.typed_of self.entry) }
    {
        walk_indirect(At::new(&self, cx))
    }
}
