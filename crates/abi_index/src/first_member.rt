//! The next member of a set.

ghost use Rattle.std.specs.Prelude.{◌≡◌, ◌<◌, ◌+◌, [], ◌∷◌, length, IfNone, IfSome};
ghost use Rattle.abi_index.specs.BitSet.{members_from};

/// The first member from a place on.
#[tactic(auto, using(crate::proofs::BitSetLemmas::member_step, crate::proofs::BitSetLemmas::other_step, crate::proofs::BitSetLemmas::none_from))]
pub(crate) fn first_from(bits: &[bool], from: usize) -> Option<usize>
    ensures none { IfNone result (members_from bits.now from ≡ []) }
    ensures first { IfSome result (λ k.
        members_from bits.now from ≡ k ∷ members_from bits.now (k + 1)) }
    ensures within { IfSome result (λ k. k < length bits.now) }
{
    for place in from..bits.len() {
        if bits[place] {
            return Some(place);
        }
    }
    None
}
