//! Where the locals of a coroutine's states lie: promoted ones in the first list, the others in the state's own.

ghost use Rattle.std.specs.Prelude.{◌≡◌, ◌≢◌, ℕ, ◌+◌, ◌<◌, ◌≤◌, All, IfOk, IfSome, OnOk, length, map, slice_index, slice_index_or, IsPermutation, None, true};
ghost use Rattle.std.specs.List.{AllPairs};
ghost use Rattle.std.specs.Option.{option_to_list};
ghost use Rattle.abi_index.specs.BitSet.{domain_size, is_member, members_of};
ghost use Rattle.abi_univariant.specs.Placement.{source_order};
ghost use Rattle.abi_calc.specs.Coroutine.Lists.{own_of};
ghost use Rattle.abi_calc.specs.Coroutine.States.{ArePlaced, joined_places, own_places, places_with, rank_of, state_offsets, state_order, stitched};

use abi_base::Size;
use abi_index::{DenseBitSet, Idx, IndexVec};
use abi_scalar::VariantLayout;
use abi_scalar::variant_parts::set_places;
use std::alloc::{AllocError, Global};

/// How many promoted locals are below each of so many locals: a promoted one's place in the list of them.
pub(crate) fn ranks_below<LocalIdx: Idx>(
    alloc: Global,
    promoted: &DenseBitSet<LocalIdx>,
    count: usize,
) -> Result<Vec<usize>, AllocError>
    requires named { count ≤ LocalIdx.MAX_INDEX + 1 }
    requires same { domain_size promoted.now ≡ count }
    ensures { IfOk result (λ ranks. ranks.items ≡ map (rank_of promoted.now) (source_order count)) }
{
    let mut ranks = Vec::with_capacity(alloc, count)?;
    let mut below = 0;
    for place in 0..count {
        ranks.push(below)?;
        if promoted.contains(LocalIdx::new(place)) {
            below += 1;
        }
    }
    Ok(ranks)
}

/// How many promoted locals are below a promoted one.
fn rank_in<LocalIdx: Idx>(
    promoted: &DenseBitSet<LocalIdx>,
    below: &[usize],
    local: LocalIdx,
) -> usize
    requires below { below.now ≡ map (rank_of promoted.now)
        (source_order (domain_size promoted.now)) }
    requires promoted { is_member promoted.now (LocalIdx.number local) ≡ true }
    ensures rank { result ≡ rank_of promoted.now (LocalIdx.number local) }
    ensures within { result < length (members_of promoted.now) }
{
    below[local.index()]
}

/// The offsets of a state's locals, in bytes and as it lists them: of the promoted ones by rank, of the others one
/// after another.
fn state_offsets<FieldIdx: Idx, LocalIdx: Idx>(
    alloc: Global,
    promoted: &DenseBitSet<LocalIdx>,
    below: &[usize],
    shared: &[Size],
    own: &[Size],
    state: &[LocalIdx],
) -> Result<IndexVec<FieldIdx, Size>, AllocError>
    requires few { length state.now ≤ FieldIdx.MAX_INDEX + 1 }
    requires within { All (λ l. LocalIdx.number l < domain_size promoted.now) state.now }
    requires below { below.now ≡ map (rank_of promoted.now)
        (source_order (domain_size promoted.now)) }
    requires shared { length shared.now ≡ length (members_of promoted.now) }
    requires own { length own.now ≡ length (own_of promoted.now (map LocalIdx.number state.now)) }
    ensures { IfOk result (λ offsets.
        offsets ≡ state_offsets promoted.now shared.now own.now (map LocalIdx.number state.now)) }
{
    let mut offsets = IndexVec::with_capacity(alloc, state.len())?;
    let mut next = 0;
    for local in state {
        let offset = if promoted.contains(*local) {
            shared[rank_in(promoted, below, *local)]
        } else {
            let place = next;
            next += 1;
            own[place]
        };
        let _index = offsets.push(offset)?;
    }
    Ok(offsets)
}

/// The place of each promoted local in the state, by rank, where the state holds it.
fn held_places<LocalIdx: Idx>(
    alloc: Global,
    promoted: &DenseBitSet<LocalIdx>,
    below: &[usize],
    count: usize,
    state: &[LocalIdx],
) -> Result<Vec<Option<u32>>, AllocError>
    requires few { length state.now ≤ 0xFFFF_FFFF + 1 }
    requires within { All (λ l. LocalIdx.number l < domain_size promoted.now) state.now }
    requires once { AllPairs (λ a b. a ≢ b) (map LocalIdx.number state.now) }
    requires below { below.now ≡ map (rank_of promoted.now)
        (source_order (domain_size promoted.now)) }
    requires count { count ≡ length (members_of promoted.now) }
    ensures count { IfOk result (λ held. length held.items ≡ count) }
    ensures within { IfOk result
        (λ held. All (λ found. IfSome found (λ place. place < length state.now)) held.items) }
    ensures held { IfOk result (λ held. (rank : ℕ) →
        rank < count → option_to_list (slice_index_or held.items rank None) ≡ places_with
        (map LocalIdx.number state.now) (slice_index (members_of promoted.now) rank)) }
{
    let mut held = Vec::with_capacity(alloc, count)?;
    held.resize(count, None)?;
    for (place, local) in state.iter().enumerate() {
        if promoted.contains(*local) {
            held[rank_in(promoted, below, *local)] = Some(place as u32);
        }
    }
    Ok(held)
}

/// The places at which a state lists a local that isn't promoted.
fn own_places<LocalIdx: Idx>(
    alloc: Global,
    promoted: &DenseBitSet<LocalIdx>,
    state: &[LocalIdx],
) -> Result<Vec<usize>, AllocError>
    requires within { All (λ l. LocalIdx.number l < domain_size promoted.now) state.now }
    ensures within { IfOk result (λ places. All (λ place. place < length state.now) places.items) }
    ensures places { IfOk result
        (λ places. places.items ≡ own_places promoted.now (map LocalIdx.number state.now)) }
{
    let mut places = Vec::with_capacity(alloc, state.len())?;
    for (place, local) in state.iter().enumerate() {
        if !promoted.contains(*local) {
            places.push(place)?;
        }
    }
    Ok(places)
}

/// The held places, as these ranks follow one another, and then those that the indices name; so many in all.
#[inline(never)]
fn joined_places<FieldIdx: Idx>(
    alloc: Global,
    count: usize,
    held: &[Option<u32>],
    ranks: &[usize],
    places: &[usize],
    own: &[FieldIdx],
) -> Result<IndexVec<u32, FieldIdx>, AllocError>
    requires ranks { All (λ rank. rank < length held.now) ranks.now }
    requires own { All (λ i. FieldIdx.number i < length places.now) own.now }
    requires held { All (λ found. IfSome found (λ place. place ≤ FieldIdx.MAX_INDEX)) held.now }
    requires places { All (λ place. place ≤ FieldIdx.MAX_INDEX) places.now }
    requires room { length ranks.now + length own.now ≤ 0xFFFF_FFFF + 1 }
    ensures { IfOk result (λ list. list ≡ map FieldIdx.at
        (joined_places held.now ranks.now places.now (map FieldIdx.number own.now))) }
{
    let mut list = IndexVec::with_capacity(alloc, count)?;
    for rank in ranks {
        if let Some(place) = held[*rank] {
            let _place = list.push(FieldIdx::new(place as usize))?;
        }
    }
    for index in own {
        let _place = list.push(FieldIdx::new(places[index.index()]))?;
    }
    Ok(list)
}

/// A state's locals as they follow one another in memory: the promoted ones as their ranks do, then the others as in
/// the state's own list.
fn state_order<FieldIdx: Idx, LocalIdx: Idx>(
    alloc: Global,
    promoted: &DenseBitSet<LocalIdx>,
    below: &[usize],
    ranks: &[usize],
    own: &[FieldIdx],
    state: &[LocalIdx],
) -> Result<IndexVec<u32, FieldIdx>, AllocError>
    requires few { length state.now ≤ FieldIdx.MAX_INDEX + 1 }
    requires named { domain_size promoted.now ≤ LocalIdx.MAX_INDEX + 1 }
    requires within { All (λ l. LocalIdx.number l < domain_size promoted.now) state.now }
    requires once { AllPairs (λ a b. a ≢ b) (map LocalIdx.number state.now) }
    requires below { below.now ≡ map (rank_of promoted.now)
        (source_order (domain_size promoted.now)) }
    requires ranks { length ranks.now ≡ length (members_of promoted.now) }
    requires each { All (λ rank. rank < length (members_of promoted.now)) ranks.now }
    requires own { IsPermutation (source_order (length (own_of promoted.now
        (map LocalIdx.number state.now)))) (map FieldIdx.number own.now) }
    ensures { IfOk result (λ list. list ≡ map FieldIdx.at (state_order promoted.now ranks.now
        (map FieldIdx.number own.now) (map LocalIdx.number state.now))) }
{
    let held = held_places(alloc, promoted, below, ranks.len(), state)?;
    let places = own_places(alloc, promoted, state)?;
    joined_places(alloc, state.len(), &held, ranks, &places, own)
}

/// The promoted locals: which they are, how many of them are below each local, and by that rank their offsets, in
/// bytes; and their ranks as they follow one another in memory.
#[derive_where(Clone, Copy)]
pub(crate) struct PromotedLocals<'a, LocalIdx: Idx> {
    pub(crate) locals: &'a DenseBitSet<LocalIdx>,
    pub(crate) below: &'a [usize],
    pub(crate) offsets: &'a [Size],
    pub(crate) ranks: &'a [usize],
}

/// Places the fields of a state in the whole: those of its own list, and the promoted locals that it holds.
pub(crate) fn place_state<FieldIdx: Idx, LocalIdx: Idx>(
    alloc: Global,
    promoted: PromotedLocals<'_, LocalIdx>,
    state: &IndexVec<FieldIdx, LocalIdx>,
    variant: &mut VariantLayout<FieldIdx>,
) -> Result<(), AllocError>
    requires named { domain_size promoted.locals.now ≤ LocalIdx.MAX_INDEX + 1 }
    requires placed { ArePlaced promoted.locals.now promoted.below.now
        promoted.offsets.now promoted.ranks.now }
    requires within { All (λ l. LocalIdx.number l < domain_size promoted.locals.now) state.now }
    requires once { AllPairs (λ a b. a ≢ b) (map LocalIdx.number state.now) }
    requires offsets { length variant.old.field_offsets ≡
        length (own_of promoted.locals.now (map LocalIdx.number state.now)) }
    requires order { IsPermutation (source_order (length (own_of promoted.locals.now
        (map LocalIdx.number state.now)))) (map FieldIdx.number variant.old.fields_in_memory_order) }
    ensures { OnOk result (variant.new ≡ stitched FieldIdx.at FieldIdx.number
        promoted.entry.locals.now promoted.entry.offsets.now promoted.entry.ranks.now
        (map LocalIdx.number state.now) variant.old) }
{
    let PromotedLocals {
        locals,
        below,
        offsets,
        ranks,
    } = promoted;
    let state = state.as_slice().as_raw();
    let own = variant.field_offsets.as_slice().as_raw();
    let offsets = state_offsets(alloc, locals, below, offsets, own, state)?;
    let own = variant.in_memory_order();
    let in_memory_order = state_order(alloc, locals, below, ranks, own, state)?;
    set_places(variant, offsets, in_memory_order);
    Ok(())
}
