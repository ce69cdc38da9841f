//! Calls of the calculator: lists of fields, unions, enums and coroutines.

ghost use Rattle.std.specs.Prelude.{◌≡◌, ◌+◌, ◌<◌, ◌≤◌, All, IfOk, length, map};
ghost use Rattle.std.specs.List.{AllPairs};
ghost use Rattle.abi_base.specs.DataLayout.{IsLawfulDataLayout};
ghost use Rattle.abi_index.specs.Relation.{column_count, row_count};
ghost use Rattle.abi_scalar.specs.Lawful.{IsLawfulLayout};
ghost use Rattle.abi_univariant.specs.List.{HasLawfulAligns};
ghost use Rattle.abi_univariant.specs.Placement.{source_order};
ghost use Rattle.bench.specs.Asked.{IsLawfulCoroutine, IsLawfulEnum};
ghost use Rattle.rustc_abi.specs.Coroutines.{IsHeld};

use crate::inputs::{
    Fields, Leaf, Lists, Numbers, are_lawful, are_lawful_lists, list_of, list_of_one, size_of,
};
use crate::report::{Line, Outcome, time};
use abi_base::{Integer, NicheOptimizations, StructKind, TargetDataLayout as Target};
use abi_calc::{LayoutCalculator, state_tag};
use abi_index::{BitMatrix, FieldIdx, IndexSlice, IndexVec, VariantIdx};
use abi_scalar::{LayoutData, ReprFlags, ReprOptions};
use std::alloc::{AllocError, Global};
use std::io;

/// Lists under a data layout, with their repr.
#[derive(Drop)]
struct TimedLists<'a> {
    dl: &'a Target,
    lists: Vec<Fields<'a>>,
    repr: ReprOptions,
}

/// The sum of the sizes of these lists, 0 for one that is refused.
fn size_of_lists(alloc: Global, it: &TimedLists) -> u64
    requires data_layout { IsLawfulDataLayout it.now.dl.now }
    requires lists { All (All (λ f. IsLawfulLayout it.now.dl.now f.now)) it.now.lists.items }
    requires repr { HasLawfulAligns it.now.repr }
{
    let mut sum = 0u64;
    for fields in &it.lists {
        let calculator = LayoutCalculator::new(it.dl);
        let kind = StructKind::AlwaysSized;
        let made = calculator.layout_of_univariant(alloc, fields.as_slice(), &it.repr, kind);
        sum = sum.wrapping_add(size_of(made));
    }
    sum
}

/// The size of a union of the fields of its one variant, the only list, 0 where it is refused.
fn size_of_union(alloc: Global, it: &TimedLists) -> u64
    requires data_layout { IsLawfulDataLayout it.now.dl.now }
    requires one { length it.now.lists.items ≡ 1 }
    requires fields { All (All (λ f. IsLawfulLayout it.now.dl.now f.now)) it.now.lists.items }
{
    let repr = ReprOptions::default();
    let variants: IndexSlice<VariantIdx, Fields> = IndexSlice::new(&it.lists);
    size_of(LayoutCalculator::new(it.dl).layout_of_union(alloc, &repr, variants))
}

/// One list of `count` fields.
pub(crate) fn one_list<'a>(alloc: Global, leaves: &'a [Leaf], count: u64) -> Lists<'a>
    requires leaves { length leaves.now ≡ 5 }
    requires few { count ≤ 1_000_000 }
    ensures { IfOk result (λ lists. length lists.items ≡ 1) }
{
    let mut lists = Vec::with_capacity(alloc, 1)?;
    lists.push(list_of(alloc, leaves, &mut Numbers(12345), count)?)?;
    Ok(lists)
}

/// A thousand lists of one to eight fields.
pub(crate) fn small_lists<'a>(alloc: Global, leaves: &'a [Leaf]) -> Lists<'a>
    requires { length leaves.now ≡ 5 }
{
    let mut numbers = Numbers(777);
    let mut lists = Vec::with_capacity(alloc, 1000)?;
    for _step in 0..1000 {
        let count = 1 + numbers.below(8);
        lists.push(list_of(alloc, leaves, &mut numbers, count)?)?;
    }
    Ok(lists)
}

/// What `repr(C)` asks for.
pub(crate) fn c_repr() -> ReprOptions
    ensures { HasLawfulAligns result }
{
    ReprOptions {
        flags: ReprFlags::IS_C,
        ..ReprOptions::default()
    }
}

/// Times these lists.
pub(crate) fn time_lists(
    rt: &HostRuntime,
    dl: &Target,
    line: Line,
    lists: Vec<Fields>,
    repr: ReprOptions,
) -> Outcome
    requires data_layout { IsLawfulDataLayout dl.now }
    requires repr { HasLawfulAligns repr }
{
    if !are_lawful_lists(dl, &lists) {
        return Err(io::Error::other("a leaf is unlawful"));
    }
    let it = TimedLists { dl, lists, repr };
    time(rt, line, &move |alloc| size_of_lists(alloc, &it))
}

/// Times a union of the fields of its one variant.
pub(crate) fn time_union(rt: &HostRuntime, dl: &Target, line: Line, variant: Vec<Fields>) -> Outcome
    requires data_layout { IsLawfulDataLayout dl.now }
    requires one { length variant.items ≡ 1 }
{
    if !are_lawful_lists(dl, &variant) {
        return Err(io::Error::other("a leaf is unlawful"));
    }
    let it = TimedLists {
        dl,
        lists: variant,
        repr: ReprOptions::default(),
    };
    time(rt, line, &move |alloc| size_of_union(alloc, &it))
}

/// An enum of these variants, with their discriminants, which are their places, and the integer of the tag.
#[derive(Drop)]
struct TimedEnum<'a> {
    dl: &'a Target,
    repr: ReprOptions,
    variants: Vec<Fields<'a>>,
    discriminants: Vec<(VariantIdx, u128)>,
    tag: Integer,
}

/// Its size, 0 where it is refused.
fn size_of_enum(alloc: Global, it: &TimedEnum) -> u64
    requires { IsLawfulEnum it.now }
{
    let tag = it.tag;
    let variants: IndexSlice<VariantIdx, Fields> = IndexSlice::new(&it.variants);
    size_of(LayoutCalculator::new(it.dl).layout_of_struct_or_enum(
        alloc,
        &it.repr,
        variants,
        true,
        NicheOptimizations::Enabled,
        |_least, _greatest| (tag, false),
        it.discriminants.iter().copied(),
        true,
    ))
}

/// The indices of `count` variants, each with its place as discriminant.
fn numbered_variants(alloc: Global, count: usize) -> Result<Vec<(VariantIdx, u128)>, AllocError>
    requires { count ≤ 1_000_000 }
    ensures each { IfOk result (λ items. map (λ item. item.0) items.items ≡ source_order count) }
    ensures ascending { IfOk result (λ items. AllPairs (λ a b. a.1 < b.1) items.items) }
    ensures within { IfOk result (λ items. All (λ item. item.1 < count) items.items) }
{
    let mut items = Vec::with_capacity(alloc, count)?;
    for at in 0..count {
        items.push((VariantIdx::from_usize(at), at as u128))?;
    }
    Ok(items)
}

/// The fields of a variant, by its place: none; ten; 200 and a `char` in the first one and a `u8` in each other, beside the
/// niche of the `char`; or a `u8` and a `u16` in turn, neither of which has a niche.
fn variant_of<'a>(
    alloc: Global,
    leaves: &'a [Leaf],
    numbers: &mut Numbers,
    call: &str,
    place: u64,
) -> Result<Fields<'a>, AllocError>
    requires { length leaves.now ≡ 5 }
{
    match call {
        "enum_units" => Ok(IndexVec::new(alloc)),
        "enum_ten_fields" => list_of(alloc, leaves, numbers, 10),
        "enum_niche" if place == 0 => {
            let mut fields = list_of(alloc, leaves, &mut Numbers(99), 200)?;
            let _field: FieldIdx = fields.push(&leaves[3])?;
            Ok(fields)
        }
        "enum_no_niche" if place % 2 == 1 => list_of_one(alloc, &leaves[2]),
        _ => list_of_one(alloc, &leaves[0]),
    }
}

/// An enum of `count` such variants.
pub(crate) fn enum_of<'a>(alloc: Global, leaves: &'a [Leaf], call: &str, count: u64) -> Lists<'a>
    requires { length leaves.now ≡ 5 }
{
    let mut numbers = Numbers(4242);
    let mut variants = Vec::new(alloc);
    for place in 0..count {
        variants.push(variant_of(alloc, leaves, &mut numbers, call, place)?)?;
    }
    Ok(variants)
}

/// Times an enum of these variants.
pub(crate) fn time_enum(rt: &HostRuntime, dl: &Target, line: Line, variants: Vec<Fields>) -> Outcome
    requires { IsLawfulDataLayout dl.now }
{
    let count = variants.len();
    if count == 0 || count > 1_000_000 || !are_lawful_lists(dl, &variants) {
        return Err(io::Error::other("variants are unlawful"));
    }
    let repr = ReprOptions::default();
    let tag = Integer::fit_unsigned(count as u128 - 1);
    if tag.size() > Integer::from_attr(dl, repr.discr_type()).size() {
        return Err(io::Error::other("the tag is too wide"));
    }
    let discriminants = numbered_variants(rt.alloc(), count)?;
    let it = TimedEnum {
        dl,
        repr,
        variants,
        discriminants,
        tag,
    };
    time(rt, line, &move |alloc| size_of_enum(alloc, &it))
}

/// The locals that a state holds, by their places.
type State = IndexVec<FieldIdx, u32>;

/// A state of eight locals, from a place on.
fn state_of_eight(alloc: Global, from: u32) -> Result<State, AllocError>
    requires { from ≤ 1000 }
    ensures { IfOk result (IsHeld (from + 8)) }
{
    let mut state = IndexVec::new(alloc);
    for local in from..from + 8 {
        let _field: FieldIdx = state.push(local)?;
    }
    Ok(state)
}

/// `count` states, each of eight of `locals` locals.
fn states_of(
    alloc: Global,
    numbers: &mut Numbers,
    locals: u64,
    count: u64,
) -> Result<Vec<State>, AllocError>
    requires some { 8 < locals }
    requires few { locals ≤ 1000 }
    ensures count { IfOk result (λ states. length states.items ≡ count) }
    ensures held { IfOk result (λ states. All (IsHeld locals) states.items) }
{
    let mut states = Vec::new(alloc);
    for _step in 0..count {
        let from = numbers.below(locals - 8) as u32;
        states.push(state_of_eight(alloc, from)?)?;
    }
    Ok(states)
}

/// Twenty times as many conflicts at random as there are locals.
fn conflicts_of(
    alloc: Global,
    numbers: &mut Numbers,
    locals: u64,
) -> Result<BitMatrix<u32, u32>, AllocError>
    requires some { 0 < locals }
    requires few { locals ≤ 1000 }
    ensures rows { IfOk result (λ m. row_count m ≡ locals) }
    ensures columns { IfOk result (λ m. column_count m ≡ locals) }
{
    let mut conflicts = BitMatrix::new(alloc, locals as usize, locals as usize)?;
    for _step in 0..20 * locals {
        let row = numbers.below(locals) as u32;
        let column = numbers.below(locals) as u32;
        let _is_new = conflicts.insert(row, column)?;
    }
    Ok(conflicts)
}

/// A coroutine of these locals and of one prefix field.
#[derive(Drop)]
struct TimedCoroutine<'a> {
    dl: &'a Target,
    prefix: &'a Leaf,
    locals: Fields<'a>,
    states: Vec<State>,
    conflicts: BitMatrix<u32, u32>,
}

/// Its size, 0 where it is refused.
#[tactic(auto, using(abi_calc::proofs::CoroutineLemmas::OneCoroutine::one_tag))]
fn size_of_coroutine(alloc: Global, it: &TimedCoroutine) -> u64
    requires { IsLawfulCoroutine it.now }
{
    let Ok(prefix) = list_of_one(alloc, it.prefix) else {
        return 0;
    };
    let tag: Leaf = LayoutData::scalar(it.dl, state_tag(it.states.len()));
    let states: IndexSlice<VariantIdx, State> = IndexSlice::new(&it.states);
    size_of(LayoutCalculator::new(it.dl).layout_of_coroutine(
        alloc,
        IndexSlice::new(it.locals.as_slice().as_raw()),
        prefix,
        states,
        &it.conflicts,
        |_tag| &tag,
    ))
}

/// Times a coroutine of as many locals as the line has, and of 3 states for 8 locals.
pub(crate) fn time_coroutine(rt: &HostRuntime, dl: &Target, leaves: &[Leaf], line: Line) -> Outcome
    requires data_layout { IsLawfulDataLayout dl.now }
    requires leaves { length leaves.now ≡ 5 }
    requires some { 8 < line.size }
    requires few { line.size ≤ 1000 }
{
    let alloc = rt.alloc();
    let count = line.size;
    let prefix = &leaves[4];
    let mut numbers = Numbers(31);
    let locals = list_of(alloc, leaves, &mut numbers, count)?;
    let states = states_of(alloc, &mut numbers, count, 3 * count / 8)?;
    let conflicts = conflicts_of(alloc, &mut numbers, count)?;
    if !prefix.is_lawful(dl) || !are_lawful(dl, locals.as_slice().as_raw()) {
        return Err(io::Error::other("a leaf is unlawful"));
    }
    let it = TimedCoroutine {
        dl,
        prefix,
        locals,
        states,
        conflicts,
    };
    time(rt, line, &move |alloc| size_of_coroutine(alloc, &it))
}
