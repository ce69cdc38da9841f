//! Formulas for the numbers of a tag that name a variant.

ghost use Rattle.std.specs.Prelude.{◌≡◌, ◌≢◌, ◌<◌, ◌≤◌, ◌%◌, All, IfOk, MatchOption, length, ℕ};
ghost use Rattle.automata.specs.Nodes.{formulas_in};
ghost use Rattle.abi_scalar.specs.Range.{numbers_of};
ghost use Rattle.abi_tree.specs.Nodes.{tagged_variants_in, types_in};
ghost use Rattle.abi_tree.specs.Tag.{IsSpanned, Names, niche_number};
ghost use Rattle.abi_bytes.specs.Formulas.{IsFormula};
ghost use Rattle.abi_bytes.specs.Holding.{MakeNumber};
ghost use Rattle.abi_bytes.specs.Tags.{AreAllTaken, HasBeside, IsBeside};

use crate::making::Making;
use crate::numbers::range_formula;
use abi_base::Size;
use abi_index::{Idx, VariantIdx};
use abi_scalar::{TagEncoding, WrappingRange};
use abi_tree::is_named;
use automata::Formulas;
use std::alloc::AllocError;

/// A tag in a whole of so many cells, and the variants beside it, each with its number and its node.
#[derive(Clone, Copy)]
pub(crate) struct Tagging<'a> {
    pub(crate) whole: u64,
    pub(crate) offset: u64,
    pub(crate) width: u64,
    pub(crate) encoding: &'a TagEncoding<VariantIdx>,
    pub(crate) variants: &'a [(u128, usize)],
}

/// How a niche numbers variants: the first one's number is the start, and each next one's is one more, in the tag's width.
#[derive(Clone, Copy)]
struct NicheCount {
    width: u64,
    first: usize,
    start: u128,
}

/// Which variants a niche names: those from the first to the last but the untagged one.
#[derive(Clone, Copy)]
struct NicheTag {
    niche: NicheCount,
    untagged: usize,
    last: usize,
}

/// The number in a niche for a variant.
fn niche_number(niche: NicheCount, i: u128) -> u128
    requires { niche.width ≤ 16 }
    ensures { result ≡ niche_number niche.width niche.first niche.start i }
{
    let steps = i.saturating_sub(niche.first as u128);
    let width = Size::from_bytes(niche.width);
    width.truncate(niche.start.wrapping_add(steps))
}

/// The numbers of a tag that none of the variants from one to below the end has; `None` where they have all.
fn range_beside(niche: NicheCount, from: u128, end: u128) -> Option<WrappingRange>
    requires width { niche.width ≤ 16 }
    requires first { niche.first ≤ from }
    ensures { MatchOption result (AreAllTaken niche.width niche.first niche.start from end)
        (HasBeside niche.width niche.first niche.start from end) }
{
    let width = Size::from_bytes(niche.width);
    let most = width.truncate(340282366920938463463374607431768211455);
    if end <= from {
        return Some(WrappingRange {
            start: 0,
            end: most,
        });
    }
    if end - from > most {
        return None;
    }
    let first = niche_number(niche, from);
    let start = niche_number(niche, end);
    if first == 0 {
        return Some(WrappingRange { start, end: most });
    }
    Some(WrappingRange {
        start,
        end: first - 1,
    })
}

/// The formula for the numbers of a tag that none of the variants from one to below the end has.
fn beside_formula(
    walk: Making<'_>,
    formulas: &mut Formulas,
    niche: NicheCount,
    from: u128,
    end: u128,
) -> Result<usize, AllocError>
    requires width { niche.width ≤ 16 }
    requires first { niche.first ≤ from }
    ensures { IfOk result (IsFormula (formulas_in formulas.old) (formulas_in formulas.new) niche.width
        (MakeNumber walk.entry.order (IsBeside niche.width niche.first niche.start from end))) }
{
    match range_beside(niche, from, end) {
        Some(range) => {
            let width = niche.width as usize;
            let place = range_formula(walk.alloc, formulas, walk.order, width, range)?;
            Ok(place)
        }
        None => {
            let place = formulas.no_cells(walk.alloc)?;
            Ok(place)
        }
    }
}

/// The formula for the numbers of a tag that no variant of the span has but, if at all, the untagged one.
fn others_formula(
    walk: Making<'_>,
    formulas: &mut Formulas,
    span: NicheTag,
) -> Result<usize, AllocError>
    requires { span.niche.width ≤ 16 }
    ensures { IfOk result (IsFormula (formulas_in formulas.old) (formulas_in formulas.new) span.niche.width
        (MakeNumber walk.entry.order (λ tag. (other : ℕ) → IsSpanned span.untagged span.niche.first span.last other →
        tag ≢ niche_number span.niche.width span.niche.first span.niche.start other))) }
{
    let first = span.niche.first as u128;
    let untagged = span.untagged as u128;
    let past = span.last as u128 + 1;
    let before = beside_formula(walk, formulas, span.niche, first, untagged.min(past))?;
    let behind = beside_formula(walk, formulas, span.niche, first.max(untagged + 1), past)?;
    let place = formulas.conjunction(walk.alloc, before, behind)?;
    Ok(place)
}

/// The formula for the numbers of a tag that name a variant which no number but this one may name.
fn only_formula(
    walk: Making<'_>,
    formulas: &mut Formulas,
    tagging: Tagging<'_>,
    i: usize,
    number: u128,
) -> Result<usize, AllocError>
    requires width { tagging.width ≤ 16 }
    requires there { All (λ v. v.1 < length walk.nodes.now) tagging.variants.now }
    requires index { i < length tagging.variants.now }
    requires fits { number < numbers_of tagging.width }
    requires only { (tag : ℕ) → Names tagging.encoding.now tagging.width
        (tagged_variants_in (types_in walk.nodes.now) tagging.variants.now) tag i → tag ≡ number }
    ensures { IfOk result (IsFormula (formulas_in formulas.old) (formulas_in formulas.new) tagging.entry.width
        (MakeNumber walk.entry.order (λ tag. Names tagging.entry.encoding.now tagging.entry.width
        (tagged_variants_in (types_in walk.entry.nodes.now) tagging.entry.variants.now) tag i))) }
{
    let width = Size::from_bytes(tagging.width);
    if is_named(
        walk.nodes,
        tagging.encoding,
        width,
        tagging.variants,
        i,
        number,
    ) {
        let range = WrappingRange {
            start: number,
            end: number,
        };
        let width = tagging.width as usize;
        let place = range_formula(walk.alloc, formulas, walk.order, width, range)?;
        return Ok(place);
    }
    let place = formulas.no_cells(walk.alloc)?;
    Ok(place)
}

/// The formula for the numbers of a tag that name a variant.
pub(crate) fn tag_formula(
    walk: Making<'_>,
    formulas: &mut Formulas,
    tagging: Tagging<'_>,
    i: usize,
) -> Result<usize, AllocError>
    requires width { tagging.width ≤ 16 }
    requires there { All (λ v. v.1 < length walk.nodes.now) tagging.variants.now }
    requires index { i < length tagging.variants.now }
    ensures { IfOk result (IsFormula (formulas_in formulas.old) (formulas_in formulas.new) tagging.entry.width
        (MakeNumber walk.entry.order (λ tag. Names tagging.entry.encoding.now tagging.entry.width
        (tagged_variants_in (types_in walk.entry.nodes.now) tagging.entry.variants.now) tag i))) }
{
    match tagging.encoding {
        TagEncoding::Direct => {
            let width = Size::from_bytes(tagging.width);
            let number = width.truncate(tagging.variants[i].0);
            let place = only_formula(walk, formulas, tagging, i, number)?;
            Ok(place)
        }
        TagEncoding::Niche {
            untagged_variant,
            niche_variants,
            niche_start,
        } => {
            let niche = NicheCount {
                width: tagging.width,
                first: niche_variants.start.as_usize(),
                start: *niche_start,
            };
            let untagged = untagged_variant.as_usize();
            if i == untagged {
                let last = niche_variants.last.as_usize();
                let span = NicheTag {
                    niche,
                    untagged,
                    last,
                };
                let place = others_formula(walk, formulas, span)?;
                return Ok(place);
            }
            let number = niche_number(niche, i as u128);
            let place = only_formula(walk, formulas, tagging, i, number)?;
            Ok(place)
        }
    }
}
